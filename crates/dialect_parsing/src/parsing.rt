//! Types and constants from their dialect text.

ghost use Rattle.std.specs.Prelude.{◌≡◌, ◌<◌, ◌≤◌, ℕ, Err, IfOk, length};
ghost use Rattle.std.specs.List.{All};
ghost use Rattle.dialect_types.specs.Trees.{TypeTree, type_at, type_trees, structs_of};
ghost use Rattle.dialect_types.specs.declared.types.TypeHandle.{TypeHandle};
ghost use Rattle.const_attrs.specs.Trees.{AttrTree, attr_tree, attr_data, HasTypesBelow};
ghost use Rattle.dialect_parsing.specs.Constants.{SpellsAttr};
ghost use Rattle.dialect_parsing.specs.Spelling.{Grows, Spells};
ghost use Rattle.dialect_parsing.specs.declared.parse_err.ParseErr.TheVariants.{Syntax};

use crate::constants;
use crate::parse_err::{ParseErr, Refused};
use crate::reading::read;
use crate::symbols::{Found, SymbolReader, symbols};
use const_attrs::const_attr::ConstAttr;
use dialect_types::type_store::TypeStore;
use dialect_types::types::TypeHandle;
use std::alloc::Global;

/// The place of the symbol that was read last, where so many were read; 0 if there is none.
fn place_of(places: &[u32], read: usize) -> u32
    ensures { (n : ℕ) → All (λ p. p ≤ n) places.now → result ≤ n }
{
    match places.get(read.saturating_sub(1)) {
        Some(place) => *place,
        None => 0,
    }
}

/// The number of the type that a text spells, new or old; a struct with a name is one that the store holds. Where the text
/// spells none, or memory is wanting, the store may have more types than before: parts that were read.
pub fn parse_type(
    alloc: Global,
    types: &mut TypeStore,
    bytes: &[u8],
) -> Result<TypeHandle, ParseErr>
    ensures ok { IfOk result (λ h. (h.0 < length types.new) × Spells (structs_of types.old) bytes.now (type_at (type_trees types.new) h)) }
    ensures err { (at : ℕ) → result ≡ Err (Syntax at) → (at ≤ length bytes.now) × ((t : TypeTree) → Spells (structs_of types.old) bytes.now t → ⊥) }
    ensures grows { Grows types.old types.new }
    ensures kept { (t : TypeHandle) → t.0 < length types.old → type_at (type_trees types.new) t ≡ type_at (type_trees types.old) t }
{
    let found = symbols(alloc, bytes)?;
    let mut reader = SymbolReader::new(found.symbols.as_slice());
    match read(alloc, types, &mut reader) {
        Ok(ty) => Ok(ty),
        Err(Refused::NoMemory) => Err(ParseErr::NoMemory),
        Err(Refused::Syntax) => Err(ParseErr::Syntax(place_of(&found.places, reader.count()))),
    }
}

/// The constant that a text spells, whose types are numbers of the store, new or old; it may break the rules of constants,
/// which `ConstAttr::verify` asks. Where the text spells none, or memory is wanting, the store may have more types than
/// before: those that were read.
pub fn parse_attr(alloc: Global, types: &mut TypeStore, bytes: &[u8]) -> Result<ConstAttr, ParseErr>
    ensures ok { IfOk result (λ c. HasTypesBelow (length types.new) (attr_data c) × SpellsAttr (structs_of types.old) bytes.now (attr_tree (type_trees types.new) (attr_data c))) }
    ensures err { (at : ℕ) → result ≡ Err (Syntax at) → (at ≤ length bytes.now) × ((c : AttrTree) → SpellsAttr (structs_of types.old) bytes.now c → ⊥) }
    ensures grows { Grows types.old types.new }
    ensures kept { (t : TypeHandle) → t.0 < length types.old → type_at (type_trees types.new) t ≡ type_at (type_trees types.old) t }
{
    let found = symbols(alloc, bytes)?;
    let mut reader = SymbolReader::new(found.symbols.as_slice());
    match constants::read(alloc, types, &mut reader) {
        Ok(constant) => Ok(constant),
        Err(Refused::NoMemory) => Err(ParseErr::NoMemory),
        Err(Refused::Syntax) => Err(ParseErr::Syntax(place_of(&found.places, reader.count()))),
    }
}
