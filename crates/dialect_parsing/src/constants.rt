//! A constant from what its tokens say.

ghost use Rattle.std.specs.Prelude.{◌≡◌, ◌<◌, ◌≤◌, ◌+◌, ◌∷◌, [], ℕ, List, Err, true, length, IfOk, IfErr};
ghost use Rattle.kinds.specs.declared.fill.Fill.{Fill};
ghost use Rattle.dialect_types.specs.Trees.{NamedStruct, TypeTree, type_at, type_trees, structs_of};
ghost use Rattle.const_attrs.specs.Trees.{AttrTree, attr_tree, attr_trees, attr_data, attrs_data, HasTypesBelow, HaveTypesBelow};
ghost use Rattle.dialect_parsing.specs.ConstantReading.{AreBytesRead, AreNoBytes, IsEndRead, IsNoEnd, IsAttrRead, IsNoAttr, AreAttrsRead, AreNoAttrs};
ghost use Rattle.dialect_parsing.specs.Reading.{is_width};
ghost use Rattle.dialect_parsing.specs.Spelling.{Grows};
ghost use Rattle.dialect_parsing.specs.declared.parse_err.Refused.TheVariants.{Syntax};
ghost use Rattle.dialect_parsing.specs.declared.symbol.Symbol.{Symbol};
ghost use Rattle.dialect_parsing.specs.declared.symbol.Symbol.TheVariants as S;

use crate::heads::{expect, width};
use crate::making::made;
use crate::parse_err::Refused;
use crate::reading::{DEEPEST, at_end, read_type};
use crate::symbol::Symbol;
use crate::symbols::SymbolReader;
use const_attrs::const_attr::ConstAttr;
use dialect_types::type_store::TypeStore;
use dialect_types::types::{TypeHandle, TypeKind};
use kinds::fill::Fill;
use std::alloc::Global;

/// Reads the value of an integer, before its type.
fn value(symbols: &mut SymbolReader) -> Result<u64, Refused>
    ensures ok { IfOk result (λ n. symbols.old ≡ S.Number n ∷ symbols.new) }
    ensures err { IfErr result (λ _. (n : ℕ) (ss : List Symbol) → symbols.old ≡ S.Number n ∷ ss → ⊥) }
{
    match symbols.next() {
        Some(Symbol::Number(value)) => Ok(*value),
        _ => Err(Refused::Syntax),
    }
}

/// Reads an integer, of which the first symbol was read.
fn integer(types: &mut TypeStore, symbols: &mut SymbolReader) -> Result<ConstAttr, Refused>
    ensures within { IfOk result (λ c. HasTypesBelow (length types.new) (attr_data c)) }
    ensures ok { IfOk result (λ c. IsAttrRead (structs_of types.old) 1 (S.Integer ∷ symbols.old) (attr_tree (type_trees types.new) (attr_data c)) symbols.new) }
    ensures err { result ≡ Err Syntax → (room : ℕ) → IsNoAttr (structs_of types.old) room (S.Integer ∷ symbols.old) }
    ensures grows { Grows types.old types.new }
{
    expect(symbols, &Symbol::Less)?;
    let value = value(symbols)?;
    expect(symbols, &Symbol::Colon)?;
    let width = width(symbols)?;
    expect(symbols, &Symbol::Greater)?;
    let ty = made(types, TypeKind::Integer(width))?;
    Ok(ConstAttr::Integer(ty, value))
}

/// Reads a type, and the sign that closes a constant behind it.
fn end(
    alloc: Global,
    types: &mut TypeStore,
    symbols: &mut SymbolReader,
) -> Result<TypeHandle, Refused>
    ensures within { IfOk result (λ h. h.0 < length types.new) }
    ensures ok { IfOk result (λ h. IsEndRead (structs_of types.old) symbols.old (type_at (type_trees types.new) h) symbols.new) }
    ensures err { result ≡ Err Syntax → IsNoEnd (structs_of types.old) symbols.old }
    ensures grows { Grows types.old types.new }
{
    let ty = read_type(alloc, types, symbols, DEEPEST)?;
    expect(symbols, &Symbol::Greater)?;
    Ok(ty)
}

/// Reads zero, undef or poison, of which the first symbol was read.
fn filled(
    alloc: Global,
    types: &mut TypeStore,
    symbols: &mut SymbolReader,
    fill: Fill,
) -> Result<ConstAttr, Refused>
    ensures within { IfOk result (λ c. HasTypesBelow (length types.new) (attr_data c)) }
    ensures ok { IfOk result (λ c. IsAttrRead (structs_of types.old) 1 (S.Filled fill ∷ symbols.old) (attr_tree (type_trees types.new) (attr_data c)) symbols.new) }
    ensures err { result ≡ Err Syntax → (room : ℕ) → IsNoAttr (structs_of types.old) room (S.Filled fill ∷ symbols.old) }
    ensures grows { Grows types.old types.new }
{
    expect(symbols, &Symbol::Less)?;
    let ty = end(alloc, types, symbols)?;
    Ok(ConstAttr::filled(fill, ty))
}

/// Reads a byte.
fn byte(symbols: &mut SymbolReader) -> Result<u8, Refused>
    ensures ok { IfOk result (λ b. symbols.old ≡ S.Number b ∷ symbols.new) }
    ensures err { IfErr result (λ _. (b : ℕ) (ss : List Symbol) → b < 256 → symbols.old ≡ S.Number b ∷ ss → ⊥) }
{
    match symbols.next() {
        Some(Symbol::Number(byte)) if *byte <= 255 => Ok(*byte as u8),
        _ => Err(Refused::Syntax),
    }
}

/// Reads bytes with commas between them, and the bracket behind them.
fn byte_list(alloc: Global, symbols: &mut SymbolReader) -> Result<Vec<u8>, Refused>
    ensures ok { IfOk result (λ bytes. AreBytesRead symbols.old bytes.items symbols.new) }
    ensures err { result ≡ Err Syntax → AreNoBytes symbols.old }
{
    let mut found = Vec::new(alloc);
    if symbols.skip(&Symbol::CloseBracket) {
        return Ok(found);
    }
    let first = byte(symbols)?;
    found.push(first)?;
    while !symbols.skip(&Symbol::CloseBracket) {
        expect(symbols, &Symbol::Comma)?;
        let next = byte(symbols)?;
        found.push(next)?;
    }
    Ok(found)
}

/// Reads bytes, of which the first symbol was read.
fn bytes(alloc: Global, symbols: &mut SymbolReader) -> Result<ConstAttr, Refused>
    ensures within { IfOk result (λ c. (n : ℕ) → HasTypesBelow n (attr_data c)) }
    ensures ok { IfOk result (λ c. (structs : List NamedStruct) (ts : List TypeTree) → IsAttrRead structs 1 (S.Bytes ∷ symbols.old) (attr_tree ts (attr_data c)) symbols.new) }
    ensures err { result ≡ Err Syntax → (structs : List NamedStruct) (room : ℕ) → IsNoAttr structs room (S.Bytes ∷ symbols.old) }
{
    expect(symbols, &Symbol::Less)?;
    expect(symbols, &Symbol::OpenBracket)?;
    let bytes = byte_list(alloc, symbols)?;
    expect(symbols, &Symbol::Greater)?;
    Ok(ConstAttr::Bytes(bytes))
}

/// Reads a constant that nests at most so deep.
#[cycle(read_constant)]
fn read_constant(
    alloc: Global,
    types: &mut TypeStore,
    symbols: &mut SymbolReader,
    room: u32,
) -> Result<ConstAttr, Refused>
    requires { room ≤ 1000 }
    ensures within { IfOk result (λ c. HasTypesBelow (length types.new) (attr_data c)) }
    ensures ok { IfOk result (λ c. IsAttrRead (structs_of types.old) room symbols.old (attr_tree (type_trees types.new) (attr_data c)) symbols.new) }
    ensures err { result ≡ Err Syntax → IsNoAttr (structs_of types.old) room symbols.old }
    ensures grows { Grows types.old types.new }
{
    let Some(first) = symbols.next() else {
        return Err(Refused::Syntax);
    };
    if room == 0 {
        return Err(Refused::Syntax);
    }
    match first {
        Symbol::Integer => integer(types, symbols),
        Symbol::Filled(fill) => filled(alloc, types, symbols, *fill),
        Symbol::Bytes => bytes(alloc, symbols),
        Symbol::Aggregate => aggregate(alloc, types, symbols, room - 1),
        Symbol::Splat => splat(alloc, types, symbols, room - 1),
        _ => Err(Refused::Syntax),
    }
}

/// Reads an aggregate, of which the first symbol was read.
#[cycle(read_constant)]
fn aggregate(
    alloc: Global,
    types: &mut TypeStore,
    symbols: &mut SymbolReader,
    room: u32,
) -> Result<ConstAttr, Refused>
    requires { room < 1000 }
    ensures within { IfOk result (λ c. HasTypesBelow (length types.new) (attr_data c)) }
    ensures ok { IfOk result (λ c. IsAttrRead (structs_of types.old) (1 + room) (S.Aggregate ∷ symbols.old) (attr_tree (type_trees types.new) (attr_data c)) symbols.new) }
    ensures err { result ≡ Err Syntax → IsNoAttr (structs_of types.old) (1 + room) (S.Aggregate ∷ symbols.old) }
    ensures grows { Grows types.old types.new }
{
    expect(symbols, &Symbol::Less)?;
    expect(symbols, &Symbol::OpenBracket)?;
    let elements = elements(alloc, types, symbols, room)?;
    expect(symbols, &Symbol::Colon)?;
    let ty = end(alloc, types, symbols)?;
    Ok(ConstAttr::Aggregate(elements, ty))
}

/// Reads a splat, of which the first symbol was read.
#[cycle(read_constant)]
fn splat(
    alloc: Global,
    types: &mut TypeStore,
    symbols: &mut SymbolReader,
    room: u32,
) -> Result<ConstAttr, Refused>
    requires { room < 1000 }
    ensures within { IfOk result (λ c. HasTypesBelow (length types.new) (attr_data c)) }
    ensures ok { IfOk result (λ c. IsAttrRead (structs_of types.old) (1 + room) (S.Splat ∷ symbols.old) (attr_tree (type_trees types.new) (attr_data c)) symbols.new) }
    ensures err { result ≡ Err Syntax → IsNoAttr (structs_of types.old) (1 + room) (S.Splat ∷ symbols.old) }
    ensures grows { Grows types.old types.new }
{
    expect(symbols, &Symbol::Less)?;
    let element = read_constant(alloc, types, symbols, room)?;
    expect(symbols, &Symbol::Colon)?;
    let ty = end(alloc, types, symbols)?;
    Ok(ConstAttr::Splat(Box::new(alloc, element)?, ty))
}

/// Reads constants with commas between them, and the bracket behind them.
#[cycle(read_constant)]
fn elements(
    alloc: Global,
    types: &mut TypeStore,
    symbols: &mut SymbolReader,
    room: u32,
) -> Result<Vec<ConstAttr>, Refused>
    requires { room < 1000 }
    ensures within { IfOk result (λ cs. HaveTypesBelow (length types.new) (attrs_data cs.items)) }
    ensures ok { IfOk result (λ cs. AreAttrsRead (structs_of types.old) room symbols.old (attr_trees (type_trees types.new) (attrs_data cs.items)) symbols.new) }
    ensures err { result ≡ Err Syntax → AreNoAttrs (structs_of types.old) room symbols.old }
    ensures grows { Grows types.old types.new }
{
    let mut found = Vec::new(alloc);
    if symbols.skip(&Symbol::CloseBracket) {
        return Ok(found);
    }
    let first = read_constant(alloc, types, symbols, room)?;
    found.push(first)?;
    while !symbols.skip(&Symbol::CloseBracket) {
        expect(symbols, &Symbol::Comma)?;
        let next = read_constant(alloc, types, symbols, room)?;
        found.push(next)?;
    }
    Ok(found)
}

/// Reads a constant, which is to be all that the symbols write.
pub fn read(
    alloc: Global,
    types: &mut TypeStore,
    symbols: &mut SymbolReader,
) -> Result<ConstAttr, Refused>
    ensures within { IfOk result (λ c. HasTypesBelow (length types.new) (attr_data c)) }
    ensures ok { IfOk result (λ c. IsAttrRead (structs_of types.old) 1000 symbols.old (attr_tree (type_trees types.new) (attr_data c)) []) }
    ensures err { result ≡ Err Syntax → (c : AttrTree) → IsAttrRead (structs_of types.old) 1000 symbols.old c [] → ⊥ }
    ensures grows { Grows types.old types.new }
{
    let constant = read_constant(alloc, types, symbols, DEEPEST)?;
    at_end(symbols)?;
    Ok(constant)
}
