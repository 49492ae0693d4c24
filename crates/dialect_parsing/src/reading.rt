//! A type from what its tokens say.

ghost use Rattle.std.specs.Prelude.{[], ◌≡◌, ◌<◌, ◌≤◌, ◌+◌, ◌∷◌, List, Err, true, length, IfOk, IfErr};
ghost use Rattle.dialect_types.specs.Trees.{TypeTree, type_at, types_at, type_trees, structs_of, AllBelow, NamedType};
ghost use Rattle.dialect_parsing.specs.Reading.{closes, IsRead, IsNoType, AreRead, AreNoTypes, IsCounted, IsNotCounted, IsNoName};
ghost use Rattle.dialect_parsing.specs.Spelling.{Grows, IsThere};
ghost use Rattle.dialect_parsing.specs.declared.parse_err.Refused.TheVariants.{Syntax};
ghost use Rattle.dialect_parsing.specs.declared.symbol.Symbol.{Symbol};
ghost use Rattle.dialect_parsing.specs.declared.symbol.Symbol.TheVariants as S;

use crate::heads::{count, expect, func_end, plain, struct_head, vector_head};
use crate::making::{Counted, made, make_array, make_func, make_struct, make_vector, named};
use crate::parse_err::Refused;
use crate::symbol::Symbol;
use crate::symbols::SymbolReader;
use dialect_types::type_store::TypeStore;
use dialect_types::types::TypeHandle;
use std::alloc::Global;
use support::items::Items;

/// So deep a type may nest, and a constant.
pub const DEEPEST: u32 = 1_000;

/// Reads a type that nests at most so deep.
#[cycle(read_type)]
pub fn read_type(
    alloc: Global,
    types: &mut TypeStore,
    symbols: &mut SymbolReader,
    room: u32,
) -> Result<TypeHandle, Refused>
    requires { room ≤ 1000 }
    ensures within { IfOk result (λ h. h.0 < length types.new) }
    ensures ok { IfOk result (λ h. IsRead (structs_of types.old) room symbols.old (type_at (type_trees types.new) h) symbols.new) }
    ensures err { result ≡ Err Syntax → IsNoType (structs_of types.old) room symbols.old }
    ensures grows { Grows types.old types.new }
{
    let Some(first) = symbols.next() else {
        return Err(Refused::Syntax);
    };
    if room == 0 {
        return Err(Refused::Syntax);
    }
    match first {
        Symbol::Array => array(alloc, types, symbols, room - 1),
        Symbol::Vector => vector(alloc, types, symbols, room - 1),
        Symbol::Struct => structure(alloc, types, symbols, room - 1),
        Symbol::Func => func(alloc, types, symbols, room - 1),
        _ => {
            let kind = plain(first, symbols)?;
            made(types, kind)
        }
    }
}

/// Reads how many there are of a type, the type, and the bracket behind it.
#[cycle(read_type)]
fn counted(
    alloc: Global,
    types: &mut TypeStore,
    symbols: &mut SymbolReader,
    room: u32,
) -> Result<Counted, Refused>
    requires { room < 1000 }
    ensures within { IfOk result (λ c. c.element.0 < length types.new) }
    ensures ok { IfOk result (λ c. IsCounted (structs_of types.old) room symbols.old c.count (type_at (type_trees types.new) c.element) symbols.new) }
    ensures err { result ≡ Err Syntax → IsNotCounted (structs_of types.old) room symbols.old }
    ensures grows { Grows types.old types.new }
{
    let count = count(symbols)?;
    let element = read_type(alloc, types, symbols, room)?;
    expect(symbols, &Symbol::CloseBracket)?;
    Ok(Counted { count, element })
}

/// Reads an array type, of which the first symbol was read.
#[cycle(read_type)]
fn array(
    alloc: Global,
    types: &mut TypeStore,
    symbols: &mut SymbolReader,
    room: u32,
) -> Result<TypeHandle, Refused>
    requires { room < 1000 }
    ensures within { IfOk result (λ h. h.0 < length types.new) }
    ensures ok { IfOk result (λ h. IsRead (structs_of types.old) (1 + room) (S.Array ∷ symbols.old) (type_at (type_trees types.new) h) symbols.new) }
    ensures err { result ≡ Err Syntax → IsNoType (structs_of types.old) (1 + room) (S.Array ∷ symbols.old) }
    ensures grows { Grows types.old types.new }
{
    expect(symbols, &Symbol::OpenBracket)?;
    let of = counted(alloc, types, symbols, room)?;
    make_array(types, of)
}

/// Reads a vector type, of which the first symbol was read.
#[cycle(read_type)]
fn vector(
    alloc: Global,
    types: &mut TypeStore,
    symbols: &mut SymbolReader,
    room: u32,
) -> Result<TypeHandle, Refused>
    requires { room < 1000 }
    ensures within { IfOk result (λ h. h.0 < length types.new) }
    ensures ok { IfOk result (λ h. IsRead (structs_of types.old) (1 + room) (S.Vector ∷ symbols.old) (type_at (type_trees types.new) h) symbols.new) }
    ensures err { result ≡ Err Syntax → IsNoType (structs_of types.old) (1 + room) (S.Vector ∷ symbols.old) }
    ensures grows { Grows types.old types.new }
{
    let kind = vector_head(symbols)?;
    let of = counted(alloc, types, symbols, room)?;
    make_vector(types, of, kind)
}

/// Reads what stands behind the name of a struct, which is the one of that name that the store holds.
fn named_struct(
    types: &TypeStore,
    symbols: &mut SymbolReader,
    name: &str,
) -> Result<TypeHandle, Refused>
    ensures within { IfOk result (λ h. h.0 < length types.now) }
    ensures ok { IfOk result (λ h. (symbols.old ≡ S.Greater ∷ symbols.new) × (type_at (type_trees types.now) h ≡ NamedType name.now) × IsThere (structs_of types.now) name.now) }
    ensures err { IfErr result (λ _. IsThere (structs_of types.now) name.now → (ss : List Symbol) → symbols.old ≡ S.Greater ∷ ss → ⊥) }
{
    let Some(ty) = named(types, name) else {
        return Err(Refused::Syntax);
    };
    expect(symbols, &Symbol::Greater)?;
    Ok(ty)
}

/// Reads a struct without a name, of which the first two symbols were read.
#[cycle(read_type)]
fn literal(
    alloc: Global,
    types: &mut TypeStore,
    symbols: &mut SymbolReader,
    room: u32,
) -> Result<TypeHandle, Refused>
    requires room { room < 1000 }
    requires unnamed { IsNoName symbols.old }
    ensures within { IfOk result (λ h. h.0 < length types.new) }
    ensures ok { IfOk result (λ h. IsRead (structs_of types.old) (1 + room) (S.Struct ∷ S.Less ∷ symbols.old) (type_at (type_trees types.new) h) symbols.new) }
    ensures err { result ≡ Err Syntax → IsNoType (structs_of types.old) (1 + room) (S.Struct ∷ S.Less ∷ symbols.old) }
    ensures grows { Grows types.old types.new }
{
    let layout = struct_head(symbols)?;
    let fields = list(alloc, types, symbols, &Symbol::CloseBrace, room)?;
    expect(symbols, &Symbol::Greater)?;
    make_struct(types, fields, layout)
}

/// Reads a struct type, of which the first symbol was read.
#[cycle(read_type)]
fn structure(
    alloc: Global,
    types: &mut TypeStore,
    symbols: &mut SymbolReader,
    room: u32,
) -> Result<TypeHandle, Refused>
    requires { room < 1000 }
    ensures within { IfOk result (λ h. h.0 < length types.new) }
    ensures ok { IfOk result (λ h. IsRead (structs_of types.old) (1 + room) (S.Struct ∷ symbols.old) (type_at (type_trees types.new) h) symbols.new) }
    ensures err { result ≡ Err Syntax → IsNoType (structs_of types.old) (1 + room) (S.Struct ∷ symbols.old) }
    ensures grows { Grows types.old types.new }
{
    expect(symbols, &Symbol::Less)?;
    match symbols.name() {
        Some(name) => named_struct(types, symbols, name),
        None => literal(alloc, types, symbols, room),
    }
}

/// Reads a function type, of which the first symbol was read.
#[cycle(read_type)]
fn func(
    alloc: Global,
    types: &mut TypeStore,
    symbols: &mut SymbolReader,
    room: u32,
) -> Result<TypeHandle, Refused>
    requires { room < 1000 }
    ensures within { IfOk result (λ h. h.0 < length types.new) }
    ensures ok { IfOk result (λ h. IsRead (structs_of types.old) (1 + room) (S.Func ∷ symbols.old) (type_at (type_trees types.new) h) symbols.new) }
    ensures err { result ≡ Err Syntax → IsNoType (structs_of types.old) (1 + room) (S.Func ∷ symbols.old) }
    ensures grows { Grows types.old types.new }
{
    expect(symbols, &Symbol::Less)?;
    let returned = read_type(alloc, types, symbols, room)?;
    expect(symbols, &Symbol::OpenParen)?;
    let params = list(alloc, types, symbols, &Symbol::CloseParen, room)?;
    let variadic = func_end(symbols)?;
    make_func(types, returned, params, variadic)
}

/// Reads types with commas between them, and the sign that closes them.
#[cycle(read_type)]
fn list(
    alloc: Global,
    types: &mut TypeStore,
    symbols: &mut SymbolReader,
    close: &Symbol,
    room: u32,
) -> Result<Items<TypeHandle>, Refused>
    requires room { room < 1000 }
    requires close { closes close.now ≡ true }
    ensures within { IfOk result (λ hs. AllBelow (length types.new) hs) }
    ensures ok { IfOk result (λ hs. AreRead (structs_of types.old) room close.now symbols.old (types_at (type_trees types.new) hs) symbols.new) }
    ensures err { result ≡ Err Syntax → AreNoTypes (structs_of types.old) room close.now symbols.old }
    ensures grows { Grows types.old types.new }
{
    let mut found = Items::new(alloc);
    if symbols.skip(close) {
        return Ok(found);
    }
    let first = read_type(alloc, types, symbols, room)?;
    found.push(first)?;
    while !symbols.skip(close) {
        expect(symbols, &Symbol::Comma)?;
        let next = read_type(alloc, types, symbols, room)?;
        found.push(next)?;
    }
    Ok(found)
}

/// No symbol is to be left.
pub fn at_end(symbols: &mut SymbolReader) -> Result<(), Refused>
    ensures ok { IfOk result (λ _. symbols.old ≡ []) }
    ensures err { IfErr result (λ _. symbols.old ≡ [] → ⊥) }
{
    match symbols.next() {
        None => Ok(()),
        Some(_) => Err(Refused::Syntax),
    }
}

/// Reads a type, which is to be all that the symbols write.
pub fn read(
    alloc: Global,
    types: &mut TypeStore,
    symbols: &mut SymbolReader,
) -> Result<TypeHandle, Refused>
    ensures within { IfOk result (λ h. h.0 < length types.new) }
    ensures ok { IfOk result (λ h. IsRead (structs_of types.old) 1000 symbols.old (type_at (type_trees types.new) h) []) }
    ensures err { result ≡ Err Syntax → (t : TypeTree) → IsRead (structs_of types.old) 1000 symbols.old t [] → ⊥ }
    ensures grows { Grows types.old types.new }
{
    let ty = read_type(alloc, types, symbols, DEEPEST)?;
    at_end(symbols)?;
    Ok(ty)
}
