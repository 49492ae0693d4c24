//! What types begin and end with, from what their tokens say.

ghost use Rattle.std.specs.Prelude.{◌≡◌, ◌∷◌, ℕ, Bool, List, Err, true, false, IfOk, IfErr};
ghost use Rattle.kinds.specs.Types.{depth};
ghost use Rattle.kinds.specs.declared.types.StructLayout.{StructLayout};
ghost use Rattle.kinds.specs.declared.types.VectorTypeKind.{VectorTypeKind};
ghost use Rattle.dialect_types.specs.Trees.{TypeTree, NamedStruct, type_tree, HasPartsBelow, HasFitParts, is_named};
ghost use Rattle.dialect_parsing.specs.Reading.{is_space, is_width};
ghost use Rattle.dialect_parsing.specs.Spelling.{IsOfDialect, written, laid, scaled};
ghost use Rattle.dialect_parsing.specs.declared.parse_err.Refused.TheVariants.{Syntax};
ghost use Rattle.dialect_parsing.specs.declared.symbol.Symbol.{Symbol};
ghost use Rattle.dialect_parsing.specs.declared.symbol.Symbol.TheVariants as S;

use crate::parse_err::Refused;
use crate::symbol::Symbol;
use crate::symbols::SymbolReader;
use dialect_types::types::TypeKind;
use kinds::types::{StructLayout, VectorTypeKind};

/// The greatest width of an integer type.
const MAX_WIDTH: u64 = 8_388_608;

/// The greatest number of an address space.
const MAX_SPACE: u64 = 16_777_215;

/// Reads a symbol, which is to be this one.
pub fn expect(symbols: &mut SymbolReader, symbol: &Symbol) -> Result<(), Refused>
    ensures ok { IfOk result (λ _. symbols.old ≡ symbol.now ∷ symbols.new) }
    ensures err { IfErr result (λ _. (ss : List Symbol) → symbols.old ≡ symbol.now ∷ ss → ⊥) }
{
    if symbols.skip(symbol) {
        return Ok(());
    }
    let _wrong = symbols.next();
    Err(Refused::Syntax)
}

/// Reads the width of an integer type.
pub fn width(symbols: &mut SymbolReader) -> Result<u32, Refused>
    ensures ok { IfOk result (λ w. (symbols.old ≡ S.Bits w ∷ symbols.new) × (is_width w ≡ true)) }
    ensures err { IfErr result (λ _. (w : ℕ) (ss : List Symbol) → symbols.old ≡ S.Bits w ∷ ss → is_width w ≡ false) }
{
    match symbols.next() {
        Some(Symbol::Bits(width)) if 1 <= *width && *width <= MAX_WIDTH => Ok(*width as u32),
        _ => Err(Refused::Syntax),
    }
}

/// Reads the number of an address space.
fn number(symbols: &mut SymbolReader) -> Result<u32, Refused>
    ensures ok { IfOk result (λ n. (symbols.old ≡ S.Number n ∷ symbols.new) × (is_space n ≡ true)) }
    ensures err { IfErr result (λ _. (n : ℕ) (ss : List Symbol) → symbols.old ≡ S.Number n ∷ ss → is_space n ≡ false) }
{
    match symbols.next() {
        Some(Symbol::Number(space)) if *space <= MAX_SPACE => Ok(*space as u32),
        _ => Err(Refused::Syntax),
    }
}

/// Reads the address space of a pointer type.
fn space(symbols: &mut SymbolReader) -> Result<u32, Refused>
    ensures ok { IfOk result (λ n. (symbols.old ≡ S.OpenParen ∷ S.Number n ∷ S.CloseParen ∷ symbols.new) × (is_space n ≡ true)) }
    ensures err { IfErr result (λ _. (n : ℕ) (ss : List Symbol) → symbols.old ≡ S.OpenParen ∷ S.Number n ∷ S.CloseParen ∷ ss → is_space n ≡ false) }
{
    expect(symbols, &Symbol::OpenParen)?;
    let space = number(symbols)?;
    expect(symbols, &Symbol::CloseParen)?;
    Ok(space)
}

/// Reads a truth value.
fn truth(symbols: &mut SymbolReader) -> Result<bool, Refused>
    ensures ok { IfOk result (λ v. symbols.old ≡ S.Truth v ∷ symbols.new) }
    ensures err { IfErr result (λ _. (v : Bool) (ss : List Symbol) → symbols.old ≡ S.Truth v ∷ ss → ⊥) }
{
    match symbols.next() {
        Some(Symbol::Truth(truth)) => Ok(*truth),
        _ => Err(Refused::Syntax),
    }
}

/// Reads what stands behind the parameters of a function type, and says whether it is variadic.
pub fn func_end(symbols: &mut SymbolReader) -> Result<bool, Refused>
    ensures ok { IfOk result (λ v. symbols.old ≡ S.Variadic ∷ S.Equals ∷ S.Truth v ∷ S.Greater ∷ symbols.new) }
    ensures err { IfErr result (λ _. (v : Bool) (ss : List Symbol) → symbols.old ≡ S.Variadic ∷ S.Equals ∷ S.Truth v ∷ S.Greater ∷ ss → ⊥) }
{
    expect(symbols, &Symbol::Variadic)?;
    expect(symbols, &Symbol::Equals)?;
    let variadic = truth(symbols)?;
    expect(symbols, &Symbol::Greater)?;
    Ok(variadic)
}

/// Reads how many there are of a type, before the type.
pub fn count(symbols: &mut SymbolReader) -> Result<u64, Refused>
    ensures ok { IfOk result (λ n. symbols.old ≡ S.Number n ∷ S.Times ∷ symbols.new) }
    ensures err { IfErr result (λ _. (n : ℕ) (ss : List Symbol) → symbols.old ≡ S.Number n ∷ S.Times ∷ ss → ⊥) }
{
    let Some(Symbol::Number(count)) = symbols.next() else {
        return Err(Refused::Syntax);
    };
    expect(symbols, &Symbol::Times)?;
    Ok(*count)
}

/// Reads what stands before the number of a vector's elements.
pub fn vector_head(symbols: &mut SymbolReader) -> Result<VectorTypeKind, Refused>
    ensures ok { IfOk result (λ k. symbols.old ≡ S.OpenBracket ∷ scaled k symbols.new) }
    ensures only { IfOk result (λ k. (l : VectorTypeKind) (n : ℕ) (ss : List Symbol) → symbols.old ≡ S.OpenBracket ∷ scaled l (S.Number n ∷ ss) → (l ≡ k) × (symbols.new ≡ S.Number n ∷ ss)) }
    ensures err { IfErr result (λ _. (ss : List Symbol) → symbols.old ≡ S.OpenBracket ∷ ss → ⊥) }
{
    expect(symbols, &Symbol::OpenBracket)?;
    if symbols.skip(&Symbol::Vscale) {
        return Ok(VectorTypeKind::Scalable);
    }
    Ok(VectorTypeKind::Fixed)
}

/// Reads what stands before the fields of a struct, behind its first sign.
pub fn struct_head(symbols: &mut SymbolReader) -> Result<StructLayout, Refused>
    ensures ok { IfOk result (λ l. symbols.old ≡ laid l (S.OpenBrace ∷ symbols.new)) }
    ensures err { IfErr result (λ _. (l : StructLayout) (ss : List Symbol) → symbols.old ≡ laid l (S.OpenBrace ∷ ss) → ⊥) }
{
    let layout = if symbols.skip(&Symbol::Packed) {
        StructLayout::Packed
    } else {
        StructLayout::Unpacked
    };
    expect(symbols, &Symbol::OpenBrace)?;
    Ok(layout)
}

/// Reads a type without parts, of which the first symbol was read.
pub fn plain(first: &Symbol, symbols: &mut SymbolReader) -> Result<TypeKind, Refused>
    requires array { first.now ≡ S.Array → ⊥ }
    requires vector { first.now ≡ S.Vector → ⊥ }
    requires structure { first.now ≡ S.Struct → ⊥ }
    requires func { first.now ≡ S.Func → ⊥ }
    ensures ok { IfOk result (λ k. (ts : List TypeTree) → first.now ∷ symbols.old ≡ written (type_tree ts k) symbols.new) }
    ensures err { result ≡ Err Syntax → (structs : List NamedStruct) (t : TypeTree) (left : List Symbol) → IsOfDialect structs t → first.now ∷ symbols.old ≡ written t left → ⊥ }
    ensures unnamed { IfOk result (λ k. is_named k ≡ false) }
    ensures kind { IfOk result (λ k. (structs : List NamedStruct) (ts : List TypeTree) (n : ℕ) → HasPartsBelow n k × HasFitParts ts k × IsOfDialect structs (type_tree ts k) × (depth (type_tree ts k) ≡ 1)) }
{
    match first {
        Symbol::Void => Ok(TypeKind::Void),
        Symbol::Integer => Ok(TypeKind::Integer(width(symbols)?)),
        Symbol::Pointer => Ok(TypeKind::Pointer(space(symbols)?)),
        Symbol::Floating(of) => Ok(TypeKind::Floating(*of)),
        _ => Err(Refused::Syntax),
    }
}
