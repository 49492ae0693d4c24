//! Constants of a text that are made of others are added to a module, once its structs are there.

ghost use Rattle.std.specs.Prelude.{◌≡◌, ◌<◌, ◌^◌, ℕ, List, Option, Some, All, IfOk, IfSome, OnOk, length};
ghost use Rattle.std.specs.Option.{option_map};
ghost use Rattle.llvm_core.specs.Sound.{IsModule};
ghost use Rattle.llvm_core.specs.Data.{ConstTree, trees_of, type_at, type_tree, const_at, structs_of};
ghost use Rattle.ll_lines.specs.Views.{IsTypeIn, IsConstIn, IsConstLineIn, IsTableIn};
ghost use Rattle.kinds.specs.Structs.{Struct, StructBody};
ghost use Rattle.kinds.specs.Types.{TypeTree, VectorType, NamedType};
ghost use Rattle.ll_lines.specs.declared.lines.ConstLine.TheVariants as lines;
ghost use Rattle.ll_literals.specs.Escapes.{unescaped};
ghost use Rattle.ll_bodies.specs.Constants.{chars_said, of_array, of_vector, of_struct, body_named, stand_for, splat_const};
ghost use Rattle.ll_bodies.specs.Meaning.{all_of};
ghost use Rattle.ll_bodies.specs.TableViews.{AreMeant, AddsConsts, MeansKind, line_meant, number_in};

use crate::names::of_local;
use kinds::types::{StructLayout, VectorTypeKind};
use ll_lines::lines::{Brackets, ConstLine, SaidConst};
use ll_lines::names::Name;
use ll_literals::escapes::unescape;
use ll_literals::quotes::inside;
use llvm_core::consts::LLVMConstKind;
use llvm_core::module::LLVMModule;
use llvm_core::numbers::{LLVMConst, LLVMType};
use llvm_core::types::LLVMTypeKind;
use std::alloc::{AllocError, Global};
use support::items::Items;

/// The number of what is written as a constant, by those of the table's constants; none where it means nothing.
pub fn number(numbers: &[Option<LLVMConst>], said: SaidConst) -> Option<LLVMConst>
    ensures { result ≡ number_in numbers.now said }
{
    match said {
        SaidConst::Plain(c) => Some(c),
        SaidConst::Made(place) => match numbers.get(place.0 as usize) {
            Some(number) => *number,
            None => None,
        },
    }
}

/// The numbers of elements; none where one of them means nothing.
fn elements(
    alloc: Global,
    numbers: &[Option<LLVMConst>],
    said: &[SaidConst],
) -> Result<Option<Items<LLVMConst>>, AllocError>
    ensures { IfOk result (λ cs. cs ≡ all_of (number_in numbers.now) said.now) }
{
    let mut found = Items::from_vec(Vec::with_capacity(alloc, said.len())?);
    for element in said {
        match number(numbers, *element) {
            Some(c) => found.push(c)?,
            None => return Ok(None),
        }
    }
    Ok(Some(found))
}

/// Bytes are below 256.
fn are_small(bytes: &[u8])
    ensures { All (λ b. b < 2 ^ 8) bytes.now }
{}

/// The bytes, for a constant.
fn owned(bytes: Vec<u8>) -> Items<u8>
    requires { All (λ b. b < 2 ^ 8) bytes.items }
    ensures same { result ≡ bytes.items }
    ensures small { All (λ b. b < 2 ^ 8) result }
{
    Items::from_vec(bytes)
}

/// What bytes between quotes say.
fn unescaped(alloc: Global, written: &[u8]) -> Result<Vec<u8>, AllocError>
    ensures { IfOk result (λ b. b.items ≡ unescaped written.now) }
{
    let mut bytes = Vec::with_capacity(alloc, written.len())?;
    unescape(written, &mut bytes)?;
    Ok(bytes)
}

/// The bytes that a token c"..." says.
fn chars(alloc: Global, token: &[u8]) -> Result<Option<Items<u8>>, AllocError>
    ensures value { IfOk result (λ b. b ≡ chars_said token.now) }
    ensures small { IfOk result (λ b. IfSome b (All (λ n. n < 2 ^ 8))) }
{
    let Some(written) = inside(of_local(token)) else {
        return Ok(None);
    };
    let bytes = unescaped(alloc, written)?;
    // This tells the proof of the bytes.
    are_small(bytes.as_slice());
    Ok(Some(owned(bytes)))
}

fn are_of_array(brackets: Brackets) -> bool
    ensures { result ≡ of_array brackets }
{
    matches!(brackets, Brackets::Array)
}

fn are_of_vector(brackets: Brackets) -> bool
    ensures { result ≡ of_vector brackets }
{
    matches!(brackets, Brackets::Vector)
}

/// Whether the brackets are those of a struct that lies so.
fn are_of_struct(brackets: Brackets, layout: StructLayout) -> bool
    ensures { result ≡ of_struct brackets layout }
{
    match brackets {
        Brackets::Struct(own) => own == layout,
        _ => false,
    }
}

fn are_of_fixed(brackets: Brackets, kind: VectorTypeKind) -> bool
    ensures { (structs : List Struct) (count : ℕ) (τ : TypeTree) → result ≡ stand_for structs brackets (VectorType kind count τ) }
{
    match kind {
        VectorTypeKind::Fixed => are_of_vector(brackets),
        VectorTypeKind::Scalable => false,
    }
}

/// How the fields of a struct lie, where it is there and not opaque.
fn named_layout(module: &LLVMModule, name: &str) -> Option<StructLayout>
    ensures { result ≡ option_map (λ (b : StructBody). b.layout) (body_named (structs_of module.now) name.now) }
{
    let Some(s) = module.struct_named(name) else {
        return None;
    };
    match module.struct_body(s) {
        Some(body) => Some(body.layout),
        None => None,
    }
}

/// Whether the brackets are those of a struct with a name.
fn are_of_named(module: &LLVMModule, brackets: Brackets, name: &str) -> bool
    ensures { result ≡ stand_for (structs_of module.now) brackets (NamedType name.now) }
{
    match named_layout(module, name) {
        Some(layout) => are_of_struct(brackets, layout),
        None => false,
    }
}

/// Whether such brackets stand around the elements of a constant of a type of that kind.
fn are_of_kind(module: &LLVMModule, brackets: Brackets, kind: &LLVMTypeKind) -> bool
    ensures { (types : List TypeTree) → result ≡ stand_for (structs_of module.now) brackets (type_tree types kind.now) }
{
    match kind {
        LLVMTypeKind::Array(_, _) => are_of_array(brackets),
        LLVMTypeKind::Vector(lanes, _, _) => are_of_fixed(brackets, *lanes),
        LLVMTypeKind::Literal { layout, .. } => are_of_struct(brackets, *layout),
        LLVMTypeKind::Named(name) => are_of_named(module, brackets, name.as_str()),
        _ => false,
    }
}

/// Whether such brackets stand around the elements of a constant of a type.
fn stand_for(module: &LLVMModule, brackets: Brackets, ty: LLVMType) -> bool
    requires sound { IsModule module.now }
    requires ty { IsTypeIn module.now ty }
    ensures { result ≡ stand_for (structs_of module.now) brackets (type_at (trees_of module.now).types ty) }
{
    are_of_kind(module, brackets, module.type_kind(ty))
}

/// What a vector type and a constant say, which each element is.
fn splat(
    module: &LLVMModule,
    ty: LLVMType,
    c: LLVMConst,
) -> Result<Option<LLVMConstKind>, AllocError>
    requires sound { IsModule module.now }
    requires ty { IsTypeIn module.now ty }
    ensures { IfOk result (λ o. c.0 < length module.now.consts → MeansKind module.now (splat_const (type_at (trees_of module.now).types ty) (const_at (trees_of module.now).consts c)) o) }
{
    if !module.may_splat(ty, c) {
        return Ok(None);
    }
    let kind = module.splat_kind(ty, c)?;
    Ok(Some(kind))
}

/// What a text between quotes says.
fn said_chars(
    alloc: Global,
    module: &LLVMModule,
    bytes: &[u8],
    ty: LLVMType,
    token: Name,
) -> Result<Option<LLVMConstKind>, AllocError>
    requires sound { IsModule module.now }
    requires ty { IsTypeIn module.now ty }
    ensures { IfOk result (λ o. (table : List ConstLine) → MeansKind module.now (line_meant bytes.now module.now table (lines.Chars ty token)) o) }
{
    let said = chars(alloc, token.text(bytes))?;
    match said {
        Some(written) => Ok(Some(LLVMConstKind::Bytes(ty, written))),
        None => Ok(None),
    }
}

/// What elements between brackets say.
fn said_list(
    alloc: Global,
    module: &LLVMModule,
    numbers: &[Option<LLVMConst>],
    ty: LLVMType,
    brackets: Brackets,
    said: &[SaidConst],
) -> Result<Option<LLVMConstKind>, AllocError>
    requires sound { IsModule module.now }
    requires ty { IsTypeIn module.now ty }
    requires said { All (IsConstIn module.now (length numbers.now)) said.now }
    ensures { IfOk result (λ o. (bytes : List ℕ) (table : List ConstLine) → AreMeant bytes module.now table (length numbers.now) numbers.now → MeansKind module.now (line_meant bytes module.now table (lines.Listed ty brackets said.now)) o) }
{
    if !stand_for(module, brackets, ty) {
        return Ok(None);
    }
    let found = elements(alloc, numbers, said)?;
    match found {
        Some(cs) => Ok(Some(LLVMConstKind::List(ty, cs))),
        None => Ok(None),
    }
}

/// What a splat says.
fn said_splat(
    module: &LLVMModule,
    numbers: &[Option<LLVMConst>],
    ty: LLVMType,
    said: SaidConst,
) -> Result<Option<LLVMConstKind>, AllocError>
    requires sound { IsModule module.now }
    requires ty { IsTypeIn module.now ty }
    requires said { IsConstIn module.now (length numbers.now) said }
    ensures { IfOk result (λ o. (bytes : List ℕ) (table : List ConstLine) → AreMeant bytes module.now table (length numbers.now) numbers.now → MeansKind module.now (line_meant bytes module.now table (lines.Splat ty said)) o) }
{
    match number(numbers, said) {
        Some(c) => splat(module, ty, c),
        None => Ok(None),
    }
}

/// What a line of a table says, as a constant of these parts; none where it says nothing. Whether the module may have it is asked
/// behind.
fn said_kind(
    alloc: Global,
    module: &LLVMModule,
    bytes: &[u8],
    numbers: &[Option<LLVMConst>],
    line: &ConstLine,
) -> Result<Option<LLVMConstKind>, AllocError>
    requires sound { IsModule module.now }
    requires line { IsConstLineIn module.now (length numbers.now) line.now }
    ensures { IfOk result (λ o. (table : List ConstLine) → AreMeant bytes.now module.now table (length numbers.now) numbers.now → MeansKind module.now (line_meant bytes.now module.now table line.now) o) }
{
    match line {
        ConstLine::Chars(ty, token) => said_chars(alloc, module, bytes, *ty, *token),
        ConstLine::Listed(ty, brackets, said) => {
            said_list(alloc, module, numbers, *ty, *brackets, said.as_slice())
        }
        ConstLine::Splat(ty, said) => said_splat(module, numbers, *ty, *said),
    }
}

/// Adds a constant of a kind where the module may have it, and answers its number.
fn add_held(module: &mut LLVMModule, kind: LLVMConstKind) -> Result<Option<LLVMConst>, AllocError>
    requires sound { IsModule module.old }
    ensures adds { OnOk result (AddsConsts module.old module.new) }
    ensures is { IfOk result (λ c. (meant : Option ConstTree) → MeansKind module.old meant (Some kind) → option_map (const_at (trees_of module.new).consts) c ≡ meant) }
    ensures there { IfOk result (λ c. IfSome c (λ c. c.0 < length module.new.consts)) }
    ensures sound { OnOk result (IsModule module.new) }
{
    if !module.may_hold(&kind) {
        return Ok(None);
    }
    let c = module.const_get(kind)?;
    Ok(Some(c))
}

/// Adds a constant, where there is one and the module may have it, and answers its number.
fn add_kind(
    module: &mut LLVMModule,
    kind: Option<LLVMConstKind>,
) -> Result<Option<LLVMConst>, AllocError>
    requires sound { IsModule module.old }
    ensures adds { OnOk result (AddsConsts module.old module.new) }
    ensures is { IfOk result (λ c. (meant : Option ConstTree) → MeansKind module.old meant kind → option_map (const_at (trees_of module.new).consts) c ≡ meant) }
    ensures there { IfOk result (λ c. IfSome c (λ c. c.0 < length module.new.consts)) }
    ensures sound { OnOk result (IsModule module.new) }
{
    match kind {
        Some(kind) => add_held(module, kind),
        None => Ok(None),
    }
}

/// Adds what the constants of a table mean in a module, in their order, and answers the number of each; none where it means nothing,
/// so that a constant which nothing uses refuses nothing.
pub fn add_consts(
    alloc: Global,
    module: &mut LLVMModule,
    bytes: &[u8],
    table: &[ConstLine],
) -> Result<Vec<Option<LLVMConst>>, AllocError>
    requires sound { IsModule module.old }
    requires table { IsTableIn module.old table.now }
    ensures adds { OnOk result (AddsConsts module.old module.new) }
    ensures meant { IfOk result (λ numbers. AreMeant bytes.now module.new table.now (length table.now) numbers.items) }
    ensures sound { OnOk result (IsModule module.new) }
{
    let mut numbers = Vec::with_capacity(alloc, table.len())?;
    for line in table {
        let kind = said_kind(alloc, &*module, bytes, numbers.as_slice(), line)?;
        let found = add_kind(module, kind)?;
        numbers.push(found)?;
    }
    Ok(numbers)
}
