//! The types of the results of lines.

ghost use Rattle.std.specs.Prelude.{◌≡◌, ◌<◌, Some, None, map, length, slice_get, IfSome};
ghost use Rattle.std.specs.Option.{option_map};
ghost use Rattle.kinds.specs.Types.{bits_of};
ghost use Rattle.kinds.specs.Typing.{fits_trees};
ghost use Rattle.kinds.specs.Typing as typing;
ghost use Rattle.llvm_core.specs.Data.{type_at, trees_of};
ghost use Rattle.llvm_core.specs.Parts.{view};
ghost use Rattle.ll_lines.specs.Views.{IsTypeIn, IsTypedIn, IsInstIn};
ghost use Rattle.ll_bodies.specs.Meaning as meaning;
ghost use Rattle.ll_bodies.specs.SourceViews.{IsSource, made_in, IsRowIn, IsFittingRow, IsFitting, inst_in};

use kinds::fitting::{TypeView, fits};
use kinds::rules::Gives;
use kinds::types::Lanes;
use ll_lines::lines::{ConstLine, Inst, RowLine, Typed};
use llvm_core::module::LLVMModule;
use llvm_core::numbers::{LLVMConst, LLVMType};
use support::number_map::NumberMap;

/// What the passes over the lines of a function read: the text, the module, the numbers of `i1`, of void and of vectors of bits in
/// it, and the constants that are made of others, with the number of what each means in the module.
#[derive(Drop)]
pub struct Source<'a> {
    pub bytes: &'a [u8],
    pub module: &'a LLVMModule,
    pub bit: LLVMType,
    pub void: LLVMType,
    /// For each vector type of the module the one of as many bits.
    pub bits: &'a NumberMap<LLVMType>,
    /// The constants of the file that are made of others, each behind those that it is made of.
    pub table: &'a [ConstLine],
    /// What each of them is in the module; none where it means no constant.
    pub consts: &'a [Option<LLVMConst>],
}

/// A type as rules see it.
fn view(module: &LLVMModule, ty: Option<LLVMType>) -> Option<TypeView>
    requires { IfSome ty (IsTypeIn module.now) }
    ensures { result ≡ option_map (view module.now.types) ty }
{
    match ty {
        Some(ty) => Some(TypeView {
            number: ty.0,
            laned: module.laned(ty),
        }),
        None => None,
    }
}

/// The type of the operand at a place.
fn type_nth(operands: &[Typed], place: usize) -> Option<LLVMType>
    ensures { result ≡ slice_get (map (λ (x : Typed). x.ty) operands.now) place }
{
    match operands.get(place) {
        Some(operand) => Some(operand.ty),
        None => None,
    }
}

/// Whether the operands fit the row.
#[inline(always)]
pub fn row_fits(source: &Source<'_>, row: &RowLine) -> bool
    requires source { IsSource source.now }
    requires row { IsRowIn source.now.module.now (made_in source.now) row.now }
    ensures { result ≡ fits_trees row.now.op (option_map (type_at (trees_of source.now.module.now).types) row.now.written) (map (λ (x : Typed). type_at (trees_of source.now.module.now).types x.ty) row.now.operands) }
{
    let operands = row.operands.as_slice();
    let module = source.module;
    fits(
        row.op.rule(),
        operands.len(),
        view(module, row.written),
        view(module, type_nth(operands, 0)),
        view(module, type_nth(operands, 1)),
        view(module, type_nth(operands, 2)),
    )
}

/// Bits, as many as a type has lanes.
fn bits_of(source: &Source<'_>, ty: LLVMType) -> LLVMType
    requires source { IsSource source.now }
    requires ty { IsTypeIn source.now.module.now ty }
    ensures ty { type_at (trees_of source.now.module.now).types result ≡ bits_of (type_at (trees_of source.now.module.now).types ty) }
    ensures within { IsTypeIn source.now.module.now result }
{
    match source.module.laned(ty).lanes {
        Lanes::One => source.bit,
        Lanes::Many(..) => match source.bits.get(ty.0) {
            Some(bits) => bits,
            None => unreachable!(),
        },
    }
}

/// The same of a type, where there is one.
fn bits_some(source: &Source<'_>, ty: Option<LLVMType>) -> Option<LLVMType>
    requires source { IsSource source.now }
    requires ty { IfSome ty (IsTypeIn source.now.module.now) }
    ensures ty { option_map (type_at (trees_of source.now.module.now).types) result ≡ option_map bits_of (option_map (type_at (trees_of source.now.module.now).types) ty) }
    ensures within { IfSome result (IsTypeIn source.now.module.now) }
{
    match ty {
        Some(ty) => Some(bits_of(source, ty)),
        None => None,
    }
}

/// The type that a rule gives: a line for each word.
fn given(
    source: &Source<'_>,
    gives: Gives,
    written: Option<LLVMType>,
    first: Option<LLVMType>,
    second: Option<LLVMType>,
) -> Option<LLVMType>
    requires source { IsSource source.now }
    requires written { IfSome written (IsTypeIn source.now.module.now) }
    requires first { IfSome first (IsTypeIn source.now.module.now) }
    requires second { IfSome second (IsTypeIn source.now.module.now) }
    ensures ty { typing.given gives (option_map (type_at (trees_of source.now.module.now).types) written) (option_map (type_at (trees_of source.now.module.now).types) first) (option_map (type_at (trees_of source.now.module.now).types) second) ≡ option_map (type_at (trees_of source.now.module.now).types) result }
    ensures within { IfSome result (IsTypeIn source.now.module.now) }
{
    match gives {
        Gives::Nothing => None,
        Gives::First => first,
        Gives::Second => second,
        Gives::Written => written,
        Gives::Bits => bits_some(source, first),
    }
}

/// The type of the result of a row whose operands fit, none where it has none.
fn row_gives(source: &Source<'_>, row: &RowLine) -> Option<LLVMType>
    requires source { IsSource source.now }
    requires row { IsRowIn source.now.module.now (made_in source.now) row.now }
    ensures ty { IsFittingRow (trees_of source.now.module.now) row.now → typing.typed row.now.op (option_map (type_at (trees_of source.now.module.now).types) row.now.written) (map (λ (x : Typed). type_at (trees_of source.now.module.now).types x.ty) row.now.operands) ≡ option_map (type_at (trees_of source.now.module.now).types) result }
    ensures within { IfSome result (IsTypeIn source.now.module.now) }
{
    let operands = row.operands.as_slice();
    let first = type_nth(operands, 0);
    let second = type_nth(operands, 1);
    given(source, row.op.rule().gives, row.written, first, second)
}

/// The type of a row's result, none where it has none or its operands do not fit.
fn row_result(source: &Source<'_>, row: &RowLine) -> Option<LLVMType>
    requires source { IsSource source.now }
    requires row { IsRowIn source.now.module.now (made_in source.now) row.now }
    ensures ty { typing.typed row.now.op (option_map (type_at (trees_of source.now.module.now).types) row.now.written) (map (λ (x : Typed). type_at (trees_of source.now.module.now).types x.ty) row.now.operands) ≡ option_map (type_at (trees_of source.now.module.now).types) result }
    ensures within { IfSome result (IsTypeIn source.now.module.now) }
{
    if !row_fits(source, row) {
        return None;
    }
    row_gives(source, row)
}

/// The type of the result of a line whose operands fit, none where it has none.
pub fn fitting_type(source: &Source<'_>, inst: &Inst) -> Option<LLVMType>
    requires source { IsSource source.now }
    requires inst { IsInstIn source.now.module.now (made_in source.now) inst.now }
    ensures ty { IsFitting (trees_of source.now.module.now) inst.now → meaning.result_type (inst_in source.now inst.now) ≡ option_map (type_at (trees_of source.now.module.now).types) result }
    ensures within { IfSome result (IsTypeIn source.now.module.now) }
{
    match inst {
        Inst::Phi(ty, _) => Some(*ty),
        Inst::Row(row) => row_gives(source, row),
    }
}

/// The type of a line's result, none where it has none or its operands do not fit.
pub fn result_type(source: &Source<'_>, inst: &Inst) -> Option<LLVMType>
    requires source { IsSource source.now }
    requires inst { IsInstIn source.now.module.now (made_in source.now) inst.now }
    ensures ty { meaning.result_type (inst_in source.now inst.now) ≡ option_map (type_at (trees_of source.now.module.now).types) result }
    ensures within { IfSome result (IsTypeIn source.now.module.now) }
{
    match inst {
        Inst::Phi(ty, _) => Some(*ty),
        Inst::Row(row) => row_result(source, row),
    }
}
