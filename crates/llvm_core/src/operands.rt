//! What an instruction asks of its operands.

ghost use Rattle.std.specs.Prelude.{◌≡◌, ◌<◌, All, IfErr, IsTrue, OnOk, Some, false, length, slice_get};
ghost use Rattle.std.specs.List.{list_any};
ghost use Rattle.std.specs.Option.{option_map};
ghost use Rattle.llvm_core.specs.declared.code.LLVMInst.TheVariants as insts;
ghost use Rattle.llvm_core.specs.declared.check_err.Place.TheVariants as places;
ghost use Rattle.llvm_core.specs.declared.check_err.CheckErr.TheVariants as errors;
ghost use Rattle.kinds.specs.Table.{rule_of};
ghost use Rattle.llvm_core.specs.Consts.{is_placeholder};
ghost use Rattle.llvm_core.specs.Parts.{IsValue, IsBlock, IsEntry, HasParts, HasValues, operands, is_function, row_fits};
ghost use Rattle.llvm_core.specs.Checked.{is_void, is_valueless, MisfitsPhi, returns_void, return_type, home, is_outside, is_block_outside, is_entry_outside, reaches_outside, HasOtherType, returns_other, misfits_return, is_counted, Fails, IsCheckedInst};

use crate::check_err::{CheckErr, Place};
use crate::code::{LLVMInst, LLVMValue, PhiEntry, Row};
use crate::consts::LLVMConstKind;
use crate::module::{LLVMModule, shape_of};
use crate::numbers::{LLVMBasicBlock, LLVMFunction, LLVMInstRef, LLVMType};
use crate::types::LLVMTypeKind;
use kinds::fitting;
use kinds::fitting::{is_nothing, is_value};
use kinds::rules::Takes;

/// The number of entries from which on a list is too long.
pub const TOO_LONG: usize = 1 << 31;

/// Whether it is the kind of void.
fn is_void(kind: &LLVMTypeKind) -> bool
    ensures { result ≡ is_void kind.now }
{
    is_nothing(shape_of(kind))
}

/// Whether it is the kind of a function type.
pub fn is_function(kind: &LLVMTypeKind) -> bool
    ensures { result ≡ is_function kind.now }
{
    fitting::is_function(shape_of(kind))
}

/// Whether it is the kind of a type of no value.
pub fn is_valueless(kind: &LLVMTypeKind) -> bool
    ensures { result ≡ is_valueless kind.now }
{
    !is_value(shape_of(kind))
}

/// The function that holds an instruction.
fn home(m: &LLVMModule, i: LLVMInstRef) -> LLVMFunction
    requires { i.0 < length m.now.insts }
    ensures home { option_map (home m.now) (slice_get m.now.insts i.0) ≡ Some result }
    ensures within { result.0 < length m.now.functions }
{
    m.block_function(m.inst_block(i))
}

/// The type of what a function returns.
fn return_type(m: &LLVMModule, f: LLVMFunction) -> LLVMType
    requires { f.0 < length m.now.functions }
    ensures ty { return_type m.now f ≡ Some result }
    ensures within { result.0 < length m.now.types }
{
    match m.type_kind(m.function_type(f)) {
        LLVMTypeKind::Function { result, .. } => *result,
        _ => unreachable!(),
    }
}

fn returns_void(m: &LLVMModule, f: LLVMFunction) -> bool
    requires { f.0 < length m.now.functions }
    ensures { result ≡ returns_void m.now f }
{
    is_void(m.type_kind(return_type(m, f)))
}

/// Whether an entry's value is of another type than `ty`.
fn has_other_type(m: &LLVMModule, ty: LLVMType, entries: &[PhiEntry]) -> bool
    requires { All (IsEntry m.now) entries.now }
    ensures yes { IsTrue result → HasOtherType m.now ty entries.now }
    ensures no { result ≡ false → ¬ HasOtherType m.now ty entries.now }
{
    for entry in entries {
        if m.type_of(entry.value) != ty {
            return true;
        }
    }
    false
}

/// Whether a phi of type `ty` may have these entries, as far as types go.
fn fits_phi(m: &LLVMModule, ty: LLVMType, entries: &[PhiEntry]) -> bool
    requires { (ty.0 < length m.now.types) × All (IsEntry m.now) entries.now }
    ensures yes { IsTrue result → ¬ MisfitsPhi m.now ty entries.now }
    ensures no { result ≡ false → MisfitsPhi m.now ty entries.now }
{
    !is_valueless(m.type_kind(ty)) && !has_other_type(m, ty, entries)
}

/// Whether a value is of another type than `f` returns.
fn returns_other(m: &LLVMModule, f: LLVMFunction, value: LLVMValue) -> bool
    requires function { f.0 < length m.now.functions }
    requires value { IsValue m.now value }
    ensures { result ≡ returns_other m.now f value }
{
    m.type_of(value) != return_type(m, f)
}

/// Whether a value is of another type than `f` returns.
fn has_other_return(m: &LLVMModule, f: LLVMFunction, values: &[LLVMValue]) -> bool
    requires function { f.0 < length m.now.functions }
    requires values { All (IsValue m.now) values.now }
    ensures { result ≡ list_any (returns_other m.now f) values.now }
{
    for value in values {
        if returns_other(m, f, *value) {
            return true;
        }
    }
    false
}

/// Whether a return has a value of another type than `f` returns.
fn misfits_return(m: &LLVMModule, f: LLVMFunction, row: &Row) -> bool
    requires function { f.0 < length m.now.functions }
    requires values { HasParts m.now row.now }
    ensures { result ≡ misfits_return (rule_of row.now.op).takes m.now f row.now.operands }
{
    match row.op.rule().takes {
        Takes::Nothing => false,
        Takes::One(_) => false,
        Takes::Two(..) => false,
        Takes::Three(..) => false,
        Takes::Return => has_other_return(m, f, row.operands.as_slice()),
    }
}

/// Whether a row has as many operands and targets as the table says.
fn is_counted(m: &LLVMModule, f: LLVMFunction, row: &Row) -> bool
    requires { f.0 < length m.now.functions }
    ensures { result ≡ is_counted m.now f row.now }
{
    let rule = row.op.rule();
    row.operands.as_slice().len() == rule.takes.operand_count(returns_void(m, f))
        && row.targets.as_slice().len() == rule.leads.target_count()
}

/// Whether the operands of the row of an instruction fit it. One with a result is known to fit: what does not fit has none.
fn row_fits(m: &LLVMModule, i: LLVMInstRef, row: &Row) -> bool
    requires inst { option_map (λ x. x.inst) (slice_get m.now.insts i.0) ≡ Some (insts.Row row.now) }
    requires parts { HasParts m.now row.now }
    ensures { result ≡ row_fits m.now row.now }
{
    // This tells the proof of the invariant.
    let _ = m.functions();
    !is_void(m.type_kind(m.type_of(LLVMValue::Inst(i)))) || m.row_fits(row)
}

/// An instruction has as many operands and targets as the table says, and they are of types that fit.
fn check_operand_types(m: &LLVMModule, i: LLVMInstRef) -> Result<(), CheckErr>
    requires { i.0 < length m.now.insts }
    ensures types { OnOk result (¬ Fails m.now (errors.OperandType (places.Inst i.0))) }
    ensures counts { OnOk result (¬ Fails m.now (errors.OperandCount (places.Inst i.0))) }
    ensures err { IfErr result (λ e. Fails m.now e) }
{
    let fits = match m.inst(i) {
        LLVMInst::Phi(ty, entries) => fits_phi(m, *ty, entries.as_slice()),
        LLVMInst::Row(row) => {
            let f = home(m, i);
            if !is_counted(m, f, row) {
                return Err(CheckErr::OperandCount(Place::Inst(i.0)));
            }
            row_fits(m, i, row) && !misfits_return(m, f, row)
        }
    };
    if !fits {
        return Err(CheckErr::OperandType(Place::Inst(i.0)));
    }
    Ok(())
}

fn is_placeholder(kind: &LLVMConstKind) -> bool
    ensures { result ≡ is_placeholder kind.now }
{
    matches!(kind, LLVMConstKind::Placeholder(..))
}

/// Whether a value is a parameter or result of another function than `f`, or a placeholder.
fn is_outside(m: &LLVMModule, f: LLVMFunction, value: LLVMValue) -> bool
    requires { IsValue m.now value }
    ensures { result ≡ is_outside m.now f value }
{
    match value {
        LLVMValue::Const(c) => is_placeholder(m.const_kind(c)),
        LLVMValue::Param(g, _) => g.0 != f.0,
        LLVMValue::Inst(i) => home(m, i).0 != f.0,
    }
}

/// Whether a block is one of another function than `f`.
fn is_block_outside(m: &LLVMModule, f: LLVMFunction, b: LLVMBasicBlock) -> bool
    requires { b.0 < length m.now.blocks }
    ensures { result ≡ is_block_outside m.now f b }
{
    m.block_function(b).0 != f.0
}

/// Whether an entry's value or block is one of another function than `f`.
fn has_entry_outside(m: &LLVMModule, f: LLVMFunction, entries: &[PhiEntry]) -> bool
    requires { All (IsEntry m.now) entries.now }
    ensures { result ≡ list_any (is_entry_outside m.now f) entries.now }
{
    for entry in entries {
        if is_outside(m, f, entry.value) || is_block_outside(m, f, entry.block) {
            return true;
        }
    }
    false
}

/// Whether a value is one of another function than `f`, or a placeholder.
fn has_outside(m: &LLVMModule, f: LLVMFunction, values: &[LLVMValue]) -> bool
    requires { All (IsValue m.now) values.now }
    ensures { result ≡ list_any (is_outside m.now f) values.now }
{
    for value in values {
        if is_outside(m, f, *value) {
            return true;
        }
    }
    false
}

/// Whether a block is one of another function than `f`.
fn has_block_outside(m: &LLVMModule, f: LLVMFunction, blocks: &[LLVMBasicBlock]) -> bool
    requires { All (IsBlock m.now) blocks.now }
    ensures { result ≡ list_any (is_block_outside m.now f) blocks.now }
{
    for block in blocks {
        if is_block_outside(m, f, *block) {
            return true;
        }
    }
    false
}

/// Whether an instruction names something of another function than `f`.
fn reaches_outside(m: &LLVMModule, f: LLVMFunction, inst: &LLVMInst) -> bool
    requires { HasValues m.now inst.now }
    ensures { result ≡ reaches_outside m.now f inst.now }
{
    match inst {
        LLVMInst::Phi(_, entries) => has_entry_outside(m, f, entries.as_slice()),
        LLVMInst::Row(row) => has_outside(m, f, row.operands.as_slice())
            || has_block_outside(m, f, row.targets.as_slice()),
    }
}

fn check_operands_inside(m: &LLVMModule, i: LLVMInstRef) -> Result<(), CheckErr>
    requires { i.0 < length m.now.insts }
    ensures ok { OnOk result (¬ Fails m.now (errors.BlockOutside (places.Inst i.0))) }
    ensures err { IfErr result (λ e. Fails m.now e) }
{
    if reaches_outside(m, home(m, i), m.inst(i)) {
        return Err(CheckErr::BlockOutside(Place::Inst(i.0)));
    }
    Ok(())
}

/// How many operands an instruction has.
fn operand_count(inst: &LLVMInst) -> usize
    ensures { result ≡ length (operands inst.now) }
{
    match inst {
        LLVMInst::Phi(_, entries) => entries.as_slice().len(),
        LLVMInst::Row(row) => row.operands.as_slice().len(),
    }
}

fn check_operand_list(m: &LLVMModule, i: LLVMInstRef) -> Result<(), CheckErr>
    requires { i.0 < length m.now.insts }
    ensures ok { OnOk result (¬ Fails m.now (errors.ListTooLong (places.Inst i.0))) }
    ensures err { IfErr result (λ e. Fails m.now e) }
{
    if operand_count(m.inst(i)) >= TOO_LONG {
        return Err(CheckErr::ListTooLong(Place::Inst(i.0)));
    }
    Ok(())
}

/// What is asked of one instruction, its edges aside.
pub fn check_inst(m: &LLVMModule, i: LLVMInstRef) -> Result<(), CheckErr>
    requires { i.0 < length m.now.insts }
    ensures ok { OnOk result (IsCheckedInst m.now i.0) }
    ensures err { IfErr result (λ e. Fails m.now e) }
{
    check_operand_types(m, i)?;
    check_operands_inside(m, i)?;
    check_operand_list(m, i)
}
