//! The types of the constants that a module's instructions use.

ghost use Rattle.std.specs.Prelude.{◌<◌, All, IfErr, OnOk, length};
ghost use Rattle.llvm_core.specs.Data.{data_of};
ghost use Rattle.llvm_core.specs.Form.{IsForm};
ghost use Rattle.llvm_core.specs.Parts.{IsEntry, IsValue};
ghost use Rattle.llvm_core.specs.Sound.{IsModule};
ghost use Rattle.held_types.specs.Table.{IsTable};
ghost use Rattle.held_types.specs.Values.{IsInConstant, IsInConstants, IsInConstantsOf, IsInEntry, NestsIfConstant};
ghost use Rattle.held_types.specs.Walk.{IsCause, IsOfOne, IsWalk, Walked};

use crate::held_structs::HeldErr;
use crate::table::Table;
use crate::walk::{Walk, visit};
use kinds::types::deepest;
use llvm_core::code::{LLVMInst, LLVMValue, PhiEntry};
use llvm_core::module::LLVMModule;
use llvm_core::numbers::LLVMInstRef;

/// Goes through the type of a value that is a constant. Any other value has its type where it is defined.
fn walk_constant(
    m: &LLVMModule,
    table: &Table<'_>,
    walk: &mut Walk,
    value: LLVMValue,
) -> Result<(), HeldErr>
    requires there { IsValue m.now value }
    requires nested { NestsIfConstant m.now value }
    requires table { IsTable m.now table.now }
    requires walk { IsWalk m.now walk.old }
    ensures walk { OnOk result (Walked m.now (IsInConstant m.now value) walk.old walk.new) }
    ensures cause { IfErr result (IsCause (IsInConstant m.now value)) }
{
    match value {
        LLVMValue::Const(_) => visit(m, table, walk, m.type_of(value), deepest()),
        LLVMValue::Param(_, _) => Ok(()),
        LLVMValue::Inst(_) => Ok(()),
    }
}

/// Goes through the types of constants among operands.
fn walk_operands(
    m: &LLVMModule,
    table: &Table<'_>,
    walk: &mut Walk,
    values: &[LLVMValue],
) -> Result<(), HeldErr>
    requires there { All (IsValue m.now) values.now }
    requires nested { All (NestsIfConstant m.now) values.now }
    requires table { IsTable m.now table.now }
    requires walk { IsWalk m.now walk.old }
    ensures walk { OnOk result (Walked m.now (IsOfOne (IsInConstant m.now) values.now) walk.old walk.new) }
    ensures cause { IfErr result (IsCause (IsOfOne (IsInConstant m.now) values.now)) }
{
    for value in values {
        walk_constant(m, table, walk, *value)?;
    }
    Ok(())
}

/// Goes through the types of constants among the values of a phi's entries.
fn walk_entries(
    m: &LLVMModule,
    table: &Table<'_>,
    walk: &mut Walk,
    entries: &[PhiEntry],
) -> Result<(), HeldErr>
    requires there { All (IsEntry m.now) entries.now }
    requires nested { All (λ e. NestsIfConstant m.now e.value) entries.now }
    requires table { IsTable m.now table.now }
    requires walk { IsWalk m.now walk.old }
    ensures walk { OnOk result (Walked m.now (IsOfOne (IsInEntry m.now) entries.now) walk.old walk.new) }
    ensures cause { IfErr result (IsCause (IsOfOne (IsInEntry m.now) entries.now)) }
{
    for entry in entries {
        walk_constant(m, table, walk, entry.value)?;
    }
    Ok(())
}

/// Goes through the types of the constants that an instruction uses.
fn walk_constants_of(
    m: &LLVMModule,
    table: &Table<'_>,
    walk: &mut Walk,
    i: LLVMInstRef,
) -> Result<(), HeldErr>
    requires within { i.0 < length m.now.insts }
    requires sound { IsModule m.now }
    requires form { IsForm (data_of m.now) }
    requires table { IsTable m.now table.now }
    requires walk { IsWalk m.now walk.old }
    ensures walk { OnOk result (Walked m.now (IsInConstantsOf m.now i.0) walk.old walk.new) }
    ensures cause { IfErr result (IsCause (IsInConstantsOf m.now i.0)) }
{
    match m.inst(i) {
        LLVMInst::Phi(_, entries) => walk_entries(m, table, walk, entries.as_slice()),
        LLVMInst::Row(row) => walk_operands(m, table, walk, row.operands.as_slice()),
    }
}

/// Goes through the types of the constants that a module's instructions use.
pub fn walk_constants(m: &LLVMModule, table: &Table<'_>, walk: &mut Walk) -> Result<(), HeldErr>
    requires sound { IsModule m.now }
    requires form { IsForm (data_of m.now) }
    requires table { IsTable m.now table.now }
    requires walk { IsWalk m.now walk.old }
    ensures walk { OnOk result (Walked m.now (IsInConstants m.now (length m.now.insts)) walk.old walk.new) }
    ensures cause { IfErr result (IsCause (IsInConstants m.now (length m.now.insts))) }
{
    for i in 0..m.inst_count() {
        walk_constants_of(m, table, walk, LLVMInstRef(i))?;
    }
    Ok(())
}
