//! The rule that no type in use nests too deep.

ghost use Rattle.std.specs.Prelude.{◌≡◌, ◌<◌, ℕ, All, IfErr, IsTrue, OnOk, Some, false, length, slice_get};
ghost use Rattle.std.specs.List.{list_any};
ghost use Rattle.std.specs.Option.{option_map};
ghost use Rattle.llvm_core.specs.declared.check_err.Place.TheVariants as places;
ghost use Rattle.llvm_core.specs.declared.check_err.CheckErr.TheVariants as errors;
ghost use Rattle.llvm_core.specs.declared.numbers.LLVMType.{LLVMType};
ghost use Rattle.llvm_core.specs.Parts.{IsEntry, IsValue, HasValues, operands};
ghost use Rattle.llvm_core.specs.Depths.{AreNotes};
ghost use Rattle.llvm_core.specs.Checked.{is_deep, is_deep_struct, is_deep_inst, is_deep_value, struct_names, IsCheckedDepths, Fails, MayAnswer};

use crate::check_err::{CheckErr, Place};
use crate::code::{LLVMInst, LLVMValue, PhiEntry};
use crate::module::LLVMModule;
use crate::name_set::NameSet;
use crate::nesting::{visit, visit_fields};
use crate::numbers::{LLVMFunction, LLVMInstRef, LLVMStruct, LLVMType};
use kinds::types::deepest;

fn is_deep(m: &LLVMModule, names: &NameSet<'_>, notes: &mut [u32], ty: LLVMType) -> bool
    requires within { ty.0 < length m.now.types }
    requires names { names.now ≡ struct_names m.now }
    requires notes { AreNotes m.now notes.old }
    ensures deep { result ≡ is_deep m.now ty }
    ensures notes { AreNotes m.now notes.new }
{
    visit(m, names, notes, ty, deepest()).is_none()
}

fn is_deep_struct(m: &LLVMModule, names: &NameSet<'_>, notes: &mut [u32], s: LLVMStruct) -> bool
    requires within { s.0 < length m.now.structs }
    requires names { names.now ≡ struct_names m.now }
    requires notes { AreNotes m.now notes.old }
    ensures deep { option_map (λ x. is_deep_struct m.now x.name) (slice_get m.now.structs s.0) ≡ Some result }
    ensures notes { AreNotes m.now notes.new }
{
    visit_fields(m, names, notes, m.struct_name(s), deepest() - 1).is_none()
}

/// Whether some type nests too deep, in use or not.
fn has_deep(m: &LLVMModule, names: &NameSet<'_>, notes: &mut [u32]) -> bool
    requires names { names.now ≡ struct_names m.now }
    requires notes { AreNotes m.now notes.old }
    ensures none { result ≡ false → (t : LLVMType) → t.0 < length m.now.types → is_deep m.now t ≡ false }
    ensures notes { AreNotes m.now notes.new }
{
    for t in 0..m.types() {
        if is_deep(m, names, notes, LLVMType(t)) {
            return true;
        }
    }
    false
}

fn is_deep_value(m: &LLVMModule, names: &NameSet<'_>, notes: &mut [u32], value: LLVMValue) -> bool
    requires value { IsValue m.now value }
    requires names { names.now ≡ struct_names m.now }
    requires notes { AreNotes m.now notes.old }
    ensures deep { result ≡ is_deep_value m.now value }
    ensures notes { AreNotes m.now notes.new }
{
    is_deep(m, names, notes, m.type_of(value))
}

fn has_deep_value(
    m: &LLVMModule,
    names: &NameSet<'_>,
    notes: &mut [u32],
    values: &[LLVMValue],
) -> bool
    requires values { All (IsValue m.now) values.now }
    requires names { names.now ≡ struct_names m.now }
    requires notes { AreNotes m.now notes.old }
    ensures deep { result ≡ list_any (is_deep_value m.now) values.now }
    ensures notes { AreNotes m.now notes.new }
{
    for value in values {
        if is_deep_value(m, names, notes, *value) {
            return true;
        }
    }
    false
}

fn has_deep_entry(
    m: &LLVMModule,
    names: &NameSet<'_>,
    notes: &mut [u32],
    entries: &[PhiEntry],
) -> bool
    requires entries { All (IsEntry m.now) entries.now }
    requires names { names.now ≡ struct_names m.now }
    requires notes { AreNotes m.now notes.old }
    ensures deep { result ≡ list_any (λ e. is_deep_value m.now e.value) entries.now }
    ensures notes { AreNotes m.now notes.new }
{
    for entry in entries {
        if is_deep_value(m, names, notes, entry.value) {
            return true;
        }
    }
    false
}

/// Whether the type of an operand nests too deep.
#[tactic(auto, using(crate::proofs::DepthLemmas::any_mapped))]
fn has_deep_operand(m: &LLVMModule, names: &NameSet<'_>, notes: &mut [u32], inst: &LLVMInst) -> bool
    requires values { HasValues m.now inst.now }
    requires names { names.now ≡ struct_names m.now }
    requires notes { AreNotes m.now notes.old }
    ensures deep { result ≡ list_any (is_deep_value m.now) (operands inst.now) }
    ensures notes { AreNotes m.now notes.new }
{
    match inst {
        LLVMInst::Phi(_, entries) => has_deep_entry(m, names, notes, entries.as_slice()),
        LLVMInst::Row(row) => has_deep_value(m, names, notes, row.operands.as_slice()),
    }
}

/// Whether the type of the result of an instruction or of an operand nests too deep.
fn is_deep_inst(m: &LLVMModule, names: &NameSet<'_>, notes: &mut [u32], i: LLVMInstRef) -> bool
    requires within { i.0 < length m.now.insts }
    requires names { names.now ≡ struct_names m.now }
    requires notes { AreNotes m.now notes.old }
    ensures deep { option_map (is_deep_inst m.now) (slice_get m.now.insts i.0) ≡ Some result }
    ensures notes { AreNotes m.now notes.new }
{
    if is_deep_value(m, names, notes, LLVMValue::Inst(i)) {
        return true;
    }
    has_deep_operand(m, names, notes, m.inst(i))
}

/// Each struct nests no deeper than is allowed.
fn check_structs(m: &LLVMModule, names: &NameSet<'_>, notes: &mut [u32]) -> Result<(), CheckErr>
    requires names { names.now ≡ struct_names m.now }
    requires notes { AreNotes m.now notes.old }
    ensures ok { OnOk result ((s : ℕ) → s < length m.now.structs → ¬ Fails m.now (errors.TooDeep (places.Struct s))) }
    ensures err { IfErr result (λ e. MayAnswer m.now e) }
    ensures notes { AreNotes m.now notes.new }
{
    for s in 0..m.structs() {
        if is_deep_struct(m, names, notes, LLVMStruct(s)) {
            return Err(CheckErr::TooDeep(Place::Struct(s)));
        }
    }
    Ok(())
}

/// No function is of a type that nests too deep.
fn check_functions(m: &LLVMModule, names: &NameSet<'_>, notes: &mut [u32]) -> Result<(), CheckErr>
    requires names { names.now ≡ struct_names m.now }
    requires notes { AreNotes m.now notes.old }
    ensures ok { OnOk result ((f : ℕ) → f < length m.now.functions → ¬ Fails m.now (errors.TooDeep (places.Function f))) }
    ensures err { IfErr result (λ e. MayAnswer m.now e) }
    ensures notes { AreNotes m.now notes.new }
{
    for f in 0..m.functions() {
        if is_deep(m, names, notes, m.function_type(LLVMFunction(f))) {
            return Err(CheckErr::TooDeep(Place::Function(f)));
        }
    }
    Ok(())
}

/// No instruction has a result or an operand of a type that nests too deep.
fn check_insts(m: &LLVMModule, names: &NameSet<'_>, notes: &mut [u32]) -> Result<(), CheckErr>
    requires names { names.now ≡ struct_names m.now }
    requires notes { AreNotes m.now notes.old }
    ensures ok { OnOk result ((i : ℕ) → i < length m.now.insts → ¬ Fails m.now (errors.TooDeep (places.Inst i))) }
    ensures err { IfErr result (λ e. MayAnswer m.now e) }
{
    for i in 0..m.inst_count() {
        if is_deep_inst(m, names, notes, LLVMInstRef(i)) {
            return Err(CheckErr::TooDeep(Place::Inst(i)));
        }
    }
    Ok(())
}

/// The same of all of them. Where the module has no type at all that nests too deep, no function and no instruction is
/// looked at.
fn check_noted(m: &LLVMModule, names: &NameSet<'_>, notes: &mut [u32]) -> Result<(), CheckErr>
    requires names { names.now ≡ struct_names m.now }
    requires notes { AreNotes m.now notes.old }
    ensures ok { OnOk result (IsCheckedDepths m.now) }
    ensures err { IfErr result (λ e. MayAnswer m.now e) }
{
    check_structs(m, names, notes)?;
    if !has_deep(m, names, notes) {
        return Ok(());
    }
    check_functions(m, names, notes)?;
    check_insts(m, names, notes)
}

/// No type that is in use nests too deep, given the names of the structs.
pub(crate) fn check_depths(m: &LLVMModule, names: &NameSet<'_>) -> Result<(), CheckErr>
    requires { names.now ≡ struct_names m.now }
    ensures ok { OnOk result (IsCheckedDepths m.now) }
    ensures err { IfErr result (λ e. MayAnswer m.now e) }
{
    let mut notes = vec![in m.allocator(); 0u32; m.types() as usize]?;
    check_noted(m, names, notes.as_mut_slice())
}
