//! The check of a module against its rules.

ghost use Rattle.std.specs.Prelude.{◌≡◌, ◌<◌, ◌+◌, ℕ, [], All, IfErr, IsTrue, OnOk, Some, length, slice_get};
ghost use Rattle.std.specs.List.{list_any};
ghost use Rattle.std.specs.Option.{option_map, option_map_or};
ghost use Rattle.llvm_core.specs.declared.check_err.Place.TheVariants as places;
ghost use Rattle.llvm_core.specs.declared.check_err.CheckErr.TheVariants as errors;
ghost use Rattle.llvm_core.specs.Parts.{is_kind};
ghost use Rattle.llvm_core.specs.Names.{HasTwice};
ghost use Rattle.llvm_core.specs.Checked.{is_terminator, is_terminator_at, ends_in_only, is_valueless, misfits_signature, Fails, local_names, names_before, IsFreshName, IsCheckedFunction, IsCheckedBlock, IsCheckedInst, IsChecked, MayAnswer};

use crate::check_err::{CheckErr, Place};
use crate::code::LLVMInst;
use crate::depths::check_depths;
use crate::edges::check_edges;
use crate::module::LLVMModule;
use crate::name_set::NameSet;
use crate::names::{has_twice, local_names};
use crate::numbers::{LLVMBasicBlock, LLVMFunction, LLVMInstRef, LLVMType};
use crate::operands::{TOO_LONG, check_inst, is_function, is_valueless};
use crate::phis::has_late_phi;
use crate::struct_rules::check_structs;
use crate::types::LLVMTypeKind;
use kinds::names::{is_bad_name, is_intrinsic_name};

fn check_count(m: &LLVMModule) -> Result<(), CheckErr>
    ensures ok { OnOk result (¬ Fails m.now (errors.ListTooLong places.Module)) }
    ensures err { IfErr result (λ e. Fails m.now e) }
{
    if m.functions() as usize >= TOO_LONG || m.structs() as usize >= TOO_LONG {
        return Err(CheckErr::ListTooLong(Place::Module));
    }
    Ok(())
}

/// Notes the name of a function after those before it.
fn check_function_name<'a>(
    m: &'a LLVMModule,
    f: LLVMFunction,
    seen: &mut NameSet<'a>,
) -> Result<(), CheckErr>
    requires within { f.0 < length m.now.functions }
    requires seen { seen.old ≡ names_before m.now f.0 }
    ensures seen { OnOk result (seen.new ≡ names_before m.now (f.0 + 1)) }
    ensures ok { OnOk result (IsFreshName m.now f.0) }
    ensures err { IfErr result (λ e. MayAnswer m.now e) }
{
    let name = m.function_name(f);
    if is_bad_name(name) {
        return Err(CheckErr::NameTwice(Place::Function(f.0)));
    }
    if !seen.insert(name)? {
        return Err(CheckErr::NameTwice(Place::Function(f.0)));
    }
    Ok(())
}

/// Notes the names of all functions, where none was noted before.
fn note_function_names<'a>(m: &'a LLVMModule, seen: &mut NameSet<'a>) -> Result<(), CheckErr>
    requires { seen.old ≡ [] }
    ensures ok { OnOk result ((f : ℕ) → f < length m.now.functions → IsFreshName m.now f) }
    ensures err { IfErr result (λ e. MayAnswer m.now e) }
{
    for f in 0..m.functions() {
        check_function_name(m, LLVMFunction(f), seen)?;
    }
    Ok(())
}

/// No two functions share a name, and each name is one for a symbol.
fn check_function_names(m: &LLVMModule) -> Result<(), CheckErr>
    ensures ok { OnOk result ((f : ℕ) → f < length m.now.functions → IsFreshName m.now f) }
    ensures err { IfErr result (λ e. MayAnswer m.now e) }
{
    let mut seen = NameSet::new(m.allocator());
    seen.reserve(m.functions() as usize)?;
    note_function_names(m, &mut seen)
}

fn check_local_names(m: &LLVMModule, f: LLVMFunction) -> Result<(), CheckErr>
    requires { f.0 < length m.now.functions }
    ensures ok { OnOk result ((x : _) → slice_get m.now.functions f.0 ≡ Some x → ¬ HasTwice (local_names m.now x)) }
    ensures err { IfErr result (λ e. MayAnswer m.now e) }
{
    let names = local_names(m, f)?;
    if has_twice(m.allocator(), names.as_slice())? {
        return Err(CheckErr::NameTwice(Place::Function(f.0)));
    }
    Ok(())
}

/// Whether a parameter is of a type of no value.
fn has_valueless(m: &LLVMModule, params: &[LLVMType]) -> bool
    requires { All (λ t. t.0 < length m.now.types) params.now }
    ensures { result ≡ list_any (is_kind is_valueless m.now.types) params.now }
{
    for param in params {
        if is_valueless(m.type_kind(*param)) {
            return true;
        }
    }
    false
}

fn misfits_signature(m: &LLVMModule, ty: LLVMType) -> bool
    requires { ty.0 < length m.now.types }
    ensures { option_map (misfits_signature m.now.types) (slice_get m.now.types ty.0) ≡ Some result }
{
    match m.type_kind(ty) {
        LLVMTypeKind::Function { result, params, .. } => has_valueless(m, params.as_slice())
            || is_function(m.type_kind(*result)),
        _ => false,
    }
}

fn check_signature(m: &LLVMModule, f: LLVMFunction) -> Result<(), CheckErr>
    requires { f.0 < length m.now.functions }
    ensures ok { OnOk result (¬ Fails m.now (errors.OperandType (places.Function f.0))) }
    ensures err { IfErr result (λ e. Fails m.now e) }
{
    if misfits_signature(m, m.function_type(f)) {
        return Err(CheckErr::OperandType(Place::Function(f.0)));
    }
    Ok(())
}

fn check_intrinsic(m: &LLVMModule, f: LLVMFunction) -> Result<(), CheckErr>
    requires { f.0 < length m.now.functions }
    ensures ok { OnOk result (¬ Fails m.now (errors.IntrinsicBody (places.Function f.0))) }
    ensures err { IfErr result (λ e. Fails m.now e) }
{
    if is_intrinsic_name(m.function_name(f)) && !m.blocks(f).is_empty() {
        return Err(CheckErr::IntrinsicBody(Place::Function(f.0)));
    }
    Ok(())
}

fn check_space(m: &LLVMModule, f: LLVMFunction) -> Result<(), CheckErr>
    requires { f.0 < length m.now.functions }
    ensures ok { OnOk result (¬ Fails m.now (errors.FunctionSpace (places.Function f.0))) }
    ensures err { IfErr result (λ e. Fails m.now e) }
{
    if m.function_space(f) != 0 {
        return Err(CheckErr::FunctionSpace(Place::Function(f.0)));
    }
    Ok(())
}

fn check_function_lists(m: &LLVMModule, f: LLVMFunction) -> Result<(), CheckErr>
    requires { f.0 < length m.now.functions }
    ensures ok { OnOk result (¬ Fails m.now (errors.ListTooLong (places.Function f.0))) }
    ensures err { IfErr result (λ e. Fails m.now e) }
{
    if m.params(f).len() >= TOO_LONG || m.blocks(f).len() >= TOO_LONG {
        return Err(CheckErr::ListTooLong(Place::Function(f.0)));
    }
    Ok(())
}

fn check_function(m: &LLVMModule, f: LLVMFunction) -> Result<(), CheckErr>
    requires { f.0 < length m.now.functions }
    ensures ok { OnOk result (IsCheckedFunction m.now f.0) }
    ensures err { IfErr result (λ e. MayAnswer m.now e) }
{
    check_local_names(m, f)?;
    check_signature(m, f)?;
    check_intrinsic(m, f)?;
    check_space(m, f)?;
    check_function_lists(m, f)
}

/// Whether an instruction ends its block.
fn is_terminator(inst: &LLVMInst) -> bool
    ensures { result ≡ is_terminator inst.now }
{
    match inst {
        LLVMInst::Phi(..) => false,
        LLVMInst::Row(row) => row.op.rule().leads.ends(),
    }
}

fn has_terminator(m: &LLVMModule, insts: &[LLVMInstRef]) -> bool
    requires { All (λ i. i.0 < length m.now.insts) insts.now }
    ensures { result ≡ list_any (is_terminator_at m.now) insts.now }
{
    for inst in insts {
        if is_terminator(m.inst(*inst)) {
            return true;
        }
    }
    false
}

/// Whether a block ends in its only terminator.
fn is_terminated(m: &LLVMModule, b: LLVMBasicBlock) -> bool
    requires { b.0 < length m.now.blocks }
    ensures { option_map (λ x. ends_in_only (is_terminator_at m.now) x.insts) (slice_get m.now.blocks b.0) ≡ Some result }
{
    let insts = m.instructions(b);
    if insts.is_empty() {
        return false;
    }
    let last = insts.len() - 1;
    is_terminator(m.inst(insts[last])) && !has_terminator(m, &insts[..last])
}

fn check_terminator(m: &LLVMModule, b: LLVMBasicBlock) -> Result<(), CheckErr>
    requires { b.0 < length m.now.blocks }
    ensures ok { OnOk result (¬ Fails m.now (errors.NoTerminator (places.Block b.0))) }
    ensures err { IfErr result (λ e. Fails m.now e) }
{
    if !is_terminated(m, b) {
        return Err(CheckErr::NoTerminator(Place::Block(b.0)));
    }
    Ok(())
}

fn check_phi_places(m: &LLVMModule, b: LLVMBasicBlock) -> Result<(), CheckErr>
    requires { b.0 < length m.now.blocks }
    ensures ok { OnOk result (¬ Fails m.now (errors.PhiPlace (places.Block b.0))) }
    ensures err { IfErr result (λ e. Fails m.now e) }
{
    if has_late_phi(m, m.instructions(b)) {
        return Err(CheckErr::PhiPlace(Place::Block(b.0)));
    }
    Ok(())
}

fn check_block_list(m: &LLVMModule, b: LLVMBasicBlock) -> Result<(), CheckErr>
    requires { b.0 < length m.now.blocks }
    ensures ok { OnOk result (¬ Fails m.now (errors.ListTooLong (places.Block b.0))) }
    ensures err { IfErr result (λ e. Fails m.now e) }
{
    if m.instructions(b).len() >= TOO_LONG {
        return Err(CheckErr::ListTooLong(Place::Block(b.0)));
    }
    Ok(())
}

fn check_block(m: &LLVMModule, b: LLVMBasicBlock) -> Result<(), CheckErr>
    requires { b.0 < length m.now.blocks }
    ensures ok { OnOk result (IsCheckedBlock m.now b.0) }
    ensures err { IfErr result (λ e. Fails m.now e) }
{
    check_terminator(m, b)?;
    check_phi_places(m, b)?;
    check_block_list(m, b)
}

fn check_functions(m: &LLVMModule) -> Result<(), CheckErr>
    ensures ok { OnOk result ((f : ℕ) → f < length m.now.functions → IsCheckedFunction m.now f) }
    ensures err { IfErr result (λ e. MayAnswer m.now e) }
{
    for f in 0..m.functions() {
        check_function(m, LLVMFunction(f))?;
    }
    Ok(())
}

fn check_blocks(m: &LLVMModule) -> Result<(), CheckErr>
    ensures ok { OnOk result ((b : ℕ) → b < length m.now.blocks → IsCheckedBlock m.now b) }
    ensures err { IfErr result (λ e. Fails m.now e) }
{
    for b in 0..m.block_count() {
        check_block(m, LLVMBasicBlock(b))?;
    }
    Ok(())
}

fn check_insts(m: &LLVMModule) -> Result<(), CheckErr>
    ensures ok { OnOk result ((i : ℕ) → i < length m.now.insts → IsCheckedInst m.now i) }
    ensures err { IfErr result (λ e. Fails m.now e) }
{
    for i in 0..m.inst_count() {
        check_inst(m, LLVMInstRef(i))?;
    }
    Ok(())
}

/// Ok exactly where all rules hold; else a rule that fails, and where.
pub fn check(m: &LLVMModule) -> Result<(), CheckErr>
    ensures ok { OnOk result (IsChecked m.now) }
    ensures err { IfErr result (λ e. MayAnswer m.now e) }
{
    check_count(m)?;
    let structs = check_structs(m)?;
    check_function_names(m)?;
    check_functions(m)?;
    check_depths(m, &structs)?;
    check_blocks(m)?;
    check_insts(m)?;
    check_edges(m)?;
    Ok(())
}
