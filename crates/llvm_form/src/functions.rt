//! Whether functions, blocks, instructions and structs are narrow.

ghost use Rattle.std.specs.Prelude.{◌≡◌, ◌<◌, ◌^◌, All, Some, length, map, slice_get};
ghost use Rattle.std.specs.List.{list_all};
ghost use Rattle.std.specs.Option.{option_map};
ghost use Rattle.llvm_core.specs.Checked.{IsChecked, struct_names};
ghost use Rattle.llvm_core.specs.Code.{param_names};
ghost use Rattle.llvm_core.specs.Names.{is_good_name};
ghost use Rattle.llvm_core.specs.Parts.{IsValue, HasValues, is_kind, operands};
ghost use Rattle.llvm_form.specs.Narrow.{is_good_or_none, is_first_class_type, is_returned_kind, is_narrow_value, is_named_right, is_narrow_inst, is_narrow_block, is_narrow_signature, is_narrow_function, is_narrow_function_data, is_narrow};

use crate::narrow::{is_first_class_kind, is_good_or_none, is_returned_kind, is_void};
use kinds::names::is_good_name;
use llvm_core::code::{LLVMInst, LLVMValue, PhiEntry};
use llvm_core::module::LLVMModule;
use llvm_core::numbers::{LLVMBasicBlock, LLVMFunction, LLVMInstRef, LLVMStruct, LLVMType};
use llvm_core::types::LLVMTypeKind;

// ---- values

/// Whether a value is of a first class type.
fn is_narrow_value(m: &LLVMModule, value: LLVMValue) -> bool
    requires { IsValue m.now value }
    ensures { result ≡ is_narrow_value m.now value }
{
    is_first_class_kind(m.type_kind(m.type_of(value)))
}

fn are_narrow_values(m: &LLVMModule, values: &[LLVMValue]) -> bool
    requires { All (IsValue m.now) values.now }
    ensures { result ≡ list_all (is_narrow_value m.now) values.now }
{
    for value in values {
        if !is_narrow_value(m, *value) {
            return false;
        }
    }
    true
}

fn are_narrow_entries(m: &LLVMModule, entries: &[PhiEntry]) -> bool
    requires { All (λ e. IsValue m.now e.value) entries.now }
    ensures { result ≡ list_all (λ e. is_narrow_value m.now e.value) entries.now }
{
    for entry in entries {
        if !is_narrow_value(m, entry.value) {
            return false;
        }
    }
    true
}

// ---- instructions

#[tactic(auto, using(crate::proofs::AllLaws::all_mapped))]
/// Whether the operands of an instruction are of first class types.
fn has_narrow_operands(m: &LLVMModule, inst: &LLVMInst) -> bool
    requires { HasValues m.now inst.now }
    ensures { result ≡ list_all (is_narrow_value m.now) (operands inst.now) }
{
    match inst {
        LLVMInst::Phi(_, entries) => are_narrow_entries(m, entries.as_slice()),
        LLVMInst::Row(row) => are_narrow_values(m, row.operands.as_slice()),
    }
}

/// Whether an instruction is narrow: its name, the type of its result, and its operands.
fn is_narrow_inst(m: &LLVMModule, i: LLVMInstRef) -> bool
    requires { i.0 < length m.now.insts }
    ensures { result ≡ is_narrow_inst m.now i }
{
    let kind = m.type_kind(m.type_of(LLVMValue::Inst(i)));
    let name = m.inst_name(i);
    let named = name.is_empty() || (is_good_name(name) && !is_void(kind));
    let inst = m.inst(i);
    named && is_returned_kind(kind) && has_narrow_operands(m, inst)
}

fn are_narrow_insts(m: &LLVMModule, insts: &[LLVMInstRef]) -> bool
    requires { All (λ i. i.0 < length m.now.insts) insts.now }
    ensures { result ≡ list_all (is_narrow_inst m.now) insts.now }
{
    for inst in insts {
        if !is_narrow_inst(m, *inst) {
            return false;
        }
    }
    true
}

// ---- blocks

fn is_narrow_block(m: &LLVMModule, b: LLVMBasicBlock) -> bool
    requires { b.0 < length m.now.blocks }
    ensures { result ≡ is_narrow_block m.now b }
{
    is_good_or_none(m.block_name(b)) && are_narrow_insts(m, m.instructions(b))
}

fn are_narrow_blocks(m: &LLVMModule, blocks: &[LLVMBasicBlock]) -> bool
    requires { All (λ b. b.0 < length m.now.blocks) blocks.now }
    ensures { result ≡ list_all (is_narrow_block m.now) blocks.now }
{
    for block in blocks {
        if !is_narrow_block(m, *block) {
            return false;
        }
    }
    true
}

// ---- functions

fn are_first_class_types(m: &LLVMModule, types: &[LLVMType]) -> bool
    requires { All (λ t. t.0 < length m.now.types) types.now }
    ensures { result ≡ list_all (is_first_class_type m.now) types.now }
{
    for ty in types {
        if !is_first_class_kind(m.type_kind(*ty)) {
            return false;
        }
    }
    true
}

/// Whether a function type is of the form.
fn is_narrow_signature(m: &LLVMModule, ty: LLVMType) -> bool
    requires { ty.0 < length m.now.types }
    ensures { result ≡ is_kind (is_narrow_signature m.now) m.now.types ty }
{
    match m.type_kind(ty) {
        LLVMTypeKind::Function {
            result,
            params,
            variadic,
        } => !*variadic
            && is_returned_kind(m.type_kind(*result))
            && are_first_class_types(m, params.as_slice()),
        _ => false,
    }
}

/// How many parameters a function has.
fn param_count(m: &LLVMModule, f: LLVMFunction) -> usize
    requires { f.0 < length m.now.functions }
    ensures { result ≡ length (param_names m.now.functions f) }
{
    match m.type_kind(m.function_type(f)) {
        LLVMTypeKind::Function { params, .. } => params.as_slice().len(),
        _ => unreachable!(),
    }
}

/// Whether the names of parameters are good, where they have one.
fn are_good_params(m: &LLVMModule, f: LLVMFunction) -> bool
    requires within { f.0 < length m.now.functions }
    requires few { length (param_names m.now.functions f) < 2 ^ 31 }
    ensures { result ≡ list_all is_good_or_none (param_names m.now.functions f) }
{
    for place in 0..param_count(m, f) {
        if !is_good_or_none(m.param_name(f, place as u32)) {
            return false;
        }
    }
    true
}

/// Whether a function is narrow: its name, its type, the names of its parameters, and its body, which it has.
fn is_narrow_function(m: &LLVMModule, f: LLVMFunction) -> bool
    requires within { f.0 < length m.now.functions }
    requires few { length (param_names m.now.functions f) < 2 ^ 31 }
    ensures { result ≡ is_narrow_function m.now f }
{
    is_good_name(m.function_name(f))
        && is_narrow_signature(m, m.function_type(f))
        && are_good_params(m, f)
        && !m.blocks(f).is_empty()
        && are_narrow_blocks(m, m.blocks(f))
}

/// Whether all functions are narrow.
fn are_narrow_functions(m: &LLVMModule) -> bool
    requires { IsChecked m.now }
    ensures { result ≡ list_all (is_narrow_function_data m.now) m.now.functions }
{
    for f in 0..m.functions() {
        if !is_narrow_function(m, LLVMFunction(f)) {
            return false;
        }
    }
    true
}

// ---- structs

/// Whether the names of all structs are good.
fn are_good_structs(m: &LLVMModule) -> bool
    ensures { result ≡ list_all is_good_name (struct_names m.now) }
{
    for s in 0..m.structs() {
        if !is_good_name(m.struct_name(LLVMStruct(s))) {
            return false;
        }
    }
    true
}

/// Whether all functions and the names of all structs are narrow.
pub fn is_narrow(m: &LLVMModule) -> bool
    requires { IsChecked m.now }
    ensures { result ≡ is_narrow m.now }
{
    are_narrow_functions(m) && are_good_structs(m)
}
