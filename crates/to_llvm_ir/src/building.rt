//! Instructions under the names of their results.

ghost use Rattle.std.specs.Prelude.{◌≡◌, ◌<◌, ◌^◌, ℕ, IfOk, OnOk, None, length};
ghost use Rattle.std.specs.Option.{option_copied};
ghost use Rattle.llvm_core.specs.Code.{code_of, with_code, with_inst};
ghost use Rattle.llvm_core.specs.Data as lists;
ghost use Rattle.llvm_core.specs.Data.{trees_of, result_tree, instruction_of, data_of};
ghost use Rattle.llvm_core.specs.Parts.{HasValues, IsResultType, result_type};
ghost use Rattle.llvm_core.specs.Sound.{IsModule};
ghost use Rattle.kinds.specs.Names.{IsGoodOrNone};
ghost use Rattle.to_llvm_ir.specs.Exported.{value_name};

use crate::names::{short_value_name, value_name};
use dialect_types::identifier::Identifier;
use llvm_core::code::LLVMInst;
use llvm_core::module::LLVMModule;
use llvm_core::numbers::{LLVMBasicBlock, LLVMInstRef};
use std::alloc::{AllocError, Global};

/// A new last instruction of a block, whose result is named by its number and its given name. A short name is joined where
/// it stands, so that it is not moved.
#[inline(always)]
pub fn build_result(
    alloc: Global,
    given: Option<&Identifier>,
    number: u64,
    block: LLVMBasicBlock,
    inst: LLVMInst,
    back: &mut LLVMModule,
) -> Result<LLVMInstRef, AllocError>
    requires block { block.0 < length back.old.blocks }
    requires values { HasValues back.old inst }
    requires typed { ¬ (result_type back.old inst ≡ None) }
    ensures place { IfOk result (λ i. i.0 ≡ length back.old.insts) }
    ensures ok { IfOk result (λ i. (ty : _) × IsResultType (result_type back.old inst) back.old.types back.new.types ty × (back.new ≡ with_code (record back.old { types = back.new.types }) (with_inst (code_of back.old) block i (value_name (option_copied given.entry) number) ty inst))) }
    ensures data { IfOk result (λ i. data_of back.new ≡ lists.with_instruction (data_of back.old) block.0 (record { number = i.0; name = value_name (option_copied given.entry) number; type = result_tree back.old inst; instruction = instruction_of (trees_of back.old) inst })) }
    ensures sound { OnOk result (IsModule back.new) }
    ensures good { (k : ℕ) → k < 2 ^ 64 → IsGoodOrNone (value_name (option_copied given.entry) k) }
{
    if let Some(name) = short_value_name(given, number) {
        return back.build(block, inst, name.as_str());
    }
    let name = value_name(alloc, given, number)?;
    back.build(block, inst, name.as_str())
}
