//! What an instruction consists of, and the kind of operation that stands for it.

ghost use Rattle.std.specs.Prelude.{◌≡◌, false};
ghost use Rattle.llvm_core.specs.Parts.{is_phi, operands};
ghost use Rattle.from_llvm_ir.specs.Parts.{target_blocks, IsOpKind};

use dialect_core::ops::OpKind;
use llvm_core::code::{LLVMInst, LLVMValue};
use llvm_core::numbers::LLVMBasicBlock;

pub fn is_phi(inst: &LLVMInst) -> bool
    ensures { result ≡ is_phi inst.now }
{
    matches!(inst, LLVMInst::Phi(..))
}

/// The operands of an instruction that is no phi, in order.
pub fn operands_of(inst: &LLVMInst) -> &[LLVMValue]
    requires { is_phi inst.now ≡ false }
    ensures { result.now ≡ operands inst.now }
{
    match inst {
        LLVMInst::Phi(..) => unreachable!(),
        LLVMInst::Row(row) => row.operands.as_slice(),
    }
}

/// The blocks that an instruction leads to, in order.
pub fn targets_of(inst: &LLVMInst) -> &[LLVMBasicBlock]
    ensures { result.now ≡ target_blocks inst.now }
{
    match inst {
        LLVMInst::Phi(..) => &[],
        LLVMInst::Row(row) => row.targets.as_slice(),
    }
}

/// The kind of the operation that stands for an instruction that is no phi.
pub fn kind_of(inst: &LLVMInst) -> OpKind
    requires { is_phi inst.now ≡ false }
    ensures { IsOpKind inst.now result }
{
    match inst {
        LLVMInst::Phi(..) => unreachable!(),
        LLVMInst::Row(row) => OpKind::Row(row.op),
    }
}
