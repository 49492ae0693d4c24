//! Instructions by their names, and rows by what operands they have.

ghost use Rattle.std.specs.Prelude.{◌≡◌, [], ◌∷◌, Some, None};
ghost use Rattle.std.specs.Option.{option_map_or};
ghost use Rattle.kinds.specs.declared.op.Op.TheVariants as ops;
ghost use Rattle.llvm_core.specs.declared.code.LLVMInst.TheVariants as insts;

use crate::code::{LLVMInst, LLVMIntPredicate, LLVMValue, Op, OverflowFlags, Row};
use crate::numbers::{LLVMBasicBlock, LLVMType};
use support::short_list::ShortList;

/// A row that writes no type beside its operands.
fn row(op: Op, operands: ShortList<LLVMValue>, targets: ShortList<LLVMBasicBlock>) -> LLVMInst
    ensures { result ≡ insts.Row (record { op = op; written = None; operands = operands; targets = targets }) }
{
    LLVMInst::Row(Row {
        op,
        written: None,
        operands,
        targets,
    })
}

impl LLVMInst {
    /// A row of two operands.
    pub fn binary(op: Op, lhs: LLVMValue, rhs: LLVMValue) -> LLVMInst
        ensures { result ≡ insts.Row (record { op = op; written = None; operands = lhs ∷ rhs ∷ []; targets = [] }) }
    {
        row(op, ShortList::two(lhs, rhs), ShortList::zero())
    }

    /// A row of one operand, to the type.
    pub fn cast(op: Op, ty: LLVMType, value: LLVMValue) -> LLVMInst
        ensures { result ≡ insts.Row (record { op = op; written = Some ty; operands = value ∷ []; targets = [] }) }
    {
        LLVMInst::Row(Row {
            op,
            written: Some(ty),
            operands: ShortList::one(value),
            targets: ShortList::zero(),
        })
    }

    /// The second where the condition is true, else the third.
    pub fn select(condition: LLVMValue, lhs: LLVMValue, rhs: LLVMValue) -> LLVMInst
        ensures { result ≡ insts.Row (record { op = ops.Select; written = None; operands = condition ∷ lhs ∷ rhs ∷ []; targets = [] }) }
    {
        row(
            Op::Select,
            ShortList::three(condition, lhs, rhs),
            ShortList::zero(),
        )
    }

    pub fn freeze(value: LLVMValue) -> LLVMInst
        ensures { result ≡ insts.Row (record { op = ops.Freeze; written = None; operands = value ∷ []; targets = [] }) }
    {
        row(Op::Freeze, ShortList::one(value), ShortList::zero())
    }

    pub fn add(lhs: LLVMValue, rhs: LLVMValue, flags: OverflowFlags) -> LLVMInst
        ensures { result ≡ insts.Row (record { op = ops.Add flags; written = None; operands = lhs ∷ rhs ∷ []; targets = [] }) }
    {
        row(Op::Add(flags), ShortList::two(lhs, rhs), ShortList::zero())
    }

    pub fn icmp(lhs: LLVMValue, rhs: LLVMValue, predicate: LLVMIntPredicate) -> LLVMInst
        ensures { result ≡ insts.Row (record { op = ops.ICmp predicate; written = None; operands = lhs ∷ rhs ∷ []; targets = [] }) }
    {
        row(
            Op::ICmp(predicate),
            ShortList::two(lhs, rhs),
            ShortList::zero(),
        )
    }

    pub fn br(target: LLVMBasicBlock) -> LLVMInst
        ensures { result ≡ insts.Row (record { op = ops.Br; written = None; operands = []; targets = target ∷ [] }) }
    {
        row(Op::Br, ShortList::zero(), ShortList::one(target))
    }

    /// To the first block where the condition is true, else to the second.
    pub fn cond_br(condition: LLVMValue, first: LLVMBasicBlock, second: LLVMBasicBlock) -> LLVMInst
        ensures { result ≡ insts.Row (record { op = ops.CondBr; written = None; operands = condition ∷ []; targets = first ∷ second ∷ [] }) }
    {
        row(
            Op::CondBr,
            ShortList::one(condition),
            ShortList::two(first, second),
        )
    }

    pub fn ret(value: Option<LLVMValue>) -> LLVMInst
        ensures { result ≡ insts.Row (record { op = ops.Ret; written = None; operands = option_map_or (λ v. v ∷ []) value []; targets = [] }) }
    {
        match value {
            Some(value) => row(Op::Ret, ShortList::one(value), ShortList::zero()),
            None => row(Op::Ret, ShortList::zero(), ShortList::zero()),
        }
    }

    pub fn unreachable() -> LLVMInst
        ensures { result ≡ insts.Row (record { op = ops.Unreachable; written = None; operands = []; targets = [] }) }
    {
        row(Op::Unreachable, ShortList::zero(), ShortList::zero())
    }
}
