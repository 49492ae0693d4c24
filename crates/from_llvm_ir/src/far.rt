//! Whether a function asks seldom for dominance: most of its uses look at results of their own block or of the first.
//!
//! Nothing rests on it: it chooses between two ways to the same answers. So the contracts say only that each call is safe
//! and ends.

ghost use Rattle.std.specs.Prelude.{◌<◌, All, length};

use llvm_core::code::{LLVMInst, LLVMValue, PhiEntry};
use llvm_core::numbers::{LLVMBasicBlock, LLVMFunction, LLVMInstRef};
use renamed_source::source::Source;

/// The numbers of the instructions of a block: from a first on, up to an end. Numbers that do not count on are none.
#[derive(Clone, Copy)]
struct Span {
    first: u32,
    end: u32,
}

impl Span {
    /// The numbers of these instructions.
    fn of(insts: &[LLVMInstRef]) -> Span {
        let first = match insts.first() {
            Some(i) => i.0,
            None => 0,
        };
        let mut end = first;
        for i in insts {
            if i.0 != end {
                return Span { first: 0, end: 0 };
            }
            end = end.saturating_add(1);
        }
        Span { first, end }
    }

    /// Whether the value is the result of one of the instructions.
    fn gives(&self, value: LLVMValue) -> bool {
        match value {
            LLVMValue::Inst(i) => self.first <= i.0 && i.0 < self.end,
            LLVMValue::Const(_) | LLVMValue::Param(..) => false,
        }
    }
}

/// The results that are near at a use: those of its own block, and those of the first block.
#[derive(Clone, Copy)]
struct Near {
    block: LLVMBasicBlock,
    own: Span,
    entry: Span,
}

impl Near {
    /// Whether an operand is far: a result that is not near.
    fn is_far(&self, value: LLVMValue) -> bool {
        match value {
            LLVMValue::Inst(_) => !self.own.gives(value) && !self.entry.gives(value),
            LLVMValue::Const(_) | LLVMValue::Param(..) => false,
        }
    }

    /// How many operands are far.
    fn count_values(&self, values: &[LLVMValue]) -> usize {
        let mut far = 0usize;
        for value in values {
            if self.is_far(*value) {
                far = far.saturating_add(1);
            }
        }
        far
    }

    /// How many entries of a phi may be far: what it takes for another block counts, unless it is of the first block.
    fn count_entries(&self, entries: &[PhiEntry]) -> usize {
        let mut far = 0usize;
        for entry in entries {
            let other = entry.block.0 != self.block.0 && self.own.gives(entry.value);
            if other || self.is_far(entry.value) {
                far = far.saturating_add(1);
            }
        }
        far
    }

    /// How many uses of an instruction may be far.
    fn count_inst(&self, inst: &LLVMInst) -> usize {
        match inst {
            LLVMInst::Phi(_, entries) => self.count_entries(entries.as_slice()),
            LLVMInst::Row(row) => self.count_values(row.operands.as_slice()),
        }
    }
}

/// How many uses of a block may be far.
fn count_block(source: &Source<'_>, block: LLVMBasicBlock, entry: Span) -> usize
    requires { block.0 < length source.now.blocks }
{
    let insts = source.instructions(block);
    let own = Span::of(insts);
    let near = Near { block, own, entry };
    let mut far = 0usize;
    for i in insts {
        far = far.saturating_add(near.count_inst(source.inst(*i)));
    }
    far
}

/// Whether few uses of a function may be far.
pub fn has_few_far_uses(source: &Source<'_>, f: LLVMFunction) -> bool
    requires { f.0 < length source.now.functions }
{
    let blocks = source.blocks(f);
    let entry = match blocks.first() {
        Some(first) => Span::of(source.instructions(*first)),
        None => Span { first: 0, end: 0 },
    };
    let mut far = 0usize;
    for block in blocks {
        far = far.saturating_add(count_block(source, *block, entry));
        if far > 2 {
            return false;
        }
    }
    true
}
