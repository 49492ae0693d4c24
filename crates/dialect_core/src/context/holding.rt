//! Which blocks and operations a function of a context holds, and which blocks are first.

ghost use Rattle.std.specs.Prelude.{◌≡◌, ◌<◌, ◌↔◌, IsTrue, Some, All, length};
ghost use Rattle.dialect_core.specs.declared.ops.OpKind.TheVariants as kinds;
ghost use Rattle.dialect_core.specs.Lists.{Once, Stands};
ghost use Rattle.dialect_core.specs.ContextData.{AreRegions, IsSymbol, holder_at, kind_at, region_at};
ghost use Rattle.dialect_core.specs.Data.{held};
ghost use Rattle.dialect_core.specs.WellFormed.{IsFirst};

use super::Context;
use crate::numbers::{BlockRef, OpRef};

impl Context {
    /// The blocks of an operation's region in order. No block stands there twice, and no operation in two of them.
    /// Each function has a type and a linkage.
    pub fn region(&self, op: OpRef) -> &[BlockRef]
        requires { op.0 < length self.now.ops }
        ensures blocks { result.now ≡ region_at self.now.ops op.0 }
        ensures within { All (λ b. b.0 < length self.now.blocks) result.now }
        ensures once { Once result.now }
        ensures symbols { (o : OpRef) → kind_at self.now.ops o ≡ Some kinds.Func → IsSymbol self.now.ops o }
        ensures ops_once { Once (held self.now op.0) }
    {
        let _count = self.lists.len();
        self.op_blocks(op)
    }

    /// Each block stands once in the region of the operation that holds it, and in no other region. This does nothing, and
    /// is for the proofs of its callers.
    pub fn keeps_regions(&self)
        ensures { AreRegions (region_at self.now.ops) (holder_at self.now.blocks) }
    {
        let _ = &self.alloc;
    }

    /// Whether a block is in the region of an operation.
    pub fn holds_block(&self, holder: OpRef, block: BlockRef) -> bool
        requires { block.0 < length self.now.blocks }
        ensures { IsTrue result ↔ Stands block (region_at self.now.ops holder.0) }
    {
        let _ = &self.alloc;
        self.block_holder(block) == holder
    }

    /// Whether a block is the first of a region.
    pub fn is_first_block(&self, block: BlockRef) -> bool
        requires { block.0 < length self.now.blocks }
        ensures { IsTrue result ↔ IsFirst self.now block }
    {
        let _ = &self.alloc;
        match self.op_blocks(self.block_holder(block)).first() {
            Some(first) => *first == block,
            None => false,
        }
    }

    /// Whether an operation stands in a block of the region of another.
    pub fn holds_op(&self, holder: OpRef, op: OpRef) -> bool
        requires { op.0 < length self.now.ops }
        ensures { IsTrue result ↔ Stands op (held self.now holder.0) }
    {
        let _count = self.lists.len();
        match self.parent_block(op) {
            Some(block) => self.holds_block(holder, block),
            None => false,
        }
    }
}
