//! The operations of a block, in a list that is used again.

ghost use Rattle.std.specs.Prelude.{◌≡◌, ◌<◌, All, OnOk, length};
ghost use Rattle.dialect_core.specs.Lists.{list_at};

use dialect_core::context::Context;
use dialect_core::numbers::{BlockRef, OpRef};
use std::alloc::AllocError;

/// Puts the operations of a block, in order, into a list in place of what it holds.
pub fn read_ops(ctx: &Context, block: BlockRef, ops: &mut Vec<OpRef>) -> Result<(), AllocError>
    requires { block.0 < length ctx.now.blocks }
    ensures ops { OnOk result (ops.new.items ≡ list_at ctx.now.lists block) }
    ensures within { OnOk result (All (λ o. o.0 < length ctx.now.ops) ops.new.items) }
{
    ops.clear();
    let mut next = ctx.first_op(block);
    while let Some(op) = next {
        ops.push(op)?;
        next = ctx.next_op(op);
    }
    Ok(())
}
