//! Goes through the operations of a block, and takes no memory for it.

ghost use Rattle.std.specs.Prelude.{◌≡◌, ◌<◌, ◌∷◌, IfSome, Some, length, slice_get};
ghost use Rattle.dialect_core.specs.Lists.{list_at, from_op};

use crate::context::Context;
use crate::numbers::{BlockRef, OpRef};

/// The operation after another in a block. What is left of the block's list from the one is it and what is left from
/// the other.
pub fn next_in_block(ctx: &Context, block: BlockRef, op: OpRef) -> Option<OpRef>
    requires block { block.0 < length ctx.now.blocks }
    requires op { op.0 < length ctx.now.ops }
    requires here { Some op ≡ slice_get (from_op (Some op) (list_at ctx.now.lists block)) 0 }
    ensures rest { from_op (Some op) (list_at ctx.now.lists block) ≡ op ∷ from_op result (list_at ctx.now.lists block) }
    ensures head { result ≡ slice_get (from_op result (list_at ctx.now.lists block)) 0 }
    ensures within { IfSome result (λ o. o.0 < length ctx.now.ops) }
{
    let _first = ctx.first_op(block);
    ctx.next_op(op)
}

/// The first operation of a block. What is left of its list from that one is the list.
pub fn first_in_block(ctx: &Context, block: BlockRef) -> Option<OpRef>
    requires { block.0 < length ctx.now.blocks }
    ensures rest { from_op result (list_at ctx.now.lists block) ≡ list_at ctx.now.lists block }
    ensures head { result ≡ slice_get (list_at ctx.now.lists block) 0 }
    ensures within { IfSome result (λ o. o.0 < length ctx.now.ops) }
{
    ctx.first_op(block)
}
