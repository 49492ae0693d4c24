//! Tests of lists: whether each has fewer than 2^31 entries.

ghost use Rattle.std.specs.Prelude.{◌≡◌, ◌<◌, ◌↔◌, IsTrue, All, Some, length};
ghost use Rattle.kinds.specs.Types.{params_of};
ghost use Rattle.dialect_types.specs.Trees.{type_at, type_trees};
ghost use Rattle.dialect_core.specs.declared.ops.Symbol.{Symbol};
ghost use Rattle.dialect_core.specs.Lists.{list_at};
ghost use Rattle.dialect_core.specs.ContextData.{symbol_at};
ghost use Rattle.dialect_core.specs.WellFormed.{HasFewEntries, IsFew, IsFewBlock, IsFewFunc, IsFewOp};
ghost use Rattle.dialect_core.specs.Checking.{HasTypeWithin};

use crate::context::Context;
use crate::numbers::{BlockRef, OpRef};
use crate::ops::{OpKind, Successor};
use crate::type_tests::params_of;
use crate::walking::{first_in_block, next_in_block};
use dialect_types::type_store::TypeStore;
use dialect_types::types::TypeHandle;

/// A list of this many entries is too long, and so is a longer one.
pub const TOO_LONG: usize = 1 << 31;

/// Whether edges pass few values each.
fn pass_few(edges: &[Successor]) -> bool
    ensures { IsTrue result ↔ All (λ s. IsFew s.args) edges.now }
{
    for edge in edges {
        if edge.args.as_slice().len() >= TOO_LONG {
            return false;
        }
    }
    true
}

/// Whether an operation has few operands and few edges, which pass few values each.
fn uses_few(ctx: &Context, op: OpRef) -> bool
    requires { op.0 < length ctx.now.ops }
    ensures { IsTrue result ↔ IsFewOp ctx.now op }
{
    let operands = ctx.op_operands(op);
    let edges = ctx.op_successors(op);
    operands.len() < TOO_LONG && edges.len() < TOO_LONG && pass_few(edges)
}

/// Whether a block has few operations.
fn holds_few(ctx: &Context, block: BlockRef) -> bool
    requires { block.0 < length ctx.now.blocks }
    ensures { IsTrue result ↔ IsFew (list_at ctx.now.lists block) }
{
    let mut next = first_in_block(ctx, block);
    let mut count = 0;
    while let Some(op) = next {
        count += 1;
        if count == TOO_LONG {
            return false;
        }
        next = next_in_block(ctx, block, op);
    }
    true
}

/// Whether the lists of each operation of a block are short.
fn ops_use_few(ctx: &Context, block: BlockRef) -> bool
    requires { block.0 < length ctx.now.blocks }
    ensures { IsTrue result ↔ All (IsFewOp ctx.now) (list_at ctx.now.lists block) }
{
    let mut next = first_in_block(ctx, block);
    while let Some(op) = next {
        let after = next_in_block(ctx, block, op);
        if !uses_few(ctx, op) {
            return false;
        }
        next = after;
    }
    true
}

/// Whether the lists of a block are short: its arguments, its operations, and those of each operation.
fn block_has_few(ctx: &Context, block: BlockRef) -> bool
    requires { block.0 < length ctx.now.blocks }
    ensures { IsTrue result ↔ IsFewBlock ctx.now block }
{
    if ctx.block_args(block).len() >= TOO_LONG {
        return false;
    }
    holds_few(ctx, block) && ops_use_few(ctx, block)
}

/// Whether the lists of each block are short.
fn blocks_have_few(ctx: &Context, blocks: &[BlockRef]) -> bool
    requires { All (λ b. b.0 < length ctx.now.blocks) blocks.now }
    ensures { IsTrue result ↔ All (IsFewBlock ctx.now) blocks.now }
{
    for block in blocks {
        if !block_has_few(ctx, *block) {
            return false;
        }
    }
    true
}

/// Whether a function of that type takes few arguments.
fn takes_few(types: &TypeStore, ty: TypeHandle) -> bool
    requires { ty.0 < length types.now }
    ensures { IsTrue result ↔ IsFew (params_of (type_at (type_trees types.now) ty)) }
{
    params_of(types, ty).len() < TOO_LONG
}

/// Whether an operation takes few arguments, where it is a function.
fn params_are_few(ctx: &Context, op: OpRef) -> bool
    requires op { op.0 < length ctx.now.ops }
    requires ty { HasTypeWithin ctx.now op }
    ensures { IsTrue result ↔ ((s : Symbol) → symbol_at ctx.now.ops op ≡ Some s → IsFew (params_of (type_at (type_trees ctx.now.types) s.ty))) }
{
    match ctx.op_kind(op) {
        OpKind::Func => takes_few(ctx.types(), ctx.symbol_type(op)),
        _ => true,
    }
}

/// Whether the lists of a function are short: what it takes, its blocks, and those of each block.
fn func_has_few(ctx: &Context, op: OpRef) -> bool
    requires op { op.0 < length ctx.now.ops }
    requires ty { HasTypeWithin ctx.now op }
    ensures { IsTrue result ↔ IsFewFunc ctx.now op }
{
    let blocks = ctx.region(op);
    blocks.len() < TOO_LONG && params_are_few(ctx, op) && blocks_have_few(ctx, blocks)
}

/// Whether the lists of each operation of a module's block are short.
fn funcs_have_few(ctx: &Context, block: BlockRef) -> bool
    requires block { block.0 < length ctx.now.blocks }
    requires types { All (HasTypeWithin ctx.now) (list_at ctx.now.lists block) }
    ensures { IsTrue result ↔ All (IsFewFunc ctx.now) (list_at ctx.now.lists block) }
{
    let mut next = first_in_block(ctx, block);
    while let Some(op) = next {
        let after = next_in_block(ctx, block, op);
        if !func_has_few(ctx, op) {
            return false;
        }
        next = after;
    }
    true
}

/// Whether the block for functions of a module has few of them, and the lists of each are short: each list then has fewer
/// than 2^31 entries, as the rules of the dialect ask. It takes no memory, and time linear in the module.
pub fn has_few(ctx: &Context, body: BlockRef) -> bool
    requires body { body.0 < length ctx.now.blocks }
    requires types { All (HasTypeWithin ctx.now) (list_at ctx.now.lists body) }
    ensures { IsTrue result ↔ HasFewEntries ctx.now body }
{
    holds_few(ctx, body) && funcs_have_few(ctx, body)
}
