//! The numbers of values: they count over the blocks in order, of each its arguments and then its results.

ghost use Rattle.std.specs.Prelude.{◌≡◌, ◌<◌, ◌+◌, ◌∷◌, [], ℕ, IfOk, Some, All, length, slice_get};
ghost use Rattle.dialect_core.specs.Data.{DialectBlock, Func};
ghost use Rattle.to_llvm_ir.specs.Made.{number_behind};
ghost use Rattle.to_llvm_ir.specs.States.{first_at};
ghost use Rattle.to_llvm_ir.specs.Ordering.{AreBlocksOf, ops_of};

use crate::listing::read_ops;
use crate::operations::is_block_op;
use dialect_core::context::Context;
use dialect_core::numbers::{BlockRef, OpRef};
use std::alloc::{AllocError, Global};

/// The number behind that of the result of an operation, where it has one, and else the number itself.
fn number_after(ctx: &Context, op: OpRef, number: u64) -> Result<u64, AllocError>
    requires { op.0 < length ctx.now.ops }
    ensures { IfOk result (λ next. next ≡ number_behind number (ops_of ctx.now (op ∷ []))) }
{
    if !is_block_op(ctx, op) {
        return Ok(number);
    }
    match ctx.result_type(op) {
        None => Ok(number),
        Some(_) => number.checked_add(1).ok_or(AllocError),
    }
}

/// The number behind those of the results of operations, of which the first has the number `first`.
fn number_behind(ctx: &Context, ops: &[OpRef], first: u64) -> Result<u64, AllocError>
    requires { All (λ o. o.0 < length ctx.now.ops) ops.now }
    ensures { IfOk result (λ next. next ≡ number_behind first (ops_of ctx.now ops.now)) }
{
    let mut next = first;
    for op in ops {
        next = number_after(ctx, *op, next)?;
    }
    Ok(next)
}

/// A number and a count together.
fn sum_of(number: u64, count: usize) -> Result<u64, AllocError>
    ensures { IfOk result (λ sum. sum ≡ number + count) }
{
    number.checked_add(count as u64).ok_or(AllocError)
}

/// The number of the first value of each block of a function.
pub fn first_numbers(
    alloc: Global,
    ctx: &Context,
    list: &[BlockRef],
    ops: &mut Vec<OpRef>,
) -> Result<Vec<u64>, AllocError>
    requires within { All (λ b. b.0 < length ctx.now.blocks) list.now }
    ensures { IfOk result (λ numbers. (g : Func) → AreBlocksOf ctx.now g list.now → (j : ℕ) (c : DialectBlock) → slice_get g.blocks j ≡ Some c → slice_get numbers.items j ≡ Some (first_at g j)) }
{
    let mut numbers = Vec::new(alloc);
    let mut next = 0u64;
    for block in list {
        numbers.push(next)?;
        let start = sum_of(next, ctx.block_args(*block).len())?;
        read_ops(ctx, *block, ops)?;
        next = number_behind(ctx, ops.as_slice(), start)?;
    }
    Ok(numbers)
}
