//! Numbers the values and blocks of a module as its text shows them.

ghost use Rattle.std.specs.Prelude.{◌≡◌, ◌<◌, ◌+◌, ◌∷◌, [], All, OnOk, IfOk, length, if◌then◌else◌};
ghost use Rattle.std.specs.List.{flat_map};
ghost use Rattle.dialect_core.specs.declared.ops.Value.TheVariants as kinds;
ghost use Rattle.dialect_core.specs.Data.{data_of};
ghost use Rattle.dialect_core.specs.Text.{arguments_from, numbered_from, value_number, block_number};
ghost use Rattle.dialect_core.specs.Numbering.{Numbered, value_at, block_at, op_values, values_of_block, values_of_func, blocks_of_func};

use crate::context::Context;
use crate::numbering::Numbering;
use crate::numbers::{BlockRef, ModuleOp, OpRef};
use crate::ops::{OpKind, Value};
use dialect_types::types::TypeHandle;
use std::alloc::{AllocError, Global};

/// Gives a value the next number, where it has none, and answers the number after that.
#[inline(always)]
fn number_value(numbers: &mut Numbering, value: Value, next: u64) -> Result<u64, AllocError>
    ensures numbered { OnOk result (Numbered numbers.old numbers.new ((value, next) ∷ []) []) }
    ensures next { IfOk result (λ n. n ≡ next + 1) }
{
    numbers.values.note(value, next)?;
    let after = next.checked_add(1).ok_or(AllocError)?;
    Ok(after)
}

/// Gives a block its number, where it has none.
fn number_block_name(
    numbers: &mut Numbering,
    block: BlockRef,
    number: u64,
) -> Result<(), AllocError>
    ensures { OnOk result (Numbered numbers.old numbers.new [] ((block, number) ∷ [])) }
{
    numbers.blocks.note(block.0, number)
}

/// A place as a number of 32 bits.
pub fn place_of(place: usize) -> Result<u32, AllocError>
    ensures { IfOk result (λ p. p ≡ place) }
{
    match u32::try_from(place) {
        Ok(number) => Ok(number),
        Err(_) => Err(AllocError),
    }
}

/// Numbers the arguments of a block, and answers the number after them.
fn number_arguments(
    numbers: &mut Numbering,
    block: BlockRef,
    args: &[TypeHandle],
    first: u64,
) -> Result<u64, AllocError>
    ensures numbered { OnOk result (Numbered numbers.old numbers.new (numbered_from first (arguments_from block 0 args.now)) []) }
    ensures next { IfOk result (λ n. n ≡ first + length (arguments_from block 0 args.now)) }
{
    let mut next = first;
    for i in 0..args.len() {
        let place = place_of(i)?;
        next = number_value(numbers, Value::Argument(block, place), next)?;
    }
    Ok(next)
}

/// Whether an operation of a function's block gives a result.
fn gives_result(ctx: &Context, op: OpRef) -> bool
    requires { op.0 < length ctx.now.ops }
    ensures { op_values ctx.now op ≡ (if result then kinds.Result op ∷ [] else []) }
{
    match ctx.op_kind(op) {
        OpKind::Module | OpKind::Func => false,
        _ => ctx.result_type(op).is_some(),
    }
}

/// Numbers the result of an operation, where it gives one, and answers the number after it.
fn number_result(
    ctx: &Context,
    numbers: &mut Numbering,
    op: OpRef,
    next: u64,
) -> Result<u64, AllocError>
    requires { op.0 < length ctx.now.ops }
    ensures numbered { OnOk result (Numbered numbers.old numbers.new (numbered_from next (op_values ctx.now op)) []) }
    ensures next { IfOk result (λ n. n ≡ next + length (op_values ctx.now op)) }
{
    if !gives_result(ctx, op) {
        return Ok(next);
    }
    let after = number_value(numbers, Value::Result(op), next)?;
    Ok(after)
}

/// Numbers the results of operations in order, and answers the number after them.
fn number_results(
    ctx: &Context,
    numbers: &mut Numbering,
    ops: &[OpRef],
    first: u64,
) -> Result<u64, AllocError>
    requires { All (λ o. o.0 < length ctx.now.ops) ops.now }
    ensures numbered { OnOk result (Numbered numbers.old numbers.new (numbered_from first (flat_map (op_values ctx.now) ops.now)) []) }
    ensures next { IfOk result (λ n. n ≡ first + length (flat_map (op_values ctx.now) ops.now)) }
{
    let mut next = first;
    for op in ops {
        next = number_result(ctx, numbers, *op, next)?;
    }
    Ok(next)
}

/// Numbers the values of a block, and answers the number after them.
fn number_block(
    ctx: &Context,
    numbers: &mut Numbering,
    block: BlockRef,
    first: u64,
) -> Result<u64, AllocError>
    requires { block.0 < length ctx.now.blocks }
    ensures numbered { OnOk result (Numbered numbers.old numbers.new (numbered_from first (values_of_block ctx.now block)) []) }
    ensures next { IfOk result (λ n. n ≡ first + length (values_of_block ctx.now block)) }
{
    let after_args = number_arguments(numbers, block, ctx.block_args(block), first)?;
    let ops = ctx.block_ops(block)?;
    let next = number_results(ctx, numbers, ops.as_slice(), after_args)?;
    Ok(next)
}

/// Numbers the blocks of a region and their values.
fn number_blocks(
    ctx: &Context,
    numbers: &mut Numbering,
    blocks: &[BlockRef],
) -> Result<(), AllocError>
    requires { All (λ b. b.0 < length ctx.now.blocks) blocks.now }
    ensures { OnOk result (Numbered numbers.old numbers.new (numbered_from 0 (flat_map (values_of_block ctx.now) blocks.now)) (numbered_from 0 blocks.now)) }
{
    let mut next = 0;
    for (place, block) in blocks.iter().enumerate() {
        number_block_name(numbers, *block, place as u64)?;
        next = number_block(ctx, numbers, *block, next)?;
    }
    Ok(())
}

/// Numbers the blocks and values of an operation of a module, where it is a function.
fn number_func(ctx: &Context, numbers: &mut Numbering, op: OpRef) -> Result<(), AllocError>
    requires { op.0 < length ctx.now.ops }
    ensures { OnOk result (Numbered numbers.old numbers.new (values_of_func ctx.now op) (blocks_of_func ctx.now op)) }
{
    match ctx.op_kind(op) {
        OpKind::Func => number_blocks(ctx, numbers, ctx.op_blocks(op)),
        _ => Ok(()),
    }
}

/// The numbers of the values and blocks of a module.
pub fn number_module(alloc: Global, ctx: &Context, root: ModuleOp) -> Result<Numbering, AllocError>
    requires { root.0.0 < length ctx.now.ops }
    ensures values { IfOk result (λ n. (q : Value) → value_at n q ≡ value_number (data_of ctx.now root.0.0) q) }
    ensures blocks { IfOk result (λ n. (q : BlockRef) → block_at n q ≡ block_number (data_of ctx.now root.0.0) q) }
{
    let mut numbers = Numbering::new(alloc);
    let ops = ctx.held_ops(root.0)?;
    for op in ops.as_slice() {
        number_func(ctx, &mut numbers, *op)?;
    }
    Ok(numbers)
}
