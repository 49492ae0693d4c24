//! The blocks of a function, filled one after another in the order of the export. Their phis have no entries yet.

ghost use Rattle.std.specs.Prelude.{◌≡◌, ◌<◌, ℕ, suc, Some, All, length, slice_get, IfOk, IfErr, OnOk};
ghost use Rattle.dialect_core.specs.Data.{DialectBlock, IsTyped};
ghost use Rattle.to_llvm_ir.specs.Causes.{IsFuncCause};
ghost use Rattle.to_llvm_ir.specs.Made.{no_entries};
ghost use Rattle.to_llvm_ir.specs.Bodies.{IsBlockBegun, IsBlocksBegun, IsBodyAccepted};
ghost use Rattle.to_llvm_ir.specs.States.{Task, IsBetween, IsLinking, found_block, turn};

use crate::arguments::{add_phis, set_params};
use crate::blocks::{Blocks, Target};
use crate::guesses::Guesses;
use crate::listing::read_ops;
use crate::numbering::first_numbers;
use crate::numbers::check_few;
use crate::operations::convert_ops;
use crate::to_llvm_err::ToLLVMErr;
use crate::values::Values;
use dialect_core::context::Context;
use dialect_core::numbers::{BlockRef, OpRef};
use llvm_core::module::LLVMModule;
use llvm_core::numbers::LLVMFunction;
use std::alloc::Global;

/// What a block became that is known.
pub fn target_of(blocks: &Blocks, block: BlockRef) -> Target
    requires { (x : _) × (found_block blocks.now block ≡ Some x) }
    ensures { found_block blocks.now block ≡ Some result }
{
    match blocks.get(block) {
        Some(target) => target,
        None => unreachable!(),
    }
}

/// What the arguments and the operations of the block at a place become. Its values are numbered from `first`.
fn convert_block(
    alloc: Global,
    ctx: &Context,
    block: BlockRef,
    place: usize,
    first: u64,
    f: LLVMFunction,
    ops: &mut Vec<OpRef>,
    guesses: &mut Guesses,
    blocks: &Blocks,
    values: &mut Values,
    back: &mut LLVMModule,
) -> Result<(), ToLLVMErr>
    requires typed { IsTyped ctx.now }
    requires within { block.0 < length ctx.now.blocks }
    requires begun { (t : Task) × (c : DialectBlock) × IsBlockBegun ctx.now t place c block first f blocks.now values.old back.old }
    ensures ok { (t : Task) (c : DialectBlock) → IsBlockBegun ctx.now t place c block first f blocks.now values.old back.old → OnOk result (IsBetween t (suc (turn t place)) values.new back.new) }
    ensures accepted { (t : Task) (c : DialectBlock) → IsBlockBegun ctx.now t place c block first f blocks.now values.old back.old → OnOk result (IsBodyAccepted t.numbers.order t.source place c) }
    ensures cause { (t : Task) (c : DialectBlock) → IsBlockBegun ctx.now t place c block first f blocks.now values.old back.old → IfErr result (IsFuncCause ctx.now t.source) }
{
    let count = ctx.block_args(block).len();
    check_few(count)?;
    let target = target_of(blocks, block);
    values.next = first;
    if place == 0 {
        set_params(block, count, f, values)?;
    } else {
        add_phis(alloc, ctx, block, target.block, guesses, values, back)?;
    }
    read_ops(ctx, block, ops)?;
    check_few(ops.len())?;
    convert_ops(
        alloc,
        ctx,
        ops.as_slice(),
        guesses,
        blocks,
        target.block,
        values,
        back,
    )
}

/// What the blocks of a function become, in the order of the export, and what stands for its values.
pub fn convert_blocks(
    alloc: Global,
    ctx: &Context,
    list: &[BlockRef],
    order: &[u32],
    f: LLVMFunction,
    ops: &mut Vec<OpRef>,
    guesses: &mut Guesses,
    blocks: &Blocks,
    back: &mut LLVMModule,
) -> Result<Values, ToLLVMErr>
    requires typed { IsTyped ctx.now }
    requires within { All (λ b. b.0 < length ctx.now.blocks) list.now }
    requires begun { (t : Task) × IsBlocksBegun ctx.now t list.now order.now f blocks.now back.old }
    ensures ok { (t : Task) → IsBlocksBegun ctx.now t list.now order.now f blocks.now back.old → IfOk result (λ values. IsLinking t no_entries values back.new) }
    ensures accepted { (t : Task) → IsBlocksBegun ctx.now t list.now order.now f blocks.now back.old → OnOk result ((j : ℕ) (c : DialectBlock) → slice_get t.source.blocks j ≡ Some c → IsBodyAccepted t.numbers.order t.source j c) }
    ensures cause { (t : Task) → IsBlocksBegun ctx.now t list.now order.now f blocks.now back.old → IfErr result (IsFuncCause ctx.now t.source) }
{
    let firsts = first_numbers(alloc, ctx, list, ops)?;
    let numbers = firsts.as_slice();
    let mut values = Values::new(alloc);
    for place in order {
        let j = *place as usize;
        convert_block(
            alloc,
            ctx,
            list[j],
            j,
            numbers[j],
            f,
            ops,
            guesses,
            blocks,
            &mut values,
            back,
        )?;
    }
    Ok(values)
}
