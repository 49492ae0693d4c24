//! The blocks of a function of LLVM, without instructions yet.

ghost use Rattle.std.specs.Prelude.{◌≡◌, ◌<◌, ℕ, suc, Some, All, length, slice_get, IfOk, OnOk};
ghost use Rattle.kinds.specs.Names.{IsGoodOrNone};
ghost use Rattle.dialect_core.specs.Data.{DialectBlock};
ghost use Rattle.to_llvm_ir.specs.Exported.{block_name};
ghost use Rattle.to_llvm_ir.specs.Opening.{IsOpening, IsDeclared, AreBlocks};
ghost use Rattle.to_llvm_ir.specs.States.{Task, IsBlockAt};

use crate::blocks::{Blocks, Target};
use crate::names::block_name;
use crate::numbers::place_of;
use dialect_core::context::Context;
use dialect_core::numbers::BlockRef;
use llvm_core::module::LLVMModule;
use llvm_core::numbers::LLVMFunction;
use std::alloc::{AllocError, Global};

/// Appends the block at a place of a function, under its name.
fn append_block(
    alloc: Global,
    ctx: &Context,
    block: BlockRef,
    i: usize,
    f: LLVMFunction,
    blocks: &mut Blocks,
    back: &mut LLVMModule,
) -> Result<(), AllocError>
    requires within { block.0 < length ctx.now.blocks }
    requires there { f.0 < length back.old.functions }
    ensures ok { (t : Task) (ty : _) (c : DialectBlock) → IsBlockAt ctx.now t i c block → IsOpening t i f ty blocks.old back.old → OnOk result (IsOpening t (suc i) f ty blocks.new back.new) }
    ensures labelled { (t : Task) (c : DialectBlock) → IsBlockAt ctx.now t i c block → OnOk result (IsGoodOrNone (block_name c.label i)) }
{
    let place = place_of(i)?;
    let name = block_name(alloc, ctx.block_label(block), place)?;
    let target = back.append_block(f, name.as_str())?;
    blocks.set(
        block,
        Target {
            block: target,
            place,
        },
    )
}

/// Appends the blocks of a function, in order.
pub fn append_blocks(
    alloc: Global,
    ctx: &Context,
    list: &[BlockRef],
    f: LLVMFunction,
    back: &mut LLVMModule,
) -> Result<Blocks, AllocError>
    requires within { All (λ b. b.0 < length ctx.now.blocks) list.now }
    requires there { (t : Task) × (ty : _) × AreBlocks ctx.now t list.now × IsDeclared t f ty back.old }
    ensures ok { (t : Task) (ty : _) → AreBlocks ctx.now t list.now → IsDeclared t f ty back.old → IfOk result (λ blocks. IsOpening t (length t.source.blocks) f ty blocks back.new) }
    ensures labelled { (t : Task) → AreBlocks ctx.now t list.now → OnOk result ((j : ℕ) (c : DialectBlock) → slice_get t.source.blocks j ≡ Some c → IsGoodOrNone (block_name c.label j)) }
{
    let mut blocks = Blocks::new(alloc);
    for (i, block) in list.iter().enumerate() {
        append_block(alloc, ctx, *block, i, f, &mut blocks, back)?;
    }
    Ok(blocks)
}
