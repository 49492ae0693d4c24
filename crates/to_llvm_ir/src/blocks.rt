//! The blocks of a function whose body is being exported.

ghost use Rattle.std.specs.Prelude.{◌≡◌, ◌<◌, ℕ, List, None, Some, All, IfOk, IfErr, OnOk, length, map, slice_get, if◌then◌else◌};
ghost use Rattle.dialect_core.specs.ContextData.{IsSuccessorWithin};
ghost use Rattle.dialect_core.specs.Data.{DialectBlock};
ghost use Rattle.llvm_core.specs.Module.{Module};
ghost use Rattle.to_llvm_ir.specs.Causes.{IsFuncCause};
ghost use Rattle.to_llvm_ir.specs.Exported.{label_of};
ghost use Rattle.to_llvm_ir.specs.States.{Task, Spot, IsSpot, AreAllMapped, found_block, same_block};

use crate::names::block_name;
use crate::numbers::place_of;
use crate::to_llvm_err::ToLLVMErr;
use dialect_core::context::Context;
use dialect_core::numbers::BlockRef;
use dialect_core::ops::Successor;
use llvm_core::module::LLVMModule;
use llvm_core::numbers::{LLVMBasicBlock, LLVMFunction};
use std::alloc::{AllocError, Global};
use support::number_map::NumberMap;
use support::text::Text;

/// What a block became, and its place in the function.
#[derive(Clone, Copy, Drop)]
pub struct Target {
    pub block: LLVMBasicBlock,
    pub place: u32,
}

/// What the blocks of a function became.
#[derive(Drop)]
pub struct Blocks {
    pub targets: NumberMap<Target>,
}

impl Blocks {
    /// No blocks.
    pub fn new(alloc: Global) -> Blocks
        ensures { (b : _) → found_block result b ≡ None }
    {
        Blocks {
            targets: NumberMap::new(alloc),
        }
    }

    /// What a block became, where it is known.
    #[inline(always)]
    pub fn get(&self, block: BlockRef) -> Option<Target>
        ensures { result ≡ found_block self.now block }
    {
        self.targets.get(block.0)
    }

    /// What a block became.
    #[inline(always)]
    pub fn set(&mut self, block: BlockRef, target: Target) -> Result<(), AllocError>
        ensures { OnOk result ((q : _) → found_block self.new q ≡ (if same_block block q then Some target else found_block self.old q)) }
    {
        self.targets.set(block.0, target)
    }
}

/// The label of a block, empty where it has none.
fn label_of(ctx: &Context, block: BlockRef) -> &str
    requires { block.0 < length ctx.now.blocks }
    ensures { result.now ≡ label_of ctx.now block }
{
    match ctx.block_label(block) {
        Some(label) => label.as_str(),
        None => "",
    }
}

/// What the block became that an edge leads to. `UndefinedBlock` where it is none of the function.
#[inline(always)]
pub fn find_target(
    alloc: Global,
    ctx: &Context,
    edge: &Successor,
    blocks: &Blocks,
) -> Result<Target, ToLLVMErr>
    requires within { IsSuccessorWithin (length ctx.now.ops) (length ctx.now.blocks) edge.now }
    ensures ok { IfOk result (λ x. found_block blocks.now edge.now.block ≡ Some x) }
    ensures cause { (s : Spot) (op : _) (l : ℕ) → IsSpot ctx.now op s → AreAllMapped s.task blocks.now → slice_get s.op.successors l ≡ Some edge.now → IfErr result (IsFuncCause ctx.now s.task.source) }
{
    match blocks.get(edge.block) {
        Some(target) => Ok(target),
        None => Err(ToLLVMErr::UndefinedBlock(Text::copy(alloc, label_of(ctx, edge.block))?)),
    }
}
