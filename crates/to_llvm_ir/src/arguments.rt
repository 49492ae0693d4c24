//! Arguments of blocks: the entry's are the parameters, those of any other block become phis.

ghost use Rattle.std.specs.Prelude.{◌≡◌, ◌<◌, ◌+◌, ℕ, suc, Some, All, length, slice_get, OnOk};
ghost use Rattle.kinds.specs.Held.{IsHeld};
ghost use Rattle.dialect_types.specs.Trees.{type_at, type_trees};
ghost use Rattle.dialect_core.specs.Data.{DialectBlock, IsTyped};
ghost use Rattle.llvm_core.specs.Parts.{IsBlock};
ghost use Rattle.to_llvm_ir.specs.States.{Task, IsBlockAt, IsAtArgument};
ghost use Rattle.to_llvm_ir.specs.Opening.{HasParams};

use crate::building::build_result;
use crate::guesses::Guesses;
use crate::numbers::place_of;
use crate::types::value_type;
use crate::values::Values;
use dialect_core::context::Context;
use dialect_core::numbers::BlockRef;
use dialect_core::ops::Value;
use dialect_types::types::TypeHandle;
use llvm_core::code::{LLVMInst, LLVMValue};
use llvm_core::module::LLVMModule;
use llvm_core::numbers::{LLVMBasicBlock, LLVMFunction};
use std::alloc::{AllocError, Global};
use support::short_list::ShortList;

/// The parameters of a function stand for the arguments of its entry.
pub fn set_params(
    block: BlockRef,
    count: usize,
    f: LLVMFunction,
    values: &mut Values,
) -> Result<(), AllocError>
    ensures { (x : _) (t : Task) (c : DialectBlock) (m : _) → IsBlockAt x t 0 c block → HasParams t c f m → count ≡ length c.args → IsAtArgument t 0 c 0 values.old m → OnOk result (IsAtArgument t 0 c (length c.args) values.new m) }
{
    for i in 0..count {
        let place = place_of(i)?;
        values.set(Value::Argument(block, place), LLVMValue::Param(f, place))?;
    }
    Ok(())
}

/// A phi for the argument of a block at a place, without entries yet.
fn add_phi(
    alloc: Global,
    ctx: &Context,
    block: BlockRef,
    i: usize,
    ty: TypeHandle,
    target: LLVMBasicBlock,
    guesses: &mut Guesses,
    values: &mut Values,
    back: &mut LLVMModule,
) -> Result<(), AllocError>
    requires ty { ty.0 < length ctx.now.types }
    requires held { IsHeld (type_at (type_trees ctx.now.types) ty) }
    requires target { IsBlock back.old target }
    ensures { (t : Task) (p : ℕ) (c : DialectBlock) → IsBlockAt ctx.now t (suc p) c block → target.0 ≡ t.numbers.block + suc p → slice_get c.args i ≡ Some (type_at (type_trees ctx.now.types) ty) → IsAtArgument t (suc p) c i values.old back.old → OnOk result (IsAtArgument t (suc p) c (suc i) values.new back.new) }
{
    let place = place_of(i)?;
    let ty = value_type(alloc, ctx, ty, guesses, back)?;
    let inst = LLVMInst::Phi(ty, ShortList::zero());
    let phi = build_result(alloc, None, values.next, target, inst, back)?;
    values.set(Value::Argument(block, place), LLVMValue::Inst(phi))
}

/// A phi for each argument of a block, without entries yet.
pub fn add_phis(
    alloc: Global,
    ctx: &Context,
    block: BlockRef,
    target: LLVMBasicBlock,
    guesses: &mut Guesses,
    values: &mut Values,
    back: &mut LLVMModule,
) -> Result<(), AllocError>
    requires typed { IsTyped ctx.now }
    requires within { block.0 < length ctx.now.blocks }
    requires begun { (t : Task) × (p : ℕ) × (c : DialectBlock) × IsBlockAt ctx.now t (suc p) c block × (target.0 ≡ t.numbers.block + suc p) × IsAtArgument t (suc p) c 0 values.old back.old }
    ensures { (t : Task) (p : ℕ) (c : DialectBlock) → IsBlockAt ctx.now t (suc p) c block → target.0 ≡ t.numbers.block + suc p → IsAtArgument t (suc p) c 0 values.old back.old → OnOk result (IsAtArgument t (suc p) c (length c.args) values.new back.new) }
{
    for (i, ty) in ctx.block_args(block).iter().enumerate() {
        add_phi(alloc, ctx, block, i, *ty, target, guesses, values, back)?;
    }
    Ok(())
}
