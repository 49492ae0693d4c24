//! The entries of phis: what each edge passes to the arguments of its target.

ghost use Rattle.std.specs.Prelude.{◌≡◌, ◌<◌, ◌+◌, ◌++◌, ◌∷◌, [], ℕ, Some, None, All, length, slice_get, IfErr, OnOk, if◌then◌else◌};
ghost use Rattle.dialect_core.specs.ContextData.{IsSuccessorWithin};
ghost use Rattle.dialect_core.specs.Data.{DialectBlock, DialectOp, op_at};
ghost use Rattle.dialect_core.specs.Form.{FitsTarget, edges_of};
ghost use Rattle.dialect_types.specs.Trees.{type_trees};
ghost use Rattle.meaning.specs.Dialect.{same_value};
ghost use Rattle.to_llvm_ir.specs.Accepted.{AreAcceptedEdges};
ghost use Rattle.to_llvm_ir.specs.Causes.{IsFuncCause};
ghost use Rattle.to_llvm_ir.specs.Made.{operand_for, passed_to, passed, entries, no_entries};
ghost use Rattle.to_llvm_ir.specs.Links.{IsEntryNext, IsEdgeNext, IsOpLinked, IsLinkedTo, IsBlockLinked, AreEqualEdges, Given};
ghost use Rattle.to_llvm_ir.specs.Opening.{AreBlocks};
ghost use Rattle.to_llvm_ir.specs.States.{Task, Spot, IsSpot, IsLinking, AreAllMapped};

use crate::blocks::{Blocks, Target, find_target};
use crate::bodies::target_of;
use crate::listing::read_ops;
use crate::numbers::place_of;
use crate::operations::is_block_op;
use crate::to_llvm_err::ToLLVMErr;
use crate::values::Values;
use dialect_core::context::Context;
use dialect_core::numbers::{BlockRef, OpRef};
use dialect_core::ops::{Successor, Value};
use llvm_core::code::LLVMValue;
use llvm_core::module::LLVMModule;
use llvm_core::numbers::LLVMBasicBlock;
use std::alloc::{AllocError, Global};

/// What an argument takes on an edge from a block, as the last entry of its phi.
fn add_entry(
    argument: Value,
    value: Value,
    from: LLVMBasicBlock,
    values: &Values,
    back: &mut LLVMModule,
) -> Result<(), AllocError>
    requires { (t : Task) × (given : Given) × IsEntryNext t argument value from given values.now back.old }
    ensures { (t : Task) (given : Given) → IsEntryNext t argument value from given values.now back.old → OnOk result (IsLinking t (λ v. if same_value argument v then given v ++ (operand_for t.source t.numbers value, from.0) ∷ [] else given v) values.now back.new) }
{
    let found = match values.get(argument) {
        Some(found) => found,
        None => unreachable!(),
    };
    let phi = match found {
        LLVMValue::Inst(phi) => phi,
        _ => unreachable!(),
    };
    let stands = match values.get(value) {
        Some(stands) => stands,
        None => unreachable!(),
    };
    back.add_incoming(phi, stands, from)
}

/// What the arguments of a block take on an edge from a block, as the last entries of their phis.
fn add_entries(
    edge: &Successor,
    from: LLVMBasicBlock,
    values: &Values,
    back: &mut LLVMModule,
) -> Result<(), AllocError>
    requires { (t : Task) × (given : Given) × IsEdgeNext t edge.now from given values.now back.old }
    ensures { (t : Task) (given : Given) → IsEdgeNext t edge.now from given values.now back.old → OnOk result (IsLinking t (λ v. given v ++ passed_to t.source t.numbers edge.now.block edge.now.args from.0 v) values.now back.new) }
{
    for (i, value) in edge.args.as_slice().iter().enumerate() {
        let place = place_of(i)?;
        add_entry(
            Value::Argument(edge.block, place),
            *value,
            from,
            values,
            back,
        )?;
    }
    Ok(())
}

/// Adds the entries of an edge. `NumBlockArgsNumPhisMismatch` where its target has another number of arguments.
fn add_edge(
    alloc: Global,
    ctx: &Context,
    edge: &Successor,
    from: LLVMBasicBlock,
    blocks: &Blocks,
    values: &Values,
    back: &mut LLVMModule,
) -> Result<(), ToLLVMErr>
    requires within { IsSuccessorWithin (length ctx.now.ops) (length ctx.now.blocks) edge.now }
    requires next { (s : Spot) × (op : OpRef) × (l : ℕ) × (given : Given) × IsLinkedTo ctx.now op s l edge.now from blocks.now given values.now back.old }
    ensures ok { (s : Spot) (op : OpRef) (l : ℕ) (given : Given) → IsLinkedTo ctx.now op s l edge.now from blocks.now given values.now back.old → OnOk result (IsLinking s.task (λ v. given v ++ passed_to s.task.source s.task.numbers edge.now.block edge.now.args from.0 v) values.now back.new) }
    ensures fits { (s : Spot) (op : OpRef) (l : ℕ) (given : Given) → IsLinkedTo ctx.now op s l edge.now from blocks.now given values.now back.old → OnOk result (FitsTarget s.task.source edge.now) }
    ensures cause { (s : Spot) (op : OpRef) (l : ℕ) (given : Given) → IsLinkedTo ctx.now op s l edge.now from blocks.now given values.now back.old → IfErr result (IsFuncCause ctx.now s.task.source) }
{
    find_target(alloc, ctx, edge, blocks)?;
    if ctx.block_args(edge.block).len() != edge.args.as_slice().len() {
        return Err(ToLLVMErr::NumBlockArgsNumPhisMismatch);
    }
    add_entries(edge, from, values, back)?;
    Ok(())
}

/// Two edges of one block to one block pass the same values, else `EdgeArgsDiffer`.
fn check_equal(
    alloc: Global,
    ctx: &Context,
    edges: &[Successor],
    from: Target,
    blocks: &Blocks,
) -> Result<(), ToLLVMErr>
    requires within { All (IsSuccessorWithin (length ctx.now.ops) (length ctx.now.blocks)) edges.now }
    ensures ok { length edges.now < 3 → OnOk result (AreEqualEdges edges.now) }
    ensures cause { (s : Spot) (op : OpRef) → IsSpot ctx.now op s → s.op.successors ≡ edges.now → AreAllMapped s.task blocks.now → from.place ≡ s.place → IfErr result (IsFuncCause ctx.now s.task.source) }
{
    if let [first, second] = edges {
        if first.block == second.block && first.args.as_slice() != second.args.as_slice() {
            let target = find_target(alloc, ctx, first, blocks)?;
            return Err(ToLLVMErr::EdgeArgsDiffer(from.place, target.place));
        }
    }
    Ok(())
}

/// Adds the entries of the edges of an operation of a block, in order.
fn link_edges(
    alloc: Global,
    ctx: &Context,
    op: OpRef,
    from: Target,
    blocks: &Blocks,
    values: &Values,
    back: &mut LLVMModule,
) -> Result<(), ToLLVMErr>
    requires within { op.0 < length ctx.now.ops }
    requires next { (s : Spot) × (given : Given) × IsOpLinked ctx.now op s from blocks.now given values.now back.old }
    ensures ok { (s : Spot) (given : Given) → IsOpLinked ctx.now op s from blocks.now given values.now back.old → OnOk result (IsLinking s.task (λ v. given v ++ passed s.task.source s.task.numbers from.block.0 s.op.successors v) values.now back.new) }
    ensures fits { (s : Spot) (given : Given) → IsOpLinked ctx.now op s from blocks.now given values.now back.old → OnOk result (All (FitsTarget s.task.source) s.op.successors) }
    ensures equal { (s : Spot) (given : Given) → IsOpLinked ctx.now op s from blocks.now given values.now back.old → OnOk result (AreEqualEdges s.op.successors) }
    ensures cause { (s : Spot) (given : Given) → IsOpLinked ctx.now op s from blocks.now given values.now back.old → IfErr result (IsFuncCause ctx.now s.task.source) }
{
    let edges = ctx.op_successors(op);
    check_equal(alloc, ctx, edges, from, blocks)?;
    for edge in edges {
        add_edge(alloc, ctx, edge, from.block, blocks, values, back)?;
    }
    Ok(())
}

/// Adds the entries of the edges of an operation, in order.
fn add_op_edges(
    alloc: Global,
    ctx: &Context,
    op: OpRef,
    from: Target,
    blocks: &Blocks,
    values: &Values,
    back: &mut LLVMModule,
) -> Result<(), ToLLVMErr>
    requires within { op.0 < length ctx.now.ops }
    requires next { (o : DialectOp) → op_at (type_trees ctx.now.types) ctx.now.ops op ≡ Some o → (s : Spot) × (given : Given) × IsOpLinked ctx.now op s from blocks.now given values.now back.old }
    ensures skipped { op_at (type_trees ctx.now.types) ctx.now.ops op ≡ None → (result ≡ Ok tt) × (back.new ≡ back.old) }
    ensures ok { (s : Spot) (given : Given) → IsOpLinked ctx.now op s from blocks.now given values.now back.old → OnOk result (IsLinking s.task (λ v. given v ++ passed s.task.source s.task.numbers from.block.0 s.op.successors v) values.now back.new) }
    ensures fits { (s : Spot) (given : Given) → IsOpLinked ctx.now op s from blocks.now given values.now back.old → OnOk result (All (FitsTarget s.task.source) s.op.successors) }
    ensures equal { (s : Spot) (given : Given) → IsOpLinked ctx.now op s from blocks.now given values.now back.old → OnOk result (AreEqualEdges s.op.successors) }
    ensures cause { (s : Spot) (given : Given) → IsOpLinked ctx.now op s from blocks.now given values.now back.old → IfErr result (IsFuncCause ctx.now s.task.source) }
{
    if !is_block_op(ctx, op) {
        return Ok(());
    }
    link_edges(alloc, ctx, op, from, blocks, values, back)
}

/// Adds the entries of the edges of a block, in order.
fn add_block_edges(
    alloc: Global,
    ctx: &Context,
    block: BlockRef,
    ops: &mut Vec<OpRef>,
    blocks: &Blocks,
    values: &Values,
    back: &mut LLVMModule,
) -> Result<(), ToLLVMErr>
    requires within { block.0 < length ctx.now.blocks }
    requires next { (t : Task) × (j : ℕ) × (c : DialectBlock) × (given : Given) × IsBlockLinked ctx.now t j c block blocks.now given values.now back.old }
    ensures ok { (t : Task) (j : ℕ) (c : DialectBlock) (given : Given) → IsBlockLinked ctx.now t j c block blocks.now given values.now back.old → OnOk result (IsLinking t (λ v. given v ++ passed t.source t.numbers (t.numbers.block + j) (edges_of c) v) values.now back.new) }
    ensures accepted { (t : Task) (j : ℕ) (c : DialectBlock) (given : Given) → IsBlockLinked ctx.now t j c block blocks.now given values.now back.old → OnOk result (AreAcceptedEdges t.source c) }
    ensures cause { (t : Task) (j : ℕ) (c : DialectBlock) (given : Given) → IsBlockLinked ctx.now t j c block blocks.now given values.now back.old → IfErr result (IsFuncCause ctx.now t.source) }
{
    let from = target_of(blocks, block);
    read_ops(ctx, block, ops)?;
    for op in ops.as_slice() {
        add_op_edges(alloc, ctx, *op, from, blocks, values, back)?;
    }
    Ok(())
}

/// Adds the entries of all edges of a function, its blocks taken in the order of the export.
pub fn add_edges(
    alloc: Global,
    ctx: &Context,
    list: &[BlockRef],
    order: &[u32],
    ops: &mut Vec<OpRef>,
    blocks: &Blocks,
    values: &Values,
    back: &mut LLVMModule,
) -> Result<(), ToLLVMErr>
    requires within { All (λ b. b.0 < length ctx.now.blocks) list.now }
    requires begun { (t : Task) × AreBlocks ctx.now t list.now × (order.now ≡ t.numbers.order) × AreAllMapped t blocks.now × IsLinking t no_entries values.now back.old }
    ensures ok { (t : Task) → AreBlocks ctx.now t list.now → order.now ≡ t.numbers.order → AreAllMapped t blocks.now → IsLinking t no_entries values.now back.old → OnOk result (IsLinking t (entries t.source t.numbers) values.now back.new) }
    ensures accepted { (t : Task) → AreBlocks ctx.now t list.now → order.now ≡ t.numbers.order → AreAllMapped t blocks.now → IsLinking t no_entries values.now back.old → OnOk result ((j : ℕ) (c : DialectBlock) → slice_get t.source.blocks j ≡ Some c → AreAcceptedEdges t.source c) }
    ensures cause { (t : Task) → AreBlocks ctx.now t list.now → order.now ≡ t.numbers.order → AreAllMapped t blocks.now → IsLinking t no_entries values.now back.old → IfErr result (IsFuncCause ctx.now t.source) }
{
    for place in order {
        add_block_edges(alloc, ctx, list[*place as usize], ops, blocks, values, back)?;
    }
    Ok(())
}
