//! The order in which an export takes the blocks of a function.

ghost use Rattle.std.specs.Prelude.{◌≡◌, ◌<◌, ◌++◌, ◌∷◌, [], List, true, false, IfOk, MatchBool, OnOk, Some, All, length, map, if◌then◌else◌};
ghost use Rattle.std.specs.List.{range_with_len};
ghost use Rattle.dialect_types.specs.Trees.{type_trees};
ghost use Rattle.dialect_core.specs.Data.{DialectBlock, DialectOp, Func, op_at, block_in};
ghost use Rattle.dialect_core.specs.Form.{IsInOrder, uses_of};
ghost use Rattle.meaning.specs.Dialect.{same_value};
ghost use Rattle.to_llvm_ir.specs.Order.{IsTaken};
ghost use Rattle.to_llvm_ir.specs.Exported.{arguments_of, result as value_of};
ghost use Rattle.to_llvm_ir.specs.States.{all_values};
ghost use Rattle.to_llvm_ir.specs.Ordering.{AreBlocksOf, AreSeen, HasUsesAmong, is_seen, ops_of};

use crate::graph::graph;
use crate::listing::read_ops;
use crate::numbers::place_of;
use crate::operations::is_block_op;
use crate::run_map::RunMap;
use block_order::ordering::rpo;
use dialect_core::context::Context;
use dialect_core::numbers::{BlockRef, OpRef};
use dialect_core::ops::Value;
use std::alloc::{AllocError, Global};

/// Values that stand before.
#[derive(Drop)]
pub struct Seen {
    pub values: RunMap<()>,
}

impl Seen {
    /// No values.
    fn new(alloc: Global) -> Seen
        ensures { (v : _) → is_seen result v ≡ false }
    {
        Seen {
            values: RunMap::new(alloc),
        }
    }

    /// Whether a value is noted.
    #[inline(always)]
    fn has(&self, value: Value) -> bool
        ensures { result ≡ is_seen self.now value }
    {
        self.values.get(value).is_some()
    }

    /// Notes a value.
    #[inline(always)]
    fn note(&mut self, value: Value) -> Result<(), AllocError>
        ensures { OnOk result ((q : _) → is_seen self.new q ≡ (if same_value value q then true else is_seen self.old q)) }
    {
        self.values.set(value, ())
    }
}

/// Whether all of some values are noted.
#[inline(always)]
fn are_seen(values: &[Value], seen: &Seen) -> bool
    ensures { MatchBool result (All (λ v. is_seen seen.now v ≡ true) values.now) (¬ All (λ v. is_seen seen.now v ≡ true) values.now) }
{
    for value in values {
        if !seen.has(*value) {
            return false;
        }
    }
    true
}

/// Whether all that an operation uses is noted: its operands, and what its edges pass.
fn uses_seen(ctx: &Context, op: OpRef, seen: &Seen) -> bool
    requires { op.0 < length ctx.now.ops }
    ensures { (o : DialectOp) → op_at (type_trees ctx.now.types) ctx.now.ops op ≡ Some o → MatchBool result (All (λ v. is_seen seen.now v ≡ true) (uses_of o)) (¬ All (λ v. is_seen seen.now v ≡ true) (uses_of o)) }
{
    if !are_seen(ctx.op_operands(op), seen) {
        return false;
    }
    for edge in ctx.op_successors(op) {
        if !are_seen(edge.args.as_slice(), seen) {
            return false;
        }
    }
    true
}

/// Whether an operation uses only what is noted. Notes its result.
fn is_op_in_order(ctx: &Context, op: OpRef, seen: &mut Seen) -> Result<bool, AllocError>
    requires { op.0 < length ctx.now.ops }
    ensures { (vs : List Value) → AreSeen seen.old vs → IfOk result (λ yes. MatchBool yes (HasUsesAmong vs (ops_of ctx.now (op ∷ [])) × AreSeen seen.new (vs ++ map value_of (ops_of ctx.now (op ∷ [])))) (¬ HasUsesAmong vs (ops_of ctx.now (op ∷ [])))) }
{
    if !is_block_op(ctx, op) {
        return Ok(true);
    }
    if !uses_seen(ctx, op, seen) {
        return Ok(false);
    }
    seen.note(Value::Result(op))?;
    Ok(true)
}

/// Whether each of the operations of a block uses only what stands before it. Notes their results.
fn are_ops_in_order(ctx: &Context, ops: &[OpRef], seen: &mut Seen) -> Result<bool, AllocError>
    requires { All (λ o. o.0 < length ctx.now.ops) ops.now }
    ensures { (vs : List Value) → AreSeen seen.old vs → IfOk result (λ yes. MatchBool yes (HasUsesAmong vs (ops_of ctx.now ops.now) × AreSeen seen.new (vs ++ map value_of (ops_of ctx.now ops.now))) (¬ HasUsesAmong vs (ops_of ctx.now ops.now))) }
{
    for op in ops {
        if !is_op_in_order(ctx, *op, seen)? {
            return Ok(false);
        }
    }
    Ok(true)
}

/// Notes the arguments of a block.
fn note_arguments(ctx: &Context, block: BlockRef, seen: &mut Seen) -> Result<(), AllocError>
    requires within { block.0 < length ctx.now.blocks }
    ensures { (c : DialectBlock) (vs : List Value) → block_in (type_trees ctx.now.types) ctx.now block ≡ Some c → AreSeen seen.old vs → OnOk result (AreSeen seen.new (vs ++ arguments_of c)) }
{
    for i in 0..ctx.block_args(block).len() {
        seen.note(Value::Argument(block, place_of(i)?))?;
    }
    Ok(())
}

/// Whether each operation of a block uses only what stands before it. Notes the values of the block.
fn is_block_in_order(
    ctx: &Context,
    block: BlockRef,
    ops: &mut Vec<OpRef>,
    seen: &mut Seen,
) -> Result<bool, AllocError>
    requires within { block.0 < length ctx.now.blocks }
    ensures { (c : DialectBlock) (vs : List Value) → block_in (type_trees ctx.now.types) ctx.now block ≡ Some c → AreSeen seen.old vs
        → IfOk result (λ yes. MatchBool yes (HasUsesAmong (vs ++ arguments_of c) c.ops × AreSeen seen.new (vs ++ all_values c)) (¬ HasUsesAmong (vs ++ arguments_of c) c.ops)) }
{
    note_arguments(ctx, block, seen)?;
    read_ops(ctx, block, ops)?;
    are_ops_in_order(ctx, ops.as_slice(), seen)
}

/// Whether each value of a function stands before its uses, the blocks taken in order.
pub fn is_in_order(
    alloc: Global,
    ctx: &Context,
    list: &[BlockRef],
    ops: &mut Vec<OpRef>,
) -> Result<bool, AllocError>
    requires within { All (λ b. b.0 < length ctx.now.blocks) list.now }
    ensures { (g : Func) → AreBlocksOf ctx.now g list.now → IfOk result (λ yes. MatchBool yes (IsInOrder g) (¬ IsInOrder g)) }
{
    let mut seen = Seen::new(alloc);
    for block in list {
        if !is_block_in_order(ctx, *block, ops, &mut seen)? {
            return Ok(false);
        }
    }
    Ok(true)
}

/// The numbers below another, in order.
pub fn counted(alloc: Global, count: usize) -> Result<Vec<u32>, AllocError>
    ensures { IfOk result (λ order. order.items ≡ range_with_len 0 count) }
{
    let mut order = Vec::new(alloc);
    for i in 0..count {
        order.push(place_of(i)?)?;
    }
    Ok(order)
}

/// The order in which an export takes the blocks of a function: that of the dialect where each value stands before
/// its uses in it, else depth first.
pub fn export_order(
    alloc: Global,
    ctx: &Context,
    list: &[BlockRef],
    ops: &mut Vec<OpRef>,
) -> Result<Vec<u32>, AllocError>
    requires within { All (λ b. b.0 < length ctx.now.blocks) list.now }
    requires blocks { (g : Func) × AreBlocksOf ctx.now g list.now }
    ensures { IfOk result (λ order. (g : Func) → AreBlocksOf ctx.now g list.now → IsTaken g order.items) }
{
    if is_in_order(alloc, ctx, list, ops)? {
        return counted(alloc, list.len());
    }
    let succs = graph(alloc, ctx, list, ops)?;
    rpo(alloc, &succs)
}
