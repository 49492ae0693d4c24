//! Tests of values and edges: which type a value has, and whether an edge fits its target.

ghost use Rattle.std.specs.Prelude.{◌≡◌, ◌<◌, ◌↔◌, IsTrue, All, IfSome, Some, None, length, map, slice_get};
ghost use Rattle.std.specs.Option.{option_map, option_and_then};
ghost use Rattle.dialect_types.specs.Trees.{type_trees};
ghost use Rattle.dialect_core.specs.ContextData.{IsValueWithin, IsSuccessorWithin};
ghost use Rattle.dialect_core.specs.Data.{DialectBlock, DialectOp, IsTyped, op_at, block_in, type_in};
ghost use Rattle.dialect_core.specs.WellFormed.{AreEdges, IsEdge, IsFirst, IsPastFirsts};
ghost use Rattle.dialect_core.specs.Checking.{Passes, PassesEach, func_at, tree_at};

use crate::context::Context;
use crate::numbers::{BlockRef, OpRef};
use crate::ops::{OpKind, Successor, Value};
use crate::type_tests::same_type;
use dialect_types::types::TypeHandle;

/// The type of the result of an operation; a module and a function have none.
fn result_of(ctx: &Context, op: OpRef) -> Option<TypeHandle>
    requires op { op.0 < length ctx.now.ops }
    requires typed { IsTyped ctx.now }
    ensures value { option_map (tree_at ctx.now) result ≡ option_and_then (λ (o : DialectOp). o.result) (op_at (type_trees ctx.now.types) ctx.now.ops op) }
    ensures within { IfSome result (λ t. t.0 < length ctx.now.types) }
{
    match ctx.op_kind(op) {
        OpKind::Module | OpKind::Func => None,
        OpKind::Constant(_) | OpKind::Filled(_) | OpKind::Row(_) => ctx.result_type(op),
    }
}

/// The type of the argument of a block at a place.
fn argument_of(ctx: &Context, block: BlockRef, place: u32) -> Option<TypeHandle>
    requires block { block.0 < length ctx.now.blocks }
    requires typed { IsTyped ctx.now }
    ensures value { option_map (tree_at ctx.now) result ≡ option_and_then (λ (x : DialectBlock). slice_get x.args place) (block_in (type_trees ctx.now.types) ctx.now block) }
    ensures within { IfSome result (λ t. t.0 < length ctx.now.types) }
{
    ctx.block_args(block).get(place as usize).copied()
}

/// The type of a value of the context, None where there is no such value.
pub fn type_of(ctx: &Context, value: Value) -> Option<TypeHandle>
    requires value { IsValueWithin (length ctx.now.ops) (length ctx.now.blocks) value }
    requires typed { IsTyped ctx.now }
    ensures value { option_map (tree_at ctx.now) result ≡ type_in ctx.now value }
    ensures within { IfSome result (λ t. t.0 < length ctx.now.types) }
{
    match value {
        Value::Result(op) => result_of(ctx, op),
        Value::Argument(block, place) => argument_of(ctx, block, place),
    }
}

/// Whether a value has the type.
pub fn has_type(ctx: &Context, value: Value, ty: TypeHandle) -> bool
    requires value { IsValueWithin (length ctx.now.ops) (length ctx.now.blocks) value }
    requires ty { ty.0 < length ctx.now.types }
    requires typed { IsTyped ctx.now }
    ensures { IsTrue result ↔ type_in ctx.now value ≡ Some (tree_at ctx.now ty) }
{
    match type_of(ctx, value) {
        Some(own) => same_type(ctx.types(), own, ty),
        None => false,
    }
}

/// Whether there is such a value, and it has the type that is wanted, if one is.
fn passes(ctx: &Context, value: Value, wanted: Option<TypeHandle>) -> bool
    requires value { IsValueWithin (length ctx.now.ops) (length ctx.now.blocks) value }
    requires wanted { IfSome wanted (λ t. t.0 < length ctx.now.types) }
    requires typed { IsTyped ctx.now }
    ensures { IsTrue result ↔ Passes (type_in ctx.now) (option_map (tree_at ctx.now) wanted) value }
{
    match wanted {
        Some(ty) => has_type(ctx, value, ty),
        None => type_of(ctx, value).is_some(),
    }
}

/// Whether values have the types that are wanted at their places.
fn pass_each(ctx: &Context, values: &[Value], wanted: &[TypeHandle]) -> bool
    requires values { All (IsValueWithin (length ctx.now.ops) (length ctx.now.blocks)) values.now }
    requires wanted { All (λ t. t.0 < length ctx.now.types) wanted.now }
    requires typed { IsTyped ctx.now }
    ensures { IsTrue result ↔ PassesEach (type_in ctx.now) (map (tree_at ctx.now) wanted.now) values.now }
{
    for (place, value) in values.iter().enumerate() {
        if !passes(ctx, *value, wanted.get(place).copied()) {
            return false;
        }
    }
    true
}

/// Whether a block is not the first of the function.
fn is_past_entry(ctx: &Context, func: OpRef, block: BlockRef) -> bool
    requires func { func.0 < length ctx.now.ops }
    ensures { IsTrue result ↔ ((b : DialectBlock) → slice_get (func_at ctx.now func).blocks 0 ≡ Some b → ¬ (block.0 ≡ b.number)) }
{
    match ctx.region(func).first() {
        Some(entry) => entry.0 != block.0,
        None => true,
    }
}

/// Whether an edge of the function fits its target.
fn edge_fits(ctx: &Context, func: OpRef, edge: &Successor) -> bool
    requires func { func.0 < length ctx.now.ops }
    requires edge { IsSuccessorWithin (length ctx.now.ops) (length ctx.now.blocks) edge.now }
    requires typed { IsTyped ctx.now }
    ensures { IsTrue result ↔ IsEdge (type_in ctx.now) (func_at ctx.now func) edge.now }
{
    let wanted = ctx.block_args(edge.block);
    is_past_entry(ctx, func, edge.block) && pass_each(ctx, edge.args.as_slice(), wanted)
}

/// Whether each edge of the function fits its target.
fn all_edges_fit(ctx: &Context, func: OpRef, edges: &[Successor]) -> bool
    requires func { func.0 < length ctx.now.ops }
    requires edges { All (IsSuccessorWithin (length ctx.now.ops) (length ctx.now.blocks)) edges.now }
    requires typed { IsTyped ctx.now }
    ensures { IsTrue result ↔ All (IsEdge (type_in ctx.now) (func_at ctx.now func)) edges.now }
{
    for edge in edges {
        if !edge_fits(ctx, func, edge) {
            return false;
        }
    }
    true
}

/// Whether these are as many edges, and each fits its target.
pub fn edges_fit(ctx: &Context, func: OpRef, edges: &[Successor], count: usize) -> bool
    requires func { func.0 < length ctx.now.ops }
    requires edges { All (IsSuccessorWithin (length ctx.now.ops) (length ctx.now.blocks)) edges.now }
    requires typed { IsTyped ctx.now }
    ensures { IsTrue result ↔ AreEdges (type_in ctx.now) (func_at ctx.now func) count edges.now }
{
    edges.len() == count && all_edges_fit(ctx, func, edges)
}

/// Whether none of these edges goes to the first block of a region.
fn are_past_firsts(ctx: &Context, edges: &[Successor]) -> bool
    requires { All (IsSuccessorWithin (length ctx.now.ops) (length ctx.now.blocks)) edges.now }
    ensures { IsTrue result ↔ All (λ s. ¬ IsFirst ctx.now s.block) edges.now }
{
    for edge in edges {
        if ctx.is_first_block(edge.block) {
            return false;
        }
    }
    true
}

/// Whether no edge of an operation goes to the first block of a region.
pub fn is_past_firsts(ctx: &Context, op: OpRef) -> bool
    requires { op.0 < length ctx.now.ops }
    ensures { IsTrue result ↔ IsPastFirsts ctx.now op }
{
    are_past_firsts(ctx, ctx.op_successors(op))
}
