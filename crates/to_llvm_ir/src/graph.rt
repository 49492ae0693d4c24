//! The graph of a function: where the edges of its blocks lead.

ghost use Rattle.std.specs.Prelude.{◌≡◌, ◌<◌, ◌++◌, ◌∷◌, [], nat_eq, IfOk, OnOk, None, Some, All, length, if◌then◌else◌};
ghost use Rattle.std.specs.List.{cons_option, filter_map, flat_map};
ghost use Rattle.dialect_types.specs.Trees.{type_trees};
ghost use Rattle.dialect_core.specs.Data.{DialectBlock, Func, block_in};
ghost use Rattle.to_llvm_ir.specs.Order.{block_place, graph_of, targets_of};
ghost use Rattle.to_llvm_ir.specs.Ordering.{AreBlocksOf, ArePlacesOf, noted_place, ops_of};

use crate::listing::read_ops;
use crate::numbers::place_of;
use crate::operations::is_block_op;
use block_order::succs::Succs;
use dialect_core::context::Context;
use dialect_core::numbers::{BlockRef, OpRef};
use std::alloc::{AllocError, Global};
use support::number_map::NumberMap;

/// The place of each block of a function.
#[derive(Drop)]
pub struct Places {
    pub map: NumberMap<u32>,
}

impl Places {
    /// No places.
    fn new(alloc: Global) -> Places
        ensures { (b : _) → noted_place result b ≡ None }
    {
        Places {
            map: NumberMap::new(alloc),
        }
    }

    /// The place of a block, where it has one.
    #[inline(always)]
    fn get(&self, block: BlockRef) -> Option<u32>
        ensures { result ≡ noted_place self.now block }
    {
        self.map.get(block.0)
    }

    /// Notes the place of a block.
    #[inline(always)]
    fn set(&mut self, block: BlockRef, place: u32) -> Result<(), AllocError>
        ensures { OnOk result ((q : _) → noted_place self.new q ≡ (if nat_eq block.0 q.0 then Some place else noted_place self.old q)) }
    {
        self.map.set(block.0, place)
    }
}

/// The place of each block of a function.
fn places_of(alloc: Global, list: &[BlockRef]) -> Result<Places, AllocError>
    ensures { IfOk result (λ places. (c : _) (g : Func) → AreBlocksOf c g list.now → ArePlacesOf g places) }
{
    let mut places = Places::new(alloc);
    for (i, block) in list.iter().enumerate() {
        places.set(*block, place_of(i)?)?;
    }
    Ok(places)
}

/// Appends a place, where there is one.
fn push_place(place: Option<u32>, row: &mut Vec<u32>) -> Result<(), AllocError>
    ensures { OnOk result (row.new.items ≡ row.old.items ++ cons_option place []) }
{
    if let Some(place) = place {
        row.push(place)?;
    }
    Ok(())
}

/// Appends the places of the blocks that an operation leads to.
fn push_targets(
    ctx: &Context,
    op: OpRef,
    places: &Places,
    row: &mut Vec<u32>,
) -> Result<(), AllocError>
    requires { op.0 < length ctx.now.ops }
    ensures { OnOk result ((g : Func) → ArePlacesOf g places.now → row.new.items ≡ row.old.items ++ filter_map (λ s. block_place g s.block.0) (flat_map (λ o. o.successors) (ops_of ctx.now (op ∷ [])))) }
{
    if !is_block_op(ctx, op) {
        return Ok(());
    }
    for edge in ctx.op_successors(op) {
        push_place(places.get(edge.block), row)?;
    }
    Ok(())
}

/// The places of the blocks that a block leads to.
fn row_of(
    alloc: Global,
    ctx: &Context,
    block: BlockRef,
    places: &Places,
    ops: &mut Vec<OpRef>,
) -> Result<Vec<u32>, AllocError>
    requires { block.0 < length ctx.now.blocks }
    ensures { IfOk result (λ row. (g : Func) (c : DialectBlock) → ArePlacesOf g places.now → block_in (type_trees ctx.now.types) ctx.now block ≡ Some c → row.items ≡ targets_of g c) }
{
    let mut row = Vec::new(alloc);
    read_ops(ctx, block, ops)?;
    for op in ops.as_slice() {
        push_targets(ctx, *op, places, &mut row)?;
    }
    Ok(row)
}

/// The graph of a function: for each block, in order, the places of those that it leads to.
pub fn graph(
    alloc: Global,
    ctx: &Context,
    list: &[BlockRef],
    ops: &mut Vec<OpRef>,
) -> Result<Succs, AllocError>
    requires { All (λ b. b.0 < length ctx.now.blocks) list.now }
    ensures { IfOk result (λ s. (g : Func) → AreBlocksOf ctx.now g list.now → s ≡ graph_of g) }
{
    let places = places_of(alloc, list)?;
    let mut succs = Succs::new(alloc);
    for block in list {
        let row = row_of(alloc, ctx, *block, &places, ops)?;
        succs.push(row.as_slice())?;
    }
    Ok(succs)
}
