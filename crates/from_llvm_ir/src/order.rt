//! The order in which an import takes the blocks of a function: depth first in their graph.

ghost use Rattle.std.specs.Prelude.{◌≡◌, ◌∷◌, ◌++◌, [], IfOk, IsSome, OnOk, Some, length, map};
ghost use Rattle.llvm_core.specs.Data.{Block, Function, Placed, targets};
ghost use Rattle.llvm_core.specs.Form.{targets_of as targets_from};
ghost use Rattle.from_llvm_ir.specs.Graph.{ArePlacesOf, IsBlockIn, IsInstIn, noted_place};
ghost use Rattle.from_llvm_ir.specs.Match.{IsPlaces};
ghost use Rattle.from_llvm_ir.specs.Order.{IsInverse};
ghost use Rattle.from_llvm_ir.specs.Source.{IsSource};
ghost use Rattle.from_llvm_ir.specs.Walks.{graph_of, place_of_block};

use crate::parts::targets_of;
use block_order::succs::Succs;
use llvm_core::numbers::{LLVMBasicBlock, LLVMFunction, LLVMInstRef};
use renamed_source::source::Source;
use std::alloc::{AllocError, Global};
use support::number_map::NumberMap;
use support::short_list::ShortList;

/// A place as a number of 32 bits.
pub fn place_of(place: usize) -> Result<u32, AllocError>
    ensures { IfOk result (λ p. p ≡ place) }
{
    match u32::try_from(place) {
        Ok(number) => Ok(number),
        Err(_) => Err(AllocError),
    }
}

/// The place of each block of a function in the order of the text, by the number of the block.
pub type Places = NumberMap<u32>;

/// The place of a block in the order of the text.
pub fn text_place(places: &Places, block: LLVMBasicBlock) -> u32
    requires { IsSome (noted_place places.now block) }
    ensures { noted_place places.now block ≡ Some result }
{
    match places.get(block.0) {
        Some(place) => place,
        None => unreachable!(),
    }
}

/// The place of each block of a function.
pub fn text_places(
    alloc: Global,
    source: &Source<'_>,
    f: LLVMFunction,
) -> Result<Places, AllocError>
    requires { (g : Function) × IsSource source.now f g }
    ensures { IfOk result (λ places. (g : Function) → IsSource source.now f g → ArePlacesOf g places) }
{
    let blocks = source.blocks(f);
    let mut places = NumberMap::new(alloc);
    for i in 0..blocks.len() {
        places.set(blocks[i].0, place_of(i)?)?;
    }
    Ok(places)
}

/// Appends the places of the blocks that an instruction leads to.
fn push_targets(
    source: &Source<'_>,
    places: &Places,
    i: LLVMInstRef,
    row: &mut Vec<u32>,
) -> Result<(), AllocError>
    requires { (f : LLVMFunction) × (g : Function) × (n : LLVMBasicBlock) × (b : Block) × (p : Placed) × IsInstIn source.now f g n b i p × ArePlacesOf g places.now }
    ensures { OnOk result ((f : LLVMFunction) → (g : Function) → (n : LLVMBasicBlock) → (b : Block) → (p : Placed) → IsInstIn source.now f g n b i p → ArePlacesOf g places.now
        → row.new.items ≡ row.old.items ++ map (place_of_block g) (targets p.instruction)) }
{
    for target in targets_of(source.inst(i)) {
        let place = text_place(places, *target);
        row.push(place)?;
    }
    Ok(())
}

/// Appends the row of a block to a graph: the places of the blocks that it leads to, which are gathered in a lent list.
fn push_row(
    source: &Source<'_>,
    places: &Places,
    block: LLVMBasicBlock,
    row: &mut Vec<u32>,
    succs: &mut Succs,
) -> Result<(), AllocError>
    requires { (f : LLVMFunction) × (g : Function) × (b : Block) × IsBlockIn source.now f g block b × ArePlacesOf g places.now }
    ensures { OnOk result ((f : LLVMFunction) → (g : Function) → (b : Block) → IsBlockIn source.now f g block b → ArePlacesOf g places.now
        → succs.new ≡ succs.old ++ map (place_of_block g) (targets_from b) ∷ []) }
{
    row.clear();
    for i in source.instructions(block) {
        push_targets(source, places, *i, row)?;
    }
    succs.push(row.as_slice())
}

/// The graph of a function: for each block, in the order of the text, the places of those that it leads to.
pub fn graph(
    alloc: Global,
    source: &Source<'_>,
    f: LLVMFunction,
    places: &Places,
) -> Result<Succs, AllocError>
    requires { (g : Function) × IsSource source.now f g × ArePlacesOf g places.now }
    ensures { IfOk result (λ s. (g : Function) → IsSource source.now f g → ArePlacesOf g places.now → s ≡ graph_of g) }
{
    let mut succs = Succs::new(alloc);
    let mut row = Vec::new(alloc);
    for block in source.blocks(f) {
        push_row(source, places, *block, &mut row, &mut succs)?;
    }
    Ok(succs)
}

/// The place that an order gives each block.
fn turned(alloc: Global, order: &[u32]) -> Result<Vec<u32>, AllocError>
    requires { IsPlaces (length order.now) order.now }
    ensures places { IfOk result (λ p. IsPlaces (length order.now) p.items) }
    ensures inverse { IfOk result (λ p. IsInverse order.now p.items) }
{
    let mut places = vec![in alloc; 0u32; order.len()]?;
    for j in 0..order.len() {
        places[order[j] as usize] = place_of(j)?;
    }
    Ok(places)
}

/// The place that an order gives each block, kept short: it is handed out, and most functions have few blocks. The order of
/// one block is its own.
pub fn places_of(alloc: Global, order: &[u32]) -> Result<ShortList<u32>, AllocError>
    requires { IsPlaces (length order.now) order.now }
    ensures places { IfOk result (λ p. IsPlaces (length order.now) p) }
    ensures inverse { IfOk result (λ p. IsInverse order.now p) }
{
    if order.len() == 1 {
        return ShortList::from_slice(alloc, order);
    }
    let places = turned(alloc, order)?;
    ShortList::from_slice(alloc, places.as_slice())
}
