//! Which block of the dialect stands for each of a source function, and the edges that lead there.

ghost use Rattle.std.specs.Prelude.{◌≡◌, ℕ, IfErr, IfOk, IsSome, Some, map, slice_get};
ghost use Rattle.std.specs.List.{flat_map};
ghost use Rattle.llvm_core.specs.Data.{Function};
ghost use Rattle.meaning.specs.Pairs.{Matched};
ghost use Rattle.from_llvm_ir.specs.Imported.{passed};
ghost use Rattle.from_llvm_ir.specs.Parts.{target_blocks};
ghost use Rattle.from_llvm_ir.specs.Values.{IsForward, target_at};
ghost use Rattle.from_llvm_ir.specs.Edges.{IsKnownEdge, IsReady};

use crate::entries::{Entries, edge_values};
use crate::parts::targets_of;
use crate::values::{Values, known_values};
use dialect_core::numbers::BlockRef;
use dialect_core::ops::Successor;
use from_consts::conversion_err::ConversionErr;
use llvm_core::code::LLVMInst;
use llvm_core::numbers::{LLVMBasicBlock, LLVMFunction};
use renamed_source::source::Source;
use std::alloc::Global;
use support::number_map::NumberMap;

/// The blocks of the dialect that stand for those of a source function, by the number of the block.
pub type Targets = NumberMap<BlockRef>;

/// The block of the dialect that stands for one of the source.
pub fn target_of(targets: &Targets, block: LLVMBasicBlock) -> BlockRef
    requires { IsSome (target_at targets.now block) }
    ensures { target_at targets.now block ≡ Some result }
{
    match targets.get(block.0) {
        Some(target) => target,
        None => unreachable!(),
    }
}

/// The edge of the dialect for one of the source.
fn known_edge(
    alloc: Global,
    source: &Source<'_>,
    values: &Values,
    targets: &Targets,
    entries: &Entries,
    from: LLVMBasicBlock,
    to: LLVMBasicBlock,
) -> Result<Successor, ConversionErr>
    requires { (f : LLVMFunction) × (g : Function) × IsReady source.now f g values.now targets.now entries.now from to }
    ensures ok { IfOk result (λ s. (f : LLVMFunction) → (g : Function) → IsReady source.now f g values.now targets.now entries.now from to → IsKnownEdge source.now g values.now targets.now from to s) }
    ensures err { IfErr result (λ e. (f : LLVMFunction) → (g : Function) → IsReady source.now f g values.now targets.now entries.now from to → IsForward source.now values.now (passed g from.0 to.0) e) }
{
    let taken = edge_values(alloc, source, entries, from, to)?;
    let args = known_values(alloc, source, values, taken.as_slice())?;
    let block = target_of(targets, to);
    Ok(Successor { block, args })
}

/// The edges of the dialect for those of the source, from a block to others.
fn known_edges(
    alloc: Global,
    source: &Source<'_>,
    values: &Values,
    targets: &Targets,
    entries: &Entries,
    from: LLVMBasicBlock,
    to: &[LLVMBasicBlock],
) -> Result<Vec<Successor>, ConversionErr>
    requires { (f : LLVMFunction) × (g : Function) × ((j : ℕ) → (t : LLVMBasicBlock) → slice_get to.now j ≡ Some t → IsReady source.now f g values.now targets.now entries.now from t) }
    ensures ok { IfOk result (λ ss. (f : LLVMFunction) → (g : Function) → ((j : ℕ) → (t : LLVMBasicBlock) → slice_get to.now j ≡ Some t → IsReady source.now f g values.now targets.now entries.now from t) → Matched (IsKnownEdge source.now g values.now targets.now from) to.now ss.items) }
    ensures err { IfErr result (λ e. (f : LLVMFunction) → (g : Function) → ((j : ℕ) → (t : LLVMBasicBlock) → slice_get to.now j ≡ Some t → IsReady source.now f g values.now targets.now entries.now from t) → IsForward source.now values.now (flat_map (passed g from.0) (map (λ t. t.0) to.now)) e) }
{
    let mut edges = Vec::with_capacity(alloc, to.len())?;
    for target in to {
        edges.push(known_edge(alloc, source, values, targets, entries, from, *target)?)?;
    }
    Ok(edges)
}

/// The edges of the dialect for those of an instruction of a block, in order.
pub fn known_successors(
    alloc: Global,
    source: &Source<'_>,
    values: &Values,
    targets: &Targets,
    entries: &Entries,
    from: LLVMBasicBlock,
    inst: &LLVMInst,
) -> Result<Vec<Successor>, ConversionErr>
    requires { (f : LLVMFunction) × (g : Function) × ((j : ℕ) → (t : LLVMBasicBlock) → slice_get (target_blocks inst.now) j ≡ Some t → IsReady source.now f g values.now targets.now entries.now from t) }
    ensures ok { IfOk result (λ ss. (f : LLVMFunction) → (g : Function) → ((j : ℕ) → (t : LLVMBasicBlock) → slice_get (target_blocks inst.now) j ≡ Some t → IsReady source.now f g values.now targets.now entries.now from t) → Matched (IsKnownEdge source.now g values.now targets.now from) (target_blocks inst.now) ss.items) }
    ensures err { IfErr result (λ e. (f : LLVMFunction) → (g : Function) → ((j : ℕ) → (t : LLVMBasicBlock) → slice_get (target_blocks inst.now) j ≡ Some t → IsReady source.now f g values.now targets.now entries.now from t) → IsForward source.now values.now (flat_map (passed g from.0) (map (λ t. t.0) (target_blocks inst.now))) e) }
{
    known_edges(
        alloc,
        source,
        values,
        targets,
        entries,
        from,
        targets_of(inst),
    )
}
