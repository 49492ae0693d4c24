//! The edges between blocks, counted once for the whole module, and the rules that rest on them.

ghost use Rattle.std.specs.Prelude.{◌≡◌, ◌<◌, ℕ, [], ◌∷◌, All, IfErr, IfOk, OnOk, Some, length, map, slice_get};
ghost use Rattle.llvm_core.specs.declared.check_err.Place.TheVariants as places;
ghost use Rattle.llvm_core.specs.declared.check_err.CheckErr.TheVariants as errors;
ghost use Rattle.llvm_core.specs.Edges.{targets, targets_from, tally, Gains, HasIncoming};
ghost use Rattle.llvm_core.specs.Checked.{Fails, MayAnswer, IsCheckedEdges};

use crate::check_err::{CheckErr, Place};
use crate::code::LLVMInst;
use crate::module::LLVMModule;
use crate::numbers::{LLVMBasicBlock, LLVMFunction, LLVMInstRef};
use crate::phis::{fits_edges, has_two_values};
use std::alloc::{AllocError, Global};
use support::short_list::ShortList;

/// An empty list for each block.
fn no_edges(alloc: Global, blocks: u32) -> Result<Vec<ShortList<u32>>, AllocError>
    ensures len { IfOk result (λ lists. length lists.items ≡ blocks) }
    ensures none { IfOk result (λ lists. (p b : ℕ) → tally lists.items p b ≡ 0) }
{
    let mut lists = Vec::with_capacity(alloc, blocks as usize)?;
    for _block in 0..blocks {
        lists.push(ShortList::zero())?;
    }
    Ok(lists)
}

/// Notes an edge in the list of its target.
fn push_edge(
    alloc: Global,
    lists: &mut [ShortList<u32>],
    from: u32,
    to: LLVMBasicBlock,
) -> Result<(), AllocError>
    requires { to.0 < length lists.old }
    ensures { OnOk result (Gains lists.old lists.new from (to.0 ∷ [])) }
{
    lists[to.0 as usize].push(alloc, from)?;
    Ok(())
}

/// Notes an edge to each of the targets.
fn push_all(
    alloc: Global,
    lists: &mut [ShortList<u32>],
    from: u32,
    targets: &[LLVMBasicBlock],
) -> Result<(), AllocError>
    requires { All (λ b. b.0 < length lists.old) targets.now }
    ensures { OnOk result (Gains lists.old lists.new from (map (λ b. b.0) targets.now)) }
{
    for target in targets {
        push_edge(alloc, lists, from, *target)?;
    }
    Ok(())
}

/// Notes the edges of an instruction of the block `from`.
fn push_targets(
    alloc: Global,
    lists: &mut [ShortList<u32>],
    from: u32,
    inst: &LLVMInst,
) -> Result<(), AllocError>
    requires { All (λ b. b < length lists.old) (targets inst.now) }
    ensures { OnOk result (Gains lists.old lists.new from (targets inst.now)) }
{
    match inst {
        LLVMInst::Phi(..) => Ok(()),
        LLVMInst::Row(row) => push_all(alloc, lists, from, row.targets.as_slice()),
    }
}

/// Notes the edges of a block.
fn push_block_edges(
    m: &LLVMModule,
    b: LLVMBasicBlock,
    lists: &mut [ShortList<u32>],
) -> Result<(), AllocError>
    requires block { b.0 < length m.now.blocks }
    requires lists { length lists.old ≡ length m.now.blocks }
    ensures { OnOk result (Gains lists.old lists.new b.0 (targets_from m.now b.0)) }
{
    for inst in m.instructions(b) {
        push_targets(m.allocator(), lists, b.0, m.inst(*inst))?;
    }
    Ok(())
}

/// Notes the edges of all blocks.
fn push_edges(m: &LLVMModule, lists: &mut [ShortList<u32>]) -> Result<(), AllocError>
    requires lists { length lists.old ≡ length m.now.blocks }
    requires none { (p b : ℕ) → tally lists.old p b ≡ 0 }
    ensures { OnOk result (HasIncoming m.now lists.new) }
{
    for b in 0..m.block_count() {
        push_block_edges(m, LLVMBasicBlock(b), lists)?;
    }
    Ok(())
}

/// For each block the numbers of the blocks that lead to it, once for each edge.
fn incoming(m: &LLVMModule) -> Result<Vec<ShortList<u32>>, AllocError>
    ensures { IfOk result (λ lists. HasIncoming m.now lists.items) }
{
    let mut lists = no_edges(m.allocator(), m.block_count())?;
    push_edges(m, lists.as_mut_slice())?;
    Ok(lists)
}

/// A phi has an entry for each edge, and one value for each block.
fn check_phi(m: &LLVMModule, i: LLVMInstRef, lists: &[ShortList<u32>]) -> Result<(), CheckErr>
    requires inst { i.0 < length m.now.insts }
    requires edges { HasIncoming m.now lists.now }
    ensures ok { OnOk result (¬ Fails m.now (errors.PhiEntries (places.Inst i.0))) }
    ensures err { IfErr result (λ e. MayAnswer m.now e) }
{
    let entries = match m.inst(i) {
        LLVMInst::Phi(_, entries) => entries.as_slice(),
        _ => return Ok(()),
    };
    let from = lists[m.inst_block(i).0 as usize].as_slice();
    if from.is_empty()
        || has_two_values(m.allocator(), entries)?
        || !fits_edges(m.allocator(), from, entries)?
    {
        return Err(CheckErr::PhiEntries(Place::Inst(i.0)));
    }
    Ok(())
}

fn check_phis(m: &LLVMModule, lists: &[ShortList<u32>]) -> Result<(), CheckErr>
    requires { HasIncoming m.now lists.now }
    ensures ok { OnOk result ((i : ℕ) → i < length m.now.insts → ¬ Fails m.now (errors.PhiEntries (places.Inst i))) }
    ensures err { IfErr result (λ e. MayAnswer m.now e) }
{
    for i in 0..m.inst_count() {
        check_phi(m, LLVMInstRef(i), lists)?;
    }
    Ok(())
}

/// No edge goes to the first block of a function.
fn check_first(m: &LLVMModule, f: LLVMFunction, lists: &[ShortList<u32>]) -> Result<(), CheckErr>
    requires function { f.0 < length m.now.functions }
    requires edges { HasIncoming m.now lists.now }
    ensures ok { OnOk result (¬ Fails m.now (errors.EntryHasPreds (places.Function f.0))) }
    ensures err { IfErr result (λ e. Fails m.now e) }
{
    let blocks = m.blocks(f);
    if !blocks.is_empty() && !lists[blocks[0].0 as usize].as_slice().is_empty() {
        return Err(CheckErr::EntryHasPreds(Place::Function(f.0)));
    }
    Ok(())
}

fn check_firsts(m: &LLVMModule, lists: &[ShortList<u32>]) -> Result<(), CheckErr>
    requires { HasIncoming m.now lists.now }
    ensures ok { OnOk result ((f : ℕ) → f < length m.now.functions → ¬ Fails m.now (errors.EntryHasPreds (places.Function f))) }
    ensures err { IfErr result (λ e. Fails m.now e) }
{
    for f in 0..m.functions() {
        check_first(m, LLVMFunction(f), lists)?;
    }
    Ok(())
}

/// The rules that rest on edges, given the lists of them.
fn check_listed(m: &LLVMModule, lists: &[ShortList<u32>]) -> Result<(), CheckErr>
    requires { HasIncoming m.now lists.now }
    ensures ok { OnOk result (IsCheckedEdges m.now) }
    ensures err { IfErr result (λ e. MayAnswer m.now e) }
{
    check_phis(m, lists)?;
    check_firsts(m, lists)
}

/// The rules that rest on edges.
pub fn check_edges(m: &LLVMModule) -> Result<(), CheckErr>
    ensures ok { OnOk result (IsCheckedEdges m.now) }
    ensures err { IfErr result (λ e. MayAnswer m.now e) }
{
    let lists = incoming(m)?;
    check_listed(m, lists.as_slice())
}
