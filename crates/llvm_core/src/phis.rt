//! What is asked of the phis of a block and of a phi's entries.

ghost use Rattle.std.specs.Prelude.{◌≡◌, ◌<◌, ℕ, All, IfOk, IsTrue, None, false, length};
ghost use Rattle.llvm_core.specs.Parts.{is_phi};
ghost use Rattle.llvm_core.specs.Edges.{count_of};
ghost use Rattle.llvm_core.specs.Checked.{HasLatePhi, HasRival, HasTwoValues, sources};
ghost use Rattle.std.specs.List.Sorted.{IsPermutation, IsSorted};
ghost use Rattle.std.specs.Ordering.{nat_cmp};
ghost use Rattle.support.specs.NumberMaps.{value_at};

use crate::code::{LLVMInst, LLVMValue, PhiEntry};
use crate::module::LLVMModule;
use crate::numbers::LLVMInstRef;
use std::alloc::{AllocError, Global};
use support::number_map::NumberMap;

fn is_phi(inst: &LLVMInst) -> bool
    ensures { result ≡ is_phi inst.now }
{
    matches!(inst, LLVMInst::Phi(..))
}

/// Whether a phi stands behind what is no phi.
pub fn has_late_phi(m: &LLVMModule, insts: &[LLVMInstRef]) -> bool
    requires { All (λ i. i.0 < length m.now.insts) insts.now }
    ensures yes { IsTrue result → HasLatePhi m.now insts.now }
    ensures no { result ≡ false → ¬ HasLatePhi m.now insts.now }
{
    let mut behind = false;
    for inst in insts {
        if !is_phi(m.inst(*inst)) {
            behind = true;
        } else if behind {
            return true;
        }
    }
    false
}

/// Whether two entries for one block have two values. Until then each block's value is noted, where none was noted before.
fn finds_two_values(
    entries: &[PhiEntry],
    values: &mut NumberMap<LLVMValue>,
) -> Result<bool, AllocError>
    requires { (b : ℕ) → value_at values.old b ≡ None }
    ensures yes { IfOk result (λ two. IsTrue two → HasTwoValues entries.now) }
    ensures no { IfOk result (λ two. two ≡ false → ¬ HasTwoValues entries.now) }
{
    for entry in entries {
        if let Some(value) = values.get(entry.block.0) {
            if value != entry.value {
                return Ok(true);
            }
        }
        values.set(entry.block.0, entry.value)?;
    }
    Ok(false)
}

/// So many entries are compared each with each, without a map.
const FEW: usize = 8;

/// Whether one of the entries is for the block of `entry`, with another value.
fn has_rival(entry: PhiEntry, entries: &[PhiEntry]) -> bool
    ensures yes { IsTrue result → HasRival entry entries.now }
    ensures no { result ≡ false → ¬ HasRival entry entries.now }
{
    for other in entries {
        if other.block == entry.block && other.value != entry.value {
            return true;
        }
    }
    false
}

/// Whether two of a few entries for one block have two values.
fn have_rivals(entries: &[PhiEntry]) -> bool
    ensures yes { IsTrue result → HasTwoValues entries.now }
    ensures no { result ≡ false → ¬ HasTwoValues entries.now }
{
    for entry in entries {
        if has_rival(*entry, entries) {
            return true;
        }
    }
    false
}

/// Whether two entries for one block have two values.
pub fn has_two_values(alloc: Global, entries: &[PhiEntry]) -> Result<bool, AllocError>
    ensures yes { IfOk result (λ two. IsTrue two → HasTwoValues entries.now) }
    ensures no { IfOk result (λ two. two ≡ false → ¬ HasTwoValues entries.now) }
{
    if entries.len() <= FEW {
        Ok(have_rivals(entries))
    } else {
        finds_two_values(entries, &mut NumberMap::new(alloc))
    }
}

/// The numbers of the blocks that entries are for, in ascending order.
fn sorted_sources(alloc: Global, entries: &[PhiEntry]) -> Result<Vec<u32>, AllocError>
    ensures sorted { IfOk result (λ from. IsSorted nat_cmp from.items) }
    ensures same { IfOk result (λ from. IsPermutation (sources entries.now) from.items) }
{
    let mut from = Vec::new(alloc);
    for entry in entries {
        from.push(entry.block.0)?;
    }
    from.sort()?;
    Ok(from)
}

/// Whether the entries are for just these blocks in this order, as they mostly are.
fn are_for(entries: &[PhiEntry], from: &[u32]) -> bool
    ensures { IsTrue result → sources entries.now ≡ from.now }
{
    if entries.len() != from.len() {
        return false;
    }
    for place in 0..entries.len() {
        if entries[place].block.0 != from[place] {
            return false;
        }
    }
    true
}

/// Whether each block stands among the entries as often as in `from`, by sorted lists.
fn fits_sorted(alloc: Global, from: &[u32], entries: &[PhiEntry]) -> Result<bool, AllocError>
    ensures yes { IfOk result (λ fits. IsTrue fits → (p : ℕ) → count_of p (sources entries.now) ≡ count_of p from.now) }
    ensures no { IfOk result (λ fits. fits ≡ false → ¬ ((p : ℕ) → count_of p (sources entries.now) ≡ count_of p from.now)) }
{
    let mut from = Vec::from_slice(alloc, from)?;
    from.sort()?;
    Ok(sorted_sources(alloc, entries)? == from)
}

/// Whether each block stands among the entries as often as in `from`.
pub fn fits_edges(alloc: Global, from: &[u32], entries: &[PhiEntry]) -> Result<bool, AllocError>
    ensures yes { IfOk result (λ fits. IsTrue fits → (p : ℕ) → count_of p (sources entries.now) ≡ count_of p from.now) }
    ensures no { IfOk result (λ fits. fits ≡ false → ¬ ((p : ℕ) → count_of p (sources entries.now) ≡ count_of p from.now)) }
{
    if are_for(entries, from) {
        Ok(true)
    } else {
        fits_sorted(alloc, from, entries)
    }
}
