//! What phis take for the block that an edge comes from: found in the phi where it has few entries, and else in a map by
//! the phi and the block.

ghost use Rattle.std.specs.Prelude.{◌≡◌, ◌<◌, ◌&&◌, ℕ, false, nat_eq, IfOk, OnOk, IsSome, None, Some, All, if◌then◌else◌, length, map, slice_get};
ghost use Rattle.support.specs.Options.{or_else};
ghost use Rattle.llvm_core.specs.Data.{Block, Function, Placed, trees_of, operand_of};
ghost use Rattle.llvm_core.specs.Form.{is_phi};
ghost use Rattle.from_llvm_ir.specs.Imported.{passed};
ghost use Rattle.from_llvm_ir.specs.Source.{IsSource, LeadsTo, IsSite, IsUsed, AreEntries, AreRight, IsNotedOf, entry_at, first_value, taken, used_by};

use crate::parts::{is_phi, operands_of, targets_of};
use llvm_core::code::{LLVMInst, LLVMValue, PhiEntry};
use llvm_core::numbers::{LLVMBasicBlock, LLVMFunction, LLVMInstRef};
use renamed_source::source::Source;
use std::alloc::{AllocError, Global};
use std::collections::HashMap;
use support::short_list::ShortList;

/// A phi, and a block that an edge to it comes from.
#[derive(PartialEq, Eq, Hash, Drop)]
pub struct Entry {
    pub phi: LLVMInstRef,
    pub from: LLVMBasicBlock,
}

/// What each phi of a function that has more than a few entries takes for each block: the value of its first entry for it.
#[derive(Drop)]
pub struct Entries {
    pub map: HashMap<Entry, LLVMValue>,
}

impl Entries {
    /// Nothing.
    fn new(alloc: Global) -> Entries
        ensures { (phi : LLVMInstRef) → (from : LLVMBasicBlock) → entry_at result phi from ≡ None }
    {
        Entries {
            map: HashMap::new(alloc),
        }
    }

    /// What a phi takes for a block.
    fn of(&self, phi: LLVMInstRef, from: LLVMBasicBlock) -> LLVMValue
        requires { IsSome (entry_at self.now phi from) }
        ensures { entry_at self.now phi from ≡ Some result }
    {
        match self.map.get(&Entry { phi, from }) {
            Some(value) => *value,
            None => unreachable!(),
        }
    }

    /// Notes an entry of a phi, unless one of the same block was noted.
    fn note(&mut self, phi: LLVMInstRef, entry: PhiEntry) -> Result<(), AllocError>
        ensures { OnOk result ((q : LLVMInstRef) → (p : LLVMBasicBlock) → entry_at self.new q p ≡ or_else (entry_at self.old q p) (if nat_eq phi.0 q.0 && nat_eq entry.block.0 p.0 then Some entry.value else None)) }
    {
        let key = Entry {
            phi,
            from: entry.block,
        };
        if !self.map.contains_key(&key) {
            self.map.insert(key, entry.value)?;
        }
        Ok(())
    }
}

/// Notes the entries of a phi.
fn note_entries(
    noted: &mut Entries,
    phi: LLVMInstRef,
    entries: &[PhiEntry],
) -> Result<(), AllocError>
    ensures { OnOk result ((q : LLVMInstRef) → (p : LLVMBasicBlock) → entry_at noted.new q p ≡ or_else (entry_at noted.old q p) (if nat_eq phi.0 q.0 then first_value p entries.now else None)) }
{
    for entry in entries {
        noted.note(phi, *entry)?;
    }
    Ok(())
}

/// The value of the first of some entries that is for a block.
fn first_for(entries: &[PhiEntry], from: LLVMBasicBlock) -> LLVMValue
    requires { IsSome (first_value from entries.now) }
    ensures { first_value from entries.now ≡ Some result }
{
    for entry in entries {
        if entry.block.0 == from.0 {
            return entry.value;
        }
    }
    unreachable!()
}

/// What a phi takes for a block.
fn value_for(
    source: &Source<'_>,
    entries: &Entries,
    phi: LLVMInstRef,
    from: LLVMBasicBlock,
) -> LLVMValue
    requires within { phi.0 < length source.now.insts }
    requires noted { IsNotedOf source.now entries.now phi }
    requires some { IsSome (taken source.now phi from) }
    ensures { taken source.now phi from ≡ Some result }
{
    match source.inst(phi) {
        LLVMInst::Phi(_, own) if own.as_slice().len() <= 8 => first_for(own.as_slice(), from),
        _ => entries.of(phi, from),
    }
}

/// Notes what an instruction takes: the entries of a phi that has more than a few.
fn note_inst(noted: &mut Entries, source: &Source<'_>, i: LLVMInstRef) -> Result<(), AllocError>
    requires within { i.0 < length source.now.insts }
    requires right { AreRight source.now noted.old }
    ensures right { OnOk result (AreRight source.now noted.new) }
    ensures noted { OnOk result (IsNotedOf source.now noted.new i) }
    ensures kept { OnOk result ((q : LLVMInstRef) → IsNotedOf source.now noted.old q → IsNotedOf source.now noted.new q) }
{
    match source.inst(i) {
        LLVMInst::Phi(_, entries) if entries.as_slice().len() > 8 => {
            note_entries(noted, i, entries.as_slice())
        }
        _ => Ok(()),
    }
}

/// Notes what instructions take.
fn note_insts(
    noted: &mut Entries,
    source: &Source<'_>,
    insts: &[LLVMInstRef],
) -> Result<(), AllocError>
    requires within { All (λ i. i.0 < length source.now.insts) insts.now }
    requires right { AreRight source.now noted.old }
    ensures right { OnOk result (AreRight source.now noted.new) }
    ensures noted { OnOk result ((j : ℕ) → (i : LLVMInstRef) → slice_get insts.now j ≡ Some i → IsNotedOf source.now noted.new i) }
    ensures kept { OnOk result ((q : LLVMInstRef) → IsNotedOf source.now noted.old q → IsNotedOf source.now noted.new q) }
{
    for i in insts {
        note_inst(noted, source, *i)?;
    }
    Ok(())
}

/// What each phi of a function that has more than a few entries takes for each block.
pub fn entries_of(
    alloc: Global,
    source: &Source<'_>,
    f: LLVMFunction,
) -> Result<Entries, AllocError>
    requires { (g : Function) × IsSource source.now f g }
    ensures { IfOk result (λ e. (g : Function) → IsSource source.now f g → AreEntries source.now g e) }
{
    let mut noted = Entries::new(alloc);
    for b in source.blocks(f) {
        note_insts(&mut noted, source, source.instructions(*b))?;
    }
    Ok(noted)
}

/// What the phis of a block take on an edge, in order. They stand at its front: the loop ends at the first instruction that is no phi.
#[inline(always)]
pub fn edge_values(
    alloc: Global,
    source: &Source<'_>,
    entries: &Entries,
    from: LLVMBasicBlock,
    to: LLVMBasicBlock,
) -> Result<ShortList<LLVMValue>, AllocError>
    requires { (f : LLVMFunction) × (g : Function) × LeadsTo source.now f g entries.now from to }
    ensures passed { IfOk result (λ vs. (f : LLVMFunction) → (g : Function) → LeadsTo source.now f g entries.now from to → map (operand_of (trees_of source.now)) vs ≡ passed g from.0 to.0) }
    ensures used { IfOk result (λ vs. (f : LLVMFunction) → (g : Function) → LeadsTo source.now f g entries.now from to → All (IsUsed source.now g) vs) }
{
    let mut values = ShortList::zero();
    for i in source.instructions(to) {
        if is_phi(source.inst(*i)) {
            values.push(alloc, value_for(source, entries, *i, from))?;
        } else {
            break;
        }
    }
    Ok(values)
}

/// The operands of an instruction that is no phi, and then what its edges pass.
pub fn used_values(
    alloc: Global,
    source: &Source<'_>,
    entries: &Entries,
    from: LLVMBasicBlock,
    i: LLVMInstRef,
) -> Result<ShortList<LLVMValue>, AllocError>
    requires { (f : LLVMFunction) × (g : Function) × (b : Block) × (p : Placed) × IsSite source.now f g entries.now from i b p × (is_phi p ≡ false) }
    ensures are { IfOk result (λ vs. (f : LLVMFunction) → (g : Function) → (b : Block) → (p : Placed) → IsSite source.now f g entries.now from i b p → is_phi p ≡ false → map (operand_of (trees_of source.now)) vs ≡ used_by g b p) }
    ensures used { IfOk result (λ vs. (f : LLVMFunction) → (g : Function) → (b : Block) → (p : Placed) → IsSite source.now f g entries.now from i b p → is_phi p ≡ false → All (IsUsed source.now g) vs) }
{
    let inst = source.inst(i);
    let mut values = ShortList::from_slice(alloc, operands_of(inst))?;
    for to in targets_of(inst) {
        let passed = edge_values(alloc, source, entries, from, *to)?;
        values.extend_from_slice(alloc, passed.as_slice())?;
    }
    Ok(values)
}
