//! What is asked of a function of LLVM for each edge, made once: the place of each block, and what its phis take.

ghost use Rattle.std.specs.Prelude.{◌≡◌, ◌++◌, ◌∷◌, [], ℕ, List, All, IfOk, OnOk, Option, None, Some, if◌then◌else◌, filter, map, nat_eq};
ghost use Rattle.std.specs.Option.{option_map};
ghost use Rattle.indexmap.specs.IndexMap.{get};
ghost use Rattle.support.specs.Interned.{IsDistinctList};
ghost use Rattle.llvm_core.specs.Sound.{IsModule};
ghost use Rattle.llvm_core.specs.Parts.{IsEntry};
ghost use Rattle.llvm_core.specs.Data.{Placed, entry_of, trees_of};
ghost use Rattle.llvm_core.specs.Form as form;
ghost use Rattle.meaning.specs.Llvm as llvm;
ghost use Rattle.meaning.specs.Machine as machine;
ghost use Rattle.tracing.specs.Contents.{Lasts};
ghost use Rattle.tracing.specs.Tables.{AreGrown, AreTables, contents_in};
ghost use Rattle.tracing.specs.Bodies.{IsGiven};
ghost use Rattle.tracing.specs.Renamed.{renamed};
ghost use Rattle.tracing.specs.LlvmBodies.{setting_in, slot_of, first_of, origin_in, operand_in, InChecked, data_in, ArePlacedIn, IsPlacedIn, ArePhis, AreBlockPhis, IsIndex};

use crate::body::{Slot, Source};
use crate::llvm_rows::source;
use crate::places::{Places, places_of};
use crate::tables::Tables;
use indexmap::IndexMap;
use llvm_core::code::{LLVMInst, PhiEntry};
use llvm_core::module::LLVMModule;
use llvm_core::numbers::{LLVMBasicBlock, LLVMFunction, LLVMInstRef};
use std::alloc::{AllocError, Global};
use support::items::Items;

/// A phi: what it sets, and what it takes for each block that an edge comes from.
#[derive(Drop)]
pub struct Phi {
    pub slot: Slot,
    pub incoming: IndexMap<u32, Source>,
}

/// The place of each block of a function, and the phis of each.
#[derive(Drop)]
pub struct Index {
    pub places: Places,
    pub phis: Items<Items<Phi>>,
}

/// Notes an entry of a phi, unless there is an earlier one for its block.
fn note_entry(
    alloc: Global,
    tables: &mut Tables,
    m: &LLVMModule,
    incoming: &mut IndexMap<u32, Source>,
    entry: PhiEntry,
) -> Result<(), AllocError>
    requires sound { IsModule m.now }
    requires entry { IsEntry m.now entry }
    requires tables { AreTables (origin_in m.now) tables.old }
    ensures takes { OnOk result ((from : ℕ) → (x : Option (machine.Operand Slot)) → IsGiven (contents_in tables.old) (get nat_eq incoming.old from) x → IsGiven (contents_in tables.new) (get nat_eq incoming.new from) (first_of x (if nat_eq entry.block.0 from then Some (operand_in m.now entry.value) else None))) }
    ensures grown { OnOk result (AreGrown (origin_in m.now) tables.old tables.new) }
{
    if incoming.contains_key(&entry.block.0) {
        return Ok(());
    }
    let source = source(alloc, tables, m, entry.value)?;
    incoming.insert(entry.block.0, source)?;
    Ok(())
}

/// What a phi with these entries takes for each block that an edge comes from.
fn incoming(
    alloc: Global,
    tables: &mut Tables,
    m: &LLVMModule,
    entries: &[PhiEntry],
) -> Result<IndexMap<u32, Source>, AllocError>
    requires sound { IsModule m.now }
    requires entries { All (IsEntry m.now) entries.now }
    requires tables { AreTables (origin_in m.now) tables.old }
    ensures takes { IfOk result (λ incoming. (from : ℕ) → IsGiven (contents_in tables.new) (get nat_eq incoming from) (option_map (renamed slot_of) (llvm.entry_for (setting_in m.now) from (map (entry_of (trees_of m.now)) entries.now)))) }
    ensures grown { OnOk result (AreGrown (origin_in m.now) tables.old tables.new) }
{
    let mut incoming = IndexMap::new(alloc);
    for entry in entries {
        note_entry(alloc, tables, m, &mut incoming, *entry)?;
    }
    Ok(incoming)
}

/// Appends a phi, where the instruction is one.
fn push_phi(
    alloc: Global,
    tables: &mut Tables,
    m: &LLVMModule,
    i: LLVMInstRef,
    phis: &mut Items<Phi>,
) -> Result<(), AllocError>
    requires here { (h : InChecked m.now) × (b : ℕ) × (p : Placed) × IsPlacedIn m.now h b i p }
    requires tables { AreTables (origin_in m.now) tables.old }
    ensures phis { OnOk result ((h : InChecked m.now) → (b : ℕ) → (p : Placed) → IsPlacedIn m.now h b i p → (xs : List Placed) → ArePhis m.now (contents_in tables.old) phis.old xs → ArePhis m.now (contents_in tables.new) phis.new (xs ++ filter form.is_phi (p ∷ []))) }
    ensures grown { OnOk result (AreGrown (origin_in m.now) tables.old tables.new) }
{
    match m.inst(i) {
        LLVMInst::Phi(_, entries) => {
            let incoming = incoming(alloc, tables, m, entries.as_slice())?;
            phis.push(Phi {
                slot: Slot::Result(i.0),
                incoming,
            })
        }
        LLVMInst::Row(_) => Ok(()),
    }
}

/// The phis among instructions.
fn phis(
    alloc: Global,
    tables: &mut Tables,
    m: &LLVMModule,
    insts: &[LLVMInstRef],
) -> Result<Items<Phi>, AllocError>
    requires here { (h : InChecked m.now) × (b : ℕ) × (ps : List Placed) × ArePlacedIn m.now h b insts.now ps }
    requires tables { AreTables (origin_in m.now) tables.old }
    ensures phis { IfOk result (λ xs. (h : InChecked m.now) → (b : ℕ) → (ps : List Placed) → ArePlacedIn m.now h b insts.now ps → ArePhis m.now (contents_in tables.new) xs (filter form.is_phi ps)) }
    ensures grown { OnOk result (AreGrown (origin_in m.now) tables.old tables.new) }
{
    let mut phis = Items::new(alloc);
    for i in insts {
        push_phi(alloc, tables, m, *i, &mut phis)?;
    }
    Ok(phis)
}

/// The phis of each block of a function.
fn all_phis(
    alloc: Global,
    tables: &mut Tables,
    m: &LLVMModule,
    f: LLVMFunction,
) -> Result<Items<Items<Phi>>, AllocError>
    requires here { (h : InChecked m.now) × (h.number ≡ f.0) }
    requires tables { AreTables (origin_in m.now) tables.old }
    ensures phis { IfOk result (λ all. (h : InChecked m.now) → h.number ≡ f.0 → Lasts (contents_in tables.new) (λ now. AreBlockPhis m.now now all (data_in m.now h).blocks)) }
    ensures grown { OnOk result (AreGrown (origin_in m.now) tables.old tables.new) }
{
    let mut all = Items::new(alloc);
    for b in m.blocks(f) {
        let block_phis = phis(alloc, tables, m, m.instructions(*b))?;
        all.push(block_phis)?;
    }
    Ok(all)
}

/// The place of each of some blocks, which are each there once.
fn block_places(alloc: Global, blocks: &[LLVMBasicBlock]) -> Result<Places, AllocError>
    requires { IsDistinctList (map (λ b. b.0) blocks.now) }
    ensures { IfOk result (λ places. places ≡ map (λ b. b.0) blocks.now) }
{
    let mut numbers = Vec::new(alloc);
    for b in blocks {
        numbers.push(b.0)?;
    }
    places_of(alloc, numbers.as_slice())
}

/// The index of a function, where the types of what its phis take get their places.
pub fn index_of(
    alloc: Global,
    tables: &mut Tables,
    m: &LLVMModule,
    f: LLVMFunction,
) -> Result<Index, AllocError>
    requires here { (h : InChecked m.now) × (h.number ≡ f.0) }
    requires tables { AreTables (origin_in m.now) tables.old }
    ensures is { IfOk result (λ index. (h : InChecked m.now) → h.number ≡ f.0 → IsIndex m.now h (contents_in tables.new) index) }
    ensures grown { OnOk result (AreGrown (origin_in m.now) tables.old tables.new) }
{
    Ok(Index {
        places: block_places(alloc, m.blocks(f))?,
        phis: all_phis(alloc, tables, m, f)?,
    })
}
