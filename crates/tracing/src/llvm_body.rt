//! The body of a function of LLVM, for runs.

ghost use Rattle.std.specs.Prelude.{◌≡◌, ◌<◌, ◌++◌, [], ℕ, List, All, IfOk, OnOk, length, map, slice_get};
ghost use Rattle.std.specs.List.{flat_map};
ghost use Rattle.std.specs.Option.{option_map_or};
ghost use Rattle.llvm_core.specs.Edges.{targets as leads_to};
ghost use Rattle.llvm_core.specs.Data as lists;
ghost use Rattle.llvm_core.specs.Data.{Placed, targets, trees_of, type_trees};
ghost use Rattle.meaning.specs.Llvm as llvm;
ghost use Rattle.tracing.specs.Table.{AreTyped};
ghost use Rattle.tracing.specs.Contents.{contents_of};
ghost use Rattle.tracing.specs.Tables.{AreGrown, AreTables, contents_in};
ghost use Rattle.tracing.specs.Bodies.{code_of, start_of, IsKnownBlock, IsBlock, AreBlocks};
ghost use Rattle.tracing.specs.Renamed.{renamed_block, renamed_code};
ghost use Rattle.tracing.specs.LlvmBodies.{setting_in, slot_of, origin_in, InChecked, data_in, ArePlacedIn, IsIndex, IsBlockIn, slots_of, taken_from, phis_at, params_in, edge_to};

use crate::body::{Block, Body, Code, Edge, Slot, Source};
use crate::llvm_index::{Index, Phi, index_of};
use crate::llvm_rows::rows;
use crate::tables::Tables;
use llvm_core::code::LLVMInst;
use llvm_core::module::LLVMModule;
use llvm_core::numbers::{LLVMBasicBlock, LLVMFunction, LLVMInstRef};
use llvm_core::types::LLVMTypeKind;
use std::alloc::{AllocError, Global};
use support::items::Items;

/// What phis take on an edge from a block.
fn taken(alloc: Global, phis: &[Phi], from: u32) -> Result<Items<Option<Source>>, AllocError>
    ensures { IfOk result (λ sources. sources ≡ taken_from from phis.now) }
{
    let mut sources = Items::new(alloc);
    for phi in phis {
        sources.push(phi.incoming.get(&from).copied())?;
    }
    Ok(sources)
}

/// The phis of the block at a place.
fn phis_at(index: &Index, place: u32) -> &[Phi]
    ensures { result.now ≡ phis_at index.now place }
{
    match index.phis.as_slice().get(place as usize) {
        Some(phis) => phis.as_slice(),
        None => &[],
    }
}

/// An edge from a block to another.
fn edge(alloc: Global, index: &Index, from: u32, to: LLVMBasicBlock) -> Result<Edge, AllocError>
    ensures { IfOk result (λ e. e ≡ edge_to index.now from to.0) }
{
    let place = index.places.place(to.0);
    let sources = taken(alloc, phis_at(index, place), from)?;
    Ok(Edge { to: place, sources })
}

/// Appends the edges to blocks.
fn push_all(
    alloc: Global,
    index: &Index,
    from: u32,
    targets: &[LLVMBasicBlock],
    edges: &mut Items<Edge>,
) -> Result<(), AllocError>
    ensures { OnOk result (edges.new ≡ edges.old ++ map (λ b. edge_to index.now from b.0) targets.now) }
{
    for target in targets {
        edges.push(edge(alloc, index, from, *target)?)?;
    }
    Ok(())
}

/// Appends the edges of an instruction.
fn push_edges(
    alloc: Global,
    index: &Index,
    from: u32,
    inst: &LLVMInst,
    edges: &mut Items<Edge>,
) -> Result<(), AllocError>
    ensures { OnOk result (edges.new ≡ edges.old ++ map (edge_to index.now from) (leads_to inst.now)) }
{
    match inst {
        LLVMInst::Phi(..) => Ok(()),
        LLVMInst::Row(row) => push_all(alloc, index, from, row.targets.as_slice(), edges),
    }
}

/// The edges of the instructions of a block.
fn block_edges(
    alloc: Global,
    m: &LLVMModule,
    index: &Index,
    from: u32,
    insts: &[LLVMInstRef],
) -> Result<Items<Edge>, AllocError>
    requires { (h : InChecked m.now) × (b : ℕ) × (ps : List Placed) × ArePlacedIn m.now h b insts.now ps }
    ensures { IfOk result (λ es. (h : InChecked m.now) → (b : ℕ) → (ps : List Placed) → ArePlacedIn m.now h b insts.now ps → es ≡ map (edge_to index.now from) (flat_map (λ p. targets p.instruction) ps)) }
{
    let mut edges = Items::new(alloc);
    for i in insts {
        push_edges(alloc, index, from, m.inst(*i), &mut edges)?;
    }
    Ok(edges)
}

fn block(
    alloc: Global,
    tables: &mut Tables,
    m: &LLVMModule,
    index: &Index,
    b: LLVMBasicBlock,
) -> Result<Block, AllocError>
    requires within { b.0 < length m.now.blocks }
    requires block { (h : InChecked m.now) × (y : lists.Block) × IsBlockIn m.now h b y }
    requires tables { AreTables (origin_in m.now) tables.old }
    ensures is { IfOk result (λ r. (h : InChecked m.now) → (y : lists.Block) → IsBlockIn m.now h b y → IsIndex m.now h (contents_in tables.old) index.now → IsBlock (contents_in tables.new) (params_in index.now) r (renamed_block slot_of (llvm.block (setting_in m.now) (data_in m.now h) y))) }
    ensures grown { OnOk result (AreGrown (origin_in m.now) tables.old tables.new) }
{
    let insts = m.instructions(b);
    Ok(Block {
        rows: rows(alloc, tables, m, insts)?,
        edges: block_edges(alloc, m, index, b.0, insts)?,
    })
}

/// The blocks of a function.
fn blocks(
    alloc: Global,
    tables: &mut Tables,
    m: &LLVMModule,
    index: &Index,
    f: LLVMFunction,
) -> Result<Items<Block>, AllocError>
    requires here { (h : InChecked m.now) × (h.number ≡ f.0) }
    requires tables { AreTables (origin_in m.now) tables.old }
    ensures are { IfOk result (λ bs. (h : InChecked m.now) → h.number ≡ f.0 → IsIndex m.now h (contents_in tables.old) index.now → AreBlocks (contents_in tables.new) (params_in index.now) bs (renamed_code slot_of (map (llvm.block (setting_in m.now) (data_in m.now h)) (data_in m.now h).blocks))) }
    ensures grown { OnOk result (AreGrown (origin_in m.now) tables.old tables.new) }
{
    let mut blocks = Items::new(alloc);
    for b in m.blocks(f) {
        let made = block(alloc, tables, m, index, *b)?;
        blocks.push(made)?;
    }
    Ok(blocks)
}

fn slots(alloc: Global, phis: &[Phi]) -> Result<Items<Slot>, AllocError>
    ensures { IfOk result (λ slots. slots ≡ slots_of phis.now) }
{
    let mut slots = Items::new(alloc);
    for phi in phis {
        slots.push(phi.slot)?;
    }
    Ok(slots)
}

/// The slots of the phis of each block.
fn params(alloc: Global, index: &Index) -> Result<Items<Items<Slot>>, AllocError>
    ensures { IfOk result (λ params. params ≡ params_in index.now) }
{
    let mut params = Items::new(alloc);
    for phis in index.phis.as_slice() {
        let made = slots(alloc, phis.as_slice())?;
        params.push(made)?;
    }
    Ok(params)
}

/// How many parameters a function has.
fn param_count(m: &LLVMModule, f: LLVMFunction) -> usize
    requires { (h : InChecked m.now) × (h.number ≡ f.0) }
    ensures { (h : InChecked m.now) → h.number ≡ f.0 → result ≡ llvm.arity (data_in m.now h).type }
{
    match m.type_kind(m.function_type(f)) {
        LLVMTypeKind::Function { params, .. } => params.as_slice().len(),
        _ => unreachable!(),
    }
}

fn inputs(m: &LLVMModule, f: LLVMFunction) -> Result<u32, AllocError>
    requires { (h : InChecked m.now) × (h.number ≡ f.0) }
    ensures { IfOk result (λ n. (h : InChecked m.now) → h.number ≡ f.0 → n ≡ llvm.arity (data_in m.now h).type) }
{
    let count = param_count(m, f);
    if count > u32::MAX as usize {
        return Err(AllocError);
    }
    Ok(count as u32)
}

/// The body of a function of so many parameters, over its index, whose types have their places.
fn body_over(
    alloc: Global,
    tables: Tables,
    m: &LLVMModule,
    f: LLVMFunction,
    inputs: u32,
    index: &Index,
) -> Result<Body, AllocError>
    requires here { (h : InChecked m.now) × (h.number ≡ f.0) }
    requires tables { AreTables (origin_in m.now) tables }
    ensures code { IfOk result (λ body. (h : InChecked m.now) → h.number ≡ f.0 → IsIndex m.now h (contents_in tables) index.now → code_of (contents_of body.types body.terms) body.code.params body.code.blocks ≡ renamed_code slot_of (map (llvm.block (setting_in m.now) (data_in m.now h)) (data_in m.now h).blocks)) }
    ensures known { IfOk result (λ body. (h : InChecked m.now) → h.number ≡ f.0 → IsIndex m.now h (contents_in tables) index.now → All (IsKnownBlock (contents_of body.types body.terms)) body.code.blocks) }
    ensures typed { IfOk result (λ body. AreTyped (length (type_trees body.types)) body.terms) }
    ensures start { IfOk result (λ body. (h : InChecked m.now) → h.number ≡ f.0 → inputs ≡ llvm.arity (data_in m.now h).type → (k : llvm.Key) → start_of body.holder body.inputs (slot_of k) ≡ llvm.start (data_in m.now h) k) }
{
    let params = params(alloc, index)?;
    let mut tables = tables;
    let blocks = blocks(alloc, &mut tables, m, index, f)?;
    let Tables { types, terms, .. } = tables;
    Ok(Body {
        types: types.into_table(),
        terms,
        holder: f.0,
        inputs,
        code: Code { params, blocks },
    })
}

/// The body of a function of a checked module.
pub fn llvm_body(alloc: Global, m: &LLVMModule, f: LLVMFunction) -> Result<Body, AllocError>
    requires { (h : InChecked m.now) × (h.number ≡ f.0) }
    ensures code { IfOk result (λ body. (h : InChecked m.now) → h.number ≡ f.0 → code_of (contents_of body.types body.terms) body.code.params body.code.blocks ≡ renamed_code slot_of (map (llvm.block (setting_in m.now) (data_in m.now h)) (data_in m.now h).blocks)) }
    ensures known { IfOk result (λ body. (h : InChecked m.now) → h.number ≡ f.0 → All (IsKnownBlock (contents_of body.types body.terms)) body.code.blocks) }
    ensures typed { IfOk result (λ body. AreTyped (length (type_trees body.types)) body.terms) }
    ensures start { IfOk result (λ body. (h : InChecked m.now) → h.number ≡ f.0 → (k : llvm.Key) → start_of body.holder body.inputs (slot_of k) ≡ llvm.start (data_in m.now h) k) }
{
    let inputs = inputs(m, f)?;
    let mut tables = Tables::new(alloc);
    let index = index_of(alloc, &mut tables, m, f)?;
    body_over(alloc, tables, m, f, inputs, &index)
}
