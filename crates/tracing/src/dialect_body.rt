//! The body of a function of the dialect, for runs.

ghost use Rattle.std.specs.Prelude.{◌≡◌, ◌<◌, ◌++◌, List, All, IfOk, OnOk, length, map};
ghost use Rattle.std.specs.List.{flat_map};
ghost use Rattle.support.specs.Interned.{IsDistinctList};
ghost use Rattle.dialect_core.specs.declared.ops.Value as values;
ghost use Rattle.dialect_core.specs.Data.{DialectBlock, DialectOp, type_in};
ghost use Rattle.meaning.specs.Setting.{Setting};
ghost use Rattle.meaning.specs.Dialect as dialect;
ghost use Rattle.llvm_core.specs.Data.{type_trees};
ghost use Rattle.tracing.specs.Table.{AreTyped};
ghost use Rattle.tracing.specs.Contents.{contents_of};
ghost use Rattle.tracing.specs.Tables.{AreGrown, AreTables, contents_in};
ghost use Rattle.tracing.specs.Bodies.{code_of, start_of, IsKnownBlock, IsBlock, AreBlocks};
ghost use Rattle.tracing.specs.Renamed.{renamed_block, renamed_code};
ghost use Rattle.tracing.specs.DialectBodies.{origin_of, slot_of, InContext, AreOpsIn};
ghost use Rattle.tracing.specs.DialectEdges.{inputs_of, params_of, numbers_of, handed, edge_to, IsBlockIn, AreBlocksIn, is_op, body_ops};

use crate::body::{Block, Body, Code, Edge, Slot, Source};
use crate::dialect_rows::{rows, slot};
use crate::places::{Places, places_of};
use crate::tables::Tables;
use dialect_core::context::Context;
use dialect_core::numbers::{BlockRef, FuncOp, OpRef};
use dialect_core::ops::{OpKind, Successor, Value};
use std::alloc::{AllocError, Global};
use support::items::Items;

/// What an edge hands over for values.
fn sources(alloc: Global, args: &[Value]) -> Result<Items<Option<Source>>, AllocError>
    ensures { IfOk result (λ sources. sources ≡ map handed args.now) }
{
    let mut sources = Items::new(alloc);
    for arg in args {
        sources.push(Some(Source::At(slot(*arg))))?;
    }
    Ok(sources)
}

/// The edge that a successor is.
fn edge(alloc: Global, places: &Places, successor: &Successor) -> Result<Edge, AllocError>
    ensures { IfOk result (λ e. e ≡ edge_to places.now successor.now) }
{
    Ok(Edge {
        to: places.place(successor.block.0),
        sources: sources(alloc, successor.args.as_slice())?,
    })
}

/// Appends the edges that successors are.
fn push_edges(
    alloc: Global,
    places: &Places,
    successors: &[Successor],
    edges: &mut Items<Edge>,
) -> Result<(), AllocError>
    ensures { OnOk result (edges.new ≡ edges.old ++ map (edge_to places.now) successors.now) }
{
    for successor in successors {
        edges.push(edge(alloc, places, successor)?)?;
    }
    Ok(())
}

/// The edges of the operations of a block.
fn edges(
    alloc: Global,
    ctx: &Context,
    places: &Places,
    ops: &[OpRef],
) -> Result<Items<Edge>, AllocError>
    requires { (h : InContext ctx.now) × (os : List DialectOp) × AreOpsIn ctx.now h ops.now os }
    ensures { IfOk result (λ es. (h : InContext ctx.now) → (os : List DialectOp) → AreOpsIn ctx.now h ops.now os → es ≡ map (edge_to places.now) (flat_map (λ o. o.successors) os)) }
{
    let mut edges = Items::new(alloc);
    for op in ops {
        push_edges(alloc, places, ctx.op_successors(*op), &mut edges)?;
    }
    Ok(edges)
}

/// Whether an operation is neither a module nor a function.
fn is_op(ctx: &Context, op: OpRef) -> bool
    requires { op.0 < length ctx.now.ops }
    ensures { result ≡ is_op ctx.now op }
{
    match ctx.op_kind(op) {
        OpKind::Module | OpKind::Func => false,
        _ => true,
    }
}

/// The operations of a block that are no modules and no functions.
fn ops_of(alloc: Global, ctx: &Context, b: BlockRef) -> Result<Vec<OpRef>, AllocError>
    requires { b.0 < length ctx.now.blocks }
    ensures { IfOk result (λ ops. ops.items ≡ body_ops ctx.now b) }
{
    let mut ops = Vec::new(alloc);
    for op in ctx.block_ops(b)?.as_slice() {
        if is_op(ctx, *op) {
            ops.push(*op)?;
        }
    }
    Ok(ops)
}

fn block(
    alloc: Global,
    tables: &mut Tables,
    ctx: &Context,
    places: &Places,
    b: BlockRef,
) -> Result<Block, AllocError>
    requires within { b.0 < length ctx.now.blocks }
    requires block { (h : InContext ctx.now) × (y : DialectBlock) × IsBlockIn ctx.now h b y }
    requires tables { AreTables (origin_of ctx.now) tables.old }
    ensures is { IfOk result (λ r. (setting : Setting) → (h : InContext ctx.now) → (y : DialectBlock) → IsBlockIn ctx.now h b y → places.now ≡ numbers_of h.function → IsBlock (contents_in tables.new) (params_of h.function) r (renamed_block slot_of (dialect.typed_block setting (type_in ctx.now) h.function y))) }
    ensures grown { OnOk result (AreGrown (origin_of ctx.now) tables.old tables.new) }
{
    let ops = ops_of(alloc, ctx, b)?;
    Ok(Block {
        rows: rows(alloc, tables, ctx, ops.as_slice())?,
        edges: edges(alloc, ctx, places, ops.as_slice())?,
    })
}

/// The blocks of a function, of which this is the list.
fn blocks(
    alloc: Global,
    tables: &mut Tables,
    ctx: &Context,
    places: &Places,
    list: &[BlockRef],
) -> Result<Items<Block>, AllocError>
    requires within { All (λ b. b.0 < length ctx.now.blocks) list.now }
    requires blocks { (h : InContext ctx.now) × AreBlocksIn ctx.now h list.now }
    requires tables { AreTables (origin_of ctx.now) tables.old }
    ensures are { IfOk result (λ bs. (setting : Setting) → (h : InContext ctx.now) → AreBlocksIn ctx.now h list.now → places.now ≡ numbers_of h.function → AreBlocks (contents_in tables.new) (params_of h.function) bs (renamed_code slot_of (map (dialect.typed_block setting (type_in ctx.now) h.function) h.function.blocks))) }
    ensures grown { OnOk result (AreGrown (origin_of ctx.now) tables.old tables.new) }
{
    let mut blocks = Items::new(alloc);
    for b in list {
        let made = block(alloc, tables, ctx, places, *b)?;
        blocks.push(made)?;
    }
    Ok(blocks)
}

/// How many arguments a block has.
fn arg_count(ctx: &Context, b: BlockRef) -> Result<u32, AllocError>
    requires { b.0 < length ctx.now.blocks }
    ensures { IfOk result (λ n. (h : InContext ctx.now) → (y : DialectBlock) → IsBlockIn ctx.now h b y → n ≡ length y.args) }
{
    let count = ctx.block_args(b).len();
    if count > u32::MAX as usize {
        return Err(AllocError);
    }
    Ok(count as u32)
}

/// The arguments of a block.
fn inputs(alloc: Global, ctx: &Context, b: BlockRef) -> Result<Items<Slot>, AllocError>
    requires { b.0 < length ctx.now.blocks }
    ensures { IfOk result (λ slots. (h : InContext ctx.now) → (y : DialectBlock) → IsBlockIn ctx.now h b y → slots ≡ inputs_of y) }
{
    let count = arg_count(ctx, b)?;
    let mut inputs = Items::new(alloc);
    for place in 0..count {
        inputs.push(Slot::Input(b.0, place))?;
    }
    Ok(inputs)
}

/// The arguments of each block of a function, of which this is the list.
fn params(alloc: Global, ctx: &Context, list: &[BlockRef]) -> Result<Items<Items<Slot>>, AllocError>
    requires { All (λ b. b.0 < length ctx.now.blocks) list.now }
    ensures { IfOk result (λ params. (h : InContext ctx.now) → AreBlocksIn ctx.now h list.now → params ≡ params_of h.function) }
{
    let mut params = Items::new(alloc);
    for b in list {
        let made = inputs(alloc, ctx, *b)?;
        params.push(made)?;
    }
    Ok(params)
}

/// The place of each of some blocks, which are each there once.
fn block_places(alloc: Global, list: &[BlockRef]) -> Result<Places, AllocError>
    requires { IsDistinctList (map (λ b. b.0) list.now) }
    ensures { IfOk result (λ places. places ≡ map (λ b. b.0) list.now) }
{
    let mut numbers = Vec::new(alloc);
    for b in list {
        numbers.push(b.0)?;
    }
    places_of(alloc, numbers.as_slice())
}

/// The blocks of a function, of which this is the list, each there once.
fn placed_blocks(
    alloc: Global,
    tables: &mut Tables,
    ctx: &Context,
    list: &[BlockRef],
) -> Result<Items<Block>, AllocError>
    requires within { All (λ b. b.0 < length ctx.now.blocks) list.now }
    requires once { IsDistinctList (map (λ b. b.0) list.now) }
    requires blocks { (h : InContext ctx.now) × AreBlocksIn ctx.now h list.now }
    requires tables { AreTables (origin_of ctx.now) tables.old }
    ensures are { IfOk result (λ bs. (setting : Setting) → (h : InContext ctx.now) → AreBlocksIn ctx.now h list.now → AreBlocks (contents_in tables.new) (params_of h.function) bs (renamed_code slot_of (map (dialect.typed_block setting (type_in ctx.now) h.function) h.function.blocks))) }
    ensures grown { OnOk result (AreGrown (origin_of ctx.now) tables.old tables.new) }
{
    let places = block_places(alloc, list)?;
    blocks(alloc, tables, ctx, &places, list)
}

/// The body of a well-formed function.
pub fn dialect_body(alloc: Global, ctx: &Context, f: FuncOp) -> Result<Body, AllocError>
    requires { (h : InContext ctx.now) × (h.op ≡ f.0) }
    ensures known { IfOk result (λ body. (h : InContext ctx.now) → h.op ≡ f.0 → All (IsKnownBlock (contents_of body.types body.terms)) body.code.blocks) }
    ensures code { IfOk result (λ body. (setting : Setting) → (h : InContext ctx.now) → h.op ≡ f.0 → code_of (contents_of body.types body.terms) body.code.params body.code.blocks ≡ renamed_code slot_of (map (dialect.typed_block setting (type_in ctx.now) h.function) h.function.blocks)) }
    ensures typed { IfOk result (λ body. AreTyped (length (type_trees body.types)) body.terms) }
    ensures start { IfOk result (λ body. (h : InContext ctx.now) → h.op ≡ f.0 → (v : values.Value) → start_of body.holder body.inputs (slot_of v) ≡ dialect.start h.function.blocks v) }
{
    let list = ctx.op_blocks(f.0);

    // A function with a body has a first block.
    let entry = list[0];
    let inputs = arg_count(ctx, entry)?;
    let params = params(alloc, ctx, list)?;
    let mut tables = Tables::new(alloc);
    let blocks = placed_blocks(alloc, &mut tables, ctx, list)?;
    let Tables { types, terms, .. } = tables;
    Ok(Body {
        types: types.into_table(),
        terms,
        holder: entry.0,
        inputs,
        code: Code { params, blocks },
    })
}
