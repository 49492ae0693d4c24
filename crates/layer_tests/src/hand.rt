//! Dialect modules made by hand, each by a row of steps. No text of the form gives most of them.

ghost use Rattle.std.specs.Prelude.{ℕ, ◌≡◌, ◌<◌, ◌≤◌, IsTrue, IfOk, IfSome, OnOk, All, Some, false, length};
ghost use Rattle.dialect_types.specs.Trees.{is_named, type_at, type_tree, type_trees, HasFitParts, HasPartsBelow};
ghost use Rattle.kinds.specs.Held.{IsShallow};
ghost use Rattle.dialect_core.specs.declared.ops.OpKind.TheVariants as kinds;
ghost use Rattle.dialect_core.specs.ContextData.{empty_context, holder_kind, is_plain, HoldsMore, IsValueWithin, IsSuccessorWithin};
ghost use Rattle.dialect_core.specs.Data.{HasKindTypesBelow, IsTyped};

use const_attrs::const_attr::ConstAttr;
use dialect_core::context::Context;
use dialect_core::linkage::LinkageAttr;
use dialect_core::numbers::{BlockRef, ModuleOp, OpRef};
use dialect_core::ops::{OpKind, Successor, Value};
use dialect_core::steps::Steps;
use dialect_types::identifier::Identifier;
use dialect_types::legaliser::Legaliser;
use dialect_types::types::{TypeHandle, TypeKind};
use kinds::op::{Op as Row, OverflowFlags};
use std::alloc::{AllocError, Global};
use std::sync::ledger::{Blank, Ledger};
use support::items::Items;
use support::short_list::ShortList;

/// A block, by the function that has it, counted from 1, and its place there. The function 0 is the module itself.
pub type At = (usize, usize);

/// An operation, by its block's function and place, and its own place in the block.
pub type Op = (usize, usize, usize);

/// Where an edge leads, and the result that it passes, if any.
pub type Edge = (At, Option<Op>);

/// The names that modules have.
#[derive(Drop)]
pub enum Name {
    M,
    F,
    G,
    X,
    Far,
}

/// A step that makes a part of a module.
#[derive(Drop)]
pub enum Step {
    /// A last block of a function, or of the module.
    Block(usize),
    /// A last block of a function, with a label.
    Label(usize, Name),
    /// A last function, which takes and returns nothing.
    Func(Name, LinkageAttr),
    /// A last argument of 64 bits of a block.
    Argument(At),
    /// A last operation of a block: a constant of a width and a value.
    Constant(At, u32, u64),
    /// A last operation of a block: the sum of a result with itself, of 64 bits.
    Double(At, Op),
    /// A last operation of a block: a branch.
    Br(At, Edge),
    /// A last operation of a block: a branch on a result.
    CondBr(At, Op, Edge, Edge),
    /// A last operation of a block: a return of nothing.
    Return(At),
    /// Names the result of an operation.
    Named(Op, Name),
}

// ---- what is named: None says that it is not there, or no memory

fn identifier(alloc: Global, name: &Name) -> Option<Identifier> {
    let word = match name {
        Name::M => "m",
        Name::F => "f",
        Name::G => "g",
        Name::X => "x",
        Name::Far => "far",
    };
    Legaliser::new(alloc).legalise(word).ok()
}

/// A function, or the module.
fn holder(ctx: &Context, root: ModuleOp, number: usize) -> Option<OpRef>
    requires { root.0.0 < length ctx.now.ops }
    ensures { IfSome result (λ o. o.0 < length ctx.now.ops) }
{
    if number == 0 {
        return Some(root.0);
    }
    let ops = ctx.held_ops(root.0).ok()?;
    ops.as_slice().get(number - 1).copied()
}

fn block(ctx: &Context, root: ModuleOp, at: At) -> Option<BlockRef>
    requires { root.0.0 < length ctx.now.ops }
    ensures { IfSome result (λ b. b.0 < length ctx.now.blocks) }
{
    let holder = holder(ctx, root, at.0)?;
    ctx.op_blocks(holder).get(at.1).copied()
}

fn op(ctx: &Context, root: ModuleOp, op: Op) -> Option<OpRef>
    requires { root.0.0 < length ctx.now.ops }
    ensures { IfSome result (λ o. o.0 < length ctx.now.ops) }
{
    let block = block(ctx, root, (op.0, op.1))?;
    let ops = ctx.block_ops(block).ok()?;
    ops.as_slice().get(op.2).copied()
}

/// What an edge passes.
fn passed(ctx: &Context, root: ModuleOp, value: Option<Op>) -> Option<ShortList<Value>>
    requires { root.0.0 < length ctx.now.ops }
    ensures { IfSome result (All (IsValueWithin (length ctx.now.ops) (length ctx.now.blocks))) }
{
    let Some(value) = value else {
        return Some(ShortList::zero());
    };
    let op = op(ctx, root, value)?;
    Some(ShortList::one(Value::Result(op)))
}

fn edge(ctx: &Context, root: ModuleOp, edge: &Edge) -> Option<Successor>
    requires { root.0.0 < length ctx.now.ops }
    ensures { IfSome result (IsSuccessorWithin (length ctx.now.ops) (length ctx.now.blocks)) }
{
    let block = block(ctx, root, edge.0)?;
    let args = passed(ctx, root, edge.1)?;
    Some(Successor { block, args })
}

fn edges(alloc: Global, ctx: &Context, root: ModuleOp, edges: &[Edge]) -> Option<Vec<Successor>>
    requires { root.0.0 < length ctx.now.ops }
    ensures { IfSome result (λ s. All (IsSuccessorWithin (length ctx.now.ops) (length ctx.now.blocks)) s.items) }
{
    let mut successors = Vec::new(alloc);
    for to in edges {
        let successor = edge(ctx, root, to)?;
        successors.push(successor).ok()?;
    }
    Some(successors)
}

// ---- types

/// A type of the context, no struct with a name.
fn intern(ctx: &mut Context, kind: TypeKind) -> Result<TypeHandle, AllocError>
    requires typed { IsTyped ctx.old }
    requires parts { HasPartsBelow (length ctx.old.types) kind }
    requires fit { HasFitParts (type_trees ctx.old.types) kind }
    requires nesting { IsShallow (type_tree (type_trees ctx.old.types) kind) }
    requires plain { is_named kind ≡ false }
    ensures typed { OnOk result (IsTyped ctx.new) }
    ensures tree { IfOk result (λ t. type_at (type_trees ctx.new.types) t ≡ type_tree (type_trees ctx.old.types) kind) }
    ensures within { IfOk result (λ t. t.0 < length ctx.new.types) }
    ensures ops { ctx.new.ops ≡ ctx.old.ops }
    ensures blocks { ctx.new.blocks ≡ ctx.old.blocks }
{
    let ty = ctx.types_mut().get(kind)?;
    Ok(ty)
}

fn int(ctx: &mut Context, width: u32) -> Option<TypeHandle>
    requires { IsTyped ctx.old }
    ensures typed { IfSome result (λ _. IsTyped ctx.new) }
    ensures within { IfSome result (λ t. t.0 < length ctx.new.types) }
    ensures ops { ctx.new.ops ≡ ctx.old.ops }
    ensures blocks { ctx.new.blocks ≡ ctx.old.blocks }
{
    intern(ctx, TypeKind::Integer(width)).ok()
}

/// The type of a function that takes and returns nothing.
fn intern_func(alloc: Global, ctx: &mut Context) -> Result<TypeHandle, AllocError>
    requires { IsTyped ctx.old }
    ensures typed { OnOk result (IsTyped ctx.new) }
    ensures within { IfOk result (λ t. t.0 < length ctx.new.types) }
    ensures ops { ctx.new.ops ≡ ctx.old.ops }
{
    let void = intern(ctx, TypeKind::Void)?;
    intern(
        ctx,
        TypeKind::Func {
            result: void,
            params: Items::new(alloc),
            variadic: false,
        },
    )
}

// ---- blocks and functions

/// Whether an operation may hold a block more.
fn holds_more(ctx: &Context, op: OpRef) -> bool
    requires { op.0 < length ctx.now.ops }
    ensures { IsTrue result → HoldsMore ctx.now.ops op }
{
    match ctx.op_kind(op) {
        OpKind::Func => true,
        OpKind::Module => ctx.region(op).is_empty(),
        _ => false,
    }
}

fn add_block(
    ctx: &mut Context,
    root: ModuleOp,
    number: usize,
    label: Option<Identifier>,
) -> Option<()>
    requires typed { IsTyped ctx.old }
    requires root { root.0.0 < length ctx.old.ops }
    ensures typed { IfSome result (λ _. IsTyped ctx.new) }
    ensures more { IfSome result (λ _. length ctx.old.ops ≤ length ctx.new.ops) }
{
    let holder = holder(ctx, root, number)?;
    if !holds_more(ctx, holder) {
        return None;
    }
    match ctx.add_block(holder, label, &[]) {
        Ok(_) => Some(()),
        Err(_) => None,
    }
}

/// A new last block with a label.
fn add_label(
    alloc: Global,
    ctx: &mut Context,
    root: ModuleOp,
    number: usize,
    label: &Name,
) -> Option<()>
    requires typed { IsTyped ctx.old }
    requires root { root.0.0 < length ctx.old.ops }
    ensures typed { IfSome result (λ _. IsTyped ctx.new) }
    ensures more { IfSome result (λ _. length ctx.old.ops ≤ length ctx.new.ops) }
{
    let label = identifier(alloc, label)?;
    add_block(ctx, root, number, Some(label))
}

fn add_argument(ctx: &mut Context, root: ModuleOp, at: At) -> Option<()>
    requires typed { IsTyped ctx.old }
    requires root { root.0.0 < length ctx.old.ops }
    ensures typed { IfSome result (λ _. IsTyped ctx.new) }
    ensures more { IfSome result (λ _. length ctx.old.ops ≤ length ctx.new.ops) }
{
    let block = block(ctx, root, at)?;
    let int = int(ctx, 64)?;
    match ctx.push_argument(block, int) {
        Ok(_) => Some(()),
        Err(_) => None,
    }
}

/// Whether a block is one of a module.
fn is_of_module(ctx: &Context, block: BlockRef) -> bool
    requires { block.0 < length ctx.now.blocks }
    ensures { IsTrue result → holder_kind ctx.now.ops ctx.now.blocks block ≡ Some kinds.Module }
{
    match ctx.op_kind(ctx.block_holder(block)) {
        OpKind::Module => true,
        _ => false,
    }
}

/// A new function without blocks, as the last of a module that has the block.
fn append_func<L: Ledger>(
    ctx: &mut Context,
    body: BlockRef,
    name: Identifier,
    ty: TypeHandle,
    linkage: LinkageAttr,
    steps: &mut Steps<L>,
) -> Option<()>
    requires typed { IsTyped ctx.old }
    requires body { body.0 < length ctx.old.blocks }
    requires ty { ty.0 < length ctx.old.types }
    ensures typed { IfSome result (λ _. IsTyped ctx.new) }
    ensures more { IfSome result (λ _. length ctx.old.ops ≤ length ctx.new.ops) }
{
    let func = ctx.create_func(name, ty, linkage).ok()?;
    if !is_of_module(ctx, body) {
        return None;
    }
    ctx.insert_at_back(func.0, body, steps);
    Some(())
}

fn add_func<L: Ledger>(
    alloc: Global,
    ctx: &mut Context,
    root: ModuleOp,
    name: &Name,
    linkage: LinkageAttr,
    steps: &mut Steps<L>,
) -> Option<()>
    requires typed { IsTyped ctx.old }
    requires root { root.0.0 < length ctx.old.ops }
    ensures typed { IfSome result (λ _. IsTyped ctx.new) }
    ensures more { IfSome result (λ _. length ctx.old.ops ≤ length ctx.new.ops) }
{
    let Ok(ty) = intern_func(alloc, ctx) else {
        return None;
    };
    let body = block(ctx, root, (0, 0))?;
    append_func(ctx, body, identifier(alloc, name)?, ty, linkage, steps)
}

// ---- operations

/// A new last operation of a block.
fn place<L: Ledger>(
    ctx: &mut Context,
    block: BlockRef,
    kind: OpKind,
    operands: &[Value],
    successors: &[Successor],
    ty: Option<TypeHandle>,
    steps: &mut Steps<L>,
) -> Option<()>
    requires typed { IsTyped ctx.old }
    requires block { block.0 < length ctx.old.blocks }
    requires plain { IsTrue (is_plain kind) }
    requires types { HasKindTypesBelow (length ctx.old.types) kind }
    requires operands { All (IsValueWithin (length ctx.old.ops) (length ctx.old.blocks)) operands.now }
    requires successors { All (IsSuccessorWithin (length ctx.old.ops) (length ctx.old.blocks)) successors.now }
    requires ty { IfSome ty (λ t. t.0 < length ctx.old.types) }
    ensures typed { IfSome result (λ _. IsTyped ctx.new) }
    ensures more { IfSome result (λ _. length ctx.old.ops ≤ length ctx.new.ops) }
{
    let op = ctx.create_op(kind, operands, successors, ty).ok()?;
    ctx.insert_at_back(op, block, steps);
    Some(())
}

fn constant<L: Ledger>(
    alloc: Global,
    ctx: &mut Context,
    root: ModuleOp,
    at: At,
    width: u32,
    value: u64,
    steps: &mut Steps<L>,
) -> Option<()>
    requires typed { IsTyped ctx.old }
    requires root { root.0.0 < length ctx.old.ops }
    ensures typed { IfSome result (λ _. IsTyped ctx.new) }
    ensures more { IfSome result (λ _. length ctx.old.ops ≤ length ctx.new.ops) }
{
    let block = block(ctx, root, at)?;
    let ty = int(ctx, width)?;
    let Ok(kind) = OpKind::constant(alloc, ConstAttr::Integer(ty, value)) else {
        return None;
    };
    place(ctx, block, kind, &[], &[], Some(ty), steps)
}

fn double<L: Ledger>(
    ctx: &mut Context,
    root: ModuleOp,
    at: At,
    operand: Op,
    steps: &mut Steps<L>,
) -> Option<()>
    requires typed { IsTyped ctx.old }
    requires root { root.0.0 < length ctx.old.ops }
    ensures typed { IfSome result (λ _. IsTyped ctx.new) }
    ensures more { IfSome result (λ _. length ctx.old.ops ≤ length ctx.new.ops) }
{
    let block = block(ctx, root, at)?;
    let value = Value::Result(op(ctx, root, operand)?);
    let ty = int(ctx, 64)?;
    let flags = OverflowFlags {
        nsw: false,
        nuw: false,
    };
    place(
        ctx,
        block,
        OpKind::Row(Row::Add(flags)),
        &[value, value],
        &[],
        Some(ty),
        steps,
    )
}

/// Names the result of an operation.
fn set_name(alloc: Global, ctx: &mut Context, root: ModuleOp, named: Op, name: &Name) -> Option<()>
    requires typed { IsTyped ctx.old }
    requires root { root.0.0 < length ctx.old.ops }
    ensures typed { IfSome result (λ _. IsTyped ctx.new) }
    ensures more { IfSome result (λ _. length ctx.old.ops ≤ length ctx.new.ops) }
{
    let op = op(ctx, root, named)?;
    ctx.set_name(op, identifier(alloc, name)?).ok()
}

/// A branch, on a result or on none, or a return of nothing: by where it leads.
fn end_kind(has_condition: bool, leads_on: bool) -> OpKind
    ensures plain { IsTrue (is_plain result) }
    ensures types { (n : ℕ) → HasKindTypesBelow n result }
{
    if has_condition {
        OpKind::Row(Row::CondBr)
    } else if leads_on {
        OpKind::Row(Row::Br)
    } else {
        OpKind::Row(Row::Ret)
    }
}

/// A last operation of a block, with its operands, that leads to these.
fn end_at<L: Ledger>(
    ctx: &mut Context,
    block: BlockRef,
    operands: &[Value],
    to: &[Successor],
    steps: &mut Steps<L>,
) -> Option<()>
    requires typed { IsTyped ctx.old }
    requires block { block.0 < length ctx.old.blocks }
    requires operands { All (IsValueWithin (length ctx.old.ops) (length ctx.old.blocks)) operands.now }
    requires to { All (IsSuccessorWithin (length ctx.old.ops) (length ctx.old.blocks)) to.now }
    ensures typed { IfSome result (λ _. IsTyped ctx.new) }
    ensures more { IfSome result (λ _. length ctx.old.ops ≤ length ctx.new.ops) }
{
    let kind = end_kind(!operands.is_empty(), !to.is_empty());
    place(ctx, block, kind, operands, to, None, steps)
}

fn end<L: Ledger>(
    alloc: Global,
    ctx: &mut Context,
    root: ModuleOp,
    at: At,
    condition: Option<Op>,
    to: &[Edge],
    steps: &mut Steps<L>,
) -> Option<()>
    requires typed { IsTyped ctx.old }
    requires root { root.0.0 < length ctx.old.ops }
    ensures typed { IfSome result (λ _. IsTyped ctx.new) }
    ensures more { IfSome result (λ _. length ctx.old.ops ≤ length ctx.new.ops) }
{
    let block = block(ctx, root, at)?;
    let operands = passed(ctx, root, condition)?;
    let successors = edges(alloc, ctx, root, to)?;
    end_at(
        ctx,
        block,
        operands.as_slice(),
        successors.as_slice(),
        steps,
    )
}

// ---- modules

/// Takes a step.
fn take<L: Ledger>(
    alloc: Global,
    ctx: &mut Context,
    root: ModuleOp,
    step: &Step,
    steps: &mut Steps<L>,
) -> Option<()>
    requires typed { IsTyped ctx.old }
    requires root { root.0.0 < length ctx.old.ops }
    ensures typed { IfSome result (λ _. IsTyped ctx.new) }
    ensures more { IfSome result (λ _. length ctx.old.ops ≤ length ctx.new.ops) }
{
    match step {
        Step::Block(number) => add_block(ctx, root, *number, None),
        Step::Label(number, label) => add_label(alloc, ctx, root, *number, label),
        Step::Func(name, linkage) => add_func(alloc, ctx, root, name, *linkage, steps),
        Step::Argument(at) => add_argument(ctx, root, *at),
        Step::Constant(at, width, value) => {
            constant(alloc, ctx, root, *at, *width, *value, steps)
        }
        Step::Double(at, operand) => double(ctx, root, *at, *operand, steps),
        Step::Named(op, name) => set_name(alloc, ctx, root, *op, name),
        Step::Br(at, to) => end(alloc, ctx, root, *at, None, &[*to], steps),
        Step::CondBr(at, condition, yes, no) => {
            end(alloc, ctx, root, *at, Some(*condition), &[*yes, *no], steps)
        }
        Step::Return(at) => end(alloc, ctx, root, *at, None, &[], steps),
    }
}

/// Takes steps in order.
fn take_all<L: Ledger>(
    alloc: Global,
    ctx: &mut Context,
    root: ModuleOp,
    row: &[Step],
    steps: &mut Steps<L>,
) -> Option<()>
    requires typed { IsTyped ctx.old }
    requires root { root.0.0 < length ctx.old.ops }
    ensures typed { IfSome result (λ _. IsTyped ctx.new) }
    ensures more { IfSome result (λ _. length ctx.old.ops ≤ length ctx.new.ops) }
{
    for step in row {
        take(alloc, ctx, root, step, steps)?;
    }
    Some(())
}

/// A module in an empty context, with nothing in it.
fn start(alloc: Global, ctx: &mut Context) -> Option<ModuleOp>
    requires empty { ctx.old ≡ empty_context }
    ensures typed { IfSome result (λ _. IsTyped ctx.new) }
    ensures there { IfSome result (λ root. root.0.0 < length ctx.new.ops) }
{
    ctx.create_module(identifier(alloc, &Name::M)?).ok()
}

/// Takes the steps of two rows in an empty context.
fn take_rows<L: Ledger>(
    alloc: Global,
    ctx: &mut Context,
    first: &[Step],
    then: &[Step],
    steps: &mut Steps<L>,
) -> Option<ModuleOp>
    requires empty { ctx.old ≡ empty_context }
    ensures typed { IfSome result (λ _. IsTyped ctx.new) }
    ensures there { IfSome result (λ root. root.0.0 < length ctx.new.ops) }
{
    let root = start(alloc, ctx)?;
    take_all(alloc, ctx, root, first, steps)?;
    take_all(alloc, ctx, root, then, steps)?;
    Some(root)
}

/// A module in an empty context, by the steps of two rows.
pub fn make<L: Ledger>(
    alloc: Global,
    ctx: &mut Context,
    first: &[Step],
    then: &[Step],
    blank: Blank,
) -> Option<ModuleOp>
    requires empty { ctx.old ≡ empty_context }
    requires blank_name { blank.name ≡ L.name }
    requires parts { blank.parts ≡ L.parts }
    requires some { 0 < L.parts }
    ensures typed { IfSome result (λ _. IsTyped ctx.new) }
    ensures there { IfSome result (λ root. root.0.0 < length ctx.new.ops) }
{
    let mut steps = Steps::<L>::new(blank);
    take_rows(alloc, ctx, first, then, &mut steps)
}
