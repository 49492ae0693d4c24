//! The constants of a function, hoisted to the start of its first block.

ghost use Rattle.std.specs.Prelude.{◌≡◌, ◌<◌, ◌≤◌, ◌+◌, ◌∷◌, ◌++◌, [], List, ℕ, IfOk, OnOk, All, length, map};
ghost use Rattle.std.specs.List.{filter_map, flat_map};
ghost use Rattle.llvm_core.specs.Sound.{IsModule};
ghost use Rattle.llvm_core.specs.Data.{AreApart, Block, ConstTree, Function, Placed, trees_of, const_at, const_type, operand_of, data_of};
ghost use Rattle.llvm_core.specs.Elements.{HasElements};
ghost use Rattle.dialect_types.specs.Trees.{structs_of, type_at, type_trees};
ghost use Rattle.dialect_core.specs.Data.{DialectBlock, DialectOp};
ghost use Rattle.from_llvm_ir.specs.Attrs.{IsTaken};
ghost use Rattle.from_llvm_ir.specs.Imported.{constant_in, constants_in, rest_of};
ghost use Rattle.from_llvm_ir.specs.Building.{Home, IsOpen, with_ops};
ghost use Rattle.from_llvm_ir.specs.Source.{IsSource, IsBlockOf, IsSite, IsUsed, AreEntries};
ghost use Rattle.from_llvm_ir.specs.Keeping.{Keeps};
ghost use Rattle.from_llvm_ir.specs.Known.{Frame, IsConstantOp, IsHeldConst, IsMaking};
ghost use Rattle.from_llvm_ir.specs.Types.{IsReadyFor, NamesAmong};
ghost use Rattle.from_llvm_ir.specs.Body.{IsFramed, IsHoisting, all_uses, uses_of_inst};

use crate::attrs::attr;
use crate::building::add_op;
use crate::entries::{Entries, used_values};
use crate::parts::is_phi;
use crate::types::import_plain;
use crate::values::Values;
use dialect_core::context::Context;
use dialect_core::numbers::{BlockRef, OpRef};
use dialect_core::ops::{OpKind, Value};
use dialect_core::steps::Steps;
use dialect_types::types::TypeHandle;
use llvm_core::code::LLVMValue;
use llvm_core::consts::LLVMConstKind;
use llvm_core::numbers::{LLVMBasicBlock, LLVMConst, LLVMFunction, LLVMInstRef};
use renamed_source::source::Source;
use std::alloc::{AllocError, Global};
use std::sync::ledger::Ledger;
use support::items::Items;
use support::short_list::ShortList;

/// The kind of an operation that makes a constant of that type: zero, undef or poison by the type of its result, and an attribute
/// of any other.
fn constant_kind(
    alloc: Global,
    ctx: &Context,
    source: &Source<'_>,
    c: LLVMConst,
    ty: TypeHandle,
) -> Result<OpKind, AllocError>
    requires within { c.0 < length source.now.consts }
    requires taken { IsTaken (structs_of ctx.now.types) (const_at (trees_of source.now).consts c) }
    requires below { ty.0 < length ctx.now.types }
    requires ty { type_at (type_trees ctx.now.types) ty ≡ const_type (const_at (trees_of source.now).consts c) }
    ensures { IfOk result (IsMaking ctx.now.types (const_at (trees_of source.now).consts c)) }
{
    if let LLVMConstKind::Filled(fill, _) = source.const_kind(c) {
        return Ok(OpKind::Filled(*fill));
    }
    OpKind::constant(alloc, attr(alloc, ctx.types(), source, c, ty)?)
}

/// A new last operation of the block that makes a constant.
fn add_constant<L: Ledger>(
    alloc: Global,
    ctx: &mut Context,
    source: &Source<'_>,
    block: BlockRef,
    c: LLVMConst,
    steps: &mut Steps<L>,
) -> Result<OpRef, AllocError>
    requires sound { IsModule source.now }
    requires within { c.0 < length source.now.consts }
    requires held { IsHeldConst (const_at (trees_of source.now).consts c) }
    requires elements { HasElements (structs_of ctx.old.types) (const_at (trees_of source.now).consts c) }
    requires ready { NamesAmong (structs_of ctx.old.types) (const_type (const_at (trees_of source.now).consts c)) }
    requires open { (h : Home) × (base : ℕ) × (left : List DialectBlock) × (now : DialectBlock) × (right : List DialectBlock) × IsOpen h base ctx.old block left now right }
    ensures made { IfOk result (λ o. (h : Home) → (base : ℕ) → (left : List DialectBlock) → (now : DialectBlock) → (right : List DialectBlock) → IsOpen h base ctx.old block left now right
        → (x : DialectOp) × (x.number ≡ o.0) × IsConstantOp (const_at (trees_of source.now).consts c) x × IsOpen h base ctx.new block left (with_ops now (now.ops ++ x ∷ [])) right) }
    ensures number { IfOk result (λ o. o.0 ≡ length ctx.old.ops) }
    ensures count { OnOk result (length ctx.new.ops ≡ length ctx.old.ops + 1) }
    ensures kept { (n b : ℕ) → b ≤ block.0 → Keeps n b ctx.old ctx.new }
{
    let ty = source.type_of(LLVMValue::Const(c));
    let made = import_plain(alloc, ctx, source, ty)?;
    let kind = constant_kind(alloc, ctx, source, c, made)?;
    let operands = ShortList::zero();
    let successors = Items::new(alloc);
    add_op(
        ctx,
        block,
        kind,
        operands,
        successors,
        Some(made),
        None,
        steps,
    )
}

/// Hoists a constant, unless it was met before.
fn hoist_constant<L: Ledger>(
    alloc: Global,
    ctx: &mut Context,
    source: &Source<'_>,
    values: &mut Values,
    block: BlockRef,
    c: LLVMConst,
    steps: &mut Steps<L>,
) -> Result<(), AllocError>
    requires sound { IsModule source.now }
    requires apart { AreApart source.now }
    requires within { c.0 < length source.now.consts }
    requires held { IsHeldConst (const_at (trees_of source.now).consts c) }
    requires elements { HasElements (structs_of ctx.old.types) (const_at (trees_of source.now).consts c) }
    requires ready { NamesAmong (structs_of ctx.old.types) (const_type (const_at (trees_of source.now).consts c)) }
    requires hoisting { (fr : Frame) × (uses : List ConstTree) × IsHoisting fr source.now ctx.old values.old uses × (block.0 ≡ fr.base) }
    ensures hoisting { OnOk result ((fr : Frame) → (uses : List ConstTree) → IsHoisting fr source.now ctx.old values.old uses → block.0 ≡ fr.base
        → IsHoisting fr source.now ctx.new values.new (uses ++ const_at (trees_of source.now).consts c ∷ [])) }
    ensures kept { (n b : ℕ) → b ≤ block.0 → Keeps n b ctx.old ctx.new }
{
    let value = LLVMValue::Const(c);
    if values.has(value) {
        return Ok(());
    }
    let op = add_constant(alloc, ctx, source, block, c, steps)?;
    values.set(value, Value::Result(op))
}

/// Hoists an operand, where it is a constant.
fn hoist<L: Ledger>(
    alloc: Global,
    ctx: &mut Context,
    source: &Source<'_>,
    values: &mut Values,
    block: BlockRef,
    operand: LLVMValue,
    steps: &mut Steps<L>,
) -> Result<(), AllocError>
    requires used { (f : LLVMFunction) × (g : Function) × IsSource source.now f g × IsReadyFor g (structs_of ctx.old.types) × IsUsed source.now g operand }
    requires hoisting { (fr : Frame) × (uses : List ConstTree) × IsHoisting fr source.now ctx.old values.old uses × (block.0 ≡ fr.base) }
    ensures hoisting { OnOk result ((fr : Frame) → (uses : List ConstTree) → IsHoisting fr source.now ctx.old values.old uses → block.0 ≡ fr.base
        → IsHoisting fr source.now ctx.new values.new (uses ++ filter_map constant_in (operand_of (trees_of source.now) operand ∷ []))) }
    ensures kept { (n b : ℕ) → b ≤ block.0 → Keeps n b ctx.old ctx.new }
{
    match operand {
        LLVMValue::Const(c) => hoist_constant(alloc, ctx, source, values, block, c, steps),
        LLVMValue::Param(..) | LLVMValue::Inst(_) => Ok(()),
    }
}

/// Hoists the constants among operands.
fn hoist_values<L: Ledger>(
    alloc: Global,
    ctx: &mut Context,
    source: &Source<'_>,
    values: &mut Values,
    block: BlockRef,
    operands: &[LLVMValue],
    steps: &mut Steps<L>,
) -> Result<(), AllocError>
    requires used { (f : LLVMFunction) × (g : Function) × IsSource source.now f g × IsReadyFor g (structs_of ctx.old.types) × All (IsUsed source.now g) operands.now }
    requires hoisting { (fr : Frame) × (uses : List ConstTree) × IsHoisting fr source.now ctx.old values.old uses × (block.0 ≡ fr.base) }
    ensures hoisting { OnOk result ((fr : Frame) → (uses : List ConstTree) → IsHoisting fr source.now ctx.old values.old uses → block.0 ≡ fr.base
        → IsHoisting fr source.now ctx.new values.new (uses ++ filter_map constant_in (map (operand_of (trees_of source.now)) operands.now))) }
    ensures kept { (n b : ℕ) → b ≤ block.0 → Keeps n b ctx.old ctx.new }
{
    for operand in operands {
        hoist(alloc, ctx, source, values, block, *operand, steps)?;
    }
    Ok(())
}

/// Hoists the constants that an instruction uses, if it is no phi.
fn hoist_inst<L: Ledger>(
    alloc: Global,
    ctx: &mut Context,
    source: &Source<'_>,
    entries: &Entries,
    values: &mut Values,
    block: BlockRef,
    from: LLVMBasicBlock,
    i: LLVMInstRef,
    steps: &mut Steps<L>,
) -> Result<(), AllocError>
    requires site { (f : LLVMFunction) × (g : Function) × (b : Block) × (p : Placed) × IsSite source.now f g entries.now from i b p × IsReadyFor g (structs_of ctx.old.types) }
    requires hoisting { (fr : Frame) × (uses : List ConstTree) × IsHoisting fr source.now ctx.old values.old uses × (block.0 ≡ fr.base) }
    ensures hoisting { OnOk result ((f : LLVMFunction) → (g : Function) → (b : Block) → (p : Placed) → IsSite source.now f g entries.now from i b p → (fr : Frame) → (uses : List ConstTree) → IsHoisting fr source.now ctx.old values.old uses → block.0 ≡ fr.base
        → IsHoisting fr source.now ctx.new values.new (uses ++ uses_of_inst (data_of source.now) g b p)) }
    ensures kept { (n b : ℕ) → b ≤ block.0 → Keeps n b ctx.old ctx.new }
{
    if is_phi(source.inst(i)) {
        return Ok(());
    }
    let used = used_values(alloc, source, entries, from, i)?;
    hoist_values(alloc, ctx, source, values, block, used.as_slice(), steps)
}

/// Hoists the constants that the instructions of a block use.
fn hoist_block<L: Ledger>(
    alloc: Global,
    ctx: &mut Context,
    source: &Source<'_>,
    entries: &Entries,
    values: &mut Values,
    block: BlockRef,
    from: LLVMBasicBlock,
    steps: &mut Steps<L>,
) -> Result<(), AllocError>
    requires site { (f : LLVMFunction) × (g : Function) × (place : ℕ) × (b : Block) × IsSource source.now f g × AreEntries source.now g entries.now × IsBlockOf source.now g from place b × IsReadyFor g (structs_of ctx.old.types) }
    requires hoisting { (fr : Frame) × (uses : List ConstTree) × IsHoisting fr source.now ctx.old values.old uses × (block.0 ≡ fr.base) }
    ensures hoisting { OnOk result ((f : LLVMFunction) → (g : Function) → (place : ℕ) → (b : Block) → IsSource source.now f g → AreEntries source.now g entries.now → IsBlockOf source.now g from place b → (fr : Frame) → (uses : List ConstTree) → IsHoisting fr source.now ctx.old values.old uses → block.0 ≡ fr.base
        → IsHoisting fr source.now ctx.new values.new (uses ++ flat_map (constants_in (data_of source.now) g b) (rest_of b))) }
    ensures kept { (n b : ℕ) → b ≤ block.0 → Keeps n b ctx.old ctx.new }
{
    for i in source.instructions(from) {
        hoist_inst(alloc, ctx, source, entries, values, block, from, *i, steps)?;
    }
    Ok(())
}

/// Hoists the constants that a function uses, once each, in order of first use over its blocks in an order.
pub fn hoist_constants<L: Ledger>(
    alloc: Global,
    ctx: &mut Context,
    source: &Source<'_>,
    entries: &Entries,
    values: &mut Values,
    block: BlockRef,
    f: LLVMFunction,
    order: &[u32],
    steps: &mut Steps<L>,
) -> Result<(), AllocError>
    requires { (fr : Frame) × IsFramed source.now f fr × (fr.order ≡ order.now) × AreEntries source.now fr.source entries.now × IsHoisting fr source.now ctx.old values.old [] × (block.0 ≡ fr.base) }
    ensures hoisting { OnOk result ((fr : Frame) → IsFramed source.now f fr → fr.order ≡ order.now → AreEntries source.now fr.source entries.now → IsHoisting fr source.now ctx.old values.old [] → block.0 ≡ fr.base
        → IsHoisting fr source.now ctx.new values.new (all_uses source.now fr)) }
    ensures kept { (n b : ℕ) → b ≤ block.0 → Keeps n b ctx.old ctx.new }
{
    let blocks = source.blocks(f);
    for place in order {
        hoist_block(
            alloc,
            ctx,
            source,
            entries,
            values,
            block,
            blocks[*place as usize],
            steps,
        )?;
    }
    Ok(())
}
