//! Operations of a block, turned into constants and instructions.

ghost use Rattle.std.specs.Prelude.{◌≡◌, ◌<◌, ◌≤◌, ◌^◌, ◌+◌, ℕ, suc, List, false, Some, None, All, length, slice_get, IfOk, IfErr, IfSome, IsTrue, OnOk, map};
ghost use Rattle.std.specs.List.{filter_map};
ghost use Rattle.std.specs.Option.{option_map};
ghost use Rattle.llvm_core.specs.Module.{Module};
ghost use Rattle.llvm_core.specs.Sound.{IsModule};
ghost use Rattle.llvm_core.specs.Data.{data_of};
ghost use Rattle.kinds.specs.Names.{IsGoodOrNone};
ghost use Rattle.llvm_core.specs.Parts.{HasValues, result_type};
ghost use Rattle.dialect_types.specs.Trees.{TypeTree, type_trees};
ghost use Rattle.dialect_core.specs.declared.ops.OpKind.TheVariants as kinds;
ghost use Rattle.dialect_core.specs.ContextData.{kind_at, IsValueWithin, IsSuccessorWithin};
ghost use Rattle.dialect_core.specs.Data.{DialectBlock, DialectOp, IsTyped, op_at, name_at, symbol_name_at};
ghost use Rattle.dialect_core.specs.Form.{is_constant};
ghost use Rattle.meaning.specs.Pairs.{Matched};
ghost use Rattle.to_llvm_ir.specs.Growth.{Grows};
ghost use Rattle.to_llvm_ir.specs.Exported.{result_name, given_name};
ghost use Rattle.to_llvm_ir.specs.Accepted.{IsAcceptedOp};
ghost use Rattle.to_llvm_ir.specs.Causes.{IsFuncCause};
ghost use Rattle.to_llvm_ir.specs.States.{Task, Spot, IsSpot, IsNext, IsUsed, IsUse, AreUses, IsLead, IsWritten, IsMade, IsBegun, IsAtOp, IsBehindSpot, AreAllMapped, found};

use crate::blocks::{Blocks, find_target};
use crate::building::build_result;
use crate::constants::const_for;
use crate::guesses::Guesses;
use crate::to_llvm_err::ToLLVMErr;
use crate::types::value_type;
use crate::values::Values;
use const_attrs::const_attr::ConstAttr;
use dialect_core::context::Context;
use dialect_core::numbers::OpRef;
use dialect_core::ops::{OpKind, Successor, Value};
use dialect_types::types::TypeHandle;
use kinds::fill::Fill;
use kinds::op::Op;
use kinds::rules::Gives;
use llvm_core::code::{LLVMInst, LLVMValue, Row};
use llvm_core::consts::LLVMConstKind;
use llvm_core::module::LLVMModule;
use llvm_core::numbers::{LLVMBasicBlock, LLVMType};
use std::alloc::{AllocError, Global};
use support::short_list::ShortList;
use support::text::Text;

/// The name of an operation, empty where it has none.
pub fn name_of(ctx: &Context, op: OpRef) -> &str
    requires { op.0 < length ctx.now.ops }
    ensures { result.now ≡ name_at ctx.now.ops op.0 }
{
    match ctx.op_name(op) {
        Some(name) => name.as_str(),
        None => "",
    }
}

/// The LLVM name of a function: its own where no other is set.
pub fn llvm_name_of(ctx: &Context, op: OpRef) -> &str
    requires { op.0 < length ctx.now.ops }
    ensures { result.now ≡ symbol_name_at ctx.now.ops op }
{
    match ctx.llvm_symbol_name(op) {
        Some(name) => name,
        None => name_of(ctx, op),
    }
}

/// Whether an operation is one of a function's block, which a module and a function are not.
pub fn is_block_op(ctx: &Context, op: OpRef) -> bool
    requires { op.0 < length ctx.now.ops }
    ensures yes { IsTrue result → (o : DialectOp) × (op_at (type_trees ctx.now.types) ctx.now.ops op ≡ Some o) }
    ensures no { result ≡ false → op_at (type_trees ctx.now.types) ctx.now.ops op ≡ None }
{
    match ctx.op_kind(op) {
        OpKind::Module | OpKind::Func => false,
        _ => true,
    }
}

/// The given name of a value, empty where it has none.
pub fn given_name(alloc: Global, ctx: &Context, value: Value) -> Result<Text, AllocError>
    requires { IsValueWithin (length ctx.now.ops) (length ctx.now.blocks) value }
    ensures { IfOk result (λ name. name ≡ given_name ctx.now value) }
{
    match value {
        Value::Result(op) => Text::copy(alloc, name_of(ctx, op)),
        Value::Argument(..) => Text::copy(alloc, ""),
    }
}

/// What stands for a value that an operation uses. `UndefinedValue` where it does not stand before.
fn known(
    alloc: Global,
    ctx: &Context,
    value: Value,
    values: &Values,
) -> Result<LLVMValue, ToLLVMErr>
    requires { IsValueWithin (length ctx.now.ops) (length ctx.now.blocks) value }
    ensures found { IfOk result (λ x. found values.now value ≡ Some x) }
    ensures ok { (s : Spot) (op : OpRef) (m : Module) (type : TypeTree) → IsNext ctx.now op s values.now m → IsUsed s value type → IfOk result (IsUse s m value type) }
    ensures cause { (s : Spot) (op : OpRef) (m : Module) (type : TypeTree) → IsNext ctx.now op s values.now m → IsUsed s value type → IfErr result (IsFuncCause ctx.now s.task.source) }
{
    match values.get(value) {
        Some(stands) => Ok(stands),
        None => Err(ToLLVMErr::UndefinedValue(given_name(alloc, ctx, value)?)),
    }
}

/// The block that an edge leads to, whose values are known.
fn lead(
    alloc: Global,
    ctx: &Context,
    edge: &Successor,
    blocks: &Blocks,
    values: &Values,
) -> Result<LLVMBasicBlock, ToLLVMErr>
    requires { IsSuccessorWithin (length ctx.now.ops) (length ctx.now.blocks) edge.now }
    ensures ok { (s : Spot) (op : OpRef) (m : Module) (l : ℕ) → IsNext ctx.now op s values.now m → AreAllMapped s.task blocks.now → slice_get s.op.successors l ≡ Some edge.now → IfOk result (IsLead s m edge.now) }
    ensures cause { (s : Spot) (op : OpRef) (m : Module) (l : ℕ) → IsNext ctx.now op s values.now m → AreAllMapped s.task blocks.now → slice_get s.op.successors l ≡ Some edge.now → IfErr result (IsFuncCause ctx.now s.task.source) }
{
    for value in edge.args.as_slice() {
        known(alloc, ctx, *value, values)?;
    }
    let target = find_target(alloc, ctx, edge, blocks)?;
    Ok(target.block)
}

/// A constant of LLVM for a constant that an attribute says.
fn convert_constant(
    alloc: Global,
    ctx: &Context,
    op: OpRef,
    value: &ConstAttr,
    guesses: &mut Guesses,
    values: &mut Values,
    back: &mut LLVMModule,
) -> Result<(), AllocError>
    requires typed { IsTyped ctx.now }
    requires within { op.0 < length ctx.now.ops }
    requires kind { kind_at ctx.now.ops op ≡ Some (kinds.Constant value.now) }
    requires spot { (s : Spot) × IsNext ctx.now op s values.old back.old }
    ensures { (s : Spot) → IsNext ctx.now op s values.old back.old → OnOk result (IsBehindSpot s values.new back.new) }
{
    let Some(ty) = ctx.result_type(op) else {
        unreachable!();
    };
    let ty = value_type(alloc, ctx, ty, guesses, back)?;
    let c = const_for(alloc, value, ty, back)?;
    values.set(Value::Result(op), LLVMValue::Const(c))
}

/// Zero, undef or poison of LLVM, of the type of the result, for an operation that makes it.
fn convert_filled(
    alloc: Global,
    ctx: &Context,
    op: OpRef,
    fill: Fill,
    guesses: &mut Guesses,
    values: &mut Values,
    back: &mut LLVMModule,
) -> Result<(), AllocError>
    requires typed { IsTyped ctx.now }
    requires within { op.0 < length ctx.now.ops }
    requires kind { kind_at ctx.now.ops op ≡ Some (kinds.Filled fill) }
    requires spot { (s : Spot) × IsNext ctx.now op s values.old back.old }
    ensures { (s : Spot) → IsNext ctx.now op s values.old back.old → OnOk result (IsBehindSpot s values.new back.new) }
{
    let Some(ty) = ctx.result_type(op) else {
        unreachable!();
    };
    let ty = value_type(alloc, ctx, ty, guesses, back)?;
    let c = back.const_get(LLVMConstKind::Filled(fill, ty))?;
    values.set(Value::Result(op), LLVMValue::Const(c))
}

/// What stands for the values that an operation takes, in order, however many.
fn known_each(
    alloc: Global,
    ctx: &Context,
    operands: &[Value],
    values: &Values,
) -> Result<ShortList<LLVMValue>, ToLLVMErr>
    requires within { All (IsValueWithin (length ctx.now.ops) (length ctx.now.blocks)) operands.now }
    ensures ok { (s : Spot) (op : OpRef) (m : Module) → IsNext ctx.now op s values.now m → s.op.operands ≡ operands.now → IfOk result (AreUses s m operands.now) }
    ensures cause { (s : Spot) (op : OpRef) (m : Module) → IsNext ctx.now op s values.now m → s.op.operands ≡ operands.now → IfErr result (IsFuncCause ctx.now s.task.source) }
{
    let mut stand = ShortList::zero();
    for operand in operands {
        stand.push(alloc, known(alloc, ctx, *operand, values)?)?;
    }
    Ok(stand)
}

/// What stands for one value or for two, where it is known.
#[inline(always)]
fn known_few(operands: &[Value], values: &Values) -> Option<ShortList<LLVMValue>>
    ensures { IfSome result (λ xs. map (found values.now) operands.now ≡ map Some xs) }
{
    match operands {
        [value] => Some(ShortList::one(values.get(*value)?)),
        [left, right] => Some(ShortList::two(values.get(*left)?, values.get(*right)?)),
        _ => None,
    }
}

/// What stands for the values that an operation takes, in order. Most take one or two, which make their list at once.
#[inline(always)]
fn known_all(
    alloc: Global,
    ctx: &Context,
    operands: &[Value],
    values: &Values,
) -> Result<ShortList<LLVMValue>, ToLLVMErr>
    requires within { All (IsValueWithin (length ctx.now.ops) (length ctx.now.blocks)) operands.now }
    ensures ok { (s : Spot) (op : OpRef) (m : Module) → IsNext ctx.now op s values.now m → s.op.operands ≡ operands.now → IfOk result (AreUses s m operands.now) }
    ensures cause { (s : Spot) (op : OpRef) (m : Module) → IsNext ctx.now op s values.now m → s.op.operands ≡ operands.now → IfErr result (IsFuncCause ctx.now s.task.source) }
{
    match known_few(operands, values) {
        Some(stand) => Ok(stand),
        None => known_each(alloc, ctx, operands, values),
    }
}

/// The blocks that the edges of an operation lead to, in order.
fn leads(
    alloc: Global,
    ctx: &Context,
    edges: &[Successor],
    blocks: &Blocks,
    values: &Values,
) -> Result<ShortList<LLVMBasicBlock>, ToLLVMErr>
    requires within { All (IsSuccessorWithin (length ctx.now.ops) (length ctx.now.blocks)) edges.now }
    ensures ok { (s : Spot) (op : OpRef) (m : Module) → IsNext ctx.now op s values.now m → AreAllMapped s.task blocks.now → s.op.successors ≡ edges.now → IfOk result (Matched (IsLead s m) edges.now) }
    ensures cause { (s : Spot) (op : OpRef) (m : Module) → IsNext ctx.now op s values.now m → AreAllMapped s.task blocks.now → s.op.successors ≡ edges.now → IfErr result (IsFuncCause ctx.now s.task.source) }
{
    let mut targets = ShortList::zero();
    for edge in edges {
        targets.push(alloc, lead(alloc, ctx, edge, blocks, values)?)?;
    }
    Ok(targets)
}

/// The type that the row of an operation writes: that of its result, or none.
fn written_type(
    alloc: Global,
    ctx: &Context,
    op: OpRef,
    gives: Gives,
    guesses: &mut Guesses,
    back: &mut LLVMModule,
) -> Result<Option<LLVMType>, AllocError>
    requires typed { IsTyped ctx.now }
    requires within { op.0 < length ctx.now.ops }
    requires spot { (s : Spot) × IsSpot ctx.now op s }
    requires sound { IsModule back.old }
    ensures written { (s : Spot) → IsSpot ctx.now op s → IfOk result (IsWritten back.new gives s.op.result) }
    ensures grows { OnOk result (Grows back.old back.new) }
    ensures rest { OnOk result (back.new ≡ record back.old { types = back.new.types }) }
    ensures data { OnOk result (data_of back.new ≡ data_of back.old) }
    ensures sound { OnOk result (IsModule back.new) }
{
    match gives {
        Gives::Written => match ctx.result_type(op) {
            Some(ty) => Ok(Some(value_type(alloc, ctx, ty, guesses, back)?)),
            None => Ok(None),
        },
        _ => Ok(None),
    }
}

/// The row that an operation becomes, which is that of its own row of the table.
fn convert_row(
    alloc: Global,
    ctx: &Context,
    op: OpRef,
    held: Op,
    guesses: &mut Guesses,
    blocks: &Blocks,
    values: &Values,
    back: &mut LLVMModule,
) -> Result<LLVMInst, ToLLVMErr>
    requires typed { IsTyped ctx.now }
    requires within { op.0 < length ctx.now.ops }
    requires kind { kind_at ctx.now.ops op ≡ Some (kinds.Row held) }
    requires spot { (s : Spot) × IsNext ctx.now op s values.now back.old }
    ensures next { (s : Spot) → IsNext ctx.now op s values.now back.old → OnOk result (IsNext ctx.now op s values.now back.new) }
    ensures ok { (s : Spot) → IsNext ctx.now op s values.now back.old → AreAllMapped s.task blocks.now → IfOk result (IsMade s back.new) }
    ensures cause { (s : Spot) → IsNext ctx.now op s values.now back.old → AreAllMapped s.task blocks.now → IfErr result (IsFuncCause ctx.now s.task.source) }
{
    let written = written_type(alloc, ctx, op, held.rule().gives, guesses, back)?;
    let operands = known_all(alloc, ctx, ctx.op_operands(op), values)?;
    let targets = leads(alloc, ctx, ctx.op_successors(op), blocks, values)?;
    Ok(LLVMInst::Row(Row {
        op: held,
        written,
        operands,
        targets,
    }))
}

/// Appends the instruction that an operation became, under its name where it has a result.
fn place_inst(
    alloc: Global,
    ctx: &Context,
    op: OpRef,
    inst: LLVMInst,
    block: LLVMBasicBlock,
    values: &mut Values,
    back: &mut LLVMModule,
) -> Result<(), AllocError>
    requires within { op.0 < length ctx.now.ops }
    requires spot { (s : Spot) × IsNext ctx.now op s values.old back.old × IsMade s back.old inst × (block.0 ≡ s.task.numbers.block + s.place) }
    ensures ok { (s : Spot) → IsNext ctx.now op s values.old back.old → IsMade s back.old inst → block.0 ≡ s.task.numbers.block + s.place → OnOk result (IsBehindSpot s values.new back.new) }
    ensures named { (s : Spot) → IsSpot ctx.now op s → OnOk result ((k : ℕ) → k < 2 ^ 64 → IsGoodOrNone (result_name s.op.name s.op.result k)) }
{
    if ctx.result_type(op).is_none() {
        back.build(block, inst, "")?;
        return Ok(());
    }
    let i = build_result(alloc, ctx.op_name(op), values.next, block, inst, back)?;
    values.set(Value::Result(op), LLVMValue::Inst(i))
}

/// What an operation becomes. A module or a function is no operation of a block.
fn convert_op(
    alloc: Global,
    ctx: &Context,
    op: OpRef,
    guesses: &mut Guesses,
    blocks: &Blocks,
    block: LLVMBasicBlock,
    values: &mut Values,
    back: &mut LLVMModule,
) -> Result<(), ToLLVMErr>
    requires typed { IsTyped ctx.now }
    requires within { op.0 < length ctx.now.ops }
    requires spot { (o : DialectOp) → op_at (type_trees ctx.now.types) ctx.now.ops op ≡ Some o → (s : Spot) × IsNext ctx.now op s values.old back.old × AreAllMapped s.task blocks.now × (block.0 ≡ s.task.numbers.block + s.place) }
    ensures skipped { op_at (type_trees ctx.now.types) ctx.now.ops op ≡ None → (result ≡ Ok tt) × (values.new ≡ values.old) × (back.new ≡ back.old) }
    ensures ok { (s : Spot) → IsNext ctx.now op s values.old back.old → AreAllMapped s.task blocks.now → block.0 ≡ s.task.numbers.block + s.place → OnOk result (IsBehindSpot s values.new back.new) }
    ensures accepted { (s : Spot) → IsNext ctx.now op s values.old back.old → AreAllMapped s.task blocks.now → OnOk result (IsAcceptedOp s.task.numbers.order s.task.source s.place s.at s.op) }
    ensures cause { (s : Spot) → IsNext ctx.now op s values.old back.old → AreAllMapped s.task blocks.now → IfErr result (IsFuncCause ctx.now s.task.source) }
{
    match ctx.op_kind(op) {
        OpKind::Module | OpKind::Func => Ok(()),
        OpKind::Constant(value) => {
            convert_constant(alloc, ctx, op, value.attr(), guesses, values, back)?;
            Ok(())
        }
        OpKind::Filled(fill) => {
            convert_filled(alloc, ctx, op, *fill, guesses, values, back)?;
            Ok(())
        }
        OpKind::Row(held) => {
            let inst = convert_row(alloc, ctx, op, *held, guesses, blocks, values, back)?;
            place_inst(alloc, ctx, op, inst, block, values, back)?;
            Ok(())
        }
    }
}

/// What the operations of a block become, in order.
pub fn convert_ops(
    alloc: Global,
    ctx: &Context,
    ops: &[OpRef],
    guesses: &mut Guesses,
    blocks: &Blocks,
    block: LLVMBasicBlock,
    values: &mut Values,
    back: &mut LLVMModule,
) -> Result<(), ToLLVMErr>
    requires typed { IsTyped ctx.now }
    requires within { All (λ o. o.0 < length ctx.now.ops) ops.now }
    requires begun { (t : Task) × (j : ℕ) × (c : DialectBlock) × IsBegun ctx.now t j c ops.now blocks.now block values.old back.old }
    ensures ok { (t : Task) (j : ℕ) (c : DialectBlock) → IsBegun ctx.now t j c ops.now blocks.now block values.old back.old → OnOk result (IsAtOp t j c (length c.ops) values.new back.new) }
    ensures accepted { (t : Task) (j : ℕ) (c : DialectBlock) → IsBegun ctx.now t j c ops.now blocks.now block values.old back.old → OnOk result ((i : ℕ) (o : DialectOp) → slice_get c.ops i ≡ Some o → IsAcceptedOp t.numbers.order t.source j i o) }
    ensures cause { (t : Task) (j : ℕ) (c : DialectBlock) → IsBegun ctx.now t j c ops.now blocks.now block values.old back.old → IfErr result (IsFuncCause ctx.now t.source) }
{
    for op in ops {
        convert_op(alloc, ctx, *op, guesses, blocks, block, values, back)?;
    }
    Ok(())
}
