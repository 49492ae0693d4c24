//! Dialect module to LLVM module.

ghost use Rattle.std.specs.Prelude.{◌≡◌, ◌<◌, ◌∷◌, [], ℕ, List, Some, None, All, length, map, IfOk, IfErr, OnOk};
ghost use Rattle.llvm_core.specs.Checked.{IsChecked};
ghost use Rattle.llvm_core.specs.Data as lists;
ghost use Rattle.llvm_core.specs.Data.{AreApart};
ghost use Rattle.llvm_core.specs.Sound.{IsModule};
ghost use Rattle.llvm_core.specs.Form.{IsForm};
ghost use Rattle.held_types.specs.Held.{AreHeld};
ghost use Rattle.dialect_types.specs.Trees.{structs_of, type_trees};
ghost use Rattle.dialect_core.specs.Data.{Func, DialectModule, IsTyped, llvm_name_of, func_in, data_of};
ghost use Rattle.dialect_core.specs.Form.{HasOnlyEntryConstants, HasTargets};
ghost use Rattle.dialect_core.specs.WellFormed.{IsOpenForm};
ghost use Rattle.meaning.specs.Pairs.{Matched};
ghost use Rattle.meaning.specs.Code.{SameCode, IsDistinctNames};
ghost use Rattle.meaning.specs.Examples.{same_places};
ghost use Rattle.meaning.specs.Llvm as llvm;
ghost use Rattle.meaning.specs.Dialect as dialect;
ghost use Rattle.to_llvm_ir.specs.Causes.{IsFuncCause};
ghost use Rattle.to_llvm_ir.specs.Exported.{IsExported, HasTraces, IsCause};
ghost use Rattle.to_llvm_ir.specs.Held.{IsReadable};
ghost use Rattle.to_llvm_ir.specs.Order.{IsTaken};
ghost use Rattle.to_llvm_ir.specs.Functions.{AddsFunction, AddsFunctions, IsRuledForm, IsStarted, functions_in};

use crate::bodies::convert_blocks;
use crate::conversion_context::ConversionContext;
use crate::edges::add_edges;
use crate::guesses::Guesses;
use crate::numbers::check_few;
use crate::opening::append_blocks;
use crate::operations::{llvm_name_of, name_of};
use crate::own::own_order;
use crate::room::make_room;
use crate::structs::convert_structs;
use crate::to_llvm_err::ToLLVMErr;
use crate::types::function_type;
use dialect_core::context::Context;
use dialect_core::numbers::{ModuleOp, OpRef};
use llvm_core::module::LLVMModule;
use llvm_core::numbers::LLVMFunction;
use std::alloc::{AllocError, Global};

/// A module that was exported.
#[derive(Drop)]
pub struct Exported {
    pub module: LLVMModule,
}

/// A function of the type and the LLVM name of that which an operation is, without blocks.
fn start_func(
    alloc: Global,
    ctx: &Context,
    op: OpRef,
    guesses: &mut Guesses,
    back: &mut LLVMModule,
) -> Result<LLVMFunction, AllocError>
    requires typed { IsTyped ctx.now }
    requires within { op.0 < length ctx.now.ops }
    requires form { (g : Func) × (func_in (type_trees ctx.now.types) ctx.now op ≡ Some g) × IsRuledForm ctx.now g }
    requires structs { (lists.data_of back.old).structs ≡ structs_of ctx.now.types }
    ensures { (g : Func) → func_in (type_trees ctx.now.types) ctx.now op ≡ Some g → IsRuledForm ctx.now g → (order : List ℕ) → IsTaken g order → IfOk result (λ f. IsStarted ctx.now g order f back.old back.new) }
{
    let ty = function_type(alloc, ctx, ctx.symbol_type(op), guesses, back)?;
    back.add_function(llvm_name_of(ctx, op), ty, 0)
}

/// The function that an operation is, as the last of the module, its blocks taken in the order.
fn convert_func(
    alloc: Global,
    ctx: &Context,
    op: OpRef,
    order: &[u32],
    cctx: &mut ConversionContext,
) -> Result<(), ToLLVMErr>
    requires typed { IsTyped ctx.now }
    requires within { op.0 < length ctx.now.ops }
    requires form { (g : Func) × (func_in (type_trees ctx.now.types) ctx.now op ≡ Some g) × IsRuledForm ctx.now g }
    requires taken { (g : Func) → func_in (type_trees ctx.now.types) ctx.now op ≡ Some g → IsTaken g order.now }
    requires structs { (lists.data_of cctx.old.«module»).structs ≡ structs_of ctx.now.types }
    ensures ok { (g : Func) → func_in (type_trees ctx.now.types) ctx.now op ≡ Some g → IsRuledForm ctx.now g → OnOk result (AddsFunction g (lists.data_of cctx.old.«module») (lists.data_of cctx.new.«module»)) }
    ensures cause { (g : Func) → func_in (type_trees ctx.now.types) ctx.now op ≡ Some g → IsRuledForm ctx.now g → IfErr result (IsFuncCause ctx.now g) }
{
    let list = ctx.op_blocks(op);
    check_few(list.len())?;
    check_few(cctx.module.functions() as usize)?;
    let f = start_func(alloc, ctx, op, &mut cctx.guesses, &mut cctx.module)?;
    cctx.blocks = append_blocks(alloc, ctx, list, f, &mut cctx.module)?;
    cctx.values = convert_blocks(
        alloc,
        ctx,
        list,
        order,
        f,
        &mut cctx.ops,
        &mut cctx.guesses,
        &cctx.blocks,
        &mut cctx.module,
    )?;
    add_edges(
        alloc,
        ctx,
        list,
        order,
        &mut cctx.ops,
        &cctx.blocks,
        &cctx.values,
        &mut cctx.module,
    )
}

/// The function that an operation is where it is one, as the last of the module.
fn convert_held(
    alloc: Global,
    ctx: &Context,
    op: OpRef,
    cctx: &mut ConversionContext,
) -> Result<(), ToLLVMErr>
    requires typed { IsTyped ctx.now }
    requires within { op.0 < length ctx.now.ops }
    requires form { (g : Func) → func_in (type_trees ctx.now.types) ctx.now op ≡ Some g → IsOpenForm ctx.now g }
    requires structs { (lists.data_of cctx.old.«module»).structs ≡ structs_of ctx.now.types }
    ensures ok { OnOk result (AddsFunctions (functions_in ctx.now (op ∷ [])) (lists.data_of cctx.old.«module») (lists.data_of cctx.new.«module»)) }
    ensures cause { IfErr result (λ e. (g : Func) → func_in (type_trees ctx.now.types) ctx.now op ≡ Some g → IsFuncCause ctx.now g e) }
    ensures skipped { func_in (type_trees ctx.now.types) ctx.now op ≡ None → result ≡ Ok tt }
{
    if !ctx.has_symbol(op) {
        return Ok(());
    }
    cctx.clear_per_function_data();
    let order = own_order(alloc, ctx, op, &mut cctx.ops)?;
    convert_func(alloc, ctx, op, order.as_slice(), cctx)
}

/// The functions among operations of a module, in order, as the last of the module.
fn convert_functions(
    alloc: Global,
    ctx: &Context,
    ops: &[OpRef],
    cctx: &mut ConversionContext,
) -> Result<(), ToLLVMErr>
    requires typed { IsTyped ctx.now }
    requires within { All (λ o. o.0 < length ctx.now.ops) ops.now }
    requires forms { All (IsOpenForm ctx.now) (functions_in ctx.now ops.now) }
    requires structs { (lists.data_of cctx.old.«module»).structs ≡ structs_of ctx.now.types }
    ensures ok { OnOk result (AddsFunctions (functions_in ctx.now ops.now) (lists.data_of cctx.old.«module») (lists.data_of cctx.new.«module»)) }
    ensures cause { (d : DialectModule) → d.functions ≡ functions_in ctx.now ops.now → IfErr result (IsCause ctx.now d) }
{
    for op in ops {
        convert_held(alloc, ctx, *op, cctx)?;
    }
    Ok(())
}

/// The functions that a module holds, in order, as the last of the LLVM module.
fn convert_held_functions(
    alloc: Global,
    ctx: &Context,
    module: ModuleOp,
    cctx: &mut ConversionContext,
) -> Result<(), ToLLVMErr>
    requires readable { IsReadable ctx.now «module».0.0 }
    requires structs { (lists.data_of cctx.old.«module»).structs ≡ structs_of ctx.now.types }
    ensures ok { OnOk result (AddsFunctions (data_of ctx.now «module».0.0).functions (lists.data_of cctx.old.«module») (lists.data_of cctx.new.«module»)) }
    ensures cause { IfErr result (IsCause ctx.now (data_of ctx.now «module».0.0)) }
{
    make_room(ctx, &mut cctx.module);
    let ops = ctx.held_ops(module.0)?;
    convert_functions(alloc, ctx, ops.as_slice(), cctx)
}

/// The numbers of a module name what is there, and equal types have equal numbers: its type keeps that. This only reads,
/// and is for the proof of its caller.
fn know_sound(m: &LLVMModule)
    ensures sound { IsModule m.now }
    ensures apart { AreApart m.now }
{
    let _ = m.types();
}

/// An LLVM module with the structs of the context, in the order in which they were made there, and with a function for each
/// function of a dialect module, in order, under its LLVM name. Each has the traces of its dialect function where that
/// reads no unset value, and for every list of choices where the constants all stand in the first block.
///
/// The blocks are taken in the order of the dialect where each value stands before its uses in it, else depth first.
/// `UndefinedValue` where a value is used where it does not stand before in this order, or is another function's;
/// `UndefinedBlock` where an edge leads to no block of its function; `NumBlockArgsNumPhisMismatch` where an edge
/// passes another number of values than its target has arguments; `EdgeArgsDiffer` where two edges of one block
/// pass different values to one block; `NoMemory` where memory is not enough.
pub fn convert_module(alloc: Global, ctx: &Context, module: ModuleOp) -> Result<Exported, ToLLVMErr>
    requires { IsReadable ctx.now «module».0.0 }
    ensures exported { IfOk result (λ x. IsExported (structs_of ctx.now.types) (data_of ctx.now «module».0.0) x.«module») }
    ensures traces { IfOk result (λ x. Matched (HasTraces (llvm.setting_of (lists.data_of x.«module»)) (dialect.setting_of (data_of ctx.now «module».0.0))) (data_of ctx.now «module».0.0).functions (lists.data_of x.«module»).functions) }
    ensures same { IsDistinctNames (map llvm_name_of (data_of ctx.now «module».0.0).functions) → All HasOnlyEntryConstants (data_of ctx.now «module».0.0).functions → IfOk result (λ x. SameCode same_places (llvm.code_of (lists.data_of x.«module»)) (dialect.code_of (data_of ctx.now «module».0.0))) }
    ensures form { All HasTargets (data_of ctx.now «module».0.0).functions → IfOk result (λ x. IsForm (lists.data_of x.«module»)) }
    ensures held { IfOk result (λ x. AreHeld (lists.data_of x.«module»)) }
    ensures checked { IsDistinctNames (map llvm_name_of (data_of ctx.now «module».0.0).functions) → All HasTargets (data_of ctx.now «module».0.0).functions → IfOk result (λ x. IsChecked x.«module») }
    ensures cause { IfErr result (λ e. IsCause ctx.now (data_of ctx.now «module».0.0) e) }
{
    let mut cctx = ConversionContext::new(alloc, name_of(ctx, module.0))?;
    convert_structs(alloc, ctx, &mut cctx.guesses, &mut cctx.module)?;
    convert_held_functions(alloc, ctx, module, &mut cctx)?;
    know_sound(&cctx.module);
    Ok(Exported {
        module: cctx.module,
    })
}
