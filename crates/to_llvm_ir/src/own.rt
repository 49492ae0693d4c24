//! Whether what a function uses are values of its own.

ghost use Rattle.std.specs.Prelude.{◌≡◌, ◌<◌, ◌↔◌, IsTrue, IfOk, IfErr, IfSome, OnOk, All, Some, length};
ghost use Rattle.dialect_types.specs.Trees.{type_trees};
ghost use Rattle.dialect_core.specs.ContextData.{IsValueWithin};
ghost use Rattle.dialect_core.specs.Data.{Func, IsTyped, func_in};
ghost use Rattle.dialect_core.specs.Form.{HasOwnValues};
ghost use Rattle.dialect_core.specs.WellFormed.{IsOpenForm};
ghost use Rattle.to_llvm_ir.specs.Causes.{IsFuncCause};
ghost use Rattle.to_llvm_ir.specs.Order.{IsTaken};
ghost use Rattle.to_llvm_ir.specs.Own.{IsForeignAmong, IsForeignAt, IsForeignIn, IsHeldBy};

use crate::operations::{given_name, is_block_op};
use crate::order::{counted, export_order, is_in_order};
use crate::to_llvm_err::ToLLVMErr;
use dialect_core::context::Context;
use dialect_core::numbers::OpRef;
use dialect_core::ops::Value;
use std::alloc::Global;

/// Whether what defines a value stands in a function. One look-up, of the block that it stands in.
fn is_held(ctx: &Context, func: OpRef, value: Value) -> bool
    requires value { IsValueWithin (length ctx.now.ops) (length ctx.now.blocks) value }
    ensures { IsTrue result ↔ IsHeldBy ctx.now func value }
{
    match value {
        Value::Result(op) => ctx.holds_op(func, op),
        Value::Argument(block, _) => ctx.holds_block(func, block),
    }
}

/// The first of some values that is not the function's.
fn foreign_among(ctx: &Context, func: OpRef, values: &[Value]) -> Option<Value>
    requires values { All (IsValueWithin (length ctx.now.ops) (length ctx.now.blocks)) values.now }
    ensures found { IsForeignAmong ctx.now func values.now result }
    ensures within { IfSome result (IsValueWithin (length ctx.now.ops) (length ctx.now.blocks)) }
{
    for value in values {
        if !is_held(ctx, func, *value) {
            return Some(*value);
        }
    }
    None
}

/// The first value that an operation uses, and that is not the function's: an operand, or a value that an edge passes. One
/// that is none of a function's block uses nothing.
fn foreign_at(ctx: &Context, func: OpRef, op: OpRef) -> Option<Value>
    requires { op.0 < length ctx.now.ops }
    ensures found { IsForeignAt ctx.now func op result }
    ensures within { IfSome result (IsValueWithin (length ctx.now.ops) (length ctx.now.blocks)) }
{
    if !is_block_op(ctx, op) {
        return None;
    }
    if let Some(value) = foreign_among(ctx, func, ctx.op_operands(op)) {
        return Some(value);
    }
    for edge in ctx.op_successors(op) {
        if let Some(value) = foreign_among(ctx, func, edge.args.as_slice()) {
            return Some(value);
        }
    }
    None
}

/// The first value that is used by one of some operations, and is not the function's.
fn foreign_in(ctx: &Context, func: OpRef, ops: &[OpRef]) -> Option<Value>
    requires { All (λ o. o.0 < length ctx.now.ops) ops.now }
    ensures found { IsForeignIn ctx.now func ops.now result }
    ensures within { IfSome result (IsValueWithin (length ctx.now.ops) (length ctx.now.blocks)) }
{
    for op in ops {
        if let Some(value) = foreign_at(ctx, func, *op) {
            return Some(value);
        }
    }
    None
}

/// Asks that each operand and each value that an edge passes is a value of the function. `UndefinedValue` with the
/// given name of one that is not: what another function defines stands before no use.
pub fn check_own(alloc: Global, ctx: &Context, func: OpRef) -> Result<(), ToLLVMErr>
    requires within { func.0 < length ctx.now.ops }
    requires typed { IsTyped ctx.now }
    requires form { (g : Func) × (func_in (type_trees ctx.now.types) ctx.now func ≡ Some g) × IsOpenForm ctx.now g }
    ensures own { (g : Func) → func_in (type_trees ctx.now.types) ctx.now func ≡ Some g → IsOpenForm ctx.now g → OnOk result (HasOwnValues g) }
    ensures cause { (g : Func) → func_in (type_trees ctx.now.types) ctx.now func ≡ Some g → IsOpenForm ctx.now g → IfErr result (IsFuncCause ctx.now g) }
{
    let list = ctx.op_blocks(func);
    let ops = ctx.held_ops(func)?;
    let Some(value) = foreign_in(ctx, func, ops.as_slice()) else {
        return Ok(());
    };
    // The cause speaks of the order in which the blocks would be taken.
    export_order(alloc, ctx, list, &mut Vec::new(alloc))?;
    Err(ToLLVMErr::UndefinedValue(given_name(alloc, ctx, value)?))
}

/// The order in which an export takes the blocks of a function, each of whose uses is of a value of its own: where each value
/// stands before its uses, it is, and else this is asked first. `UndefinedValue` as of `check_own`.
pub fn own_order(
    alloc: Global,
    ctx: &Context,
    func: OpRef,
    ops: &mut Vec<OpRef>,
) -> Result<Vec<u32>, ToLLVMErr>
    requires within { func.0 < length ctx.now.ops }
    requires typed { IsTyped ctx.now }
    requires form { (g : Func) × (func_in (type_trees ctx.now.types) ctx.now func ≡ Some g) × IsOpenForm ctx.now g }
    ensures taken { IfOk result (λ order. (g : Func) → func_in (type_trees ctx.now.types) ctx.now func ≡ Some g → IsOpenForm ctx.now g → IsTaken g order.items) }
    ensures own { (g : Func) → func_in (type_trees ctx.now.types) ctx.now func ≡ Some g → IsOpenForm ctx.now g → OnOk result (HasOwnValues g) }
    ensures cause { (g : Func) → func_in (type_trees ctx.now.types) ctx.now func ≡ Some g → IsOpenForm ctx.now g → IfErr result (IsFuncCause ctx.now g) }
{
    let list = ctx.op_blocks(func);
    if is_in_order(alloc, ctx, list, ops)? {
        let order = counted(alloc, list.len())?;
        return Ok(order);
    }
    check_own(alloc, ctx, func)?;
    let order = export_order(alloc, ctx, list, ops)?;
    Ok(order)
}
