//! The operations of a function of the dialect, as rows of a body.

ghost use Rattle.std.specs.Prelude.{◌≡◌, ◌<◌, ℕ, List, All, IfOk, OnOk, IfSome, Some, length, map, slice_get};
ghost use Rattle.kinds.specs.Held.{IsFirstClass};
ghost use Rattle.dialect_types.specs.Trees.{TypeTree, VoidType, type_at, type_trees};
ghost use Rattle.dialect_core.specs.Data.{DialectBlock, DialectOp, FilledOp, RowOp, IsTyped, block_in, op_at, type_in};
ghost use Rattle.meaning.specs.Machine as machine;
ghost use Rattle.meaning.specs.Setting.{Setting};
ghost use Rattle.meaning.specs.Dialect as dialect;
ghost use Rattle.meaning.specs.Dialect.{option_type};
ghost use Rattle.tracing.specs.Types.{AllStand, Stands};
ghost use Rattle.tracing.specs.Contents.{Contents};
ghost use Rattle.tracing.specs.TypePlaces.{trees_in};
ghost use Rattle.tracing.specs.Tables.{AreGrown, AreTables, Origin, contents_in};
ghost use Rattle.tracing.specs.Bodies.{AreSources, IsAction, AreRows};
ghost use Rattle.tracing.specs.Renamed.{renamed_action, renamed_row};
ghost use Rattle.tracing.specs.DialectBodies.{origin_of, slot_of, InContext, AreOpsIn, IsOpIn, IsUsed, rows_of};

use crate::body::{Action, Row, Slot, Source};
use crate::dialect_constants::{constant, filled};
use crate::dialect_typing::place;
use crate::tables::Tables;
use crate::trace::Types;
use dialect_core::context::Context;
use dialect_core::numbers::{BlockRef, OpRef};
use dialect_core::ops::{OpKind, Value};
use dialect_types::types::TypeHandle;
use kinds::fill::Fill;
use kinds::op::Op;
use llvm_core::numbers::LLVMType;
use std::alloc::{AllocError, Global};
use support::items::Items;

/// The place of a type of values.
pub fn type_place(
    alloc: Global,
    tables: &mut Tables,
    ctx: &Context,
    ty: TypeHandle,
) -> Result<LLVMType, AllocError>
    requires within { ty.0 < length ctx.now.types }
    requires first_class { IsFirstClass (type_at (type_trees ctx.now.types) ty) }
    requires tables { AreTables (origin_of ctx.now) tables.old }
    ensures stands { IfOk result (λ t. Stands (trees_in tables.new.types) t (type_at (type_trees ctx.now.types) ty)) }
    ensures grown { OnOk result (AreGrown (origin_of ctx.now) tables.old tables.new) }
{
    place(alloc, &mut tables.types, ctx, ty)
}

/// The place of void.
fn void_place(tables: &mut Tables) -> Result<LLVMType, AllocError>
    ensures stands { IfOk result (λ t. Stands (trees_in tables.new.types) t VoidType) }
    ensures grown { OnOk result ((source : Origin) → AreTables source tables.old → AreGrown source tables.old tables.new) }
{
    tables.types.void()
}

/// The type of the result of an operation, void where it has none.
fn result_type(
    alloc: Global,
    tables: &mut Tables,
    ctx: &Context,
    op: OpRef,
) -> Result<LLVMType, AllocError>
    requires typed { IsTyped ctx.now }
    requires here { (o : DialectOp) × (op_at (type_trees ctx.now.types) ctx.now.ops op ≡ Some o) × IfSome o.result IsFirstClass }
    requires tables { AreTables (origin_of ctx.now) tables.old }
    ensures stands { IfOk result (λ t. (o : DialectOp) → op_at (type_trees ctx.now.types) ctx.now.ops op ≡ Some o → Stands (trees_in tables.new.types) t (option_type o.result)) }
    ensures grown { OnOk result (AreGrown (origin_of ctx.now) tables.old tables.new) }
{
    match ctx.result_type(op) {
        Some(ty) => type_place(alloc, tables, ctx, ty),
        None => void_place(tables),
    }
}

fn argument_type(
    alloc: Global,
    tables: &mut Tables,
    ctx: &Context,
    block: BlockRef,
    at: u32,
) -> Result<LLVMType, AllocError>
    requires typed { IsTyped ctx.now }
    requires here { (b : DialectBlock) × (type : TypeTree) × (block_in (type_trees ctx.now.types) ctx.now block ≡ Some b) × (slice_get b.args at ≡ Some type) × IsFirstClass type }
    requires tables { AreTables (origin_of ctx.now) tables.old }
    ensures stands { IfOk result (λ t. (b : DialectBlock) → (type : TypeTree) → block_in (type_trees ctx.now.types) ctx.now block ≡ Some b → slice_get b.args at ≡ Some type → Stands (trees_in tables.new.types) t type) }
    ensures grown { OnOk result (AreGrown (origin_of ctx.now) tables.old tables.new) }
{
    type_place(alloc, tables, ctx, ctx.block_args(block)[at as usize])
}

/// The type of a value, which the context gives it, whichever function it belongs to.
fn operand_type(
    alloc: Global,
    tables: &mut Tables,
    ctx: &Context,
    v: Value,
) -> Result<LLVMType, AllocError>
    requires typed { IsTyped ctx.now }
    requires used { IsUsed ctx.now v }
    requires tables { AreTables (origin_of ctx.now) tables.old }
    ensures stands { IfOk result (λ t. Stands (trees_in tables.new.types) t (option_type (type_in ctx.now v))) }
    ensures grown { OnOk result (AreGrown (origin_of ctx.now) tables.old tables.new) }
{
    match v {
        Value::Result(op) => result_type(alloc, tables, ctx, op),
        Value::Argument(block, at) => argument_type(alloc, tables, ctx, block, at),
    }
}

/// What sets the term of a value in a run.
pub fn slot(v: Value) -> Slot
    ensures { result ≡ slot_of v }
{
    match v {
        Value::Result(op) => Slot::Result(op.0),
        Value::Argument(block, place) => Slot::Input(block.0, place),
    }
}

fn operand_types(
    alloc: Global,
    tables: &mut Tables,
    ctx: &Context,
    values: &[Value],
) -> Result<Items<LLVMType>, AllocError>
    requires typed { IsTyped ctx.now }
    requires used { All (IsUsed ctx.now) values.now }
    requires tables { AreTables (origin_of ctx.now) tables.old }
    ensures stand { IfOk result (λ ts. AllStand (trees_in tables.new.types) ts (map (λ v. option_type (type_in ctx.now v)) values.now)) }
    ensures grown { OnOk result (AreGrown (origin_of ctx.now) tables.old tables.new) }
{
    let mut places = Items::new(alloc);
    for value in values {
        let place = operand_type(alloc, tables, ctx, *value)?;
        places.push(place)?;
    }
    Ok(places)
}

fn sources(alloc: Global, values: &[Value]) -> Result<Items<Source>, AllocError>
    ensures { IfOk result (λ ss. (now : Contents) → AreSources now ss (map (λ v. machine.At (slot_of v)) values.now)) }
{
    let mut sources = Items::new(alloc);
    for value in values {
        sources.push(Source::At(slot(*value)))?;
    }
    Ok(sources)
}

/// What an operation that is zero, undef or poison does: it holds that, of the type of its result.
fn filling(
    alloc: Global,
    tables: &mut Tables,
    ctx: &Context,
    op: OpRef,
    fill: Fill,
) -> Result<Action, AllocError>
    requires here { (h : InContext ctx.now) × (o : DialectOp) × IsOpIn ctx.now h op o × (o.kind ≡ FilledOp fill) }
    requires tables { AreTables (origin_of ctx.now) tables.old }
    ensures is { IfOk result (λ a. (setting : Setting) → (h : InContext ctx.now) → (o : DialectOp) → IsOpIn ctx.now h op o → IsAction (contents_in tables.new) a (renamed_action slot_of (dialect.typed_action setting (type_in ctx.now) o (FilledOp fill)))) }
    ensures grown { OnOk result (AreGrown (origin_of ctx.now) tables.old tables.new) }
{
    match ctx.result_type(op) {
        Some(ty) => {
            let place = filled(alloc, tables, ctx, fill, ty)?;
            Ok(Action::Holds(place))
        }
        None => unreachable!(),
    }
}

/// What an operation of a row of the table does: it applies that to its operands.
fn applied(
    alloc: Global,
    tables: &mut Tables,
    ctx: &Context,
    op: OpRef,
    row: Op,
) -> Result<Action, AllocError>
    requires here { (h : InContext ctx.now) × (o : DialectOp) × IsOpIn ctx.now h op o }
    requires tables { AreTables (origin_of ctx.now) tables.old }
    ensures is { IfOk result (λ a. (setting : Setting) → (h : InContext ctx.now) → (o : DialectOp) → IsOpIn ctx.now h op o → IsAction (contents_in tables.new) a (renamed_action slot_of (dialect.typed_action setting (type_in ctx.now) o (RowOp row)))) }
    ensures grown { OnOk result (AreGrown (origin_of ctx.now) tables.old tables.new) }
{
    let values = ctx.op_operands(op);
    let operand_types = operand_types(alloc, tables, ctx, values)?;
    let result_type = result_type(alloc, tables, ctx, op)?;
    let operands = sources(alloc, values)?;
    Ok(Action::Applies {
        op: row,
        types: Types {
            result: result_type,
            operands: operand_types,
        },
        operands,
    })
}

/// What an operation does.
fn action(
    alloc: Global,
    tables: &mut Tables,
    ctx: &Context,
    op: OpRef,
) -> Result<Action, AllocError>
    requires here { (h : InContext ctx.now) × (o : DialectOp) × IsOpIn ctx.now h op o }
    requires tables { AreTables (origin_of ctx.now) tables.old }
    ensures is { IfOk result (λ a. (setting : Setting) → (h : InContext ctx.now) → (o : DialectOp) → IsOpIn ctx.now h op o → IsAction (contents_in tables.new) a (renamed_action slot_of (dialect.typed_action setting (type_in ctx.now) o o.kind))) }
    ensures grown { OnOk result (AreGrown (origin_of ctx.now) tables.old tables.new) }
{
    match ctx.op_kind(op) {
        OpKind::Constant(value) => {
            // This tells the proof what is true of every store of types.
            let _count = ctx.types().len();
            let place = constant(alloc, tables, ctx, value.attr())?;
            Ok(Action::Holds(place))
        }
        OpKind::Filled(fill) => filling(alloc, tables, ctx, op, *fill),
        OpKind::Row(row) => applied(alloc, tables, ctx, op, *row),
        OpKind::Module | OpKind::Func => unreachable!(),
    }
}

/// The rows of the operations of a block.
pub fn rows(
    alloc: Global,
    tables: &mut Tables,
    ctx: &Context,
    ops: &[OpRef],
) -> Result<Items<Row>, AllocError>
    requires here { (h : InContext ctx.now) × (os : List DialectOp) × AreOpsIn ctx.now h ops.now os }
    requires tables { AreTables (origin_of ctx.now) tables.old }
    ensures rows { IfOk result (λ rows. (setting : Setting) → (h : InContext ctx.now) → (os : List DialectOp) → AreOpsIn ctx.now h ops.now os → AreRows (contents_in tables.new) rows (rows_of setting ctx.now os)) }
    ensures grown { OnOk result (AreGrown (origin_of ctx.now) tables.old tables.new) }
{
    let mut rows = Items::new(alloc);
    for op in ops {
        let action = action(alloc, tables, ctx, *op)?;
        rows.push(Row {
            action,
            result: Slot::Result(op.0),
        })?;
    }
    Ok(rows)
}
