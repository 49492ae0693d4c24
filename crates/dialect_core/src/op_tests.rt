//! Tests of operations: whether the operands, the result and the successors of one are those of its kind.

ghost use Rattle.std.specs.Prelude.{◌≡◌, ◌<◌, ◌↔◌, IsTrue, true, All, IfSome, Some, length};
ghost use Rattle.std.specs.Option.{option_map, option_map_or};
ghost use Rattle.kinds.specs.Rules.{operand_count};
ghost use Rattle.kinds.specs.Types.{TypeTree, VoidType, shape, laned, bits_of, result_of as returned_by};
ghost use Rattle.kinds.specs.Held.{IsFirstClass};
ghost use Rattle.kinds.specs.Typing.{written_for};
ghost use Rattle.dialect_types.specs.Trees.{type_at, type_trees};
ghost use Rattle.const_attrs.specs.Trees.{attr_tree, attr_data, HasTypesBelow};
ghost use Rattle.dialect_core.specs.ContextData.{IsValueWithin, IsSuccessorWithin, IsSymbol};
ghost use Rattle.dialect_core.specs.Data.{Func, IsTyped, HasKindTypesBelow, ConstantOp, type_in};
ghost use Rattle.dialect_core.specs.Rules.{IsFirstClassBy, IsFilled, IsOfKind, IsReturning, IsRow, returns_void, row_fits, row_result, type_nth};
ghost use Rattle.dialect_core.specs.Checking.{IsConstantOf, IsKindAt, IsOpAt, ends_kind, func_at, tree_at};

use crate::context::Context;
use crate::numbers::OpRef;
use crate::ops::{OpKind, Successor, Value};
use crate::type_tests::{is_bits_of, is_first_class, laned_at, same_type, shape_at};
use crate::value_tests::{edges_fit, has_type, type_of};
use const_attrs::const_attr::ConstAttr;
use dialect_types::type_store::TypeStore;
use dialect_types::types::{TypeHandle, TypeKind};
use kinds::fitting::{TypeView, fits, is_nothing};
use kinds::op::Op;
use kinds::rules::{Gives, Takes};

/// Whether a constant has the type of its operation, which is one of values.
fn constant_fits(types: &TypeStore, value: &ConstAttr, own: Option<TypeHandle>) -> bool
    requires value { HasTypesBelow (length types.now) (attr_data value.now) }
    requires own { IfSome own (λ t. t.0 < length types.now) }
    ensures { IsTrue result ↔ IsConstantOf (option_map (type_at (type_trees types.now)) own) (attr_tree (type_trees types.now) (attr_data value.now)) }
{
    match own {
        Some(ty) => value.has_type(types, ty) && is_first_class(types, ty),
        None => false,
    }
}

/// The type of the value at a place.
fn type_nth(ctx: &Context, values: &[Value], place: usize) -> Option<TypeHandle>
    requires values { All (IsValueWithin (length ctx.now.ops) (length ctx.now.blocks)) values.now }
    requires typed { IsTyped ctx.now }
    ensures value { option_map (tree_at ctx.now) result ≡ type_nth (type_in ctx.now) values.now place }
    ensures within { IfSome result (λ t. t.0 < length ctx.now.types) }
{
    match values.get(place) {
        Some(value) => type_of(ctx, *value),
        None => None,
    }
}

/// A type as rules see it.
fn view_some(ctx: &Context, ty: Option<TypeHandle>) -> Option<TypeView>
    requires { IfSome ty (λ t. t.0 < length ctx.now.types) }
    ensures { result ≡ option_map (λ t. record { number = t.0; laned = laned (tree_at ctx.now t) }) ty }
{
    match ty {
        Some(ty) => Some(TypeView {
            number: ty.0,
            laned: laned_at(ctx.types(), ty),
        }),
        None => None,
    }
}

/// The type that a row writes: that of its result, or none.
fn written_for(gives: Gives, own: Option<TypeHandle>) -> Option<TypeHandle>
    ensures { result ≡ written_for gives own }
{
    match gives {
        Gives::Written => own,
        Gives::Nothing => None,
        Gives::First => None,
        Gives::Second => None,
        Gives::Bits => None,
    }
}

/// Whether the types of the operands fit the row, beside the type of its result where it writes that.
fn operands_fit(ctx: &Context, op: Op, operands: &[Value], own: Option<TypeHandle>) -> bool
    requires operands { All (IsValueWithin (length ctx.now.ops) (length ctx.now.blocks)) operands.now }
    requires own { IfSome own (λ t. t.0 < length ctx.now.types) }
    requires typed { IsTyped ctx.now }
    ensures { result ≡ row_fits (type_in ctx.now) op (option_map (tree_at ctx.now) own) operands.now }
{
    let _count = ctx.types().len();
    let rule = op.rule();
    let written = view_some(ctx, written_for(rule.gives, own));
    let first = view_some(ctx, type_nth(ctx, operands, 0));
    let second = view_some(ctx, type_nth(ctx, operands, 1));
    let third = view_some(ctx, type_nth(ctx, operands, 2));
    fits(rule, operands.len(), written, first, second, third)
}

/// Whether the result has the type that the row gives it.
fn is_given(ctx: &Context, op: Op, operands: &[Value], own: Option<TypeHandle>) -> bool
    requires operands { All (IsValueWithin (length ctx.now.ops) (length ctx.now.blocks)) operands.now }
    requires own { IfSome own (λ t. t.0 < length ctx.now.types) }
    requires typed { IsTyped ctx.now }
    ensures { IsTrue result ↔ (option_map (tree_at ctx.now) own ≡ row_result (type_in ctx.now) op (option_map (tree_at ctx.now) own) operands.now) }
{
    match op.rule().gives {
        Gives::Nothing => own.is_none(),
        Gives::First => same_option(ctx, own, type_nth(ctx, operands, 0)),
        Gives::Second => same_option(ctx, own, type_nth(ctx, operands, 1)),
        Gives::Written => true,
        Gives::Bits => gives_bits(ctx.types(), own, type_nth(ctx, operands, 0)),
    }
}

/// Whether both are the same type, or there is none.
fn same_option(ctx: &Context, a: Option<TypeHandle>, b: Option<TypeHandle>) -> bool
    requires left { IfSome a (λ t. t.0 < length ctx.now.types) }
    requires right { IfSome b (λ t. t.0 < length ctx.now.types) }
    ensures { IsTrue result ↔ option_map (tree_at ctx.now) a ≡ option_map (tree_at ctx.now) b }
{
    match (a, b) {
        (Some(a), Some(b)) => same_type(ctx.types(), a, b),
        (None, None) => true,
        _ => false,
    }
}

/// Whether an operation has the type of bits, as many as its first operand has lanes, or there is neither.
fn gives_bits(types: &TypeStore, own: Option<TypeHandle>, first: Option<TypeHandle>) -> bool
    requires own { IfSome own (λ t. t.0 < length types.now) }
    requires first { IfSome first (λ t. t.0 < length types.now) }
    ensures { IsTrue result ↔ option_map (type_at (type_trees types.now)) own ≡ option_map bits_of (option_map (type_at (type_trees types.now)) first) }
{
    match (own, first) {
        (Some(ty), Some(of)) => is_bits_of(types, ty, of),
        (None, None) => true,
        _ => false,
    }
}

/// Whether a result, where there is one, has the type of a value.
fn is_first_class_or_none(types: &TypeStore, own: Option<TypeHandle>) -> bool
    requires { IfSome own (λ t. t.0 < length types.now) }
    ensures { IsTrue result ↔ IfSome (option_map (type_at (type_trees types.now)) own) IsFirstClass }
{
    match own {
        Some(ty) => is_first_class(types, ty),
        None => true,
    }
}

/// Whether a value has a first class type.
fn is_first_class_value(ctx: &Context, value: Value) -> bool
    requires value { IsValueWithin (length ctx.now.ops) (length ctx.now.blocks) value }
    requires typed { IsTyped ctx.now }
    ensures { IsTrue result ↔ IsFirstClassBy (type_in ctx.now) value }
{
    match type_of(ctx, value) {
        Some(ty) => is_first_class(ctx.types(), ty),
        None => false,
    }
}

/// Whether each value has a first class type.
fn are_first_class(ctx: &Context, values: &[Value]) -> bool
    requires values { All (IsValueWithin (length ctx.now.ops) (length ctx.now.blocks)) values.now }
    requires typed { IsTyped ctx.now }
    ensures { IsTrue result ↔ All (IsFirstClassBy (type_in ctx.now)) values.now }
{
    for value in values {
        if !is_first_class_value(ctx, *value) {
            return false;
        }
    }
    true
}

/// What a function returns by its type; void where that is no function type.
fn returned(ctx: &Context, func: OpRef) -> Option<TypeHandle>
    requires func { IsSymbol ctx.now.ops func }
    requires within { func.0 < length ctx.now.ops }
    requires typed { IsTyped ctx.now }
    ensures ty { option_map_or (tree_at ctx.now) result VoidType ≡ returned_by (func_at ctx.now func).type }
    ensures within { IfSome result (λ t. t.0 < length ctx.now.types) }
{
    match ctx.types().kind(ctx.symbol_type(func)) {
        TypeKind::Func {
            result: returned,
            ..
        } => Some(*returned),
        _ => None,
    }
}

/// Whether a function returns nothing.
fn returns_void(ctx: &Context, func: OpRef) -> bool
    requires func { IsSymbol ctx.now.ops func }
    requires within { func.0 < length ctx.now.ops }
    requires typed { IsTyped ctx.now }
    ensures { result ≡ returns_void (func_at ctx.now func) }
{
    match returned(ctx, func) {
        Some(ty) => is_nothing(shape_at(ctx.types(), ty)),
        None => true,
    }
}

/// Whether a value is of the type void.
fn is_void_value(ctx: &Context, value: Value) -> bool
    requires value { IsValueWithin (length ctx.now.ops) (length ctx.now.blocks) value }
    requires typed { IsTyped ctx.now }
    ensures { IsTrue result ↔ (type_in ctx.now value ≡ Some VoidType) }
{
    match type_of(ctx, value) {
        Some(ty) => is_nothing(shape_at(ctx.types(), ty)),
        None => false,
    }
}

/// Whether a value has the type, which is void where none is given.
fn has_returned(ctx: &Context, value: Value, ty: Option<TypeHandle>) -> bool
    requires value { IsValueWithin (length ctx.now.ops) (length ctx.now.blocks) value }
    requires ty { IfSome ty (λ t. t.0 < length ctx.now.types) }
    requires typed { IsTyped ctx.now }
    ensures { IsTrue result ↔ (type_in ctx.now value ≡ Some (option_map_or (tree_at ctx.now) ty VoidType)) }
{
    match ty {
        Some(ty) => has_type(ctx, value, ty),
        None => is_void_value(ctx, value),
    }
}

/// Whether each value has the type that the function returns.
fn all_returned(ctx: &Context, func: OpRef, values: &[Value]) -> bool
    requires func { IsSymbol ctx.now.ops func }
    requires within { func.0 < length ctx.now.ops }
    requires values { All (IsValueWithin (length ctx.now.ops) (length ctx.now.blocks)) values.now }
    requires typed { IsTyped ctx.now }
    ensures { IsTrue result ↔ All (λ v. type_in ctx.now v ≡ Some (returned_by (func_at ctx.now func).type)) values.now }
{
    let ty = returned(ctx, func);
    for value in values {
        if !has_returned(ctx, *value, ty) {
            return false;
        }
    }
    true
}

/// Whether a return has only values of the type that the function returns.
fn is_returning(ctx: &Context, func: OpRef, takes: Takes, operands: &[Value]) -> bool
    requires func { IsSymbol ctx.now.ops func }
    requires within { func.0 < length ctx.now.ops }
    requires operands { All (IsValueWithin (length ctx.now.ops) (length ctx.now.blocks)) operands.now }
    requires typed { IsTyped ctx.now }
    ensures { IsTrue result ↔ IsReturning takes (type_in ctx.now) (returned_by (func_at ctx.now func).type) operands.now }
{
    match takes {
        Takes::Nothing => true,
        Takes::One(_) => true,
        Takes::Two(..) => true,
        Takes::Three(..) => true,
        Takes::Return => all_returned(ctx, func, operands),
    }
}

/// Whether there are as many operands as a row takes, all of first class types, and a return has what its function returns.
fn operands_taken(ctx: &Context, func: OpRef, takes: Takes, operands: &[Value]) -> bool
    requires func { IsSymbol ctx.now.ops func }
    requires within { func.0 < length ctx.now.ops }
    requires operands { All (IsValueWithin (length ctx.now.ops) (length ctx.now.blocks)) operands.now }
    requires typed { IsTyped ctx.now }
    ensures { IsTrue result ↔ All (IsFirstClassBy (type_in ctx.now)) operands.now × (length operands.now ≡ operand_count takes (returns_void (func_at ctx.now func))) × IsReturning takes (type_in ctx.now) (returned_by (func_at ctx.now func).type) operands.now }
{
    operands.len() == takes.operand_count(returns_void(ctx, func))
        && are_first_class(ctx, operands)
        && is_returning(ctx, func, takes, operands)
}

/// Whether the types of the operands and of the result are those of the row.
fn types_fit(ctx: &Context, op: Op, operands: &[Value], own: Option<TypeHandle>) -> bool
    requires operands { All (IsValueWithin (length ctx.now.ops) (length ctx.now.blocks)) operands.now }
    requires own { IfSome own (λ t. t.0 < length ctx.now.types) }
    requires typed { IsTyped ctx.now }
    ensures { IsTrue result ↔ (row_fits (type_in ctx.now) op (option_map (tree_at ctx.now) own) operands.now ≡ true) × (option_map (tree_at ctx.now) own ≡ row_result (type_in ctx.now) op (option_map (tree_at ctx.now) own) operands.now) × IfSome (option_map (tree_at ctx.now) own) IsFirstClass }
{
    operands_fit(ctx, op, operands, own)
        && is_given(ctx, op, operands, own)
        && is_first_class_or_none(ctx.types(), own)
}

/// Whether an operation keeps the rule of its row.
fn row_fits(
    ctx: &Context,
    func: OpRef,
    op: Op,
    operands: &[Value],
    own: Option<TypeHandle>,
    edges: &[Successor],
) -> bool
    requires func { IsSymbol ctx.now.ops func }
    requires within { func.0 < length ctx.now.ops }
    requires operands { All (IsValueWithin (length ctx.now.ops) (length ctx.now.blocks)) operands.now }
    requires own { IfSome own (λ t. t.0 < length ctx.now.types) }
    requires edges { All (IsSuccessorWithin (length ctx.now.ops) (length ctx.now.blocks)) edges.now }
    requires typed { IsTyped ctx.now }
    ensures { IsTrue result ↔ IsRow (type_in ctx.now) (func_at ctx.now func) op operands.now (option_map (tree_at ctx.now) own) edges.now }
{
    let rule = op.rule();
    operands_taken(ctx, func, rule.takes, operands)
        && types_fit(ctx, op, operands, own)
        && edges_fit(ctx, func, edges, rule.leads.target_count())
}

/// Whether an `llvm.constant` is as its kind is.
fn constant_op_fits(
    ctx: &Context,
    value: &ConstAttr,
    operands: &[Value],
    own: Option<TypeHandle>,
    edges: &[Successor],
) -> bool
    requires value { HasTypesBelow (length ctx.now.types) (attr_data value.now) }
    requires own { IfSome own (λ t. t.0 < length ctx.now.types) }
    requires typed { IsTyped ctx.now }
    ensures { (g : Func) → IsTrue result ↔ IsOfKind (type_in ctx.now) g operands.now (option_map (tree_at ctx.now) own) edges.now (ConstantOp (attr_tree (type_trees ctx.now.types) (attr_data value.now))) }
{
    operands.is_empty() && edges.is_empty() && constant_fits(ctx.types(), value, own)
}

/// Whether an operation has a result of a first class type.
fn is_first_class_some(types: &TypeStore, own: Option<TypeHandle>) -> bool
    requires { IfSome own (λ t. t.0 < length types.now) }
    ensures { IsTrue result ↔ ((t : TypeTree) × (option_map (type_at (type_trees types.now)) own ≡ Some t) × IsFirstClass t) }
{
    match own {
        Some(ty) => is_first_class(types, ty),
        None => false,
    }
}

/// Whether an `llvm.zero`, `llvm.undef` or `llvm.poison` is as its kind is.
fn filled_op_fits(
    ctx: &Context,
    operands: &[Value],
    own: Option<TypeHandle>,
    edges: &[Successor],
) -> bool
    requires own { IfSome own (λ t. t.0 < length ctx.now.types) }
    ensures { IsTrue result ↔ IsFilled operands.now (option_map (tree_at ctx.now) own) edges.now }
{
    operands.is_empty() && edges.is_empty() && is_first_class_some(ctx.types(), own)
}

/// Whether an operation is as its kind is.
fn kind_fits(
    ctx: &Context,
    func: OpRef,
    kind: &OpKind,
    operands: &[Value],
    own: Option<TypeHandle>,
    edges: &[Successor],
) -> bool
    requires func { IsSymbol ctx.now.ops func }
    requires within { func.0 < length ctx.now.ops }
    requires kind { HasKindTypesBelow (length ctx.now.types) kind.now }
    requires operands { All (IsValueWithin (length ctx.now.ops) (length ctx.now.blocks)) operands.now }
    requires own { IfSome own (λ t. t.0 < length ctx.now.types) }
    requires edges { All (IsSuccessorWithin (length ctx.now.ops) (length ctx.now.blocks)) edges.now }
    requires typed { IsTyped ctx.now }
    ensures { IsTrue result ↔ IsKindAt ctx.now (func_at ctx.now func) kind.now operands.now own edges.now }
{
    match kind {
        OpKind::Module | OpKind::Func => false,
        OpKind::Constant(value) => constant_op_fits(ctx, value.attr(), operands, own, edges),
        OpKind::Filled(_fill) => filled_op_fits(ctx, operands, own, edges),
        OpKind::Row(op) => row_fits(ctx, func, *op, operands, own, edges),
    }
}

/// Whether an operation of the function may stand in its block, and is as its kind is.
pub fn op_fits(ctx: &Context, func: OpRef, op: OpRef) -> bool
    requires func { IsSymbol ctx.now.ops func }
    requires within { func.0 < length ctx.now.ops }
    requires op { op.0 < length ctx.now.ops }
    requires typed { IsTyped ctx.now }
    ensures { IsTrue result ↔ IsOpAt ctx.now (func_at ctx.now func) op }
{
    let operands = ctx.op_operands(op);
    let own = ctx.result_type(op);
    let edges = ctx.op_successors(op);
    kind_fits(ctx, func, ctx.op_kind(op), operands, own, edges)
}

/// Whether a kind is that of terminators.
pub fn is_ending(kind: &OpKind) -> bool
    ensures { result ≡ ends_kind kind.now }
{
    match kind {
        OpKind::Module => false,
        OpKind::Func => false,
        OpKind::Constant(_) => false,
        OpKind::Filled(_) => false,
        OpKind::Row(op) => op.rule().leads.ends(),
    }
}
