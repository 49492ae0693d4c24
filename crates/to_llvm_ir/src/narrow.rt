//! Tests of operations, blocks and functions: whether they are as narrow as the form that is exported.

ghost use Rattle.std.specs.Prelude.{◌≡◌, ◌<◌, ◌↔◌, IsTrue, All, Some, length};
ghost use Rattle.dialect_core.specs.declared.linkage.LinkageAttr.TheVariants.{ExternalLinkage};
ghost use Rattle.dialect_core.specs.declared.ops.OpKind.TheVariants as kinds;
ghost use Rattle.dialect_core.specs.Lists.{list_at};
ghost use Rattle.dialect_core.specs.ContextData.{IsSymbol, kind_at};
ghost use Rattle.dialect_core.specs.Data.{HasKindTypesBelow, IsTyped, held};
ghost use Rattle.dialect_core.specs.WellFormed.{IsPlainAt, IsNarrowFunc};
ghost use Rattle.dialect_core.specs.Checking.{func_at, tree_at};
ghost use Rattle.to_llvm_ir.specs.Narrow.{IsShortOp, IsNarrowAt, IsNarrowBlockAt, AreNarrowBlocks, IsNarrowHead};

use crate::operations::llvm_name_of;
use dialect_core::context::Context;
use dialect_core::linkage::LinkageAttr;
use dialect_core::numbers::{BlockRef, OpRef};
use dialect_core::ops::OpKind;
use dialect_core::type_tests::{all_held, is_held, is_held_signature, is_short, is_short_fill};
use dialect_core::walking::{first_in_block, next_in_block};
use dialect_types::types::TypeHandle;
use kinds::names::is_good_name;

/// Whether the constant of an operation is translated, where it makes or holds one.
fn is_short_kind(ctx: &Context, kind: &OpKind, ty: TypeHandle) -> bool
    requires ty { ty.0 < length ctx.now.types }
    requires kind { HasKindTypesBelow (length ctx.now.types) kind.now }
    ensures { IsTrue result ↔ IsShortOp ctx.now kind.now (tree_at ctx.now ty) }
{
    match kind {
        OpKind::Filled(fill) => is_short_fill(ctx.types(), *fill, ty),
        OpKind::Module => true,
        OpKind::Func => true,
        OpKind::Constant(value) => is_short(ctx.types(), value.attr()),
        OpKind::Row(_) => true,
    }
}

/// Whether the type of the result of an operation, where it has one, is translated, and so is its constant.
fn is_narrow_op(ctx: &Context, op: OpRef) -> bool
    requires op { op.0 < length ctx.now.ops }
    requires typed { IsTyped ctx.now }
    ensures { IsTrue result ↔ IsNarrowAt ctx.now op }
{
    match ctx.result_type(op) {
        Some(ty) => is_held(ctx.types(), ty) && is_short_kind(ctx, ctx.op_kind(op), ty),
        None => true,
    }
}

/// Whether the operations of a block are narrow.
fn are_narrow_ops(ctx: &Context, block: BlockRef) -> bool
    requires block { block.0 < length ctx.now.blocks }
    requires typed { IsTyped ctx.now }
    ensures { IsTrue result ↔ All (IsNarrowAt ctx.now) (list_at ctx.now.lists block) }
{
    let mut next = first_in_block(ctx, block);
    while let Some(op) = next {
        let after = next_in_block(ctx, block, op);
        if !is_narrow_op(ctx, op) {
            return false;
        }
        next = after;
    }
    true
}

/// Whether a block is narrow.
fn is_narrow_block(ctx: &Context, block: BlockRef) -> bool
    requires block { block.0 < length ctx.now.blocks }
    requires typed { IsTyped ctx.now }
    ensures { IsTrue result ↔ IsNarrowBlockAt ctx.now block }
{
    if !all_held(ctx.types(), ctx.block_args(block)) {
        return false;
    }
    are_narrow_ops(ctx, block)
}

/// Whether blocks are narrow.
fn all_narrow(ctx: &Context, blocks: &[BlockRef]) -> bool
    requires blocks { All (λ b. b.0 < length ctx.now.blocks) blocks.now }
    requires typed { IsTyped ctx.now }
    ensures { IsTrue result ↔ All (IsNarrowBlockAt ctx.now) blocks.now }
{
    for block in blocks {
        if !is_narrow_block(ctx, *block) {
            return false;
        }
    }
    true
}

/// Whether blocks are those of a narrow function: there is one at least.
fn are_narrow_blocks(ctx: &Context, blocks: &[BlockRef]) -> bool
    requires blocks { All (λ b. b.0 < length ctx.now.blocks) blocks.now }
    requires typed { IsTyped ctx.now }
    ensures { IsTrue result ↔ AreNarrowBlocks ctx.now blocks.now }
{
    if blocks.is_empty() {
        return false;
    }
    all_narrow(ctx, blocks)
}

/// Whether a linkage is external.
fn is_external(linkage: LinkageAttr) -> bool
    ensures { IsTrue result ↔ linkage ≡ ExternalLinkage }
{
    match linkage {
        LinkageAttr::ExternalLinkage => true,
        _ => false,
    }
}

/// Whether a function is narrow but for its blocks: its LLVM name, its linkage and its type.
fn is_narrow_head(ctx: &Context, func: OpRef) -> bool
    requires func { IsSymbol ctx.now.ops func }
    requires within { func.0 < length ctx.now.ops }
    requires typed { IsTyped ctx.now }
    ensures { IsTrue result ↔ IsNarrowHead ctx.now func }
{
    if !is_good_name(llvm_name_of(ctx, func)) {
        return false;
    }
    if !is_external(ctx.symbol_linkage(func)) {
        return false;
    }
    is_held_signature(ctx.types(), ctx.symbol_type(func))
}

/// Whether a function is narrow.
fn is_narrow_func(ctx: &Context, func: OpRef) -> bool
    requires within { func.0 < length ctx.now.ops }
    requires typed { IsTyped ctx.now }
    requires kind { kind_at ctx.now.ops func ≡ Some kinds.Func }
    requires plain { All (IsPlainAt ctx.now) (held ctx.now func.0) }
    ensures { IsTrue result ↔ IsNarrowFunc (func_at ctx.now func) }
{
    let blocks = ctx.region(func);
    if !is_narrow_head(ctx, func) {
        return false;
    }
    are_narrow_blocks(ctx, blocks)
}

/// Whether the functions of a block are narrow.
pub fn are_narrow_funcs(ctx: &Context, block: BlockRef) -> bool
    requires block { block.0 < length ctx.now.blocks }
    requires typed { IsTyped ctx.now }
    requires kinds { All (λ o. kind_at ctx.now.ops o ≡ Some kinds.Func) (list_at ctx.now.lists block) }
    requires plain { All (λ o. All (IsPlainAt ctx.now) (held ctx.now o.0)) (list_at ctx.now.lists block) }
    ensures { IsTrue result ↔ All (λ o. IsNarrowFunc (func_at ctx.now o)) (list_at ctx.now.lists block) }
{
    let mut next = first_in_block(ctx, block);
    while let Some(op) = next {
        let after = next_in_block(ctx, block, op);
        if !is_narrow_func(ctx, op) {
            return false;
        }
        next = after;
    }
    true
}
