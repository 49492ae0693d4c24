//! Tests of blocks, functions and modules: whether they keep the rules of the dialect.

ghost use Rattle.std.specs.Prelude.{◌≡◌, ◌<◌, ◌↔◌, ◌∷◌, [], IsTrue, true, IfSome, All, Some, length, slice_get};
ghost use Rattle.kinds.specs.Types.{params_of};
ghost use Rattle.dialect_core.specs.declared.ops.OpKind.TheVariants as kinds;
ghost use Rattle.dialect_core.specs.Lists.{list_at, from_op};
ghost use Rattle.dialect_core.specs.ContextData.{IsSymbol, is_plain, kind_at};
ghost use Rattle.dialect_core.specs.Data.{DialectBlock, HasKindTypesBelow, IsTyped, name_at};
ghost use Rattle.dialect_core.specs.WellFormed.{HasFewEntries, HasFirstClassArgs, IsPlainAt, IsWellFormed, KeepsRules, suits, suits_body, suits_declaration};
ghost use Rattle.dialect_core.specs.Checking.{AreApartFrom, AreFuncLines, AreLines, IsApartFrom, IsBlockAt, IsFuncAt, IsHead, IsLine, func_at};

use crate::context::Context;
use crate::few::{TOO_LONG, has_few};
use crate::linkage::LinkageAttr;
use crate::module_printing::{llvm_name_of, name_of};
use crate::numbers::{BlockRef, ModuleOp, OpRef};
use crate::op_tests::{is_ending, op_fits};
use crate::ops::OpKind;
use crate::type_tests::{all_first_class, is_signature, takes};
use crate::value_tests::is_past_firsts;
use crate::walking::{first_in_block, next_in_block};
use kinds::names::is_own_name;

/// Whether a kind is that of neither a module nor a function, and its constant, where it holds one, keeps the rules.
fn keeps_rules(ctx: &Context, kind: &OpKind) -> bool
    requires { HasKindTypesBelow (length ctx.now.types) kind.now }
    ensures { IsTrue result ↔ (is_plain kind.now ≡ true) × KeepsRules ctx.now kind.now }
{
    match kind {
        OpKind::Module | OpKind::Func => false,
        OpKind::Constant(value) => value.attr().verify(ctx.types()).is_ok(),
        OpKind::Filled(_) | OpKind::Row(_) => true,
    }
}

/// Whether an operation is neither a module nor a function, and its constant, where it holds one, keeps the rules.
fn is_plain(ctx: &Context, op: OpRef) -> bool
    requires op { op.0 < length ctx.now.ops }
    requires typed { IsTyped ctx.now }
    ensures { IsTrue result ↔ IsPlainAt ctx.now op }
{
    keeps_rules(ctx, ctx.op_kind(op))
}

/// Whether an operation of the function is as its kind is, its constant keeps the rules, it is a terminator just where none
/// comes after it, and leads to no first block.
fn line_fits(ctx: &Context, func: OpRef, op: OpRef, next: Option<OpRef>) -> bool
    requires func { IsSymbol ctx.now.ops func }
    requires within { func.0 < length ctx.now.ops }
    requires op { op.0 < length ctx.now.ops }
    requires typed { IsTyped ctx.now }
    ensures { IsTrue result ↔ IsLine ctx.now (func_at ctx.now func) op next }
{
    if !is_past_firsts(ctx, op) {
        return false;
    }
    if !is_plain(ctx, op) {
        return false;
    }
    is_ending(ctx.op_kind(op)) == next.is_none() && op_fits(ctx, func, op)
}

/// Whether the operations of a block are as their kinds are, with terminators just at its end, which lead to no first
/// block.
fn lines_fit(ctx: &Context, func: OpRef, block: BlockRef) -> bool
    requires func { IsSymbol ctx.now.ops func }
    requires within { func.0 < length ctx.now.ops }
    requires block { block.0 < length ctx.now.blocks }
    requires typed { IsTyped ctx.now }
    ensures { IsTrue result ↔ AreLines ctx.now (func_at ctx.now func) (list_at ctx.now.lists block) }
{
    let mut next = first_in_block(ctx, block);
    while let Some(op) = next {
        let after = next_in_block(ctx, block, op);
        if !line_fits(ctx, func, op, after) {
            return false;
        }
        next = after;
    }
    true
}

/// Whether a block of the function is well-formed: its arguments are of first class types, and one terminator stands in it, last,
/// which leads to no first block.
fn block_fits(ctx: &Context, func: OpRef, block: BlockRef) -> bool
    requires func { IsSymbol ctx.now.ops func }
    requires within { func.0 < length ctx.now.ops }
    requires block { block.0 < length ctx.now.blocks }
    requires typed { IsTyped ctx.now }
    ensures { IsTrue result ↔ IsBlockAt ctx.now (func_at ctx.now func) block }
{
    if first_in_block(ctx, block).is_none() {
        return false;
    }
    if !all_first_class(ctx.types(), ctx.block_args(block)) {
        return false;
    }
    lines_fit(ctx, func, block)
}

/// Whether blocks of the function are well-formed.
fn blocks_fit(ctx: &Context, func: OpRef, blocks: &[BlockRef]) -> bool
    requires func { IsSymbol ctx.now.ops func }
    requires within { func.0 < length ctx.now.ops }
    requires blocks { All (λ b. b.0 < length ctx.now.blocks) blocks.now }
    requires typed { IsTyped ctx.now }
    ensures { IsTrue result ↔ All (IsBlockAt ctx.now (func_at ctx.now func)) blocks.now }
{
    for block in blocks {
        if !block_fits(ctx, func, *block) {
            return false;
        }
    }
    true
}

/// Whether a function without a body may have the linkage.
fn is_for_declaration(linkage: LinkageAttr) -> bool
    ensures { result ≡ suits_declaration linkage }
{
    match linkage {
        LinkageAttr::ExternalLinkage | LinkageAttr::ExternalWeakLinkage => true,
        LinkageAttr::AvailableExternallyLinkage
        | LinkageAttr::LinkOnceAnyLinkage
        | LinkageAttr::LinkOnceODRLinkage
        | LinkageAttr::WeakAnyLinkage
        | LinkageAttr::WeakODRLinkage
        | LinkageAttr::AppendingLinkage
        | LinkageAttr::InternalLinkage
        | LinkageAttr::PrivateLinkage
        | LinkageAttr::CommonLinkage
        | LinkageAttr::LinkOnceODRAutoHideLinkage
        | LinkageAttr::DLLImportLinkage
        | LinkageAttr::DLLExportLinkage
        | LinkageAttr::LinkerPrivateLinkage
        | LinkageAttr::LinkerPrivateWeakLinkage
        | LinkageAttr::GhostLinkage => false,
    }
}

/// Whether a function with a body may have the linkage.
fn is_for_body(linkage: LinkageAttr) -> bool
    ensures { result ≡ suits_body linkage }
{
    match linkage {
        LinkageAttr::ExternalLinkage
        | LinkageAttr::AvailableExternallyLinkage
        | LinkageAttr::LinkOnceAnyLinkage
        | LinkageAttr::LinkOnceODRLinkage
        | LinkageAttr::WeakAnyLinkage
        | LinkageAttr::WeakODRLinkage
        | LinkageAttr::InternalLinkage
        | LinkageAttr::PrivateLinkage => true,
        LinkageAttr::AppendingLinkage
        | LinkageAttr::ExternalWeakLinkage
        | LinkageAttr::CommonLinkage
        | LinkageAttr::LinkOnceODRAutoHideLinkage
        | LinkageAttr::DLLImportLinkage
        | LinkageAttr::DLLExportLinkage
        | LinkageAttr::LinkerPrivateLinkage
        | LinkageAttr::LinkerPrivateWeakLinkage
        | LinkageAttr::GhostLinkage => false,
    }
}

/// Whether the linkage of a function is one for the body that it has, or for none.
fn linkage_fits(ctx: &Context, func: OpRef) -> bool
    requires func { IsSymbol ctx.now.ops func }
    requires within { func.0 < length ctx.now.ops }
    ensures { result ≡ suits (func_at ctx.now func).blocks (func_at ctx.now func).linkage }
{
    let linkage = ctx.symbol_linkage(func);
    match ctx.region(func).first() {
        Some(_) => is_for_body(linkage),
        None => is_for_declaration(linkage),
    }
}

/// Whether the first block of a function takes what the function takes.
fn entry_fits(ctx: &Context, func: OpRef) -> bool
    requires func { IsSymbol ctx.now.ops func }
    requires within { func.0 < length ctx.now.ops }
    requires typed { IsTyped ctx.now }
    ensures { IsTrue result ↔ ((b : DialectBlock) → slice_get (func_at ctx.now func).blocks 0 ≡ Some b → b.args ≡ params_of (func_at ctx.now func).type) }
{
    match ctx.region(func).first() {
        Some(entry) => takes(ctx.types(), ctx.symbol_type(func), ctx.block_args(*entry)),
        None => true,
    }
}

/// Whether the head of a function is well-formed: its names, its linkage and its type.
fn head_fits(ctx: &Context, func: OpRef) -> bool
    requires func { IsSymbol ctx.now.ops func }
    requires within { func.0 < length ctx.now.ops }
    requires typed { IsTyped ctx.now }
    ensures { IsTrue result ↔ IsHead (func_at ctx.now func) }
{
    if name_of(ctx, func).is_empty() {
        return false;
    }
    if !is_own_name(llvm_name_of(ctx, func)) {
        return false;
    }
    if !linkage_fits(ctx, func) {
        return false;
    }
    is_signature(ctx.types(), ctx.symbol_type(func))
}

/// Whether a function is well-formed, its blocks hold neither functions nor modules, and lead to no first block.
fn func_body_fits(ctx: &Context, func: OpRef) -> bool
    requires func { IsSymbol ctx.now.ops func }
    requires within { func.0 < length ctx.now.ops }
    requires typed { IsTyped ctx.now }
    requires kind { kind_at ctx.now.ops func ≡ Some kinds.Func }
    ensures { IsTrue result ↔ IsFuncAt ctx.now func }
{
    let region = ctx.region(func);
    if !head_fits(ctx, func) {
        return false;
    }
    if !entry_fits(ctx, func) {
        return false;
    }
    blocks_fit(ctx, func, region)
}

/// Whether an operation is a function that is well-formed, and whose blocks hold neither functions nor modules and lead
/// to no first block.
fn func_fits(ctx: &Context, op: OpRef) -> bool
    requires op { op.0 < length ctx.now.ops }
    requires typed { IsTyped ctx.now }
    ensures { IsTrue result ↔ IsFuncAt ctx.now op }
{
    match ctx.op_kind(op) {
        OpKind::Func => func_body_fits(ctx, op),
        _ => false,
    }
}

/// Whether an operation has neither of the names, its own and that of LLVM.
fn is_apart(ctx: &Context, op: OpRef, name: &str, llvm_name: &str) -> bool
    requires { op.0 < length ctx.now.ops }
    ensures { IsTrue result ↔ IsApartFrom ctx.now name.now llvm_name.now op }
{
    if name_of(ctx, op) == name {
        return false;
    }
    llvm_name_of(ctx, op) != llvm_name
}

/// Whether no operation of a block from one on has one of the names.
fn are_names_free(
    ctx: &Context,
    block: BlockRef,
    from: Option<OpRef>,
    name: &str,
    llvm_name: &str,
) -> bool
    requires block { block.0 < length ctx.now.blocks }
    requires from { IfSome from (λ o. o.0 < length ctx.now.ops) }
    requires here { from ≡ slice_get (from_op from (list_at ctx.now.lists block)) 0 }
    ensures { IsTrue result ↔ AreApartFrom ctx.now name.now llvm_name.now (from_op from (list_at ctx.now.lists block)) }
{
    let mut next = from;
    while let Some(op) = next {
        let after = next_in_block(ctx, block, op);
        if !is_apart(ctx, op, name, llvm_name) {
            return false;
        }
        next = after;
    }
    true
}

/// Whether the operations of a block are well-formed functions of different names. Each is compared with those of
/// all later functions, since there is no memory to note it in: so this takes a square of the functions' number.
fn funcs_fit(ctx: &Context, block: BlockRef) -> bool
    requires block { block.0 < length ctx.now.blocks }
    requires typed { IsTyped ctx.now }
    ensures { IsTrue result ↔ AreFuncLines ctx.now (list_at ctx.now.lists block) }
{
    let mut next = first_in_block(ctx, block);
    while let Some(op) = next {
        let after = next_in_block(ctx, block, op);
        if !func_fits(ctx, op) {
            return false;
        }
        if !are_names_free(ctx, block, after, name_of(ctx, op), llvm_name_of(ctx, op)) {
            return false;
        }
        next = after;
    }
    true
}

/// Whether the arguments of a block are of first class types, and few.
fn args_fit(ctx: &Context, block: BlockRef) -> bool
    requires block { block.0 < length ctx.now.blocks }
    requires typed { IsTyped ctx.now }
    ensures { IsTrue result ↔ HasFirstClassArgs ctx.now block }
{
    let args = ctx.block_args(block);
    args.len() < TOO_LONG && all_first_class(ctx.types(), args)
}

/// Whether the operations of a module's block are well-formed functions of different names, and all lists are short.
fn body_fits(ctx: &Context, body: BlockRef) -> bool
    requires body { body.0 < length ctx.now.blocks }
    requires typed { IsTyped ctx.now }
    ensures { IsTrue result ↔ AreFuncLines ctx.now (list_at ctx.now.lists body) × HasFewEntries ctx.now body }
{
    funcs_fit(ctx, body) && has_few(ctx, body)
}

/// Whether an operation is a module that is well-formed.
pub fn well_formed(ctx: &Context, root: ModuleOp) -> bool
    requires root { root.0.0 < length ctx.now.ops }
    requires typed { IsTyped ctx.now }
    ensures { IsTrue result ↔ IsWellFormed ctx.now root.0.0 }
{
    let OpKind::Module = ctx.op_kind(root.0) else {
        return false;
    };
    match ctx.region(root.0) {
        [] => true,
        [body] => args_fit(ctx, *body) && body_fits(ctx, *body),
        _ => false,
    }
}
