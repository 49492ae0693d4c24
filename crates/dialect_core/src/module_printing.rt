//! The dialect text of blocks, functions and modules.

ghost use Rattle.std.specs.Prelude.{◌≡◌, ◌<◌, ◌++◌, All, OnOk, length, map};
ghost use Rattle.std.specs.Option.{option_copied};
ghost use Rattle.std.specs.List.{flat_map, filter_map};
ghost use Rattle.dialect_types.specs.Trees.{type_at, type_trees, structs_of};
ghost use Rattle.dialect_types.specs.Text.{Keeps, joined};
ghost use Rattle.dialect_core.specs.Data.{op_at, block_in, func_in, name_at, symbol_name_at, data_of, IsTyped};
ghost use Rattle.dialect_core.specs.Numbering.{value_at, block_at};
ghost use Rattle.dialect_core.specs.Text.{option_text, argument_text, argument_texts, label_text, block_text, body_text, linkage_text, func_head_text, quoted_char, quoted_text, llvm_name_text, func_text, op_text, module_text_by, module_text};

use crate::context::Context;
use crate::counting::{number_module, place_of};
use crate::linkage::LinkageAttr;
use crate::numbering::Numbering;
use crate::numbers::{BlockRef, ModuleOp, OpRef};
use crate::ops::{OpKind, Value};
use crate::printing::{print_block_name, print_colon_name, print_op, print_value};
use dialect_types::identifier::Identifier;
use dialect_types::printing::print_comma_before;
use dialect_types::type_store::TypeStore;
use dialect_types::types::TypeHandle;
use std::alloc::{AllocError, Global};

/// Appends the arguments of a block with their types.
fn print_arguments(
    types: &TypeStore,
    numbers: &Numbering,
    block: BlockRef,
    args: &[TypeHandle],
    out: &mut Vec<u8>,
) -> Result<(), AllocError>
    requires { All (λ t. t.0 < length types.now) args.now }
    ensures ok { OnOk result (out.new.items ≡ out.old.items ++ joined (argument_texts (value_at numbers.now) (block_at numbers.now) block 0 (map (type_at (type_trees types.now)) args.now))) }
    ensures kept { Keeps out.old.items out.new.items }
{
    for (i, ty) in args.iter().enumerate() {
        print_comma_before(i, out)?;
        print_argument(types, numbers, block, i, *ty, out)?;
    }
    Ok(())
}

/// Appends the argument of a block at a place, with its type.
fn print_argument(
    types: &TypeStore,
    numbers: &Numbering,
    block: BlockRef,
    place: usize,
    ty: TypeHandle,
    out: &mut Vec<u8>,
) -> Result<(), AllocError>
    requires { ty.0 < length types.now }
    ensures ok { OnOk result (out.new.items ≡ out.old.items ++ argument_text (value_at numbers.now) (block_at numbers.now) block place (type_at (type_trees types.now) ty)) }
    ensures kept { Keeps out.old.items out.new.items }
{
    let number = place_of(place)?;
    print_value(numbers, Value::Argument(block, number), out)?;
    out.extend_from_slice(b": ")?;
    types.append_type(ty, out)
}

/// Appends the line of a block.
fn print_label(
    types: &TypeStore,
    numbers: &Numbering,
    block: BlockRef,
    label: Option<&Identifier>,
    args: &[TypeHandle],
    out: &mut Vec<u8>,
) -> Result<(), AllocError>
    requires { All (λ t. t.0 < length types.now) args.now }
    ensures ok { OnOk result (out.new.items ≡ out.old.items ++ label_text (value_at numbers.now) (block_at numbers.now) block (option_copied label.entry) (map (type_at (type_trees types.now)) args.now)) }
    ensures kept { Keeps out.old.items out.new.items }
{
    out.extend_from_slice(b"  ")?;
    print_block_name(numbers, block, out)?;
    print_colon_name(label, out)?;
    out.extend_from_slice(b"(")?;
    print_arguments(types, numbers, block, args, out)?;
    out.extend_from_slice(b"):\n")
}

/// Appends the operations of a function's block.
fn print_ops(
    ctx: &Context,
    numbers: &Numbering,
    ops: &[OpRef],
    out: &mut Vec<u8>,
) -> Result<(), AllocError>
    requires within { All (λ o. o.0 < length ctx.now.ops) ops.now }
    requires typed { IsTyped ctx.now }
    ensures ok { OnOk result (out.new.items ≡ out.old.items ++ flat_map (λ o. option_text (op_text (value_at numbers.now) (block_at numbers.now)) (op_at (type_trees ctx.now.types) ctx.now.ops o)) ops.now) }
    ensures kept { Keeps out.old.items out.new.items }
{
    for op in ops {
        print_op(ctx.types(), numbers, *op, ctx.op_data(*op), out)?;
    }
    Ok(())
}

/// Appends a block of a function.
fn print_block(
    ctx: &Context,
    numbers: &Numbering,
    block: BlockRef,
    out: &mut Vec<u8>,
) -> Result<(), AllocError>
    requires within { block.0 < length ctx.now.blocks }
    requires typed { IsTyped ctx.now }
    ensures ok { OnOk result (out.new.items ≡ out.old.items ++ option_text (block_text (value_at numbers.now) (block_at numbers.now)) (block_in (type_trees ctx.now.types) ctx.now block)) }
    ensures kept { Keeps out.old.items out.new.items }
{
    print_label(
        ctx.types(),
        numbers,
        block,
        ctx.block_label(block),
        ctx.block_args(block),
        out,
    )?;
    let ops = ctx.block_ops(block)?;
    print_ops(ctx, numbers, ops.as_slice(), out)
}

/// Appends the blocks of a function.
fn print_blocks(
    ctx: &Context,
    numbers: &Numbering,
    blocks: &[BlockRef],
    out: &mut Vec<u8>,
) -> Result<(), AllocError>
    requires within { All (λ b. b.0 < length ctx.now.blocks) blocks.now }
    requires typed { IsTyped ctx.now }
    ensures ok { OnOk result (out.new.items ≡ out.old.items ++ flat_map (λ b. option_text (block_text (value_at numbers.now) (block_at numbers.now)) (block_in (type_trees ctx.now.types) ctx.now b)) blocks.now) }
    ensures kept { Keeps out.old.items out.new.items }
{
    for block in blocks {
        print_block(ctx, numbers, *block, out)?;
    }
    Ok(())
}

/// Appends what stands after the head of a function.
fn print_body(
    ctx: &Context,
    numbers: &Numbering,
    blocks: &[BlockRef],
    out: &mut Vec<u8>,
) -> Result<(), AllocError>
    requires within { All (λ b. b.0 < length ctx.now.blocks) blocks.now }
    requires typed { IsTyped ctx.now }
    ensures ok { OnOk result (out.new.items ≡ out.old.items ++ body_text (value_at numbers.now) (block_at numbers.now) (filter_map (block_in (type_trees ctx.now.types) ctx.now) blocks.now)) }
    ensures kept { Keeps out.old.items out.new.items }
{
    if blocks.is_empty() {
        return out.extend_from_slice(b"\n");
    }
    out.extend_from_slice(b" {\n")?;
    print_blocks(ctx, numbers, blocks, out)?;
    out.extend_from_slice(b"  }\n")
}

/// The word of a linkage.
fn linkage_word(linkage: LinkageAttr) -> &'static str
    ensures { result.now ≡ linkage_text linkage }
{
    match linkage {
        LinkageAttr::ExternalLinkage => "ExternalLinkage",
        LinkageAttr::AvailableExternallyLinkage => "AvailableExternallyLinkage",
        LinkageAttr::LinkOnceAnyLinkage => "LinkOnceAnyLinkage",
        LinkageAttr::LinkOnceODRLinkage => "LinkOnceODRLinkage",
        LinkageAttr::WeakAnyLinkage => "WeakAnyLinkage",
        LinkageAttr::WeakODRLinkage => "WeakODRLinkage",
        LinkageAttr::AppendingLinkage => "AppendingLinkage",
        LinkageAttr::InternalLinkage => "InternalLinkage",
        LinkageAttr::PrivateLinkage => "PrivateLinkage",
        LinkageAttr::ExternalWeakLinkage => "ExternalWeakLinkage",
        LinkageAttr::CommonLinkage => "CommonLinkage",
        LinkageAttr::LinkOnceODRAutoHideLinkage => "LinkOnceODRAutoHideLinkage",
        LinkageAttr::DLLImportLinkage => "DLLImportLinkage",
        LinkageAttr::DLLExportLinkage => "DLLExportLinkage",
        LinkageAttr::LinkerPrivateLinkage => "LinkerPrivateLinkage",
        LinkageAttr::LinkerPrivateWeakLinkage => "LinkerPrivateWeakLinkage",
        LinkageAttr::GhostLinkage => "GhostLinkage",
    }
}

/// Appends a character of a quoted text.
fn print_quoted_char(char: u8, out: &mut Vec<u8>) -> Result<(), AllocError>
    ensures ok { OnOk result (out.new.items ≡ out.old.items ++ quoted_char char) }
    ensures kept { Keeps out.old.items out.new.items }
{
    if char == b'"' || char == b'\\' {
        out.push(b'\\')?;
    }
    out.push(char)?;
    Ok(())
}

/// Appends the characters of a quoted text.
fn print_quoted_chars(chars: &[u8], out: &mut Vec<u8>) -> Result<(), AllocError>
    ensures ok { OnOk result (out.new.items ≡ out.old.items ++ flat_map quoted_char chars.now) }
    ensures kept { Keeps out.old.items out.new.items }
{
    for char in chars {
        print_quoted_char(*char, out)?;
    }
    Ok(())
}

/// Appends a text between quotes.
fn print_quoted(text: &str, out: &mut Vec<u8>) -> Result<(), AllocError>
    ensures ok { OnOk result (out.new.items ≡ out.old.items ++ quoted_text text.now) }
    ensures kept { Keeps out.old.items out.new.items }
{
    out.extend_from_slice(b"\"")?;
    print_quoted_chars(text.as_bytes(), out)?;
    out.extend_from_slice(b"\"")
}

/// Appends the LLVM name among the immediates, where it is set.
fn print_llvm_name(name: Option<&str>, out: &mut Vec<u8>) -> Result<(), AllocError>
    ensures ok { OnOk result (out.new.items ≡ out.old.items ++ llvm_name_text (option_copied name.entry)) }
    ensures kept { Keeps out.old.items out.new.items }
{
    match name {
        Some(name) => {
            out.extend_from_slice(b", llvm_name = ")?;
            print_quoted(name, out)
        }
        None => Ok(()),
    }
}

/// Appends the line of a function up to its body.
fn print_func_head(
    types: &TypeStore,
    name: &str,
    ty: TypeHandle,
    linkage: LinkageAttr,
    llvm_name: Option<&str>,
    out: &mut Vec<u8>,
) -> Result<(), AllocError>
    requires { ty.0 < length types.now }
    ensures ok { OnOk result (out.new.items ≡ out.old.items ++ func_head_text name.now (type_at (type_trees types.now) ty) linkage (option_copied llvm_name.entry)) }
    ensures kept { Keeps out.old.items out.new.items }
{
    out.extend_from_slice(b"  llvm.func @")?;
    out.extend_from_slice(name.as_bytes())?;
    out.extend_from_slice(b" : ")?;
    types.append_type(ty, out)?;
    out.extend_from_slice(b" {linkage = ")?;
    out.extend_from_slice(linkage_word(linkage).as_bytes())?;
    print_llvm_name(llvm_name, out)?;
    out.extend_from_slice(b"}")
}

/// The name of a module or function, empty where it has none.
pub fn name_of(ctx: &Context, op: OpRef) -> &str
    requires { op.0 < length ctx.now.ops }
    ensures { result.now ≡ name_at ctx.now.ops op.0 }
{
    match ctx.op_name(op) {
        Some(name) => name.as_str(),
        None => "",
    }
}

/// The LLVM name of a function: its own where no other is set.
pub fn llvm_name_of(ctx: &Context, op: OpRef) -> &str
    requires { op.0 < length ctx.now.ops }
    ensures { result.now ≡ symbol_name_at ctx.now.ops op }
{
    match ctx.llvm_symbol_name(op) {
        Some(name) => name,
        None => name_of(ctx, op),
    }
}

/// Appends an operation of a module's block, where it is a function.
fn print_func(
    ctx: &Context,
    numbers: &Numbering,
    op: OpRef,
    out: &mut Vec<u8>,
) -> Result<(), AllocError>
    requires within { op.0 < length ctx.now.ops }
    requires typed { IsTyped ctx.now }
    ensures ok { OnOk result (out.new.items ≡ out.old.items ++ option_text (func_text (value_at numbers.now) (block_at numbers.now)) (func_in (type_trees ctx.now.types) ctx.now op)) }
    ensures kept { Keeps out.old.items out.new.items }
{
    match ctx.op_kind(op) {
        OpKind::Func => {
            let ty = ctx.symbol_type(op);
            let linkage = ctx.symbol_linkage(op);
            let llvm_name = ctx.llvm_symbol_name(op);
            print_func_head(ctx.types(), name_of(ctx, op), ty, linkage, llvm_name, out)?;
            print_body(ctx, numbers, ctx.op_blocks(op), out)
        }
        _ => Ok(()),
    }
}

/// Appends the functions of a module.
fn print_funcs(
    ctx: &Context,
    numbers: &Numbering,
    ops: &[OpRef],
    out: &mut Vec<u8>,
) -> Result<(), AllocError>
    requires within { All (λ o. o.0 < length ctx.now.ops) ops.now }
    requires typed { IsTyped ctx.now }
    ensures ok { OnOk result (out.new.items ≡ out.old.items ++ flat_map (λ o. option_text (func_text (value_at numbers.now) (block_at numbers.now)) (func_in (type_trees ctx.now.types) ctx.now o)) ops.now) }
    ensures kept { Keeps out.old.items out.new.items }
{
    for op in ops {
        print_func(ctx, numbers, *op, out)?;
    }
    Ok(())
}

/// Appends the text of a module by numbers of its values and blocks, with the structs with names of its context.
fn print_numbered(
    ctx: &Context,
    numbers: &Numbering,
    root: ModuleOp,
    out: &mut Vec<u8>,
) -> Result<(), AllocError>
    requires root { root.0.0 < length ctx.now.ops }
    requires typed { IsTyped ctx.now }
    ensures ok { OnOk result (out.new.items ≡ out.old.items ++ module_text_by (value_at numbers.now) (block_at numbers.now) (structs_of ctx.now.types) (data_of ctx.now root.0.0)) }
    ensures kept { Keeps out.old.items out.new.items }
{
    out.extend_from_slice(b"builtin.module @")?;
    out.extend_from_slice(name_of(ctx, root.0).as_bytes())?;
    out.extend_from_slice(b" {\n")?;
    ctx.types().append_structs(out)?;
    let ops = ctx.held_ops(root.0)?;
    print_funcs(ctx, numbers, ops.as_slice(), out)?;
    out.extend_from_slice(b"}\n")
}

/// Appends the text of a module, with the structs with names of its context.
pub fn print_module(
    alloc: Global,
    ctx: &Context,
    root: ModuleOp,
    out: &mut Vec<u8>,
) -> Result<(), AllocError>
    requires root { root.0.0 < length ctx.now.ops }
    requires typed { IsTyped ctx.now }
    ensures ok { OnOk result (out.new.items ≡ out.old.items ++ module_text (structs_of ctx.now.types) (data_of ctx.now root.0.0)) }
    ensures kept { Keeps out.old.items out.new.items }
{
    let numbers = number_module(alloc, ctx, root)?;
    print_numbered(ctx, &numbers, root, out)
}
