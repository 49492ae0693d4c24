//! Prints constants.

ghost use Rattle.std.specs.Prelude.{◌≡◌, ◌<◌, ◌≤◌, ◌^◌, ◌++◌, All, List, length, OnOk};
ghost use Rattle.kinds.specs.Held.{width_in};
ghost use Rattle.kinds.specs.Types.{TypeTree, NamedType};
ghost use Rattle.support.specs.Appended.{Keeps};
ghost use Rattle.llvm_core.specs.declared.consts.LLVMConstKind.TheVariants as consts;
ghost use Rattle.llvm_core.specs.Consts.{IsConstIn};
ghost use Rattle.llvm_core.specs.Sound.{IsModule};
ghost use Rattle.llvm_core.specs.Data.{trees_of, structs_of, type_at, type_tree, const_at, consts_at};
ghost use Rattle.ll_said.specs.Said.{brackets_of, chars_text};
ghost use Rattle.ll_print.specs.Printing.{int_text, filled_text, brackets_open, brackets_close, const_text};
ghost use Rattle.ll_print.specs.Parts.{element_text, consts_text, list_text, splat_text};

use crate::types::{put_comma, put_decimal, put_type};
use kinds::fill::Fill;
use kinds::fitting::is_pointer;
use kinds::types::StructLayout;
use ll_lines::lines::Brackets;
use ll_literals::printed::put_text;
use llvm_core::code::LLVMValue;
use llvm_core::consts::LLVMConstKind;
use llvm_core::module::{LLVMModule, shape_of};
use llvm_core::numbers::{LLVMConst, LLVMType};
use llvm_core::types::LLVMTypeKind;
use std::alloc::AllocError;

/// An integer of a width: one bit as a word, up to 128 bits signed.
fn put_int(width: u32, value: u128, out: &mut Vec<u8>) -> Result<(), AllocError>
    requires some { 1 ≤ width }
    requires fits { value < 2 ^ width }
    ensures text { OnOk result (out.new.items ≡ out.old.items ++ int_text width value) }
    ensures kept { Keeps out.old.items out.new.items }
{
    if width == 1 {
        let word = if value == 0 { "false" } else { "true" };
        return out.extend_from_slice(word.as_bytes());
    }
    if width > 128 {
        return put_decimal(value, out);
    }
    let half = 1u128 << (width - 1);
    if value < half {
        return put_decimal(value, out);
    }
    out.push(b'-')?;
    put_decimal(half - (value - half), out)
}

/// A value of an integer type.
fn put_typed(m: &LLVMModule, ty: LLVMType, value: u128, out: &mut Vec<u8>) -> Result<(), AllocError>
    requires sound { IsModule m.now }
    requires typed { IsConstIn m.now (consts.Int ty value) }
    ensures text { OnOk result (out.new.items ≡ out.old.items ++ int_text (width_in (type_at (trees_of m.now).types ty)) value) }
    ensures kept { Keeps out.old.items out.new.items }
{
    let LLVMTypeKind::Int(width) = m.type_kind(ty) else {
        unreachable!();
    };
    put_int(*width, value, out)
}

/// The word of zero of a type, which is null where that is a pointer.
fn zero_word(m: &LLVMModule, ty: LLVMType) -> &'static [u8]
    requires sound { IsModule m.now }
    requires typed { IsConstIn m.now (consts.Filled Fill.Zero ty) }
    ensures { result.now ≡ filled_text Fill.Zero (type_at (trees_of m.now).types ty) }
{
    if is_pointer(shape_of(m.type_kind(ty))) {
        b"null"
    } else {
        b"zeroinitializer"
    }
}

/// The word of zero, undef or poison of a type.
fn filled_word(m: &LLVMModule, fill: Fill, ty: LLVMType) -> &'static [u8]
    requires sound { IsModule m.now }
    requires typed { IsConstIn m.now (consts.Filled fill ty) }
    ensures { result.now ≡ filled_text fill (type_at (trees_of m.now).types ty) }
{
    match fill {
        Fill::Zero => zero_word(m, ty),
        Fill::Undef => b"undef",
        Fill::Poison => b"poison",
    }
}

/// The token of bytes.
#[inline(never)]
fn put_bytes(bytes: &[u8], out: &mut Vec<u8>) -> Result<(), AllocError>
    ensures text { OnOk result (out.new.items ≡ out.old.items ++ chars_text bytes.now) }
    ensures kept { Keeps out.old.items out.new.items }
{
    out.push(b'c')?;
    put_text(bytes, out)
}

/// The brackets around the elements of a struct with that name.
fn named_brackets(m: &LLVMModule, name: &str) -> Brackets
    ensures { result ≡ brackets_of (structs_of m.now) (NamedType name.now) }
{
    let Some(s) = m.struct_named(name) else {
        return Brackets::Array;
    };
    match m.struct_body(s) {
        Some(body) => Brackets::Struct(body.layout),
        None => Brackets::Array,
    }
}

/// The brackets around the elements of a constant of a type of that kind.
fn kind_brackets(m: &LLVMModule, kind: &LLVMTypeKind) -> Brackets
    ensures { (types : List TypeTree) → result ≡ brackets_of (structs_of m.now) (type_tree types kind.now) }
{
    match kind {
        LLVMTypeKind::Vector(..) => Brackets::Vector,
        LLVMTypeKind::Literal { layout, .. } => Brackets::Struct(*layout),
        LLVMTypeKind::Named(name) => named_brackets(m, name.as_str()),
        _ => Brackets::Array,
    }
}

/// The brackets around the elements of a constant of a type.
fn brackets_of(m: &LLVMModule, ty: LLVMType) -> Brackets
    requires sound { IsModule m.now }
    requires within { ty.0 < length m.now.types }
    ensures { result ≡ brackets_of (structs_of m.now) (type_at (trees_of m.now).types ty) }
{
    kind_brackets(m, m.type_kind(ty))
}

/// What stands before the elements of a constant.
fn open_word(brackets: Brackets) -> &'static [u8]
    ensures { result.now ≡ brackets_open brackets }
{
    match brackets {
        Brackets::Array => b"[",
        Brackets::Vector => b"<",
        Brackets::Struct(StructLayout::Unpacked) => b"{ ",
        Brackets::Struct(StructLayout::Packed) => b"<{ ",
    }
}

/// What stands behind the elements of a constant.
fn close_word(brackets: Brackets) -> &'static [u8]
    ensures { result.now ≡ brackets_close brackets }
{
    match brackets {
        Brackets::Array => b"]",
        Brackets::Vector => b">",
        Brackets::Struct(StructLayout::Unpacked) => b" }",
        Brackets::Struct(StructLayout::Packed) => b" }>",
    }
}

/// A constant with its type.
#[cycle(put_const)]
fn put_element(m: &LLVMModule, c: LLVMConst, out: &mut Vec<u8>) -> Result<(), AllocError>
    requires sound { IsModule m.now }
    requires within { c.0 < length m.now.consts }
    ensures text { OnOk result (out.new.items ≡ out.old.items ++ element_text (structs_of m.now) (const_at (trees_of m.now).consts c)) }
    ensures kept { Keeps out.old.items out.new.items }
{
    put_type(m, m.type_of(LLVMValue::Const(c)), out)?;
    out.push(b' ')?;
    put_const(m, c, out)
}

/// Constants with their types.
#[cycle(put_const)]
fn put_elements(m: &LLVMModule, elements: &[LLVMConst], out: &mut Vec<u8>) -> Result<(), AllocError>
    requires sound { IsModule m.now }
    requires within { All (λ c. c.0 < length m.now.consts) elements.now }
    ensures text { OnOk result (out.new.items ≡ out.old.items ++ consts_text (structs_of m.now) (consts_at (trees_of m.now).consts elements.now)) }
    ensures kept { Keeps out.old.items out.new.items }
{
    for (place, element) in elements.iter().enumerate() {
        put_comma(place, out)?;
        put_element(m, *element, out)?;
    }
    Ok(())
}

/// The elements of a constant of a type, between brackets.
#[cycle(put_const)]
#[inline(never)]
fn put_list(
    m: &LLVMModule,
    ty: LLVMType,
    elements: &[LLVMConst],
    out: &mut Vec<u8>,
) -> Result<(), AllocError>
    requires sound { IsModule m.now }
    requires ty { ty.0 < length m.now.types }
    requires within { All (λ c. c.0 < length m.now.consts) elements.now }
    ensures text { OnOk result (out.new.items ≡ out.old.items ++ list_text (structs_of m.now) (type_at (trees_of m.now).types ty) (consts_at (trees_of m.now).consts elements.now)) }
    ensures kept { Keeps out.old.items out.new.items }
{
    let brackets = brackets_of(m, ty);
    out.extend_from_slice(open_word(brackets))?;
    put_elements(m, elements, out)?;
    out.extend_from_slice(close_word(brackets))?;
    Ok(())
}

/// A vector by the constant that each element is.
#[cycle(put_const)]
#[inline(never)]
fn put_splat(m: &LLVMModule, element: LLVMConst, out: &mut Vec<u8>) -> Result<(), AllocError>
    requires sound { IsModule m.now }
    requires within { element.0 < length m.now.consts }
    ensures text { OnOk result (out.new.items ≡ out.old.items ++ splat_text (structs_of m.now) (const_at (trees_of m.now).consts element)) }
    ensures kept { Keeps out.old.items out.new.items }
{
    out.extend_from_slice(b"splat (")?;
    put_element(m, element, out)?;
    out.push(b')')?;
    Ok(())
}

/// A constant without its type; a placeholder has no text.
#[cycle(put_const)]
pub fn put_const(m: &LLVMModule, c: LLVMConst, out: &mut Vec<u8>) -> Result<(), AllocError>
    requires sound { IsModule m.now }
    requires within { c.0 < length m.now.consts }
    ensures text { OnOk result (out.new.items ≡ out.old.items ++ const_text (structs_of m.now) (const_at (trees_of m.now).consts c)) }
    ensures kept { Keeps out.old.items out.new.items }
{
    match m.const_kind(c) {
        LLVMConstKind::Int(ty, value) => put_typed(m, *ty, *value, out),
        LLVMConstKind::Filled(fill, ty) => out.extend_from_slice(filled_word(m, *fill, *ty)),
        LLVMConstKind::Bytes(_, bytes) => put_bytes(bytes.as_slice(), out),
        LLVMConstKind::List(ty, elements) => put_list(m, *ty, elements.as_slice(), out),
        LLVMConstKind::Splat(_, element) => put_splat(m, *element, out),
        LLVMConstKind::Placeholder(..) => Ok(()),
    }
}
