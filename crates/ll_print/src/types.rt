//! Prints numbers and types.

ghost use Rattle.std.specs.Prelude.{◌≡◌, ◌<◌, ◌≤◌, ◌++◌, All, codes, length, decimal, OnOk};
ghost use Rattle.kinds.specs.Held.{is_void};
ghost use Rattle.support.specs.Appended.{Keeps};
ghost use Rattle.llvm_core.specs.Sound.{IsModule};
ghost use Rattle.llvm_core.specs.Data.{trees_of, type_at, types_at, StructType};
ghost use Rattle.ll_literals.specs.Names.{local, printed_name};
ghost use Rattle.ll_print.specs.Printing.{floating_text, other_text, space_text, vector_open, struct_open, counted_text, fields_text, type_text, comma_text};
ghost use Rattle.ll_print.specs.Parts.{gap_text, close_text};

use itoa::Buffer;
use kinds::fitting::is_nothing;
use kinds::types::{Floating, OtherType, StructLayout, VectorTypeKind};
use ll_literals::printed::put_name;
use llvm_core::module::{LLVMModule, shape_of};
use llvm_core::numbers::LLVMType;
use llvm_core::types::LLVMTypeKind;
use std::alloc::AllocError;

/// A number of one digit.
#[inline(always)]
#[tactic(auto, using(crate::proofs::DigitLaws::one_digit))]
fn one_digit(n: u128) -> [u8; 1]
    requires { n < 10 }
    ensures { result ≡ decimal n }
{
    [b'0' + n as u8]
}

/// A number of two digits.
#[inline(always)]
#[tactic(auto, using(crate::proofs::DigitLaws::two_digits))]
fn two_digits(n: u128) -> [u8; 2]
    requires { (10 ≤ n) × (n < 100) }
    ensures { result ≡ decimal n }
{
    let short = n as u8;
    [b'0' + short / 10, b'0' + short % 10]
}

/// A number of any number of digits.
#[inline(never)]
fn put_long(number: u128, out: &mut Vec<u8>) -> Result<(), AllocError>
    ensures text { OnOk result (out.new.items ≡ out.old.items ++ decimal number) }
    ensures kept { Keeps out.old.items out.new.items }
{
    let mut digits = Buffer::new();
    out.extend_from_slice(digits.format(number).as_bytes())
}

/// A number in decimal digits.
#[inline(always)]
pub fn put_decimal(number: u128, out: &mut Vec<u8>) -> Result<(), AllocError>
    ensures text { OnOk result (out.new.items ≡ out.old.items ++ decimal number) }
    ensures kept { Keeps out.old.items out.new.items }
{
    // Most widths and constants have one digit or two, and need no buffer.
    if number < 10 {
        return out.extend_from_slice(&one_digit(number));
    }
    if number < 100 {
        return out.extend_from_slice(&two_digits(number));
    }
    put_long(number, out)
}

/// The integer type of a width of one digit.
#[inline(always)]
#[tactic(auto, using(crate::proofs::DigitLaws::one_digit))]
fn one_digit_type(width: u32) -> [u8; 2]
    requires { width < 10 }
    ensures { result ≡ codes "i" ++ decimal width }
{
    [b'i', b'0' + width as u8]
}

/// The integer type of a width of two digits.
#[inline(always)]
#[tactic(auto, using(crate::proofs::DigitLaws::two_digits))]
fn two_digits_type(width: u32) -> [u8; 3]
    requires { (10 ≤ width) × (width < 100) }
    ensures { result ≡ codes "i" ++ decimal width }
{
    let short = width as u8;
    [b'i', b'0' + short / 10, b'0' + short % 10]
}

/// The integer type of a width. Most widths have one digit or two, and are put at once.
#[inline(always)]
fn put_width(width: u32, out: &mut Vec<u8>) -> Result<(), AllocError>
    ensures text { OnOk result (out.new.items ≡ out.old.items ++ (codes "i" ++ decimal width)) }
    ensures kept { Keeps out.old.items out.new.items }
{
    if width < 10 {
        return out.extend_from_slice(&one_digit_type(width));
    }
    if width < 100 {
        return out.extend_from_slice(&two_digits_type(width));
    }
    out.push(b'i')?;
    put_long(u128::from(width), out)
}

/// A pointer type of an address space that is written. Most are of the first, so this stands apart.
#[inline(never)]
fn put_spaced(space: u32, out: &mut Vec<u8>) -> Result<(), AllocError>
    ensures text { OnOk result (out.new.items ≡ out.old.items ++ (codes "ptr addrspace(" ++ decimal space ++ codes ")")) }
    ensures kept { Keeps out.old.items out.new.items }
{
    out.extend_from_slice(b"ptr addrspace(")?;
    put_decimal(u128::from(space), out)?;
    out.push(b')')?;
    Ok(())
}

/// The pointer type of an address space.
#[inline(always)]
fn put_pointer(space: u32, out: &mut Vec<u8>) -> Result<(), AllocError>
    ensures text { OnOk result (out.new.items ≡ out.old.items ++ (codes "ptr" ++ space_text space)) }
    ensures kept { Keeps out.old.items out.new.items }
{
    if space == 0 {
        return out.extend_from_slice(b"ptr");
    }
    put_spaced(space, out)
}

/// The word of a floating-point type, a line for each.
fn floating_word(of: Floating) -> &'static [u8]
    ensures { result.now ≡ floating_text of }
{
    match of {
        Floating::Half => b"half",
        Floating::BFloat => b"bfloat",
        Floating::Float => b"float",
        Floating::Double => b"double",
    }
}

/// A floating-point type.
fn put_floating(of: Floating, out: &mut Vec<u8>) -> Result<(), AllocError>
    ensures text { OnOk result (out.new.items ≡ out.old.items ++ floating_text of) }
    ensures kept { Keeps out.old.items out.new.items }
{
    out.extend_from_slice(floating_word(of))
}

/// The word of a type for which the dialect has none, a line for each.
fn other_word(of: OtherType) -> &'static [u8]
    ensures { result.now ≡ other_text of }
{
    match of {
        OtherType::X86Fp80 => b"x86_fp80",
        OtherType::Fp128 => b"fp128",
        OtherType::PpcFp128 => b"ppc_fp128",
        OtherType::X86Amx => b"x86_amx",
        OtherType::Token => b"token",
    }
}

/// A type for which the dialect has none: no module back has one, so this stands apart.
#[inline(never)]
fn put_other(of: OtherType, out: &mut Vec<u8>) -> Result<(), AllocError>
    ensures text { OnOk result (out.new.items ≡ out.old.items ++ other_text of) }
    ensures kept { Keeps out.old.items out.new.items }
{
    out.extend_from_slice(other_word(of))
}

/// Whether a type is void.
#[inline(always)]
pub fn is_void(m: &LLVMModule, ty: LLVMType) -> bool
    requires sound { IsModule m.now }
    requires within { ty.0 < length m.now.types }
    ensures { result ≡ is_void (type_at (trees_of m.now).types ty) }
{
    is_nothing(shape_of(m.type_kind(ty)))
}

/// What stands before the number of a vector.
fn vector_open(kind: VectorTypeKind) -> &'static [u8]
    ensures { result.now ≡ vector_open kind }
{
    match kind {
        VectorTypeKind::Fixed => b"<",
        VectorTypeKind::Scalable => b"<vscale x ",
    }
}

/// What stands before the fields of a struct.
fn struct_open(layout: StructLayout) -> &'static [u8]
    ensures { result.now ≡ struct_open layout }
{
    match layout {
        StructLayout::Unpacked => b"{",
        StructLayout::Packed => b"<{",
    }
}

/// What stands behind the fields of a struct, and a blank before it where there are any.
fn put_close(layout: StructLayout, fields: usize, out: &mut Vec<u8>) -> Result<(), AllocError>
    ensures text { OnOk result (out.new.items ≡ out.old.items ++ close_text layout fields) }
    ensures kept { Keeps out.old.items out.new.items }
{
    match (layout, fields) {
        (StructLayout::Unpacked, 0) => out.extend_from_slice(b"}"),
        (StructLayout::Unpacked, _) => out.extend_from_slice(b" }"),
        (StructLayout::Packed, 0) => out.extend_from_slice(b"}>"),
        (StructLayout::Packed, _) => out.extend_from_slice(b" }>"),
    }
}

/// What stands before a field: a blank, and a comma before that but for the first.
fn put_gap(place: usize, out: &mut Vec<u8>) -> Result<(), AllocError>
    ensures text { OnOk result (out.new.items ≡ out.old.items ++ gap_text place) }
    ensures kept { Keeps out.old.items out.new.items }
{
    if place == 0 {
        return out.extend_from_slice(b" ");
    }
    out.extend_from_slice(b", ")
}

/// A comma and a blank before an item of a list, but for the first.
pub fn put_comma(place: usize, out: &mut Vec<u8>) -> Result<(), AllocError>
    ensures text { OnOk result (out.new.items ≡ out.old.items ++ comma_text place) }
    ensures kept { Keeps out.old.items out.new.items }
{
    if place > 0 {
        out.extend_from_slice(b", ")?;
    }
    Ok(())
}

/// So many of a type, between what stands before and behind.
#[cycle(put_type)]
#[inline(never)]
fn put_counted(
    m: &LLVMModule,
    before: &[u8],
    count: u64,
    element: LLVMType,
    behind: &[u8],
    out: &mut Vec<u8>,
) -> Result<(), AllocError>
    requires sound { IsModule m.now }
    requires within { element.0 < length m.now.types }
    ensures text { OnOk result (out.new.items ≡ out.old.items ++ counted_text before.now count (type_text (type_at (trees_of m.now).types element)) behind.now) }
    ensures kept { Keeps out.old.items out.new.items }
{
    out.extend_from_slice(before)?;
    put_decimal(u128::from(count), out)?;
    out.extend_from_slice(b" x ")?;
    put_type(m, element, out)?;
    out.extend_from_slice(behind)?;
    Ok(())
}

/// `%` and the name of a struct.
#[inline(never)]
pub fn put_named(name: &str, out: &mut Vec<u8>) -> Result<(), AllocError>
    ensures text { OnOk result (out.new.items ≡ out.old.items ++ local (printed_name name.now)) }
    ensures kept { Keeps out.old.items out.new.items }
{
    out.push(b'%')?;
    put_name(name.as_bytes(), out)
}

/// The fields of a struct.
#[cycle(put_type)]
fn put_fields(m: &LLVMModule, fields: &[LLVMType], out: &mut Vec<u8>) -> Result<(), AllocError>
    requires sound { IsModule m.now }
    requires within { All (λ t. t.0 < length m.now.types) fields.now }
    ensures text { OnOk result (out.new.items ≡ out.old.items ++ fields_text (types_at (trees_of m.now).types fields.now)) }
    ensures kept { Keeps out.old.items out.new.items }
{
    for (place, ty) in fields.iter().enumerate() {
        put_gap(place, out)?;
        put_type(m, *ty, out)?;
    }
    Ok(())
}

/// A struct by its fields.
#[cycle(put_type)]
#[inline(never)]
pub fn put_struct(
    m: &LLVMModule,
    layout: StructLayout,
    fields: &[LLVMType],
    out: &mut Vec<u8>,
) -> Result<(), AllocError>
    requires sound { IsModule m.now }
    requires within { All (λ t. t.0 < length m.now.types) fields.now }
    ensures text { OnOk result (out.new.items ≡ out.old.items ++ type_text (StructType layout (types_at (trees_of m.now).types fields.now))) }
    ensures kept { Keeps out.old.items out.new.items }
{
    out.extend_from_slice(struct_open(layout))?;
    put_fields(m, fields, out)?;
    put_close(layout, fields.len(), out)?;
    Ok(())
}

/// A type.
#[cycle(put_type)]
#[inline(always)]
pub fn put_type(m: &LLVMModule, ty: LLVMType, out: &mut Vec<u8>) -> Result<(), AllocError>
    requires sound { IsModule m.now }
    requires within { ty.0 < length m.now.types }
    ensures text { OnOk result (out.new.items ≡ out.old.items ++ type_text (type_at (trees_of m.now).types ty)) }
    ensures kept { Keeps out.old.items out.new.items }
{
    match m.type_kind(ty) {
        LLVMTypeKind::Void => out.extend_from_slice(b"void"),
        LLVMTypeKind::Int(width) => put_width(*width, out),
        LLVMTypeKind::Ptr(space) => put_pointer(*space, out),
        LLVMTypeKind::Floating(of) => put_floating(*of, out),
        LLVMTypeKind::Other(of) => put_other(*of, out),
        LLVMTypeKind::Array(count, element) => put_counted(m, b"[", *count, *element, b"]", out),
        LLVMTypeKind::Vector(kind, count, element) => {
            put_counted(
                m,
                vector_open(*kind),
                u64::from(*count),
                *element,
                b">",
                out,
            )
        }
        LLVMTypeKind::Literal { fields, layout } => put_struct(m, *layout, fields.as_slice(), out),
        LLVMTypeKind::Named(name) => put_named(name.as_str(), out),
        LLVMTypeKind::Function { .. } => Ok(()),
    }
}
