//! The dialect text of types.

ghost use Rattle.std.specs.Prelude.{◌≡◌, ◌<◌, ◌≤◌, ◌+◌, ◌%◌, [], ◌++◌, codes, length, slice_get, Some, IfSome, OnErr, OnOk};
ghost use Rattle.std.specs.List.{flat_map};
ghost use Rattle.std.specs.Option.{option_map, option_map_or};
ghost use Rattle.std.specs.Fmt.{decimal};
ghost use Rattle.dialect_types.specs.declared.types.TypeKind.{TypeKind};
ghost use Rattle.dialect_types.specs.Trees.{type_at, types_at, type_trees, struct_of, structs_of, fields_of, AllBelow, StructType, FunctionType};
ghost use Rattle.dialect_types.specs.Text.{Keeps, comma_before, counted_text, floating_text, joined, struct_head, type_text, type_texts, body_head, body_text, struct_text, truth_text, vector_head};

use crate::identifier::Identifier;
use crate::type_store::TypeStore;
use crate::types::{StructFields, TypeHandle, TypeKind};
use itoa::Buffer;
use kinds::types::{Floating, StructLayout, VectorTypeKind};
use std::alloc::AllocError;
use support::appending::undo_failed;

/// The byte of the last digit of a number.
#[inline(always)]
fn digit(number: u64) -> u8
    ensures { result ≡ 48 + number % 10 }
{
    b'0' + (number % 10) as u8
}

/// A number of one digit.
#[inline(always)]
#[tactic(auto, using(crate::proofs::DigitLemmas::one_digit))]
fn one_digit(n: u64) -> [u8; 1]
    requires { n < 10 }
    ensures { result ≡ decimal n }
{
    [digit(n)]
}

/// A number of two digits.
#[inline(always)]
#[tactic(auto, using(crate::proofs::DigitLemmas::two_digits))]
fn two_digits(n: u64) -> [u8; 2]
    requires { (10 ≤ n) × (n < 100) }
    ensures { result ≡ decimal n }
{
    [digit(n / 10), digit(n)]
}

/// A number of three digits.
#[inline(always)]
#[tactic(auto, using(crate::proofs::DigitLemmas::three_digits))]
fn three_digits(n: u64) -> [u8; 3]
    requires { (100 ≤ n) × (n < 1000) }
    ensures { result ≡ decimal n }
{
    [digit(n / 100), digit(n / 10), digit(n)]
}

/// A number of four digits.
#[inline(always)]
#[tactic(auto, using(crate::proofs::DigitLemmas::four_digits))]
fn four_digits(n: u64) -> [u8; 4]
    requires { (1000 ≤ n) × (n < 10000) }
    ensures { result ≡ decimal n }
{
    [digit(n / 1000), digit(n / 100), digit(n / 10), digit(n)]
}

/// Appends a number of up to four digits, as most numbers of a text are.
fn print_short(n: u64, out: &mut Vec<u8>) -> Result<(), AllocError>
    requires { n < 10000 }
    ensures ok { OnOk result (out.new.items ≡ out.old.items ++ decimal n) }
    ensures kept { Keeps out.old.items out.new.items }
{
    if n < 10 {
        out.extend_from_slice(&one_digit(n))
    } else if n < 100 {
        out.extend_from_slice(&two_digits(n))
    } else if n < 1000 {
        out.extend_from_slice(&three_digits(n))
    } else {
        out.extend_from_slice(&four_digits(n))
    }
}

/// Appends a number in decimal.
pub fn print_number(number: u64, out: &mut Vec<u8>) -> Result<(), AllocError>
    ensures ok { OnOk result (out.new.items ≡ out.old.items ++ decimal number) }
    ensures kept { Keeps out.old.items out.new.items }
{
    if number < 10000 {
        return print_short(number, out);
    }
    let mut buffer = Buffer::new();
    out.extend_from_slice(buffer.format(number).as_bytes())
}

/// Appends a comma before each text but the first.
pub fn print_comma_before(place: usize, out: &mut Vec<u8>) -> Result<(), AllocError>
    ensures ok { OnOk result (out.new.items ≡ out.old.items ++ comma_before place) }
    ensures kept { Keeps out.old.items out.new.items }
{
    if place == 0 {
        return Ok(());
    }
    out.extend_from_slice(b", ")
}

/// Appends the word of a truth value.
pub fn print_truth(truth: bool, out: &mut Vec<u8>) -> Result<(), AllocError>
    ensures ok { OnOk result (out.new.items ≡ out.old.items ++ truth_text truth) }
    ensures kept { Keeps out.old.items out.new.items }
{
    if truth {
        out.extend_from_slice(b"true")
    } else {
        out.extend_from_slice(b"false")
    }
}

/// Appends what stands behind the parameters of a function type.
fn print_func_end(variadic: bool, out: &mut Vec<u8>) -> Result<(), AllocError>
    ensures ok { OnOk result (out.new.items ≡ out.old.items ++ codes ") variadic = " ++ truth_text variadic ++ codes ">") }
    ensures kept { Keeps out.old.items out.new.items }
{
    out.extend_from_slice(b") variadic = ")?;
    print_truth(variadic, out)?;
    out.extend_from_slice(b">")
}

/// The text of an integer type of a width that most programs use.
#[tactic(auto, using(crate::proofs::DigitLemmas::i1_text, crate::proofs::DigitLemmas::i8_text, crate::proofs::DigitLemmas::i32_text, crate::proofs::DigitLemmas::i64_text))]
#[inline(always)]
fn common_integer(width: u32) -> Option<&'static [u8]>
    ensures { IfSome result (λ text. text.now ≡ codes "builtin.integer i" ++ decimal width) }
{
    match width {
        1 => Some(b"builtin.integer i1"),
        8 => Some(b"builtin.integer i8"),
        32 => Some(b"builtin.integer i32"),
        64 => Some(b"builtin.integer i64"),
        _ => None,
    }
}

/// Appends the text of an integer type.
fn append_integer_type(width: u32, out: &mut Vec<u8>) -> Result<(), AllocError>
    ensures ok { OnOk result (out.new.items ≡ out.old.items ++ (codes "builtin.integer i" ++ decimal width)) }
    ensures kept { Keeps out.old.items out.new.items }
{
    match common_integer(width) {
        Some(text) => out.extend_from_slice(text),
        None => {
            out.extend_from_slice(b"builtin.integer i")?;
            print_number(u64::from(width), out)
        }
    }
}

/// Appends the text of a pointer type.
fn append_pointer_type(space: u32, out: &mut Vec<u8>) -> Result<(), AllocError>
    ensures ok { OnOk result (out.new.items ≡ out.old.items ++ (codes "llvm.ptr (" ++ decimal space ++ codes ")")) }
    ensures kept { Keeps out.old.items out.new.items }
{
    out.extend_from_slice(b"llvm.ptr (")?;
    print_number(u64::from(space), out)?;
    out.extend_from_slice(b")")
}

/// The word of a floating-point type.
fn floating_text(of: Floating) -> &'static [u8]
    ensures { result.now ≡ floating_text of }
{
    match of {
        Floating::Half => b"builtin.fp16",
        Floating::BFloat => b"builtin.bf16",
        Floating::Float => b"builtin.fp32",
        Floating::Double => b"builtin.fp64",
    }
}

/// What a vector type begins with.
fn vector_head(kind: VectorTypeKind) -> &'static [u8]
    ensures { result.now ≡ vector_head kind }
{
    match kind {
        VectorTypeKind::Fixed => b"llvm.vector [",
        VectorTypeKind::Scalable => b"llvm.vector [vscale ",
    }
}

/// What a struct type begins with.
fn struct_head(layout: StructLayout) -> &'static [u8]
    ensures { result.now ≡ struct_head layout }
{
    match layout {
        StructLayout::Unpacked => b"llvm.struct <{",
        StructLayout::Packed => b"llvm.struct <packed {",
    }
}

/// What the fields of a struct with a name begin with.
fn body_head(layout: StructLayout) -> &'static [u8]
    ensures { result.now ≡ body_head layout }
{
    match layout {
        StructLayout::Unpacked => b"{",
        StructLayout::Packed => b"packed {",
    }
}

/// Appends the text of a struct with a name, as a type.
fn append_named(name: &Identifier, out: &mut Vec<u8>) -> Result<(), AllocError>
    ensures ok { OnOk result (out.new.items ≡ out.old.items ++ (codes "llvm.struct <@" ++ name.now ++ codes ">")) }
    ensures kept { Keeps out.old.items out.new.items }
{
    out.extend_from_slice(b"llvm.struct <@")?;
    out.extend_from_slice(name.as_str().as_bytes())?;
    out.extend_from_slice(b">")
}

impl TypeStore {
    /// Appends the text of a type. Want of memory leaves `out` as it was.
    pub fn print_type(&self, ty: TypeHandle, out: &mut Vec<u8>) -> Result<(), AllocError>
        requires { ty.0 < length self.now }
        ensures ok { OnOk result (out.new.items ≡ out.old.items ++ type_text (type_at (type_trees self.now) ty)) }
        ensures err { OnErr result (out.new.items ≡ out.old.items) }
    {
        let len = out.len();
        let printed = self.append_type(ty, out);
        undo_failed(printed, out, len)
    }

    /// Appends the text of a type, or a front of it where memory is wanting.
    #[cycle(append_type)]
    pub fn append_type(&self, ty: TypeHandle, out: &mut Vec<u8>) -> Result<(), AllocError>
        requires { ty.0 < length self.now }
        ensures ok { OnOk result (out.new.items ≡ out.old.items ++ type_text (type_at (type_trees self.now) ty)) }
        ensures kept { Keeps out.old.items out.new.items }
    {
        match self.kind(ty) {
            TypeKind::Void => out.extend_from_slice(b"llvm.void"),
            TypeKind::Integer(width) => append_integer_type(*width, out),
            TypeKind::Pointer(space) => append_pointer_type(*space, out),
            TypeKind::Floating(of) => out.extend_from_slice(floating_text(*of)),
            TypeKind::Array(element, count) => {
                self.append_counted(b"llvm.array [", *count, *element, out)
            }
            TypeKind::Vector(element, count, kind) => {
                self.append_counted(vector_head(*kind), u64::from(*count), *element, out)
            }
            TypeKind::Struct { fields, layout } => {
                self.append_struct(*layout, fields.as_slice(), out)
            }
            TypeKind::Named { name, .. } => append_named(name, out),
            TypeKind::Func {
                result,
                params,
                variadic,
            } => self.append_func(*result, params.as_slice(), *variadic, out),
        }
    }

    /// Appends the text of so many of a type, which begins as an array or a vector does.
    #[cycle(append_type)]
    fn append_counted(
        &self,
        head: &[u8],
        count: u64,
        element: TypeHandle,
        out: &mut Vec<u8>,
    ) -> Result<(), AllocError>
        requires { element.0 < length self.now }
        ensures ok { OnOk result (out.new.items ≡ out.old.items ++ counted_text head.now count (type_text (type_at (type_trees self.now) element))) }
        ensures kept { Keeps out.old.items out.new.items }
    {
        out.extend_from_slice(head)?;
        print_number(count, out)?;
        out.extend_from_slice(b" x ")?;
        self.append_type(element, out)?;
        out.extend_from_slice(b"]")
    }

    /// Appends the text of a struct type.
    #[cycle(append_type)]
    fn append_struct(
        &self,
        layout: StructLayout,
        fields: &[TypeHandle],
        out: &mut Vec<u8>,
    ) -> Result<(), AllocError>
        requires { AllBelow (length self.now) fields.now }
        ensures ok { OnOk result (out.new.items ≡ out.old.items ++ type_text (StructType layout (types_at (type_trees self.now) fields.now))) }
        ensures kept { Keeps out.old.items out.new.items }
    {
        out.extend_from_slice(struct_head(layout))?;
        self.append_types(fields, out)?;
        out.extend_from_slice(b"}>")
    }

    /// Appends the text of a function type.
    #[cycle(append_type)]
    fn append_func(
        &self,
        returned: TypeHandle,
        params: &[TypeHandle],
        variadic: bool,
        out: &mut Vec<u8>,
    ) -> Result<(), AllocError>
        requires { (returned.0 < length self.now) × AllBelow (length self.now) params.now }
        ensures ok { OnOk result (out.new.items ≡ out.old.items ++ type_text (FunctionType (type_at (type_trees self.now) returned) (types_at (type_trees self.now) params.now) variadic)) }
        ensures kept { Keeps out.old.items out.new.items }
    {
        out.extend_from_slice(b"llvm.func <")?;
        self.append_type(returned, out)?;
        out.extend_from_slice(b" (")?;
        self.append_types(params, out)?;
        print_func_end(variadic, out)
    }

    /// Appends the texts of types, with commas between them.
    #[cycle(append_type)]
    fn append_types(&self, types: &[TypeHandle], out: &mut Vec<u8>) -> Result<(), AllocError>
        requires { AllBelow (length self.now) types.now }
        ensures ok { OnOk result (out.new.items ≡ out.old.items ++ joined (type_texts (types_at (type_trees self.now) types.now))) }
        ensures kept { Keeps out.old.items out.new.items }
    {
        for (i, ty) in types.iter().enumerate() {
            print_comma_before(i, out)?;
            self.append_type(*ty, out)?;
        }
        Ok(())
    }

    /// Appends the lines of the structs that have a name, or a front of them where memory is wanting.
    pub fn append_structs(&self, out: &mut Vec<u8>) -> Result<(), AllocError>
        ensures ok { OnOk result (out.new.items ≡ out.old.items ++ flat_map struct_text (structs_of self.now)) }
        ensures kept { Keeps out.old.items out.new.items }
    {
        for t in 0..self.len() {
            self.append_line(TypeHandle(t), out)?;
        }
        Ok(())
    }

    /// Appends the line of a type, where it is a struct with a name.
    fn append_line(&self, ty: TypeHandle, out: &mut Vec<u8>) -> Result<(), AllocError>
        requires { ty.0 < length self.now }
        ensures ok { (k : TypeKind) → slice_get self.now ty.0 ≡ Some k → OnOk result (out.new.items ≡ out.old.items ++ option_map_or struct_text (struct_of (type_trees self.now) k) []) }
        ensures kept { Keeps out.old.items out.new.items }
    {
        match self.kind(ty) {
            TypeKind::Named { name, body } => self.append_struct_line(name, body, out),
            _ => Ok(()),
        }
    }

    /// Appends the line of a struct with a name.
    fn append_struct_line(
        &self,
        name: &Identifier,
        body: &Option<StructFields>,
        out: &mut Vec<u8>,
    ) -> Result<(), AllocError>
        requires { IfSome body.now (λ b. AllBelow (length self.now) b.types) }
        ensures ok { OnOk result (out.new.items ≡ out.old.items ++ struct_text (record { name = name.now; body = option_map (fields_of (type_trees self.now)) body.now })) }
        ensures kept { Keeps out.old.items out.new.items }
    {
        out.extend_from_slice(b"  llvm.struct @")?;
        out.extend_from_slice(name.as_str().as_bytes())?;
        out.extend_from_slice(b" = ")?;
        self.append_body(body, out)?;
        out.extend_from_slice(b"\n")
    }

    /// Appends the fields of a struct, as they stand beside its name.
    fn append_body(&self, body: &Option<StructFields>, out: &mut Vec<u8>) -> Result<(), AllocError>
        requires { IfSome body.now (λ b. AllBelow (length self.now) b.types) }
        ensures ok { OnOk result (out.new.items ≡ out.old.items ++ body_text (option_map (fields_of (type_trees self.now)) body.now)) }
        ensures kept { Keeps out.old.items out.new.items }
    {
        match body {
            None => out.extend_from_slice(b"opaque"),
            Some(fields) => {
                out.extend_from_slice(body_head(fields.layout))?;
                self.append_types(fields.types.as_slice(), out)?;
                out.extend_from_slice(b"}")
            }
        }
    }
}
