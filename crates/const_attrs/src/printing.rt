//! The dialect text of a constant.

ghost use Rattle.std.specs.Prelude.{◌≡◌, ◌<◌, ◌++◌, OnErr, OnOk, codes, length, map};
ghost use Rattle.std.specs.Fmt.{decimal};
ghost use Rattle.support.specs.Appended.{Keeps};
ghost use Rattle.dialect_types.specs.Text.{joined, type_text};
ghost use Rattle.dialect_types.specs.Trees.{type_at, type_trees};
ghost use Rattle.const_attrs.specs.Text.{attr_text, attr_texts, fill_head, inner_type_text};
ghost use Rattle.const_attrs.specs.Trees.{IntegerAttr, FilledAttr, BytesAttr, AggregateAttr, SplatAttr, attr_tree, attr_trees, attr_data, attrs_data, HasTypesBelow, HaveTypesBelow};

use crate::const_attr::ConstAttr;
use dialect_types::printing::{print_comma_before, print_number};
use dialect_types::type_store::TypeStore;
use dialect_types::types::{TypeHandle, TypeKind};
use kinds::fill::Fill;
use std::alloc::AllocError;
use support::appending::undo_failed;

/// Appends the type of an integer constant as it stands inside the constant's text.
fn append_inner_type(types: &TypeStore, ty: TypeHandle, out: &mut Vec<u8>) -> Result<(), AllocError>
    requires { ty.0 < length types.now }
    ensures ok { OnOk result (out.new.items ≡ out.old.items ++ inner_type_text (type_at (type_trees types.now) ty)) }
    ensures kept { Keeps out.old.items out.new.items }
{
    match types.kind(ty) {
        TypeKind::Integer(width) => {
            out.extend_from_slice(b"i")?;
            print_number(u64::from(*width), out)
        }
        _ => types.append_type(ty, out),
    }
}

/// Appends the text of an integer.
fn append_integer(
    types: &TypeStore,
    ty: TypeHandle,
    value: u64,
    out: &mut Vec<u8>,
) -> Result<(), AllocError>
    requires { ty.0 < length types.now }
    ensures ok { OnOk result (out.new.items ≡ out.old.items ++ attr_text (IntegerAttr (type_at (type_trees types.now) ty) value)) }
    ensures kept { Keeps out.old.items out.new.items }
{
    out.extend_from_slice(b"builtin.integer <")?;
    print_number(value, out)?;
    out.extend_from_slice(b": ")?;
    append_inner_type(types, ty, out)?;
    out.extend_from_slice(b">")
}

/// What zero, undef and poison begin with.
fn fill_head(fill: Fill) -> &'static [u8]
    ensures { result.now ≡ fill_head fill }
{
    match fill {
        Fill::Zero => b"llvm.zero <",
        Fill::Undef => b"llvm.undef <",
        Fill::Poison => b"llvm.poison <",
    }
}

/// Appends the text of zero, undef or poison.
fn append_filled(
    types: &TypeStore,
    fill: Fill,
    ty: TypeHandle,
    out: &mut Vec<u8>,
) -> Result<(), AllocError>
    requires { ty.0 < length types.now }
    ensures ok { OnOk result (out.new.items ≡ out.old.items ++ attr_text (FilledAttr fill (type_at (type_trees types.now) ty))) }
    ensures kept { Keeps out.old.items out.new.items }
{
    out.extend_from_slice(fill_head(fill))?;
    types.append_type(ty, out)?;
    out.extend_from_slice(b">")
}

/// Appends numbers with commas between them.
fn append_numbers(bytes: &[u8], out: &mut Vec<u8>) -> Result<(), AllocError>
    ensures ok { OnOk result (out.new.items ≡ out.old.items ++ joined (map decimal bytes.now)) }
    ensures kept { Keeps out.old.items out.new.items }
{
    for (i, byte) in bytes.iter().enumerate() {
        print_comma_before(i, out)?;
        print_number(u64::from(*byte), out)?;
    }
    Ok(())
}

/// Appends the text of bytes.
fn append_bytes(bytes: &[u8], out: &mut Vec<u8>) -> Result<(), AllocError>
    ensures ok { OnOk result (out.new.items ≡ out.old.items ++ (codes "llvm.bytes <[" ++ joined (map decimal bytes.now) ++ codes "]>")) }
    ensures kept { Keeps out.old.items out.new.items }
{
    out.extend_from_slice(b"llvm.bytes <[")?;
    append_numbers(bytes, out)?;
    out.extend_from_slice(b"]>")
}

/// Appends what stands before the type at the end of a constant's text, the type, and the sign that closes the text.
fn append_end(
    types: &TypeStore,
    before: &[u8],
    ty: TypeHandle,
    out: &mut Vec<u8>,
) -> Result<(), AllocError>
    requires { ty.0 < length types.now }
    ensures ok { OnOk result (out.new.items ≡ out.old.items ++ (before.now ++ type_text (type_at (type_trees types.now) ty) ++ codes ">")) }
    ensures kept { Keeps out.old.items out.new.items }
{
    out.extend_from_slice(before)?;
    types.append_type(ty, out)?;
    out.extend_from_slice(b">")
}

impl ConstAttr {
    /// Appends its text. Want of memory leaves `out` as it was.
    pub fn print(&self, types: &TypeStore, out: &mut Vec<u8>) -> Result<(), AllocError>
        requires { HasTypesBelow (length types.now) (attr_data self.now) }
        ensures ok { OnOk result (out.new.items ≡ out.old.items ++ attr_text (attr_tree (type_trees types.now) (attr_data self.now))) }
        ensures err { OnErr result (out.new.items ≡ out.old.items) }
    {
        let len = out.len();
        let printed = self.append(types, out);
        undo_failed(printed, out, len)
    }

    /// Appends its text, or a front of it where memory is wanting.
    #[cycle(append)]
    pub fn append(&self, types: &TypeStore, out: &mut Vec<u8>) -> Result<(), AllocError>
        requires { HasTypesBelow (length types.now) (attr_data self.now) }
        ensures ok { OnOk result (out.new.items ≡ out.old.items ++ attr_text (attr_tree (type_trees types.now) (attr_data self.now))) }
        ensures kept { Keeps out.old.items out.new.items }
    {
        match self {
            ConstAttr::Integer(ty, value) => append_integer(types, *ty, *value, out),
            ConstAttr::Zero(ty) => append_filled(types, Fill::Zero, *ty, out),
            ConstAttr::Undef(ty) => append_filled(types, Fill::Undef, *ty, out),
            ConstAttr::Poison(ty) => append_filled(types, Fill::Poison, *ty, out),
            ConstAttr::Bytes(bytes) => append_bytes(bytes.as_slice(), out),
            ConstAttr::Aggregate(elements, ty) => {
                out.extend_from_slice(b"llvm.aggregate <[")?;
                ConstAttr::append_each(elements.as_slice(), types, out)?;
                append_end(types, b"] : ", *ty, out)
            }
            ConstAttr::Splat(element, ty) => {
                out.extend_from_slice(b"llvm.splat <")?;
                element.append(types, out)?;
                append_end(types, b" : ", *ty, out)
            }
        }
    }

    /// Appends the texts of constants, with commas between them.
    #[cycle(append)]
    fn append_each(
        elements: &[ConstAttr],
        types: &TypeStore,
        out: &mut Vec<u8>,
    ) -> Result<(), AllocError>
        requires { HaveTypesBelow (length types.now) (attrs_data elements.now) }
        ensures ok { OnOk result (out.new.items ≡ out.old.items ++ joined (attr_texts (attr_trees (type_trees types.now) (attrs_data elements.now)))) }
        ensures kept { Keeps out.old.items out.new.items }
    {
        for (i, element) in elements.iter().enumerate() {
            print_comma_before(i, out)?;
            element.append(types, out)?;
        }
        Ok(())
    }
}
