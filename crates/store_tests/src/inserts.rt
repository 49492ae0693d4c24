//! Constants of a module with another element at one place, and those that have no such place.

ghost use Rattle.std.specs.Prelude.{◌<◌, IfSome, length};

use kinds::fill::Fill;
use kinds::fitting::{is_array_of, is_field, is_vector_of};
use kinds::types::{StructLayout, VectorTypeKind};
use llvm_core::consts::LLVMConstKind;
use llvm_core::module::{LLVMModule, shape_of};
use llvm_core::numbers::{LLVMConst, LLVMType};
use llvm_core::types::LLVMTypeKind;
use std::alloc::Global;
use support::items::Items;

fn byte(m: &mut LLVMModule) -> Option<LLVMType>
    ensures { IfSome result (λ t. t.0 < length m.new.types) }
{
    m.type_get(LLVMTypeKind::Int(8)).ok()
}

/// An array of so many.
fn array(m: &mut LLVMModule, count: u64, element: LLVMType) -> Option<LLVMType>
    requires { element.0 < length m.old.types }
{
    if !is_array_of(count, shape_of(m.type_kind(element))) {
        return None;
    }
    m.type_get(LLVMTypeKind::Array(count, element)).ok()
}

/// A vector of a multiple of two.
fn scalable(m: &mut LLVMModule, element: LLVMType) -> Option<LLVMType>
    requires { element.0 < length m.old.types }
{
    if !is_vector_of(2, shape_of(m.type_kind(element))) {
        return None;
    }
    let kind = LLVMTypeKind::Vector(VectorTypeKind::Scalable, 2, element);
    m.type_get(kind).ok()
}

/// A struct of one field.
fn holder(alloc: Global, m: &mut LLVMModule, field: LLVMType) -> Option<LLVMType>
    requires { field.0 < length m.old.types }
{
    if !is_field(shape_of(m.type_kind(field))) {
        return None;
    }
    let mut fields = Items::new(alloc);
    fields.push(field).ok()?;
    let kind = LLVMTypeKind::Literal {
        fields,
        layout: StructLayout::Unpacked,
    };
    m.type_get(kind).ok()
}

fn text(alloc: Global, bytes: &[u8]) -> Option<Items<u8>> {
    let mut all = Items::new(alloc);
    for byte in bytes {
        all.push(*byte).ok()?;
    }
    Some(all)
}

/// A constant, where it may be made of what it names.
fn constant(m: &mut LLVMModule, kind: LLVMConstKind) -> Option<LLVMConst> {
    if !m.may_hold(&kind) {
        return None;
    }
    m.const_get(kind).ok()
}

/// What inserting an element answers, where it may be asked.
fn with(
    m: &mut LLVMModule,
    aggregate: LLVMConst,
    place: u64,
    element: LLVMConst,
) -> Option<Option<LLVMConst>> {
    if aggregate.0 >= m.const_count() {
        return None;
    }
    if !m.may_insert(aggregate, place, element) {
        return None;
    }
    m.const_insert(aggregate, place, element).ok()
}

/// Whether the bytes `abc` are `azc` with `z` at place 1, and have no place 3.
fn is_byte_replaced(alloc: Global, m: &mut LLVMModule) -> Option<bool> {
    let byte = byte(m)?;
    let ty = array(m, 3, byte)?;
    let old = constant(m, LLVMConstKind::Bytes(ty, text(alloc, b"abc".as_slice())?))?;
    let new = constant(m, LLVMConstKind::Bytes(ty, text(alloc, b"azc".as_slice())?))?;
    let z = constant(m, LLVMConstKind::Int(byte, 122))?;
    let got = with(m, old, 1, z)??;
    Some(got.0 == new.0 && with(m, old, 3, z)?.is_none())
}

/// Whether the zero of a struct is another constant with 1 in its field, and itself once 0 is there again.
fn is_zero_again(alloc: Global, m: &mut LLVMModule) -> Option<bool> {
    let byte = byte(m)?;
    let ty = holder(alloc, m, byte)?;
    let zero = constant(m, LLVMConstKind::Filled(Fill::Zero, ty))?;
    let none = constant(m, LLVMConstKind::Int(byte, 0))?;
    let one = constant(m, LLVMConstKind::Int(byte, 1))?;
    let list = with(m, zero, 0, one)??;
    let again = with(m, list, 0, none)??;
    Some(list.0 != zero.0 && again.0 == zero.0)
}

/// Whether a vector whose length is not known has no places.
fn is_placeless(m: &mut LLVMModule) -> Option<bool> {
    let byte = byte(m)?;
    let ty = scalable(m, byte)?;
    let zero = constant(m, LLVMConstKind::Filled(Fill::Zero, ty))?;
    let one = constant(m, LLVMConstKind::Int(byte, 1))?;
    Some(with(m, zero, 0, one)?.is_none())
}

/// What is otherwise, if anything.
fn fault_in(alloc: Global, m: &mut LLVMModule) -> &'static str {
    if !is_byte_replaced(alloc, m).unwrap_or(false) {
        return "bytes";
    }
    if !is_zero_again(alloc, m).unwrap_or(false) {
        return "struct";
    }
    if !is_placeless(m).unwrap_or(false) {
        return "scalable vector";
    }
    ""
}

/// The same in a new module.
fn fault(alloc: Global) -> &'static str {
    match LLVMModule::new(alloc, "m") {
        Ok(mut m) => fault_in(alloc, &mut m),
        Err(_) => "memory",
    }
}

#[test]
fn an_element_is_replaced(rt: HostRuntime) {
    assert_eq!(rt; fault(rt.alloc()), "");
}
