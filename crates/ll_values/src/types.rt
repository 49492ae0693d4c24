//! Kinds of types, by what they are made of.

ghost use Rattle.std.specs.Prelude.{◌≡◌, ◌≤◌, ◌<◌, true, Some, None, Err, All, IfOk, IfSome, IsTrue, length};
ghost use Rattle.std.specs.Option.{option_map};
ghost use Rattle.kinds.specs.Types.{shape};
ghost use Rattle.kinds.specs.Fitting.{is_field};
ghost use Rattle.llvm_core.specs.Parts.{shape_at, IsTypeOver, HasFitParts};
ghost use Rattle.llvm_core.specs.Sound.{IsModule};
ghost use Rattle.llvm_core.specs.Data.{trees_of, type_at, types_at, type_tree};
ghost use Rattle.llvm_core.specs.declared.numbers.LLVMType.{LLVMType};
ghost use Rattle.ll_lines.specs.Views.{IsTypeIn};
ghost use Rattle.ll_values.specs.Lists.{list_at};
ghost use Rattle.ll_values.specs.Values.{int_type, array_type, vector_type, are_fields, struct_of, named_type, body_of};
ghost use Rattle.ll_values.specs.Words.{flat_type};
ghost use Rattle.ll_values.specs.Views.{fields_view, AreFieldsOf, IsStoreIn};

use crate::store::Store;
use crate::value::Fields;
use crate::value_err::ValueErr;
use crate::words::{Flat, flat_of, int_width};
use kinds::fitting::{Shape, is_array_of, is_field, is_vector_of};
use kinds::types::{StructLayout, VectorTypeKind};
use ll_literals::numbers::number;
use ll_literals::symbols::symbol_name;
use llvm_core::module::{LLVMModule, shape_of};
use llvm_core::numbers::LLVMType;
use llvm_core::types::LLVMTypeKind;
use std::alloc::{AllocError, Global};
use support::items::Items;
use support::text::Text;

/// What rules look at in a type.
fn shape_in(m: &LLVMModule, ty: LLVMType) -> Shape
    requires sound { IsModule m.now }
    requires there { IsTypeIn m.now ty }
    ensures kept { result ≡ shape_at m.now.types ty }
    ensures tree { result ≡ shape (type_at (trees_of m.now).types ty) }
{
    shape_of(m.type_kind(ty))
}

/// The type that a word is alone.
pub fn flat_kind(m: &LLVMModule, word: &[u8]) -> Option<LLVMTypeKind>
    ensures made { IfSome result (λ k. flat_type word.now ≡ Some (type_tree (trees_of m.now).types k)) }
    ensures over { IfSome result (IsTypeOver (length m.now.types)) }
    ensures fit { IfSome result (HasFitParts m.now.types) }
    ensures none { result ≡ None → flat_type word.now ≡ None }
{
    let _ = m;
    match flat_of(word)? {
        Flat::Floating(of) => Some(LLVMTypeKind::Floating(of)),
        Flat::Other(of) => Some(LLVMTypeKind::Other(of)),
    }
}

/// An integer type.
pub fn int_kind(m: &LLVMModule, text: &[u8]) -> Option<LLVMTypeKind>
    ensures made { IfSome result (λ k. int_type text.now ≡ Some (type_tree (trees_of m.now).types k)) }
    ensures over { IfSome result (IsTypeOver (length m.now.types)) }
    ensures fit { IfSome result (HasFitParts m.now.types) }
    ensures none { result ≡ None → int_type text.now ≡ None }
{
    let _ = m;
    Some(LLVMTypeKind::Int(int_width(text)?))
}

/// The struct that a token names.
pub fn named_kind(alloc: Global, m: &LLVMModule, token: &[u8]) -> Result<LLVMTypeKind, ValueErr>
    ensures made { IfOk result (λ k. named_type token.now ≡ Some (type_tree (trees_of m.now).types k)) }
    ensures over { IfOk result (IsTypeOver (length m.now.types)) }
    ensures fit { IfOk result (HasFitParts m.now.types) }
    ensures not_yet { result ≡ Err ValueErr.NotYet → named_type token.now ≡ None }
{
    let _ = m;
    let Some(name) = symbol_name(alloc, token)? else {
        return Err(ValueErr::NotYet);
    };
    Ok(LLVMTypeKind::Named(Text::copy(alloc, name.as_str())?))
}

/// So many of a type, where they make an array.
pub fn array_kind(m: &LLVMModule, count: &[u8], element: LLVMType) -> Option<LLVMTypeKind>
    requires sound { IsModule m.now }
    requires there { IsTypeIn m.now element }
    ensures made { IfSome result (λ k. array_type count.now (type_at (trees_of m.now).types element) ≡ Some (type_tree (trees_of m.now).types k)) }
    ensures over { IfSome result (IsTypeOver (length m.now.types)) }
    ensures fit { IfSome result (HasFitParts m.now.types) }
    ensures none { result ≡ None → array_type count.now (type_at (trees_of m.now).types element) ≡ None }
{
    let count = number(count, u128::from(u64::MAX))? as u64;
    if !is_array_of(count, shape_in(m, element)) {
        return None;
    }
    Some(LLVMTypeKind::Array(count, element))
}

/// So many of a type, where they make a vector.
pub fn vector_kind(
    m: &LLVMModule,
    kind: VectorTypeKind,
    count: &[u8],
    element: LLVMType,
) -> Option<LLVMTypeKind>
    requires sound { IsModule m.now }
    requires there { IsTypeIn m.now element }
    ensures made { IfSome result (λ k. vector_type kind count.now (type_at (trees_of m.now).types element) ≡ Some (type_tree (trees_of m.now).types k)) }
    ensures over { IfSome result (IsTypeOver (length m.now.types)) }
    ensures fit { IfSome result (HasFitParts m.now.types) }
    ensures none { result ≡ None → vector_type kind count.now (type_at (trees_of m.now).types element) ≡ None }
{
    let count = number(count, u128::from(u32::MAX))? as u32;
    if !is_vector_of(count, shape_in(m, element)) {
        return None;
    }
    Some(LLVMTypeKind::Vector(kind, count, element))
}

/// The types of a list.
pub fn listed(
    alloc: Global,
    m: &LLVMModule,
    store: &Store,
    list: u32,
) -> Result<Vec<LLVMType>, AllocError>
    requires store { IsStoreIn m.now store.now }
    requires list { list ≤ length store.now.types }
    ensures types { IfOk result (λ v. v.items ≡ list_at store.now.types list) }
{
    let _ = m;
    let mut found = Vec::with_capacity(alloc, store.types.count(list))?;
    let mut next = list;
    while let Some((ty, rest)) = store.types.first(next) {
        found.push(ty)?;
        next = rest;
    }
    Ok(found)
}

/// Whether each type may be a field.
fn all_fields(m: &LLVMModule, types: &[LLVMType]) -> bool
    requires sound { IsModule m.now }
    requires there { All (IsTypeIn m.now) types.now }
    ensures same { result ≡ are_fields (types_at (trees_of m.now).types types.now) }
    ensures fit { IsTrue result → All (λ (t : LLVMType). is_field (shape_at m.now.types t) ≡ true) types.now }
{
    for ty in types {
        if !is_field(shape_in(m, *ty)) {
            return false;
        }
    }
    true
}

/// Types, where they make a struct.
pub fn struct_kind(
    alloc: Global,
    m: &LLVMModule,
    store: &Store,
    layout: StructLayout,
    fields: u32,
) -> Result<LLVMTypeKind, ValueErr>
    requires store { IsStoreIn m.now store.now }
    requires fields { fields ≤ length store.now.types }
    ensures made { IfOk result (λ k. struct_of layout (types_at (trees_of m.now).types (list_at store.now.types fields)) ≡ Some (type_tree (trees_of m.now).types k)) }
    ensures over { IfOk result (IsTypeOver (length m.now.types)) }
    ensures fit { IfOk result (HasFitParts m.now.types) }
    ensures not_yet { result ≡ Err ValueErr.NotYet → struct_of layout (types_at (trees_of m.now).types (list_at store.now.types fields)) ≡ None }
{
    let types = listed(alloc, m, store, fields)?;
    if !all_fields(m, types.as_slice()) {
        return Err(ValueErr::NotYet);
    }
    Ok(LLVMTypeKind::Literal {
        fields: Items::from_vec(types),
        layout,
    })
}

/// Whether each type of a list may be a field.
fn list_fits(m: &LLVMModule, store: &Store, list: u32) -> bool
    requires store { IsStoreIn m.now store.now }
    requires list { list ≤ length store.now.types }
    ensures { result ≡ are_fields (types_at (trees_of m.now).types (list_at store.now.types list)) }
{
    let mut next = list;
    while let Some((ty, rest)) = store.types.first(next) {
        if !is_field(shape_in(m, ty)) {
            return false;
        }
        next = rest;
    }
    true
}

/// Types, where they may be the fields of a struct.
pub fn fields_of(m: &LLVMModule, store: &Store, layout: StructLayout, types: u32) -> Option<Fields>
    requires store { IsStoreIn m.now store.now }
    requires types { types ≤ length store.now.types }
    ensures made { option_map (fields_view (trees_of m.now) store.now) result ≡ body_of layout (types_at (trees_of m.now).types (list_at store.now.types types)) }
    ensures there { IfSome result (AreFieldsOf m.now store.now.types) }
{
    if !list_fits(m, store, types) {
        return None;
    }
    Some(Fields { types, layout })
}
