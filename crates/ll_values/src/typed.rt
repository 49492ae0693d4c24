//! What adds types or constants.

ghost use Rattle.std.specs.Prelude.{◌≡◌, ◌≤◌, true, List, [], ◌∷◌, Some, None, Err, map, All, IfOk, IfSome, OnOk, length};
ghost use Rattle.llvm_core.specs.Parts.{IsTypeOver, HasFitParts};
ghost use Rattle.llvm_core.specs.Data.{trees_of, type_at, type_tree};
ghost use Rattle.ll_lines.specs.Views.{incoming_view, IsTypeIn, IsSaidIn};
ghost use Rattle.ll_values.specs.declared.form.Kind.TheVariants as K;
ghost use Rattle.ll_values.specs.declared.form.TypedKind.TheVariants as T;
ghost use Rattle.ll_values.specs.declared.value.Value.TheVariants as V;
ghost use Rattle.ll_values.specs.Values.{incoming, is_type, is_body, typed_by, TypeV, FieldsV, LiteralV};
ghost use Rattle.ll_values.specs.Views.{table_of, literal_view, value_view, entry_view, entries_at, fields_view, made_in, AreFieldsOf, IsLiteralIn, IsEntryIn, IsValueIn, IsStoreIn};
ghost use Rattle.ll_values.specs.Growing.{Interns, Keeps, Makes};
ghost use Rattle.ll_values.specs.Stack.{IsStanding, Puts, MakesNothing};

use crate::elements::{put_packed, put_vector};
use crate::form::TypedKind;
use crate::keep::keep_inst;
use crate::planned::Planned;
use crate::said::{said, type_of};
use crate::stack::Stack;
use crate::store::Store;
use crate::types::{
    array_kind, fields_of, flat_kind, int_kind, named_kind, struct_kind, vector_kind,
};
use crate::value::{Entry, Fields, Literal, Value};
use crate::value_err::ValueErr;
use kinds::types::{StructLayout, VectorTypeKind};
use ll_lines::lines::{Incoming, Said, Typed};
use llvm_core::module::LLVMModule;
use llvm_core::numbers::LLVMType;
use llvm_core::types::LLVMTypeKind;
use std::alloc::Global;
use support::short_list::ShortList;

/// The kind of the type that parts make: a line for each.
#[rattlefmt::skip]
fn plan_type(alloc: Global, m: &LLVMModule, store: &Store, bytes: &[u8], kind: TypedKind, parts: &[Value]) -> Result<LLVMTypeKind, ValueErr>
    requires store { IsStoreIn m.now store.now }
    requires parts { All (IsValueIn m.now store.now) parts.now }
    ensures made { IfOk result (λ k. typed_by kind (map (value_view bytes.now (trees_of m.now) store.now) parts.now) ≡ Some (TypeV (type_tree (trees_of m.now).types k))) }
    ensures over { IfOk result (IsTypeOver (length m.now.types)) }
    ensures fit { IfOk result (HasFitParts m.now.types) }
    ensures not_yet { result ≡ Err ValueErr.NotYet → is_type kind ≡ true → typed_by kind (map (value_view bytes.now (trees_of m.now) store.now) parts.now) ≡ None }
{
    match kind {
        TypedKind::Void => match *parts { [] => Ok(LLVMTypeKind::Void), _ => Err(ValueErr::NotYet) },
        TypedKind::Int => match *parts { [Value::Text(n)] => int_kind(m, n.text(bytes)).ok_or(ValueErr::NotYet), _ => Err(ValueErr::NotYet) },
        TypedKind::Pointer => match *parts {
            [Value::Nothing] => Ok(LLVMTypeKind::Ptr(0)),
            [Value::Space(space)] => Ok(LLVMTypeKind::Ptr(space)),
            _ => Err(ValueErr::NotYet),
        },
        TypedKind::Flat => match *parts { [Value::Text(n)] => flat_kind(m, n.text(bytes)).ok_or(ValueErr::NotYet), _ => Err(ValueErr::NotYet) },
        TypedKind::Array => match *parts { [Value::Text(n), Value::Type(ty)] => array_kind(m, n.text(bytes), ty).ok_or(ValueErr::NotYet), _ => Err(ValueErr::NotYet) },
        TypedKind::Vector => match *parts { [Value::Text(n), Value::Type(ty)] => vector_kind(m, VectorTypeKind::Fixed, n.text(bytes), ty).ok_or(ValueErr::NotYet), _ => Err(ValueErr::NotYet) },
        TypedKind::Scalable => match *parts { [Value::Text(n), Value::Type(ty)] => vector_kind(m, VectorTypeKind::Scalable, n.text(bytes), ty).ok_or(ValueErr::NotYet), _ => Err(ValueErr::NotYet) },
        TypedKind::Struct => match *parts { [Value::Types(n)] => struct_kind(alloc, m, store, StructLayout::Unpacked, n), _ => Err(ValueErr::NotYet) },
        TypedKind::Packed => match *parts { [Value::Types(n)] => struct_kind(alloc, m, store, StructLayout::Packed, n), _ => Err(ValueErr::NotYet) },
        TypedKind::Named => match *parts { [Value::Text(n)] => named_kind(alloc, m, n.text(bytes)), _ => Err(ValueErr::NotYet) },
        TypedKind::Fields | TypedKind::PackedFields | TypedKind::Typed | TypedKind::Pair | TypedKind::Phi | TypedKind::InVector | TypedKind::InPacked => Err(ValueErr::NotYet),
    }
}

/// The type that parts make.
fn make_type(
    alloc: Global,
    m: &mut LLVMModule,
    store: &Store,
    bytes: &[u8],
    kind: TypedKind,
    parts: &[Value],
) -> Result<LLVMType, ValueErr>
    requires store { IsStoreIn m.old store.now }
    requires parts { All (IsValueIn m.old store.now) parts.now }
    ensures made { IfOk result (λ ty. Makes bytes.now m.old m.new store.now store.now (K.Typed kind) parts.now (V.Type ty)) }
    ensures not_yet { result ≡ Err ValueErr.NotYet → is_type kind ≡ true → typed_by kind (map (value_view bytes.now (trees_of m.old) store.now) parts.now) ≡ None }
{
    let planned = plan_type(alloc, m, store, bytes, kind, parts)?;
    match type_of(m, planned) {
        Ok(ty) => Ok(ty),
        Err(e) => Err(e),
    }
}

/// The fields of a struct that parts make: a line for each layout.
#[rattlefmt::skip]
fn plan_fields(m: &LLVMModule, store: &Store, bytes: &[u8], kind: TypedKind, parts: &[Value]) -> Option<Fields>
    requires store { IsStoreIn m.now store.now }
    requires parts { All (IsValueIn m.now store.now) parts.now }
    ensures made { IfSome result (λ b. typed_by kind (map (value_view bytes.now (trees_of m.now) store.now) parts.now) ≡ Some (FieldsV (Some (fields_view (trees_of m.now) store.now b)))) }
    ensures there { IfSome result (AreFieldsOf m.now store.now.types) }
    ensures none { result ≡ None → is_body kind ≡ true → typed_by kind (map (value_view bytes.now (trees_of m.now) store.now) parts.now) ≡ None }
{
    let _ = bytes;
    match kind {
        TypedKind::Fields => match *parts { [Value::Types(n)] => fields_of(m, store, StructLayout::Unpacked, n), _ => None },
        TypedKind::PackedFields => match *parts { [Value::Types(n)] => fields_of(m, store, StructLayout::Packed, n), _ => None },
        _ => None,
    }
}

/// The fields of a struct that parts make.
fn make_fields(
    m: &LLVMModule,
    store: &Store,
    bytes: &[u8],
    kind: TypedKind,
    parts: &[Value],
) -> Result<Fields, ValueErr>
    requires store { IsStoreIn m.now store.now }
    requires parts { All (IsValueIn m.now store.now) parts.now }
    ensures made { IfOk result (λ b. Makes bytes.now m.now m.now store.now store.now (K.Typed kind) parts.now (V.Fields (Some b))) }
    ensures not_yet { result ≡ Err ValueErr.NotYet → is_body kind ≡ true → typed_by kind (map (value_view bytes.now (trees_of m.now) store.now) parts.now) ≡ None }
{
    plan_fields(m, store, bytes, kind, parts).ok_or(ValueErr::NotYet)
}

/// A literal at a type.
#[inline(always)]
fn make_one(
    alloc: Global,
    m: &mut LLVMModule,
    store: &mut Store,
    bytes: &[u8],
    ty: LLVMType,
    literal: Literal,
) -> Result<Said, ValueErr>
    requires store { IsStoreIn m.old store.old }
    requires there { IsTypeIn m.old ty }
    requires literal { IsLiteralIn m.old store.old literal }
    ensures made { IfOk result (λ x. Makes bytes.now m.old m.new store.old store.new (K.Typed T.Typed) (V.Type ty ∷ V.Literal literal ∷ []) (V.Typed (record { ty = ty; said = x }))) }
    ensures not_yet { result ≡ Err ValueErr.NotYet → typed_by T.Typed (TypeV (type_at (trees_of m.old).types ty) ∷ LiteralV (literal_view bytes.now (trees_of m.old) store.old literal) ∷ []) ≡ None }
{
    said(alloc, m, store, bytes, ty, literal)
}

/// Two literals at a type.
#[inline(always)]
fn make_pair(
    alloc: Global,
    m: &mut LLVMModule,
    store: &mut Store,
    bytes: &[u8],
    ty: LLVMType,
    a: Literal,
    b: Literal,
) -> Result<(Said, Said), ValueErr>
    requires store { IsStoreIn m.old store.old }
    requires there { IsTypeIn m.old ty }
    requires a { IsLiteralIn m.old store.old a }
    requires b { IsLiteralIn m.old store.old b }
    ensures made { IfOk result (λ p. Makes bytes.now m.old m.new store.old store.new (K.Typed T.Pair) (V.Type ty ∷ V.Literal a ∷ V.Literal b ∷ []) (V.Pair ty p.0 p.1)) }
    ensures not_yet { result ≡ Err ValueErr.NotYet → typed_by T.Pair (TypeV (type_at (trees_of m.old).types ty) ∷ LiteralV (literal_view bytes.now (trees_of m.old) store.old a) ∷ LiteralV (literal_view bytes.now (trees_of m.old) store.old b) ∷ []) ≡ None }
{
    let x = match said(alloc, m, store, bytes, ty, a) {
        Ok(x) => x,
        Err(e) => return Err(e),
    };
    match said(alloc, m, store, bytes, ty, b) {
        Ok(y) => Ok((x, y)),
        Err(e) => Err(e),
    }
}

/// Entries at the type of their phi.
fn entries(
    alloc: Global,
    m: &mut LLVMModule,
    store: &mut Store,
    bytes: &[u8],
    ty: LLVMType,
    first: Entry,
    rest: u32,
) -> Result<ShortList<Incoming>, ValueErr>
    requires store { IsStoreIn m.old store.old }
    requires there { IsTypeIn m.old ty }
    requires first { IsEntryIn m.old store.old first }
    requires rest { rest ≤ length store.old.entries }
    ensures interns { OnOk result (Interns m.old m.new) }
    ensures store { OnOk result (IsStoreIn m.new store.new) }
    ensures keeps { OnOk result (Keeps store.old store.new) }
    ensures there { IfOk result (λ es. All (λ e. IsSaidIn m.new (made_in store.new) e.said) es) }
    ensures entries { IfOk result (λ es. incoming (type_at (trees_of m.old).types ty) (entry_view bytes.now (trees_of m.old) store.old first ∷ entries_at bytes.now (trees_of m.old) store.old rest) ≡ Some (map (incoming_view bytes.now (trees_of m.new) (table_of bytes.now (trees_of m.new) store.new)) es)) }
    ensures not_yet { result ≡ Err ValueErr.NotYet → incoming (type_at (trees_of m.old).types ty) (entry_view bytes.now (trees_of m.old) store.old first ∷ entries_at bytes.now (trees_of m.old) store.old rest) ≡ None }
{
    let said_first = match said(alloc, m, store, bytes, ty, first.literal) {
        Ok(said) => said,
        Err(e) => return Err(e),
    };
    let mut found = ShortList::one(Incoming {
        said: said_first,
        block: first.block,
    });
    let mut next = rest;
    while let Some((entry, behind)) = store.entries.first(next) {
        let said = match said(alloc, m, store, bytes, ty, entry.literal) {
            Ok(said) => said,
            Err(e) => return Err(e),
        };
        let block = entry.block;
        found.push(alloc, Incoming { said, block })?;
        next = behind;
    }
    Ok(found)
}

/// A phi.
#[inline(always)]
fn make_phi(
    alloc: Global,
    m: &mut LLVMModule,
    store: &mut Store,
    bytes: &[u8],
    ty: LLVMType,
    entry: Entry,
    rest: u32,
) -> Result<u32, ValueErr>
    requires store { IsStoreIn m.old store.old }
    requires there { IsTypeIn m.old ty }
    requires entry { IsEntryIn m.old store.old entry }
    requires rest { rest ≤ length store.old.entries }
    ensures made { IfOk result (λ n. Makes bytes.now m.old m.new store.old store.new (K.Typed T.Phi) (V.Type ty ∷ V.Entry entry ∷ V.Entries rest ∷ []) (V.Inst n)) }
    ensures not_yet { result ≡ Err ValueErr.NotYet → typed_by T.Phi (map (value_view bytes.now (trees_of m.old) store.old) (V.Type ty ∷ V.Entry entry ∷ V.Entries rest ∷ [])) ≡ None }
{
    match entries(alloc, m, store, bytes, ty, entry, rest) {
        Ok(found) => keep_inst(m, store, bytes, Planned::phi(ty, found)),
        Err(e) => Err(e),
    }
}

/// Types, and what a literal takes its type from, each put in place of the parts that it is made of.
#[rattlefmt::skip]
pub fn put_typed(alloc: Global, m: &mut LLVMModule, store: &mut Store, bytes: &[u8], kind: TypedKind, stack: &mut Stack) -> Result<(), ValueErr>
    requires standing { IsStanding m.old store.old stack.old }
    ensures puts { OnOk result (Puts bytes.now m.old m.new store.old store.new (K.Typed kind) stack.old stack.new) }
    ensures not_yet { result ≡ Err ValueErr.NotYet → MakesNothing bytes.now m.old store.old (K.Typed kind) stack.old }
{
    match kind {
        TypedKind::Void | TypedKind::Int | TypedKind::Pointer | TypedKind::Flat | TypedKind::Array | TypedKind::Named | TypedKind::Vector | TypedKind::Scalable | TypedKind::Struct | TypedKind::Packed => {
            let count = kind.part_count();
            let ty = make_type(alloc, m, store, bytes, kind, stack.first(count))?;
            stack.replace(alloc, count, Value::Type(ty))?;
        }
        TypedKind::Fields | TypedKind::PackedFields => {
            let count = kind.part_count();
            let fields = make_fields(m, store, bytes, kind, stack.first(count))?;
            stack.replace(alloc, count, Value::Fields(Some(fields)))?;
        }
        TypedKind::Typed => match *stack.first(2) {
            [Value::Type(ty), Value::Literal(a)] => {
                let said = make_one(alloc, m, store, bytes, ty, a)?;
                stack.replace(alloc, 2, Value::Typed(Typed { ty, said }))?;
            }
            _ => return Err(ValueErr::NotYet),
        },
        TypedKind::Pair => match *stack.first(3) {
            [Value::Type(ty), Value::Literal(a), Value::Literal(b)] => {
                let (x, y) = make_pair(alloc, m, store, bytes, ty, a, b)?;
                stack.replace(alloc, 3, Value::Pair(ty, x, y))?;
            }
            _ => return Err(ValueErr::NotYet),
        },
        TypedKind::InVector => put_vector(alloc, m, store, bytes, stack)?,
        TypedKind::InPacked => put_packed(alloc, m, store, bytes, stack)?,
        TypedKind::Phi => match *stack.first(3) {
            [Value::Type(ty), Value::Entry(entry), Value::Entries(rest)] => {
                let n = make_phi(alloc, m, store, bytes, ty, entry, rest)?;
                stack.replace(alloc, 3, Value::Inst(n))?;
            }
            _ => return Err(ValueErr::NotYet),
        },
    }
    Ok(())
}
