//! Structs and functions of lines, from the values of a store.

ghost use Rattle.std.specs.Prelude.{◌≡◌, ◌≤◌, map, length, All, IfOk};
ghost use Rattle.std.specs.Option.{option_map};
ghost use Rattle.llvm_core.specs.Sound.{AreFieldsIn};
ghost use Rattle.llvm_core.specs.Data as trees;
ghost use Rattle.llvm_core.specs.Data.{trees_of};
ghost use Rattle.ll_lines.specs.Views as lines;
ghost use Rattle.ll_lines.specs.Views.{text_of, struct_view, function_view, file_view, IsTypeIn, IsPartIn, IsStructIn, IsFunctionIn, IsFileIn};
ghost use Rattle.ll_values.specs.Lists.{list_at};
ghost use Rattle.ll_values.specs.Views.{table_of, made_in, part_view, body_at, fields_view, structure_view, structs_at, definition_view, functions_at, AreFieldsOf, IsPieceIn, IsStructureIn, IsDefinitionIn, IsStoreIn};

use crate::store::Store;
use crate::types::listed;
use crate::value::{Definition, Fields, Piece, Structure};
use ll_lines::lines::{File, Function, Line, Param, Part, StructLine};
use ll_lines::names::Name;
use llvm_core::module::LLVMModule;
use llvm_core::structs::StructFields;
use std::alloc::{AllocError, Global};
use support::items::Items;

/// A part of a body.
fn part(
    alloc: Global,
    m: &LLVMModule,
    store: &Store,
    bytes: &[u8],
    piece: Piece,
) -> Result<Part, AllocError>
    requires store { IsStoreIn m.now store.now }
    requires there { IsPieceIn m.now store.now piece }
    ensures part { IfOk result (λ p. lines.part_view bytes.now (trees_of m.now) (table_of bytes.now (trees_of m.now) store.now) p ≡ part_view bytes.now (trees_of m.now) store.now piece) }
    ensures there { IfOk result (IsPartIn m.now (made_in store.now)) }
{
    let _ = m;
    let _ = bytes;
    match piece {
        Piece::Label(name) => Ok(Part::Label(name)),
        Piece::Does(result, n) => {
            let inst = store.insts[n as usize].inst(alloc)?;
            Ok(Part::Does(Line { result, inst }))
        }
    }
}

/// The parts of a body.
#[inline(never)]
fn body(
    alloc: Global,
    m: &LLVMModule,
    store: &Store,
    bytes: &[u8],
    list: u32,
) -> Result<Vec<Part>, AllocError>
    requires store { IsStoreIn m.now store.now }
    requires list { list ≤ length store.now.bodies }
    ensures parts { IfOk result (λ v. map (lines.part_view bytes.now (trees_of m.now) (table_of bytes.now (trees_of m.now) store.now)) v.items ≡ body_at bytes.now (trees_of m.now) store.now list) }
    ensures there { IfOk result (λ v. All (IsPartIn m.now (made_in store.now)) v.items) }
{
    let mut found = Vec::with_capacity(alloc, store.bodies.count(list))?;
    let mut next = list;
    while let Some((piece, rest)) = store.bodies.first(next) {
        let one = part(alloc, m, store, bytes, piece)?;
        found.push(one)?;
        next = rest;
    }
    Ok(found)
}

/// The parameters of a function.
fn params(alloc: Global, m: &LLVMModule, store: &Store, list: u32) -> Result<Vec<Param>, AllocError>
    requires store { IsStoreIn m.now store.now }
    requires list { list ≤ length store.now.params }
    ensures params { IfOk result (λ v. v.items ≡ list_at store.now.params list) }
    ensures there { IfOk result (λ v. All (λ p. IsTypeIn m.now p.ty) v.items) }
{
    let _ = m;
    let mut found = Vec::with_capacity(alloc, store.params.count(list))?;
    let mut next = list;
    while let Some((param, rest)) = store.params.first(next) {
        found.push(param)?;
        next = rest;
    }
    Ok(found)
}

/// A function.
fn function(
    alloc: Global,
    m: &LLVMModule,
    store: &Store,
    bytes: &[u8],
    definition: Definition,
) -> Result<Function, AllocError>
    requires store { IsStoreIn m.now store.now }
    requires there { IsDefinitionIn m.now store.now definition }
    ensures function { IfOk result (λ f. function_view bytes.now (trees_of m.now) (table_of bytes.now (trees_of m.now) store.now) f ≡ definition_view bytes.now (trees_of m.now) store.now definition) }
    ensures there { IfOk result (IsFunctionIn m.now (made_in store.now)) }
{
    let head = definition.head;
    let params = params(alloc, m, store, head.params)?;
    let body = body(alloc, m, store, bytes, definition.body)?;
    Ok(Function {
        result: head.result,
        name: head.name,
        params,
        body,
    })
}

/// The functions of a file.
#[inline(never)]
fn functions(
    alloc: Global,
    m: &LLVMModule,
    store: &Store,
    bytes: &[u8],
    list: u32,
) -> Result<Vec<Function>, AllocError>
    requires store { IsStoreIn m.now store.now }
    requires list { list ≤ length store.now.functions }
    ensures functions { IfOk result (λ v. map (function_view bytes.now (trees_of m.now) (table_of bytes.now (trees_of m.now) store.now)) v.items ≡ functions_at bytes.now (trees_of m.now) store.now list) }
    ensures there { IfOk result (λ v. All (IsFunctionIn m.now (made_in store.now)) v.items) }
{
    let mut found = Vec::with_capacity(alloc, store.functions.count(list))?;
    let mut next = list;
    while let Some((definition, rest)) = store.functions.first(next) {
        let one = function(alloc, m, store, bytes, definition)?;
        found.push(one)?;
        next = rest;
    }
    Ok(found)
}

/// The fields of a struct.
fn struct_fields(
    alloc: Global,
    m: &LLVMModule,
    store: &Store,
    fields: Fields,
) -> Result<StructFields, AllocError>
    requires store { IsStoreIn m.now store.now }
    requires there { AreFieldsOf m.now store.now.types fields }
    ensures fields { IfOk result (λ b. trees.fields_of (trees_of m.now).types b ≡ fields_view (trees_of m.now) store.now fields) }
    ensures there { IfOk result (AreFieldsIn m.now.types) }
{
    let types = listed(alloc, m, store, fields.types)?;
    Ok(StructFields {
        types: Items::from_vec(types),
        layout: fields.layout,
    })
}

/// A struct.
fn struct_line(
    alloc: Global,
    m: &LLVMModule,
    store: &Store,
    bytes: &[u8],
    structure: Structure,
) -> Result<StructLine, AllocError>
    requires store { IsStoreIn m.now store.now }
    requires there { IsStructureIn m.now store.now structure }
    ensures line { IfOk result (λ x. struct_view bytes.now (trees_of m.now) x ≡ structure_view bytes.now (trees_of m.now) store.now structure) }
    ensures there { IfOk result (IsStructIn m.now) }
{
    let _ = bytes;
    let name = structure.name;
    match structure.body {
        Some(body) => {
            let body = struct_fields(alloc, m, store, body)?;
            Ok(StructLine {
                name,
                body: Some(body),
            })
        }
        None => Ok(StructLine { name, body: None }),
    }
}

/// The structs of a file.
#[inline(never)]
fn structs(
    alloc: Global,
    m: &LLVMModule,
    store: &Store,
    bytes: &[u8],
    list: u32,
) -> Result<Vec<StructLine>, AllocError>
    requires store { IsStoreIn m.now store.now }
    requires list { list ≤ length store.now.structs }
    ensures structs { IfOk result (λ v. map (struct_view bytes.now (trees_of m.now)) v.items ≡ structs_at bytes.now (trees_of m.now) store.now list) }
    ensures there { IfOk result (λ v. All (IsStructIn m.now) v.items) }
{
    let mut found = Vec::with_capacity(alloc, store.structs.count(list))?;
    let mut next = list;
    while let Some((structure, rest)) = store.structs.first(next) {
        let one = struct_line(alloc, m, store, bytes, structure)?;
        found.push(one)?;
        next = rest;
    }
    Ok(found)
}

/// A file of that name of the module, and of these structs and functions, with the constants that they name.
pub fn file(
    alloc: Global,
    m: &LLVMModule,
    store: Store,
    bytes: &[u8],
    source: Option<Name>,
    struct_list: u32,
    function_list: u32,
) -> Result<File, AllocError>
    requires store { IsStoreIn m.now store }
    requires struct_list { struct_list ≤ length store.structs }
    requires function_list { function_list ≤ length store.functions }
    ensures file { IfOk result (λ f. file_view bytes.now (trees_of m.now) f ≡ record { source = option_map (text_of bytes.now) source; structs = structs_at bytes.now (trees_of m.now) store struct_list; functions = functions_at bytes.now (trees_of m.now) store function_list }) }
    ensures there { IfOk result (IsFileIn m.now) }
{
    let structs = structs(alloc, m, &store, bytes, struct_list)?;
    let functions = functions(alloc, m, &store, bytes, function_list)?;
    let Store { table, .. } = store;
    Ok(File {
        source,
        consts: table,
        structs,
        functions,
    })
}
