//! A walk through types, each gone through once: through their parts, and through the fields of the structs that they name.

ghost use Rattle.std.specs.Prelude.{◌≡◌, ◌<◌, [], true, All, IfErr, IfOk, OnOk, Some, length, slice_get};
ghost use Rattle.kinds.specs.Structs.{Holds, each_field, nests};
ghost use Rattle.kinds.specs.Types.{NamedType};
ghost use Rattle.llvm_core.specs.declared.structs.StructData.{StructData};
ghost use Rattle.llvm_core.specs.Parts.{IsTypeOver};
ghost use Rattle.llvm_core.specs.Sound.{IsModule};
ghost use Rattle.llvm_core.specs.Data.{struct_of, structs_of, trees_of};
ghost use Rattle.llvm_core.specs.Depths.{all_nest_at, fields_nest_at, nests_at, parts_nest_at};
ghost use Rattle.held_types.specs.Table.{IsTable};
ghost use Rattle.held_types.specs.Walk.{IsAmong, IsCause, IsIn, IsInFields, IsInKind, IsWalk, Walked};

use crate::held_structs::HeldErr;
use crate::table::{Table, first};
use llvm_core::module::LLVMModule;
use llvm_core::numbers::{LLVMStruct, LLVMType};
use llvm_core::types::LLVMTypeKind;
use std::alloc::{AllocError, Global};

/// The types that were gone through, marked by number, and the structs that were met, each behind those that its fields hold.
#[derive(Drop)]
pub struct Walk {
    pub seen: Vec<bool>,
    pub order: Vec<LLVMStruct>,
}

/// A walk that has met nothing.
pub fn start(alloc: Global, m: &LLVMModule) -> Result<Walk, AllocError>
    ensures walk { IfOk result (λ w. IsWalk m.now w) }
    ensures none { IfOk result (λ w. w.order.items ≡ []) }
    ensures sound { IsModule m.now }
{
    Ok(Walk {
        seen: vec![in alloc; false; m.types() as usize]?,
        order: Vec::new(alloc),
    })
}

/// Goes through types.
#[cycle(visit)]
pub fn visit_all(
    m: &LLVMModule,
    table: &Table<'_>,
    walk: &mut Walk,
    types: &[LLVMType],
    left: u32,
) -> Result<(), HeldErr>
    requires within { All (λ t. t.0 < length m.now.types) types.now }
    requires table { IsTable m.now table.now }
    requires nested { all_nest_at m.now types.now left ≡ true }
    requires walk { IsWalk m.now walk.old }
    ensures walk { OnOk result (Walked m.now (IsAmong m.now types.now) walk.old walk.new) }
    ensures cause { IfErr result (IsCause (IsAmong m.now types.now)) }
{
    for ty in types {
        visit(m, table, walk, *ty, left)?;
    }
    Ok(())
}

/// Goes through the fields of a struct; an opaque one has none.
#[cycle(visit)]
fn visit_fields(
    m: &LLVMModule,
    table: &Table<'_>,
    walk: &mut Walk,
    s: LLVMStruct,
    left: u32,
) -> Result<(), HeldErr>
    requires within { s.0 < length m.now.structs }
    requires table { IsTable m.now table.now }
    requires nested { (x : StructData) → slice_get m.now.structs s.0 ≡ Some x → each_field (nests (structs_of m.now) left) (struct_of (trees_of m.now).types x) ≡ true }
    requires walk { IsWalk m.now walk.old }
    ensures walk { OnOk result (Walked m.now (IsInFields m.now s) walk.old walk.new) }
    ensures cause { IfErr result (IsCause (IsInFields m.now s)) }
{
    match m.struct_body(s) {
        Some(body) => visit_all(m, table, walk, body.types.as_slice(), left),
        None => Ok(()),
    }
}

/// Goes through the struct of a name, and lists it behind what its fields hold.
#[cycle(visit)]
fn visit_named(
    m: &LLVMModule,
    table: &Table<'_>,
    walk: &mut Walk,
    name: &str,
    left: u32,
) -> Result<(), HeldErr>
    requires table { IsTable m.now table.now }
    requires nested { fields_nest_at m.now name.now left ≡ true }
    requires walk { IsWalk m.now walk.old }
    ensures walk { OnOk result (Walked m.now (λ u. Holds (structs_of m.now) u (NamedType name.now)) walk.old walk.new) }
    ensures cause { IfErr result (IsCause (λ u. Holds (structs_of m.now) u (NamedType name.now))) }
{
    let s = first(table, name);
    visit_fields(m, table, walk, s, left)?;
    walk.order.push(s)?;
    Ok(())
}

/// Goes through a type of that kind: a line for each kind that the dialect lacks, or that has parts.
#[cycle(visit)]
fn visit_kind(
    m: &LLVMModule,
    table: &Table<'_>,
    walk: &mut Walk,
    kind: &LLVMTypeKind,
    left: u32,
) -> Result<(), HeldErr>
    requires parts { IsTypeOver (length m.now.types) kind.now }
    requires table { IsTable m.now table.now }
    requires nested { parts_nest_at m.now kind.now left ≡ true }
    requires walk { IsWalk m.now walk.old }
    ensures walk { OnOk result (Walked m.now (IsInKind m.now kind.now) walk.old walk.new) }
    ensures cause { IfErr result (IsCause (IsInKind m.now kind.now)) }
{
    match kind {
        LLVMTypeKind::Other(of) => Err(HeldErr::Lacks(*of)),
        LLVMTypeKind::Array(_, element) => visit(m, table, walk, *element, left),
        LLVMTypeKind::Vector(_, _, element) => visit(m, table, walk, *element, left),
        LLVMTypeKind::Literal { fields, .. } => visit_all(m, table, walk, fields.as_slice(), left),
        LLVMTypeKind::Named(name) => visit_named(m, table, walk, name.as_str(), left),
        LLVMTypeKind::Function { result, params, .. } => {
            visit(m, table, walk, *result, left)?;
            visit_all(m, table, walk, params.as_slice(), left)
        }
        _ => Ok(()),
    }
}

/// Goes through a type that nests no deeper than is left, unless that is done.
#[cycle(visit)]
pub fn visit(
    m: &LLVMModule,
    table: &Table<'_>,
    walk: &mut Walk,
    ty: LLVMType,
    left: u32,
) -> Result<(), HeldErr>
    requires within { ty.0 < length m.now.types }
    requires table { IsTable m.now table.now }
    requires nested { nests_at m.now ty left ≡ true }
    requires walk { IsWalk m.now walk.old }
    ensures walk { OnOk result (Walked m.now (IsIn m.now ty) walk.old walk.new) }
    ensures cause { IfErr result (IsCause (IsIn m.now ty)) }
{
    if walk.seen[ty.0 as usize] {
        return Ok(());
    }
    visit_kind(m, table, walk, m.type_kind(ty), left - 1)?;
    walk.seen[ty.0 as usize] = true;
    Ok(())
}
