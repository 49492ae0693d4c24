//! The types of a context of the dialect, in a table.

ghost use Rattle.std.specs.Prelude.{◌≡◌, ◌<◌, All, IfOk, OnOk, length, map};
ghost use Rattle.kinds.specs.Held.{IsFirstClass};
ghost use Rattle.llvm_core.specs.Parts.{IsTypeOver};
ghost use Rattle.llvm_core.specs.Data as lists;
ghost use Rattle.dialect_types.specs.Trees.{HasPartsBelow, type_at, type_tree, type_trees};
ghost use Rattle.tracing.specs.Types.{AllStand, AreBelow, AreHandlesBelow, IsFitTree, Stands};
ghost use Rattle.tracing.specs.TypePlaces.{trees_in, ArePlacesOf, IsGrown};

use crate::type_places::TypePlaces;
use dialect_core::context::Context;
use dialect_types::types::{TypeHandle, TypeKind};
use llvm_core::numbers::LLVMType;
use llvm_core::types::LLVMTypeKind;
use std::alloc::{AllocError, Global};
use support::items::Items;
use support::text::Text;

/// The place of the type of a value, where it and its parts get one if they have none yet.
#[cycle(place)]
pub fn place(
    alloc: Global,
    types: &mut TypePlaces,
    ctx: &Context,
    ty: TypeHandle,
) -> Result<LLVMType, AllocError>
    requires within { ty.0 < length ctx.now.types }
    requires first_class { IsFirstClass (type_at (type_trees ctx.now.types) ty) }
    requires places { ArePlacesOf (type_trees ctx.now.types) types.old }
    ensures stands { IfOk result (λ t. Stands (trees_in types.new) t (type_at (type_trees ctx.now.types) ty)) }
    ensures grown { OnOk result (IsGrown (type_trees ctx.now.types) types.old types.new) }
{
    match types.place(ty.0) {
        Some(place) => Ok(place),
        None => {
            let kind = placed_kind(alloc, types, ctx, ty)?;
            types.put(ty.0, kind)
        }
    }
}

/// The kind of LLVM for the type of a value, with its parts by their places.
#[cycle(place)]
fn placed_kind(
    alloc: Global,
    types: &mut TypePlaces,
    ctx: &Context,
    ty: TypeHandle,
) -> Result<LLVMTypeKind, AllocError>
    requires within { ty.0 < length ctx.now.types }
    requires first_class { IsFirstClass (type_at (type_trees ctx.now.types) ty) }
    requires places { ArePlacesOf (type_trees ctx.now.types) types.old }
    ensures over { IfOk result (λ k. IsTypeOver (length types.new.table) k) }
    ensures tree { IfOk result (λ k. lists.type_tree (trees_in types.new) k ≡ type_at (type_trees ctx.now.types) ty) }
    ensures fit { OnOk result (IsFitTree (type_at (type_trees ctx.now.types) ty)) }
    ensures grown { OnOk result (IsGrown (type_trees ctx.now.types) types.old types.new) }
{
    match kind_of(ctx, ty) {
        TypeKind::Integer(width) => Ok(LLVMTypeKind::Int(*width)),
        TypeKind::Pointer(space) => Ok(LLVMTypeKind::Ptr(*space)),
        TypeKind::Floating(of) => Ok(LLVMTypeKind::Floating(*of)),
        TypeKind::Array(element, count) => {
            let element = place(alloc, types, ctx, *element)?;
            Ok(LLVMTypeKind::Array(*count, element))
        }
        TypeKind::Vector(element, count, kind) => {
            let element = place(alloc, types, ctx, *element)?;
            Ok(LLVMTypeKind::Vector(*kind, *count, element))
        }
        TypeKind::Struct { fields, layout } => {
            let fields = parts(alloc, types, ctx, ty, fields.as_slice())?;
            Ok(LLVMTypeKind::Literal {
                fields,
                layout: *layout,
            })
        }
        TypeKind::Named { name, .. } => {
            let name = Text::copy(alloc, name.as_str())?;
            Ok(LLVMTypeKind::Named(name))
        }
        TypeKind::Void => unreachable!(),
        TypeKind::Func { .. } => unreachable!(),
    }
}

/// The places of types that are parts of another.
#[cycle(place)]
fn parts(
    alloc: Global,
    types: &mut TypePlaces,
    ctx: &Context,
    whole: TypeHandle,
    parts: &[TypeHandle],
) -> Result<Items<LLVMType>, AllocError>
    requires within { whole.0 < length ctx.now.types }
    requires below { AreHandlesBelow whole.0 parts.now }
    requires first_class { All (λ t. IsFirstClass (type_at (type_trees ctx.now.types) t)) parts.now }
    requires places { ArePlacesOf (type_trees ctx.now.types) types.old }
    ensures stand { IfOk result (λ ts. AllStand (trees_in types.new) ts (map (type_at (type_trees ctx.now.types)) parts.now)) }
    ensures grown { OnOk result (IsGrown (type_trees ctx.now.types) types.old types.new) }
{
    let mut places = Items::new(alloc);
    for part in parts {
        let place = place(alloc, types, ctx, *part)?;
        places.push(place)?;
    }
    Ok(places)
}

/// The kind of a type, whose parts are earlier ones.
fn kind_of(ctx: &Context, ty: TypeHandle) -> &TypeKind
    requires within { ty.0 < length ctx.now.types }
    ensures below { HasPartsBelow ty.0 result.now }
    ensures tree { type_at (type_trees ctx.now.types) ty ≡ type_tree (type_trees ctx.now.types) result.now }
    ensures fit { IsFitTree (type_at (type_trees ctx.now.types) ty) }
{
    ctx.types().kind(ty)
}
