//! The types of a module of LLVM, in a table.

ghost use Rattle.std.specs.Prelude.{◌≡◌, ◌<◌, IfOk, OnOk, length, map};
ghost use Rattle.llvm_core.specs.Sound.{IsModule};
ghost use Rattle.llvm_core.specs.Parts.{IsTypeOver};
ghost use Rattle.llvm_core.specs.Data.{type_at, type_tree, trees_of};
ghost use Rattle.tracing.specs.Types.{AllStand, AreBelow, IsFitTree, Stands};
ghost use Rattle.tracing.specs.TypePlaces.{trees_in, ArePlacesOf, IsGrown};

use crate::type_places::TypePlaces;
use llvm_core::module::LLVMModule;
use llvm_core::numbers::LLVMType;
use llvm_core::types::LLVMTypeKind;
use std::alloc::{AllocError, Global};
use support::items::Items;
use support::text::Text;

/// The place of a type, where it and its parts get one if they have none yet.
#[cycle(place)]
pub fn place(
    alloc: Global,
    types: &mut TypePlaces,
    m: &LLVMModule,
    ty: LLVMType,
) -> Result<LLVMType, AllocError>
    requires sound { IsModule m.now }
    requires within { ty.0 < length m.now.types }
    requires places { ArePlacesOf (trees_of m.now).types types.old }
    ensures stands { IfOk result (λ t. Stands (trees_in types.new) t (type_at (trees_of m.now).types ty)) }
    ensures grown { OnOk result (IsGrown (trees_of m.now).types types.old types.new) }
{
    match types.place(ty.0) {
        Some(place) => Ok(place),
        None => {
            let kind = placed_kind(alloc, types, m, ty)?;
            types.put(ty.0, kind)
        }
    }
}

/// The kind of a type, with its parts by their places.
#[cycle(place)]
fn placed_kind(
    alloc: Global,
    types: &mut TypePlaces,
    m: &LLVMModule,
    ty: LLVMType,
) -> Result<LLVMTypeKind, AllocError>
    requires sound { IsModule m.now }
    requires within { ty.0 < length m.now.types }
    requires places { ArePlacesOf (trees_of m.now).types types.old }
    ensures over { IfOk result (λ k. IsTypeOver (length types.new.table) k) }
    ensures tree { IfOk result (λ k. type_tree (trees_in types.new) k ≡ type_at (trees_of m.now).types ty) }
    ensures fit { OnOk result (IsFitTree (type_at (trees_of m.now).types ty)) }
    ensures grown { OnOk result (IsGrown (trees_of m.now).types types.old types.new) }
{
    match kind_of(m, ty) {
        LLVMTypeKind::Void => Ok(LLVMTypeKind::Void),
        LLVMTypeKind::Int(width) => Ok(LLVMTypeKind::Int(*width)),
        LLVMTypeKind::Ptr(space) => Ok(LLVMTypeKind::Ptr(*space)),
        LLVMTypeKind::Floating(of) => Ok(LLVMTypeKind::Floating(*of)),
        LLVMTypeKind::Other(of) => Ok(LLVMTypeKind::Other(*of)),
        LLVMTypeKind::Named(name) => {
            let name = Text::copy(alloc, name.as_str())?;
            Ok(LLVMTypeKind::Named(name))
        }
        LLVMTypeKind::Array(count, element) => {
            let element = place(alloc, types, m, *element)?;
            Ok(LLVMTypeKind::Array(*count, element))
        }
        LLVMTypeKind::Vector(kind, count, element) => {
            let element = place(alloc, types, m, *element)?;
            Ok(LLVMTypeKind::Vector(*kind, *count, element))
        }
        LLVMTypeKind::Literal { fields, layout } => {
            let fields = parts(alloc, types, m, ty, fields.as_slice())?;
            Ok(LLVMTypeKind::Literal {
                fields,
                layout: *layout,
            })
        }
        LLVMTypeKind::Function {
            result,
            params,
            variadic,
        } => {
            let params = parts(alloc, types, m, ty, params.as_slice())?;
            Ok(LLVMTypeKind::Function {
                result: place(alloc, types, m, *result)?,
                params,
                variadic: *variadic,
            })
        }
    }
}

/// The places of types that are parts of another.
#[cycle(place)]
fn parts(
    alloc: Global,
    types: &mut TypePlaces,
    m: &LLVMModule,
    whole: LLVMType,
    parts: &[LLVMType],
) -> Result<Items<LLVMType>, AllocError>
    requires sound { IsModule m.now }
    requires within { whole.0 < length m.now.types }
    requires below { AreBelow whole.0 parts.now }
    requires places { ArePlacesOf (trees_of m.now).types types.old }
    ensures stand { IfOk result (λ ts. AllStand (trees_in types.new) ts (map (type_at (trees_of m.now).types) parts.now)) }
    ensures grown { OnOk result (IsGrown (trees_of m.now).types types.old types.new) }
{
    let mut places = Items::new(alloc);
    for part in parts {
        let place = place(alloc, types, m, *part)?;
        places.push(place)?;
    }
    Ok(places)
}

/// The kind of a type, whose parts are earlier ones.
fn kind_of(m: &LLVMModule, ty: LLVMType) -> &LLVMTypeKind
    requires sound { IsModule m.now }
    requires within { ty.0 < length m.now.types }
    ensures over { IsTypeOver ty.0 result.now }
    ensures tree { type_at (trees_of m.now).types ty ≡ type_tree (trees_of m.now).types result.now }
    ensures fit { IsFitTree (type_at (trees_of m.now).types ty) }
{
    m.type_kind(ty)
}
