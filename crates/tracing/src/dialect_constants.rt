//! The terms of constants of the dialect, in a table.

ghost use Rattle.std.specs.Prelude.{◌≡◌, ◌<◌, ℕ, IfOk, List, OnOk, length, map, replicate};
ghost use Rattle.kinds.specs.Held.{IsFirstClass, width_in};
ghost use Rattle.dialect_types.specs.Trees.{type_at, type_trees};
ghost use Rattle.const_attrs.specs.Trees.{HasTypesBelow, HaveTypesBelow, attr_data, attrs_data};
ghost use Rattle.meaning.specs.Terms.{filled_term};
ghost use Rattle.meaning.specs.Constants.{lanes_term};
ghost use Rattle.meaning.specs.Setting.{Setting};
ghost use Rattle.tracing.specs.Types.{Stands};
ghost use Rattle.tracing.specs.Table.{IsTermAt, AreTermsAt, term_at};
ghost use Rattle.tracing.specs.TypePlaces.{trees_in};
ghost use Rattle.tracing.specs.Tables.{AreGrown, AreTables, contents_in};
ghost use Rattle.tracing.specs.DialectBodies.{HasTypesOfValues, HaveTypesOfValues, fixed_lanes, origin_of, term_of};

use crate::dialect_rows::type_place;
use crate::table::TermNode;
use crate::tables::{Tables, put, put_bytes, put_list, put_splat};
use const_attrs::const_attr::ConstAttr;
use dialect_core::context::Context;
use dialect_core::type_tests::shape_at;
use dialect_types::types::{TypeHandle, TypeKind};
use kinds::fill::Fill;
use kinds::types::VectorTypeKind;
use llvm_core::numbers::LLVMType;
use std::alloc::{AllocError, Global};

/// The width of an integer type, of another type 0.
fn width_of(ctx: &Context, ty: TypeHandle) -> u32
    requires { ty.0 < length ctx.now.types }
    ensures { result ≡ width_in (type_at (type_trees ctx.now.types) ty) }
{
    match ctx.types().kind(ty) {
        TypeKind::Integer(width) => *width,
        _ => 0,
    }
}

/// The place of zero, undef or poison of a type: the zero of an integer type is the integer 0.
pub fn filled(
    alloc: Global,
    tables: &mut Tables,
    ctx: &Context,
    fill: Fill,
    ty: TypeHandle,
) -> Result<u32, AllocError>
    requires within { ty.0 < length ctx.now.types }
    requires first_class { IsFirstClass (type_at (type_trees ctx.now.types) ty) }
    requires tables { AreTables (origin_of ctx.now) tables.old }
    ensures is { IfOk result (λ k. IsTermAt (contents_in tables.new).terms k (filled_term fill (type_at (type_trees ctx.now.types) ty))) }
    ensures grown { OnOk result (AreGrown (origin_of ctx.now) tables.old tables.new) }
{
    if fill.is_own(shape_at(ctx.types(), ty)) {
        let place = type_place(alloc, tables, ctx, ty)?;
        put(tables, TermNode::Filled(fill, place))
    } else {
        put(tables, TermNode::Int(width_of(ctx, ty), 0))
    }
}

/// A place so many times.
fn copies(alloc: Global, place: u32, count: u32) -> Result<Vec<u32>, AllocError>
    ensures { IfOk result (λ ks. ks.items ≡ replicate count place) }
{
    let mut places = Vec::new(alloc);
    places.resize(count as usize, place)?;
    Ok(places)
}

/// How many lanes a type has, where it is a vector of a known length.
fn fixed_lanes(ctx: &Context, ty: TypeHandle) -> Option<u32>
    requires { ty.0 < length ctx.now.types }
    ensures { result ≡ fixed_lanes (type_at (type_trees ctx.now.types) ty) }
{
    match ctx.types().kind(ty) {
        TypeKind::Vector(_, count, kind) => match kind {
            VectorTypeKind::Fixed => Some(*count),
            VectorTypeKind::Scalable => None,
        },
        _ => None,
    }
}

/// The place of a vector of a type that has a place, each lane of which is that term.
fn lanes(
    alloc: Global,
    tables: &mut Tables,
    ctx: &Context,
    ty: TypeHandle,
    type_place: LLVMType,
    lane: u32,
) -> Result<u32, AllocError>
    requires within { ty.0 < length ctx.now.types }
    requires stands { Stands (trees_in tables.old.types) type_place (type_at (type_trees ctx.now.types) ty) }
    requires lane { lane < length tables.old.terms }
    requires tables { AreTables (origin_of ctx.now) tables.old }
    ensures is { IfOk result (λ k. IsTermAt (contents_in tables.new).terms k (lanes_term (type_at (type_trees ctx.now.types) ty) (term_at (contents_in tables.old).terms lane))) }
    ensures grown { OnOk result (AreGrown (origin_of ctx.now) tables.old tables.new) }
{
    match fixed_lanes(ctx, ty) {
        Some(count) => {
            let places = copies(alloc, lane, count)?;
            put_list(tables, type_place, places)
        }
        None => put_splat(tables, type_place, lane),
    }
}

/// The place of the term of a constant. A part of one gets its place before it.
#[cycle(constant)]
pub fn constant(
    alloc: Global,
    tables: &mut Tables,
    ctx: &Context,
    value: &ConstAttr,
) -> Result<u32, AllocError>
    requires within { HasTypesBelow (length ctx.now.types) (attr_data value.now) }
    requires first_class { HasTypesOfValues ctx.now (attr_data value.now) }
    requires tables { AreTables (origin_of ctx.now) tables.old }
    ensures is { IfOk result (λ k. (setting : Setting) → IsTermAt (contents_in tables.new).terms k (term_of setting ctx.now value.now)) }
    ensures grown { OnOk result (AreGrown (origin_of ctx.now) tables.old tables.new) }
{
    match value {
        ConstAttr::Integer(ty, value) => {
            put(
                tables,
                TermNode::Int(width_of(ctx, *ty), u128::from(*value)),
            )
        }
        ConstAttr::Zero(ty) => filled(alloc, tables, ctx, Fill::Zero, *ty),
        ConstAttr::Undef(ty) => filled(alloc, tables, ctx, Fill::Undef, *ty),
        ConstAttr::Poison(ty) => filled(alloc, tables, ctx, Fill::Poison, *ty),
        ConstAttr::Bytes(bytes) => put_bytes(alloc, tables, bytes.as_slice()),
        ConstAttr::Aggregate(elements, ty) => {
            let place = type_place(alloc, tables, ctx, *ty)?;
            let places = parts(alloc, tables, ctx, elements.as_slice())?;
            put_list(tables, place, places)
        }
        ConstAttr::Splat(element, ty) => {
            let place = type_place(alloc, tables, ctx, *ty)?;
            let lane = constant(alloc, tables, ctx, &**element)?;
            lanes(alloc, tables, ctx, *ty, place, lane)
        }
    }
}

/// The places of the terms of constants.
#[cycle(constant)]
fn parts(
    alloc: Global,
    tables: &mut Tables,
    ctx: &Context,
    parts: &[ConstAttr],
) -> Result<Vec<u32>, AllocError>
    requires within { HaveTypesBelow (length ctx.now.types) (attrs_data parts.now) }
    requires first_class { HaveTypesOfValues ctx.now (attrs_data parts.now) }
    requires tables { AreTables (origin_of ctx.now) tables.old }
    ensures are { IfOk result (λ ks. (setting : Setting) → AreTermsAt (contents_in tables.new).terms ks.items (map (term_of setting ctx.now) parts.now)) }
    ensures grown { OnOk result (AreGrown (origin_of ctx.now) tables.old tables.new) }
{
    let mut places = Vec::new(alloc);
    for part in parts {
        let place = constant(alloc, tables, ctx, part)?;
        places.push(place)?;
    }
    Ok(places)
}
