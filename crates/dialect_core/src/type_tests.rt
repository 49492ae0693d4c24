//! Tests of types: what they may stand for, and whether they are the same.

ghost use Rattle.std.specs.Prelude.{◌≡◌, ◌<◌, ◌^◌, ◌↔◌, IsTrue, All, length, map};
ghost use Rattle.kinds.specs.Types.{shape, laned, bits_of, params_of};
ghost use Rattle.kinds.specs.Held.{width_in, IsFirstClass, IsReturned, IsHeld, IsHeldResult, IsShortWidth, IsSignature, IsHeldSignature};
ghost use Rattle.dialect_types.specs.Trees.{type_at, type_tree, type_trees};
ghost use Rattle.const_attrs.specs.Trees.{attr_tree, attr_trees, attr_data, attrs_data, HasTypesBelow, HaveTypesBelow};
ghost use Rattle.dialect_core.specs.Form.{is_fixed, AreShortAttrs, IsIntegerOf, IsShortAttr, IsShortFill};

use const_attrs::const_attr::ConstAttr;
use dialect_types::type_store::TypeStore;
use dialect_types::types::{TypeHandle, TypeKind};
use kinds::fill::Fill;
use kinds::fitting;
use kinds::fitting::{Laned, Shape};
use kinds::types::{Lanes, VectorTypeKind};

/// The greatest width of an integer constant.
const MAX_SHORT: u32 = 64;

/// What rules look at in a type, by its kind.
pub fn shape_of(kind: &TypeKind) -> Shape
    ensures { (ts : _) → result ≡ shape (type_tree ts kind.now) }
{
    match kind {
        TypeKind::Void => Shape::Void,
        TypeKind::Integer(width) => Shape::Int(*width),
        TypeKind::Pointer(space) => Shape::Pointer(*space),
        TypeKind::Floating(_) => Shape::Other,
        TypeKind::Array(..) => Shape::Made,
        TypeKind::Vector(..) => Shape::Made,
        TypeKind::Struct { .. } => Shape::Made,
        TypeKind::Named { .. } => Shape::Named,
        TypeKind::Func { .. } => Shape::Function,
    }
}

/// What rules look at in a type.
pub fn shape_at(types: &TypeStore, ty: TypeHandle) -> Shape
    requires { ty.0 < length types.now }
    ensures { result ≡ shape (type_at (type_trees types.now) ty) }
{
    shape_of(types.kind(ty))
}

/// The lanes of a type.
pub fn laned_at(types: &TypeStore, ty: TypeHandle) -> Laned
    requires { ty.0 < length types.now }
    ensures { result ≡ laned (type_at (type_trees types.now) ty) }
{
    match types.kind(ty) {
        TypeKind::Vector(element, count, kind) => Laned {
            lanes: Lanes::Many(*kind, *count),
            lane: shape_at(types, *element),
        },
        kind => Laned {
            lanes: Lanes::One,
            lane: shape_of(kind),
        },
    }
}

/// Whether two types are the same.
pub fn same_type(types: &TypeStore, a: TypeHandle, b: TypeHandle) -> bool
    requires left { a.0 < length types.now }
    requires right { b.0 < length types.now }
    ensures { IsTrue result ↔ type_at (type_trees types.now) a ≡ type_at (type_trees types.now) b }
{
    let _count = types.len();
    a == b
}

/// Whether two lists of types are the same.
pub fn same_types(types: &TypeStore, xs: &[TypeHandle], ys: &[TypeHandle]) -> bool
    requires left { All (λ t. t.0 < length types.now) xs.now }
    requires right { All (λ t. t.0 < length types.now) ys.now }
    ensures { IsTrue result ↔ map (type_at (type_trees types.now)) xs.now ≡ map (type_at (type_trees types.now)) ys.now }
{
    if xs.len() != ys.len() {
        return false;
    }
    for i in 0..xs.len() {
        if !same_type(types, xs[i], ys[i]) {
            return false;
        }
    }
    true
}

/// Whether a type is one of values, of a width that there is.
pub fn is_first_class(types: &TypeStore, ty: TypeHandle) -> bool
    requires { ty.0 < length types.now }
    ensures { IsTrue result ↔ IsFirstClass (type_at (type_trees types.now) ty) }
{
    fitting::is_first_class(shape_of(types.kind(ty)))
}

/// Whether a type is one of values that is translated.
pub fn is_held(types: &TypeStore, ty: TypeHandle) -> bool
    requires { ty.0 < length types.now }
    ensures { IsTrue result ↔ IsHeld (type_at (type_trees types.now) ty) }
{
    fitting::is_held(shape_of(types.kind(ty)))
}

/// Whether a type is that of bits, as many as another type has lanes.
pub fn is_bits_of(types: &TypeStore, ty: TypeHandle, of: TypeHandle) -> bool
    requires own { ty.0 < length types.now }
    requires of { of.0 < length types.now }
    ensures { IsTrue result ↔ type_at (type_trees types.now) ty ≡ bits_of (type_at (type_trees types.now) of) }
{
    fitting::is_bits_laned(laned_at(types, ty), laned_at(types, of))
}

/// Whether types are those of values.
pub fn all_first_class(types: &TypeStore, tys: &[TypeHandle]) -> bool
    requires { All (λ t. t.0 < length types.now) tys.now }
    ensures { IsTrue result ↔ All (λ t. IsFirstClass (type_at (type_trees types.now) t)) tys.now }
{
    for ty in tys {
        if !is_first_class(types, *ty) {
            return false;
        }
    }
    true
}

/// Whether types are those of values that are translated.
pub fn all_held(types: &TypeStore, tys: &[TypeHandle]) -> bool
    requires { All (λ t. t.0 < length types.now) tys.now }
    ensures { IsTrue result ↔ All (λ t. IsHeld (type_at (type_trees types.now) t)) tys.now }
{
    for ty in tys {
        if !is_held(types, *ty) {
            return false;
        }
    }
    true
}

/// Whether a function may return the type.
pub fn is_returned(types: &TypeStore, ty: TypeHandle) -> bool
    requires { ty.0 < length types.now }
    ensures { IsTrue result ↔ IsReturned (type_at (type_trees types.now) ty) }
{
    fitting::is_nothing(shape_at(types, ty)) || is_first_class(types, ty)
}

/// Whether a function that is translated may return the type.
pub fn is_held_result(types: &TypeStore, ty: TypeHandle) -> bool
    requires { ty.0 < length types.now }
    ensures { IsTrue result ↔ IsHeldResult (type_at (type_trees types.now) ty) }
{
    fitting::is_nothing(shape_at(types, ty)) || is_held(types, ty)
}

/// Whether a function may return and take these types.
fn are_first_class(types: &TypeStore, returned: TypeHandle, params: &[TypeHandle]) -> bool
    requires returned { returned.0 < length types.now }
    requires params { All (λ t. t.0 < length types.now) params.now }
    ensures { IsTrue result ↔ IsReturned (type_at (type_trees types.now) returned) × All (λ t. IsFirstClass (type_at (type_trees types.now) t)) params.now }
{
    is_returned(types, returned) && all_first_class(types, params)
}

/// Whether a type is that of a function.
pub fn is_signature(types: &TypeStore, ty: TypeHandle) -> bool
    requires { ty.0 < length types.now }
    ensures { IsTrue result ↔ IsSignature (type_at (type_trees types.now) ty) }
{
    match types.kind(ty) {
        TypeKind::Func {
            result: returned,
            params,
            ..
        } => are_first_class(types, *returned, params.as_slice()),
        _ => false,
    }
}

/// Whether a function that is translated may return and take these types.
fn are_held(types: &TypeStore, returned: TypeHandle, params: &[TypeHandle]) -> bool
    requires returned { returned.0 < length types.now }
    requires params { All (λ t. t.0 < length types.now) params.now }
    ensures { IsTrue result ↔ IsHeldResult (type_at (type_trees types.now) returned) × All (λ t. IsHeld (type_at (type_trees types.now) t)) params.now }
{
    is_held_result(types, returned) && all_held(types, params)
}

/// Whether a type is that of a function that is translated.
pub fn is_held_signature(types: &TypeStore, ty: TypeHandle) -> bool
    requires { ty.0 < length types.now }
    ensures { IsTrue result ↔ IsHeldSignature (type_at (type_trees types.now) ty) }
{
    match types.kind(ty) {
        TypeKind::Func {
            result: returned,
            params,
            variadic,
        } => !*variadic && are_held(types, *returned, params.as_slice()),
        _ => false,
    }
}

/// What a function of a type takes; nothing where it is the type of no function.
pub fn params_of(types: &TypeStore, ty: TypeHandle) -> &[TypeHandle]
    requires { ty.0 < length types.now }
    ensures params { map (type_at (type_trees types.now)) result.now ≡ params_of (type_at (type_trees types.now) ty) }
    ensures within { All (λ t. t.0 < length types.now) result.now }
{
    match types.kind(ty) {
        TypeKind::Func { params, .. } => params.as_slice(),
        _ => &[],
    }
}

/// Whether these are the types that a function of a type takes.
pub fn takes(types: &TypeStore, ty: TypeHandle, args: &[TypeHandle]) -> bool
    requires ty { ty.0 < length types.now }
    requires args { All (λ t. t.0 < length types.now) args.now }
    ensures { IsTrue result ↔ map (type_at (type_trees types.now)) args.now ≡ params_of (type_at (type_trees types.now) ty) }
{
    same_types(types, args, params_of(types, ty))
}

/// Whether a value fits a width.
fn fits_width(value: u64, width: u32) -> bool
    ensures { IsTrue result ↔ value < 2 ^ width }
{
    if width >= 64 {
        true
    } else {
        value >> width == 0
    }
}

/// Whether a type is an integer type of 1 to 64 bits that a value fits.
fn is_fitting(types: &TypeStore, ty: TypeHandle, value: u64) -> bool
    requires { ty.0 < length types.now }
    ensures { IsTrue result ↔ IsIntegerOf (type_at (type_trees types.now) ty) value }
{
    match types.kind(ty) {
        TypeKind::Integer(width) => {
            1 <= *width && *width <= MAX_SHORT && fits_width(value, *width)
        }
        _ => false,
    }
}

/// Whether a type has the width of an integer constant that is translated.
fn is_short_width(types: &TypeStore, ty: TypeHandle) -> bool
    requires { ty.0 < length types.now }
    ensures { IsTrue result ↔ IsShortWidth (width_in (type_at (type_trees types.now) ty)) }
{
    match shape_at(types, ty) {
        Shape::Int(width) => 1 <= width && width <= MAX_SHORT,
        _ => false,
    }
}

/// Whether zero, undef or poison of a type is translated: the zero of an integer type has 1 to 64 bits.
pub fn is_short_fill(types: &TypeStore, fill: Fill, ty: TypeHandle) -> bool
    requires { ty.0 < length types.now }
    ensures { IsTrue result ↔ IsShortFill fill (type_at (type_trees types.now) ty) }
{
    fill.is_own(shape_at(types, ty)) || is_short_width(types, ty)
}

/// Whether a type is a vector of a known length.
fn is_fixed(types: &TypeStore, ty: TypeHandle) -> bool
    requires { ty.0 < length types.now }
    ensures { result ≡ is_fixed (type_at (type_trees types.now) ty) }
{
    match types.kind(ty) {
        TypeKind::Vector(_, _, VectorTypeKind::Fixed) => true,
        _ => false,
    }
}

/// Bytes are below 256.
fn are_small(bytes: &[u8])
    ensures { All (λ b. b < 2 ^ 8) bytes.now }
{}

/// Whether a constant is translated: each integer in it, a zero too, has 1 to 64 bits, which it fits, and no vector of equal
/// elements in it is scalable.
#[cycle(is_short)]
pub fn is_short(types: &TypeStore, value: &ConstAttr) -> bool
    requires { HasTypesBelow (length types.now) (attr_data value.now) }
    ensures { IsTrue result ↔ IsShortAttr (attr_tree (type_trees types.now) (attr_data value.now)) }
{
    match value {
        ConstAttr::Integer(ty, number) => is_fitting(types, *ty, *number),
        ConstAttr::Zero(ty) => is_short_fill(types, Fill::Zero, *ty),
        ConstAttr::Undef(_) => true,
        ConstAttr::Poison(_) => true,
        ConstAttr::Bytes(bytes) => {
            // This tells the proof of the bytes.
            are_small(bytes.as_slice());
            true
        }
        ConstAttr::Aggregate(elements, _) => are_short(types, elements.as_slice()),
        ConstAttr::Splat(element, ty) => is_fixed(types, *ty) && is_short(types, element),
    }
}

/// Whether constants are translated.
#[cycle(is_short)]
fn are_short(types: &TypeStore, values: &[ConstAttr]) -> bool
    requires { HaveTypesBelow (length types.now) (attrs_data values.now) }
    ensures { IsTrue result ↔ AreShortAttrs (attr_trees (type_trees types.now) (attrs_data values.now)) }
{
    for value in values {
        if !is_short(types, value) {
            return false;
        }
    }
    true
}
