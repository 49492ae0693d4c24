//! The rules of constants.

ghost use Rattle.std.specs.Prelude.{◌≡◌, ◌<◌, ◌≤◌, ◌^◌, nat_lt, Some, IfSome, length};
ghost use Rattle.std.specs.Option.{option_map};
ghost use Rattle.dialect_types.specs.Trees.{VectorType, type_at, types_at, type_trees, structs_of, AllBelow};
ghost use Rattle.const_attrs.specs.Trees.{attr_tree, attr_trees, attr_data, attrs_data, HasTypesBelow, HaveTypesBelow};
ghost use Rattle.const_attrs.specs.Verified.{OfOne, OneOfEach, all_have, each_has, elements_of, lane_of, is_in_range, misfit, splat_misfit, broken, broken_in, fault_of};

use crate::attr_err::AttrErr;
use crate::const_attr::ConstAttr;
use dialect_types::type_store::TypeStore;
use dialect_types::types::{StructFields, TypeHandle, TypeKind};
use kinds::types::VectorTypeKind;

/// The greatest width of an integer that an attribute holds.
const MAX_SHORT: u32 = 64;

/// Whether an integer is below 2 to the power of a width.
fn is_below(value: u64, width: u32) -> bool
    requires { width ≤ 64 }
    ensures { result ≡ nat_lt value (2 ^ width) }
{
    width == MAX_SHORT || value < 1 << width
}

/// Whether an integer is one of a type.
fn is_in_range(types: &TypeStore, ty: TypeHandle, value: u64) -> bool
    requires { ty.0 < length types.now }
    ensures { result ≡ is_in_range (type_at (type_trees types.now) ty) value }
{
    match types.kind(ty) {
        TypeKind::Integer(width) => *width <= MAX_SHORT && is_below(value, *width),
        _ => false,
    }
}

/// Whether each of some constants has a type.
fn all_have(elements: &[ConstAttr], types: &TypeStore, ty: TypeHandle) -> bool
    requires below { HaveTypesBelow (length types.now) (attrs_data elements.now) }
    requires within { ty.0 < length types.now }
    ensures { result ≡ all_have (attr_trees (type_trees types.now) (attrs_data elements.now)) (type_at (type_trees types.now) ty) }
{
    for element in elements {
        if !element.has_type(types, ty) {
            return false;
        }
    }
    true
}

/// Whether each of some constants has the type at its place.
fn each_has(elements: &[ConstAttr], types: &TypeStore, tys: &[TypeHandle]) -> bool
    requires below { HaveTypesBelow (length types.now) (attrs_data elements.now) }
    requires within { AllBelow (length types.now) tys.now }
    requires as_many { length elements.now ≡ length tys.now }
    ensures { result ≡ each_has (attr_trees (type_trees types.now) (attrs_data elements.now)) (types_at (type_trees types.now) tys.now) }
{
    for (i, element) in elements.iter().enumerate() {
        if !element.has_type(types, tys[i]) {
            return false;
        }
    }
    true
}

/// The first rule of an aggregate that elements break, if any, where it is made of so many of one type.
fn of_one(
    elements: &[ConstAttr],
    types: &TypeStore,
    count: u64,
    ty: TypeHandle,
) -> Result<(), AttrErr>
    requires below { HaveTypesBelow (length types.now) (attrs_data elements.now) }
    requires within { ty.0 < length types.now }
    ensures { fault_of result ≡ misfit (attr_trees (type_trees types.now) (attrs_data elements.now)) (Some (OfOne count (type_at (type_trees types.now) ty))) }
{
    if elements.len() as u64 != count {
        return Err(AttrErr::ElementCount);
    }
    if !all_have(elements, types, ty) {
        return Err(AttrErr::ElementType);
    }
    Ok(())
}

/// The first rule of an aggregate that elements break, if any, where it is made of one of each of some types.
fn one_of_each(elements: &[ConstAttr], types: &TypeStore, tys: &[TypeHandle]) -> Result<(), AttrErr>
    requires below { HaveTypesBelow (length types.now) (attrs_data elements.now) }
    requires within { AllBelow (length types.now) tys.now }
    ensures { fault_of result ≡ misfit (attr_trees (type_trees types.now) (attrs_data elements.now)) (Some (OneOfEach (types_at (type_trees types.now) tys.now))) }
{
    if elements.len() != tys.len() {
        return Err(AttrErr::ElementCount);
    }
    if !each_has(elements, types, tys) {
        return Err(AttrErr::ElementType);
    }
    Ok(())
}

/// The first rule of an aggregate of a vector type that elements break, if any.
fn fit_vector(
    elements: &[ConstAttr],
    types: &TypeStore,
    kind: VectorTypeKind,
    count: u32,
    lane: TypeHandle,
) -> Result<(), AttrErr>
    requires below { HaveTypesBelow (length types.now) (attrs_data elements.now) }
    requires within { lane.0 < length types.now }
    ensures { fault_of result ≡ misfit (attr_trees (type_trees types.now) (attrs_data elements.now)) (elements_of (structs_of types.now) (VectorType kind count (type_at (type_trees types.now) lane))) }
{
    match kind {
        VectorTypeKind::Fixed => of_one(elements, types, u64::from(count), lane),
        VectorTypeKind::Scalable => Err(AttrErr::ElementCount),
    }
}

/// The first rule of an aggregate of a struct with a name that elements break, if any.
fn fit_named(
    elements: &[ConstAttr],
    types: &TypeStore,
    body: &Option<StructFields>,
) -> Result<(), AttrErr>
    requires below { HaveTypesBelow (length types.now) (attrs_data elements.now) }
    requires within { IfSome body.now (λ b. AllBelow (length types.now) b.types) }
    ensures { fault_of result ≡ misfit (attr_trees (type_trees types.now) (attrs_data elements.now)) (option_map (λ b. OneOfEach (types_at (type_trees types.now) b.types)) body.now) }
{
    match body {
        Some(fields) => one_of_each(elements, types, fields.types.as_slice()),
        None => Err(AttrErr::ElementCount),
    }
}

/// The first rule of an aggregate of a type that elements break, if any.
fn fit(elements: &[ConstAttr], types: &TypeStore, ty: TypeHandle) -> Result<(), AttrErr>
    requires below { HaveTypesBelow (length types.now) (attrs_data elements.now) }
    requires within { ty.0 < length types.now }
    ensures { fault_of result ≡ misfit (attr_trees (type_trees types.now) (attrs_data elements.now)) (elements_of (structs_of types.now) (type_at (type_trees types.now) ty)) }
{
    // The store says that each name is that of one struct.
    let _count = types.len();
    match types.kind(ty) {
        TypeKind::Array(element, count) => of_one(elements, types, *count, *element),
        TypeKind::Vector(lane, count, kind) => fit_vector(elements, types, *kind, *count, *lane),
        TypeKind::Struct { fields, .. } => one_of_each(elements, types, fields.as_slice()),
        TypeKind::Named { body, .. } => fit_named(elements, types, body),
        _ => Err(AttrErr::ElementCount),
    }
}

/// The first rule of a splat of a type that an element breaks, if any.
fn fit_splat(element: &ConstAttr, types: &TypeStore, ty: TypeHandle) -> Result<(), AttrErr>
    requires below { HasTypesBelow (length types.now) (attr_data element.now) }
    requires within { ty.0 < length types.now }
    ensures { fault_of result ≡ splat_misfit (attr_tree (type_trees types.now) (attr_data element.now)) (lane_of (type_at (type_trees types.now) ty)) }
{
    let TypeKind::Vector(lane, ..) = types.kind(ty) else {
        return Err(AttrErr::ElementCount);
    };
    if element.has_type(types, *lane) {
        Ok(())
    } else {
        Err(AttrErr::ElementType)
    }
}

impl ConstAttr {
    /// Answers the first rule that it breaks, on a walk from the outside in: at an aggregate or a splat the count of the
    /// elements, then their types, and then what each breaks, in their order; an integer lies below 2 to the power of its
    /// width, which is at most 64.
    #[cycle(verify)]
    pub fn verify(&self, types: &TypeStore) -> Result<(), AttrErr>
        requires { HasTypesBelow (length types.now) (attr_data self.now) }
        ensures { fault_of result ≡ broken (structs_of types.now) (attr_tree (type_trees types.now) (attr_data self.now)) }
    {
        match self {
            ConstAttr::Integer(ty, value) => {
                if is_in_range(types, *ty, *value) {
                    Ok(())
                } else {
                    Err(AttrErr::IntRange)
                }
            }
            ConstAttr::Zero(_) | ConstAttr::Undef(_) | ConstAttr::Poison(_) => Ok(()),
            ConstAttr::Bytes(_) => Ok(()),
            ConstAttr::Aggregate(elements, ty) => {
                fit(elements.as_slice(), types, *ty)?;
                ConstAttr::verify_each(elements.as_slice(), types)
            }
            ConstAttr::Splat(element, ty) => {
                fit_splat(element, types, *ty)?;
                element.verify(types)
            }
        }
    }

    /// Answers the first rule that some constants break, in their order.
    #[cycle(verify)]
    fn verify_each(elements: &[ConstAttr], types: &TypeStore) -> Result<(), AttrErr>
        requires { HaveTypesBelow (length types.now) (attrs_data elements.now) }
        ensures { fault_of result ≡ broken_in (structs_of types.now) (attr_trees (type_trees types.now) (attrs_data elements.now)) }
    {
        for element in elements {
            element.verify(types)?;
        }
        Ok(())
    }
}
