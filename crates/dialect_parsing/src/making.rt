//! Types with parts, in the store of their parts.

ghost use Rattle.std.specs.Prelude.{◌≡◌, ◌<◌, ◌≤◌, ◌↔◌, List, None, Err, true, false, length, IfOk, IfSome, IsTrue, All};
ghost use Rattle.kinds.specs.Types.{depth, depths, shape};
ghost use Rattle.kinds.specs.Fitting.{is_field, is_array_of, is_vector_of};
ghost use Rattle.dialect_types.specs.Trees.{TypeTree, ArrayType, VectorType, StructType, NamedType, FunctionType, structs_of, is_named, type_at, types_at, type_tree, type_trees, AllBelow, HasPartsBelow, HasFitParts};
ghost use Rattle.dialect_parsing.specs.Spelling.{Grows, AreFields, IsThere};
ghost use Rattle.dialect_parsing.specs.declared.parse_err.Refused.TheVariants.{Syntax};

use crate::parse_err::Refused;
use dialect_types::type_store::TypeStore;
use dialect_types::types::{TypeHandle, TypeKind};
use kinds::fitting::{Shape, is_array_of, is_field, is_vector_of};
use kinds::types::{StructLayout, VectorTypeKind};
use support::items::Items;

/// So many elements a vector may have.
const MAX_LANES: u64 = 4_294_967_295;

/// The number of a type of this kind.
pub fn made(types: &mut TypeStore, kind: TypeKind) -> Result<TypeHandle, Refused>
    requires parts { HasPartsBelow (length types.old) kind }
    requires fit { HasFitParts (type_trees types.old) kind }
    requires nesting { depth (type_tree (type_trees types.old) kind) ≤ 1000 }
    requires unnamed { is_named kind ≡ false }
    ensures within { IfOk result (λ h. h.0 < length types.new) }
    ensures tree { IfOk result (λ h. type_at (type_trees types.new) h ≡ type_tree (type_trees types.old) kind) }
    ensures err { result ≡ Err Syntax → ⊥ }
    ensures grows { Grows types.old types.new }
{
    Ok(types.get(kind)?)
}

/// What rules look at in a type, by its kind.
fn shape_of(kind: &TypeKind) -> Shape
    ensures { (ts : List TypeTree) → result ≡ shape (type_tree ts kind.now) }
{
    match kind {
        TypeKind::Void => Shape::Void,
        TypeKind::Integer(width) => Shape::Int(*width),
        TypeKind::Pointer(space) => Shape::Pointer(*space),
        TypeKind::Floating(_) => Shape::Other,
        TypeKind::Array(..) => Shape::Made,
        TypeKind::Vector(..) => Shape::Made,
        TypeKind::Struct { .. } => Shape::Made,
        TypeKind::Named { .. } => Shape::Named,
        TypeKind::Func { .. } => Shape::Function,
    }
}

/// What rules look at in a type.
fn shape_at(types: &TypeStore, ty: TypeHandle) -> Shape
    requires { ty.0 < length types.now }
    ensures { result ≡ shape (type_at (type_trees types.now) ty) }
{
    shape_of(types.kind(ty))
}

/// Whether each of these may be a field of a struct.
fn are_fields(types: &TypeStore, tys: &[TypeHandle]) -> bool
    requires { AllBelow (length types.now) tys.now }
    ensures { IsTrue result ↔ All (λ t. is_field (shape (type_at (type_trees types.now) t)) ≡ true) tys.now }
{
    for ty in tys {
        if !is_field(shape_at(types, *ty)) {
            return false;
        }
    }
    true
}

/// So many of a type.
#[derive(Clone, Copy, Drop)]
pub struct Counted {
    pub count: u64,
    pub element: TypeHandle,
}

/// The number of an array type.
pub fn make_array(types: &mut TypeStore, of: Counted) -> Result<TypeHandle, Refused>
    requires within { of.element.0 < length types.old }
    requires nesting { depth (type_at (type_trees types.old) of.element) < 1000 }
    ensures within { IfOk result (λ h. h.0 < length types.new) }
    ensures tree { IfOk result (λ h. type_at (type_trees types.new) h ≡ ArrayType of.count (type_at (type_trees types.old) of.element)) }
    ensures fit { IfOk result (λ h. is_array_of of.count (shape (type_at (type_trees types.old) of.element)) ≡ true) }
    ensures err { result ≡ Err Syntax → is_array_of of.count (shape (type_at (type_trees types.old) of.element)) ≡ false }
    ensures grows { Grows types.old types.new }
{
    if !is_array_of(of.count, shape_at(types, of.element)) {
        return Err(Refused::Syntax);
    }
    made(types, TypeKind::Array(of.element, of.count))
}

/// The number of a vector type.
pub fn make_vector(
    types: &mut TypeStore,
    of: Counted,
    kind: VectorTypeKind,
) -> Result<TypeHandle, Refused>
    requires within { of.element.0 < length types.old }
    requires nesting { depth (type_at (type_trees types.old) of.element) < 1000 }
    ensures within { IfOk result (λ h. h.0 < length types.new) }
    ensures tree { IfOk result (λ h. type_at (type_trees types.new) h ≡ VectorType kind of.count (type_at (type_trees types.old) of.element)) }
    ensures fit { IfOk result (λ h. is_vector_of of.count (shape (type_at (type_trees types.old) of.element)) ≡ true) }
    ensures err { result ≡ Err Syntax → is_vector_of of.count (shape (type_at (type_trees types.old) of.element)) ≡ false }
    ensures grows { Grows types.old types.new }
{
    if of.count > MAX_LANES {
        return Err(Refused::Syntax);
    }
    let lanes = of.count as u32;
    if !is_vector_of(lanes, shape_at(types, of.element)) {
        return Err(Refused::Syntax);
    }
    made(types, TypeKind::Vector(of.element, lanes, kind))
}

/// The number of a struct type.
pub fn make_struct(
    types: &mut TypeStore,
    fields: Items<TypeHandle>,
    layout: StructLayout,
) -> Result<TypeHandle, Refused>
    requires within { AllBelow (length types.old) fields }
    requires nesting { depths (types_at (type_trees types.old) fields) < 1000 }
    ensures within { IfOk result (λ h. h.0 < length types.new) }
    ensures tree { IfOk result (λ h. type_at (type_trees types.new) h ≡ StructType layout (types_at (type_trees types.old) fields)) }
    ensures fit { IfOk result (λ h. AreFields (types_at (type_trees types.old) fields)) }
    ensures err { result ≡ Err Syntax → AreFields (types_at (type_trees types.old) fields) → ⊥ }
    ensures grows { Grows types.old types.new }
{
    if !are_fields(types, fields.as_slice()) {
        return Err(Refused::Syntax);
    }
    made(types, TypeKind::Struct { fields, layout })
}

/// The number of the struct of a name, where the store holds one.
pub fn named(types: &TypeStore, name: &str) -> Option<TypeHandle>
    ensures found { IfSome result (λ h. (h.0 < length types.now) × (type_at (type_trees types.now) h ≡ NamedType name.now) × IsThere (structs_of types.now) name.now) }
    ensures none { result ≡ None → IsThere (structs_of types.now) name.now → ⊥ }
{
    let ty = types.named(name)?;
    // What the store says of the type is that its struct is there.
    let _kind = types.kind(ty);
    Some(ty)
}

/// The number of a function type.
pub fn make_func(
    types: &mut TypeStore,
    returned: TypeHandle,
    params: Items<TypeHandle>,
    variadic: bool,
) -> Result<TypeHandle, Refused>
    requires within { (returned.0 < length types.old) × AllBelow (length types.old) params }
    requires nesting { (depth (type_at (type_trees types.old) returned) < 1000) × (depths (types_at (type_trees types.old) params) < 1000) }
    ensures within { IfOk result (λ h. h.0 < length types.new) }
    ensures tree { IfOk result (λ h. type_at (type_trees types.new) h ≡ FunctionType (type_at (type_trees types.old) returned) (types_at (type_trees types.old) params) variadic) }
    ensures err { result ≡ Err Syntax → ⊥ }
    ensures grows { Grows types.old types.new }
{
    let kind = TypeKind::Func {
        result: returned,
        params,
        variadic,
    };
    made(types, kind)
}
