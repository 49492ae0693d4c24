//! Attributes of constants of the source, over types of the context: the type of a constant is walked along with it, so none is
//! looked for or made.

ghost use Rattle.std.specs.Prelude.{◌≡◌, ◌<◌, All, IfOk, None, Some, length, slice_get, true};
ghost use Rattle.llvm_core.specs.Data.{const_at, const_type, consts_at, trees_of};
ghost use Rattle.llvm_core.specs.Elements.{are_elements};
ghost use Rattle.dialect_types.specs.Trees.{structs_of, type_at, type_trees};
ghost use Rattle.const_attrs.specs.Trees.{BytesAttr, attr_data};
ghost use Rattle.from_llvm_ir.specs.Attrs.{AreAttrsOf, AreTaken, IsAttrOf, IsTaken, element_at};

use const_attrs::const_attr::ConstAttr;
use dialect_types::type_store::TypeStore;
use dialect_types::types::{TypeHandle, TypeKind};
use llvm_core::consts::LLVMConstKind;
use llvm_core::numbers::LLVMConst;
use renamed_source::source::Source;
use std::alloc::{AllocError, Global};

/// The type of a field.
fn field_type(fields: &[TypeHandle], place: usize) -> TypeHandle
    requires { place < length fields.now }
    ensures { slice_get fields.now place ≡ Some result }
{
    fields[place]
}

/// The type of the element at a place of a constant of a type that has elements.
fn element_type(types: &TypeStore, ty: TypeHandle, place: usize) -> TypeHandle
    requires below { ty.0 < length types.now }
    requires there { ¬ (element_at (structs_of types.now) (type_at (type_trees types.now) ty) place ≡ None) }
    ensures ty { element_at (structs_of types.now) (type_at (type_trees types.now) ty) place ≡ Some (type_at (type_trees types.now) result) }
    ensures below { result.0 < length types.now }
{
    // The store says that each name is that of one struct.
    let _count = types.len();
    match types.kind(ty) {
        TypeKind::Array(element, _) => *element,
        TypeKind::Vector(lane, _, _) => *lane,
        TypeKind::Struct { fields, .. } => field_type(fields.as_slice(), place),
        TypeKind::Named { body, .. } => match body {
            Some(fields) => field_type(fields.types.as_slice(), place),
            None => unreachable!(),
        },
        TypeKind::Integer(_) => unreachable!(),
        TypeKind::Pointer(_) => unreachable!(),
        TypeKind::Floating(_) => unreachable!(),
        TypeKind::Func { .. } => unreachable!(),
        TypeKind::Void => unreachable!(),
    }
}

/// Bytes as an attribute.
fn bytes_attr(alloc: Global, bytes: &[u8]) -> Result<ConstAttr, AllocError>
    ensures { IfOk result (λ a. attr_data a ≡ BytesAttr bytes.now) }
{
    let mut copy = Vec::new(alloc);
    copy.extend_from_slice(bytes)?;
    Ok(ConstAttr::Bytes(copy))
}

/// The attribute of a constant of that type. It takes time and memory as the constant has parts, each as often as it stands in it.
#[cycle(attr)]
pub(crate) fn attr(
    alloc: Global,
    types: &TypeStore,
    source: &Source<'_>,
    c: LLVMConst,
    ty: TypeHandle,
) -> Result<ConstAttr, AllocError>
    requires within { c.0 < length source.now.consts }
    requires taken { IsTaken (structs_of types.now) (const_at (trees_of source.now).consts c) }
    requires below { ty.0 < length types.now }
    requires ty { type_at (type_trees types.now) ty ≡ const_type (const_at (trees_of source.now).consts c) }
    ensures { IfOk result (IsAttrOf types.now (const_at (trees_of source.now).consts c)) }
{
    match source.const_kind(c) {
        LLVMConstKind::Int(_, value) => Ok(ConstAttr::Integer(ty, *value as u64)),
        LLVMConstKind::Filled(fill, _) => Ok(ConstAttr::filled(*fill, ty)),
        LLVMConstKind::Bytes(_, bytes) => bytes_attr(alloc, bytes.as_slice()),
        LLVMConstKind::List(_, elements) => {
            let elements = attrs(alloc, types, source, c, elements.as_slice(), ty)?;
            Ok(ConstAttr::Aggregate(elements, ty))
        }
        LLVMConstKind::Splat(..) => unreachable!(),
        LLVMConstKind::Placeholder(..) => unreachable!(),
    }
}

/// The attributes of the elements of a list of that type.
#[cycle(attr)]
fn attrs(
    alloc: Global,
    types: &TypeStore,
    source: &Source<'_>,
    list: LLVMConst,
    elements: &[LLVMConst],
    ty: TypeHandle,
) -> Result<Vec<ConstAttr>, AllocError>
    requires within { list.0 < length source.now.consts }
    requires earlier { All (λ c. c.0 < list.0) elements.now }
    requires taken { AreTaken (structs_of types.now) (consts_at (trees_of source.now).consts elements.now) }
    requires below { ty.0 < length types.now }
    requires fit { are_elements (structs_of types.now) (type_at (type_trees types.now) ty) (consts_at (trees_of source.now).consts elements.now) ≡ true }
    ensures { IfOk result (λ made. AreAttrsOf types.now source.now elements.now made.items) }
{
    let mut made = Vec::with_capacity(alloc, elements.len())?;
    for (place, element) in elements.iter().enumerate() {
        let of = element_type(types, ty, place);
        made.push(attr(alloc, types, source, *element, of)?)?;
    }
    Ok(made)
}
