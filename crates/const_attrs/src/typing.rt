//! The type of a constant.

ghost use Rattle.std.specs.Prelude.{◌≡◌, ◌<◌, ◌⊎◌, ℕ, List, IfOk, IsOk, length};
ghost use Rattle.kinds.specs.Types.{same_tree};
ghost use Rattle.dialect_types.specs.Trees.{TypeTree, ArrayType, IntType, type_at, type_trees, Grows};
ghost use Rattle.const_attrs.specs.Trees.{BytesAttr, attr_tree, attr_data, type_of, HasTypesBelow};
ghost use Rattle.const_attrs.specs.Verified.{has_type};
ghost use Rattle.const_attrs.specs.Typing.{own_type, IsOwnBelow};
ghost use Rattle.const_attrs.specs.declared.typing.OwnType.TheVariants as own;

use crate::const_attr::ConstAttr;
use dialect_types::type_store::TypeStore;
use dialect_types::types::{TypeHandle, TypeKind};
use std::alloc::AllocError;

/// How the type of a constant is known.
#[derive(Drop)]
pub enum OwnType {
    /// It names it.
    Named(TypeHandle),
    /// It is that of so many 8-bit integers.
    Bytes(u64),
}

/// Whether two numbers of a store are those of one type.
pub fn is_same(types: &TypeStore, a: TypeHandle, b: TypeHandle) -> bool
    requires { (a.0 < length types.now) × (b.0 < length types.now) }
    ensures { result ≡ same_tree (type_at (type_trees types.now) a) (type_at (type_trees types.now) b) }
{
    // The store says that equal types have equal numbers.
    let _count = types.len();
    a == b
}

/// Whether a type is that of 8-bit integers.
fn is_byte(types: &TypeStore, ty: TypeHandle) -> bool
    requires { ty.0 < length types.now }
    ensures { result ≡ same_tree (IntType 8) (type_at (type_trees types.now) ty) }
{
    match types.kind(ty) {
        TypeKind::Integer(width) => *width == 8,
        _ => false,
    }
}

/// Whether a type is that of so many 8-bit integers.
fn is_bytes(types: &TypeStore, len: u64, ty: TypeHandle) -> bool
    requires { ty.0 < length types.now }
    ensures { result ≡ same_tree (ArrayType len (IntType 8)) (type_at (type_trees types.now) ty) }
{
    match types.kind(ty) {
        TypeKind::Array(element, count) => len == *count && is_byte(types, *element),
        _ => false,
    }
}

/// The number of the type of so many 8-bit integers, new or old.
fn bytes_type(types: &mut TypeStore, len: u64) -> Result<TypeHandle, AllocError>
    ensures within { IfOk result (λ t. t.0 < length types.new) }
    ensures tree { IfOk result (λ t. type_at (type_trees types.new) t ≡ ArrayType len (IntType 8)) }
    ensures grows { Grows types.old types.new }
{
    let byte = types.get(TypeKind::Integer(8))?;
    types.get(TypeKind::Array(byte, len))
}

impl ConstAttr {
    /// What its type is.
    fn own_type(&self) -> OwnType
        ensures is { (ts : List TypeTree) → type_of (attr_tree ts (attr_data self.now)) ≡ own_type ts result }
        ensures below { (n : ℕ) → HasTypesBelow n (attr_data self.now) → IsOwnBelow n result }
        ensures bytes { (len : ℕ) → result ≡ own.Bytes len → (bytes : List ℕ) × (attr_data self.now ≡ BytesAttr bytes) }
    {
        match self {
            ConstAttr::Integer(ty, _) => OwnType::Named(*ty),
            ConstAttr::Zero(ty) => OwnType::Named(*ty),
            ConstAttr::Undef(ty) => OwnType::Named(*ty),
            ConstAttr::Poison(ty) => OwnType::Named(*ty),
            ConstAttr::Bytes(bytes) => OwnType::Bytes(bytes.len() as u64),
            ConstAttr::Aggregate(_, ty) => OwnType::Named(*ty),
            ConstAttr::Splat(_, ty) => OwnType::Named(*ty),
        }
    }

    /// The number of its type: of bytes an array type, new or old, of any other a type that the store has.
    pub fn type_of(&self, types: &mut TypeStore) -> Result<TypeHandle, AllocError>
        requires { HasTypesBelow (length types.old) (attr_data self.now) }
        ensures within { IfOk result (λ t. t.0 < length types.new) }
        ensures tree { IfOk result (λ t. type_at (type_trees types.new) t ≡ type_of (attr_tree (type_trees types.old) (attr_data self.now))) }
        ensures grows { Grows types.old types.new }
        ensures same { ((bytes : List ℕ) × (attr_data self.now ≡ BytesAttr bytes)) ⊎ ((types.new ≡ types.old) × IsOk result) }
    {
        match self.own_type() {
            OwnType::Named(ty) => Ok(ty),
            OwnType::Bytes(len) => bytes_type(types, len),
        }
    }

    /// Whether its type is that one.
    pub fn has_type(&self, types: &TypeStore, ty: TypeHandle) -> bool
        requires below { HasTypesBelow (length types.now) (attr_data self.now) }
        requires within { ty.0 < length types.now }
        ensures { result ≡ has_type (attr_tree (type_trees types.now) (attr_data self.now)) (type_at (type_trees types.now) ty) }
    {
        match self.own_type() {
            OwnType::Named(own) => is_same(types, own, ty),
            OwnType::Bytes(len) => is_bytes(types, len, ty),
        }
    }
}
