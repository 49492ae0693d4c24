//! Types, as a store keeps them.

use crate::identifier::Identifier;
use kinds::types::{Floating, StructLayout, VectorTypeKind};
use support::items::Items;

/// The number of a type in its store.
#[derive(Clone, Copy, PartialEq, Eq, Hash, Debug, Drop)]
pub struct TypeHandle(pub u32);

/// The fields of a struct with a name, numbers of earlier types, and how they lie.
#[derive(PartialEq, Eq, Hash, Drop)]
pub struct StructFields {
    pub types: Items<TypeHandle>,
    pub layout: StructLayout,
}

/// A type, whose parts are numbers of earlier types: a line for each kind.
#[derive(PartialEq, Eq, Hash, Drop)]
pub enum TypeKind {
    /// An integer type of a width in bits.
    Integer(u32),
    /// A pointer type of an address space.
    Pointer(u32),
    Floating(Floating),
    /// So many of a type.
    Array(TypeHandle, u64),
    /// So many of a type, or a multiple of that.
    Vector(TypeHandle, u32, VectorTypeKind),
    Struct {
        fields: Items<TypeHandle>,
        layout: StructLayout,
    },
    /// A struct with a name, of which a store holds one. Where its fields are not told it is opaque.
    Named {
        name: Identifier,
        body: Option<StructFields>,
    },
    Func {
        result: TypeHandle,
        params: Items<TypeHandle>,
        variadic: bool,
    },
    Void,
}
