//! Types, as a module keeps them.

use crate::numbers::LLVMType;
use kinds::types::{Floating, Lanes, OtherType, StructLayout, VectorTypeKind};
use support::items::Items;
use support::text::Text;

/// The type of an instruction's result.
#[derive(Clone, Copy, PartialEq, Eq, Debug, Drop)]
pub enum ResultType {
    /// A type of the module.
    There(LLVMType),
    /// `i1` in so many lanes, which the module may not have yet.
    Bits(Lanes),
}

/// A type, whose parts are numbers of earlier types (Language Reference, Type System).
#[derive(PartialEq, Eq, Hash, Drop)]
pub enum LLVMTypeKind {
    Void,
    /// An integer type of a width of 1 to 2^23 bits.
    Int(u32),
    /// A pointer type of an address space (Language Reference, Pointer Type).
    Ptr(u32),
    Floating(Floating),
    /// A type for which the dialect has none.
    Other(OtherType),
    /// So many elements of a type (Language Reference, Array Type).
    Array(u64, LLVMType),
    /// So many elements of a type, or a multiple of that (Language Reference, Vector Type).
    Vector(VectorTypeKind, u32, LLVMType),
    /// A struct without a name (Language Reference, Structure Type).
    Literal {
        fields: Items<LLVMType>,
        layout: StructLayout,
    },
    /// A struct with a name, whose fields stand in the structs of the module (Language Reference, Structure Type).
    Named(Text),
    Function {
        result: LLVMType,
        params: Items<LLVMType>,
        variadic: bool,
    },
}
