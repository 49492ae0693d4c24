//! Constants, as a module keeps them.

use crate::numbers::{LLVMConst, LLVMType};
use kinds::fill::Fill;
use support::items::Items;

/// A constant, whose parts are numbers of types and of earlier constants (Language Reference, Constants).
#[derive(PartialEq, Eq, Hash, Drop)]
pub enum LLVMConstKind {
    /// An integer of an integer type, below 2^width; of a type of more than 128 bits, below 2^128.
    Int(LLVMType, u128),
    /// Zero, undef or poison of a type (Language Reference, Simple Constants, Undefined Values, Poison Values). The zero of an
    /// integer type is the integer 0, and no module keeps it otherwise.
    Filled(Fill, LLVMType),
    /// An array of integers of 8 bits, with a byte for each (Language Reference, Complex Constants). Bytes that are all 0 are the
    /// zero of the type, and no module keeps them otherwise.
    Bytes(LLVMType, Items<u8>),
    /// An array, a vector of a known length or a struct, with a constant for each element (Language Reference, Complex Constants).
    /// What is zero, undef or poison in each element is that of the type, an array of integers of 8 bits is their bytes, and no
    /// module keeps them otherwise.
    List(LLVMType, Items<LLVMConst>),
    /// A scalable vector each lane of which is that constant (Language Reference, Complex Constants). That of zero, undef or
    /// poison is that of the type, and no module keeps it otherwise.
    Splat(LLVMType, LLVMConst),
    /// What a reader hands to `build` for an operand that is not there yet: its number and its type.
    Placeholder(u32, LLVMType),
}
