//! The elements of a constant, as they are taken apart.

use crate::numbers::{LLVMConst, LLVMType};
use kinds::fill::Fill;

/// An element of a constant: one that is there, or one that may still have to be made.
#[derive(Clone, Copy, Drop)]
pub enum Piece {
    There(LLVMConst),
    /// Zero, undef or poison of a type.
    Filled(Fill, LLVMType),
    /// An integer of a type of 8 bits.
    Int(LLVMType, u8),
}
