//! What has a name or a number in a function.

use llvm_core::numbers::{LLVMBasicBlock, LLVMInstRef};
use std::hash::Hash;

/// A parameter, a block or a result of a function.
#[derive(Clone, Copy, PartialEq, Eq, Hash, Debug, Drop)]
pub enum Place {
    /// The parameter at a place, counted from 0.
    Param(u32),
    Block(LLVMBasicBlock),
    /// The result of an instruction.
    Result(LLVMInstRef),
}
