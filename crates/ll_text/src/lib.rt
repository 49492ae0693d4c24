//! LLVM text to a module in memory.
#![tactic(auto)]

pub mod laws;
pub mod read;
pub mod read_err;
