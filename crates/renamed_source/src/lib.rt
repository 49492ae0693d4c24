//! An LLVM module as an import reads it: with its structs under the names that the dialect gives them.
#![tactic(auto)]

pub mod source;
