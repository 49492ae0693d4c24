//! The grammar of LLVM text, in tables that pass the check of grammars.
#![tactic(auto)]

pub mod laws;
pub mod tables;
