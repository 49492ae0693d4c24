//! LLVM text of modules in memory.
#![tactic(auto)]

pub mod constants;
pub mod functions;
pub mod instructions;
pub mod numbering;
pub mod numbers;
pub mod operands;
pub mod places;
pub mod printer;
pub mod structs;
pub mod types;
