//! LLVM modules in memory, their builder, and the rules that a checked module meets.
#![tactic(auto)]

pub mod bodies;
pub mod check_err;
pub mod checking;
pub mod code;
pub mod code_store;
pub mod consts;
pub mod depths;
pub mod edges;
pub mod examples;
pub mod laws;
pub mod make;
pub mod module;
pub mod name_set;
pub mod names;
pub mod nesting;
pub mod numbers;
pub mod operands;
pub mod phis;
pub mod pieces;
pub mod struct_rules;
pub mod structs;
pub mod types;
