//! The export: a dialect module to an LLVM module.
#![tactic(auto)]

pub mod arguments;
pub mod blocks;
pub mod bodies;
pub mod building;
pub mod constants;
pub mod conversion_context;
pub mod edges;
pub mod exporting;
pub mod graph;
pub mod guesses;
pub mod listing;
pub mod names;
pub mod narrow;
pub mod numbering;
pub mod numbers;
pub mod opening;
pub mod operations;
pub mod order;
pub mod own;
pub mod predicates;
pub mod readable;
pub mod room;
pub mod run_map;
pub mod structs;
pub mod to_llvm_err;
pub mod type_conversion;
pub mod type_laws;
pub mod types;
pub mod values;
