//! The import: an LLVM module to a dialect module.
#![tactic(auto)]

mod alone;
mod attrs;
mod building;
mod constants;
mod entries;
mod far;
mod functions;
pub mod importing;
pub mod laws;
pub mod matching;
mod operations;
mod order;
mod parts;
pub mod predicates;
mod structs;
mod targets;
mod types;
mod uses;
mod values;
