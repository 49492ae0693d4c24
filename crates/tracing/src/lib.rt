//! The calls that run a function and answer its trace.
#![tactic(auto)]

mod body;
mod dialect_body;
mod dialect_constants;
mod dialect_rows;
mod dialect_typing;
mod folding;
mod llvm_body;
mod llvm_constants;
mod llvm_index;
mod llvm_rows;
mod llvm_typing;
mod places;
mod run;
pub mod table;
mod tables;
pub mod trace;
pub mod tracing;
mod type_places;
pub mod type_table;
