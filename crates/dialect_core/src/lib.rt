//! Operations of the dialect, their blocks and regions, and the text of a module.
#![tactic(auto)]

pub mod argument_map;
pub mod context;
mod counting;
pub mod few;
pub mod laws;
pub mod linkage;
pub mod lists;
mod module_printing;
pub mod numbering;
pub mod numbers;
mod op_tests;
pub mod ops;
pub mod predicates;
mod printing;
pub mod steps;
pub mod type_tests;
pub mod value_map;
mod value_tests;
pub mod walking;
mod well_formed;
