//! Functions of lines to functions of a module: names, numbers and operands.
#![tactic(auto)]

pub mod adding;
pub mod blocks;
pub mod bodies;
pub mod build_err;
pub mod constants;
pub mod definitions;
pub mod functions;
pub mod instructions;
pub mod names;
pub mod operands;
pub mod results;
pub mod scope;
pub mod structs;
pub mod written;
