//! The form of modules that is read today, asked of a module.
#![tactic(auto)]

pub mod form;
pub mod functions;
pub mod narrow;
