//! Types of the dialect, and the legaliser of names.
#![tactic(auto)]

pub mod asking;
pub mod identifier;
pub mod legaliser;
pub mod printing;
pub mod struct_err;
mod struct_names;
pub mod taken;
pub mod texts;
pub mod type_store;
pub mod types;
