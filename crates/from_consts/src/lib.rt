//! Types and constants of an LLVM module, converted one by one into a context.
#![tactic(auto)]

mod attrs;
pub mod const_context;
pub mod constants;
pub mod conversion_err;
pub mod laws;
pub mod types;
