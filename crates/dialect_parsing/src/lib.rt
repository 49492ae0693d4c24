//! The dialect text of a type or a constant, read into a store of types.
#![tactic(auto)]

pub mod constants;
pub mod heads;
pub mod laws;
pub mod making;
pub mod numbers;
pub mod parse_err;
pub mod parsing;
pub mod reading;
pub mod symbol;
pub mod symbols;
pub mod words;
