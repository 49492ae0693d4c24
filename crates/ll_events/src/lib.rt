//! The events of a text of LLVM, by a grammar, with the place where a text is refused.
#![tactic(auto)]

pub mod event_err;
pub mod laws;
pub mod reading;
