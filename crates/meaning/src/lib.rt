//! What module data of both sides mean: terms, events, traces and the same code.
#![tactic(auto)]

pub mod examples;
pub mod laws;
