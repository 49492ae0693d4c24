//! Tokens with what stands before each, written as a text that is cut into just these tokens.
#![tactic(auto)]

pub mod following;
pub mod laws;
#[cfg(test)]
mod tests;
pub mod whole;
pub mod written;
