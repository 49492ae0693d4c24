//! The bytes of LLVM text as tokens, each with its kind and its place.
#![tactic(auto)]

pub mod bytes;
pub mod kinds;
mod lanes;
pub mod laws;
mod names;
mod numbers;
pub mod piece;
pub mod pieces;
mod plain;
pub mod runs;
mod strings;
#[cfg(test)]
mod tests;
pub mod token_err;
pub mod tokens;
mod words;
