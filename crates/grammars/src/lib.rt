//! Grammars as data, of which the next token tells how to go on, and one reader for all of them.
#![tactic(auto)]

pub mod choices;
pub mod grammar;
pub mod laws;
mod lookup;
pub mod packed_event;
pub mod parts;
pub mod read_err;
pub mod reader;
pub mod rows;
pub mod symbols;
#[cfg(test)]
mod tests;
