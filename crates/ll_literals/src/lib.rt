//! Names, numbers and integer literals, as LLVM text writes them.
#![tactic(auto)]

pub mod escapes;
pub mod literals;
pub mod names;
pub mod numbers;
pub mod printed;
pub mod quotes;
pub mod symbols;
