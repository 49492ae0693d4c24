//! The classes of tokens of LLVM text, by which its grammar reads them.
#![tactic(auto)]

mod buckets;
pub mod classes;
pub mod laws;
pub mod llvm_words;
mod names;
pub mod numbers;
pub mod words;
