//! What the values of an LLVM module hold: the structs that an import translates, and the types and constants that it refuses.
#![tactic(auto)]

mod constants;
pub mod held_structs;
pub mod lacks;
pub mod table;
mod walk;
