//! The tokens of what a text says, with what stands before each: their text is read back as what it says.
#![tactic(auto)]

pub mod laws;
