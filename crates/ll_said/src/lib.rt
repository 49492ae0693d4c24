//! What the text of module data says, as lines, and that it means the data.
#![tactic(auto)]

pub mod laws;
