//! What the crates above are made of: lists, texts and interners that clauses see as lists, bytes that are appended to, and laws of lists, options and results.
#![tactic(auto)]

pub mod appending;
pub mod interner;
pub mod items;
pub mod noting;
pub mod number_map;
pub mod short_list;
pub mod short_text;
pub mod text;
