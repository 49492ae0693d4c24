//! The table of instructions, which both sides hold: what each row asks of the types of its operands, what it gives and
//! where it leads, as data; one evaluator of that; and the tree of types.
#![tactic(auto)]

pub mod access;
pub mod fill;
pub mod fitting;
pub mod names;
pub mod op;
pub mod rules;
pub mod types;
