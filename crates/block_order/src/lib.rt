//! The nodes of a graph in depth-first order: of each component the postorder reversed; and which of its nodes
//! dominates which.
#![tactic(auto)]

pub mod dominance;
pub mod laws;
pub mod ordering;
mod proposal;
mod quick;
mod semi;
mod spanning;
pub mod succs;
mod table;
mod tree;
mod walk;
