//! Tests of the crates below text and translation, in a crate of their own, since a crate with tests is proved twice: the depth-first
//! order and the dominance of small graphs, the identifiers of names, texts of types, constants with another element at one place, and
//! how large rows are.
#![tactic(auto)]

#[cfg(test)]
mod dominance;
#[cfg(test)]
mod graphs;
#[cfg(test)]
mod inserts;
#[cfg(test)]
mod naming;
#[cfg(test)]
mod orders;
#[cfg(test)]
mod sizes;
#[cfg(test)]
mod type_texts;
