//! Tests of constants of the dialect as attributes, in a crate of their own, since a crate with tests is proved twice: what
//! texts they are read from, how they print, what types they have, which rule each breaks first, and that constants of a module
//! are converted to them.
#![tactic(auto)]

#[cfg(test)]
mod converted;
#[cfg(test)]
mod depth;
#[cfg(test)]
mod refused;
#[cfg(test)]
mod rows;
#[cfg(test)]
mod store;
