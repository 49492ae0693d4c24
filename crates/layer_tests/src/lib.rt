//! Tests of crates below, in a crate of their own, since a crate with tests is proved twice: what `check`, `well_formed`
//! and the export answer to modules made by hand, the traces of a loop, structs with a name, sources and sinks, and `run` over
//! faults and long texts.
#![tactic(auto)]

#[cfg(test)]
mod asked;
#[cfg(test)]
mod exports;
#[cfg(test)]
mod faults;
#[cfg(test)]
mod hand;
#[cfg(test)]
mod imports;
#[cfg(test)]
mod modules;
#[cfg(test)]
mod one_type;
#[cfg(test)]
mod one_type_back;
#[cfg(test)]
mod outside;
#[cfg(test)]
mod rules;
#[cfg(test)]
mod runs;
#[cfg(test)]
mod struct_imports;
#[cfg(test)]
mod struct_stores;
#[cfg(test)]
mod structs;
#[cfg(test)]
mod traces;
#[cfg(test)]
mod words;
