//! From the events of a text to what it says: values, made from the last event to the first.
#![tactic(auto)]

mod assemble;
mod elements;
mod files;
mod fold;
pub mod form;
mod keep;
mod listed;
pub mod lists;
mod made;
mod plan;
mod plan_row;
mod planned;
mod put;
pub mod read;
mod row;
mod said;
mod stack;
pub mod store;
mod typed;
mod types;
pub mod value;
pub mod value_err;
mod words;
