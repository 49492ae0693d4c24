//! All that the program does: a text to a dialect module and back, the report, and `run` between a source and a sink.
#![tactic(auto)]

pub mod command;
pub mod ended;
pub mod outside;
pub mod report;
pub mod rounding;
pub mod run;
pub mod stopped;
