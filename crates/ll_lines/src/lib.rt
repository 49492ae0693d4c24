//! What a text says, as plain data: functions of lines, whose operands are names still.
#![tactic(auto)]

pub mod lines;
pub mod names;
