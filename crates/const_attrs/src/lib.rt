//! Constants of the dialect as attributes: their types, their rules, their text.
#![tactic(auto)]

pub mod attr_err;
pub mod const_attr;
pub mod copying;
pub mod laws;
pub mod printing;
pub mod typing;
pub mod verifying;
