//! LLVM module to dialect module and back, with what the three have in common.
#![tactic(auto)]

pub mod transfer_err;
pub mod transferred;
pub mod transferring;
