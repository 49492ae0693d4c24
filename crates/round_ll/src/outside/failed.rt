//! The error of a call of a source or a sink.

use thiserror::Error;

/// The call failed, and the object's count of faults says so.
#[derive(Clone, Copy, Debug, PartialEq, Eq, Error)]
#[error("the call failed")]
pub struct Failed;
