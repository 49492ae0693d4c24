//! Why functions of lines were not built.

ghost use Rattle.std.specs.Prelude.{◌≡◌};
ghost use Rattle.ll_bodies.specs.declared.build_err.BuildErr.TheVariants.{NoMemory};

use std::alloc::{AllocError, AllocFailed};
use thiserror::Error;

/// Why functions of lines were not built.
#[derive(Clone, Copy, PartialEq, Eq, Debug, Drop, Error)]
pub enum BuildErr {
    /// The lines mean nothing: a name is defined nowhere or has another type, a number stands out of order, a line behind the end of
    /// its function does not end a block, operands do not fit.
    #[error("NotYet")]
    NotYet,
    #[error("NoMemory")]
    NoMemory,
}

impl From<AllocError> for BuildErr {
    ghost from_gives = { λ _ e. e ≡ NoMemory };

    fn from(_e: AllocError) -> BuildErr {
        BuildErr::NoMemory
    }
}

impl<T: Drop> From<AllocFailed<T>> for BuildErr {
    ghost from_gives = { λ _ e. e ≡ NoMemory };

    fn from(_e: AllocFailed<T>) -> BuildErr {
        BuildErr::NoMemory
    }
}
