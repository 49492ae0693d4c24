//! Why events have no value.

ghost use Rattle.std.specs.Prelude.{◌≡◌};
ghost use Rattle.ll_values.specs.declared.value_err.ValueErr.TheVariants.{NoMemory};

use std::alloc::{AllocError, AllocFailed};
use thiserror::Error;

/// Why events have no value.
#[derive(Clone, Copy, PartialEq, Eq, Debug, Drop, Error)]
pub enum ValueErr {
    /// They say something outside of the form that is translated.
    #[error("NotYet")]
    NotYet,
    #[error("NoMemory")]
    NoMemory,
}

impl From<AllocError> for ValueErr {
    ghost from_gives = { λ _ e. e ≡ NoMemory };

    fn from(_e: AllocError) -> ValueErr {
        ValueErr::NoMemory
    }
}

impl<T: Drop> From<AllocFailed<T>> for ValueErr {
    ghost from_gives = { λ _ e. e ≡ NoMemory };

    fn from(_e: AllocFailed<T>) -> ValueErr {
        ValueErr::NoMemory
    }
}
