//! Why a text is no type, or no constant.

ghost use Rattle.std.specs.Prelude.{◌≡◌};
ghost use Rattle.dialect_parsing.specs.declared.parse_err.ParseErr.TheVariants.{NoMemory};
ghost use Rattle.dialect_parsing.specs.declared.parse_err.Refused.TheVariants as R;

use std::alloc::{AllocError, AllocFailed};
use thiserror::Error;

/// Why a text is not read as a type, or as a constant.
#[derive(Clone, Copy, PartialEq, Eq, Debug, Drop, Error)]
pub enum ParseErr {
    /// It spells none. The byte at that place is no token's first, or it is the first of a token that cannot stand
    /// there; where more tokens are wanted, it is that of the last one, or 0 if there is none.
    #[error("no type or constant at byte {0}")]
    Syntax(u32),
    /// There is no memory left, or the text has more than 2^32 - 1 bytes, or a type nests too deep for a store, through
    /// the fields of structs with names.
    #[error("out of memory")]
    NoMemory,
}

impl<T> From<AllocFailed<T>> for ParseErr
where
    T: Drop,
{
    ghost from_gives = { λ _ e. e ≡ NoMemory };

    fn from(_error: AllocFailed<T>) -> ParseErr {
        ParseErr::NoMemory
    }
}

impl From<AllocError> for ParseErr {
    ghost from_gives = { λ _ e. e ≡ NoMemory };

    fn from(_error: AllocError) -> ParseErr {
        ParseErr::NoMemory
    }
}

/// Why symbols are not read as a type, or as a constant. The one that was read last is where they are wrong.
#[derive(Clone, Copy, PartialEq, Eq, Debug, Drop)]
pub enum Refused {
    Syntax,
    NoMemory,
}

impl<T> From<AllocFailed<T>> for Refused
where
    T: Drop,
{
    ghost from_gives = { λ _ e. e ≡ R.NoMemory };

    fn from(_error: AllocFailed<T>) -> Refused {
        Refused::NoMemory
    }
}

impl From<AllocError> for Refused {
    ghost from_gives = { λ _ e. e ≡ R.NoMemory };

    fn from(_error: AllocError) -> Refused {
        Refused::NoMemory
    }
}
