//! Why tokens are not read.

ghost use Rattle.std.specs.Prelude.{◌≡◌};
ghost use Rattle.grammars.specs.declared.read_err.ReadErr.TheVariants.{NoMemory};

use std::alloc::{AllocError, AllocFailed};

/// Why tokens are not read.
#[derive(Debug, Drop)]
pub enum ReadErr {
    /// The grammar writes no tokens that begin so, up to the token at that place; or, where the place is the number of
    /// the tokens, none that end there.
    Refused(usize),
    /// There is no memory left.
    NoMemory,
}

impl<T> From<AllocFailed<T>> for ReadErr
where
    T: Drop,
{
    ghost from_gives = { λ _ e. e ≡ NoMemory };

    fn from(_error: AllocFailed<T>) -> ReadErr {
        ReadErr::NoMemory
    }
}

impl From<AllocError> for ReadErr {
    ghost from_gives = { λ _ e. e ≡ NoMemory };

    fn from(_error: AllocError) -> ReadErr {
        ReadErr::NoMemory
    }
}
