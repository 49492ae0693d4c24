//! Why a text has no tokens.

ghost use Rattle.std.specs.Prelude.{◌≡◌};
ghost use Rattle.ll_tokens.specs.declared.token_err.TokenErr.TheVariants.{NoMemory};

use std::alloc::{AllocError, AllocFailed};

/// Why a text has no tokens.
#[derive(Clone, Copy, PartialEq, Eq, Debug, Drop)]
pub enum TokenErr {
    /// At that place a token should begin, and none does, or one breaks its rule.
    BadToken(usize),
    /// There is no memory left, or the text has more than 2^32 - 1 bytes.
    NoMemory,
}

impl<T> From<AllocFailed<T>> for TokenErr
where
    T: Drop,
{
    ghost from_gives = { λ _ e. e ≡ NoMemory };

    fn from(_error: AllocFailed<T>) -> TokenErr {
        TokenErr::NoMemory
    }
}

impl From<AllocError> for TokenErr {
    ghost from_gives = { λ _ e. e ≡ NoMemory };

    fn from(_error: AllocError) -> TokenErr {
        TokenErr::NoMemory
    }
}
