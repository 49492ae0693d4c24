//! Why a text is not read.

ghost use Rattle.std.specs.Prelude.{◌≡◌};
ghost use Rattle.ll_events.specs.declared.event_err.EventErr.TheVariants.{NoMemory};

use std::alloc::{AllocError, AllocFailed};

/// Why a text is not read.
#[derive(Debug, Drop)]
pub enum EventErr {
    /// At that byte a token should begin and none does.
    BadToken(usize),
    /// The grammar writes no text that begins so, up to the token at that byte; or, where that is the text's length,
    /// none that ends there.
    Refused(usize),
    /// There is no memory left.
    NoMemory,
}

impl<T> From<AllocFailed<T>> for EventErr
where
    T: Drop,
{
    ghost from_gives = { λ _ e. e ≡ NoMemory };

    fn from(_error: AllocFailed<T>) -> EventErr {
        EventErr::NoMemory
    }
}

impl From<AllocError> for EventErr {
    ghost from_gives = { λ _ e. e ≡ NoMemory };

    fn from(_error: AllocError) -> EventErr {
        EventErr::NoMemory
    }
}
