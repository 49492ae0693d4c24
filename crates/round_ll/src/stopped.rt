//! Why the program stops before it writes.

ghost use Rattle.std.specs.Prelude.{◌≡◌};
ghost use Rattle.round_ll.specs.declared.stopped.Stopped.TheVariants.{NoMemory};
ghost use Rattle.round_ll.specs.Stopping.{stop_of_read, stop_of_text, stop_of_transfer};

use crate::ended::Fault;
use crate::outside::ReadAllError;
use ll_text::read_err::ReadErr;
use std::alloc::AllocError;
use transfer::transfer_err::TransferErr;

/// Why the program stops before it writes.
#[derive(Debug, Drop)]
pub enum Stopped {
    /// It refuses.
    Refused(Fault),
    /// Memory is wanting.
    NoMemory,
}

impl From<ReadAllError> for Stopped {
    ghost from_gives = { λ e s. s ≡ stop_of_read e };

    fn from(e: ReadAllError) -> Stopped {
        match e {
            ReadAllError::ReadFault => Stopped::Refused(Fault::ReadFault),
            ReadAllError::TooLong => Stopped::Refused(Fault::TooLong),
            ReadAllError::NoMemory => Stopped::NoMemory,
        }
    }
}

impl From<ReadErr> for Stopped {
    ghost from_gives = { λ e s. s ≡ stop_of_text e };

    fn from(e: ReadErr) -> Stopped {
        match e {
            ReadErr::NotYet => Stopped::Refused(Fault::Text(ReadErr::NotYet)),
            ReadErr::NoMemory => Stopped::NoMemory,
        }
    }
}

impl From<TransferErr> for Stopped {
    ghost from_gives = { λ e s. s ≡ stop_of_transfer e };

    fn from(e: TransferErr) -> Stopped {
        match e {
            TransferErr::NoMemory => Stopped::NoMemory,
            e => Stopped::Refused(Fault::Transfer(e)),
        }
    }
}

impl From<AllocError> for Stopped {
    ghost from_gives = { λ _ s. s ≡ NoMemory };

    fn from(_e: AllocError) -> Stopped {
        Stopped::NoMemory
    }
}
