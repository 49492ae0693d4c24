//! Places in lists, and lists that are short enough.

ghost use Rattle.std.specs.Prelude.{◌≡◌, ◌<◌, ◌^◌, IfOk, OnOk};

use std::alloc::AllocError;

/// A place as a number of 32 bits.
pub fn place_of(place: usize) -> Result<u32, AllocError>
    ensures { IfOk result (λ p. p ≡ place) }
{
    match u32::try_from(place) {
        Ok(number) => Ok(number),
        Err(_) => Err(AllocError),
    }
}

/// Whether a list of that length is short. Two such lists together have fewer entries than 2^31, as have the
/// edges of so many blocks, each of two at most.
pub fn check_few(length: usize) -> Result<(), AllocError>
    ensures { OnOk result (length < 2 ^ 30) }
{
    if length < 1 << 30 {
        Ok(())
    } else {
        Err(AllocError)
    }
}
