//! A source over bytes in memory that never fails.
ghost use Rattle.std.specs.Prelude.{◌≡◌, ◌<◌, [], length, drop, min, IsOk, IfOk, Some};
ghost use Rattle.std.specs.Io.{ReadsAtMost};
ghost use Rattle.round_ll.specs.Outside.Causes.{HasCause};
ghost use Rattle.round_ll.specs.Outside.Told.{Gives, EndsExactlyAt};

use super::failed::Failed;
use super::source::Source;
use std::marker::Model;

/// Gives the bytes of a slice, as many a call as there is room for. It is seen as those left.
#[derive(Drop)]
pub struct SureSource<'a> {
    rest: &'a [u8],
}

impl<'a> Model for SureSource<'a> {
    ghost use Rattle.std.specs.Prelude.{ℕ, List};

    ghost Value = { List ℕ };

    ghost view = { λ s. s.rest.now };
}

impl<'a> SureSource<'a> {
    /// A source of these bytes.
    pub fn new(bytes: &'a [u8]) -> SureSource<'a>
        ensures { result ≡ bytes.now }
    {
        SureSource { rest: bytes }
    }
}

impl<'a> Source for SureSource<'a> {
    ghost left = { λ s. Some s };

    ghost faults = { λ _. 0 };

    fn read(&mut self, buf: &mut [u8]) -> Result<usize, Failed>
        ensures bound { ReadsAtMost result buf.new }
        ensures bytes { Gives (Some self.old) (Some self.new) result buf.new }
        ensures end { IfOk result (λ n. 0 < length buf.new → EndsExactlyAt (Some self.old) n) }
        ensures cause { HasCause 0 0 result }

        // It never fails, and gives as many bytes as there are and have room.
        ensures sure { IsOk result }
        ensures count { IfOk result (λ n. n ≡ min (length self.old) (length buf.new)) }
    {
        let count = self.rest.len().min(buf.len());
        let (given, rest) = self.rest.split_at(count);
        buf[..count].copy_from_slice(given);
        self.rest = rest;
        Ok(count)
    }
}
