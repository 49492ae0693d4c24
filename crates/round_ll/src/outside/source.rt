//! A source of bytes that counts its faults.
ghost use Rattle.std.specs.Prelude.{ℕ, List, length, IfOk, ◌<◌};
ghost use Rattle.std.specs.Io.{ReadsAtMost};
ghost use Rattle.std.specs.declared.option.Option.{Option};
ghost use Rattle.round_ll.specs.Outside.Causes.{HasCause};
ghost use Rattle.round_ll.specs.Outside.Told.{Gives, EndsExactlyAt};

use super::failed::Failed;

/// Gives bytes, a piece a call. What it has left is known where it tells its bytes.
pub trait Source {
    /// The bytes left, where the source tells them.
    ghost left: { Self → Option (List ℕ) };

    /// How many faults there have been. It stands still at `u64::MAX`.
    ghost faults: { Self → ℕ };

    /// Puts the next bytes at the front of `buf`, and answers how many.
    fn read(&mut self, buf: &mut [u8]) -> Result<usize, Failed>
        ensures bound { ReadsAtMost result buf.new }

        // The bytes given are the first of those that were left; a call that fails takes none.
        ensures bytes { Gives (left self.old) (left self.new) result buf.new }

        // Into a buffer with room, 0 is the answer exactly where no byte is left, if the bytes left are told;
        // of a source that tells none, 0 is taken for its end.
        ensures end { IfOk result (λ n. 0 < length buf.new → EndsExactlyAt (left self.old) n) }
        ensures cause { HasCause (faults self.old) (faults self.new) result };
}
