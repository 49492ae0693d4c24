//! A sink of bytes that counts its faults.
ghost use Rattle.std.specs.Prelude.{ℕ, List, length, IfOk, ◌<◌};
ghost use Rattle.std.specs.Io.{WritesAtMost};
ghost use Rattle.std.specs.declared.option.Option.{Option};
ghost use Rattle.round_ll.specs.Outside.Causes.{HasCause};
ghost use Rattle.round_ll.specs.Outside.Told.{Takes};

use super::failed::Failed;

/// Takes bytes, a piece a call. What it has taken is known where it tells its bytes.
pub trait Sink {
    /// The bytes taken, where the sink tells them.
    ghost taken: { Self → Option (List ℕ) };

    /// How many faults there have been. It stands still at `u64::MAX`.
    ghost faults: { Self → ℕ };

    /// Takes the first bytes of a piece, and answers how many.
    fn write(&mut self, bytes: &[u8]) -> Result<usize, Failed>
        ensures bound { WritesAtMost result bytes.now }

        // Of a piece that is not empty it takes at least one byte.
        ensures goes_on { IfOk result (λ n. 0 < length bytes.now → 0 < n) }

        // The bytes taken go behind those taken before; a call that fails takes none.
        ensures bytes { Takes (taken self.old) (taken self.new) result bytes.now }
        ensures cause { HasCause (faults self.old) (faults self.new) result };
}
