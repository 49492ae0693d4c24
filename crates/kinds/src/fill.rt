//! Zero, undef and poison, the constants that any type has.

ghost use Rattle.std.specs.Prelude.{◌≡◌};
ghost use Rattle.kinds.specs.Fill.{is_own_fill};

use crate::fitting::{Shape, is_number};

/// A constant that any type has: a line for each.
#[derive(Clone, Copy, PartialEq, Eq, Hash, Debug, Drop)]
pub enum Fill {
    /// Zeros, and null where it is a pointer (Language Reference, Simple Constants and Complex Constants).
    Zero,
    /// Bits that may be others at each use (Language Reference, Undefined Values).
    Undef,
    /// What a wrong operation gives (Language Reference, Poison Values).
    Poison,
}

impl Fill {
    /// Whether it is a constant of its own of a type of that shape: only the zero of an integer type is not, but the integer 0.
    pub fn is_own(self, shape: Shape) -> bool
        ensures { result ≡ is_own_fill self shape }
    {
        match self {
            Fill::Zero => !is_number(shape),
            Fill::Undef => true,
            Fill::Poison => true,
        }
    }
}
