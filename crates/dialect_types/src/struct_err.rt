//! Why a struct with a name is refused.

ghost use Rattle.std.specs.Prelude.{◌≡◌};
ghost use Rattle.dialect_types.specs.declared.struct_err.StructErr.TheVariants as reasons;

use crate::identifier::Identifier;
use std::alloc::{AllocError, AllocFailed};

/// Why `TypeStore::get_named` refuses.
#[derive(Debug, Drop)]
pub enum StructErr {
    /// The store holds a struct of that name with another body.
    DifferentBody(Identifier),
    /// Memory is not enough, or the struct would nest too deep.
    NoMemory,
}

impl From<AllocError> for StructErr {
    ghost from_gives = { λ _ e. e ≡ reasons.NoMemory };

    fn from(_e: AllocError) -> StructErr {
        StructErr::NoMemory
    }
}

impl<T: Drop> From<AllocFailed<T>> for StructErr {
    ghost from_gives = { λ _ e. e ≡ reasons.NoMemory };

    fn from(_e: AllocFailed<T>) -> StructErr {
        StructErr::NoMemory
    }
}
