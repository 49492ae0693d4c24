//! Which rule of constants an attribute breaks.

use thiserror::Error;

/// A rule of constants that an attribute breaks.
#[derive(Clone, Copy, PartialEq, Eq, Debug, Drop, Error)]
pub enum AttrErr {
    /// An aggregate has another number of elements than its type, or a type that has no number of them: one other than an array,
    /// a vector of a fixed length, and a struct whose fields are told. Or the type of a splat is no vector.
    #[error("ElementCount")]
    ElementCount,
    /// An element has another type than the one that stands at its place.
    #[error("ElementType")]
    ElementType,
    /// An integer is of no integer type of at most 64 bits, or is not below 2 to the power of its width.
    #[error("IntRange")]
    IntRange,
}
