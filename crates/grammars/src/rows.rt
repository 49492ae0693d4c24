//! The rows of the tables that a grammar is kept in.
//!
//! A row names a part of another table by its start and its end, which is the first place behind it.

/// An alternative. Its number is its place among all alternatives plus one, so that 0 may stand for none.
#[derive(Clone, Copy)]
pub struct Alternative {
    /// Its symbols, the last of them first.
    pub start: u16,
    pub end: u16,
    /// The classes that may begin it.
    pub first: u16,
    pub first_end: u16,
}

/// A rule. Its number is its place among all rules.
#[derive(Clone, Copy)]
pub struct Row {
    /// Its alternatives.
    pub start: u16,
    pub end: u16,
    /// The classes that, standing behind it, might go on with it.
    pub more: u16,
    pub more_end: u16,
    /// The number of the alternative that may be nothing, or 0.
    pub nothing: u16,
    /// More than how many rules may stand at its front, one in another.
    pub height: u16,
}
