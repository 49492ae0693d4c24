//! What grammars are made of, what they are read from, and what they are read as.

/// What may stand in an alternative of a rule.
#[derive(Clone, Copy)]
pub enum Symbol {
    /// A token of that class, which says nothing more.
    Word(u16),
    /// A token of that class, which is held.
    Leaf(u16),
    /// One of the alternatives of that rule.
    Rule(u16),
}

/// A token: its class, and where its text stands.
#[derive(Clone, Copy)]
pub struct Token {
    pub class: u16,
    pub at: u32,
}

/// A part of what tokens are read as. The events of a text are its tree, flat and in the order of the text.
#[derive(Clone, Copy)]
pub enum Event {
    /// The alternative of that number, of the rule that stands next.
    Took(u16),
    /// The token of the leaf that stands next, by where its text stands.
    Held(u32),
}
