//! A text of at most 22 bytes, which clauses see as its bytes.

ghost use Rattle.std.specs.Prelude.{◌≡◌, ◌+◌, ◌≤◌, ◌<◌, ◌++◌, [], true, false, IfSome, IfNone, length};

use std::marker::Model;
use std::{fmt, str};

/// How many bytes a short text has at most: as many as fit beside their number and a tag in three words.
const MOST: usize = 22;

/// A text of at most 22 bytes, which lie in the value itself.
#[derive(Drop)]
pub struct ShortText {
    bytes: [u8; 22],
    len: u8,
}

impl Model for ShortText {
    ghost use Rattle.std.specs.Prelude.{ℕ, List, ◌≡◌, ◌≤◌, IsUtf8, length, take};

    ghost Value = { List ℕ };

    ghost view = { λ t. take t.len t.bytes };

    ghost invariant = { λ t. (t.len ≤ 22) × ∥ IsUtf8 (take t.len t.bytes) ∥₁ };
}

impl ShortText {
    /// The text without bytes.
    pub fn empty() -> ShortText
        ensures { result ≡ [] }
    {
        ShortText {
            bytes: [0; MOST],
            len: 0,
        }
    }

    /// A copy of a text that is short enough.
    pub fn copy(text: &str) -> Option<ShortText>
        ensures copy { IfSome result (λ t. t ≡ text.now) }
        ensures long { IfNone result (22 < length text.now) }
    {
        let mut copy = ShortText::empty();
        if copy.push_str(text) {
            Some(copy)
        } else {
            None
        }
    }

    pub fn as_str(&self) -> &str
        ensures { result.now ≡ self.now }
    {
        unsafe { str::from_utf8_unchecked(&self.bytes[..self.len as usize]) }
    }

    /// Appends a text where it fits, and answers whether it did.
    pub fn push_str(&mut self, more: &str) -> bool
        ensures ok { result ≡ true → self.new ≡ self.old ++ more.now }
        ensures err { result ≡ false → self.new ≡ self.old }
        ensures full { result ≡ false → 22 < length self.old + length more.now }
    {
        let len = self.len as usize;
        if more.len() > MOST - len {
            return false;
        }
        let behind = len + more.len();
        self.bytes[len..behind].copy_from_slice(more.as_bytes());
        self.len = behind as u8;
        true
    }
}

impl fmt::Debug for ShortText {
    fn fmt<W: fmt::Write>(&self, f: &mut fmt::Formatter<W>) -> fmt::Result {
        fmt::Debug::fmt(&self.as_str(), f)
    }
}
