//! A text that clauses see as its bytes.

ghost use Rattle.std.specs.Prelude.{◌≡◌, ◌++◌, [], nat_eq, string_bytes, IfOk, OnOk, OnErr};
ghost use Rattle.std.proofs.Common.{rules};
ghost use Rattle.std.specs.Cmp.Rules.{comparing, hashing};
ghost use Rattle.std.specs.Cmp.Lexicographic.{pointwise};
ghost use Rattle.std.specs.Hash as fed;

use crate::short_text::ShortText;
use std::alloc::{AllocError, Global};
use std::hash::{Hash, Hasher};
use std::marker::Model;

/// Where the bytes lie.
#[derive(Debug, Drop)]
enum Place {
    Here(ShortText),
    Apart(Box<String>),
}

/// A text, seen as its bytes. One of up to 22 bytes lies in the value itself: it asks for no memory.
#[derive(Debug, Drop)]
pub struct Text {
    place: Place,
}

impl Model for Text {
    ghost use Rattle.std.specs.Prelude.{ℕ, List};
    ghost use Rattle.support.specs.Texts.{bytes_of};

    ghost Value = { List ℕ };

    ghost view = { λ t. bytes_of t.place };
}

impl Text {
    /// The text without bytes.
    pub fn empty() -> Text
        ensures { result ≡ [] }
    {
        Text {
            place: Place::Here(ShortText::empty()),
        }
    }

    pub fn copy(alloc: Global, text: &str) -> Result<Text, AllocError>
        ensures { IfOk result (λ t. t ≡ text.now) }
    {
        match ShortText::copy(text) {
            Some(short) => Ok(Text {
                place: Place::Here(short),
            }),
            None => apart(alloc, String::from_str(alloc, text)?),
        }
    }

    pub fn as_str(&self) -> &str
        ensures { result.now ≡ self.now }
    {
        match &self.place {
            Place::Here(text) => text.as_str(),
            Place::Apart(text) => text.as_str(),
        }
    }

    /// Appends a text.
    pub fn push_str(&mut self, alloc: Global, more: &str) -> Result<(), AllocError>
        ensures ok { OnOk result (self.new ≡ self.old ++ more.now) }
        ensures err { OnErr result (self.new ≡ self.old) }
    {
        match &mut self.place {
            Place::Here(text) => {
                if text.push_str(more) {
                    return Ok(());
                }
            }
            Place::Apart(text) => return text.push_str(more),
        }
        *self = joined(alloc, self.as_str(), more)?;
        Ok(())
    }
}

/// A text whose bytes lie apart.
fn apart(alloc: Global, text: String) -> Result<Text, AllocError>
    ensures { IfOk result (λ t. t ≡ string_bytes text) }
{
    Ok(Text {
        place: Place::Apart(Box::new(alloc, text)?),
    })
}

/// Two texts behind each other, with room for some more.
fn joined(alloc: Global, first: &str, second: &str) -> Result<Text, AllocError>
    ensures { IfOk result (λ t. t ≡ first.now ++ second.now) }
{
    let len = first.len().saturating_add(second.len());
    let mut text = String::with_capacity(alloc, len.saturating_add(20))?;
    text.push_str(first)?;
    text.push_str(second)?;
    apart(alloc, text)
}

impl PartialEq for Text {
    ghost eq = { pointwise nat_eq };

    ghost laws = { Prim.search (comparing, rules) };

    fn eq(&self, other: &Text) -> bool {
        self.as_str() == other.as_str()
    }
}

impl Eq for Text {
    ghost laws = { Prim.search (comparing, rules) };
}

impl Hash for Text {
    ghost hash_input = { fed.str };

    ghost respects_eq = { Prim.search (hashing, rules) };

    fn hash<H: Hasher>(&self, state: &mut H) {
        self.as_str().hash(state);
    }
}
