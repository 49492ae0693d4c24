//! A text that grows by tokens, and is always cut into just these.

ghost use Rattle.std.specs.Prelude.{◌≡◌, [], ◌∷◌, ◌++◌, IfOk, OnOk, OnErr, IsTrue, ◌↔◌};
ghost use Rattle.ll_spacing.specs.Spacing.{Spaced, Follows, AreBlanks, IsWhole, AreSpaced, text_of, last_of, gap};

use crate::whole::{are_blanks, is_apart, is_whole};
use ll_tokens::kinds::Kind;
use std::alloc::{AllocError, Global};
use std::marker::Model;

/// A text of tokens that are well spaced. A clause sees these.
#[derive(Drop)]
pub struct Written {
    text: Vec<u8>,
    last: Option<Kind>,
}

impl Model for Written {
    ghost use Rattle.std.specs.Prelude.{List};
    ghost use Rattle.ll_spacing.specs.Spacing.{Spaced, spaced_of};
    ghost use Rattle.ll_spacing.specs.Writing.{IsWritten};

    ghost Value = { List Spaced };

    ghost view = { λ w. spaced_of w.text.items };

    ghost invariant = { λ w. IsWritten w.text.items w.last };
}

impl Written {
    /// No token yet.
    pub fn new(alloc: Global) -> Written
        ensures { result ≡ [] }
    {
        Written {
            text: Vec::new(alloc),
            last: None,
        }
    }

    /// The kind of the last token, if there is one.
    pub fn last(&self) -> Option<Kind>
        ensures { result ≡ last_of self.now }
    {
        self.last
    }

    /// May the token be put there, behind those blanks?
    pub fn may_put(&self, before: &[u8], kind: Kind, text: &[u8]) -> bool
        ensures { IsTrue result ↔ Follows (last_of self.now) (record { before = before.now; kind = «kind»; text = text.now }) }
    {
        are_blanks(before) && is_whole(kind, text) && is_apart(self.last, before, text)
    }

    /// One more token, behind those blanks.
    pub fn put(&mut self, before: &[u8], kind: Kind, text: &[u8]) -> Result<(), AllocError>
        requires { Follows (last_of self.old) (record { before = before.now; kind = «kind»; text = text.now }) }
        ensures put { OnOk result (self.new ≡ self.old ++ record { before = before.now; kind = «kind»; text = text.now } ∷ []) }
        ensures kept { OnErr result (self.new ≡ self.old) }
    {
        let len = self.text.len();
        self.text.extend_from_slice(before)?;
        if let Err(e) = self.text.extend_from_slice(text) {
            self.text.truncate(len);
            return Err(e);
        }
        self.last = Some(kind);
        Ok(())
    }

    /// One more token, behind those blanks, or behind one where there are none and it needs one.
    pub fn put_apart(&mut self, before: &[u8], kind: Kind, text: &[u8]) -> Result<(), AllocError>
        requires blanks { AreBlanks before.now }
        requires whole { IsWhole kind text.now }
        ensures put { OnOk result (self.new ≡ self.old ++ record { before = gap (last_of self.old) before.now text.now; kind = «kind»; text = text.now } ∷ []) }
        ensures kept { OnErr result (self.new ≡ self.old) }
    {
        if is_apart(self.last(), before, text) {
            self.put(before, kind, text)
        } else {
            self.put(b" ", kind, text)
        }
    }

    /// The text so far.
    pub fn text(&self) -> &[u8]
        ensures text { result.now ≡ text_of self.now }
        ensures spaced { AreSpaced self.now }
    {
        &self.text
    }

    /// The text of the tokens.
    pub fn into_text(self) -> Vec<u8>
        ensures text { result.items ≡ text_of self }
        ensures spaced { AreSpaced self }
    {
        self.text
    }
}
