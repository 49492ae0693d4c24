//! Texts that are each kept once, in the order in which they came.

ghost use Rattle.std.specs.Prelude.{◌≡◌, ◌<◌, [], None, Some, nat_eq, length, slice_get, take, IfOk, IfSome, OnErr};
ghost use Rattle.std.proofs.Common.{ap};
ghost use Rattle.std.specs.Cmp.Lexicographic.{pointwise, bytes_decides, nat_list_eq_equiv};
ghost use Rattle.std.specs.Hash as fed;
ghost use Rattle.dialect_types.specs.Legalised.{IsIn, IsPut};

use indexmap::{Equivalent, IndexSet};
use std::alloc::{AllocError, Global};
use std::marker::Model;
use support::text::Text;

/// A text that is looked for.
#[derive(Clone, Copy, PartialEq, Eq, Hash)]
struct Sought<'a> {
    text: &'a str,
}

impl<'a> Equivalent<Text> for Sought<'a> {
    ghost equivalent = { λ q. pointwise nat_eq q.text.now };

    ghost respects_hash = { λ q k h. ap fed.str ((bytes_decides q.text.now k).0 h) };

    ghost respects_eq = { λ q x y. nat_list_eq_equiv.congr q.text.now x y };

    fn equivalent(&self, key: &Text) -> bool {
        self.text == key.as_str()
    }
}

/// Texts that are each kept once, seen as their list.
#[derive(Drop)]
pub struct Texts {
    set: IndexSet<Text>,
}

impl Model for Texts {
    ghost use Rattle.std.specs.Prelude.{ℕ, List};

    ghost Value = { List (List ℕ) };

    ghost view = { λ t. t.set.keys };
}

impl Texts {
    /// No text.
    pub fn new(alloc: Global) -> Texts
        ensures { result ≡ [] }
    {
        Texts {
            set: IndexSet::new(alloc),
        }
    }

    /// How many texts there are.
    pub fn len(&self) -> usize
        ensures { result ≡ length self.now }
    {
        self.set.len()
    }

    /// Puts a text last, or gives the place where it stands already.
    pub fn put(&mut self, text: Text) -> Result<Option<usize>, AllocError>
        ensures put { IfOk result (IsPut self.old self.new text) }
        ensures err { OnErr result (self.new ≡ self.old) }
    {
        let (at, new) = self.set.insert_full(text)?;
        if new { Ok(None) } else { Ok(Some(at)) }
    }

    /// The place of a text, where it is there.
    pub fn find(&self, text: &str) -> Option<usize>
        ensures found { IfSome result (λ at. slice_get self.now at ≡ Some text.now) }
        ensures none { result ≡ None → ¬ (IsIn self.now text.now) }
    {
        self.set.get_index_of(Sought { text })
    }

    /// Keeps the first `len` texts.
    pub fn truncate(&mut self, len: usize)
        ensures { self.new ≡ take len self.old }
    {
        self.set.truncate(len);
    }

    /// The text at a place.
    pub fn text(&self, at: usize) -> &str
        requires { at < length self.now }
        ensures { slice_get self.now at ≡ Some result.now }
    {
        self.set.get_index(at).unwrap().as_str()
    }
}
