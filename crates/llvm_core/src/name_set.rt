//! Names that are each kept once.

ghost use Rattle.std.specs.Prelude.{◌≡◌, [], IfOk, OnOk, position};
ghost use Rattle.std.specs.Str.{bytes_eq};
ghost use Rattle.llvm_core.specs.Names.{IsInserted};

use indexmap::IndexSet;
use std::alloc::{AllocError, Global};
use std::marker::Model;

/// Names of a module that are each kept once, seen as their list.
#[derive(Drop)]
pub struct NameSet<'a> {
    names: IndexSet<&'a str>,
}

impl<'a> Model for NameSet<'a> {
    ghost use Rattle.std.specs.Prelude.{ℕ, List};
    ghost use Rattle.llvm_core.specs.Names.{texts};

    ghost Value = { List (List ℕ) };

    ghost view = { λ s. texts s.names.keys };
}

#[tactic(auto, using(crate::proofs::NameLemmas::inserted))]
impl<'a> NameSet<'a> {
    pub fn new(alloc: Global) -> NameSet<'a>
        ensures { result ≡ [] }
    {
        NameSet {
            names: IndexSet::new(alloc),
        }
    }

    /// Makes room for so many names more.
    pub fn reserve(&mut self, more: usize) -> Result<(), AllocError>
        ensures { OnOk result (self.new ≡ self.old) }
    {
        self.names.reserve(more)
    }

    /// Puts a name last, or answers that it is there.
    pub fn insert(&mut self, name: &'a str) -> Result<bool, AllocError>
        ensures { IfOk result (λ fresh. IsInserted self.old self.new name.now fresh) }
    {
        let (_, fresh) = self.names.insert_full(name)?;
        Ok(fresh)
    }

    /// The place of a name, where it is there.
    pub fn find(&self, name: &str) -> Option<usize>
        ensures { result ≡ position (bytes_eq name.now) self.now }
    {
        self.names.get_index_of(name)
    }
}
