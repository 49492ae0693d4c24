//! Values that are each kept once, under a number.

ghost use Rattle.std.specs.Prelude.{◌≡◌, ◌<◌, ◌^◌, ℕ, [], length, slice_get, Some, IfOk, OnErr};
ghost use Rattle.std.specs.List.{IsDistinct};
ghost use Rattle.support.specs.Interned.{InternedBy};

use indexmap::IndexSet;
use std::alloc::{AllocError, Global};
use std::hash::Hash;
use std::marker::Model;

/// Values that are each kept once, under a number, seen as their list.
#[derive(Drop)]
pub struct Interner<K: Eq + Hash> {
    values: IndexSet<K>,
}

impl<K: Eq + Hash> Model for Interner<K> {
    ghost use Rattle.std.specs.Prelude.{List, length, ◌<◌, ◌^◌};

    ghost Value = { List K };

    ghost view = { λ s. s.values.keys };

    ghost invariant = { λ s. length s.values.keys < 2 ^ 32 };
}

impl<K: Eq + Hash + Drop> Interner<K> {
    pub fn new(alloc: Global) -> Interner<K>
        ensures { result ≡ [] }
    {
        Interner {
            values: IndexSet::new(alloc),
        }
    }

    pub fn len(&self) -> u32
        ensures len { result ≡ length self.now }
        ensures distinct { IsDistinct K.eq self.now }
    {
        self.values.len() as u32
    }

    /// The number of the value equal to `value`, new or old.
    pub fn get(&mut self, value: K) -> Result<u32, AllocError>
        ensures interned { IfOk result (λ n. InternedBy K.eq self.old self.new value n) }
        ensures distinct { IsDistinct K.eq self.new }
        ensures err { OnErr result (self.new ≡ self.old) }
    {
        if self.values.len() >= u32::MAX as usize {
            return Err(AllocError);
        }
        let (at, _) = self.values.insert_full(value)?;
        Ok(at as u32)
    }

    pub fn value(&self, at: u32) -> &K
        requires { at < length self.now }
        ensures { slice_get self.now at ≡ Some result.now }
    {
        self.values.get_index(at as usize).unwrap()
    }
}
