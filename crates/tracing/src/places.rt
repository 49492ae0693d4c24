//! The place of each block in a body, by its number.

ghost use Rattle.std.specs.Prelude.{◌≡◌, [], ◌++◌, ◌∷◌, ℕ, false, nat_eq, IfOk, OnOk, length};
ghost use Rattle.std.specs.List.{list_any, position_or_len};
ghost use Rattle.support.specs.Interned.{IsDistinctList};

use indexmap::IndexSet;
use std::alloc::{AllocError, Global};
use std::marker::Model;

/// Numbers that are each there once, seen as their list.
#[derive(Drop)]
pub struct Places {
    numbers: IndexSet<u32>,
}

impl Model for Places {
    ghost use Rattle.std.specs.Prelude.{List, ℕ, length, ◌<◌, ◌^◌};

    ghost Value = { List ℕ };

    ghost view = { λ p. p.numbers.keys };

    ghost invariant = { λ p. length p.numbers.keys < 2 ^ 32 };
}

impl Places {
    fn new(alloc: Global) -> Places
        ensures { result ≡ [] }
    {
        Places {
            numbers: IndexSet::new(alloc),
        }
    }

    /// Puts a number that is not there last.
    fn push(&mut self, number: u32) -> Result<(), AllocError>
        requires { list_any (nat_eq number) self.old ≡ false }
        ensures { OnOk result (self.new ≡ self.old ++ number ∷ []) }
    {
        if self.numbers.len() >= u32::MAX as usize {
            return Err(AllocError);
        }
        self.numbers.insert_full(number)?;
        Ok(())
    }

    /// The place of a number, past the end where it is not there.
    pub fn place(&self, number: u32) -> u32
        ensures { result ≡ position_or_len (nat_eq number) self.now }
    {
        match self.numbers.get_index_of(&number) {
            Some(place) => place as u32,
            None => self.numbers.len() as u32,
        }
    }
}

/// The places of numbers in their list.
pub fn places_of(alloc: Global, numbers: &[u32]) -> Result<Places, AllocError>
    requires { IsDistinctList numbers.now }
    ensures { IfOk result (λ places. places ≡ numbers.now) }
{
    let mut places = Places::new(alloc);
    for number in numbers {
        places.push(*number)?;
    }
    Ok(places)
}
