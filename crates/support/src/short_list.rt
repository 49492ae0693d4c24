//! A list that clauses see as such, and that needs memory of its own only past three items.

ghost use Rattle.std.specs.Prelude.{◌≡◌, ◌++◌, ◌∷◌, [], length, slice_set, ◌<◌, IfOk, OnOk, OnErr};

use std::alloc::{AllocError, Global};
use std::marker::Model;

/// Where the items lie.
#[derive(Drop)]
enum Place<T> {
    Zero,
    One([T; 1]),
    Two([T; 2]),
    Three([T; 3]),
    /// Of any number.
    Apart(Box<Vec<T>>),
}

/// Items in order, seen as their list. Up to three lie in the value itself: such a list asks for no memory.
#[derive(Drop)]
pub struct ShortList<T> {
    place: Place<T>,
}

impl<T> Model for ShortList<T> {
    ghost use Rattle.std.specs.Prelude.{List};

    ghost Value = { List T };

    ghost use Rattle.support.specs.ShortLists.{items_of};

    ghost view = { λ l. items_of l.place };
}

impl<T> ShortList<T> {
    pub fn zero() -> ShortList<T>
        ensures { result ≡ [] }
    {
        ShortList { place: Place::Zero }
    }

    pub fn one(a: T) -> ShortList<T>
        ensures { result ≡ a ∷ [] }
    {
        ShortList {
            place: Place::One([a]),
        }
    }

    pub fn two(a: T, b: T) -> ShortList<T>
        ensures { result ≡ a ∷ b ∷ [] }
    {
        ShortList {
            place: Place::Two([a, b]),
        }
    }

    pub fn three(a: T, b: T, c: T) -> ShortList<T>
        ensures { result ≡ a ∷ b ∷ c ∷ [] }
    {
        ShortList {
            place: Place::Three([a, b, c]),
        }
    }

    pub fn as_slice(&self) -> &[T]
        ensures { result.now ≡ self.now }
    {
        match &self.place {
            Place::Zero => &[],
            Place::One(items) => items.as_slice(),
            Place::Two(items) => items.as_slice(),
            Place::Three(items) => items.as_slice(),
            Place::Apart(items) => items.as_slice(),
        }
    }
}

impl<T: Copy + Drop> ShortList<T> {
    /// A copy of the items of a slice.
    pub fn from_slice(alloc: Global, items: &[T]) -> Result<ShortList<T>, AllocError>
        ensures { IfOk result (λ l. l ≡ items.now) }
    {
        match items {
            [] => Ok(ShortList::zero()),
            [a] => Ok(ShortList::one(*a)),
            [a, b] => Ok(ShortList::two(*a, *b)),
            [a, b, c] => Ok(ShortList::three(*a, *b, *c)),
            _ => apart(alloc, Vec::from_slice(alloc, items)?),
        }
    }

    /// Puts an item behind the last.
    pub fn push(&mut self, alloc: Global, item: T) -> Result<(), AllocError>
        ensures ok { OnOk result (self.new ≡ self.old ++ item ∷ []) }
        ensures err { OnErr result (self.new ≡ self.old) }
    {
        if let Place::Apart(items) = &mut self.place {
            items.push(item)?;
            return Ok(());
        }
        *self = with_last(alloc, self.as_slice(), item)?;
        Ok(())
    }
}

impl<T: Copy + Drop> ShortList<T> {
    /// Puts items behind the last.
    pub fn extend_from_slice(&mut self, alloc: Global, items: &[T]) -> Result<(), AllocError>
        ensures { OnOk result (self.new ≡ self.old ++ items.now) }
    {
        for item in items {
            self.push(alloc, *item)?;
        }
        Ok(())
    }
}

/// A list of items that lie apart.
fn apart<T: Drop>(alloc: Global, items: Vec<T>) -> Result<ShortList<T>, AllocError>
    ensures { IfOk result (λ l. l ≡ items.items) }
{
    Ok(ShortList {
        place: Place::Apart(Box::new(alloc, items)?),
    })
}

/// The items, and one behind them.
fn with_last<T: Copy + Drop>(
    alloc: Global,
    items: &[T],
    item: T,
) -> Result<ShortList<T>, AllocError>
    ensures { IfOk result (λ l. l ≡ items.now ++ item ∷ []) }
{
    match items {
        [] => Ok(ShortList::one(item)),
        [a] => Ok(ShortList::two(*a, item)),
        [a, b] => Ok(ShortList::three(*a, *b, item)),
        _ => {
            let mut all = Vec::with_capacity(alloc, 4)?;
            all.extend_from_slice(items)?;
            all.push(item)?;
            apart(alloc, all)
        }
    }
}

impl<T: Drop> ShortList<T> {
    /// Puts an item in place of the one there.
    pub fn set(&mut self, at: usize, item: T)
        requires { at < length self.old }
        ensures { self.new ≡ slice_set self.old at item }
    {
        match &mut self.place {
            Place::Zero => unreachable!(),
            Place::One(items) => items.as_mut_slice()[at] = item,
            Place::Two(items) => items.as_mut_slice()[at] = item,
            Place::Three(items) => items.as_mut_slice()[at] = item,
            Place::Apart(items) => items[at] = item,
        }
    }
}

impl<T: Copy + Drop> ShortList<T> {
    /// Puts items behind the last, or leaves the list.
    pub fn append(&mut self, alloc: Global, more: &[T]) -> Result<(), AllocError>
        ensures ok { OnOk result (self.new ≡ self.old ++ more.now) }
        ensures err { OnErr result (self.new ≡ self.old) }
    {
        if let Place::Apart(items) = &mut self.place {
            return items.extend_from_slice(more);
        }
        *self = joined(alloc, self.as_slice(), more)?;
        Ok(())
    }
}

/// The items of two slices.
fn joined<T: Copy + Drop>(
    alloc: Global,
    items: &[T],
    more: &[T],
) -> Result<ShortList<T>, AllocError>
    ensures { IfOk result (λ l. l ≡ items.now ++ more.now) }
{
    let mut all = ShortList::from_slice(alloc, items)?;
    all.extend_from_slice(alloc, more)?;
    Ok(all)
}

/// Appends an item to one list and its number to another, or leaves both.
pub fn append_both<T: Drop, N: Copy + Drop>(
    alloc: Global,
    items: &mut Vec<T>,
    numbers: &mut ShortList<N>,
    item: T,
    number: N,
) -> Result<(), AllocError>
    ensures items { OnOk result (items.new.items ≡ items.old.items ++ item ∷ []) }
    ensures numbers { OnOk result (numbers.new ≡ numbers.old ++ number ∷ []) }
    ensures items_err { OnErr result (items.new.items ≡ items.old.items) }
    ensures numbers_err { OnErr result (numbers.new ≡ numbers.old) }
{
    items.reserve(1)?;
    numbers.push(alloc, number)?;
    match items.push(item) {
        Ok(()) => Ok(()),
        Err(_) => unreachable!(),
    }
}
