//! Lists that are made from their ends: each is an item before another list.

ghost use Rattle.std.specs.Prelude.{◌≡◌, ◌≤◌, ◌<◌, ◌++◌, ◌∷◌, [], length, IfOk, IfSome, OnOk, None};
ghost use Rattle.ll_values.specs.Lists.{list_at};

use std::alloc::{AllocError, Global};
use std::marker::Model;

/// An item, and the number of the list behind it.
#[derive(Clone, Copy)]
struct Link<T> {
    item: T,
    rest: u32,
}

/// Lists under numbers, seen as the list of those that have items. The number 0 is the empty list, and each other number is
/// that of a link plus one.
#[derive(Drop)]
pub struct Lists<T> {
    links: Vec<Link<T>>,
}

impl<T> Model for Lists<T> {
    ghost use Rattle.std.specs.Prelude.{List, []};
    ghost use Rattle.ll_values.specs.Lists.{lists_after, AreLinks};

    ghost Value = { List (List T) };

    ghost view = { λ l. lists_after [] l.links.items };

    ghost invariant = { λ l. AreLinks l.links.items };
}

impl<T: Copy + Drop> Lists<T> {
    pub fn new(alloc: Global) -> Lists<T>
        ensures { result ≡ [] }
    {
        Lists {
            links: Vec::new(alloc),
        }
    }

    /// No lists, with room for so many.
    pub fn with_room(alloc: Global, room: usize) -> Result<Lists<T>, AllocError>
        ensures { IfOk result (λ l. l ≡ []) }
    {
        Ok(Lists {
            links: Vec::with_capacity(alloc, room)?,
        })
    }

    /// The number of the list that begins with an item and goes on as another one.
    #[inline(always)]
    pub fn put(&mut self, item: T, rest: u32) -> Result<u32, AllocError>
        requires { rest ≤ length self.old }
        ensures number { IfOk result (λ n. n ≡ length self.new) }
        ensures lists { OnOk result (self.new ≡ self.old ++ (item ∷ list_at self.old rest) ∷ []) }
    {
        let n = self.links.len();
        if n >= u32::MAX as usize {
            return Err(AllocError);
        }
        self.links.push(Link { item, rest })?;
        Ok(n as u32 + 1)
    }

    /// The first item of a list, and the number of the list behind it.
    pub fn first(&self, n: u32) -> Option<(T, u32)>
        requires { n ≤ length self.now }
        ensures first { IfSome result (λ p. list_at self.now n ≡ p.0 ∷ list_at self.now p.1) }
        ensures rest { IfSome result (λ p. p.1 < n) }
        ensures none { result ≡ None → list_at self.now n ≡ [] }
    {
        if n == 0 {
            return None;
        }
        let link = self.links[n as usize - 1];
        Some((link.item, link.rest))
    }

    /// How many items a list has.
    pub fn count(&self, n: u32) -> usize
        requires { n ≤ length self.now }
        ensures { result ≡ length (list_at self.now n) }
    {
        let mut count = 0;
        let mut next = n;
        while let Some((_, rest)) = self.first(next) {
            count += 1;
            next = rest;
        }
        count
    }
}
