//! The lists of operations that blocks hold, kept by links.

ghost use Rattle.std.specs.Prelude.{◌≡◌, ◌<◌, ◌++◌, ◌∷◌, [], None, Some, length, slice_get, slice_set, OnOk, OnErr, IfOk, IfSome};
ghost use Rattle.std.specs.Option.{option_map};
ghost use Rattle.support.specs.Changes.{with_change};
ghost use Rattle.dialect_core.specs.Lists.{AllApart, Has, IsStanding, Lists, list_at, next_in, prev_in, with_after, with_behind, without};
ghost use Rattle.dialect_core.specs.Links.{behind_at, ends_of, first_end, last_end, with_next, with_prev};

use crate::numbers::{BlockRef, OpRef};
use std::alloc::{AllocError, Global};
use std::marker::Model;
use support::short_list::{ShortList, append_both};

/// The block that an operation stands in, and the operations after it and before it there.
#[derive(Clone, Copy, Drop)]
struct Link {
    block: Option<BlockRef>,
    next: Option<OpRef>,
    prev: Option<OpRef>,
}

/// The first and the last operation of a block that has any.
#[derive(Clone, Copy, Drop)]
struct Ends {
    first: OpRef,
    last: OpRef,
}

/// Which operations stand in which block, in order.
#[derive(Drop)]
pub struct OpLists {
    links: Vec<Link>,
    ends: Vec<Option<Ends>>,
}

impl Model for OpLists {
    ghost use Rattle.dialect_core.specs.Lists.{Lists};

    ghost Value = { Lists };

    ghost use Rattle.dialect_core.specs.Links.{parents_of, lists_of, IsLinked};

    ghost view = { λ l. record { parents = parents_of l.links.items; lists = lists_of l.links.items l.ends.items } };

    ghost invariant = { λ l. IsLinked l.links.items l.ends.items };
}

impl OpLists {
    /// No operations and no blocks.
    pub fn new(alloc: Global) -> OpLists
        ensures { result ≡ record { parents = []; lists = [] } }
    {
        OpLists {
            links: Vec::new(alloc),
            ends: Vec::new(alloc),
        }
    }

    /// Makes room for so many more operations and blocks, where there is memory for it.
    pub fn make_room(&mut self, ops: usize, blocks: usize)
        ensures { self.new ≡ self.old }
    {
        let _ = self.links.reserve(ops);
        let _ = self.ends.reserve(blocks);
    }

    /// A new last operation, in no block.
    pub fn add_op(&mut self) -> Result<OpRef, AllocError>
        ensures ok { OnOk result (self.new ≡ record self.old { parents = self.old.parents ++ None ∷ [] }) }
        ensures number { IfOk result (λ o. o.0 ≡ length self.old.parents) }
        ensures err { OnErr result (self.new ≡ self.old) }
    {
        let at = self.links.len();
        if at >= u32::MAX as usize {
            return Err(AllocError);
        }
        self.links.push(Link {
            block: None,
            next: None,
            prev: None,
        })?;
        Ok(OpRef(at as u32))
    }

    /// A new last block, without operations, last in a region too.
    pub fn add_block(
        &mut self,
        alloc: Global,
        region: &mut ShortList<BlockRef>,
    ) -> Result<BlockRef, AllocError>
        ensures ok { OnOk result (self.new ≡ record self.old { lists = self.old.lists ++ [] ∷ [] }) }
        ensures number { IfOk result (λ b. b.0 ≡ length self.old.lists) }
        ensures region { IfOk result (λ b. region.new ≡ region.old ++ b ∷ []) }
        ensures err { OnErr result (self.new ≡ self.old) }
        ensures region_err { OnErr result (region.new ≡ region.old) }
    {
        let at = self.ends.len();
        if at >= u32::MAX as usize {
            return Err(AllocError);
        }
        let number = BlockRef(at as u32);
        append_both(alloc, &mut self.ends, region, None, number)?;
        Ok(number)
    }

    /// Puts an operation that stands in no block last into one.
    pub fn append(&mut self, op: OpRef, block: BlockRef)
        requires free { slice_get self.old.parents op.0 ≡ Some None }
        requires block { block.0 < length self.old.lists }
        ensures { self.new ≡ record { parents = slice_set self.old.parents op.0 (Some block); lists = with_change (λ xs. xs ++ op ∷ []) block.0 self.old.lists } }
    {
        let last = last_of(self.ends[block.0 as usize]);
        self.insert_behind(op, block, last);
    }

    /// Puts an operation that stands in no block first into one.
    pub fn prepend(&mut self, op: OpRef, block: BlockRef)
        requires free { slice_get self.old.parents op.0 ≡ Some None }
        requires block { block.0 < length self.old.lists }
        ensures { self.new ≡ record { parents = slice_set self.old.parents op.0 (Some block); lists = with_change (λ xs. op ∷ xs) block.0 self.old.lists } }
    {
        self.insert_behind(op, block, None);
    }

    /// Puts an operation that stands in no block directly behind another, which stands in one.
    pub fn insert_after(&mut self, op: OpRef, other: OpRef)
        requires free { slice_get self.old.parents op.0 ≡ Some None }
        requires other { IsStanding self.old.parents other }
        ensures inserted { (b : BlockRef) → slice_get self.old.parents other.0 ≡ Some (Some b) → self.new ≡ record { parents = slice_set self.old.parents op.0 (Some b); lists = with_change (with_after op other) b.0 self.old.lists } }
        ensures there { (b : BlockRef) → slice_get self.old.parents other.0 ≡ Some (Some b) → b.0 < length self.old.lists }
    {
        match self.links[other.0 as usize].block {
            Some(block) => self.insert_behind(op, block, Some(other)),
            None => unreachable!(),
        }
    }

    /// Puts an operation that stands in no block into one, behind another of that block, or first.
    fn insert_behind(&mut self, op: OpRef, block: BlockRef, before: Option<OpRef>)
        requires free { slice_get self.old.parents op.0 ≡ Some None }
        requires block { block.0 < length self.old.lists }
        requires before { IfSome before (λ o. slice_get self.old.parents o.0 ≡ Some (Some block)) }
        ensures { self.new ≡ record { parents = slice_set self.old.parents op.0 (Some block); lists = with_change (with_behind before op) block.0 self.old.lists } }
    {
        let ends = self.ends[block.0 as usize];
        let after = behind(self.links.as_slice(), ends, before);
        set_next(&mut self.links, before, Some(op));
        set_prev(&mut self.links, after, Some(op));
        self.links[op.0 as usize] = Link {
            block: Some(block),
            next: after,
            prev: before,
        };
        self.ends[block.0 as usize] = ends_of(
            first_end(ends, before, Some(op)),
            last_end(ends, after, Some(op)),
        );
    }

    /// Takes an operation out of its block.
    pub fn remove(&mut self, op: OpRef)
        requires { IsStanding self.old.parents op }
        ensures removed { (b : BlockRef) → slice_get self.old.parents op.0 ≡ Some (Some b) → self.new ≡ record { parents = slice_set self.old.parents op.0 None; lists = with_change (without op) b.0 self.old.lists } }
        ensures there { (b : BlockRef) → slice_get self.old.parents op.0 ≡ Some (Some b) → b.0 < length self.old.lists }
        ensures apart { (b : BlockRef) → AllApart (list_at self.old.lists b) }
    {
        let link = self.links[op.0 as usize];
        match link.block {
            Some(block) => {
                let ends = self.ends[block.0 as usize];
                set_next(&mut self.links, link.prev, link.next);
                set_prev(&mut self.links, link.next, link.prev);
                self.links[op.0 as usize] = Link {
                    block: None,
                    next: None,
                    prev: None,
                };
                self.ends[block.0 as usize] = ends_of(
                    first_end(ends, link.prev, link.next),
                    last_end(ends, link.next, link.prev),
                );
            }
            None => unreachable!(),
        }
    }

    /// The first operation of a block.
    pub fn first(&self, block: BlockRef) -> Option<OpRef>
        requires { block.0 < length self.now.lists }
        ensures first { result ≡ slice_get (list_at self.now.lists block) 0 }
        ensures apart { AllApart (list_at self.now.lists block) }
        ensures within { IfSome result (λ o. o.0 < length self.now.parents) }
    {
        first_of(self.ends[block.0 as usize])
    }

    /// The operation after another in its block.
    pub fn next(&self, op: OpRef) -> Option<OpRef>
        requires { op.0 < length self.now.parents }
        ensures next { result ≡ next_in self.now op }
        ensures within { IfSome result (λ o. o.0 < length self.now.parents) }
    {
        self.links[op.0 as usize].next
    }

    /// The operation before another in its block.
    pub fn prev(&self, op: OpRef) -> Option<OpRef>
        requires { op.0 < length self.now.parents }
        ensures prev { result ≡ prev_in self.now op }
        ensures within { IfSome result (λ o. o.0 < length self.now.parents) }
    {
        self.links[op.0 as usize].prev
    }

    /// How many operations there are. Each stands in the list of its block, and no list has one twice.
    pub fn len(&self) -> usize
        ensures len { result ≡ length self.now.parents }
        ensures listed { (o : OpRef) (b : BlockRef) → slice_get self.now.parents o.0 ≡ Some (Some b) → Has o.0 (list_at self.now.lists b) }
        ensures apart { (b : BlockRef) → AllApart (list_at self.now.lists b) }
    {
        self.links.len()
    }

    /// The block that an operation stands in.
    pub fn parent(&self, op: OpRef) -> Option<BlockRef>
        requires { op.0 < length self.now.parents }
        ensures parent { slice_get self.now.parents op.0 ≡ Some result }
        ensures within { IfSome result (λ b. b.0 < length self.now.lists) }
    {
        self.links[op.0 as usize].block
    }
}

fn first_of(ends: Option<Ends>) -> Option<OpRef>
    ensures { result ≡ option_map (λ e. e.first) ends }
{
    ends.map(|ends| ends.first)
}

fn last_of(ends: Option<Ends>) -> Option<OpRef>
    ensures { result ≡ option_map (λ e. e.last) ends }
{
    ends.map(|ends| ends.last)
}

/// What comes behind an operation, or first in the block with these ends where none is given.
fn behind(links: &[Link], ends: Option<Ends>, op: Option<OpRef>) -> Option<OpRef>
    requires { IfSome op (λ o. o.0 < length links.now) }
    ensures { result ≡ behind_at links.now ends op }
{
    match op {
        Some(op) => links[op.0 as usize].next,
        None => first_of(ends),
    }
}

/// Lets `next` come after an operation, where there is one.
fn set_next(links: &mut Vec<Link>, op: Option<OpRef>, next: Option<OpRef>)
    requires { IfSome op (λ o. o.0 < length links.old.items) }
    ensures { links.new.items ≡ with_next links.old.items op next }
{
    let Some(op) = op else {
        return;
    };
    links[op.0 as usize].next = next;
}

/// Lets `prev` come before an operation, where there is one.
fn set_prev(links: &mut Vec<Link>, op: Option<OpRef>, prev: Option<OpRef>)
    requires { IfSome op (λ o. o.0 < length links.old.items) }
    ensures { links.new.items ≡ with_prev links.old.items op prev }
{
    let Some(op) = op else {
        return;
    };
    links[op.0 as usize].prev = prev;
}

/// A block's first operation when `next` comes after `op`, or comes first where that is none.
fn first_end(ends: Option<Ends>, op: Option<OpRef>, next: Option<OpRef>) -> Option<OpRef>
    ensures { result ≡ first_end ends op next }
{
    match op {
        Some(_) => first_of(ends),
        None => next,
    }
}

/// A block's last operation when `prev` comes before `op`, or comes last where that is none.
fn last_end(ends: Option<Ends>, op: Option<OpRef>, prev: Option<OpRef>) -> Option<OpRef>
    ensures { result ≡ last_end ends op prev }
{
    match op {
        Some(_) => last_of(ends),
        None => prev,
    }
}

/// The ends of a block by its first and its last operation.
fn ends_of(first: Option<OpRef>, last: Option<OpRef>) -> Option<Ends>
    ensures { result ≡ ends_of first last }
{
    match first {
        Some(first) => match last {
            Some(last) => Some(Ends { first, last }),
            None => None,
        },
        None => None,
    }
}
