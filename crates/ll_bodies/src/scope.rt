//! What the names and numbers of a function stand for.

ghost use Rattle.std.specs.Prelude.{◌≡◌, List, None, Some, Err, OnOk, string_bytes};
ghost use Rattle.std.specs.HashMap.{get_by_text};
ghost use Rattle.llvm_core.specs.Data.{TypeTree};
ghost use Rattle.ll_bodies.specs.Scopes as spec;
ghost use Rattle.ll_bodies.specs.Scopes.{empty_scope, counted, define};
ghost use Rattle.ll_bodies.specs.ScopeViews.{key_view, local_view, local_at, IsPut, Knows, Takes, Refuses, Adds};

use crate::build_err::BuildErr;
use llvm_core::numbers::{LLVMBasicBlock, LLVMFunction, LLVMInstRef, LLVMType};
use std::alloc::{AllocError, Global};
use std::collections::HashMap;
use support::number_map::NumberMap;

/// A name or a number of a function's scope.
#[derive(Clone, Copy, PartialEq, Eq, Drop)]
pub enum Key<'a> {
    Named(&'a str),
    Numbered(u32),
}

/// What a key stands for: a value with its type, or a block.
#[derive(Clone, Copy, Drop)]
pub enum Local {
    /// The parameter of a function at a place.
    Param(LLVMFunction, u32, LLVMType),
    Result(LLVMInstRef, LLVMType),
    Block(LLVMBasicBlock),
}

/// What is defined so far in a function, and the counter of what has no name.
#[derive(Drop)]
pub struct Scope<'a> {
    next: u32,
    numbered: NumberMap<Local>,
    named: HashMap<&'a str, Local>,
    /// Under names that stand nowhere in the text, since they were written with escapes.
    escaped: HashMap<String, Local>,
    /// The room that is made for names with the first one.
    room: usize,
}

impl<'a> Scope<'a> {
    /// A scope in which nothing is defined, for about so many names.
    pub fn new(alloc: Global, room: usize) -> Scope<'a>
        ensures knows { (types : List TypeTree) → Knows types result empty_scope }
        ensures none { (k : _) → local_at result k ≡ None }
    {
        Scope {
            next: 0,
            numbered: NumberMap::new(alloc),
            named: HashMap::new(alloc),
            escaped: HashMap::new(alloc),
            room,
        }
    }

    /// What a name stands for that was written with escapes.
    #[inline(never)]
    fn get_escaped(&self, name: &str) -> Option<Local>
        ensures { result ≡ get_by_text self.now.escaped name.now }
    {
        self.escaped.get(name).copied()
    }

    /// What a key stands for.
    #[inline(always)]
    pub fn get(&self, key: Key<'_>) -> Option<Local>
        ensures { result ≡ local_at self.now (key_view key.entry) }
    {
        match key {
            Key::Named(name) => match self.named.get(name) {
                Some(local) => Some(*local),
                None => self.get_escaped(name),
            },
            Key::Numbered(number) => self.numbered.get(number),
        }
    }

    /// Makes room for the names of the function before the first one.
    fn make_room(&mut self) -> Result<(), AllocError>
        ensures same { (k : spec.Key) → local_at self.new k ≡ local_at self.old k }
        ensures next { self.new.next ≡ self.old.next }
    {
        if !self.named.is_empty() {
            return Ok(());
        }
        self.named.reserve(self.room)
    }

    /// Lets a name that stands in the text stand for a thing.
    fn set_name(&mut self, name: &'a str, local: Local) -> Result<(), AllocError>
        ensures put { OnOk result (IsPut self.old self.new (spec.Named name.now) local) }
        ensures next { self.new.next ≡ self.old.next }
    {
        self.make_room()?;
        self.named.insert(name, local)?;
        Ok(())
    }

    /// Lets a name that was written with escapes stand for a thing.
    fn set_escaped(&mut self, name: String, local: Local) -> Result<(), AllocError>
        ensures put { OnOk result (IsPut self.old self.new (spec.Named (string_bytes name)) local) }
        ensures next { self.new.next ≡ self.old.next }
    {
        if let Some(held) = self.named.get_mut(name.as_str()) {
            *held = local;
            return Ok(());
        }
        self.escaped.insert(name, local)?;
        Ok(())
    }

    /// Lets a number stand for a thing.
    fn set_number(&mut self, number: u32, local: Local) -> Result<(), AllocError>
        ensures put { OnOk result (IsPut self.old self.new (spec.Numbered number) local) }
    {
        self.numbered.set(number, local)
    }

    /// Defines what takes a number, and counts on behind it.
    fn count(&mut self, local: Local, number: u32) -> Result<(), BuildErr>
        ensures ok { OnOk result ((types : List TypeTree) → Takes types self.old self.new (λ s. counted s (local_view types local) number)) }
        ensures adds { OnOk result (Adds (λ (y : Local). y ≡ local) self.old self.new) }
        ensures not_yet { result ≡ Err BuildErr.NotYet → (types : List TypeTree) → Refuses types self.old (λ s. counted s (local_view types local) number) }
    {
        if number == u32::MAX {
            return Err(BuildErr::NotYet);
        }
        self.set_number(number, local)?;
        self.next = number + 1;
        Ok(())
    }

    /// Defines the next thing of the function, of whose name nothing is written: it takes the counter.
    pub fn define_next(&mut self, local: Local) -> Result<(), BuildErr>
        ensures ok { OnOk result ((types : List TypeTree) → Takes types self.old self.new (λ s. define s (local_view types local) None)) }
        ensures adds { OnOk result (Adds (λ (y : Local). y ≡ local) self.old self.new) }
        ensures not_yet { result ≡ Err BuildErr.NotYet → (types : List TypeTree) → Refuses types self.old (λ s. define s (local_view types local) None) }
    {
        self.count(local, self.next)
    }

    /// Defines a thing under a name, or under a number that is at least the counter.
    #[inline(always)]
    pub fn define_under(&mut self, local: Local, key: Key<'a>) -> Result<(), BuildErr>
        ensures ok { OnOk result ((types : List TypeTree) → Takes types self.old self.new (λ s. define s (local_view types local) (Some (key_view key.entry)))) }
        ensures adds { OnOk result (Adds (λ (y : Local). y ≡ local) self.old self.new) }
        ensures not_yet { result ≡ Err BuildErr.NotYet → (types : List TypeTree) → Refuses types self.old (λ s. define s (local_view types local) (Some (key_view key.entry))) }
    {
        match key {
            Key::Numbered(number) => {
                if number < self.next {
                    return Err(BuildErr::NotYet);
                }
                self.count(local, number)
            }
            Key::Named(name) => {
                self.set_name(name, local)?;
                Ok(())
            }
        }
    }

    /// Defines a thing under a name that was written with escapes.
    pub fn define_escaped(&mut self, local: Local, name: String) -> Result<(), AllocError>
        ensures ok { OnOk result ((types : List TypeTree) → Takes types self.old self.new (λ s. define s (local_view types local) (Some (spec.Named (string_bytes name))))) }
        ensures adds { OnOk result (Adds (λ (y : Local). y ≡ local) self.old self.new) }
    {
        self.set_escaped(name, local)
    }
}
