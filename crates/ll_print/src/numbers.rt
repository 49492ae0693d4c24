//! The numbers of what has no name in a function.

ghost use Rattle.std.specs.Prelude.{◌≡◌, ◌≤◌, ◌+◌, [], OnOk, Some, None, if◌then◌else◌};
ghost use Rattle.support.specs.Options.{or_else};
ghost use Rattle.ll_literals.specs.Numbers.{number_limit};
ghost use Rattle.ll_print.specs.Printing.{if_unnamed};
ghost use Rattle.ll_print.specs.Numbering.{thing_of, same_place, noted_at, number_at, IsNumbering, Counts};

use crate::places::Place;
use llvm_core::numbers::LLVMFunction;
use std::alloc::{AllocError, Global};
use support::number_map::NumberMap;

/// The unnamed parameters, blocks and results of a function that were counted, from 0.
#[derive(Drop)]
pub struct Numbers {
    pub function: LLVMFunction,
    pub params: NumberMap<u32>,
    pub blocks: NumberMap<u32>,
    pub results: NumberMap<u32>,
    /// How many were counted.
    pub count: u32,
}

impl Numbers {
    /// Nothing is counted.
    pub fn new(alloc: Global, function: LLVMFunction) -> Numbers
        ensures function { result.function ≡ function }
        ensures none { IsNumbering result [] }
    {
        Numbers {
            function,
            params: NumberMap::new(alloc),
            blocks: NumberMap::new(alloc),
            results: NumberMap::new(alloc),
            count: 0,
        }
    }

    /// The number of a thing, and the count where it has none.
    pub fn number(&self, place: Place) -> u32
        ensures { result ≡ number_at self.now place }
    {
        match self.noted(place) {
            Some(number) => number,
            None => self.count,
        }
    }

    /// How many were counted: no more than there are numbers.
    pub fn counted(&self) -> u32
        ensures { self.now.count ≤ number_limit }
    {
        self.count
    }

    /// Counts a thing, where it has no name.
    pub fn count_unnamed(&mut self, place: Place, name: &str) -> Result<(), AllocError>
        ensures { OnOk result (Counts self.old self.new (if_unnamed name.now (thing_of place))) }
    {
        if name.is_empty() {
            self.give_next(place)?;
        }
        Ok(())
    }

    /// The number that was noted of a thing.
    #[inline(always)]
    fn noted(&self, place: Place) -> Option<u32>
        ensures { result ≡ noted_at self.now place }
    {
        match place {
            Place::Param(i) => self.params.get(i),
            Place::Block(b) => self.blocks.get(b.0),
            Place::Result(i) => self.results.get(i.0),
        }
    }

    /// Notes the count as the number of a thing, where it has none.
    fn note(&mut self, place: Place) -> Result<(), AllocError>
        ensures function { OnOk result (self.new.function ≡ self.old.function) }
        ensures count { OnOk result (self.new.count ≡ self.old.count) }
        ensures places { OnOk result ((q : Place) → noted_at self.new q ≡ or_else (noted_at self.old q) (if same_place place q then Some self.old.count else None)) }
    {
        let number = self.count;
        match place {
            Place::Param(i) => self.params.note(i, number),
            Place::Block(b) => self.blocks.note(b.0, number),
            Place::Result(i) => self.results.note(i.0, number),
        }
    }

    /// Gives a thing the next number, where it has none.
    fn give_next(&mut self, place: Place) -> Result<(), AllocError>
        ensures function { OnOk result (self.new.function ≡ self.old.function) }
        ensures count { OnOk result (self.new.count ≡ self.old.count + 1) }
        ensures places { OnOk result ((q : Place) → noted_at self.new q ≡ or_else (noted_at self.old q) (if same_place place q then Some self.old.count else None)) }
    {
        let Some(next) = self.count.checked_add(1) else {
            return Err(AllocError);
        };
        self.note(place)?;
        self.count = next;
        Ok(())
    }
}
