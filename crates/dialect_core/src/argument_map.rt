//! A map from the arguments of blocks.

ghost use Rattle.std.specs.Prelude.{◌≡◌, ◌<◌, ◌+◌, ◌&&◌, ℕ, IsTrue, true, false, nat_eq, length, None, Some, OnOk, if◌then◌else◌, slice_get};
ghost use Rattle.support.specs.NumberMaps.{value_at};
ghost use Rattle.support.specs.Options.{or_else};
ghost use Rattle.dialect_core.specs.declared.argument_map.Slot.{Slot};
ghost use Rattle.dialect_core.specs.ArgumentMaps.{argued, far_at, slotted, is_slot_of};

use crate::counting::place_of;
use crate::numbers::BlockRef;
use crate::ops::Value;
use std::alloc::{AllocError, Global};
use std::collections::HashMap;
use support::number_map::NumberMap;

/// An argument, and what it is mapped to.
#[derive(Clone, Copy, Drop)]
pub struct Slot<V> {
    pub block: BlockRef,
    pub place: u32,
    pub to: V,
}

impl<V> Slot<V> {
    /// Whether the slot is that of an argument.
    fn is_of(&self, block: BlockRef, place: u32) -> bool
        ensures { result ≡ is_slot_of self.now block place }
    {
        self.block.0 == block.0 && self.place == place
    }
}

/// A map from arguments, quick where those of a block are mapped in order, none of another block between them: they have
/// slots behind each other. Each slot says whose it is: one that is another's is none.
#[derive(Drop)]
pub struct ArgumentMap<V> {
    alloc: Global,
    /// By the number of a block, the place of the slot of its first argument.
    pub starts: NumberMap<u32>,
    pub slots: Vec<Slot<V>>,
    /// The arguments without a slot, where there are some.
    pub far: Option<HashMap<Value, V>>,
}

impl<V> ArgumentMap<V> {
    /// No argument is mapped.
    pub fn new(alloc: Global) -> ArgumentMap<V>
        ensures { (b : BlockRef) (i : ℕ) → argued result b i ≡ None }
    {
        ArgumentMap {
            alloc,
            starts: NumberMap::new(alloc),
            slots: Vec::new(alloc),
            far: None,
        }
    }
}

impl<V: Copy + Drop> ArgumentMap<V> {
    /// What an argument is mapped to.
    pub fn get(&self, block: BlockRef, place: u32) -> Option<V>
        ensures { result ≡ argued self.now block place }
    {
        match self.slotted(block, place) {
            Some(to) => Some(to),
            None => self.far_value(block, place),
        }
    }

    /// What the slot of an argument says, where it has one.
    fn slotted(&self, block: BlockRef, place: u32) -> Option<V>
        ensures { result ≡ slotted self.now.slots.items (value_at self.now.starts block.0) block place }
    {
        let start = self.starts.get(block.0)?;
        let slot = self.slots.get(start as usize + place as usize)?;
        if slot.is_of(block, place) {
            Some(slot.to)
        } else {
            None
        }
    }

    /// What an argument without a slot is mapped to.
    fn far_value(&self, block: BlockRef, place: u32) -> Option<V>
        ensures { result ≡ far_at self.now.far block place }
    {
        match &self.far {
            Some(far) => far.get(&Value::Argument(block, place)).copied(),
            None => None,
        }
    }

    /// Maps an argument, whatever it was mapped to.
    pub fn set(&mut self, block: BlockRef, place: u32, to: V) -> Result<(), AllocError>
        ensures { OnOk result ((b : BlockRef) (i : ℕ) → argued self.new b i ≡ (if nat_eq block.0 b.0 && nat_eq place i then Some to else argued self.old b i)) }
    {
        let Some(start) = self.starts.get(block.0) else {
            return self.begin(block, place, to);
        };
        let at = start as usize + place as usize;
        if at == self.slots.len() {
            self.slots.push(Slot { block, place, to })?;
            return Ok(());
        }
        if self.has_slot(at, block, place) {
            self.slots[at] = Slot { block, place, to };
            return Ok(());
        }
        self.set_far(block, place, to)
    }

    /// Whether the slot at a place is there, and is that of an argument.
    #[inline(always)]
    #[tactic(auto, using(crate::proofs::ArgumentMapLaws::without_slot, crate::proofs::ArgumentMapLaws::slot_of_another))]
    fn has_slot(&self, at: usize, block: BlockRef, place: u32) -> bool
        ensures yes { IsTrue result → (x : Slot V) × (slice_get self.now.slots.items at ≡ Some x) × (is_slot_of x block place ≡ true) }
        ensures no { result ≡ false → (s : ℕ) → s + place ≡ at → slotted self.now.slots.items (Some s) block place ≡ None }
    {
        at < self.slots.len() && self.slots[at].is_of(block, place)
    }

    /// Maps an argument of a block of which none has a slot.
    fn begin(&mut self, block: BlockRef, place: u32, to: V) -> Result<(), AllocError>
        requires { value_at self.old.starts block.0 ≡ None }
        ensures { OnOk result ((b : BlockRef) (i : ℕ) → argued self.new b i ≡ (if nat_eq block.0 b.0 && nat_eq place i then Some to else argued self.old b i)) }
    {
        if place != 0 {
            return self.set_far(block, place, to);
        }
        let start = place_of(self.slots.len())?;
        self.starts.set(block.0, start)?;
        self.slots.push(Slot { block, place, to })?;
        Ok(())
    }

    /// Maps an argument without a slot.
    fn set_far(&mut self, block: BlockRef, place: u32, to: V) -> Result<(), AllocError>
        requires { slotted self.old.slots.items (value_at self.old.starts block.0) block place ≡ None }
        ensures { OnOk result ((b : BlockRef) (i : ℕ) → argued self.new b i ≡ (if nat_eq block.0 b.0 && nat_eq place i then Some to else argued self.old b i)) }
    {
        let mut far = match self.far.take() {
            Some(far) => far,
            None => HashMap::new(self.alloc),
        };
        far.insert(Value::Argument(block, place), to)?;
        self.far = Some(far);
        Ok(())
    }

    /// Maps an argument, where it is not mapped.
    pub fn note(&mut self, block: BlockRef, place: u32, to: V) -> Result<(), AllocError>
        ensures { OnOk result ((b : BlockRef) (i : ℕ) → argued self.new b i ≡ or_else (argued self.old b i) (if nat_eq block.0 b.0 && nat_eq place i then Some to else None)) }
    {
        match self.get(block, place) {
            None => self.set(block, place, to),
            Some(_) => Ok(()),
        }
    }
}
