//! A map from numbers, quick where they lie near each other.

ghost use Rattle.std.specs.Prelude.{◌≡◌, ◌+◌, ◌≤◌, ◌<◌, ◌⊎◌, ◌-◌, ◌++◌, ◌∷◌, [], ℕ, nat_eq, None, true, Some, IfSome, IfNone, IfOk, OnOk, length, if◌then◌else◌};
ghost use Rattle.support.specs.Options.{or_else};
ghost use Rattle.support.specs.NumberMaps.{far_at, slot_at, slot_or, value_at};

use std::alloc::{AllocError, Global};
use std::collections::HashMap;

/// A map from numbers to values. The values of numbers near the first one lie in slots, at most four for each value
/// and sixteen more, the others in a hash map: so a map takes time and memory in proportion to its values, whatever the
/// numbers, and numbers that count on from the first are found without a hash.
#[derive(Drop)]
pub struct NumberMap<V> {
    alloc: Global,
    /// The number of the first slot.
    base: u32,
    near: Vec<Option<V>>,
    /// How many values were put in a slot of their own.
    filled: usize,
    /// The values of numbers without a slot. Where there are some, there is no further slot.
    far: Option<HashMap<u32, V>>,
}

impl<V> NumberMap<V> {
    /// No number has a value.
    pub fn new(alloc: Global) -> NumberMap<V>
        ensures { (q : ℕ) → value_at result q ≡ None }
    {
        NumberMap {
            alloc,
            base: 0,
            near: Vec::new(alloc),
            filled: 0,
            far: None,
        }
    }
}

impl<V: Copy + Drop> NumberMap<V> {
    /// No number has a value, and those below a count have a slot each, so that they get their values in any order without
    /// a hash.
    pub fn with_slots(alloc: Global, count: usize) -> Result<NumberMap<V>, AllocError>
        ensures { IfOk result (λ m. (q : ℕ) → value_at m q ≡ None) }
    {
        let mut near = Vec::with_capacity(alloc, count)?;
        pad(&mut near, count)?;
        Ok(NumberMap {
            alloc,
            base: 0,
            near,
            filled: 0,
            far: None,
        })
    }

    /// The value of a number, where it has one.
    pub fn get(&self, number: u32) -> Option<V>
        ensures { result ≡ value_at self.now number }
    {
        match self.place(number) {
            Some(at) => self.near[at],
            None => self.far_value(number),
        }
    }

    #[tactic(auto, using(crate::proofs::NumberMapLaws::replaced))]
    /// Gives a number a value, in place of the one that it has.
    pub fn set(&mut self, number: u32, value: V) -> Result<(), AllocError>
        ensures { OnOk result ((q : ℕ) → value_at self.new q ≡ (if nat_eq number q then Some value else value_at self.old q)) }
    {
        self.start(number);
        if let Some(at) = self.place(number) {
            self.near[at] = Some(value);
            return Ok(());
        }
        if self.has_room(number) {
            self.append(number, value)
        } else {
            self.set_far(number, value)
        }
    }

    /// Gives a number a value, where it has none.
    #[tactic(auto, using(crate::proofs::NumberMapLaws::noted, crate::proofs::NumberMapLaws::stays))]
    pub fn note(&mut self, number: u32, value: V) -> Result<(), AllocError>
        ensures { OnOk result ((q : ℕ) → value_at self.new q ≡ or_else (value_at self.old q) (if nat_eq number q then Some value else None)) }
    {
        match self.get(number) {
            None => self.set(number, value),
            Some(_) => Ok(()),
        }
    }

    /// Lets the slots begin with that of a number, where there are none yet.
    #[tactic(auto, using(crate::proofs::NumberMapLaws::unslotted))]
    fn start(&mut self, number: u32)
        ensures { (q : ℕ) → value_at self.new q ≡ value_at self.old q }
    {
        if self.near.is_empty() {
            self.base = number;
        }
    }

    /// The place of a number's slot.
    fn place(&self, number: u32) -> Option<usize>
        ensures found { IfSome result (λ at. (self.now.base ≤ number) × (at ≡ number - self.now.base) × (at < length self.now.near.items)) }
        ensures none { IfNone result (slot_at self.now.base self.now.near.items number ≡ None) }
    {
        if number < self.base {
            return None;
        }
        let at = (number - self.base) as usize;
        if at < self.near.len() { Some(at) } else { None }
    }

    /// The value of a number without a slot.
    fn far_value(&self, number: u32) -> Option<V>
        ensures { result ≡ far_at self.now.far number }
    {
        match &self.far {
            Some(far) => far.get(&number).copied(),
            None => None,
        }
    }

    /// Whether a slot can be made for a number without one.
    fn has_room(&self, number: u32) -> bool
        ensures { result ≡ true → (self.now.far ≡ None) × (self.now.base + length self.now.near.items ≤ number) }
    {
        if self.far.is_some() || number < self.base {
            return false;
        }
        let at = (number - self.base) as usize;
        at >= self.near.len() && at < self.filled.saturating_mul(4).saturating_add(16)
    }

    #[tactic(auto, using(crate::proofs::NumberMapLaws::grown))]
    /// Makes a slot with a value, behind as many empty ones as it takes.
    fn append(&mut self, number: u32, value: V) -> Result<(), AllocError>
        requires far { self.old.far ≡ None }
        requires behind { self.old.base + length self.old.near.items ≤ number }
        ensures { OnOk result ((q : ℕ) → value_at self.new q ≡ (if nat_eq number q then Some value else value_at self.old q)) }
    {
        make_slot(self.base, &mut self.near, number, value)?;
        self.filled = self.filled.saturating_add(1);
        Ok(())
    }

    /// Gives a number without a slot a value.
    fn set_far(&mut self, number: u32, value: V) -> Result<(), AllocError>
        requires { slot_at self.old.base self.old.near.items number ≡ None }
        ensures { OnOk result ((q : ℕ) → value_at self.new q ≡ (if nat_eq number q then Some value else value_at self.old q)) }
    {
        let mut far = match self.far.take() {
            Some(far) => far,
            None => HashMap::new(self.alloc),
        };
        far.insert(number, value)?;
        self.far = Some(far);
        Ok(())
    }
}

/// Makes a slot with a value for a number behind the slots, which begin with that of the number `base`.
#[tactic(auto, using(crate::proofs::NumberMapLaws::appended))]
fn make_slot<V: Copy + Drop>(
    base: u32,
    slots: &mut Vec<Option<V>>,
    number: u32,
    value: V,
) -> Result<(), AllocError>
    requires { base + length slots.old.items ≤ number }
    ensures { OnOk result ((q : ℕ) → slot_or (slot_at base slots.new.items q) None ≡ (if nat_eq number q then Some value else slot_or (slot_at base slots.old.items q) None)) }
{
    let gap = (number - base) as usize - slots.len();
    pad(slots, gap)?;
    slots.push(Some(value))?;
    Ok(())
}

/// Makes empty slots.
#[tactic(auto, using(crate::proofs::NumberMapLaws::padded))]
fn pad<V: Copy + Drop>(slots: &mut Vec<Option<V>>, count: usize) -> Result<(), AllocError>
    ensures same { OnOk result ((base q : ℕ) → slot_or (slot_at base slots.new.items q) None ≡ slot_or (slot_at base slots.old.items q) None) }
    ensures len { OnOk result (length slots.new.items ≡ length slots.old.items + count) }
{
    for _ in 0..count {
        slots.push(None)?;
    }
    Ok(())
}
