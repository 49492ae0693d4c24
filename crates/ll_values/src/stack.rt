//! Values on a stack, so that nesting costs no stack of the machine.

ghost use Rattle.std.specs.Prelude.{◌≡◌, ◌+◌, ◌<◌, ◌≤◌, ◌∷◌, [], length, take, drop, reverse, IfOk, OnOk, IsTrue, IsFalse};

use crate::value::Value;
use std::alloc::{AllocError, Global};
use std::marker::Model;

/// Values, seen as their list, the top one first. They lie at the end of the cells, so that those on top are a slice in order,
/// and a cell is used again without asking for room.
#[derive(Drop)]
pub struct Stack {
    cells: Vec<Value>,
    top: usize,
}

impl Model for Stack {
    ghost use Rattle.std.specs.Prelude.{List, length, drop, ◌≤◌};
    ghost use Rattle.ll_values.specs.declared.value.Value as values;

    ghost Value = { List values.Value };

    ghost view = { λ s. drop s.top s.cells.items };

    ghost invariant = { λ s. s.top ≤ length s.cells.items };
}

/// The cells, behind that many that are free.
fn lowered(alloc: Global, cells: &[Value], free: usize) -> Result<Vec<Value>, AllocError>
    ensures cells { IfOk result (λ v. drop free v.items ≡ cells.now) }
    ensures room { IfOk result (λ v. length v.items ≡ free + length cells.now) }
{
    let mut more = Vec::with_capacity(alloc, free.saturating_add(cells.len()))?;
    more.resize(free, Value::Nothing)?;
    more.extend_from_slice(cells)?;
    Ok(more)
}

/// Makes as many free cells below as there are cells, and gives their number.
#[cold]
#[inline(never)]
fn make_room(alloc: Global, cells: &mut Vec<Value>) -> Result<usize, AllocError>
    ensures cells { IfOk result (λ free. drop free cells.new.items ≡ cells.old.items) }
    ensures some { IfOk result (λ free. 0 < free) }
    ensures room { IfOk result (λ free. free ≤ length cells.new.items) }
{
    let free = cells.len().max(16);
    *cells = lowered(alloc, cells.as_slice(), free)?;
    Ok(free)
}

impl Stack {
    pub fn new(alloc: Global) -> Stack
        ensures { result ≡ [] }
    {
        Stack {
            cells: Vec::new(alloc),
            top: 0,
        }
    }

    pub fn is_empty(&self) -> bool
        ensures empty { IsTrue result → self.now ≡ [] }
        ensures some { IsFalse result → 0 < length self.now }
    {
        self.top == self.cells.len()
    }

    /// Puts a value on top.
    #[inline(always)]
    pub fn push(&mut self, alloc: Global, value: Value) -> Result<(), AllocError>
        ensures { OnOk result (self.new ≡ value ∷ self.old) }
    {
        if self.top == 0 {
            self.top = make_room(alloc, &mut self.cells)?;
        }
        self.top -= 1;
        self.cells[self.top] = value;
        Ok(())
    }

    /// The values on top, so many where they are there.
    #[inline(always)]
    pub fn first(&self, n: usize) -> &[Value]
        ensures { result.now ≡ take n self.now }
    {
        let behind = self.cells.len() - self.top;
        let end = self.top + n.min(behind);
        &self.cells.as_slice()[self.top..end]
    }

    /// Puts a value in place of so many on top.
    #[inline(always)]
    pub fn replace(&mut self, alloc: Global, n: usize, value: Value) -> Result<(), AllocError>
        ensures { OnOk result (self.new ≡ value ∷ drop n self.old) }
    {
        let gone = n.min(self.cells.len() - self.top);
        if gone == 0 {
            return self.push(alloc, value);
        }
        self.top += gone - 1;
        self.cells[self.top] = value;
        Ok(())
    }

    /// The values, the top one last.
    pub fn into_vec(self, alloc: Global) -> Result<Vec<Value>, AllocError>
        ensures { IfOk result (λ v. reverse v.items ≡ self) }
    {
        let mut values = Vec::from_slice(alloc, self.first(self.cells.len()))?;
        values.reverse();
        Ok(values)
    }
}
