//! What stands for the values of a function whose body is being exported.

ghost use Rattle.std.specs.Prelude.{◌≡◌, ◌<◌, ◌^◌, ◌+◌, IfOk, OnOk, None, Some, if◌then◌else◌};
ghost use Rattle.meaning.specs.Dialect.{same_value};
ghost use Rattle.to_llvm_ir.specs.States.{found};

use crate::run_map::RunMap;
use dialect_core::ops::Value;
use llvm_core::code::LLVMValue;
use std::alloc::{AllocError, Global};

/// What the values of a function became so far.
#[derive(Drop)]
pub struct Values {
    /// What stands for a value.
    pub stands: RunMap<LLVMValue>,
    /// The number of the next value.
    pub next: u64,
}

impl Values {
    /// No values.
    pub fn new(alloc: Global) -> Values
        ensures found { (v : _) → found result v ≡ None }
        ensures next { result.next ≡ 0 }
    {
        Values {
            stands: RunMap::new(alloc),
            next: 0,
        }
    }

    /// What stands for a value, where it is known.
    #[inline(always)]
    pub fn get(&self, value: Value) -> Option<LLVMValue>
        ensures { result ≡ found self.now value }
    {
        self.stands.get(value)
    }

    /// The next value, and what stands for it.
    #[inline(always)]
    pub fn set(&mut self, value: Value, stands: LLVMValue) -> Result<(), AllocError>
        ensures next { OnOk result (self.new.next ≡ self.old.next + 1) }
        ensures few { OnOk result (self.new.next < 2 ^ 64) }
        ensures found { OnOk result ((q : _) → found self.new q ≡ (if same_value value q then Some stands else found self.old q)) }
    {
        let next = self.next.checked_add(1).ok_or(AllocError)?;
        self.stands.set(value, stands)?;
        self.next = next;
        Ok(())
    }
}
