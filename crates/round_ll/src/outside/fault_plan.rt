//! Which calls of an object in memory fail.
ghost use Rattle.std.specs.Prelude.{◌≡◌, ◌≤◌, IfOk};
ghost use Rattle.round_ll.specs.Outside.FaultPlan.{fails_next, after_call};

use std::alloc::{AllocError, Global};
use std::marker::Model;

/// The numbers of the calls that fail, counted from 0, and how many calls and faults there were.
#[derive(Drop)]
pub struct FaultPlan {
    listed: Vec<u32>,
    calls: u64,
    faults: u64,
}

impl Model for FaultPlan {
    ghost use Rattle.round_ll.specs.Outside.FaultPlan.{Plan};

    ghost Value = { Plan };

    ghost view = { λ p. record { listed = p.listed.items; calls = p.calls; faults = p.faults } };
}

impl FaultPlan {
    /// A plan before the first call.
    pub fn new(alloc: Global, listed: &[u32]) -> Result<Self, AllocError>
        ensures { IfOk result (λ plan. plan ≡ record {
          listed = listed.now;
          calls = 0;
          faults = 0;
        }) }
    {
        Ok(FaultPlan {
            listed: Vec::from_slice(alloc, listed)?,
            calls: 0,
            faults: 0,
        })
    }

    /// Whether the next call fails by its number.
    pub fn fails_next(&self) -> bool
        ensures { result ≡ fails_next self.now }
    {
        let call = self.calls;
        self.listed.iter().any(|n| u64::from(*n) == call)
    }

    /// Counts a call, and a fault where it failed.
    pub fn count(&mut self, failed: bool)
        ensures new { self.new ≡ after_call self.old failed }
        ensures later { self.old.faults ≤ self.new.faults }
    {
        self.calls = self.calls.saturating_add(1);
        if failed {
            self.faults = self.faults.saturating_add(1);
        }
    }
}
