//! A source over bytes in memory that fails in the calls that are listed.
ghost use Rattle.std.specs.Prelude.{◌≡◌, ◌<◌, ◌≤◌, ◌↔◌, true, false, length, drop, min, IsErr, IsTrue, IfOk, OnErr, Some};
ghost use Rattle.std.specs.Io.{ReadsAtMost};
ghost use Rattle.round_ll.specs.Outside.Causes.{HasCause};
ghost use Rattle.round_ll.specs.Outside.FaultPlan.{fails_next};
ghost use Rattle.round_ll.specs.Outside.MemorySource.{after_read};
ghost use Rattle.round_ll.specs.Outside.Told.{Gives, EndsExactlyAt};

use super::failed::Failed;
use super::fault_plan::FaultPlan;
use super::source::Source;
use std::alloc::{AllocError, Global};
use std::marker::Model;

/// Gives its bytes, at most a piece a call, and fails in the calls that are listed.
#[derive(Drop)]
pub struct MemorySource {
    bytes: Vec<u8>,
    given: usize,
    piece: usize,
    plan: FaultPlan,
}

impl Model for MemorySource {
    ghost use Rattle.std.specs.Prelude.{◌<◌, ◌≤◌, length, drop};
    ghost use Rattle.round_ll.specs.Outside.MemorySource.{Reading};

    ghost Value = { Reading };

    ghost view = { λ s. record {
      left = drop s.given s.bytes.items;
      piece = s.piece;
      plan = s.plan;
    } };

    ghost invariant = { λ s. (s.given ≤ length s.bytes.items) × (0 < s.piece) };
}

impl MemorySource {
    /// A source of these bytes before the first call. `fails` lists the calls that fail by their
    /// numbers, counted from 0.
    pub fn new(alloc: Global, bytes: &[u8], piece: usize, fails: &[u32]) -> Result<Self, AllocError>
        requires { 0 < piece }
        ensures { IfOk result (λ source. source ≡ record {
          left = bytes.now;
          piece = piece;
          plan = record { listed = fails.now; calls = 0; faults = 0 };
        }) }
    {
        Ok(MemorySource {
            bytes: Vec::from_slice(alloc, bytes)?,
            given: 0,
            piece,
            plan: FaultPlan::new(alloc, fails)?,
        })
    }
}

impl Source for MemorySource {
    ghost left = { λ s. Some s.left };

    ghost faults = { λ s. s.plan.faults };

    fn read(&mut self, buf: &mut [u8]) -> Result<usize, Failed>
        ensures bound { ReadsAtMost result buf.new }
        ensures bytes { Gives (Some self.old.left) (Some self.new.left) result buf.new }
        ensures end { IfOk result (λ n. 0 < length buf.new →
            EndsExactlyAt (Some self.old.left) n) }
        ensures cause { HasCause self.old.plan.faults self.new.plan.faults result }

        // Exactly the listed calls fail.
        ensures fails { IsErr result ↔ IsTrue (fails_next self.old.plan) }
        ensures count { IfOk result (λ n.
            n ≡ min self.old.piece (min (length self.old.left) (length buf.new))) }
        ensures ok { IfOk result (λ n. self.new ≡ after_read self.old n false) }
        ensures err { OnErr result (self.new ≡ after_read self.old 0 true) }
    {
        let failed = self.plan.fails_next();
        self.plan.count(failed);
        if failed {
            return Err(Failed);
        }
        let left = &self.bytes[self.given..];
        let count = self.piece.min(left.len()).min(buf.len());
        buf[..count].copy_from_slice(&left[..count]);
        self.given += count;
        Ok(count)
    }
}
