//! A sink that keeps its bytes in memory and fails in the calls that are listed.
ghost use Rattle.std.specs.Prelude.{◌≡◌, ◌<◌, ◌≤◌, ◌↔◌, true, false, [], length, take, min, IsErr, IsTrue, IfOk, OnErr, Some};
ghost use Rattle.std.specs.Io.{WritesAtMost};
ghost use Rattle.round_ll.specs.Outside.Causes.{HasCause};
ghost use Rattle.round_ll.specs.Outside.MemorySink.{after_write, refuses, room_left};
ghost use Rattle.round_ll.specs.Outside.Told.{Takes};

use super::failed::Failed;
use super::fault_plan::FaultPlan;
use super::sink::Sink;
use std::alloc::{AllocError, Global};
use std::marker::Model;

/// Takes bytes, at most a piece a call, and fails in the calls that are listed and where no room
/// is left.
#[derive(Drop)]
pub struct MemorySink {
    bytes: Vec<u8>,
    room: usize,
    piece: usize,
    plan: FaultPlan,
}

impl Model for MemorySink {
    ghost use Rattle.std.specs.Prelude.{◌<◌, ◌≤◌, length, vec_capacity};
    ghost use Rattle.round_ll.specs.Outside.MemorySink.{Writing};

    ghost Value = { Writing };

    ghost view = { λ s. record {
      taken = s.bytes.items;
      room = s.room;
      piece = s.piece;
      plan = s.plan;
    } };

    ghost invariant = { λ s. (length s.bytes.items ≤ s.room)
        × (s.room ≤ vec_capacity s.bytes) × (0 < s.piece) };
}

impl MemorySink {
    /// A sink before the first call, with memory for `room` bytes. `fails` lists the calls that
    /// fail by their numbers, counted from 0.
    pub fn new(alloc: Global, room: usize, piece: usize, fails: &[u32]) -> Result<Self, AllocError>
        requires { 0 < piece }
        ensures { IfOk result (λ sink. sink ≡ record {
          taken = [];
          room = room;
          piece = piece;
          plan = record { listed = fails.now; calls = 0; faults = 0 };
        }) }
    {
        Ok(MemorySink {
            bytes: Vec::with_capacity(alloc, room)?,
            room,
            piece,
            plan: FaultPlan::new(alloc, fails)?,
        })
    }

    /// The bytes taken.
    pub fn bytes(&self) -> &[u8]
        ensures { result.now ≡ self.now.taken }
    {
        self.bytes.as_slice()
    }
}

impl Sink for MemorySink {
    ghost taken = { λ s. Some s.taken };

    ghost faults = { λ s. s.plan.faults };

    fn write(&mut self, bytes: &[u8]) -> Result<usize, Failed>
        ensures bound { WritesAtMost result bytes.now }
        ensures goes_on { IfOk result (λ n. 0 < length bytes.now → 0 < n) }
        ensures bytes { Takes (Some self.old.taken) (Some self.new.taken) result bytes.now }
        ensures cause { HasCause self.old.plan.faults self.new.plan.faults result }

        // Exactly the listed calls fail, and those with a piece and no room left for it.
        ensures fails { IsErr result ↔ IsTrue (refuses self.old (length bytes.now)) }
        ensures count { IfOk result (λ n.
            n ≡ min self.old.piece (min (room_left self.old) (length bytes.now))) }
        ensures ok { IfOk result (λ n. self.new ≡ after_write self.old (take n bytes.now) false) }
        ensures err { OnErr result (self.new ≡ after_write self.old [] true) }
    {
        let room_left = self.room - self.bytes.len();
        let failed = self.plan.fails_next() || (!bytes.is_empty() && room_left == 0);
        self.plan.count(failed);
        if failed {
            return Err(Failed);
        }
        let count = self.piece.min(room_left).min(bytes.len());
        match self.bytes.extend_from_slice(&bytes[..count]) {
            Ok(()) => Ok(count),
            Err(_) => unreachable!(),
        }
    }
}
