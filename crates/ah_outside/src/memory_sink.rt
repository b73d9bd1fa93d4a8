ghost use Rattle.std.specs.Prelude.{◌≡◌, ◌⊎◌, ◌<◌, ◌≤◌, ◌-◌, ◌↔◌, [], length, take, min, IfOk, IsErr, OnErr};
ghost use Rattle.ah_outside.specs.FaultPlan.{fresh_plan, IsNextToFail};
ghost use Rattle.ah_outside.specs.MemorySink.{SinkState, after_taking, after_failed_put};

use crate::fault_plan::FaultPlan;
use crate::{Failed, Sink};
use std::alloc::{AllocError, Global};
use std::marker::Model;

/// A sink that keeps in memory what it takes, has a limited room, and fails at chosen calls.
#[derive(Debug, Drop)]
pub struct MemorySink {
    bytes: Vec<u8>,
    room: usize,
    plan: FaultPlan,
}

impl Model for MemorySink {
    ghost use Rattle.std.specs.Prelude.{◌≤◌, length, vec_capacity};
    ghost use Rattle.ah_outside.specs.MemorySink.{SinkState};

    ghost Value = { SinkState };

    ghost view = { λ s. record { bytes = s.bytes.items; room = s.room; plan = s.plan } };

    ghost invariant = { λ s. (length s.bytes.items ≤ s.room) × (s.room ≤ vec_capacity s.bytes) };
}

impl MemorySink {
    /// A sink that has taken nothing, has room for so many bytes, and fails at the calls of `put` whose
    /// numbers are in `fails`, counted from 1. Fails where there is no memory for the room and the numbers;
    /// no later call takes any.
    pub fn new(alloc: Global, room: usize, fails: &[u64]) -> Result<MemorySink, AllocError>
        ensures { IfOk result (λ s. s ≡ record { bytes = []; room = room; plan = fresh_plan fails.now }) }
    {
        Ok(MemorySink {
            bytes: Vec::with_capacity(alloc, room)?,
            room,
            plan: FaultPlan::new(alloc, fails)?,
        })
    }

    /// The bytes that it took.
    pub fn bytes(&self) -> &[u8]
        ensures { result.now ≡ self.now.bytes }
    {
        &self.bytes
    }
}

impl Sink for MemorySink {
    ghost use Rattle.std.specs.Prelude.{Some};

    ghost gained = { λ s. Some s.bytes };

    ghost fault_count = { λ s. s.plan.faults };

    fn faults(&self) -> u64 {
        self.plan.faults()
    }

    /// Takes as much of the piece as there is room for.
    fn put(&mut self, piece: &[u8]) -> Result<usize, Failed>
        ensures count { IfOk result (λ n. n ≡ min (length piece.now) (self.old.room - length self.old.bytes)) }
        ensures state { IfOk result (λ n. self.new ≡ after_taking self.old (take n piece.now)) }

        ensures fails { IsErr result ↔ (IsNextToFail self.old.plan ⊎ ((0 < length piece.now) × (self.old.room ≤ length self.old.bytes))) }
        ensures state_failed { OnErr result (self.new ≡ after_failed_put self.old) }
        ensures never_falls { self.old.plan.faults ≤ self.new.plan.faults }
    {
        let n = piece.len().min(self.room - self.bytes.len());
        if self.plan.is_next_to_fail() || (n == 0 && !piece.is_empty()) {
            self.plan.count_fault();
            return Err(Failed);
        }
        self.bytes.extend_from_slice(&piece[..n]).unwrap();
        self.plan.count_call();
        Ok(n)
    }
}
