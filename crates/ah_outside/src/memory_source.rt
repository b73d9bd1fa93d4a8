ghost use Rattle.std.specs.Prelude.{◌≡◌, ◌<◌, ◌≤◌, ◌↔◌, [], length, take, min, IfOk, IsErr, OnErr};
ghost use Rattle.ah_outside.specs.FaultPlan.{fresh_plan, IsNextToFail};
ghost use Rattle.ah_outside.specs.MemorySource.{SourceState, after_giving, after_failed_take};
ghost use Rattle.ah_outside.specs.Outside.{FaultRose, Gave};

use crate::fault_plan::FaultPlan;
use crate::{Failed, Source};
use std::alloc::{AllocError, Global};
use std::marker::Model;

/// A source that gives bytes from memory, in pieces of a chosen size, and fails at chosen calls.
#[derive(Debug, Drop)]
pub struct MemorySource {
    bytes: Vec<u8>,
    given: usize,
    piece: usize,
    plan: FaultPlan,
}

impl Model for MemorySource {
    ghost use Rattle.std.specs.Prelude.{◌≤◌, drop, length};
    ghost use Rattle.ah_outside.specs.MemorySource.{SourceState};

    ghost Value = { SourceState };

    ghost view = { λ s. record { left = drop s.given s.bytes.items; piece = s.piece; plan = s.plan } };

    ghost invariant = { λ s. (s.given ≤ length s.bytes.items) × (1 ≤ s.piece) };
}

impl MemorySource {
    /// A source that has all of the bytes left, gives at most `piece` of them in a call, and fails at the
    /// calls of `take` whose numbers are in `fails`, counted from 1. Fails where there is no memory for
    /// the bytes and the numbers; no later call takes any.
    pub fn new(
        alloc: Global,
        bytes: &[u8],
        piece: usize,
        fails: &[u64],
    ) -> Result<MemorySource, AllocError>
        requires { 1 ≤ piece }
        ensures { IfOk result (λ s. s ≡ record { left = bytes.now; piece = piece; plan = fresh_plan fails.now }) }
    {
        Ok(MemorySource {
            bytes: Vec::from_slice(alloc, bytes)?,
            given: 0,
            piece,
            plan: FaultPlan::new(alloc, fails)?,
        })
    }

    /// The bytes that are left.
    pub fn left(&self) -> &[u8]
        ensures { result.now ≡ self.now.left }
    {
        &self.bytes[self.given..]
    }
}

impl Source for MemorySource {
    ghost use Rattle.std.specs.Prelude.{Some};

    ghost left = { λ s. Some s.left };

    ghost fault_count = { λ s. s.plan.faults };

    fn faults(&self) -> u64 {
        self.plan.faults()
    }

    /// Gives the least of `piece`, the buffer's length and what is left.
    fn take(&mut self, buf: &mut [u8]) -> Result<usize, Failed>
        requires { 0 < length buf.old }
        ensures count { IfOk result (λ n. n ≡ min self.old.piece (min (length buf.old) (length self.old.left))) }
        ensures bytes { IfOk result (λ n. take n buf.new ≡ take n self.old.left) }
        ensures end { IfOk result (λ n. (n ≡ 0) ↔ (self.old.left ≡ [])) }
        ensures state { IfOk result (λ n. self.new ≡ after_giving self.old n) }

        ensures fails { IsErr result ↔ IsNextToFail self.old.plan }
        ensures state_failed { OnErr result (self.new ≡ after_failed_take self.old) }
        ensures never_falls { self.old.plan.faults ≤ self.new.plan.faults }
    {
        if self.plan.is_next_to_fail() {
            self.plan.count_fault();
            return Err(Failed);
        }
        self.plan.count_call();
        let left = &self.bytes[self.given..];
        let n = self.piece.min(buf.len()).min(left.len());
        buf[..n].copy_from_slice(&left[..n]);
        self.given += n;
        Ok(n)
    }
}
