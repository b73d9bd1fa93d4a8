ghost use Rattle.std.specs.Prelude.{◌≡◌, ◌≤◌, ◌↔◌, IfOk, IsTrue, true};
ghost use Rattle.ah_outside.specs.FaultPlan.{fresh_plan, IsNextToFail, after_call, after_fault};

use std::alloc::{AllocError, Global};
use std::marker::Model;

/// Counts the calls of a form in memory, and knows which of them are to fail.
#[derive(Debug, Drop)]
pub struct FaultPlan {
    calls: u64,
    fails: Vec<u64>,
    faults: u64,
}

impl Model for FaultPlan {
    ghost use Rattle.ah_outside.specs.FaultPlan.{Plan};

    ghost Value = { Plan };

    ghost view = { λ p. record { calls = p.calls; fails = p.fails.items; faults = p.faults } };
}

impl FaultPlan {
    /// A plan in which the calls of these numbers fail, counted from 1.
    pub fn new(alloc: Global, fails: &[u64]) -> Result<FaultPlan, AllocError>
        ensures { IfOk result (λ plan. plan ≡ fresh_plan fails.now) }
    {
        Ok(FaultPlan {
            calls: 0,
            fails: Vec::from_slice(alloc, fails)?,
            faults: 0,
        })
    }

    /// How many of the calls failed.
    pub fn faults(&self) -> u64
        ensures { result ≡ self.now.faults }
    {
        self.faults
    }

    /// Whether the next call is to fail.
    pub fn is_next_to_fail(&self) -> bool
        ensures { IsTrue result ↔ IsNextToFail self.now }
    {
        let fails = self.fails.as_slice();
        match self.calls.checked_add(1) {
            Some(number) => fails.contains(&number),
            None => false,
        }
    }

    /// Counts a call that went well.
    pub fn count_call(&mut self)
        ensures { self.new ≡ after_call self.old }
    {
        self.calls = self.calls.saturating_add(1);
    }

    /// Counts a call that failed.
    pub fn count_fault(&mut self)
        ensures counted { self.new ≡ after_fault self.old }
        ensures never_falls { self.old.faults ≤ self.new.faults }
    {
        self.calls = self.calls.saturating_add(1);
        self.faults = self.faults.saturating_add(1);
    }
}
