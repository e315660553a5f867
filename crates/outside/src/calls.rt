//! A plan that counts the calls of an object in memory and says which of them fail. Each source, sink, link, door and keeper in memory has
//! one.
ghost use Rattle.std.specs.Prelude.{◌≡◌, ◌≤◌, IfOk};
ghost use Rattle.outside.specs.Memory.{no_calls, next_fails, after_call};

use std::alloc::{AllocError, Global};
use std::marker::Model;

/// The calls of an object in memory: which are to fail, how many were made, and how many faults were counted.
#[derive(Drop)]
pub struct CallPlan {
    failing: Vec<u64>,
    made: u64,
    faults: u64,
}

impl Model for CallPlan {
    ghost use Rattle.outside.specs.Memory.{Calls};

    ghost Value = { Calls };

    ghost view = { λ p. record { failing = p.failing.items; made = p.made; faults = p.faults } };
}

impl CallPlan {
    /// Returns a plan by which the calls whose numbers are in `failing`, counted from 1, will fail. No call was made yet.
    pub fn new(alloc: Global, failing: &[u64]) -> Result<CallPlan, AllocError>
        ensures { IfOk result (λ plan. plan ≡ no_calls failing.now) }
    {
        Ok(CallPlan {
            failing: Vec::from_slice(alloc, failing)?,
            made: 0,
            faults: 0,
        })
    }

    /// True if the next call is to fail.
    pub fn next_fails(&self) -> bool
        ensures { result ≡ next_fails self.now }
    {
        self.failing.contains(&self.made.saturating_add(1))
    }

    /// Counts a call, and a fault if it was one. Both counts stay at 2^64 - 1 once they are there.
    pub fn count(&mut self, is_fault: bool)
        ensures state { self.new ≡ after_call self.old is_fault }
        ensures never_falls { self.old.faults ≤ self.new.faults }
    {
        self.made = self.made.saturating_add(1);
        if is_fault {
            self.faults = self.faults.saturating_add(1);
        }
    }

    /// Returns how many faults were counted.
    pub fn faults(&self) -> u64
        ensures { result ≡ self.now.faults }
    {
        self.faults
    }
}
