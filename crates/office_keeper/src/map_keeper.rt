//! `MapKeeper`, a keeper that keeps the tables in memory.

ghost use Rattle.std.specs.Prelude.{◌≡◌, ◌≤◌, Some, None, IfOk, OnErr, OnOk, false};
ghost use Rattle.define_offices.specs.Facts.{IsTables};
ghost use Rattle.define_offices.specs.Steps.{apply as applied};
ghost use Rattle.define_offices.specs.Tables.{first_tables};
ghost use Rattle.outside.specs.Memory.{after_call, next_fails, no_calls};
ghost use Rattle.office_tables.specs.Changes.{seen_change};
ghost use Rattle.office_core.specs.Keeping.{Attach, HasCause, Load, Nowhere, Store, stop_of, with_call};
ghost use Rattle.office_keeper.specs.Places.{course_of, has_failed, place_of};

use office_core::{Change, Keeper, KeeperStop, Tables, apply};
use outside::CallPlan;
use pool_model::Name;
use std::alloc::{AllocError, Global};

/// Tables in memory, with a list of the calls of the trait `Keeper` that are to fail.
#[derive(Drop)]
pub struct MapKeeper {
    tables: Tables,
    path: Option<Name>,
    calls: CallPlan,
}

impl MapKeeper {
    /// Returns a keeper of the first tables, attached nowhere. The calls whose numbers are in `failing`, counted from 1, will fail.
    pub fn new(alloc: Global, failing: &[u64]) -> Result<MapKeeper, AllocError>
        ensures tables { IfOk result (λ keeper. keeper.tables ≡ first_tables) }
        ensures place { IfOk result (λ keeper. place_of keeper.path ≡ Nowhere) }
        ensures calls { IfOk result (λ keeper. keeper.calls ≡ no_calls failing.now) }
    {
        Ok(MapKeeper {
            tables: Tables::first(alloc)?,
            path: None,
            calls: CallPlan::new(alloc, failing)?,
        })
    }

    /// Returns the tables that are kept.
    pub fn tables(&self) -> &Tables
        ensures { result.now ≡ self.now.tables }
    {
        &self.tables
    }

    /// Returns how many calls have failed with a fault. Running out of memory is no fault.
    pub fn faults(&self) -> u64
        ensures { result ≡ self.now.calls.faults }
    {
        self.calls.faults()
    }

    /// Counts a call, and returns true if it is to fail.
    fn fails(&mut self) -> bool
        ensures tables { self.new.tables ≡ self.old.tables }
        ensures path { self.new.path ≡ self.old.path }
        ensures listed { result ≡ next_fails self.old.calls }
        ensures calls { self.new.calls ≡ after_call self.old.calls result }
        ensures never_falls { self.old.calls.faults ≤ self.new.calls.faults }
    {
        let is_fault = self.calls.next_fails();
        self.calls.count(is_fault);
        is_fault
    }
}

impl Keeper for MapKeeper {
    ghost tables = { λ k. Some k.tables };

    ghost course = { λ k. course_of k.path };

    ghost faults = { λ k. k.calls.faults };

    ghost holds = { λ _. false };

    fn attach(&mut self, alloc: Global, path: &str) -> Result<(), KeeperStop>
        ensures same { self.new.tables ≡ self.old.tables }
        ensures course { course_of self.new.path ≡ with_call (course_of self.old.path) (Attach path.now (stop_of result)) }
        ensures cause { HasCause self.old.calls.faults self.new.calls.faults result }
        ensures failed { has_failed result ≡ next_fails self.old.calls }
        ensures calls { self.new.calls ≡ after_call self.old.calls (has_failed result) }
    {
        if self.fails() {
            return Err(KeeperStop::Failed);
        }
        match Name::new(alloc, path) {
            Ok(path) => {
                self.path = Some(path);
                Ok(())
            }
            Err(_) => Err(KeeperStop::OutOfMemory),
        }
    }

    fn load(&mut self, _alloc: Global) -> Result<Tables, KeeperStop>
        ensures same { self.new.tables ≡ self.old.tables }
        ensures course { course_of self.new.path ≡ with_call (course_of self.old.path) (Load (stop_of result)) }
        ensures loaded { IfOk result (λ loaded. loaded ≡ self.old.tables) }
        ensures cause { HasCause self.old.calls.faults self.new.calls.faults result }
        ensures failed { has_failed result ≡ next_fails self.old.calls }
        ensures calls { self.new.calls ≡ after_call self.old.calls (has_failed result) }
    {
        if self.fails() {
            return Err(KeeperStop::Failed);
        }
        match self.tables.copy() {
            Ok(tables) => Ok(tables),
            Err(_) => Err(KeeperStop::OutOfMemory),
        }
    }

    fn store(&mut self, alloc: Global, change: &Change) -> Result<(), KeeperStop>
        requires { IsTables (applied self.old.tables (seen_change change.now)) }
        ensures course { course_of self.new.path ≡ with_call (course_of self.old.path) (Store (seen_change change.now) (stop_of result)) }
        ensures ok { OnOk result (self.new.tables ≡ applied self.old.tables (seen_change change.now)) }
        ensures err { OnErr result (self.new.tables ≡ self.old.tables) }
        ensures cause { HasCause self.old.calls.faults self.new.calls.faults result }
        ensures failed { has_failed result ≡ next_fails self.old.calls }
        ensures calls { self.new.calls ≡ after_call self.old.calls (has_failed result) }
    {
        if self.fails() {
            return Err(KeeperStop::Failed);
        }
        match apply(alloc, &self.tables, change) {
            Ok(tables) => {
                self.tables = tables;
                Ok(())
            }
            Err(_) => Err(KeeperStop::OutOfMemory),
        }
    }

    fn let_go(&mut self)
        ensures { self.new ≡ self.old }
    {}
}
