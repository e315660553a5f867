//! The run's steps: pivot, pricing, and closing of a stage.

ghost use Rattle.std.specs.Prelude.{◌≡◌, ◌≤◌, ◌≤ℤ◌, ◌++◌, [], ◌∷◌, pos, true, OnOk, Some, None};
ghost use Rattle.leximin_run.specs.Advancing.{Advances, Makes, Prices, Stands};
ghost use Rattle.define_rows.specs.Choice.{choice};
ghost use Rattle.define_rows.specs.Steps.{close_stage, open_row};
ghost use Rattle.define_rows.specs.Table.{row_at};
ghost use Rattle.define_runs.specs.Run.{run_limits};
ghost use Rattle.define_searches.specs.Fronts.{HaveEntries, HaveReach};

use alike::Composition;
use define_runs::Limits;
use exact_table::{Pass, Table, Var};
use outside::Watch;
use panel_search::{Pricer, Row, SearchStop};
use pricing_pool::{price_by, price_sharing};
use std::alloc::{AllocError, Global};
use std::thread::Threads;

// Why the next step was not made.
#[derive(Debug, Clone, Copy)]
pub(crate) enum Refusal {
    // An operation of the step passes the width.
    Wide(Pass),
    // The next step is a pivot, and the budget of pivots is spent.
    NoPivot,
    // The next step is a pricing, which needs more visits than its budget.
    NoVisit,
    NoMemory,
}

impl From<AllocError> for Refusal {
    ghost use Rattle.std.specs.Prelude.{◌≡◌};
    ghost use Rattle.leximin_run.specs.declared.running.Refusal.TheVariants.{NoMemory};

    ghost from_gives = { λ _ e. e ≡ NoMemory };

    fn from(_error: AllocError) -> Refusal {
        Refusal::NoMemory
    }
}

impl From<Pass> for Refusal {
    ghost use Rattle.std.specs.Prelude.{◌≡◌};
    ghost use Rattle.leximin_run.specs.declared.running.Refusal.TheVariants.{Wide};

    ghost from_gives = { λ pass e. e ≡ Wide pass };

    fn from(pass: Pass) -> Refusal {
        Refusal::Wide(pass)
    }
}

// Turns the stop of a pricing into the refusal of its step.
impl From<SearchStop> for Refusal {
    ghost use Rattle.std.specs.Prelude.{◌≡◌};
    ghost use Rattle.leximin_run.specs.Advancing.{refusal_of};

    ghost from_gives = { λ stop e. e ≡ refusal_of stop };

    fn from(stop: SearchStop) -> Refusal {
        match stop {
            SearchStop::Spent => Refusal::NoVisit,
            SearchStop::OutOfMemory => Refusal::NoMemory,
        }
    }
}

// A run between two steps. The pricer has the classes and the rows of the closed stages. If `share` is true, the workers of a pricing
// share a bound.
#[derive(Drop)]
pub(crate) struct Run<'c> {
    pub(crate) share: bool,
    pub(crate) limits: Limits,
    pub(crate) table: Table,
    pub(crate) pricer: Pricer<'c>,
}

impl<'c> Run<'c> {
    // Makes the next step and returns true. Returns false if everybody is settled, so that there is no next step.
    pub(crate) fn advance<R: Threads + Sync, W: Watch + Sync>(
        &mut self,
        rt: &R,
        alloc: Global,
        workers: u32,
        watch: &W,
    ) -> Result<bool, Refusal>
        requires some_worker { 1 ≤ workers }
        requires few_workers { workers ≤ 64 }
        requires stands { Stands self.old.pricer.classes (run_limits self.old.limits) self.old.table self.old.pricer.closed }
        ensures advances { Advances self.old.share self.old.pricer.classes (run_limits self.old.limits) self.old.table result self.new.table }
        ensures stands { OnOk result (Stands self.new.pricer.classes (run_limits self.new.limits) self.new.table self.new.pricer.closed) }
        ensures classes { self.new.pricer.classes ≡ self.old.pricer.classes }
        ensures limits { self.new.limits ≡ self.old.limits }
        ensures share { self.new.share ≡ self.old.share }
    {
        if self.table.in_stage() {
            match self.table.bland() {
                Some((row, variable)) => self.pivot(row, variable)?,
                None => self.price(rt, alloc, workers, watch)?,
            }
            Ok(true)
        } else if self.table.some_unsettled() {
            self.table.enter_stage();
            Ok(true)
        } else {
            Ok(false)
        }
    }

    // Makes the chosen pivot, if the budget of pivots allows one more.
    fn pivot(&mut self, row: usize, variable: Var) -> Result<(), Refusal>
        requires stands { Stands self.old.pricer.classes (run_limits self.old.limits) self.old.table self.old.pricer.closed }
        requires open { self.old.table.in_stage ≡ true }
        requires chosen { choice self.old.table ≡ Some (row, variable) }
        ensures makes { Makes self.old.share self.old.pricer.classes (run_limits self.old.limits) self.old.table result self.new.table }
        ensures stands { OnOk result (Stands self.new.pricer.classes (run_limits self.new.limits) self.new.table self.new.pricer.closed) }
        ensures classes { self.new.pricer.classes ≡ self.old.pricer.classes }
        ensures limits { self.new.limits ≡ self.old.limits }
        ensures share { self.new.share ≡ self.old.share }
    {
        if self.limits.pivots() <= self.table.pivots() {
            return Err(Refusal::NoPivot);
        }
        Ok(self.table.pivot(row, variable)?)
    }

    // Prices the open row with `workers` workers, if no pivot is chosen. Adds the column that is found, or closes the stage if there is
    // none.
    fn price<R: Threads + Sync, W: Watch + Sync>(
        &mut self,
        rt: &R,
        alloc: Global,
        workers: u32,
        watch: &W,
    ) -> Result<(), Refusal>
        requires some_worker { 1 ≤ workers }
        requires few_workers { workers ≤ 64 }
        requires stands { Stands self.old.pricer.classes (run_limits self.old.limits) self.old.table self.old.pricer.closed }
        requires open { self.old.table.in_stage ≡ true }
        requires done { choice self.old.table ≡ None }
        ensures makes { Makes self.old.share self.old.pricer.classes (run_limits self.old.limits) self.old.table result self.new.table }
        ensures stands { OnOk result (Stands self.new.pricer.classes (run_limits self.new.limits) self.new.table self.new.pricer.closed) }
        ensures classes { self.new.pricer.classes ≡ self.old.pricer.classes }
        ensures limits { self.new.limits ≡ self.old.limits }
        ensures share { self.new.share ≡ self.old.share }
    {
        let row = self.table.row(self.table.open_row());
        let nodes = self.limits.nodes();
        let found = priced_by(
            rt,
            alloc,
            workers,
            watch,
            self.share,
            &self.pricer,
            row,
            nodes,
        )?;
        match found {
            Some(column) => Ok(self.table.add_column(column)?),
            None => Ok(self.close()?),
        }
    }

    // Closes the stage, for which pricing found no composition, and adds its row to the pricer.
    fn close(&mut self) -> Result<(), AllocError>
        requires stands { Stands self.old.pricer.classes (run_limits self.old.limits) self.old.table self.old.pricer.closed }
        requires open { self.old.table.in_stage ≡ true }
        requires done { choice self.old.table ≡ None }
        ensures table { OnOk result (self.new.table ≡ close_stage self.old.table) }
        ensures closed { OnOk result (self.new.pricer.closed ≡ self.old.pricer.closed ++ row_at self.old.table (open_row self.old.table) ∷ []) }
        ensures classes { self.new.pricer.classes ≡ self.old.pricer.classes }
        ensures limits { self.new.limits ≡ self.old.limits }
        ensures share { self.new.share ≡ self.old.share }
    {
        let row = self.table.row(self.table.open_row());
        self.pricer.add_row(row.copy()?)?;
        self.table.close_stage();
        Ok(())
    }
}

// Prices a row with `workers` workers. If `share` is true, they share a bound.
fn priced_by<R: Threads + Sync, W: Watch + Sync>(
    rt: &R,
    alloc: Global,
    workers: u32,
    watch: &W,
    share: bool,
    pricer: &Pricer<'_>,
    row: &Row,
    nodes: u64,
) -> Result<Option<Composition>, SearchStop>
    requires some_worker { 1 ≤ workers }
    requires few_workers { workers ≤ 64 }
    requires entries { HaveEntries pricer.now.classes (row.now ∷ []) }
    requires reach { HaveReach pricer.now.classes (row.now ∷ []) }
    requires positive { pos 0 ≤ℤ row.now.b }
    ensures { Prices share pricer.now.classes pricer.now.closed row.now nodes result }
{
    if share {
        let (found, _) = price_sharing(rt, alloc, workers, watch, pricer, row, nodes)?;
        Ok(found)
    } else {
        let (found, _) = price_by(rt, alloc, workers, watch, pricer, row, nodes)?;
        Ok(found)
    }
}
