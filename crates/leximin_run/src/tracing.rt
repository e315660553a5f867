//! The legs of a run, kept while it makes its steps.

ghost use Rattle.std.specs.Prelude.{◌≡◌, ◌<◌, ◌-◌, ◌^◌, OnOk, sum_by};
ghost use Rattle.define_legs.specs.Legs.{legs_after, with_pivot};
ghost use Rattle.define_rows.specs.Table.{Table as TableOf};
ghost use Rattle.leximin_run.specs.Tracing.{counts_in};

use define_legs::Leg;
use exact_table::Table;
use std::alloc::AllocError;

// The numbers of a table, by which its next step is told: how many stages were entered, how many columns it has, and how many pivots were
// made.
#[derive(Clone, Copy, Debug)]
pub(crate) struct Counts {
    stages: usize,
    columns: usize,
    pivots: u64,
}

impl Counts {
    // Returns the numbers of a table.
    pub(crate) fn of(table: &Table) -> Counts
        ensures { result ≡ counts_in table.now }
    {
        Counts {
            stages: table.stage(),
            columns: table.columns().len(),
            pivots: table.pivots(),
        }
    }

    // Counts the step from the table of these numbers to `made`: a pivot in the last leg; or a new leg, if the step entered a stage or added
    // a column.
    pub(crate) fn count_step(self, legs: &mut Vec<Leg>, made: &Table) -> Result<(), AllocError>
        requires few { sum_by (λ leg. leg.pivots) legs.old.items < 2 ^ 64 - 1 }
        ensures { OnOk result ((table : TableOf) → self ≡ counts_in table → legs.new.items ≡ legs_after legs.old.items table made.now) }
    {
        let after = Counts::of(made);
        if self.pivots < after.pivots {
            count_pivot(legs);
        } else if self.stages < after.stages || self.columns < after.columns {
            legs.push(Leg {
                stages: after.stages,
                columns: after.columns,
                pivots: 0,
            })?;
        }
        Ok(())
    }
}

// Counts one pivot more in the last leg.
fn count_pivot(legs: &mut [Leg])
    requires few { sum_by (λ leg. leg.pivots) legs.old < 2 ^ 64 - 1 }
    ensures { legs.new ≡ with_pivot legs.old }
{
    if let Some(leg) = legs.last_mut() {
        leg.pivots += 1;
    }
}
