//! The search for a point whose weight lies in a span, by a row of weights that is added to the table during the search. The contracts
//! promise what is spent of the budget, the sizes of the table, which stops the calls may return, and that `ceiling` rounds up exactly.

ghost use Rattle.std.specs.Prelude.{◌≡◌, ◌+◌, ◌<◌, ◌≤ℤ◌, pos, IfErr, IfOk, OnOk, length};
ghost use Rattle.prove_table.specs.Sizes.{SameSizes};
ghost use Rattle.prove_branching.specs.Searches.{IsFound, SearchStops, rounded_up};
ghost use Rattle.prove_limits.specs.Budgets.{SpendsOn};
ghost use Rattle.prove_limits.specs.Stops.{IsWideOrMemory};

use crate::searching::{Found, search};
use prove_limits::{Budget, Narrow, ProveStop, Span, narrow_add};
use prove_table::Table;
use std::alloc::Global;

/// Searches as `search` does, for a point whose weight lies in `span` too. During the search the table has a row of the weights, and aims
/// at great weight. After an error the table must not be used further.
pub fn search_weighing(
    alloc: Global,
    table: &mut Table,
    columns: &[Span],
    rows: &[Span],
    weights: &[Narrow],
    span: Span,
    most: u64,
    budget: &mut Budget,
) -> Result<Found, ProveStop>
    requires columns { length columns.now ≡ table.old.columns }
    requires rows { length rows.now ≡ table.old.rows }
    requires weights { length weights.now ≡ table.old.columns }
    ensures found { IfOk result (IsFound columns.now most budget.old budget.new) }
    ensures looks { OnOk result (budget.new.nodes < budget.old.nodes) }
    ensures sizes { OnOk result (SameSizes table.old table.new) }
    ensures spends { SpendsOn budget.old budget.new }
    ensures stops { IfErr result (SearchStops table.new budget.new) }
{
    let mut rows = Vec::from_slice(alloc, rows)?;
    rows.push(span)?;
    add_weights(alloc, table, weights)?;
    let found = search(alloc, table, columns, &rows, most, budget)?;
    table.drop_last_row(budget)?;
    Ok(found)
}

/// Adds a row of weights to a table, and aims the table at great weight. After an error the table must not be used further.
pub fn add_weights(alloc: Global, table: &mut Table, weights: &[Narrow]) -> Result<(), ProveStop>
    requires { length weights.now ≡ table.old.columns }
    ensures ok { OnOk result (table.new ≡ record table.old { rows = table.old.rows + 1 }) }
    ensures stops { IfErr result IsWideOrMemory }
{
    let mut goal = Vec::new(alloc);
    for weight in weights {
        goal.push(weight.get())?;
    }
    table.add_row(weights)?;
    table.aim(&goal, 1)
}

/// Returns the most that a point of values from -1 to 1 can weigh: the sum of the weights' absolute values.
pub fn reach_of(weights: &[Narrow]) -> Result<Narrow, ProveStop>
    ensures { IfErr result IsWideOrMemory }
{
    let mut reach = Narrow::ZERO;
    for weight in weights {
        reach = narrow_add(reach.wide(), weight.abs().wide())?;
    }
    Ok(reach)
}

/// Returns `x / y`, rounded up.
pub fn ceiling(x: i128, y: i128) -> Result<Narrow, ProveStop>
    requires { pos 1 ≤ℤ y }
    ensures value { result ≡ rounded_up x y }
    ensures stops { IfErr result IsWideOrMemory }
{
    let part = x.rem_euclid(y);
    narrow_add(x.div_euclid(y), if part > 0 { 1 } else { 0 })
}
