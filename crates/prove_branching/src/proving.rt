//! The search as a list of steps that show that there is no whole point.

ghost use Rattle.std.specs.Prelude.{◌≡◌, ◌<◌, IfErr, IfSome, OnOk, length};
ghost use Rattle.prove_table.specs.Sizes.{SameSizes};
ghost use Rattle.prove_branching.specs.Searches.{SearchStops};
ghost use Rattle.prove_limits.specs.Budgets.{SpendsOn};

use crate::nodes::{AtNode, look};
use crate::path::SearchPath;
use crate::refutations::{refutation_of, rows_by_number};
use crate::steps::Step;
use prove_limits::{Budget, ProveStop, Span};
use prove_table::Table;
use std::alloc::Global;

/// Searches all nodes, and returns a step for each: a split if the table's point is not whole, or a refutation if there is no point. A
/// split is followed by the steps of its lower part, and then by those of its upper part. `numbers` has the number of each row. The
/// multiplier of the row of weights, if there is one, becomes the scale. Returns None if some node has a whole point.
pub fn prove_empty(
    alloc: Global,
    table: &mut Table,
    columns: &[Span],
    rows: &[Span],
    numbers: &[usize],
    weight_row: Option<usize>,
    budget: &mut Budget,
) -> Result<Option<Vec<Step>>, ProveStop>
    requires columns { length columns.now ≡ table.old.columns }
    requires rows { length rows.now ≡ table.old.rows }
    requires numbers { length numbers.now ≡ table.old.rows }
    requires weight_row { IfSome weight_row (λ row. row < table.old.rows) }
    ensures sizes { SameSizes table.old table.new }
    ensures looks { OnOk result (budget.new.nodes < budget.old.nodes) }
    ensures spends { SpendsOn budget.old budget.new }
    ensures stops { IfErr result (SearchStops table.new budget.new) }
{
    let order = rows_by_number(alloc, numbers, weight_row)?;
    let mut path = SearchPath::new(alloc, columns)?;
    let mut steps = Vec::new(alloc);
    'nodes: loop {
        budget.take_node()?;
        match look(alloc, table, columns, path.spans(), rows, budget)? {
            AtNode::Whole(_) => return Ok(None),
            AtNode::Broken(split) => {
                steps.push(Step::Split(split.column))?;
                path.enter(split.column, split.below, split.above)?;
            }
            AtNode::Empty => {
                let refutation = table.refutation(alloc)?;
                let refuted = refutation_of(alloc, &refutation, numbers, &order, weight_row)?;
                steps.push(Step::Refuted(refuted))?;
                if !path.turn()? {
                    return Ok(Some(steps));
                }
            }
        }
    }
}
