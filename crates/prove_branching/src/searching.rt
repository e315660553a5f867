//! The search for a point of whole numbers, at a limited number of nodes.

ghost use Rattle.std.specs.Prelude.{◌≡◌, ◌<◌, IfOk, IfErr, OnOk, length};
ghost use Rattle.prove_table.specs.Sizes.{SameSizes};
ghost use Rattle.prove_branching.specs.Searches.{IsFound, SearchStops};
ghost use Rattle.prove_limits.specs.Budgets.{SpendsOn};

use crate::nodes::{AtNode, look};
use crate::path::SearchPath;
use prove_limits::{Budget, Narrow, ProveStop, Span};
use prove_table::Table;
use std::alloc::Global;

/// What a search found.
#[derive(Debug, Drop)]
pub enum Found {
    /// A point: a number for each column.
    Point(Vec<Narrow>),
    /// No node has a point, so there is none if the table computed right. The contract of `search` says nothing of this case.
    Nothing,
    /// No point was found at the nodes that the search may look at, and further nodes are left.
    Doubt,
}

/// Searches for a point of whole numbers within these spans of columns and rows, at no more than `most` nodes. If the table's point is
/// not whole, the search splits the column whose value is farthest from a whole number, and enters the part nearer to the value first.
pub fn search(
    alloc: Global,
    table: &mut Table,
    columns: &[Span],
    rows: &[Span],
    most: u64,
    budget: &mut Budget,
) -> Result<Found, ProveStop>
    requires columns { length columns.now ≡ table.old.columns }
    requires rows { length rows.now ≡ table.old.rows }
    ensures found { IfOk result (IsFound columns.now most budget.old budget.new) }
    ensures looks { OnOk result (budget.new.nodes < budget.old.nodes) }
    ensures sizes { SameSizes table.old table.new }
    ensures spends { SpendsOn budget.old budget.new }
    ensures stops { IfErr result (SearchStops table.new budget.new) }
{
    let mut path = SearchPath::new(alloc, columns)?;
    let mut left = most;
    'nodes: loop {
        budget.take_node()?;
        if left == 0 {
            return Ok(Found::Doubt);
        }
        left -= 1;
        match look(alloc, table, columns, path.spans(), rows, budget)? {
            AtNode::Whole(point) => return Ok(Found::Point(point)),
            AtNode::Broken(split) => {
                if split.is_above_nearer {
                    path.enter(split.column, split.above, split.below)?;
                } else {
                    path.enter(split.column, split.below, split.above)?;
                }
            }
            AtNode::Empty => {
                if !path.turn()? {
                    return Ok(Found::Nothing);
                }
            }
        }
    }
}
