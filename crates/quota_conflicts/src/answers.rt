//! `why`: a quota panel of a pool, or quotas that can't be met together.

ghost use Rattle.std.specs.Prelude.{IfErr, IfOk, IfSome};
ghost use Rattle.define_quotas.specs.Conflicts.{IsConflict};
ghost use Rattle.prove_limits.specs.Budgets.{SpendsOn};
ghost use Rattle.quota_conflicts.specs.Answers.{IsExplanation, StopsSo};
ghost use Rattle.quota_conflicts.specs.Searches.{IsSearch};

use crate::checks::{Conflict, checked};
use crate::kept::{Kept, counted_by_number, quotas_of};
use crate::lines::{Line, lines_of_tree, nodes_of_lines, used_bounds};
use crate::searches::{Search, Tried};
use crate::shrinking::shrunk;
use define_quotas::{Counted, Side};
use pool_model::{Panel, Pool, fits};
use proof_text::TreeLine;
use prove_limits::{Budget, Limit, ProveStop};
use std::alloc::{AllocError, Global};

/// A quota panel of a pool, or quotas that explain why there is none.
#[derive(Debug, Drop)]
pub enum Explanation {
    /// A quota panel.
    Panel(Panel),
    /// Quotas that can't be met together, so there is no quota panel.
    Conflict(Conflict),
}

/// Returns a quota panel of a pool, or quotas of it that can't be met together, within a budget. `tree` is the tree of a proof that there
/// is no quota panel, or has no lines. If the tree is right, the quotas are among those that it uses. Stops if a limit is spent, an
/// operation passes 2^62, the search is lost, or memory runs out.
pub fn why(
    alloc: Global,
    pool: &Pool,
    tree: &[TreeLine],
    budget: &mut Budget,
) -> Result<Explanation, ProveStop>
    ensures answer { IfOk result (IsExplanation pool.now) }
    ensures spends { SpendsOn budget.old budget.new }
    ensures stops { IfErr result (StopsSo budget.new) }
{
    match answered(alloc, pool, tree, budget) {
        Ok(answer) => Ok(answer),
        Err(stop) => Err(reported(stop, budget)),
    }
}

/// Returns a stop as it is reported: as lost if an entry passed a width below 2^62, if pivots or nodes are left although the stop says
/// that they are spent, or if the stop is `Spent(Lottery)`, as no lottery is sought here.
pub fn reported(stop: ProveStop, budget: &Budget) -> ProveStop
    ensures { StopsSo budget.now result }
{
    match stop {
        ProveStop::BeyondWidth => ProveStop::Lost,
        ProveStop::Spent(Limit::Pivots) if budget.pivots() > 0 => ProveStop::Lost,
        ProveStop::Spent(Limit::Nodes) if budget.nodes() > 0 => ProveStop::Lost,
        ProveStop::Spent(Limit::Lottery) => ProveStop::Lost,
        other => other,
    }
}

fn answered(
    alloc: Global,
    pool: &Pool,
    tree: &[TreeLine],
    budget: &mut Budget,
) -> Result<Explanation, ProveStop>
    ensures answer { IfOk result (IsExplanation pool.now) }
    ensures spends { SpendsOn budget.old budget.new }
{
    let counted = counted_by_number(alloc, pool)?;
    let mut search = Search::by_class(alloc, pool)?;
    let given = lines_of_tree(alloc, tree)?;
    let is_right = conflict_of(alloc, pool, &counted, &given, &[])?.is_some();
    if is_right {
        return shrunk_conflict(alloc, pool, &counted, &mut search, given, budget);
    }
    let all = all_bounds(alloc, counted.len())?;
    match search.try_kept(alloc, pool, &all, u64::MAX, budget)? {
        Tried::Met(panel) => {
            if fits(pool, &panel) {
                Ok(Explanation::Panel(panel))
            } else {
                Err(ProveStop::Lost)
            }
        }
        Tried::Refuted(lines) => {
            shrunk_conflict(alloc, pool, &counted, &mut search, lines, budget)
        }
        Tried::Doubt => Err(ProveStop::Lost),
    }
}

/// Returns both bounds of each constraint.
fn all_bounds(alloc: Global, constraints: usize) -> Result<Vec<Kept>, AllocError> {
    let mut all = Vec::new(alloc);
    for number in 0..constraints {
        for side in [Side::AtLeast, Side::AtMost] {
            all.push(Kept { number, side })?;
        }
    }
    Ok(all)
}

/// Drops bounds from those that a tree's lines use, as long as the rest is still refuted, and returns the conflict of the bounds that are
/// left. Stops as lost if the lines don't show it.
fn shrunk_conflict(
    alloc: Global,
    pool: &Pool,
    counted: &[Counted],
    search: &mut Search,
    lines: Vec<Line>,
    budget: &mut Budget,
) -> Result<Explanation, ProveStop>
    requires { IsSearch search.old }
    ensures answer { IfOk result (IsExplanation pool.now) }
    ensures spends { SpendsOn budget.old budget.new }
{
    let mut witnesses = Vec::new(alloc);
    let fewer = shrunk(
        alloc,
        pool,
        search,
        counted.len(),
        lines,
        &mut witnesses,
        budget,
    )?;
    let found = conflict_of(alloc, pool, counted, &fewer, &witnesses)?;
    match found {
        Some(conflict) => Ok(Explanation::Conflict(conflict)),
        None => Err(ProveStop::Lost),
    }
}

/// Returns the conflict of the bounds that the lines use, or None if the lines don't show that it is a conflict.
fn conflict_of(
    alloc: Global,
    pool: &Pool,
    counted: &[Counted],
    lines: &[Line],
    witnesses: &[Panel],
) -> Result<Option<Conflict>, AllocError>
    ensures { IfOk result (λ found. IfSome found (IsConflict pool.now)) }
{
    let kept = used_bounds(alloc, lines, counted.len())?;
    let quotas = quotas_of(alloc, counted, &kept)?;
    let nodes = nodes_of_lines(alloc, lines, &kept)?;
    checked(alloc, pool, quotas, &nodes, witnesses)
}
