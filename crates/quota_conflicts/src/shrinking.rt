//! Fewer quotas: tries to drop each bound in turn from a list of bounds that no selection meets. A bound is dropped if a search shows that
//! no selection meets the rest either.

ghost use Rattle.prove_limits.specs.Budgets.{SpendsOn};
ghost use Rattle.quota_conflicts.specs.Searches.{IsSearch};

use crate::kept::{Kept, SIZE, is_kept, without};
use crate::lines::{Line, used_bounds};
use crate::searches::{Search, Tried};
use define_quotas::Side;
use pool_model::{Panel, Pool};
use prove_limits::{Budget, ProveStop};
use std::alloc::{AllocError, Global};

/// The most bounds that are tried. A pool has at most 5,001 constraints before its first stage, each with two bounds.
const MOST_TRIES: usize = 10_002;

/// The most nodes at which a search looks for a selection that meets all bounds but one.
const MOST_NODES: u64 = 400;

/// Returns the lines of a tree that uses as few bounds as the searches find, and adds to `witnesses` selections that meet all of these
/// bounds but one. If the size isn't among the bounds, also looks for selections of the panel's size.
/// If the budget is spent or a search stops for another reason, returns the lines found so far. Fails only if memory runs out.
pub(crate) fn shrunk(
    alloc: Global,
    pool: &Pool,
    search: &mut Search,
    constraints: usize,
    lines: Vec<Line>,
    witnesses: &mut Vec<Panel>,
    budget: &mut Budget,
) -> Result<Vec<Line>, AllocError>
    requires { IsSearch search.old }
    ensures { SpendsOn budget.old budget.new }
{
    let mut lines = lines;
    let mut place = 0;
    for _ in 0..MOST_TRIES {
        let kept = used_bounds(alloc, &lines, constraints)?;
        if place >= kept.len() {
            break;
        }
        let others = without(alloc, &kept, place)?;
        match search.try_kept(alloc, pool, &others, MOST_NODES, budget) {
            Ok(Tried::Met(witness)) => {
                witnesses.push(witness)?;
                push_of_size(alloc, search, others, witnesses, budget)?;
                place += 1;
            }
            Ok(Tried::Refuted(fewer)) => lines = fewer,
            Ok(Tried::Doubt) => place += 1,
            Err(ProveStop::OutOfMemory) => return Err(AllocError),
            Err(_) => break,
        }
    }
    Ok(lines)
}

/// Adds a selection of the panel's size that meets the kept bounds, if the size isn't among these and a selection is found. If the search
/// stops early, adds nothing. Fails only if memory runs out.
fn push_of_size(
    alloc: Global,
    search: &mut Search,
    kept: Vec<Kept>,
    witnesses: &mut Vec<Panel>,
    budget: &mut Budget,
) -> Result<(), AllocError>
    requires { IsSearch search.old }
    ensures search { IsSearch search.new }
    ensures spends { SpendsOn budget.old budget.new }
{
    if is_kept(&kept, SIZE, Side::AtLeast) || is_kept(&kept, SIZE, Side::AtMost) {
        return Ok(());
    }
    let mut sized = kept;
    for side in [Side::AtLeast, Side::AtMost] {
        sized.push(Kept { number: SIZE, side })?;
    }
    match search.selection(alloc, &sized, MOST_NODES, budget) {
        Ok(Some(witness)) => witnesses.push(witness)?,
        Err(ProveStop::OutOfMemory) => return Err(AllocError),
        Ok(None) | Err(_) => {}
    }
    Ok(())
}
