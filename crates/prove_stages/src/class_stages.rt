//! Stages over columns, and what the ways to find stages share.

ghost use Rattle.std.specs.Prelude.{◌≡◌, length, IfOk};

use crate::chances::Chances;
use crate::fractions::Chance;
use prove_branching::Refutation;
use prove_limits::{Narrow, ProveStop, narrow_add};
use prove_program::Program;
use std::alloc::Global;

/// A stage over columns: a weight for each column, the cap, and a refutation that shows the cap, if there is one.
#[derive(Debug, Drop)]
pub struct ClassStage {
    /// The weight of each column, which each of its members has in the stage.
    pub weights: Vec<Narrow>,
    /// The cap: no panel that attains the earlier caps weighs more.
    pub cap: Narrow,
    /// Multipliers of constraints that show the cap.
    pub shown_by: Option<Refutation>,
}

/// Returns the weights and the cap of a stage in which each unsettled column weighs 1 and each other one 0. The cap is the sum of the
/// greatest numbers in the unsettled columns' spans.
pub(crate) fn everybody_left(
    alloc: Global,
    program: &Program,
    chances: &Chances,
) -> Result<(Vec<Narrow>, Narrow), ProveStop>
    ensures { IfOk result (λ found. length found.0.items ≡ length program.now.firsts) }
{
    let mut weights = Vec::new(alloc);
    let mut cap = Narrow::ZERO;
    for column in 0..program.columns() {
        let is_left = chances.chance(column).is_none();
        if is_left {
            let most = program.spans()[column].greatest();
            cap = narrow_add(cap.wide(), most.wide())?;
        }
        weights.push(one_if(is_left))?;
    }
    Ok((weights, cap))
}

/// Returns 1 if a condition holds, else 0.
pub(crate) fn one_if(holds: bool) -> Narrow {
    if holds { Narrow::ONE } else { Narrow::ZERO }
}

/// Settles each unsettled column whose weight is above 0 at a chance. Stops if a weight above 0 has no column.
pub(crate) fn settle(
    chances: &mut Chances,
    weights: &[Narrow],
    chance: Chance,
) -> Result<(), ProveStop>
    ensures { length chances.new.chances ≡ length chances.old.chances }
{
    for column in 0..weights.len() {
        if chances.chance(column).is_none() && weights[column].get() > 0 {
            chances.settle(column, chance)?;
        }
    }
    Ok(())
}
