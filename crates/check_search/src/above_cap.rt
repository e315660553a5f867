//! The search for a quota panel above the cap of a stage, from a pool and stages to a panel.

ghost use Rattle.std.specs.Prelude.{◌≡◌, ◌∷◌, IfOk, IsTrue, length, reverse};
ghost use Rattle.std.specs.List.{list_all};
ghost use Rattle.define_bundles.specs.Ranges.{is_stage};
ghost use Rattle.check_search.specs.Answers.{AnswersAt};
ghost use Rattle.check_search.specs.Terms.{AreOfStage, AreTerms};

use crate::composing::first_panel;
use crate::searching::{CapStop, first_above};
use crate::terms::Terms;
use pool_model::{Panel, Pool, Stage};
use std::alloc::{AllocError, Global};

/// Searches for a quota panel that attains the caps of the earlier stages and weighs more than the cap of the stage. Returns the first one
/// in the order of compositions, or None if there is none. The earlier stages are in their order, the first one first, and each stage is in
/// the ranges of a bundle for the pool. Fails with `Spent` if the search needs more than `nodes` visits, and with `OutOfMemory` if memory
/// runs out.
///
/// Volunteers of equal values, equal standing and equal weights in the stages are of one class; someone who shares a household is in a
/// class alone. The panel has the first members of each class. All memory that the search needs is taken before the first visit.
pub fn panel_above_cap(
    alloc: Global,
    pool: &Pool,
    earlier: &[Stage],
    stage: &Stage,
    nodes: u64,
) -> Result<Option<Panel>, CapStop>
    requires earlier { IsTrue (list_all (is_stage (length pool.now.volunteers)) earlier.now) }
    requires stage { IsTrue (is_stage (length pool.now.volunteers) stage.now) }
    ensures answers { AnswersAt pool.now (reverse earlier.now) stage.now nodes result }
{
    let terms = terms_of(alloc, pool, earlier, stage)?;
    match first_above(alloc, &terms, nodes)? {
        Some(composition) => Ok(Some(first_panel(alloc, &terms.classes, &composition)?)),
        None => Ok(None),
    }
}

/// Returns the classes and rows of a stage after the earlier stages, which are in their order. Each stage is in the ranges of a bundle for
/// the pool.
pub fn terms_of(
    alloc: Global,
    pool: &Pool,
    earlier: &[Stage],
    stage: &Stage,
) -> Result<Terms, AllocError>
    requires earlier { IsTrue (list_all (is_stage (length pool.now.volunteers)) earlier.now) }
    requires stage { IsTrue (is_stage (length pool.now.volunteers) stage.now) }
    ensures terms { IfOk result (λ terms. AreTerms terms) }
    ensures stage { IfOk result (λ terms. AreOfStage pool.now (reverse earlier.now) stage.now terms) }
{
    let latest_first = reversed(alloc, earlier)?;
    Ok(Terms::new(alloc, pool, &latest_first, stage)?)
}

// Returns copies of the stages, the last one first.
fn reversed(alloc: Global, stages: &[Stage]) -> Result<Vec<Stage>, AllocError>
    ensures { IfOk result (λ copies. copies.items ≡ reverse stages.now) }
{
    let mut copies = Vec::with_capacity(alloc, stages.len())?;
    for stage in stages {
        copies.push(stage.copy()?)?;
    }
    copies.reverse();
    Ok(copies)
}
