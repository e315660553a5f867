//! The making of a cover: a check, and then for each stage the lines of its tree. The fronts are gone through one by one: after a live
//! front comes its first child, after any other the next one in the order of the tree. `cover` is the promise.

ghost use Rattle.std.specs.Prelude.{◌≡◌, [], IfOk, IsTrue, length, reverse};
ghost use Rattle.std.specs.List.{list_all};
ghost use Rattle.check_search.specs.Terms.{AreTerms};
ghost use Rattle.cover_cert.specs.Covering.{AnswersCheck, IfCover, refuses};
ghost use Rattle.define_covers.specs.Made.{IsMadeOf};
ghost use Rattle.define_bundles.specs.Ranges.{is_stage};
ghost use Rattle.define_checks.specs.Caps.{first_above};
ghost use Rattle.define_checks.specs.Reasons.{Valid};
ghost use Rattle.define_checks.specs.Visits.{check_answer};
ghost use Rattle.define_covers.specs.Causes.{all_values};
ghost use Rattle.define_covers.specs.CoverRanges.{value_count as values_of};
ghost use Rattle.define_covers.specs.CoverVerdict.{verdict as verdict_of};
ghost use Rattle.define_covers.specs.CoverText.{keep_ranges};
ghost use Rattle.define_pools.specs.Certificate.{is_capped};
ghost use Rattle.define_proofs.specs.CapsHold.{CapsHold};
ghost use Rattle.define_covers.specs.Made.{IsSearched, IsSearchedStage, TreesSearched};

use crate::causes::first_cause;
use crate::order::turned;
use bundle_text::Bundle;
use cert_check::{CheckStop, check};
use check_reasons::Refusal;
use check_search::{Tally, Terms, terms_of};
use cover_text::{Cover, FrontLine, Fronts, value_count};
use pool_model::{Pool, Stage};
use std::alloc::{AllocError, Global};

/// The answer of `cover`.
#[derive(Debug, Drop)]
pub enum Covered {
    /// The certificate is valid, and its cover shows it.
    Cover(Cover),
    /// The certificate is refused.
    Refused {
        /// The number of the stage, from 1, or 0 for the lottery itself.
        stage: usize,
        /// The number of the reason, from 1 to 10, as `check` numbers them.
        reason: u8,
        /// The numbers of the volunteers who show the reason.
        who: Vec<usize>,
    },
}

/// Checks the certificate of a bundle, and returns a cover if it is valid, else why it is refused. Each search of the check may make at most
/// `nodes` visits. The lines of the cover are the fronts that these searches try and don't enter, each with the first cause that applies to
/// it. `check_cover` finds the cover valid. Fails exactly as `check` does: with `NodesSpent`, which names the first stage whose search needs
/// more visits, if no earlier reason refuses the certificate, and with `OutOfMemory` if memory runs out.
pub fn cover(alloc: Global, bundle: &Bundle, nodes: u64) -> Result<Covered, CheckStop>
    ensures answer { AnswersCheck (check_answer bundle.now.pool bundle.now.answer nodes) result }
    ensures made { IfOk result (λ covered. IfCover covered (λ cover. IsMadeOf bundle.now cover)) }
    ensures accepted { IfOk result (λ covered. IfCover covered (λ cover. verdict_of cover ≡ Valid)) }
{
    let verdict = check(alloc, bundle, nodes)?;
    match verdict.refusal() {
        Some(refusal) => Ok(refused(alloc, refusal)?),
        None => Ok(Covered::Cover(cover_of(alloc, bundle)?)),
    }
}

/// Returns the answer that the certificate is refused.
fn refused(alloc: Global, refusal: &Refusal) -> Result<Covered, AllocError>
    ensures { IfOk result (λ covered. refuses covered refusal.now) }
{
    let who = Vec::from_slice(alloc, refusal.who())?;
    Ok(Covered::Refused {
        stage: refusal.stage(),
        reason: refusal.reason(),
        who,
    })
}

/// Returns the cover of a bundle whose caps hold.
fn cover_of(alloc: Global, bundle: &Bundle) -> Result<Cover, AllocError>
    requires { CapsHold bundle.now.pool [] bundle.now.answer.stages }
    ensures { IfOk result (λ cover. IsMadeOf bundle.now cover) }
{
    bundle.facts();
    let stages = bundle.answer().certificate().stages();
    let trees = trees_of(alloc, bundle.pool(), stages)?;
    let copy = bundle.copy()?;
    match Cover::new(copy, trees) {
        Some(cover) => Ok(cover),
        None => unreachable!(),
    }
}

/// Returns the trees of stages whose caps hold.
fn trees_of(alloc: Global, pool: &Pool, stages: &[Stage]) -> Result<Vec<Fronts>, AllocError>
    requires ranges { IsTrue (list_all (is_stage (length pool.now.volunteers)) stages.now) }
    requires capped { CapsHold pool.now [] stages.now }
    ensures one_each { IfOk result (λ trees. length trees.items ≡ length stages.now) }
    ensures searched { IfOk result (λ trees. TreesSearched pool.now [] stages.now trees.items) }
    ensures in_ranges { IfOk result (λ trees. IsTrue (keep_ranges pool.now 0 trees.items)) }
{
    pool.facts();
    let values = value_count(pool);
    let mut trees = Vec::new(alloc);
    for k in 0..stages.len() {
        let tree = tree_of(alloc, pool, &stages[..k], &stages[k], values)?;
        trees.push(tree)?;
    }
    Ok(trees)
}

/// Returns the tree of a stage whose cap holds, after the earlier stages, which are in their order. The pool has `values` values in all
/// categories.
fn tree_of(
    alloc: Global,
    pool: &Pool,
    earlier: &[Stage],
    stage: &Stage,
    values: usize,
) -> Result<Fronts, AllocError>
    requires earlier { IsTrue (list_all (is_stage (length pool.now.volunteers)) earlier.now) }
    requires stage { IsTrue (is_stage (length pool.now.volunteers) stage.now) }
    requires values { values ≡ values_of pool.now }
    requires capped { IsTrue (is_capped pool.now (reverse earlier.now) stage.now) }
    ensures { IfOk result (λ lines. IsSearchedStage pool.now (reverse earlier.now) stage.now lines) }
{
    let terms = terms_of(alloc, pool, earlier, stage)?;
    Ok(Fronts::new(lines_of(alloc, &terms, values)?))
}

/// Returns the lines of a search that finds nothing. The classes have `values` values in all categories. A front that is live is followed by
/// its first child, and any other is a line.
fn lines_of(alloc: Global, terms: &Terms, values: usize) -> Result<Vec<FrontLine>, AllocError>
    requires terms { AreTerms terms.now }
    requires values { values ≡ length (all_values terms.now.classes) }
    requires none { first_above terms.now.classes terms.now.closed.items terms.now.row ≡ None }
    ensures { IfOk result (λ lines. IsSearched terms.now.classes terms.now.closed.items terms.now.row lines.items) }
{
    let classes = &terms.classes;
    classes.facts();
    let mut tally = Tally::new(alloc, classes)?;
    let mut lines = Vec::new(alloc);
    let mut front = Vec::new(alloc);
    'fronts: for _ in 0..u64::MAX {
        match first_cause(terms, values, &mut tally, &front) {
            None => front.push(classes.class_at(front.len()).most())?,
            Some(cause) => {
                let next = turned(alloc, classes.classes(), &front)?;
                lines.push(FrontLine::new(front, cause))?;
                match next {
                    None => return Ok(lines),
                    Some(next) => front = next,
                }
            }
        }
    }
    // After so many turns there would be more lines than memory holds.
    Err(AllocError)
}
