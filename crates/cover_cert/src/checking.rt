//! The check of a cover, reason by reason: those of the lottery, then for each stage those before its cap, that of its tree, and that of
//! the listed panels. `check_cover` is the promise.

ghost use Rattle.std.specs.Prelude.{◌≡◌, ◌≤◌, ◌+◌, ◌∷◌, [], IfOk, IsTrue, length, sum_by};
ghost use Rattle.std.specs.List.{list_all};
ghost use Rattle.define_bundles.specs.Ranges.{is_stage};
ghost use Rattle.define_checks.specs.Reasons.{Refused, Valid};
ghost use Rattle.define_covers.specs.CoverVerdict.{tree_fault as fault_of, verdict as verdict_of};
ghost use Rattle.define_pools.specs.Certificate.{Certifies};
ghost use Rattle.define_pools.specs.Lottery.{LeximinGreatest};
ghost use Rattle.define_covers.specs.CoverSteps.{stage_verdict as stage_verdict_of, verdict_from};

use crate::steps::Steps;
use crate::trees::{Fault, tree_fault};
use check_reasons::{Course, Verdict, bundle_line_count, lines_after, lottery_verdict};
use check_search::terms_of;
use cover_text::{Cover, FrontLine, Fronts};
use pool_model::Stage;
use std::alloc::{AllocError, Global};
use std::sync::ledger::Ledger;

/// Returns whether a cover is valid, or why it is refused. The certificate of a valid cover holds, and its lottery is leximin greatest. Each
/// front that is judged takes one step.
pub fn check_cover<L: Ledger>(
    alloc: Global,
    cover: &Cover,
    steps: &mut Steps<L>,
) -> Result<Verdict, AllocError>
    ensures answer { IfOk result (λ verdict. verdict ≡ verdict_of cover.now) }
    ensures certified { IfOk result (λ verdict. verdict ≡ Valid → Certifies cover.now.bundle.pool cover.now.bundle.answer.lottery cover.now.bundle.answer.stages) }
    ensures greatest { IfOk result (λ verdict. verdict ≡ Valid → LeximinGreatest cover.now.bundle.pool cover.now.bundle.answer.lottery) }
    ensures steps { steps.new ≤ steps.old + sum_by (λ lines. length lines) cover.now.trees }
{
    cover.facts();
    cover_verdict(alloc, cover, steps)
}

/// Checks the lottery, and then the stages.
fn cover_verdict<L: Ledger>(
    alloc: Global,
    cover: &Cover,
    steps: &mut Steps<L>,
) -> Result<Verdict, AllocError>
    ensures answer { IfOk result (λ verdict. verdict ≡ verdict_of cover.now) }
    ensures steps { steps.new ≤ steps.old + sum_by (λ lines. length lines) cover.now.trees }
{
    cover.facts();
    let pool = cover.bundle().pool();
    let answer = cover.bundle().answer();
    let verdict = lottery_verdict(alloc, pool, answer.lottery())?;
    if !verdict.is_valid() {
        return Ok(verdict);
    }
    let before = bundle_line_count(pool, answer)?;
    // The 4 further lines are the cover's first, the bundle's last, the one that begins the tree, and the tree's first.
    let first = lines_after(before, 4)?;
    let course = Course::begin(alloc, pool, answer)?;
    let stages = answer.certificate().stages();
    stages_verdict(alloc, course, stages, first, cover.trees(), steps)
}

/// Checks stages, and that they settle everybody. `first` is the number of the first line of the first tree.
fn stages_verdict<L: Ledger>(
    alloc: Global,
    mut course: Course<'_>,
    stages: &[Stage],
    first: usize,
    trees: &[Fronts],
    steps: &mut Steps<L>,
) -> Result<Verdict, AllocError>
    requires first { course.earlier ≡ [] }
    requires all { course.later ≡ stages.now }
    requires ranges { IsTrue (list_all (is_stage (length course.pool.volunteers)) stages.now) }
    requires one_each { length trees.now ≡ length stages.now }
    ensures verdict { IfOk result (λ verdict. verdict ≡ verdict_from course.entry.pool course.entry.lottery [] stages.now first trees.now) }
    ensures steps { steps.new ≤ steps.old + sum_by (λ lines. length lines) trees.now }
{
    let mut number = first;
    for (k, stage) in stages.iter().enumerate() {
        let lines = trees[k].lines();
        let verdict = stage_verdict(alloc, &course, stage, number, lines, steps)?;
        if !verdict.is_valid() {
            return Ok(verdict);
        }
        // one line comes between two trees
        number = lines_after(lines_after(number, lines.len())?, 1)?;
        course.settle();
    }
    course.left(alloc)
}

/// Checks a stage. `number` is the number of the first line of its tree.
fn stage_verdict<L: Ledger>(
    alloc: Global,
    course: &Course<'_>,
    stage: &Stage,
    number: usize,
    lines: &[FrontLine],
    steps: &mut Steps<L>,
) -> Result<Verdict, AllocError>
    requires earlier { IsTrue (list_all (is_stage (length course.now.pool.volunteers)) course.now.earlier) }
    requires stage { IsTrue (is_stage (length course.now.pool.volunteers) stage.now) }
    ensures verdict { IfOk result (λ verdict. verdict ≡ stage_verdict_of course.now.pool course.now.lottery course.now.earlier stage.now number lines.now) }
    ensures steps { steps.new ≤ steps.old + length lines.now }
{
    let verdict = course.before_cap(alloc, stage)?;
    if !verdict.is_valid() {
        return Ok(verdict);
    }
    if let Some(fault) = stage_fault(alloc, course, stage, number, lines, steps)? {
        return refused_line(alloc, course.number(), &fault);
    }
    course.off_cap(alloc, stage)
}

/// Finds the first fault in the lines of a stage's tree. The first line has the number `number`.
fn stage_fault<L: Ledger>(
    alloc: Global,
    course: &Course<'_>,
    stage: &Stage,
    number: usize,
    lines: &[FrontLine],
    steps: &mut Steps<L>,
) -> Result<Option<Fault>, AllocError>
    requires earlier { IsTrue (list_all (is_stage (length course.now.pool.volunteers)) course.now.earlier) }
    requires stage { IsTrue (is_stage (length course.now.pool.volunteers) stage.now) }
    ensures fault { IfOk result (λ fault. fault ≡ fault_of course.now.pool course.now.earlier stage.now number lines.now) }
    ensures steps { steps.new ≤ steps.old + length lines.now }
{
    let terms = terms_of(alloc, course.pool(), course.earlier(), stage)?;
    tree_fault(alloc, &terms, number, lines, steps)
}

/// Returns the verdict that refuses a line.
fn refused_line(alloc: Global, stage: usize, fault: &Fault) -> Result<Verdict, AllocError>
    ensures { IfOk result (λ verdict. verdict ≡ Refused (record { stage = stage; reason = fault.now.reason; who = fault.now.line ∷ [] })) }
{
    Verdict::refused(alloc, stage, fault.reason(), &[fault.line()])
}
