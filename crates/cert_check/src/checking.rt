//! The check, reason by reason: first the reasons of the lottery, then those of each stage.

ghost use Rattle.std.specs.Prelude.{◌≡◌, ◌↔◌, [], length, IfOk, IsTrue};
ghost use Rattle.std.specs.List.{list_all};
ghost use Rattle.define_bundles.specs.Ranges.{IsInRanges, is_stage};
ghost use Rattle.cert_check.specs.Answers.{Answers, cap_answer, stage_answer};
ghost use Rattle.define_checks.specs.Reasons.{Refusal as SeenRefusal, Refused, Valid};
ghost use Rattle.define_checks.specs.Steps.{answer_from};
ghost use Rattle.define_checks.specs.Visits.{check_answer};
ghost use Rattle.define_pools.specs.Certificate.{Certifies};
ghost use Rattle.define_pools.specs.Lottery.{LeximinGreatest};

use crate::stops::CheckStop;
use bundle_text::Bundle;
use check_reasons::{Course, Verdict, lottery_verdict};
use check_search::{CapStop, panel_above_cap};
use pool_model::{Answer, Pool, Stage};
use std::alloc::Global;

/// Returns whether the certificate of a bundle is valid, or why it is refused. Each search may make at most `nodes` visits. If no earlier
/// reason refuses the certificate, `NodesSpent` names the first stage whose search needs more. Valid is answered only if the lottery is
/// leximin greatest.
pub fn check(alloc: Global, bundle: &Bundle, nodes: u64) -> Result<Verdict, CheckStop>
    ensures answer { Answers (check_answer bundle.now.pool bundle.now.answer nodes) result }
    ensures valid { IfOk result (λ verdict. verdict ≡ Valid ↔ Certifies bundle.now.pool bundle.now.answer.lottery bundle.now.answer.stages) }
    ensures greatest { IfOk result (λ verdict. verdict ≡ Valid → LeximinGreatest bundle.now.pool bundle.now.answer.lottery) }
    ensures refused { IfOk result (λ verdict. (refusal : SeenRefusal) → verdict ≡ Refused refusal → ¬ Certifies bundle.now.pool bundle.now.answer.lottery bundle.now.answer.stages) }
{
    answer_verdict(alloc, bundle.pool(), bundle.answer(), nodes)
}

/// Returns the verdict of `check` on an answer over a pool.
fn answer_verdict(
    alloc: Global,
    pool: &Pool,
    answer: &Answer,
    nodes: u64,
) -> Result<Verdict, CheckStop>
    requires { IsInRanges pool.now answer.now }
    ensures { Answers (check_answer pool.now answer.now nodes) result }
{
    let verdict = lottery_verdict(alloc, pool, answer.lottery())?;
    if !verdict.is_valid() {
        return Ok(verdict);
    }
    let course = Course::begin(alloc, pool, answer)?;
    stages_verdict(alloc, course, answer.certificate().stages(), nodes)
}

/// Returns the verdict on the stages, and on whoever is left unsettled after the last one.
fn stages_verdict(
    alloc: Global,
    mut course: Course<'_>,
    stages: &[Stage],
    nodes: u64,
) -> Result<Verdict, CheckStop>
    requires first { course.earlier ≡ [] }
    requires all { course.later ≡ stages.now }
    requires ranges { IsTrue (list_all (is_stage (length course.pool.volunteers)) stages.now) }
    ensures { Answers (answer_from course.entry.pool course.entry.lottery nodes [] stages.now) result }
{
    for stage in stages {
        let verdict = stage_verdict(alloc, &course, stage, nodes)?;
        if !verdict.is_valid() {
            return Ok(verdict);
        }
        course.settle();
    }
    Ok(course.left(alloc)?)
}

/// Returns the verdict on a stage.
fn stage_verdict(
    alloc: Global,
    course: &Course<'_>,
    stage: &Stage,
    nodes: u64,
) -> Result<Verdict, CheckStop>
    requires earlier { IsTrue (list_all (is_stage (length course.now.pool.volunteers)) course.now.earlier) }
    requires stage { IsTrue (is_stage (length course.now.pool.volunteers) stage.now) }
    ensures { Answers (stage_answer course.now.pool course.now.lottery nodes course.now.earlier stage.now) result }
{
    let verdict = course.before_cap(alloc, stage)?;
    if !verdict.is_valid() {
        return Ok(verdict);
    }
    cap_verdict(alloc, course, stage, nodes)
}

/// Returns the verdict on a stage's cap: reason 8 for a quota panel above the cap, else reason 9 for a listed panel whose weight isn't the
/// cap.
fn cap_verdict(
    alloc: Global,
    course: &Course<'_>,
    stage: &Stage,
    nodes: u64,
) -> Result<Verdict, CheckStop>
    requires earlier { IsTrue (list_all (is_stage (length course.now.pool.volunteers)) course.now.earlier) }
    requires stage { IsTrue (is_stage (length course.now.pool.volunteers) stage.now) }
    ensures { Answers (cap_answer course.now.pool course.now.lottery nodes course.now.earlier stage.now) result }
{
    let number = course.number();
    match panel_above_cap(alloc, course.pool(), course.earlier(), stage, nodes) {
        Ok(Some(panel)) => Ok(Verdict::refused(alloc, number, 8, panel.members())?),
        Ok(None) => Ok(course.off_cap(alloc, stage)?),
        Err(CapStop::Spent) => Err(CheckStop::NodesSpent { stage: number }),
        Err(CapStop::OutOfMemory) => Err(CheckStop::OutOfMemory),
    }
}
