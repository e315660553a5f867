//! The check of a proof, reason by reason: the reasons of the lottery, and then for each stage the reasons before its cap, the reach of its
//! numbers, the reasons of its tree, and those of the listed panels. `verify` is the promise; the other functions are helpers.

ghost use Rattle.std.specs.Prelude.{◌≡◌, ◌∷◌, [], IfOk, IsTrue, List, length, map, pos};
ghost use Rattle.std.specs.List.{list_all};
ghost use Rattle.define_proofs.specs.LeafSums.{is_stage_in_reach};
ghost use Rattle.define_proofs.specs.Leaves.{no_panel as no_panel_of};
ghost use Rattle.define_proofs.specs.ProofSteps.{or_next, verdict_from};
ghost use Rattle.define_proofs.specs.ProofVerdict.{OfLottery, OfNoPanel, listed_reasons, tree_reasons, verdict as verdict_of};
ghost use Rattle.define_proofs.specs.TreeLines.{TreeLine as SeenLine};
ghost use Rattle.define_proofs.specs.TreeRanges.{is_tree_line};
ghost use Rattle.define_bundles.specs.Ranges.{is_stage};
ghost use Rattle.define_checks.specs.Reasons.{Refused, Valid, first_reason, reasons_before_cap};
ghost use Rattle.define_pools.specs.Certificate.{Answer as SeenAnswer, Certifies};
ghost use Rattle.define_pools.specs.Lottery.{LeximinGreatest};
ghost use Rattle.define_pools.specs.Pool.{IsPool, Pool as SeenPool, panels};
ghost use Rattle.define_proofs.specs.ProofText.{IsLotteryProof};
ghost use Rattle.check_proofs.specs.Kept.{AreConstraintsOf};

use crate::constraints::{Constraints, shared_households};
use crate::leaves::Problem;
use crate::trees::{Fault, tree_fault};
use check_reasons::{
    Course, Verdict, bundle_line_count, lines_after, lottery_verdict, pool_line_count,
};
use pool_model::{Answer, Pool, Stage, Volunteer};
use proof_text::{Parts, Proof, TreeLine, TreeLines};
use std::alloc::{AllocError, Global};

/// The greatest reach of a stage, which is the sum of the absolute values of its cap and weights: 2^56.
const MAX_REACH: u128 = 72_057_594_037_927_936;

/// Returns whether a proof is valid, or why it is refused. The lottery of a valid proof is leximin greatest. If a valid proof says that a
/// pool has no quota panel, the pool has none.
pub fn verify(alloc: Global, proof: &Proof) -> Result<Verdict, AllocError>
    ensures answer { IfOk result (λ verdict. verdict ≡ verdict_of proof.now) }
    ensures greatest { IfOk result (λ verdict. verdict ≡ Valid → (pool : SeenPool) (answer : SeenAnswer) (trees : List (List SeenLine)) →
        proof.now ≡ OfLottery pool answer trees → LeximinGreatest pool answer.lottery × Certifies pool answer.lottery answer.stages) }
    ensures none { IfOk result (λ verdict. verdict ≡ Valid → (pool : SeenPool) (lines : List SeenLine) → proof.now ≡ OfNoPanel pool lines → panels pool ≡ []) }
{
    proof.facts();
    match proof.parts() {
        Parts::Lottery(bundle, trees) => {
            of_lottery(alloc, bundle.pool(), bundle.answer(), trees)
        }
        Parts::NoPanel(pool, lines) => of_no_panel(alloc, pool, lines.lines()),
    }
}

/// Checks a lottery with its stages and their trees.
fn of_lottery(
    alloc: Global,
    pool: &Pool,
    answer: &Answer,
    trees: &[TreeLines],
) -> Result<Verdict, AllocError>
    requires { IsLotteryProof pool.now answer.now trees.now }
    ensures { IfOk result (λ verdict. verdict ≡ verdict_of (OfLottery pool.now answer.now trees.now)) }
{
    let verdict = lottery_verdict(alloc, pool, answer.lottery())?;
    if !verdict.is_valid() {
        return Ok(verdict);
    }
    let before = bundle_line_count(pool, answer)?;
    // The 4 further lines are the proof's first, the bundle's last, the one that begins the tree, and the tree's first.
    let first = lines_after(before, 4)?;
    let course = Course::begin(alloc, pool, answer)?;
    stages_verdict(alloc, course, answer.certificate().stages(), first, trees)
}

/// Checks stages, and that they settle everybody. `first` is the number of the first line of the first tree.
fn stages_verdict(
    alloc: Global,
    mut course: Course<'_>,
    stages: &[Stage],
    first: usize,
    trees: &[TreeLines],
) -> Result<Verdict, AllocError>
    requires pool { IsPool course.pool }
    requires first { course.earlier ≡ [] }
    requires all { course.later ≡ stages.now }
    requires ranges { IsTrue (list_all (is_stage (length course.pool.volunteers)) stages.now) }
    requires one_each { length trees.now ≡ length stages.now }
    requires lines { IsTrue (list_all (λ lines. list_all (is_tree_line (length course.pool.volunteers)) lines) trees.now) }
    ensures { IfOk result (λ verdict. verdict ≡ verdict_from course.entry.pool course.entry.lottery [] stages.now first trees.now) }
{
    let households = shared_households(alloc, course.pool().volunteers())?;
    let mut constraints = Constraints::of_first(alloc, course.pool(), &households)?;
    let mut number = first;
    for (k, stage) in stages.iter().enumerate() {
        let lines = trees[k].lines();
        let verdict = stage_verdict(alloc, &course, &constraints, stage, number, lines)?;
        if !verdict.is_valid() {
            return Ok(verdict);
        }
        constraints.pass(stage)?;
        // one line comes between two trees
        number = lines_after(lines_after(number, lines.len())?, 1)?;
        course.settle();
    }
    course.left(alloc)
}

/// Checks a stage. `number` is the number of the first line of its tree.
fn stage_verdict(
    alloc: Global,
    course: &Course<'_>,
    constraints: &Constraints<'_>,
    stage: &Stage,
    number: usize,
    lines: &[TreeLine],
) -> Result<Verdict, AllocError>
    requires pool { IsPool course.now.pool }
    requires earlier { IsTrue (list_all is_stage_in_reach course.now.earlier) }
    requires constraints { AreConstraintsOf course.now.pool course.now.earlier constraints.now.rows.items constraints.now.next }
    requires lines { IsTrue (list_all (is_tree_line (length course.now.pool.volunteers)) lines.now) }
    ensures { IfOk result (λ verdict. verdict ≡
        or_next (first_reason (reasons_before_cap course.now.pool course.now.lottery course.now.earlier stage.now))
        (or_next (first_reason (tree_reasons course.now.pool course.now.earlier stage.now number lines.now))
        (first_reason (listed_reasons course.now.lottery course.now.earlier stage.now)))) }
{
    let verdict = course.before_cap(alloc, stage)?;
    if !verdict.is_valid() {
        return Ok(verdict);
    }
    if !is_in_reach(stage) {
        return Verdict::refused(alloc, course.number(), 13, &[]);
    }
    let problem = Problem::new(constraints.rows(), stage);
    if let Some(fault) = tree_fault(alloc, &problem, course.pool(), number, lines)? {
        return refused_line(alloc, course.number(), &fault);
    }
    course.off_cap(alloc, stage)
}

/// Returns the verdict that refuses a line.
fn refused_line(alloc: Global, stage: usize, fault: &Fault) -> Result<Verdict, AllocError>
    ensures { IfOk result (λ verdict. verdict ≡ Refused (record { stage = stage; reason = fault.now.reason; who = fault.now.line ∷ [] })) }
{
    Verdict::refused(alloc, stage, fault.reason(), &[fault.line()])
}

/// True if the stage's numbers are within reach: its reach, which is the sum of the absolute values of its cap and weights, is at most
/// 2^56.
pub fn is_in_reach(stage: &Stage) -> bool
    ensures { result ≡ is_stage_in_reach stage.now }
{
    let mut reach = stage.cap().unsigned_abs();
    for weight in stage.weights() {
        reach = reach.saturating_add(weight.unsigned_abs());
    }
    reach <= MAX_REACH
}

/// Checks lines that are to show that a pool has no quota panel.
fn of_no_panel(alloc: Global, pool: &Pool, lines: &[TreeLine]) -> Result<Verdict, AllocError>
    requires pool { IsPool pool.now }
    requires lines { IsTrue (list_all (is_tree_line (length pool.now.volunteers)) lines.now) }
    ensures { IfOk result (λ verdict. verdict ≡ verdict_of (OfNoPanel pool.now lines.now)) }
{
    let households = shared_households(alloc, pool.volunteers())?;
    let constraints = Constraints::of_first(alloc, pool, &households)?;
    let stage = no_panel(alloc, pool)?;
    let before = pool_line_count(pool)?;
    // The 4 further lines are the proof's first, the line `none`, the one that begins the tree, and the tree's first.
    let first = lines_after(before, 4)?;
    let problem = Problem::new(constraints.rows(), &stage);
    match tree_fault(alloc, &problem, pool, first, lines)? {
        Some(fault) => refused_line(alloc, 0, &fault),
        None => Ok(Verdict::valid()),
    }
}

/// Returns a stage in which each panel weighs 0, and the cap is -1.
fn no_panel(alloc: Global, pool: &Pool) -> Result<Stage, AllocError>
    ensures { IfOk result (λ stage. stage ≡ no_panel_of pool.now) }
{
    Ok(Stage::new(zeros(alloc, pool.volunteers())?, -1))
}

/// Returns a 0 for each volunteer.
fn zeros(alloc: Global, volunteers: &[Volunteer]) -> Result<Vec<i128>, AllocError>
    ensures { IfOk result (λ zeros. zeros.items ≡ map (λ volunteer. pos 0) volunteers.now) }
{
    volunteers.iter().map(|_volunteer| 0).collect(alloc)
}
