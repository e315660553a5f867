//! A check between two stages of a certificate: what it keeps of the lottery and of the stages that it passed, and tests of all reasons of
//! a stage but reason 8, that a quota panel is above the stage's cap.

ghost use Rattle.std.specs.Prelude.{◌≡◌, ◌∷◌, [], ◌+◌, ◌<◌, ◌-◌, ◌≤◌, ◌^◌, ◌||◌, ℕ, false, IfOk, filter, int_lt, length, map, not, option_map, pos, reverse, slice_index_or, sum_by, unsigned_abs};
ghost use Rattle.std.specs.List.{find, range_with_len};
ghost use Rattle.std.specs.Ordering.{int_eq};
ghost use Rattle.define_pools.specs.Certificate.{is_positive, panel_weight as panel_weight_of, weight_of as weight_of_one};
ghost use Rattle.define_pools.specs.Lottery.{TotalAgrees};
ghost use Rattle.define_checks.specs.Reasons.{first_reason, reasons_before_cap, reasons_from};
ghost use Rattle.check_reasons.specs.Courses.{count_reasons, first_count as first_count_of, kept_reasons, off_cap as off_cap_of, passed};

use crate::verdicts::Verdict;
use pool_model::{Answer, Lottery, LotteryRow, Panel, Pool, Stage, chances, panel_weight};
use std::alloc::{AllocError, Global};
use std::marker::Model;

/// A check between two stages: the pool, the lottery, the stages that it passed and those to come, with each volunteer's count and who
/// is settled.
#[derive(Debug, Drop)]
pub struct Course<'a> {
    pool: &'a Pool,
    lottery: &'a Lottery,
    stages: &'a [Stage],
    passed: usize,
    counts: Vec<i128>,
    settled: Vec<bool>,
}

impl<'a> Model for Course<'a> {
    ghost use Rattle.std.specs.Prelude.{◌≤◌, length, reverse, take, drop};
    ghost use Rattle.check_reasons.specs.Courses.{Course as Seen, Keeps};

    ghost Value = { Seen };

    ghost view = { λ c. record { pool = c.pool.now; lottery = c.lottery.now; earlier = reverse (take c.passed c.stages.now); later = drop c.passed c.stages.now } };

    ghost invariant = { λ c. (c.passed ≤ length c.stages.now) × Keeps (record { pool = c.pool.now; lottery = c.lottery.now; earlier = reverse (take c.passed c.stages.now); later = drop c.passed c.stages.now }) c.counts.items c.settled.items };
}

impl<'a> Course<'a> {
    /// Begins a check of an answer, before its first stage. The total of the answer's lottery is the sum of its weights.
    pub fn begin(
        alloc: Global,
        pool: &'a Pool,
        answer: &'a Answer,
    ) -> Result<Course<'a>, AllocError>
        requires { TotalAgrees answer.now.lottery }
        ensures { IfOk result (λ course. course ≡ record { pool = pool.now; lottery = answer.now.lottery; earlier = []; later = answer.now.stages }) }
    {
        let lottery = answer.lottery();
        Ok(Course {
            pool,
            lottery,
            stages: answer.certificate().stages(),
            passed: 0,
            counts: chances(alloc, pool, lottery)?,
            settled: none_marked(alloc, pool.volunteers().len())?,
        })
    }

    /// Returns the pool.
    pub fn pool(&self) -> &'a Pool
        ensures { result.now ≡ self.now.pool }
    {
        self.pool
    }

    /// Returns the stages that the check passed, in their order.
    pub fn earlier(&self) -> &'a [Stage]
        ensures { reverse result.now ≡ self.now.earlier }
    {
        &self.stages[..self.passed]
    }

    /// Returns the number of the next stage, from 1.
    pub fn number(&self) -> usize
        ensures { result ≡ length self.now.earlier + 1 }
    {
        self.earlier().len() + 1
    }

    /// Returns the verdict of the reasons that are tried before the cap of the next stage. Reason 4: somebody unsettled has a weight below
    /// 0. Reason 5: nobody unsettled has one above 0. Reason 6: somebody whom the stage settles has another count than the first whom it
    /// settles. Reason 7: somebody unsettled has a lower count than that first one.
    pub fn before_cap(&self, alloc: Global, stage: &Stage) -> Result<Verdict, AllocError>
        ensures { IfOk result (λ verdict. verdict ≡ first_reason (reasons_before_cap self.now.pool self.now.lottery self.now.earlier stage.now)) }
    {
        let unsettled = unsettled_numbers(alloc, &self.settled)?;
        kept_verdict(alloc, &self.counts, &unsettled, self.number(), stage)
    }

    /// Returns the verdict of reason 9: a listed panel doesn't weigh the cap of the next stage. The absolute values of the stage's cap and
    /// weights sum to at most 2^127 - 1.
    pub fn off_cap(&self, alloc: Global, stage: &Stage) -> Result<Verdict, AllocError>
        requires { unsigned_abs stage.now.cap + sum_by unsigned_abs stage.now.weights ≤ 2 ^ 127 - 1 }
        ensures { IfOk result (λ verdict. verdict ≡ first_reason (off_cap_of self.now stage.now ∷ [])) }
    {
        match first_off_cap(self.lottery.rows(), stage) {
            Some(panel) => Verdict::refused(alloc, self.number(), 9, panel.members()),
            None => Ok(Verdict::valid()),
        }
    }

    /// Passes the next stage: those with a weight above 0 in it are settled.
    pub fn settle(&mut self)
        requires { 0 < length self.old.later }
        ensures { self.new ≡ passed self.old self.old.later }
    {
        let stage = &self.stages[self.passed];
        mark_settled(&mut self.settled, stage);
        self.passed += 1;
    }

    /// Returns the verdict of reason 10, which comes after the last stage: somebody is still unsettled.
    pub fn left(&self, alloc: Global) -> Result<Verdict, AllocError>
        ensures { IfOk result (λ verdict. verdict ≡ first_reason (reasons_from self.now.pool self.now.lottery self.now.earlier [])) }
    {
        match first_unsettled(&self.settled) {
            Some(i) => Verdict::refused(alloc, self.passed, 10, &[i]),
            None => Ok(Verdict::valid()),
        }
    }
}

/// Returns `count` marks, none of them set.
fn none_marked(alloc: Global, count: usize) -> Result<Vec<bool>, AllocError>
    ensures size { IfOk result (λ marks. length marks.items ≡ count) }
    ensures none { IfOk result (λ marks. (i : ℕ) → i < count → slice_index_or marks.items i false ≡ false) }
{
    vec![in alloc; false; count]
}

/// Returns the verdict of reasons 4 to 7, which are tried before the cap, on stage `number`.
fn kept_verdict(
    alloc: Global,
    counts: &[i128],
    unsettled: &[usize],
    number: usize,
    stage: &Stage,
) -> Result<Verdict, AllocError>
    ensures { IfOk result (λ verdict. verdict ≡ first_reason (kept_reasons counts.now unsettled.now number stage.now)) }
{
    let settling = settling_numbers(alloc, unsettled, stage)?;
    if let Some(i) = first_negative(unsettled, stage) {
        return Verdict::refused(alloc, number, 4, &[i]);
    }
    if settling.is_empty() {
        return Verdict::refused(alloc, number, 5, &[]);
    }
    counts_verdict(alloc, counts, unsettled, &settling, number)
}

/// Returns the verdict of reasons 6 and 7, which are about counts, on stage `number`.
fn counts_verdict(
    alloc: Global,
    counts: &[i128],
    unsettled: &[usize],
    settling: &[usize],
    number: usize,
) -> Result<Verdict, AllocError>
    ensures { IfOk result (λ verdict. verdict ≡ first_reason (count_reasons counts.now unsettled.now settling.now number)) }
{
    let shared = first_count(counts, settling);
    if let Some(i) = first_other(counts, settling, shared) {
        return Verdict::refused(alloc, number, 6, &[i]);
    }
    if let Some(i) = first_lower(counts, unsettled, shared) {
        return Verdict::refused(alloc, number, 7, &[i]);
    }
    Ok(Verdict::valid())
}

/// Returns the numbers of the unsettled volunteers, in rising order.
fn unsettled_numbers(alloc: Global, settled: &[bool]) -> Result<Vec<usize>, AllocError>
    ensures { IfOk result (λ numbers. numbers.items ≡ filter (λ i. not (slice_index_or settled.now i false)) (range_with_len 0 (length settled.now))) }
{
    (0..settled.len())
        .filter(|i| !is_settled(settled, *i))
        .collect(alloc)
}

/// Returns the number of the first unsettled volunteer, if there is one.
fn first_unsettled(settled: &[bool]) -> Option<usize>
    ensures { result ≡ find (λ i. not (slice_index_or settled.now i false)) (range_with_len 0 (length settled.now)) }
{
    (0..settled.len()).find(|i| !is_settled(settled, *i))
}

fn is_settled(settled: &[bool], i: usize) -> bool
    ensures { result ≡ slice_index_or settled.now i false }
{
    settled.get(i).copied().unwrap_or(false)
}

/// Returns the numbers of the unsettled volunteers whom the stage settles.
fn settling_numbers(
    alloc: Global,
    unsettled: &[usize],
    stage: &Stage,
) -> Result<Vec<usize>, AllocError>
    ensures { IfOk result (λ numbers. numbers.items ≡ filter (is_positive stage.now) unsettled.now) }
{
    unsettled
        .iter()
        .copied()
        .filter(|i| weight_of(stage, *i) > 0)
        .collect(alloc)
}

fn first_negative(unsettled: &[usize], stage: &Stage) -> Option<usize>
    ensures { result ≡ find (λ i. int_lt (weight_of_one stage.now i) (pos 0)) unsettled.now }
{
    unsettled.iter().copied().find(|i| weight_of(stage, *i) < 0)
}

/// Returns the count of the first volunteer of `settling`, or 0 if there is none.
fn first_count(counts: &[i128], settling: &[usize]) -> i128
    ensures { result ≡ first_count_of counts.now settling.now }
{
    match settling.first() {
        Some(i) => count_at(counts, *i),
        None => 0,
    }
}

fn first_other(counts: &[i128], settling: &[usize], shared: i128) -> Option<usize>
    ensures { result ≡ find (λ i. not (int_eq (slice_index_or counts.now i (pos 0)) shared)) settling.now }
{
    settling
        .iter()
        .copied()
        .find(|i| count_at(counts, *i) != shared)
}

fn first_lower(counts: &[i128], unsettled: &[usize], shared: i128) -> Option<usize>
    ensures { result ≡ find (λ i. int_lt (slice_index_or counts.now i (pos 0)) shared) unsettled.now }
{
    unsettled
        .iter()
        .copied()
        .find(|i| count_at(counts, *i) < shared)
}

fn count_at(counts: &[i128], i: usize) -> i128
    ensures { result ≡ slice_index_or counts.now i (pos 0) }
{
    counts.get(i).copied().unwrap_or(0)
}

/// Returns the weight of volunteer `i`, or 0 if the stage has no weight `i`.
fn weight_of(stage: &Stage, i: usize) -> i128
    ensures { result ≡ weight_of_one stage.now i }
{
    stage.weights().get(i).copied().unwrap_or(0)
}

/// Returns the first listed panel that doesn't weigh the cap, if there is one.
fn first_off_cap<'a>(rows: &'a [LotteryRow], stage: &Stage) -> Option<&'a Panel>
    requires { unsigned_abs stage.now.cap + sum_by unsigned_abs stage.now.weights ≤ 2 ^ 127 - 1 }
    ensures { option_map (λ panel. panel.now) result ≡ find (λ panel. not (int_eq (panel_weight_of stage.now panel) stage.now.cap)) (map (λ row. row.panel) rows.now) }
{
    for row in rows {
        if !weighs_cap(row.panel(), stage) {
            return Some(row.panel());
        }
    }
    None
}

fn weighs_cap(panel: &Panel, stage: &Stage) -> bool
    requires { unsigned_abs stage.now.cap + sum_by unsigned_abs stage.now.weights ≤ 2 ^ 127 - 1 }
    ensures { result ≡ int_eq (panel_weight_of stage.now panel.now) stage.now.cap }
{
    panel_weight(panel, stage) == stage.cap()
}

/// Marks all volunteers with a weight above 0 in the stage.
fn mark_settled(settled: &mut [bool], stage: &Stage)
    ensures { (i : ℕ) → i < length settled.old → slice_index_or settled.new i false ≡ (is_positive stage.now i || slice_index_or settled.old i false) }
{
    for i in 0..settled.len() {
        if weight_of(stage, i) > 0 {
            settled[i] = true;
        }
    }
}
