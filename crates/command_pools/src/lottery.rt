//! The command `lottery`: the bundle of a pool and of the answer that the run finds for it.

ghost use Rattle.std.specs.Prelude.{◌≡◌, IfOk};
ghost use Rattle.std.specs.Thread.{IsSync};
ghost use Rattle.command_shell.specs.Answers.{IsRight, IsTheAnswer, status_number, saying};
ghost use Rattle.command_shell.specs.Formats.{pool_format};
ghost use Rattle.command_shell.specs.Outcomes.{TextOutcome};
ghost use Rattle.command_shell.specs.Subjects.{About};
ghost use Rattle.command_shell.specs.Told.{object, told};
ghost use Rattle.command_meanings.specs.Lottery.{LotteryMeans};
ghost use Rattle.command_meanings.specs.Prove.{lottery_limits as limits_without_words};
ghost use Rattle.command_pools.specs.Found.{EndsSo, TellsStop};
ghost use Rattle.define_bundles.specs.Ranges.{IsInRanges};

use crate::lines::{nodes_spent_line, pivots_spent_line, total_line, wide_line};
use bundle_text::{Bundle, write_bundle};
use command_meanings::lottery_has_one_answer;
use command_shell::{
    Answer, Cause, Meaning, Printed, Resources, Status, call_answered_by, no_panel,
};
use define_runs::{MOST_BITS, Workers};
use laws_of_runs::no_panel_where_none;
use leximin_run::{Limits, Solved, Stop, solve};
use outside::{Sink, Source, Watch};
use pool_model::{Answer as PoolAnswer, Pool};
use std::alloc::{AllocError, Global};
use std::thread::Threads;

/// `lottery`: the leximin greatest lottery over the quota panels of a pool, with its certificate, as the run finds it.
#[derive(Clone, Copy, Debug)]
pub struct Lottery {
    /// How wide the run's numbers may be, and how many pivots and visits it may make.
    pub limits: Limits,
    /// How many workers price, on threads. The answer doesn't depend on it.
    pub workers: Workers,
}

impl Meaning for Lottery {
    type About = Pool;

    ghost use Rattle.command_shell.specs.Answers.{IsTheAnswer};
    ghost use Rattle.command_meanings.specs.Lottery.{LotteryMeans};

    ghost means = { λ command pool. IsTheAnswer (LotteryMeans command.limits pool) };
}

/// Makes one call of `lottery`. A closure answers it, since the run starts threads, which a method of a trait can't do.
pub fn call_lottery<R: Threads + Sync, W: Watch + Sync, S: Source, O: Sink, E: Sink>(
    resources: &Resources<'_, R, W>,
    command: &Lottery,
    source: &mut S,
    out: &mut O,
    errs: &mut E,
) -> Status
    ensures { TextOutcome (About pool_format (λ pool. IsTheAnswer (LotteryMeans command.now.limits pool))) (told (status_number result)
        (object (S.left source.old) (S.left source.new) (S.faults source.old) (S.faults source.new))
        (object (O.written out.old) (O.written out.new) (O.faults out.old) (O.faults out.new))
        (object (E.written errs.old) (E.written errs.new) (E.faults errs.old) (E.faults errs.new))) }
{
    // The resources are taken apart before the closure: Rattle drops the `ensures` of a closure that captures a value whose type names a
    // lifetime.
    let Resources { rt, alloc, watch } = *resources;
    call_answered_by(
        alloc,
        command,
        |pool: &Pool| -> Result<Answer, AllocError>
            requires { IsSync R.row × IsSync W.row }
            ensures { IfOk result (λ answer. IsTheAnswer (LotteryMeans command.entry.now.limits pool.now) (saying answer)) }
        { answered(&Resources { rt, alloc, watch }, command, pool) },
        source,
        out,
        errs,
    )
}

/// Returns the one right answer of `lottery` about `pool`.
fn answered<R: Threads + Sync, W: Watch + Sync>(
    resources: &Resources<'_, R, W>,
    command: &Lottery,
    pool: &Pool,
) -> Result<Answer, AllocError>
    ensures { IfOk result (λ answer. IsTheAnswer (LotteryMeans command.now.limits pool.now) (saying answer)) }
{
    lottery_has_one_answer();
    solved(resources, command.limits, command.workers, pool)
}

/// Runs over `pool`, and returns an answer that is right for how the run ends. `answered` adds that no other is.
fn solved<R: Threads + Sync, W: Watch + Sync>(
    resources: &Resources<'_, R, W>,
    limits: Limits,
    workers: Workers,
    pool: &Pool,
) -> Result<Answer, AllocError>
    ensures { IfOk result (λ answer. IsRight (LotteryMeans limits pool.now) (saying answer)) }
{
    no_panel_where_none();
    let Resources { rt, alloc, watch } = *resources;
    match solve(rt, alloc, pool, limits, workers.number(), watch) {
        Ok(Solved::Found(answer)) => Ok(Answer::Prints {
            printed: Printed::Done,
            text: write_bundle(alloc, pool, &answer)?,
        }),
        Ok(Solved::NoPanel) => no_panel(alloc),
        Err(stop) => stop_answer(alloc, limits, &stop),
    }
}

/// How the run of `lottery` over a pool ends.
#[derive(Debug, Drop)]
pub enum LotteryRun {
    /// It finds a lottery: the bundle of the pool and of the lottery with its stages.
    Found(Bundle),
    /// It finds that there is no quota panel.
    NoPanel,
    /// It stops early. This is what `lottery` answers.
    Stopped(Answer),
}

/// Returns the limits that `lottery` has without words.
pub fn lottery_limits() -> Limits
    ensures { result ≡ limits_without_words }
{
    let Some(limits) = Limits::new(MOST_BITS, 100_000, 50_000_000) else {
        unreachable!()
    };
    limits
}

/// Makes the run of `lottery` over `pool`, on one worker. `prove` goes on with it.
///
/// # Errors
///
/// Want of memory.
pub fn run_lottery<R: Threads + Sync, W: Watch + Sync>(
    resources: &Resources<'_, R, W>,
    limits: Limits,
    pool: &Pool,
) -> Result<LotteryRun, AllocError>
    ensures { IfOk result (EndsSo limits pool.now) }
{
    no_panel_where_none();
    let Resources { rt, alloc, watch } = *resources;
    match solve(rt, alloc, pool, limits, 1, watch) {
        Ok(Solved::Found(answer)) => Ok(LotteryRun::Found(bundle_of(pool.copy()?, answer))),
        Ok(Solved::NoPanel) => Ok(LotteryRun::NoPanel),
        Err(stop) => Ok(LotteryRun::Stopped(stop_answer(alloc, limits, &stop)?)),
    }
}

/// Returns the bundle of a pool and of an answer in its ranges.
fn bundle_of(pool: Pool, answer: PoolAnswer) -> Bundle
    requires { IsInRanges pool answer }
    ensures { result ≡ record { pool = pool; answer = answer } }
{
    let Some(bundle) = Bundle::new(pool, answer) else {
        unreachable!()
    };
    bundle
}

/// Returns the answer for a run that stops early: a number is too wide, or a budget is spent. Want of memory is `Err`. `make` and
/// `lottery --share` use it too.
pub fn stop_answer(alloc: Global, limits: Limits, stop: &Stop) -> Result<Answer, AllocError>
    ensures { IfOk result (λ answer. TellsStop limits stop.now (saying answer)) }
{
    match stop {
        Stop::TooWide(at, pass) => Ok(Answer::Stops {
            cause: Cause::Wide,
            line: wide_line(alloc, at, pass)?,
        }),
        Stop::TotalPasses(_, place, total, den) => Ok(Answer::Stops {
            cause: Cause::Wide,
            line: total_line(alloc, *place, *total, *den)?,
        }),
        Stop::PivotsSpent(at) => Ok(Answer::Stops {
            cause: Cause::Spent,
            line: pivots_spent_line(alloc, limits.pivots(), at)?,
        }),
        Stop::NodesSpent(at) => Ok(Answer::Stops {
            cause: Cause::Spent,
            line: nodes_spent_line(alloc, limits.nodes(), at)?,
        }),
        Stop::OutOfMemory => Err(AllocError),
    }
}
