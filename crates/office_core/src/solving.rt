//! Answers of open rounds: by the stated run, or by a proof.

ghost use Rattle.std.specs.Prelude.{◌≡◌, ◌≤◌, true, IfOk};
ghost use Rattle.define_bundles.specs.Ranges.{IsInRanges};
ghost use Rattle.define_offices.specs.Deciding.{Finds, answered as answered_so, is_same_pool as are_same, keep_in, proof_pool};
ghost use Rattle.define_offices.specs.Lines.{one_line, solved_line};
ghost use Rattle.define_offices.specs.Pools.{pool_of as pool_of_round};
ghost use Rattle.define_offices.specs.Commands.{Solve as SolveCommand};
ghost use Rattle.define_offices.specs.Tables.{named_round};
ghost use Rattle.office_core.specs.Deciding.{Decides, RunsOnlyIf, Says, TellsPool, stop_of_run};
ghost use Rattle.office_steps.specs.Replies.{seen_reply};

use crate::stops::DecideStop;
use bundle_text::Bundle;
use check_proofs::verify;
use define_runs::Limits;
use itoa::Buffer;
use leximin_run::{Solved, Stop, solve};
use office_steps::pools::{PoolStop, pool_of};
use office_steps::{Refusal, Reply, line, no_round, round_named};
use office_tables::{Change, Tables};
use outside::Watch;
use pool_model::{Answer, Pool};
use pool_text::write_pool;
use proof_text::{Parts, Proof};
use std::alloc::{AllocError, Global};
use std::thread::Threads;

/// Returns the outcome of a solve of a round.
pub(crate) fn solve_round<R: Threads + Sync, W: Watch + Sync>(
    rt: &R,
    alloc: Global,
    tables: &Tables,
    number: usize,
    limits: Limits,
    workers: u32,
    watch: &W,
) -> Result<(Option<Change>, Reply), DecideStop>
    requires some_worker { 1 ≤ workers }
    requires few_workers { workers ≤ 64 }
    ensures { Decides tables.now (SolveCommand number limits) result }
{
    let Some(round) = round_named(tables, number) else {
        return Err(DecideStop::Refused(no_round(tables)));
    };
    if let Some(bundle) = round.bundle() {
        return Ok((None, solved_reply(alloc, number, bundle)?));
    }
    let pool = round_pool(alloc, tables, number)?;
    match solve(rt, alloc, &pool, limits, workers, watch) {
        Ok(Solved::Found(answer)) => answered(alloc, number, pool, answer),
        Ok(Solved::NoPanel) => Ok((None, Reply::NoPanel)),
        Err(stop) => Err(run_stopped(stop)),
    }
}

/// Returns the stop of `decide` for a stop of the run.
fn run_stopped(stop: Stop) -> DecideStop
    ensures { result ≡ stop_of_run stop }
{
    match stop {
        Stop::OutOfMemory => DecideStop::OutOfMemory,
        _ => DecideStop::Solve(stop),
    }
}

/// Returns the outcome of keeping a proof for a round.
pub(crate) fn keep_proof(
    alloc: Global,
    tables: &Tables,
    number: usize,
    proof: &Proof,
) -> Result<(Option<Change>, Reply), DecideStop>
    ensures says { Says (keep_in tables.now number proof.now (named_round tables.now.rounds number)) result }
    ensures no_run { RunsOnlyIf ⊥ result }
{
    let Some(round) = round_named(tables, number) else {
        return Err(DecideStop::Refused(no_round(tables)));
    };
    if let Some(bundle) = round.bundle() {
        return Ok((None, solved_reply(alloc, number, bundle)?));
    }
    let pool = round_pool(alloc, tables, number)?;
    let verdict = verify(alloc, proof)?;
    if !verdict.is_valid() {
        return Err(DecideStop::Unproved(verdict));
    }
    if !is_over(alloc, proof, &pool)? {
        return Err(DecideStop::Refused(Refusal::OtherPool { round: number }));
    }
    match proof.parts() {
        Parts::Lottery(bundle, _) => keep_answer(alloc, number, pool, bundle),
        Parts::NoPanel(_, _) => Ok((None, Reply::NoPanel)),
    }
}

/// True if the pool of a proof is this one.
fn is_over(alloc: Global, proof: &Proof, pool: &Pool) -> Result<bool, AllocError>
    ensures { IfOk result (λ is_over. is_over ≡ are_same (proof_pool proof.now) pool.now) }
{
    match proof.parts() {
        Parts::Lottery(bundle, _) => is_same_pool(alloc, bundle.pool(), pool),
        Parts::NoPanel(of, _) => is_same_pool(alloc, of, pool),
    }
}

/// Returns the reply and the change if round `number`, which is open and has the pool `pool`, keeps the answer of `bundle`. The pool of
/// `bundle` is the same.
fn keep_answer(
    alloc: Global,
    number: usize,
    pool: Pool,
    bundle: &Bundle,
) -> Result<(Option<Change>, Reply), DecideStop>
    requires { are_same bundle.now.pool pool ≡ true }
    ensures says { Says (answered_so number pool (Finds bundle.now.answer)) result }
    ensures no_run { RunsOnlyIf ⊥ result }
{
    bundle.facts();
    pool.facts();
    let answer = bundle.answer().copy()?;
    answered(alloc, number, pool, answer)
}

/// Returns the pool of round `number`, or why there is none.
fn round_pool(alloc: Global, tables: &Tables, number: usize) -> Result<Pool, DecideStop>
    ensures { TellsPool (pool_of_round tables.now number) result }
{
    match pool_of(alloc, tables, number) {
        Ok(pool) => Ok(pool),
        Err(PoolStop::NoRound { last }) => Err(DecideStop::Refused(Refusal::NoRound { last })),
        Err(PoolStop::Incomplete { what }) => {
            Err(DecideStop::Refused(Refusal::Incomplete { what }))
        }
        Err(PoolStop::OutOfMemory) => Err(DecideStop::OutOfMemory),
    }
}

/// Returns the reply and the change if round `number`, which is open and has the pool `pool`, gets the answer `answer`.
fn answered(
    alloc: Global,
    number: usize,
    pool: Pool,
    answer: Answer,
) -> Result<(Option<Change>, Reply), DecideStop>
    requires { IsInRanges pool answer }
    ensures says { Says (answered_so number pool (Finds answer)) result }
    ensures no_run { RunsOnlyIf ⊥ result }
{
    match Bundle::new(pool, answer) {
        Some(bundle) => {
            let reply = solved_reply(alloc, number, &bundle)?;
            let change = Change::Solved {
                round: number,
                bundle,
            };
            Ok((Some(change), reply))
        }
        None => Err(DecideStop::OutOfMemory),
    }
}

/// Returns the reply to an answer of round `number`: how many panels its lottery has, and its total.
fn solved_reply(alloc: Global, number: usize, bundle: &Bundle) -> Result<Reply, AllocError>
    ensures { IfOk result (λ reply. seen_reply reply ≡ one_line (solved_line number bundle.now)) }
{
    let lottery = bundle.answer().lottery();
    let (mut round, mut panels, mut total) = (Buffer::new(), Buffer::new(), Buffer::new());
    line(
        alloc,
        b"solved",
        &[
            round.format(number).as_bytes(),
            panels.format(lottery.rows().len()).as_bytes(),
            total.format(lottery.total()).as_bytes(),
        ],
    )
}

/// True if both pools are the same. Compares their texts, since no two pools have the same text.
fn is_same_pool(alloc: Global, one: &Pool, other: &Pool) -> Result<bool, AllocError>
    ensures { IfOk result (λ same. same ≡ are_same one.now other.now) }
{
    let one = write_pool(alloc, one)?;
    let other = write_pool(alloc, other)?;
    Ok(one.as_slice() == other.as_slice())
}
