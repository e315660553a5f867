//! One call of `prove` over a store: a proof is made of the pool of an open round, and given to the office. Where none is made, the round
//! is solved.

ghost use Rattle.std.specs.Prelude.{◌≡◌, IfOk, IfSome, Result};
ghost use Rattle.command_shell.specs.Told.{Bytes, IsUntouched, object, told};
ghost use Rattle.command_shell.specs.Answers.{status_number};
ghost use Rattle.define_offices.specs.Commands.{Refusal};
ghost use Rattle.define_offices.specs.Tables.{named_round};
ghost use Rattle.define_pools.specs.Pool.{Pool as SeenPool};
ghost use Rattle.office_steps.specs.Told.{TellsPool};
ghost use Rattle.command_meanings.specs.ProvedRounds.{IsOpenWith, ProvesRound};
ghost use Rattle.command_stores.specs.OpenRounds.{IsIfAny, TellsOpen, is_open as is_open_now};
ghost use Rattle.command_stores.specs.StoreOutcomes.{Settles, SettlesLoaded, SilentStoreOutcome};
ghost use Rattle.command_stores.specs.StoreTold.{keeper_told, store_told};

use crate::calling::{load_at, tell_settled};
use crate::steps::settle_over;
use command_pools::lottery_limits;
use command_proofs::{Made, Prove, proof_within};
use command_shell::{Answer, Resources, Status};
use office_core::{Command, Keeper, KeeperStop, PoolStop, Tables, pool_of};
use office_steps::pools::round_named;
use outside::{Sink, Watch};
use pool_model::Pool;
use prove_limits::Budget;
use std::alloc::{AllocError, Global};
use std::thread::Threads;

/// A proof that is to be made for a round.
#[derive(Clone, Copy, Debug)]
pub struct ProveRound {
    /// The round's number, counted from 1.
    pub round: usize,
    /// The budget of the run that makes the proof.
    pub prove: Prove,
}

/// Makes one call of `prove` over the store at `path`. If the round is open and has a pool, a proof of the pool is made and given to the
/// office. If there is no such pool, or no proof is made, the answer is that of a solve with the limits that it has without words.
pub fn call_prove_round<R: Threads + Sync, W: Watch + Sync, K: Keeper, O: Sink, E: Sink>(
    resources: &Resources<'_, R, W>,
    proving: ProveRound,
    path: &str,
    keeper: &mut K,
    out: &mut O,
    errs: &mut E,
) -> Status
    ensures { (source : Bytes) → IsUntouched source → SilentStoreOutcome path.now (ProvesRound proving.round) (store_told
        (told (status_number result) source
        (object (O.written out.old) (O.written out.new) (O.faults out.old) (O.faults out.new))
        (object (E.written errs.old) (E.written errs.new) (E.faults errs.old) (E.faults errs.new)))
        (keeper_told (object (K.tables keeper.old) (K.tables keeper.new) (K.faults keeper.old) (K.faults keeper.new)) (K.course keeper.old) (K.course keeper.new))) }
{
    let settled = settle_proof(resources, proving, path, keeper);
    tell_settled(&settled, out, errs)
}

/// Attaches the keeper, proves the round over its tables, and returns the answer.
fn settle_proof<R: Threads + Sync, W: Watch + Sync, K: Keeper>(
    resources: &Resources<'_, R, W>,
    proving: ProveRound,
    path: &str,
    keeper: &mut K,
) -> Result<Answer, KeeperStop>
    ensures { Settles path.now (ProvesRound proving.round)
        (keeper_told (object (K.tables keeper.old) (K.tables keeper.new) (K.faults keeper.old) (K.faults keeper.new)) (K.course keeper.old) (K.course keeper.new)) result }
{
    let tables = load_at(resources.alloc, path, keeper)?;
    prove_over(resources, proving, &tables, keeper)
}

/// Proves the round over tables that were loaded from the keeper, and returns the answer.
fn prove_over<R: Threads + Sync, W: Watch + Sync, K: Keeper>(
    resources: &Resources<'_, R, W>,
    proving: ProveRound,
    tables: &Tables,
    keeper: &mut K,
) -> Result<Answer, KeeperStop>
    requires loaded { IfSome (K.tables keeper.old) (λ kept. tables.now ≡ kept) }
    ensures settles { SettlesLoaded (ProvesRound proving.round tables.now)
        (keeper_told (object (K.tables keeper.old) (K.tables keeper.new) (K.faults keeper.old) (K.faults keeper.new)) (K.course keeper.old) (K.course keeper.new)) result }
    ensures place { (K.course keeper.new).place ≡ (K.course keeper.old).place }
{
    match open_pool(resources.alloc, tables, proving.round) {
        Ok(Some(pool)) => prove_open(resources, proving, tables, &pool, keeper),
        Ok(None) => answer_as_solve(resources, proving, tables, keeper),
        Err(_) => Err(KeeperStop::OutOfMemory),
    }
}

/// Makes a proof of the pool of an open round, and lets the office keep it.
fn prove_open<R: Threads + Sync, W: Watch + Sync, K: Keeper>(
    resources: &Resources<'_, R, W>,
    proving: ProveRound,
    tables: &Tables,
    pool: &Pool,
    keeper: &mut K,
) -> Result<Answer, KeeperStop>
    requires loaded { IfSome (K.tables keeper.old) (λ kept. tables.now ≡ kept) }
    requires open_now { IsOpenWith tables.now proving.round pool.now }
    ensures settles { SettlesLoaded (ProvesRound proving.round tables.now)
        (keeper_told (object (K.tables keeper.old) (K.tables keeper.new) (K.faults keeper.old) (K.faults keeper.new)) (K.course keeper.old) (K.course keeper.new)) result }
    ensures place { (K.course keeper.new).place ≡ (K.course keeper.old).place }
{
    let mut budget = Budget::new(proving.prove.pivots, proving.prove.nodes);
    match proof_within(resources.alloc, &mut budget, pool) {
        Ok(Made::Valid(proof)) => {
            let round = proving.round;
            settle_over(resources, tables, &Command::Keep { round, proof }, keeper)
        }
        Ok(_) => answer_as_solve(resources, proving, tables, keeper),
        Err(_) => Err(KeeperStop::OutOfMemory),
    }
}

/// Solves the round, and returns the answer.
fn answer_as_solve<R: Threads + Sync, W: Watch + Sync, K: Keeper>(
    resources: &Resources<'_, R, W>,
    proving: ProveRound,
    tables: &Tables,
    keeper: &mut K,
) -> Result<Answer, KeeperStop>
    requires loaded { IfSome (K.tables keeper.old) (λ kept. tables.now ≡ kept) }
    ensures settles { SettlesLoaded (ProvesRound proving.round tables.now)
        (keeper_told (object (K.tables keeper.old) (K.tables keeper.new) (K.faults keeper.old) (K.faults keeper.new)) (K.course keeper.old) (K.course keeper.new)) result }
    ensures place { (K.course keeper.new).place ≡ (K.course keeper.old).place }
{
    let command = Command::Solve {
        round: proving.round,
        limits: lottery_limits(),
        workers: 1,
    };
    settle_over(resources, tables, &command, keeper)
}

/// Returns the pool of an open round, or None if there is no such round, it isn't open, or it has no pool.
fn open_pool(alloc: Global, tables: &Tables, round: usize) -> Result<Option<Pool>, AllocError>
    ensures { IfOk result (TellsOpen tables.now round) }
{
    if is_open(tables, round) {
        if_any(pool_of(alloc, tables, round))
    } else {
        Ok(None)
    }
}

/// True if there is a round of this number, and it is open.
fn is_open(tables: &Tables, round: usize) -> bool
    ensures { result ≡ is_open_now (named_round tables.now.rounds round) }
{
    match round_named(tables, round) {
        Some(kept) => kept.bundle().is_none(),
        None => false,
    }
}

/// Returns the pool, or None if there is no such round or it has no pool. Fails for want of memory.
fn if_any(pool: Result<Pool, PoolStop>) -> Result<Option<Pool>, AllocError>
    ensures { (is : Result SeenPool Refusal) → TellsPool is pool → IfOk result (IsIfAny is) }
{
    match pool {
        Ok(pool) => Ok(Some(pool)),
        Err(PoolStop::OutOfMemory) => Err(AllocError),
        Err(_) => Ok(None),
    }
}
