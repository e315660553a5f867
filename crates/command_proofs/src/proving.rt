//! The command `prove`: the lottery of a pool, or of a bundle, with a proof that is verified before it is printed. Where the engine has no
//! lottery, the run of `lottery` takes over; where it finds no trees, the searches of `check`.

ghost use Rattle.std.specs.Prelude.{IfOk, IfSome};
ghost use Rattle.std.specs.Thread.{IsSync};
ghost use Rattle.command_meanings.specs.Lottery.{FindsNone};
ghost use Rattle.command_meanings.specs.Prove.{ProvesWithin, lottery_limits as limits_without_words};
ghost use Rattle.command_proofs.specs.Proved.{IsNowRight, IsValidOf};
ghost use Rattle.command_shell.specs.Answers.{saying, status_number};
ghost use Rattle.command_shell.specs.Formats.{pool_or_bundle_format};
ghost use Rattle.command_shell.specs.Outcomes.{TextOutcome};
ghost use Rattle.command_shell.specs.Subjects.{About};
ghost use Rattle.command_shell.specs.Told.{object, told};
ghost use Rattle.command_shell.specs.declared.formats.PoolOrBundle.TheVariants as either;
ghost use Rattle.define_pools.specs.Pool.{Pool as SeenPool};
ghost use Rattle.prove_limits.specs.Budgets.{Left, SpendsOn};

use crate::making::{Made, proof_within};
use crate::settling::{Settled, if_valid, proof_answer, settle};
use bundle_text::Bundle;
use command_meanings::evidence_of_taken_nodes;
use command_pools::{LotteryRun, lottery_limits, run_lottery};
use command_shell::{Answer, Meaning, PoolOrBundle, Resources, Status, call_answered_by, no_panel};
use outside::{Sink, Source, Watch};
use pool_model::Pool;
use proof_text::Proof;
use prove_limits::Budget;
use prove_run::prove_none;
use std::alloc::{AllocError, Global};
use std::thread::Threads;

/// `prove`: the proof of a pool or of a bundle, by a run under a budget.
#[derive(Clone, Copy, Debug)]
pub struct Prove {
    /// The most pivots of the run that looks for a lottery, from 0 to 1,000,000,000.
    pub pivots: u64,
    /// The most nodes of that run, and the most nodes of trees, from 0 to 1,000,000,000,000.
    pub nodes: u64,
}

impl Meaning for Prove {
    type About = PoolOrBundle;

    ghost use Rattle.command_meanings.specs.Prove.{ProvesWithin};

    ghost means = { λ command about. ProvesWithin command.nodes about };
}

/// Makes one call of `prove`. A closure answers it, since the run of `lottery` starts threads, which a method of a trait can't do.
pub fn call_prove<R: Threads + Sync, W: Watch + Sync, S: Source, O: Sink, E: Sink>(
    resources: &Resources<'_, R, W>,
    command: &Prove,
    source: &mut S,
    out: &mut O,
    errs: &mut E,
) -> Status
    ensures { TextOutcome (About pool_or_bundle_format (ProvesWithin command.now.nodes)) (told (status_number result)
        (object (S.left source.old) (S.left source.new) (S.faults source.old) (S.faults source.new))
        (object (O.written out.old) (O.written out.new) (O.faults out.old) (O.faults out.new))
        (object (E.written errs.old) (E.written errs.new) (E.faults errs.old) (E.faults errs.new))) }
{
    // The resources are taken apart before the closure: Rattle drops the `ensures` of a closure that captures a value whose type names a
    // lifetime.
    let Resources { rt, alloc, watch } = *resources;
    call_answered_by(
        alloc,
        command,
        |about: &PoolOrBundle| -> Result<Answer, AllocError>
            requires { IsSync R.row × IsSync W.row }
            ensures { IfOk result (λ answer. ProvesWithin command.entry.now.nodes about.now (saying answer)) }
        { proved(&Resources { rt, alloc, watch }, command, about) },
        source,
        out,
        errs,
    )
}

/// Returns what `prove` answers by a run with a new budget, and with a new count of nodes for trees. Pivots don't end a search for trees.
fn proved<R: Threads + Sync, W: Watch + Sync>(
    resources: &Resources<'_, R, W>,
    command: &Prove,
    about: &PoolOrBundle,
) -> Result<Answer, AllocError>
    ensures { IfOk result (λ answer. ProvesWithin command.now.nodes about.now (saying answer)) }
{
    let mut budget = Budget::new(command.pivots, command.nodes);
    let mut trees = Budget::new(u64::MAX, command.nodes);
    let answer = prove_within(resources, &mut budget, &mut trees, about);
    evidence_of_taken_nodes(&trees);
    answer
}

/// Returns what `prove` answers by a run under `budget`, if the nodes of `trees` are left for trees. Afterwards both are what is left of
/// them: so the line that no trees are found comes only if the nodes of `trees` were taken, one by one.
///
/// # Errors
///
/// Want of memory alone.
pub fn prove_within<R: Threads + Sync, W: Watch + Sync>(
    resources: &Resources<'_, R, W>,
    budget: &mut Budget,
    trees: &mut Budget,
    about: &PoolOrBundle,
) -> Result<Answer, AllocError>
    ensures right { IfOk result (IsNowRight trees.new about.now) }
    ensures spends { SpendsOn budget.old budget.new }
    ensures visits { SpendsOn trees.old trees.new }
{
    match about {
        PoolOrBundle::Pool(pool) => about_pool(resources, budget, trees, pool),
        PoolOrBundle::Bundle(bundle) => about_bundle(resources.alloc, trees, bundle),
    }
}

/// Returns what `prove` answers about `pool`.
fn about_pool<R: Threads + Sync, W: Watch + Sync>(
    resources: &Resources<'_, R, W>,
    budget: &mut Budget,
    trees: &mut Budget,
    pool: &Pool,
) -> Result<Answer, AllocError>
    ensures right { IfOk result (IsNowRight trees.new (either.Pool pool.now)) }
    ensures spends { SpendsOn budget.old budget.new }
    ensures visits { SpendsOn trees.old trees.new }
{
    match prove_alone(resources.alloc, budget, trees, pool)? {
        Some(answer) => Ok(answer),
        None => by_run(resources, trees, pool),
    }
}

/// Returns what `prove` answers about `pool` if that needs no run of `lottery`, which starts threads: the proof that its engine makes, or
/// what settles a lottery without trees. Afterwards both budgets are what is left of them.
///
/// # Errors
///
/// Want of memory alone.
pub fn prove_alone(
    alloc: Global,
    budget: &mut Budget,
    trees: &mut Budget,
    pool: &Pool,
) -> Result<Option<Answer>, AllocError>
    ensures right { IfOk result (λ answered. IfSome answered (IsNowRight trees.new (either.Pool pool.now))) }
    ensures spends { SpendsOn budget.old budget.new }
    ensures visits { SpendsOn trees.old trees.new }
{
    match proof_within(alloc, budget, pool)? {
        Made::Valid(proof) => Ok(Some(valid_proof(alloc, &proof)?)),
        Made::Lottery(bundle) => match settle(alloc, trees, &bundle)? {
            Settled::Told(answer) => Ok(Some(answer)),
            Settled::Checked(_) => Ok(None),
        },
        Made::Nothing => Ok(None),
    }
}

/// Returns the answer for a valid proof of a pool.
fn valid_proof(alloc: Global, proof: &Proof) -> Result<Answer, AllocError>
    ensures { IfOk result (λ answer. (count : Left) (pool : SeenPool) → IsValidOf pool proof.now → IsNowRight count (either.Pool pool) answer) }
{
    proof.facts();
    proof_answer(alloc, proof)
}

/// Returns what `prove` answers about `bundle`.
fn about_bundle(alloc: Global, trees: &mut Budget, bundle: &Bundle) -> Result<Answer, AllocError>
    ensures right { IfOk result (IsNowRight trees.new (either.Bundle bundle.now)) }
    ensures visits { SpendsOn trees.old trees.new }
{
    match settle(alloc, trees, bundle)? {
        Settled::Told(answer) => Ok(answer),
        Settled::Checked(answer) => Ok(answer),
    }
}

/// Returns what `prove` answers about `pool`, for whose lottery the run of `lottery` takes over.
fn by_run<R: Threads + Sync, W: Watch + Sync>(
    resources: &Resources<'_, R, W>,
    trees: &mut Budget,
    pool: &Pool,
) -> Result<Answer, AllocError>
    ensures right { IfOk result (IsNowRight trees.new (either.Pool pool.now)) }
    ensures visits { SpendsOn trees.old trees.new }
{
    match run_lottery(resources, lottery_limits(), pool)? {
        LotteryRun::Found(bundle) => match settle(resources.alloc, trees, &bundle)? {
            Settled::Told(answer) => Ok(answer),
            Settled::Checked(answer) => Ok(answer),
        },
        LotteryRun::NoPanel => of_none(resources.alloc, trees, pool),
        LotteryRun::Stopped(answer) => Ok(answer),
    }
}

/// Returns the answer for a pool without a quota panel: a proof if its tree is found, else the line of `lottery`.
fn of_none(alloc: Global, trees: &mut Budget, pool: &Pool) -> Result<Answer, AllocError>
    requires { FindsNone limits_without_words pool.now }
    ensures right { IfOk result (IsNowRight trees.new (either.Pool pool.now)) }
    ensures visits { SpendsOn trees.old trees.new }
{
    if let Some(proof) = prove_none(alloc, pool, trees)? {
        if let Some(answer) = if_valid(alloc, &proof)? {
            return Ok(answer);
        }
    }
    no_panel(alloc)
}
