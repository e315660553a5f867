//! One call of a command of the office over a store.

ghost use Rattle.std.specs.Prelude.{◌≡◌, IfOk, IfSome};
ghost use Rattle.command_shell.specs.Told.{Bytes, IsUntouched, object, told};
ghost use Rattle.command_shell.specs.Answers.{Prints, status_number, saying};
ghost use Rattle.office_core.specs.Commands.{HasWorkers, seen_command};
ghost use Rattle.command_stores.specs.StoreOutcomes.{Settles, SettlesLoaded, SilentStoreOutcome};
ghost use Rattle.command_stores.specs.StoreTold.{keeper_told, store_told};
ghost use Rattle.command_meanings.specs.Steps.{StepMeans, TellsStop};
ghost use Rattle.define_checks.specs.Reasons.{Refusal, Refused};
ghost use Rattle.define_runs.specs.Run.{Ending};
ghost use Rattle.command_meanings.specs.Check.{refused_line as words_of_refused};
ghost use Rattle.command_shell.specs.declared.status.Printed.TheVariants as printed;
ghost use Rattle.office_core.specs.Deciding.{IsEnding, IsSolve};

use crate::calling::{answer_or_want, load_at, tell_settled};
use crate::refusals::refusal_answer;
use check_proofs::Verdict;
use command_bundles::refused_line;
use command_pools::stop_answer;
use command_shell::{Answer, Printed, Resources, Status, no_panel};
use leximin_run::Stop;
use office_core::{ActStop, Command, Keeper, KeeperStop, Reply, Tables, act_over};
use outside::{Sink, Watch};
use std::alloc::{AllocError, Global};
use std::thread::Threads;

/// Makes one call of a command of the office over the store at `path`. The answer is the outcome of the command over the store's tables.
/// Its text is made before the change is stored, so nothing can want memory after that.
pub fn call_step<R: Threads + Sync, W: Watch + Sync, K: Keeper, O: Sink, E: Sink>(
    resources: &Resources<'_, R, W>,
    command: &Command,
    path: &str,
    keeper: &mut K,
    out: &mut O,
    errs: &mut E,
) -> Status
    requires { HasWorkers command.now }
    ensures { (source : Bytes) → IsUntouched source → SilentStoreOutcome path.now (StepMeans (seen_command command.now)) (store_told
        (told (status_number result) source
        (object (O.written out.old) (O.written out.new) (O.faults out.old) (O.faults out.new))
        (object (E.written errs.old) (E.written errs.new) (E.faults errs.old) (E.faults errs.new)))
        (keeper_told (object (K.tables keeper.old) (K.tables keeper.new) (K.faults keeper.old) (K.faults keeper.new)) (K.course keeper.old) (K.course keeper.new))) }
{
    let settled = settle(resources, command, path, keeper);
    tell_settled(&settled, out, errs)
}

/// Attaches the keeper, does the command over its tables, and returns its answer.
fn settle<R: Threads + Sync, W: Watch + Sync, K: Keeper>(
    resources: &Resources<'_, R, W>,
    command: &Command,
    path: &str,
    keeper: &mut K,
) -> Result<Answer, KeeperStop>
    requires { HasWorkers command.now }
    ensures { Settles path.now (StepMeans (seen_command command.now))
        (keeper_told (object (K.tables keeper.old) (K.tables keeper.new) (K.faults keeper.old) (K.faults keeper.new)) (K.course keeper.old) (K.course keeper.new)) result }
{
    let tables = load_at(resources.alloc, path, keeper)?;
    settle_over(resources, &tables, command, keeper)
}

/// Does the command over tables that were loaded from the keeper, and returns its answer.
pub(crate) fn settle_over<R: Threads + Sync, W: Watch + Sync, K: Keeper>(
    resources: &Resources<'_, R, W>,
    tables: &Tables,
    command: &Command,
    keeper: &mut K,
) -> Result<Answer, KeeperStop>
    requires workers { HasWorkers command.now }
    requires loaded { IfSome (K.tables keeper.old) (λ kept. tables.now ≡ kept) }
    ensures settles { SettlesLoaded (StepMeans (seen_command command.now) tables.now)
        (keeper_told (object (K.tables keeper.old) (K.tables keeper.new) (K.faults keeper.old) (K.faults keeper.new)) (K.course keeper.old) (K.course keeper.new)) result }
    ensures place { (K.course keeper.new).place ≡ (K.course keeper.old).place }
{
    command.facts();
    let Resources { rt, alloc, watch } = *resources;
    // This answer is made before a change is stored, since memory may be wanting.
    let Ok(none) = no_panel(alloc) else {
        return Err(KeeperStop::OutOfMemory);
    };
    match act_over(rt, alloc, keeper, tables, command, watch) {
        Ok(Reply::Lines(text)) => Ok(Answer::Prints {
            printed: Printed::Done,
            text,
        }),
        Ok(Reply::NoPanel) => Ok(none),
        Err(ActStop::Refused(refusal)) => answer_or_want(refusal_answer(alloc, &refusal)),
        Err(ActStop::Solve(stop)) => answer_or_want(run_answer(alloc, command, &stop)),
        Err(ActStop::Unproved(verdict)) => answer_or_want(verdict_answer(alloc, &verdict)),
        Err(ActStop::KeeperFault) => Err(KeeperStop::Failed),
        Err(ActStop::OutOfMemory) => Err(KeeperStop::OutOfMemory),
    }
}

/// Returns the answer to a run that stops. Only a solve makes a run.
fn run_answer(alloc: Global, command: &Command, stop: &Stop) -> Result<Answer, AllocError>
    requires { IsSolve (seen_command command.now) }
    ensures { (ending : Ending) → IsEnding stop.now ending → IfOk result (λ answer. TellsStop (seen_command command.now) ending (saying answer)) }
{
    match command {
        Command::Solve { limits, .. } => stop_answer(alloc, *limits, stop),
        _ => unreachable!(),
    }
}

/// Returns the answer to a proof that is refused.
fn verdict_answer(alloc: Global, verdict: &Verdict) -> Result<Answer, AllocError>
    requires { (refusal : Refusal) × (verdict.now ≡ Refused refusal) }
    ensures { (refusal : Refusal) → verdict.now ≡ Refused refusal → IfOk result (λ answer. saying answer ≡ Prints printed.Refused (words_of_refused refusal)) }
{
    match verdict.refusal() {
        Some(refusal) => Ok(Answer::Prints {
            printed: Printed::Refused,
            text: refused_line(alloc, refusal)?,
        }),
        None => unreachable!(),
    }
}
