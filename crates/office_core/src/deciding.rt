//! Decides commands: the outcome of a command over tables.

ghost use Rattle.std.specs.Prelude.{◌≡◌};
ghost use Rattle.office_core.specs.Commands.{HasWorkers, seen_command};
ghost use Rattle.define_offices.specs.Commands.{Outcome};
ghost use Rattle.office_steps.specs.Steps.{Says as StepSays};
ghost use Rattle.office_core.specs.Deciding.{Decides, IsSolve, RunsOnlyIf, Says};

use crate::commands::Command;
use crate::solving::{keep_proof, solve_round};
use crate::stops::DecideStop;
use office_steps::{
    OfficeStop, Reply, draw_round, drop_member, next_round, register, reopen_round, seal_round,
    set_bounds, set_charter, set_rules, show_round, try_draw, undrop_member, withdraw, withdraw_id,
};
use office_tables::{Change, Tables};
use outside::Watch;
use std::alloc::Global;
use std::thread::Threads;

/// Returns the outcome of a command over `tables`: a reply, with a change if the tables don't stay as they are; or a stop with the refusal,
/// the run's stop or the verdict on the proof. Memory may run out at any time; that is a stop too.
pub fn decide<R: Threads + Sync, W: Watch + Sync>(
    rt: &R,
    alloc: Global,
    tables: &Tables,
    command: &Command,
    watch: &W,
) -> Result<(Option<Change>, Reply), DecideStop>
    requires { HasWorkers command.now }
    ensures decides { Decides tables.now (seen_command command.now) result }
    ensures runs { RunsOnlyIf (IsSolve (seen_command command.now)) result }
{
    match command {
        Command::Charter(charter) => stepped(set_charter(alloc, tables, charter)),
        Command::Rules(rules) => stepped(set_rules(alloc, tables, rules)),
        Command::Register(rows) => stepped(register(alloc, tables, rows)),
        Command::Solve {
            round,
            limits,
            workers,
        } => solve_round(rt, alloc, tables, *round, *limits, *workers, watch),
        Command::Keep { round, proof } => keep_proof(alloc, tables, *round, proof),
        Command::Seal { round, tickets } => stepped(seal_round(alloc, tables, *round, tickets)),
        Command::Draw {
            round,
            seal,
            digits,
        } => stepped(draw_round(alloc, tables, *round, seal.as_str(), digits)),
        Command::Drop { round, id } => stepped(drop_member(alloc, tables, *round, id)),
        Command::NextRound { after } => stepped(next_round(alloc, tables, *after)),
        Command::Show { round } => stepped(show_round(alloc, tables, *round)),
        Command::Withdraw { key } => stepped(withdraw(alloc, tables, key)),
        Command::Bounds { round, bounds } => {
            stepped(set_bounds(alloc, tables, round.number(), bounds))
        }
        Command::Try {
            round,
            seal,
            digits,
        } => stepped(try_draw(alloc, tables, *round, seal.as_str(), digits)),
        Command::Undrop { round, id } => stepped(undrop_member(alloc, tables, *round, id)),
        Command::Reopen { round } => stepped(reopen_round(alloc, tables, round.number())),
        Command::WithdrawId { id } => stepped(withdraw_id(alloc, tables, id)),
    }
}

/// Returns a decision of `office_steps`, with its stop turned into a stop of `decide`.
fn stepped(
    decided: Result<(Option<Change>, Reply), OfficeStop>,
) -> Result<(Option<Change>, Reply), DecideStop>
    ensures says { (outcome : Outcome) → StepSays outcome decided → Says outcome result }
    ensures no_run { RunsOnlyIf ⊥ result }
{
    match decided {
        Ok(decided) => Ok(decided),
        Err(OfficeStop::Refused(refusal)) => Err(DecideStop::Refused(refusal)),
        Err(OfficeStop::OutOfMemory) => Err(DecideStop::OutOfMemory),
    }
}
