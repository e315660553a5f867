//! A command over a keeper: the tables are loaded, the command is decided, and its change is stored.

ghost use Rattle.std.specs.Prelude.{◌≡◌, IfSome, OnErr, OnOk, option_map};
ghost use Rattle.define_offices.specs.Facts.{IsTables};
ghost use Rattle.define_offices.specs.Steps.{applied};
ghost use Rattle.office_tables.specs.Changes.{seen_change};
ghost use Rattle.office_core.specs.Acting.{ActsOn, ActsOver, FailsInOrder, FailsInOrderOver, GoesOn, HasFault, StopsOnlyIf, stop_of_decision};
ghost use Rattle.office_core.specs.Commands.{HasWorkers, seen_command};
ghost use Rattle.office_core.specs.Deciding.{IsSolve};
ghost use Rattle.office_core.specs.Keeping.{HasCause, StoresIt, changed};

use crate::commands::Command;
use crate::deciding::decide;
use crate::keeper::{Keeper, KeeperStop};
use crate::stops::{ActStop, DecideStop};
use office_steps::Reply;
use office_tables::{Change, Tables};
use outside::Watch;
use std::alloc::Global;
use std::thread::Threads;

/// Does a command over a keeper that is attached. Stores the change that the command makes, if there is one, and then returns the reply.
/// After every stop the kept tables are as before.
pub fn act<K: Keeper, R: Threads + Sync, W: Watch + Sync>(
    rt: &R,
    alloc: Global,
    keeper: &mut K,
    command: &Command,
    watch: &W,
) -> Result<Reply, ActStop>
    requires { HasWorkers command.now }
    ensures step { ActsOn (K.tables keeper.old) (seen_command command.now) result (K.tables keeper.new) }
    // So after any number of calls the tables are the fold of the commands that ended with an outcome.
    ensures fold { GoesOn (K.tables keeper.old) (seen_command command.now) result (K.tables keeper.new) }
    ensures place { (K.course keeper.new).place ≡ (K.course keeper.old).place }
    ensures fault { HasFault (K.faults keeper.old) (K.faults keeper.new) result }
    ensures order { FailsInOrder (K.tables keeper.old) (seen_command command.now) result (K.course keeper.old) (K.course keeper.new) }
{
    let tables = keeper.load(alloc)?;
    tables.facts();
    act_over(rt, alloc, keeper, &tables, command, watch)
}

/// Does a command like `act`, but over tables that the caller loaded from the keeper.
pub fn act_over<K: Keeper, R: Threads + Sync, W: Watch + Sync>(
    rt: &R,
    alloc: Global,
    keeper: &mut K,
    tables: &Tables,
    command: &Command,
    watch: &W,
) -> Result<Reply, ActStop>
    requires workers { HasWorkers command.now }
    requires loaded { IfSome (K.tables keeper.old) (λ kept. tables.now ≡ kept) }
    ensures step { ActsOver tables.now (K.tables keeper.old) (seen_command command.now) result (K.tables keeper.new) }
    ensures fold { GoesOn (K.tables keeper.old) (seen_command command.now) result (K.tables keeper.new) }
    ensures place { (K.course keeper.new).place ≡ (K.course keeper.old).place }
    ensures fault { HasFault (K.faults keeper.old) (K.faults keeper.new) result }
    ensures order { FailsInOrderOver tables.now (seen_command command.now) result (K.course keeper.old) (K.course keeper.new) }
    ensures runs { StopsOnlyIf (IsSolve (seen_command command.now)) result }
{
    tables.facts();
    acted_over(rt, alloc, keeper, tables, command, watch)
}

/// The body of `act_over`. Its contract has each clause of that of `act_over` except `fold`, which follows from `step`.
fn acted_over<K: Keeper, R: Threads + Sync, W: Watch + Sync>(
    rt: &R,
    alloc: Global,
    keeper: &mut K,
    tables: &Tables,
    command: &Command,
    watch: &W,
) -> Result<Reply, ActStop>
    requires workers { HasWorkers command.now }
    requires loaded { IfSome (K.tables keeper.old) (λ kept. tables.now ≡ kept) }
    ensures step { ActsOver tables.now (K.tables keeper.old) (seen_command command.now) result (K.tables keeper.new) }
    ensures place { (K.course keeper.new).place ≡ (K.course keeper.old).place }
    ensures fault { HasFault (K.faults keeper.old) (K.faults keeper.new) result }
    ensures order { FailsInOrderOver tables.now (seen_command command.now) result (K.course keeper.old) (K.course keeper.new) }
    ensures runs { StopsOnlyIf (IsSolve (seen_command command.now)) result }
{
    command.facts();
    tables.facts();
    match decide(rt, alloc, tables, command, watch) {
        Ok(decided) => {
            let (change, reply) = decided;
            store(alloc, keeper, &change)?;
            Ok(reply)
        }
        Err(stop) => Err(stopped(stop)),
    }
}

/// Stores a change, if there is one.
fn store<K: Keeper>(
    alloc: Global,
    keeper: &mut K,
    change: &Option<Change>,
) -> Result<(), KeeperStop>
    requires { IfSome (K.tables keeper.old) (λ kept. IsTables (applied kept (option_map seen_change change.now))) }
    ensures ok { OnOk result (K.tables keeper.new ≡ changed (K.tables keeper.old) (option_map seen_change change.now)) }
    ensures err { OnErr result (K.tables keeper.new ≡ K.tables keeper.old) }
    ensures place { (K.course keeper.new).place ≡ (K.course keeper.old).place }
    ensures order { StoresIt (option_map seen_change change.now) result (K.course keeper.old) (K.course keeper.new) }
    ensures cause { HasCause (K.faults keeper.old) (K.faults keeper.new) result }
{
    match change {
        Some(change) => keeper.store(alloc, change),
        None => Ok(()),
    }
}

/// Returns the stop of `act` for a stop of `decide`.
fn stopped(stop: DecideStop) -> ActStop
    ensures { result ≡ stop_of_decision stop }
{
    match stop {
        DecideStop::Refused(refusal) => ActStop::Refused(refusal),
        DecideStop::Solve(stop) => ActStop::Solve(stop),
        DecideStop::Unproved(verdict) => ActStop::Unproved(verdict),
        DecideStop::OutOfMemory => ActStop::OutOfMemory,
    }
}
