//! A volunteer's withdrawal, which is stored.

ghost use Rattle.std.specs.Prelude.{◌≡◌, [], ◌∷◌, IfOk, IfSome, Some};
ghost use Rattle.define_offices.specs.Deciding.{with_hash};
ghost use Rattle.define_offices.specs.Commands.{Withdraw};
ghost use Rattle.define_draws.specs.Seal.{seal_of};
ghost use Rattle.define_desk.specs.Desk.{WithdrawalPage, served_page, withdrawal as withdrawal_of};
ghost use Rattle.office_core.specs.Acting.{ActsOver, FailsAtStore, FailsInOrderOver, HasFault as ActFault, IsLoaded};
ghost use Rattle.office_desk.specs.Answers.{FailsToStore, HasFault};
ghost use Rattle.office_desk.specs.Endings.{EndsAs};
ghost use Rattle.office_desk.specs.Withdrawals.{TellsWithdrawn, stop_refusal};

use crate::answers::Answer;
use crate::bodies::withdrawn_body;
use crate::own_page::entry_of;
use crate::refusals::Refusal;
use crate::replies::told_json;
use office_core::{ActStop, Command, Keeper, Reply, Tables, act_over};
use office_requests::{Key, Request};
use outside::Watch;
use std::alloc::{AllocError, Global};
use std::thread::Threads;

/// Returns the reply to a request for the page of withdrawals, over tables that were loaded. The withdrawal is stored if there is one.
pub(crate) fn withdrawal_answer<R: Threads + Sync, K: Keeper, W: Watch + Sync>(
    rt: &R,
    alloc: Global,
    keeper: &mut K,
    tables: &Tables,
    request: &Request,
    watch: &W,
) -> Answer
    requires { IsLoaded (K.tables keeper.old) tables.now }
    ensures ends { EndsAs (K.tables keeper.old) (served_page tables.now request.now (Some WithdrawalPage)) (K.tables keeper.new) result }
    ensures place { (K.course keeper.new).place ≡ (K.course keeper.old).place }
    ensures fault { HasFault (FailsToStore tables.now request.now.keys (K.course keeper.old) (K.course keeper.new)) (K.faults keeper.old) (K.faults keeper.new) result.status }
{
    if request.method() == b"POST".as_slice() {
        withdrawal_by(rt, alloc, keeper, tables, request.keys(), watch)
    } else {
        Answer::refused(Refusal::PostOnly)
    }
}

/// Returns the reply to a withdrawal with these keys: the refusal `UnknownKey` unless there is exactly one, and it is a volunteer's.
fn withdrawal_by<R: Threads + Sync, K: Keeper, W: Watch + Sync>(
    rt: &R,
    alloc: Global,
    keeper: &mut K,
    tables: &Tables,
    keys: &[Key],
    watch: &W,
) -> Answer
    requires { IsLoaded (K.tables keeper.old) tables.now }
    ensures ends { EndsAs (K.tables keeper.old) (withdrawal_of tables.now keys.now) (K.tables keeper.new) result }
    ensures place { (K.course keeper.new).place ≡ (K.course keeper.old).place }
    ensures fault { HasFault (FailsToStore tables.now keys.now (K.course keeper.old) (K.course keeper.new)) (K.faults keeper.old) (K.faults keeper.new) result.status }
{
    match keys {
        [key] => withdrawal_with(rt, alloc, keeper, tables, key, watch),
        _ => Answer::refused(Refusal::UnknownKey),
    }
}

/// Returns the reply to a withdrawal with this key. It is made before the withdrawal is stored, so that memory can't run out afterwards.
fn withdrawal_with<R: Threads + Sync, K: Keeper, W: Watch + Sync>(
    rt: &R,
    alloc: Global,
    keeper: &mut K,
    tables: &Tables,
    key: &Key,
    watch: &W,
) -> Answer
    requires { IsLoaded (K.tables keeper.old) tables.now }
    ensures ends { EndsAs (K.tables keeper.old) (withdrawal_of tables.now (key.now ∷ [])) (K.tables keeper.new) result }
    ensures place { (K.course keeper.new).place ≡ (K.course keeper.old).place }
    ensures fault { HasFault (FailsAtStore tables.now (Withdraw key.now) (K.course keeper.old) (K.course keeper.new)) (K.faults keeper.old) (K.faults keeper.new) result.status }
{
    match told_withdrawn(alloc, tables, key) {
        Ok(Some(told)) => stored(rt, alloc, keeper, tables, key, told, watch),
        Ok(None) => Answer::refused(Refusal::UnknownKey),
        Err(_) => Answer::refused(Refusal::OutOfMemory),
    }
}

/// Returns the reply to the volunteer with this key after the withdrawal, or None if no volunteer has the key.
fn told_withdrawn(alloc: Global, tables: &Tables, key: &Key) -> Result<Option<Answer>, AllocError>
    ensures { IfOk result (TellsWithdrawn (with_hash tables.now.register (seal_of key.now))) }
{
    match entry_of(alloc, tables.register(), key)? {
        Some(entry) => {
            let body = withdrawn_body(alloc, entry.id().as_str())?;
            Ok(Some(told_json(alloc, body.as_str())?))
        }
        None => Ok(None),
    }
}

/// Does the withdrawal of the volunteer with this key. Returns `told` if the office did it, else the refusal for its stop.
fn stored<R: Threads + Sync, K: Keeper, W: Watch + Sync>(
    rt: &R,
    alloc: Global,
    keeper: &mut K,
    tables: &Tables,
    key: &Key,
    told: Answer,
    watch: &W,
) -> Answer
    requires loaded { IsLoaded (K.tables keeper.old) tables.now }
    requires told { TellsWithdrawn (with_hash tables.now.register (seal_of key.now)) (Some told) }
    ensures ends { EndsAs (K.tables keeper.old) (withdrawal_of tables.now (key.now ∷ [])) (K.tables keeper.new) result }
    ensures place { (K.course keeper.new).place ≡ (K.course keeper.old).place }
    ensures fault { HasFault (FailsAtStore tables.now (Withdraw key.now) (K.course keeper.old) (K.course keeper.new)) (K.faults keeper.old) (K.faults keeper.new) result.status }
{
    match withdrawn(rt, alloc, keeper, tables, key, watch) {
        Ok(_) => told,
        Err(stop) => Answer::refused(refusal_of(stop)),
    }
}

/// Returns the reply's refusal for a stop of a withdrawal with a volunteer's key.
fn refusal_of(stop: ActStop) -> Refusal
    ensures { result ≡ stop_refusal stop }
{
    match stop {
        ActStop::Refused(_) => Refusal::TooLate,
        ActStop::Solve(_) => Refusal::TooLate,
        ActStop::Unproved(_) => Refusal::TooLate,
        ActStop::KeeperFault => Refusal::Unavailable,
        ActStop::OutOfMemory => Refusal::OutOfMemory,
    }
}

/// Does the office's command `Withdraw` with this key, over tables that were loaded.
fn withdrawn<R: Threads + Sync, K: Keeper, W: Watch + Sync>(
    rt: &R,
    alloc: Global,
    keeper: &mut K,
    tables: &Tables,
    key: &Key,
    watch: &W,
) -> Result<Reply, ActStop>
    requires { IfSome (K.tables keeper.old) (λ kept. tables.now ≡ kept) }
    ensures step { ActsOver tables.now (K.tables keeper.old) (Withdraw key.now) result (K.tables keeper.new) }
    ensures place { (K.course keeper.new).place ≡ (K.course keeper.old).place }
    ensures fault { ActFault (K.faults keeper.old) (K.faults keeper.new) result }
    ensures order { FailsInOrderOver tables.now (Withdraw key.now) result (K.course keeper.old) (K.course keeper.new) }
{
    let Ok(key) = Vec::from_slice(alloc, key.as_bytes()) else {
        return Err(ActStop::OutOfMemory);
    };
    let command = Command::Withdraw { key };
    act_over(rt, alloc, keeper, tables, &command, watch)
}
