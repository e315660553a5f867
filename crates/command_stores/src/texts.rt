//! Calls that print a text made of the tables of a store, and change nothing: the report, the pool and the page of a round.

ghost use Rattle.std.specs.Prelude.{◌≡◌, ℕ, IfOk, IfSome, List, OnOk, Result};
ghost use Rattle.command_shell.specs.Told.{Bytes, IsUntouched, object, told};
ghost use Rattle.command_shell.specs.Answers.{status_number, saying};
ghost use Rattle.office_steps.specs.declared.pools.PoolStop.TheVariants.{OutOfMemory};
ghost use Rattle.office_reports.specs.Rounds.{TellsReport};
ghost use Rattle.define_offices.specs.Commands.{Refusal as SeenRefusal};
ghost use Rattle.define_offices.specs.Pools.{pool_of as pool_of_round};
ghost use Rattle.command_stores.specs.StoreOutcomes.{Settles, SilentStoreOutcome};
ghost use Rattle.command_stores.specs.StoreTold.{keeper_told, store_told};
ghost use Rattle.command_meanings.specs.Steps.{TextMeans, pool_text, refused_by, stored_text, text_or_refusal};
ghost use Rattle.command_stores.specs.NoTexts.{refusal_of};

use crate::calling::{answer_or_want, load_at, tell_settled};
use crate::pages::page_answer;
use crate::refusals::refusal_answer;
use command_meanings::{RoundText, StoreText};
use command_shell::{Answer, Printed, Status};
use office_core::{Keeper, KeeperStop, PoolStop, Refusal, Tables, pool_of};
use office_reports::round_report;
use outside::Sink;
use pool_text::write_pool;
use std::alloc::{AllocError, Global};

/// Makes one call that prints a text made of the tables of the store at `path`.
pub fn call_text<K: Keeper, O: Sink, E: Sink>(
    alloc: Global,
    text: StoreText,
    path: &str,
    keeper: &mut K,
    out: &mut O,
    errs: &mut E,
) -> Status
    ensures { (source : Bytes) → IsUntouched source → SilentStoreOutcome path.now (TextMeans text) (store_told
        (told (status_number result) source
        (object (O.written out.old) (O.written out.new) (O.faults out.old) (O.faults out.new))
        (object (E.written errs.old) (E.written errs.new) (E.faults errs.old) (E.faults errs.new)))
        (keeper_told (object (K.tables keeper.old) (K.tables keeper.new) (K.faults keeper.old) (K.faults keeper.new)) (K.course keeper.old) (K.course keeper.new))) }
{
    let settled = settle_text(alloc, text, path, keeper);
    tell_settled(&settled, out, errs)
}

/// Loads the tables, and returns the answer about them.
fn settle_text<K: Keeper>(
    alloc: Global,
    text: StoreText,
    path: &str,
    keeper: &mut K,
) -> Result<Answer, KeeperStop>
    ensures { Settles path.now (TextMeans text)
        (keeper_told (object (K.tables keeper.old) (K.tables keeper.new) (K.faults keeper.old) (K.faults keeper.new)) (K.course keeper.old) (K.course keeper.new)) result }
{
    let tables = load_at(alloc, path, keeper)?;
    answer_or_want(answer_text(alloc, &tables, text))
}

/// Returns the text as an answer, or the refusal if there is no such text.
fn answer_text(alloc: Global, tables: &Tables, text: StoreText) -> Result<Answer, AllocError>
    ensures { IfOk result (λ answer. saying answer ≡ text_or_refusal (stored_text text.text text.round tables.now)) }
{
    let round = text.round;
    match text.text {
        RoundText::Report => made_answer(alloc, round_report(alloc, tables, round)),
        RoundText::Pool => made_answer(alloc, round_pool(alloc, tables, round)),
        RoundText::Page => page_answer(alloc, tables, round),
    }
}

/// Returns the answer with the text that was made, or the refusal if none was.
fn made_answer(alloc: Global, made: Result<Vec<u8>, PoolStop>) -> Result<Answer, AllocError>
    ensures { (is : Result (List ℕ) SeenRefusal) → TellsReport is made → IfOk result (λ answer. saying answer ≡ text_or_refusal is) }
{
    match made {
        Ok(text) => Ok(Answer::Prints {
            printed: Printed::Done,
            text,
        }),
        Err(stop) => stop_answer(alloc, stop),
    }
}

/// Returns the text of a round's pool.
fn round_pool(alloc: Global, tables: &Tables, round: usize) -> Result<Vec<u8>, PoolStop>
    ensures { TellsReport (pool_text (pool_of_round tables.now round)) result }
{
    let pool = pool_of(alloc, tables, round)?;
    Ok(write_pool(alloc, &pool)?)
}

/// Returns the answer that says why there is no text: there is no such round, or it has no pool. Fails for want of memory.
fn stop_answer(alloc: Global, stop: PoolStop) -> Result<Answer, AllocError>
    ensures refused { IfOk result (λ answer. IfSome (refusal_of stop) (λ refusal. saying answer ≡ refused_by refusal)) }
    ensures want { stop ≡ OutOfMemory → OnOk result ⊥ }
{
    match stop {
        PoolStop::NoRound { last } => refusal_answer(alloc, &Refusal::NoRound { last }),
        PoolStop::Incomplete { what } => refusal_answer(alloc, &Refusal::Incomplete { what }),
        PoolStop::OutOfMemory => Err(AllocError),
    }
}
