//! What a command changes, and the tables after it.

ghost use Rattle.std.specs.Prelude.{◌≡◌, ◌++◌, [], ◌∷◌, IfOk, OnOk};
ghost use Rattle.define_offices.specs.Facts.{IsTables};
ghost use Rattle.define_offices.specs.Steps.{apply as applied, withdrawn_at};
ghost use Rattle.define_offices.specs.Tables.{Open, changed_named, taken_named};
ghost use Rattle.office_tables.specs.Changes.{round_after, seen_change};
ghost use Rattle.office_tables.specs.Seen.{seen_parts};

use crate::charters::{Charter, Rules};
use crate::kept_rounds::{Round, copied_rounds};
use crate::numbers::Tickets;
use crate::rows::{Entry, copied_entries};
use crate::tables::{Parts, Tables, copied_charter, copied_rules};
use bundle_text::Bundle;
use pool_model::Name;
use std::alloc::{AllocError, Global};

/// What a command changes. Rounds are named by their numbers, counted from 1.
#[derive(Debug, Drop)]
pub enum Change {
    /// Sets the charter.
    Charter(Charter),
    /// Sets the rules.
    Rules(Rules),
    /// Appends rows to the register.
    Added(Vec<Entry>),
    /// Solves an open round with a bundle.
    Solved {
        /// The round's number.
        round: usize,
        /// The pool with its answer.
        bundle: Bundle,
    },
    /// The seal of a solved round was told.
    Sealed {
        /// The round's number.
        round: usize,
        /// The round number of tickets that is kept with the seal, if one is.
        tickets: Option<Tickets>,
    },
    /// A sealed round was drawn.
    Drawn {
        /// The round's number.
        round: usize,
        /// The digits of the dice.
        digits: Vec<u8>,
    },
    /// A member of a drawn panel dropped out.
    Dropped {
        /// The round's number.
        round: usize,
        /// The member's id.
        id: Name,
    },
    /// Opens the next round, after the last one.
    Next,
    /// A volunteer withdrew.
    Withdrawn {
        /// The place of the volunteer's row, counted from 0.
        place: usize,
    },
    /// Sets other bounds for the last round.
    Bounds(Rules),
    /// A dropout is taken back.
    TakenBack {
        /// The round's number.
        round: usize,
        /// The member's id.
        id: Name,
    },
    /// The last round is taken away while it is open.
    Reopened {
        /// The round's number.
        round: usize,
    },
}

/// Returns the tables after a change. The caller must show that `IsTables` holds of the changed tables. It does after each change that an
/// office decides.
pub fn apply(alloc: Global, tables: &Tables, change: &Change) -> Result<Tables, AllocError>
    requires { IsTables (applied tables.now (seen_change change.now)) }
    ensures { IfOk result (λ changed. changed ≡ applied tables.now (seen_change change.now)) }
{
    let parts = changed_parts(alloc, tables, change)?;
    Tables::from_parts(alloc, parts)
}

/// Returns the parts of the tables after a change.
fn changed_parts(alloc: Global, tables: &Tables, change: &Change) -> Result<Parts, AllocError>
    ensures { IfOk result (λ parts. seen_parts parts ≡ applied tables.now (seen_change change.now)) }
{
    Ok(Parts {
        charter: charter_after(tables, change)?,
        rules: rules_after(tables, change)?,
        register: register_after(alloc, tables, change)?,
        rounds: rounds_after(alloc, tables, change)?,
        bounds: bounds_after(tables, change)?,
    })
}

/// Returns the charter after a change.
fn charter_after(tables: &Tables, change: &Change) -> Result<Option<Charter>, AllocError>
    ensures { IfOk result (λ charter. charter ≡ (applied tables.now (seen_change change.now)).charter) }
{
    match change {
        Change::Charter(charter) => Ok(Some(charter.copy()?)),
        _ => copied_charter(tables.charter()),
    }
}

/// Returns the rules after a change.
fn rules_after(tables: &Tables, change: &Change) -> Result<Option<Rules>, AllocError>
    ensures { IfOk result (λ rules. rules ≡ (applied tables.now (seen_change change.now)).rules) }
{
    match change {
        Change::Rules(rules) => Ok(Some(rules.copy()?)),
        _ => copied_rules(tables.rules()),
    }
}

/// Returns the bounds of the last round after a change.
fn bounds_after(tables: &Tables, change: &Change) -> Result<Option<Rules>, AllocError>
    ensures { IfOk result (λ bounds. bounds ≡ (applied tables.now (seen_change change.now)).bounds) }
{
    match change {
        Change::Bounds(bounds) => Ok(Some(bounds.copy()?)),
        Change::Next | Change::Reopened { .. } => Ok(None),
        _ => copied_rules(tables.bounds()),
    }
}

/// Returns the rows of the register after a change.
fn register_after(alloc: Global, tables: &Tables, change: &Change) -> Result<Vec<Entry>, AllocError>
    ensures { IfOk result (λ register. register.items ≡ (applied tables.now (seen_change change.now)).register) }
{
    match change {
        Change::Added(entries) => both(alloc, tables.register(), entries),
        Change::Withdrawn { place } => withdrawn(alloc, tables.register(), *place),
        _ => copied_entries(alloc, tables.register()),
    }
}

/// Returns copies of the rows of `register`, then of those of `added`.
fn both(alloc: Global, register: &[Entry], added: &[Entry]) -> Result<Vec<Entry>, AllocError>
    ensures { IfOk result (λ all. all.items ≡ register.now ++ added.now) }
{
    let mut all = copied_entries(alloc, register)?;
    push_entries(&mut all, added)?;
    Ok(all)
}

/// Appends copies of the rows in `added`.
fn push_entries(all: &mut Vec<Entry>, added: &[Entry]) -> Result<(), AllocError>
    ensures { OnOk result (all.new.items ≡ all.old.items ++ added.now) }
{
    for entry in added {
        all.push(entry.copy()?)?;
    }
    Ok(())
}

/// Returns the rows with row `place` marked as withdrawn. If there is no row `place`, returns equal rows.
fn withdrawn(alloc: Global, register: &[Entry], place: usize) -> Result<Vec<Entry>, AllocError>
    ensures { IfOk result (λ after. after.items ≡ withdrawn_at register.now place) }
{
    if register.len() <= place {
        return copied_entries(alloc, register);
    }
    let mut after = copied_entries(alloc, &register[..place])?;
    after.push(register[place].copy_withdrawn()?)?;
    push_entries(&mut after, &register[place + 1..])?;
    Ok(after)
}

/// Returns the rounds after a change.
fn rounds_after(alloc: Global, tables: &Tables, change: &Change) -> Result<Vec<Round>, AllocError>
    ensures { IfOk result (λ rounds. rounds.items ≡ (applied tables.now (seen_change change.now)).rounds) }
{
    match change {
        Change::Solved { round, .. }
        | Change::Sealed { round, .. }
        | Change::Drawn { round, .. }
        | Change::Dropped { round, .. }
        | Change::TakenBack { round, .. } => with_round(alloc, tables.rounds(), *round, change),
        Change::Next => one_more(alloc, tables.rounds()),
        Change::Reopened { round } => without_round(alloc, tables.rounds(), *round),
        _ => copied_rounds(alloc, tables.rounds()),
    }
}

/// Returns the rounds after the change of round `number`, counted from 1. If there is no such round, returns equal rounds.
fn with_round(
    alloc: Global,
    rounds: &[Round],
    number: usize,
    change: &Change,
) -> Result<Vec<Round>, AllocError>
    ensures { IfOk result (λ after. after.items ≡ changed_named (round_after (seen_change change.now)) rounds.now number) }
{
    if number == 0 || rounds.len() < number {
        return copied_rounds(alloc, rounds);
    }
    let place = number - 1;
    let mut after = copied_rounds(alloc, &rounds[..place])?;
    after.push(changed_round(&rounds[place], change)?)?;
    push_rounds(&mut after, &rounds[place + 1..])?;
    Ok(after)
}

/// Appends copies of the rounds in `added`.
fn push_rounds(all: &mut Vec<Round>, added: &[Round]) -> Result<(), AllocError>
    ensures { OnOk result (all.new.items ≡ all.old.items ++ added.now) }
{
    for round in added {
        all.push(round.copy()?)?;
    }
    Ok(())
}

/// Returns what a change makes of a round.
fn changed_round(round: &Round, change: &Change) -> Result<Round, AllocError>
    ensures { IfOk result (λ after. after ≡ round_after (seen_change change.now) round.now) }
{
    match change {
        Change::Solved { bundle, .. } => round.copy_solved(bundle),
        Change::Sealed { tickets, .. } => round.copy_sealed(tickets),
        Change::Drawn { digits, .. } => round.copy_drawn(digits),
        Change::Dropped { id, .. } => round.copy_dropped(id),
        Change::TakenBack { id, .. } => round.copy_taken_back(id),
        _ => round.copy(),
    }
}

/// Returns the rounds without round `number`, counted from 1, if it is the last and open; else equal rounds.
fn without_round(alloc: Global, rounds: &[Round], number: usize) -> Result<Vec<Round>, AllocError>
    ensures { IfOk result (λ after. after.items ≡ taken_named rounds.now number) }
{
    if number == 0 || rounds.len() != number {
        return copied_rounds(alloc, rounds);
    }
    let place = number - 1;
    match rounds[place].bundle() {
        None => copied_rounds(alloc, &rounds[..place]),
        Some(_) => copied_rounds(alloc, rounds),
    }
}

/// Returns the rounds with an open one appended.
fn one_more(alloc: Global, rounds: &[Round]) -> Result<Vec<Round>, AllocError>
    ensures { IfOk result (λ all. all.items ≡ rounds.now ++ Open ∷ []) }
{
    let mut all = copied_rounds(alloc, rounds)?;
    all.push(Round::open(alloc))?;
    Ok(all)
}
