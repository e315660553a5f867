//! Writes a change to a store, in one transaction. A store of version 2 is brought to version 3 by the first change that it has no place
//! for; every other change of it is written by the statements that version 2 has.

ghost use Rattle.std.specs.Prelude.{◌≡◌, not};
ghost use Rattle.define_offices.specs.Versions.{is_second_change};
ghost use Rattle.office_tables.specs.Changes.{seen_change};

use crate::reading::{UNSOUND, USUAL_ROWS};
use crate::schema::{is_third_within, raise_to_third};
use bundle_text::{Bundle, write_bundle};
use office_core::{Change, Charter, Entry, Rules};
use office_tables::Tickets;
use pool_model::{Category, Name};
use sqlite::types::ValueRef;
use sqlite::{Alter, Connection, Error, ErrorCode, Row, Transaction, params};
use std::alloc::Global;

/// The number by which a store names the phase `Open`. The numbers of the three other phases follow.
pub(crate) const OPEN: i64 = 0;

pub(crate) const SOLVED: i64 = 1;

pub(crate) const SEALED: i64 = 2;

pub(crate) const DRAWN: i64 = 3;

const INSERT_BOUND: &str =
    "INSERT INTO bound (category_place, category, value_place, value, lower, upper) VALUES (?1, ?2, ?3, ?4, ?5, ?6)";

const INSERT_ROUND_BOUND: &str =
    "INSERT INTO round_bound (category_place, category, value_place, value, lower, upper) VALUES (?1, ?2, ?3, ?4, ?5, ?6)";

const INSERT_DROPPED: &str = "INSERT INTO dropped (round, place, id) VALUES (?1, ?2, ?3)";

/// Writes a change and commits it. A call that fails leaves the store as it is. If the change is of a round that isn't in the phase that
/// the change needs, or of a place without a row, the call succeeds and nothing changes.
pub(crate) fn write_change<S: Alter>(
    alloc: Global,
    connection: &mut Connection<S>,
    change: &Change,
) -> Result<(), Error> {
    if !connection.is_autocommit() {
        return Err(Error::SqliteFailure(ErrorCode::TransactionState));
    }
    let mut transaction = connection.transaction();
    if needs_third(change) {
        raise_to_third(&mut transaction)?;
    }
    write(alloc, &mut transaction, change)?;
    transaction.commit()
}

/// True if a store of version 2 has no place for the change.
fn needs_third(change: &Change) -> bool
    ensures { result ≡ not (is_second_change (seen_change change.now)) }
{
    match change {
        Change::Charter(charter) => !(charter.volunteers() == USUAL_ROWS),
        Change::Sealed { tickets, .. } => tickets.is_some(),
        Change::Bounds(_) => true,
        _ => false,
    }
}

fn write<S: Alter>(
    alloc: Global,
    transaction: &mut Transaction<'_, S>,
    change: &Change,
) -> Result<(), Error> {
    match change {
        Change::Charter(charter) => set_charter(transaction, charter),
        Change::Rules(rules) => set_rules(transaction, rules),
        Change::Added(entries) => add_entries(alloc, transaction, entries),
        Change::Solved { round, bundle } => solve(alloc, transaction, *round, bundle),
        Change::Sealed { round, tickets } => seal(transaction, *round, tickets),
        Change::Drawn { round, digits } => draw(transaction, *round, digits),
        Change::Dropped { round, id } => drop_out(transaction, *round, id),
        Change::Next => next_round(transaction),
        Change::Withdrawn { place } => withdraw(transaction, *place),
        Change::Bounds(bounds) => set_bounds(transaction, bounds),
        Change::TakenBack { round, id } => take_back(transaction, *round, id),
        Change::Reopened { round } => reopen(transaction, *round),
    }
}

/// Runs a statement.
fn run<S: Alter>(
    transaction: &mut Transaction<'_, S>,
    statement: &str,
    values: &[ValueRef<'_>],
) -> Result<(), Error> {
    transaction.execute(statement, values)?;
    Ok(())
}

/// Returns the number that a query counts.
fn count<S: Alter>(
    transaction: &mut Transaction<'_, S>,
    query: &str,
    values: &[ValueRef<'_>],
) -> Result<i64, Error> {
    transaction.query_row(query, values)?.get(0)
}

/// Returns the number as a store keeps it. A number that is too great becomes the greatest `i64`, which names no row.
fn stored(number: usize) -> i64 {
    i64::try_from(number).unwrap_or(i64::MAX)
}

// ---- charter and rules

fn set_charter<S: Alter>(
    transaction: &mut Transaction<'_, S>,
    charter: &Charter,
) -> Result<(), Error> {
    run(transaction, "DELETE FROM charter", &[])?;
    insert_charter(transaction, charter)?;
    set_most_rows(transaction, charter.volunteers())
}

/// Keeps how many rows the register takes. A store that says nothing of it takes 400, and so does one of version 2.
fn set_most_rows<S: Alter>(
    transaction: &mut Transaction<'_, S>,
    volunteers: usize,
) -> Result<(), Error> {
    if !is_third_within(transaction)? {
        return Ok(());
    }
    run(transaction, "DELETE FROM most_rows", &[])?;
    if volunteers == USUAL_ROWS {
        return Ok(());
    }
    run(
        transaction,
        "INSERT INTO most_rows (one, volunteers) VALUES (1, ?1)",
        params![stored(volunteers)],
    )
}

fn insert_charter<S: Alter>(
    transaction: &mut Transaction<'_, S>,
    charter: &Charter,
) -> Result<(), Error> {
    run(
        transaction,
        "INSERT INTO charter (one, title, size) VALUES (1, ?1, ?2)",
        params![charter.title().as_str(), stored(charter.size())],
    )
}

fn set_rules<S: Alter>(transaction: &mut Transaction<'_, S>, rules: &Rules) -> Result<(), Error> {
    run(transaction, "DELETE FROM bound", &[])?;
    insert_rules(transaction, INSERT_BOUND, rules)
}

/// Sets the bounds of the last round.
fn set_bounds<S: Alter>(transaction: &mut Transaction<'_, S>, bounds: &Rules) -> Result<(), Error> {
    run(transaction, "DELETE FROM round_bound", &[])?;
    insert_rules(transaction, INSERT_ROUND_BOUND, bounds)
}

/// Takes the bounds of the last round away. A store of version 2 has none.
fn clear_bounds<S: Alter>(transaction: &mut Transaction<'_, S>) -> Result<(), Error> {
    if is_third_within(transaction)? {
        run(transaction, "DELETE FROM round_bound", &[])
    } else {
        Ok(())
    }
}

/// Inserts a row for each value, by this statement.
fn insert_rules<S: Alter>(
    transaction: &mut Transaction<'_, S>,
    statement: &str,
    rules: &Rules,
) -> Result<(), Error> {
    for (place, category) in rules.categories().iter().enumerate() {
        insert_category(transaction, statement, place, category)?;
    }
    Ok(())
}

fn insert_category<S: Alter>(
    transaction: &mut Transaction<'_, S>,
    statement: &str,
    place: usize,
    category: &Category,
) -> Result<(), Error> {
    for (value_place, value) in category.values().iter().enumerate() {
        let name = category.name().as_str();
        run(
            transaction,
            statement,
            params![
                stored(place),
                name,
                stored(value_place),
                value.name().as_str(),
                stored(value.lower()),
                stored(value.upper())
            ],
        )?;
    }
    Ok(())
}

// ---- the register

fn add_entries<S: Alter>(
    alloc: Global,
    transaction: &mut Transaction<'_, S>,
    entries: &[Entry],
) -> Result<(), Error> {
    let mut place = count(transaction, "SELECT count(*) FROM volunteer", &[])?;
    for entry in entries {
        add_entry(alloc, transaction, place, entry)?;
        place = place.saturating_add(1);
    }
    Ok(())
}

fn add_entry<S: Alter>(
    alloc: Global,
    transaction: &mut Transaction<'_, S>,
    place: i64,
    entry: &Entry,
) -> Result<(), Error> {
    insert_volunteer(alloc, transaction, place, entry)?;
    match entry.household() {
        Some(name) => run(
            transaction,
            "INSERT INTO household (place, name) VALUES (?1, ?2)",
            params![place, name.as_str()],
        ),
        None => Ok(()),
    }
}

fn insert_volunteer<S: Alter>(
    alloc: Global,
    transaction: &mut Transaction<'_, S>,
    place: i64,
    entry: &Entry,
) -> Result<(), Error> {
    let answers = joined(alloc, entry.values())?;
    run(
        transaction,
        "INSERT INTO volunteer (place, id, keyhash, answers, withdrawn) VALUES (?1, ?2, ?3, ?4, ?5)",
        params![
            place,
            entry.id().as_str(),
            entry.hash().as_str(),
            &answers,
            entry.withdrawn()
        ],
    )
}

/// Returns the names as one text, with a TAB between two of them.
fn joined(alloc: Global, names: &[Name]) -> Result<String, Error> {
    let mut text = String::new(alloc);
    for (place, name) in names.iter().enumerate() {
        if place > 0 {
            text.push('\t')?;
        }
        text.push_str(name.as_str())?;
    }
    Ok(text)
}

fn withdraw<S: Alter>(transaction: &mut Transaction<'_, S>, place: usize) -> Result<(), Error> {
    run(
        transaction,
        "UPDATE volunteer SET withdrawn = 1 WHERE place = ?1",
        params![stored(place)],
    )
}

// ---- rounds

fn solve<S: Alter>(
    alloc: Global,
    transaction: &mut Transaction<'_, S>,
    round: usize,
    bundle: &Bundle,
) -> Result<(), Error> {
    let text = write_bundle(alloc, bundle.pool(), bundle.answer())?;
    run(
        transaction,
        "UPDATE round SET phase = ?2, bundle = ?3 WHERE number = ?1 AND phase = ?4",
        params![stored(round), SOLVED, &text, OPEN],
    )
}

fn seal<S: Alter>(
    transaction: &mut Transaction<'_, S>,
    round: usize,
    tickets: &Option<Tickets>,
) -> Result<(), Error> {
    match tickets {
        Some(tickets) => seal_with(transaction, stored(round), tickets),
        None => mark_sealed(transaction, stored(round)),
    }
}

fn mark_sealed<S: Alter>(transaction: &mut Transaction<'_, S>, round: i64) -> Result<(), Error> {
    run(
        transaction,
        "UPDATE round SET phase = ?2 WHERE number = ?1 AND phase = ?3",
        params![round, SEALED, SOLVED],
    )
}

/// Marks a solved round as sealed, and keeps the number of tickets with it. Does nothing if the round isn't solved.
fn seal_with<S: Alter>(
    transaction: &mut Transaction<'_, S>,
    round: i64,
    tickets: &Tickets,
) -> Result<(), Error> {
    if count_in(transaction, round, SOLVED)? == 0 {
        return Ok(());
    }
    mark_sealed(transaction, round)?;
    run(
        transaction,
        "INSERT INTO tickets (round, number) VALUES (?1, ?2)",
        params![round, i64::from(tickets.count())],
    )
}

/// Marks a sealed round as drawn by these digits. Digits that are not UTF-8 are refused.
fn draw<S: Alter>(
    transaction: &mut Transaction<'_, S>,
    round: usize,
    digits: &[u8],
) -> Result<(), Error> {
    let Ok(digits) = std::str::from_utf8(digits) else {
        return Err(UNSOUND);
    };
    run(
        transaction,
        "UPDATE round SET phase = ?2, digits = ?3 WHERE number = ?1 AND phase = ?4",
        params![stored(round), DRAWN, digits, SEALED],
    )
}

/// Adds a dropout after the earlier ones of a round. Does nothing if the round isn't drawn.
fn drop_out<S: Alter>(
    transaction: &mut Transaction<'_, S>,
    round: usize,
    id: &Name,
) -> Result<(), Error> {
    let round = stored(round);
    if count_in(transaction, round, DRAWN)? == 0 {
        return Ok(());
    }
    let place = count(
        transaction,
        "SELECT count(*) FROM dropped WHERE round = ?1",
        params![round],
    )?;
    run(
        transaction,
        INSERT_DROPPED,
        params![round, place, id.as_str()],
    )
}

/// Takes the dropouts of a member back. Those after them move up, so that the places stay consecutive.
fn take_back<S: Alter>(
    transaction: &mut Transaction<'_, S>,
    round: usize,
    id: &Name,
) -> Result<(), Error> {
    let round = stored(round);
    let others = others_dropped(transaction, round, id)?;
    run(
        transaction,
        "DELETE FROM dropped WHERE round = ?1",
        params![round],
    )?;
    insert_dropped(transaction, round, &others)
}

/// Returns the dropouts of a round other than those of this member, in order.
fn others_dropped<S: Alter>(
    transaction: &mut Transaction<'_, S>,
    round: i64,
    id: &Name,
) -> Result<Vec<Row>, Error> {
    transaction.query_all(
        "SELECT id FROM dropped WHERE round = ?1 AND id <> ?2 ORDER BY place",
        params![round, id.as_str()],
    )
}

/// Inserts the dropouts of a round, which has none.
fn insert_dropped<S: Alter>(
    transaction: &mut Transaction<'_, S>,
    round: i64,
    rows: &[Row],
) -> Result<(), Error> {
    for (place, row) in rows.iter().enumerate() {
        let id: String = row.get(0)?;
        run(
            transaction,
            INSERT_DROPPED,
            params![round, stored(place), id.as_str()],
        )?;
    }
    Ok(())
}

/// Counts the rounds of this number and phase: 0 or 1.
fn count_in<S: Alter>(
    transaction: &mut Transaction<'_, S>,
    round: i64,
    phase: i64,
) -> Result<i64, Error> {
    count(
        transaction,
        "SELECT count(*) FROM round WHERE number = ?1 AND phase = ?2",
        params![round, phase],
    )
}

fn count_rounds<S: Alter>(transaction: &mut Transaction<'_, S>) -> Result<i64, Error> {
    count(transaction, "SELECT count(*) FROM round", &[])
}

fn next_round<S: Alter>(transaction: &mut Transaction<'_, S>) -> Result<(), Error> {
    let rounds = count_rounds(transaction)?;
    add_round(transaction, rounds.saturating_add(1))?;
    clear_bounds(transaction)
}

/// Takes a round away if it is the last and open. The bounds of the last round go.
fn reopen<S: Alter>(transaction: &mut Transaction<'_, S>, round: usize) -> Result<(), Error> {
    let round = stored(round);
    if count_rounds(transaction)? == round {
        run(
            transaction,
            "DELETE FROM round WHERE number = ?1 AND phase = ?2",
            params![round, OPEN],
        )?;
    }
    clear_bounds(transaction)
}

/// Adds an open round. It has neither a bundle nor digits.
pub(crate) fn add_round<S: Alter>(
    transaction: &mut Transaction<'_, S>,
    number: i64,
) -> Result<(), Error> {
    let nothing: &[u8] = b"";
    run(
        transaction,
        "INSERT INTO round (number, phase, bundle, digits) VALUES (?1, ?2, ?3, ?4)",
        params![number, OPEN, nothing, ""],
    )
}
