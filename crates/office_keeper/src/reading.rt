//! Reads the rows of a store as tables. It trusts nothing in the store: it tests numbers, places and texts, and then the facts that
//! `tables_of` lists.

use crate::schema::is_third;
use crate::writing::{DRAWN, OPEN, SEALED, SOLVED};
use bundle_text::{Bundle, ReadBundle, read_bundle};
use office_core::{Charter, Entry, Parts, Phase, Round, Rules, Tables, tables_of};
use office_tables::Tickets;
use pool_model::{BuildStop, Category, Name, Pool};
use sqlite::{Alter, Connection, Error, ErrorCode, Row};
use std::alloc::Global;

/// The error for a store whose rows make no tables or whose version is unknown, and for digits that are not UTF-8.
pub(crate) const UNSOUND: Error = Error::SqliteFailure(ErrorCode::DatabaseCorrupt);

/// How many rows the register takes if the store doesn't say so.
pub(crate) const USUAL_ROWS: usize = 400;

const OUT_OF_MEMORY: Error = Error::SqliteFailure(ErrorCode::OutOfMemory);

/// Returns the tables of the office that a store keeps. Each SQL table is read whole, ordered by its key; those of version 3 only if the
/// store has this version.
pub(crate) fn read_tables<S: Alter>(
    alloc: Global,
    connection: &mut Connection<S>,
) -> Result<Tables, Error> {
    if !connection.is_autocommit() {
        return Err(Error::SqliteFailure(ErrorCode::TransactionState));
    }
    let parts = read_parts(alloc, connection)?;
    match tables_of(alloc, parts)? {
        Some(tables) => Ok(tables),
        None => Err(UNSOUND),
    }
}

fn read_parts<S: Alter>(alloc: Global, connection: &mut Connection<S>) -> Result<Parts, Error> {
    let third = is_third(connection)?;
    let charter = read_charter(alloc, connection, third)?;
    let rules = read_rules(alloc, connection)?;
    let register = read_register(alloc, connection)?;
    let rounds = read_rounds(alloc, connection, third)?;
    let bounds = read_bounds(alloc, connection, third)?;
    Ok(Parts {
        charter,
        rules,
        register,
        rounds,
        bounds,
    })
}

fn rows_of<S: Alter>(connection: &mut Connection<S>, query: &str) -> Result<Vec<Row>, Error> {
    connection.query_all(query, &[])
}

/// Returns the rows of a query about a table of version 3, or no rows if the store hasn't this version.
fn further_rows_of<S: Alter>(
    alloc: Global,
    connection: &mut Connection<S>,
    query: &str,
    third: bool,
) -> Result<Vec<Row>, Error> {
    if third {
        rows_of(connection, query)
    } else {
        Ok(Vec::new(alloc))
    }
}

fn read_charter<S: Alter>(
    alloc: Global,
    connection: &mut Connection<S>,
    third: bool,
) -> Result<Option<Charter>, Error> {
    let rows = rows_of(
        connection,
        "SELECT one, title, size FROM charter ORDER BY one",
    )?;
    let most = further_rows_of(
        alloc,
        connection,
        "SELECT one, volunteers FROM most_rows ORDER BY one",
        third,
    )?;
    charter_of(alloc, &rows, &most)
}

fn read_rules<S: Alter>(
    alloc: Global,
    connection: &mut Connection<S>,
) -> Result<Option<Rules>, Error> {
    let rows = rows_of(
        connection,
        "SELECT category_place, category, value_place, value, lower, upper FROM bound ORDER BY category_place, value_place",
    )?;
    rules_of(alloc, &rows)
}

fn read_bounds<S: Alter>(
    alloc: Global,
    connection: &mut Connection<S>,
    third: bool,
) -> Result<Option<Rules>, Error> {
    let rows = further_rows_of(
        alloc,
        connection,
        "SELECT category_place, category, value_place, value, lower, upper FROM round_bound ORDER BY category_place, value_place",
        third,
    )?;
    rules_of(alloc, &rows)
}

fn read_register<S: Alter>(
    alloc: Global,
    connection: &mut Connection<S>,
) -> Result<Vec<Entry>, Error> {
    let rows = rows_of(
        connection,
        "SELECT place, id, keyhash, answers, withdrawn FROM volunteer ORDER BY place",
    )?;
    let households = rows_of(
        connection,
        "SELECT place, name FROM household ORDER BY place",
    )?;
    register_of(alloc, &rows, &households)
}

fn read_rounds<S: Alter>(
    alloc: Global,
    connection: &mut Connection<S>,
    third: bool,
) -> Result<Vec<Round>, Error> {
    let rounds = rows_of(
        connection,
        "SELECT number, phase, bundle, digits FROM round ORDER BY number",
    )?;
    let dropped = rows_of(
        connection,
        "SELECT round, place, id FROM dropped ORDER BY round, place",
    )?;
    let tickets = further_rows_of(
        alloc,
        connection,
        "SELECT round, number FROM tickets ORDER BY round",
        third,
    )?;
    rounds_of(
        alloc,
        &RoundRows {
            rounds,
            dropped,
            tickets,
        },
    )
}

// ---- single values

/// Returns the number of a column, which is at least 0.
fn number(row: &Row, column: usize) -> Result<usize, Error> {
    let number: u64 = row.get(column)?;
    Ok(number as usize)
}

/// True if a column has this number.
fn has_number(row: &Row, column: usize, wanted: usize) -> Result<bool, Error> {
    Ok(number(row, column)? == wanted)
}

/// Returns the text of a column.
fn text(row: &Row, column: usize) -> Result<String, Error> {
    row.get(column)
}

/// Returns the text of a column as a name. Whether it is within the limits of a name is tested later.
fn name(alloc: Global, row: &Row, column: usize) -> Result<Name, Error> {
    let text = text(row, column)?;
    Ok(Name::new(alloc, text.as_str())?)
}

/// Returns the bytes of a column.
fn bytes(row: &Row, column: usize) -> Result<Vec<u8>, Error> {
    row.get(column)
}

/// Returns an error exactly if `holds` is false.
fn require(holds: bool) -> Result<(), Error> {
    if holds { Ok(()) } else { Err(UNSOUND) }
}

// ---- charter and rules

/// Returns the charter of the only row, or None if there is no row. Fails if there are several rows, if the row makes no charter, or if
/// there is a row of `most` and no charter.
fn charter_of(alloc: Global, rows: &[Row], most: &[Row]) -> Result<Option<Charter>, Error> {
    let Some(row) = rows.first() else {
        require(most.is_empty())?;
        return Ok(None);
    };
    require(rows.len() == 1 && has_number(row, 0, 1)?)?;
    let volunteers = most_rows_of(most)?;
    match Charter::new(name(alloc, row, 1)?, number(row, 2)?, volunteers) {
        Some(charter) => Ok(Some(charter)),
        None => Err(UNSOUND),
    }
}

/// Returns how many rows the register takes, by the only row, or 400 if there is no row. Fails if there are several rows.
fn most_rows_of(rows: &[Row]) -> Result<usize, Error> {
    let Some(row) = rows.first() else {
        return Ok(USUAL_ROWS);
    };
    require(rows.len() == 1 && has_number(row, 0, 1)?)?;
    number(row, 1)
}

/// Returns the rules of these rows, one for each value, or None if there is no row.
fn rules_of(alloc: Global, rows: &[Row]) -> Result<Option<Rules>, Error> {
    if rows.is_empty() {
        return Ok(None);
    }
    let pool = pool_of(alloc, rows)?;
    match Rules::of_pool(alloc, &pool)? {
        Some(rules) => Ok(Some(rules)),
        None => Err(UNSOUND),
    }
}

/// Returns a pool with the categories of these rows.
fn pool_of(alloc: Global, rows: &[Row]) -> Result<Pool, Error> {
    let mut pool = built(Pool::new(alloc, 1))?;
    for row in rows {
        add_bound(&mut pool, row)?;
    }
    Ok(pool)
}

/// Adds the value of a row to the pool's last category, or to a new one if it is the category's first.
fn add_bound(pool: &mut Pool, row: &Row) -> Result<(), Error> {
    let category = text(row, 1)?;
    let value = text(row, 3)?;
    if has_number(row, 2, 0)? {
        built(pool.add_category(category.as_str()))?;
    }
    require(comes_next(pool.categories(), row, category.as_str())?)?;
    let (lower, upper) = (number(row, 4)?, number(row, 5)?);
    built(pool.add_value(value.as_str(), lower, upper))
}

/// True if the row is the next value of the last category: it has the category's place and name, and the place after its last value.
fn comes_next(categories: &[Category], row: &Row, name: &str) -> Result<bool, Error> {
    let Some(last) = categories.last() else {
        return Ok(false);
    };
    Ok(
        has_number(row, 0, categories.len() - 1)?
            && last.name().as_str() == name
            && has_number(row, 2, last.values().len())?,
    )
}

fn built<T>(answer: Result<T, BuildStop>) -> Result<T, Error> {
    match answer {
        Ok(value) => Ok(value),
        Err(BuildStop::OutOfMemory) => Err(OUT_OF_MEMORY),
        Err(BuildStop::Kind(_)) => Err(UNSOUND),
    }
}

// ---- the register

/// Returns the rows of the register. Fails unless their places are consecutive from 0 and each household has the place of one of them.
fn register_of(alloc: Global, rows: &[Row], households: &[Row]) -> Result<Vec<Entry>, Error> {
    let mut entries = Vec::new(alloc);
    let mut housed = 0usize;
    for row in rows {
        let place = entries.len();
        require(has_number(row, 0, place)?)?;
        let household = household_of(alloc, households.get(housed), place)?;
        if household.is_some() {
            housed = housed.saturating_add(1);
        }
        entries.push(entry_of(alloc, row, household)?)?;
    }
    require(housed == households.len())?;
    Ok(entries)
}

/// Returns the household of a row of households, or None if there is no row or its place isn't `place`.
fn household_of(alloc: Global, row: Option<&Row>, place: usize) -> Result<Option<Name>, Error> {
    match row {
        Some(row) if has_number(row, 0, place)? => Ok(Some(name(alloc, row, 1)?)),
        _ => Ok(None),
    }
}

fn entry_of(alloc: Global, row: &Row, household: Option<Name>) -> Result<Entry, Error> {
    let withdrawn = number(row, 4)?;
    require(withdrawn <= 1)?;
    let answers = text(row, 3)?;
    Ok(Entry::from_parts(
        name(alloc, row, 1)?,
        name(alloc, row, 2)?,
        split_answers(alloc, answers.as_str())?,
        household,
        withdrawn == 1,
    ))
}

/// Returns the names in `answers`, which has a TAB between two of them.
fn split_answers(alloc: Global, answers: &str) -> Result<Vec<Name>, Error> {
    let mut values = Vec::new(alloc);
    for value in answers.split('\t') {
        values.push(Name::new(alloc, value)?)?;
    }
    Ok(values)
}

// ---- rounds

/// The rows of the rounds, of their dropouts, and of the numbers of tickets that were kept with their seals.
#[derive(Drop)]
struct RoundRows {
    rounds: Vec<Row>,
    dropped: Vec<Row>,
    tickets: Vec<Row>,
}

/// Returns the rounds. Fails unless their numbers are consecutive from 1, and each dropout and each number of tickets is of one of them.
fn rounds_of(alloc: Global, rows: &RoundRows) -> Result<Vec<Round>, Error> {
    let mut rounds = Vec::new(alloc);
    let mut told = 0usize;
    let mut sealed = 0usize;
    for row in &rows.rounds {
        let number = rounds.len().saturating_add(1);
        require(has_number(row, 0, number)?)?;
        let ids = dropped_of(alloc, &rows.dropped, told, number)?;
        told = told.saturating_add(ids.len());
        let tickets = tickets_of(rows.tickets.get(sealed), number)?;
        if tickets.is_some() {
            sealed = sealed.saturating_add(1);
        }
        rounds.push(round_of(alloc, row, tickets, ids)?)?;
    }
    require(told == rows.dropped.len() && sealed == rows.tickets.len())?;
    Ok(rounds)
}

/// Returns the number of tickets of a row, or None if there is no row or it isn't of round `round`. Fails if the number is out of its
/// range.
fn tickets_of(row: Option<&Row>, round: usize) -> Result<Option<Tickets>, Error> {
    match row {
        Some(row) if has_number(row, 0, round)? => tickets_in(row),
        _ => Ok(None),
    }
}

fn tickets_in(row: &Row) -> Result<Option<Tickets>, Error> {
    let number: u32 = row.get(1)?;
    match Tickets::new(number) {
        Some(tickets) => Ok(Some(tickets)),
        None => Err(UNSOUND),
    }
}

/// Returns the ids of the dropouts of round `round`, which begin at row `told` of `dropped`. Fails unless their places are consecutive
/// from 0.
fn dropped_of(
    alloc: Global,
    dropped: &[Row],
    told: usize,
    round: usize,
) -> Result<Vec<Name>, Error> {
    let mut ids = Vec::new(alloc);
    for row in dropped.iter().skip(told) {
        if !has_number(row, 0, round)? {
            break;
        }
        require(has_number(row, 1, ids.len())?)?;
        ids.push(name(alloc, row, 2)?)?;
    }
    Ok(ids)
}

fn round_of(
    alloc: Global,
    row: &Row,
    tickets: Option<Tickets>,
    dropped: Vec<Name>,
) -> Result<Round, Error> {
    let phase = phase_of(row.get(1)?)?;
    let bundle = bundle_of(alloc, &bytes(row, 2)?)?;
    let digits = text(row, 3)?;
    let digits = Vec::from_slice(alloc, digits.as_bytes())?;
    match Round::from_parts(phase, bundle, tickets, digits, dropped) {
        Some(round) => Ok(round),
        None => Err(UNSOUND),
    }
}

fn phase_of(number: i64) -> Result<Phase, Error> {
    match number {
        OPEN => Ok(Phase::Open),
        SOLVED => Ok(Phase::Solved),
        SEALED => Ok(Phase::Sealed),
        DRAWN => Ok(Phase::Drawn),
        _ => Err(UNSOUND),
    }
}

/// Returns the bundle of this text, or None if it is empty.
fn bundle_of(alloc: Global, text: &[u8]) -> Result<Option<Bundle>, Error> {
    if text.is_empty() {
        return Ok(None);
    }
    match read_bundle(alloc, text) {
        Ok(bundle) => Ok(Some(bundle)),
        Err(ReadBundle::OutOfMemory) => Err(OUT_OF_MEMORY),
        Err(ReadBundle::Fault(_)) => Err(UNSOUND),
    }
}
