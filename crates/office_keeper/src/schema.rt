//! The SQL tables of a store. A new store has version 2. Tables that are missing are made, a store of version 1 is brought to version 2,
//! and one of version 2 to version 3 with the first change that needs it.

use crate::reading::UNSOUND;
use crate::writing::add_round;
use sqlite::{Alter, Connection, Error, ErrorCode, Row, Transaction, params};

/// The version of a new store.
const VERSION: i64 = 2;

/// The earlier version, whose stores have no table `household`.
const FIRST_VERSION: i64 = 1;

/// The version of a store that has the tables of `FURTHER_TABLES` too.
const THIRD_VERSION: i64 = 3;

/// The statements that make the tables that are missing.
const TABLES: &str = "
CREATE TABLE IF NOT EXISTS charter (
    one INTEGER PRIMARY KEY,
    title TEXT NOT NULL,
    size INTEGER NOT NULL
) STRICT;
CREATE TABLE IF NOT EXISTS bound (
    category_place INTEGER NOT NULL,
    category TEXT NOT NULL,
    value_place INTEGER NOT NULL,
    value TEXT NOT NULL,
    lower INTEGER NOT NULL,
    upper INTEGER NOT NULL,
    PRIMARY KEY (category_place, value_place)
) STRICT;
CREATE TABLE IF NOT EXISTS volunteer (
    place INTEGER PRIMARY KEY,
    id TEXT NOT NULL UNIQUE,
    keyhash TEXT NOT NULL UNIQUE,
    answers TEXT NOT NULL,
    withdrawn INTEGER NOT NULL
) STRICT;
CREATE TABLE IF NOT EXISTS household (
    place INTEGER PRIMARY KEY REFERENCES volunteer (place),
    name TEXT NOT NULL
) STRICT;
CREATE TABLE IF NOT EXISTS round (
    number INTEGER PRIMARY KEY,
    phase INTEGER NOT NULL,
    bundle BLOB NOT NULL,
    digits TEXT NOT NULL
) STRICT;
CREATE TABLE IF NOT EXISTS dropped (
    round INTEGER NOT NULL REFERENCES round (number),
    place INTEGER NOT NULL,
    id TEXT NOT NULL,
    PRIMARY KEY (round, place)
) STRICT;
";

/// The statements that make the tables of version 3 that are missing: how many rows the register takes, if not 400; the number of tickets
/// that was kept with a seal; and the bounds that were set for the last round.
const FURTHER_TABLES: &str = "
CREATE TABLE IF NOT EXISTS most_rows (
    one INTEGER PRIMARY KEY,
    volunteers INTEGER NOT NULL
) STRICT;
CREATE TABLE IF NOT EXISTS tickets (
    round INTEGER PRIMARY KEY REFERENCES round (number),
    number INTEGER NOT NULL
) STRICT;
CREATE TABLE IF NOT EXISTS round_bound (
    category_place INTEGER NOT NULL,
    category TEXT NOT NULL,
    value_place INTEGER NOT NULL,
    value TEXT NOT NULL,
    lower INTEGER NOT NULL,
    upper INTEGER NOT NULL,
    PRIMARY KEY (category_place, value_place)
) STRICT;
";

const META: &str = "CREATE TABLE IF NOT EXISTS meta (version INTEGER NOT NULL) STRICT";

const VERSIONS: &str = "SELECT version FROM meta ORDER BY version";

/// Makes in one transaction what a store lacks: its tables, its version and, if the store is new, the first round. Refuses a store of an
/// unknown version.
pub(crate) fn complete<S: Alter>(connection: &mut Connection<S>) -> Result<(), Error> {
    if !connection.is_autocommit() {
        return Err(Error::SqliteFailure(ErrorCode::TransactionState));
    }
    let mut transaction = connection.transaction();
    make(&mut transaction)?;
    transaction.commit()
}

/// Makes a new store in one transaction. Refuses a store that has a version, which somebody else made.
pub(crate) fn begin_new<S: Alter>(connection: &mut Connection<S>) -> Result<(), Error> {
    if !connection.is_autocommit() {
        return Err(Error::SqliteFailure(ErrorCode::TransactionState));
    }
    let mut transaction = connection.transaction();
    make_new(&mut transaction)?;
    transaction.commit()
}

fn make_new<S: Alter>(transaction: &mut Transaction<'_, S>) -> Result<(), Error> {
    make_meta(transaction)?;
    let rows = versions(transaction)?;
    match version_of(&rows)? {
        Some(_) => Err(UNSOUND),
        None => begin(transaction),
    }
}

/// Makes a new store, brings one of version 1 to version 2, or makes the tables that are missing. Fails at any other version.
fn make<S: Alter>(transaction: &mut Transaction<'_, S>) -> Result<(), Error> {
    make_meta(transaction)?;
    let rows = versions(transaction)?;
    match version_of(&rows)? {
        Some(VERSION) => make_tables(transaction),
        Some(THIRD_VERSION) => make_all_tables(transaction),
        Some(FIRST_VERSION) => raise(transaction),
        Some(_) => Err(UNSOUND),
        None => begin(transaction),
    }
}

/// True if the store has version 2 or 3, so that it lacks nothing.
pub(crate) fn is_current<S: Alter>(connection: &mut Connection<S>) -> Result<bool, Error> {
    let rows = connection.query_all(VERSIONS, &[])?;
    let version = version_of(&rows)?;
    Ok(version == Some(VERSION) || version == Some(THIRD_VERSION))
}

/// True if the store has version 3.
pub(crate) fn is_third<S: Alter>(connection: &mut Connection<S>) -> Result<bool, Error> {
    let rows = connection.query_all(VERSIONS, &[])?;
    Ok(version_of(&rows)? == Some(THIRD_VERSION))
}

/// True if the store that is being changed has version 3.
pub(crate) fn is_third_within<S: Alter>(
    transaction: &mut Transaction<'_, S>,
) -> Result<bool, Error> {
    let rows = versions(transaction)?;
    Ok(version_of(&rows)? == Some(THIRD_VERSION))
}

/// Brings a store of version 2 to version 3. One of version 3 stays as it is.
pub(crate) fn raise_to_third<S: Alter>(transaction: &mut Transaction<'_, S>) -> Result<(), Error> {
    if is_third_within(transaction)? {
        return Ok(());
    }
    make_further_tables(transaction)?;
    set_version(transaction, THIRD_VERSION)
}

/// Returns the version that the row of `meta` has, or None if there is no row. Fails if there are several rows.
fn version_of(rows: &[Row]) -> Result<Option<i64>, Error> {
    match rows.first() {
        Some(_) if rows.len() > 1 => Err(UNSOUND),
        Some(row) => Ok(Some(row.get(0)?)),
        None => Ok(None),
    }
}

/// Makes a new store: its tables, its version and the first round.
fn begin<S: Alter>(transaction: &mut Transaction<'_, S>) -> Result<(), Error> {
    make_tables(transaction)?;
    insert_version(transaction)?;
    add_round(transaction, 1)
}

/// Brings a store of version 1 to version 2.
fn raise<S: Alter>(transaction: &mut Transaction<'_, S>) -> Result<(), Error> {
    make_tables(transaction)?;
    set_version(transaction, VERSION)
}

fn make_meta<S: Alter>(transaction: &mut Transaction<'_, S>) -> Result<(), Error> {
    transaction.execute_batch(META)
}

fn versions<S: Alter>(transaction: &mut Transaction<'_, S>) -> Result<Vec<Row>, Error> {
    transaction.query_all(VERSIONS, &[])
}

fn make_tables<S: Alter>(transaction: &mut Transaction<'_, S>) -> Result<(), Error> {
    transaction.execute_batch(TABLES)
}

fn make_further_tables<S: Alter>(transaction: &mut Transaction<'_, S>) -> Result<(), Error> {
    transaction.execute_batch(FURTHER_TABLES)
}

fn make_all_tables<S: Alter>(transaction: &mut Transaction<'_, S>) -> Result<(), Error> {
    make_tables(transaction)?;
    make_further_tables(transaction)
}

fn insert_version<S: Alter>(transaction: &mut Transaction<'_, S>) -> Result<(), Error> {
    transaction.execute("INSERT INTO meta (version) VALUES (?1)", params![VERSION])?;
    Ok(())
}

fn set_version<S: Alter>(transaction: &mut Transaction<'_, S>, version: i64) -> Result<(), Error> {
    transaction.execute("UPDATE meta SET version = ?1", params![version])?;
    Ok(())
}
