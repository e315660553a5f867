//! Stores in memory as two files, a database and its log.

use office_core::{Keeper, Tables};
use sqlite::{Connection, FileStore, Files, Options};
use sqlite_disk::{Disk, Fuse, Memory};
use std::alloc::Global;

/// A store over files in memory that do a given number of calls, and then fail each call.
pub(crate) type Stored = FileStore<Fuse<Memory>>;

/// The bytes of a store's files.
#[derive(Drop)]
pub(crate) struct Kept {
    pub(crate) log: Vec<u8>,
    pub(crate) db: Vec<u8>,
}

/// Returns files that are empty.
pub(crate) fn nothing(alloc: Global) -> Kept {
    Kept {
        log: Vec::new(alloc),
        db: Vec::new(alloc),
    }
}

/// Returns a file of these bytes that does `calls` calls, and then fails each call.
fn file(alloc: Global, bytes: &[u8], calls: u64) -> Option<Fuse<Memory>> {
    let mut memory = Memory::new(alloc);
    memory.write_at(0, bytes).ok()?;
    memory.sync().ok()?;
    Some(Fuse::new(memory, calls))
}

/// Returns the files of these bytes. The log does `log_calls` calls and the database `db_calls`, and then each call fails.
pub(crate) fn files(
    alloc: Global,
    kept: &Kept,
    log_calls: u64,
    db_calls: u64,
) -> Option<Files<Fuse<Memory>>> {
    let log = file(alloc, &kept.log, log_calls)?;
    let db = file(alloc, &kept.db, db_calls)?;
    Some(Files { log, db })
}

/// Returns the bytes of these files.
pub(crate) fn bytes_of(alloc: Global, files: &Files<Fuse<Memory>>) -> Option<Kept> {
    let log = Vec::from_slice(alloc, files.log.inner().bytes()).ok()?;
    let db = Vec::from_slice(alloc, files.db.inner().bytes()).ok()?;
    Some(Kept { log, db })
}

/// Opens a store of these bytes.
pub(crate) fn opened(alloc: Global, kept: &Kept) -> Option<Connection<Stored>> {
    let files = files(alloc, kept, u64::MAX, u64::MAX)?;
    if !files.may_be_used() {
        return None;
    }
    Connection::open_files(alloc, files, Options::new(7)).ok()
}

/// Closes a store. Returns the bytes of its files.
pub(crate) fn closed(alloc: Global, connection: Connection<Stored>) -> Option<Kept> {
    let files = connection.close_files().ok()?;
    bytes_of(alloc, &files)
}

/// Returns the store after these statements.
pub(crate) fn changed(alloc: Global, kept: &Kept, statements: &str) -> Option<Kept> {
    let mut connection = opened(alloc, kept)?;
    connection.execute_batch(statements).ok()?;
    closed(alloc, connection)
}

/// Queries that find all that a store holds.
const ALL: &[&str] = &[
    "SELECT name FROM sqlite_schema ORDER BY name",
    "SELECT * FROM meta",
    "SELECT * FROM charter ORDER BY one",
    "SELECT * FROM bound ORDER BY category_place, value_place",
    "SELECT * FROM volunteer ORDER BY place",
    "SELECT * FROM household ORDER BY place",
    "SELECT * FROM round ORDER BY number",
    "SELECT * FROM dropped ORDER BY round, place",
    "SELECT * FROM most_rows ORDER BY one",
    "SELECT * FROM tickets ORDER BY round",
    "SELECT * FROM round_bound ORDER BY category_place, value_place",
];

/// Returns the rows of all tables, as a text. Of a table that isn't there, which version 2 hasn't, it has the error.
pub(crate) fn rows_of(alloc: Global, connection: &mut Connection<Stored>) -> Option<String> {
    let mut all = String::new(alloc);
    for query in ALL {
        let rows = found(alloc, connection, query)?;
        all.push_str(rows.as_str()).ok()?;
    }
    Some(all)
}

/// Returns what a query finds, as a text.
fn found(alloc: Global, connection: &mut Connection<Stored>, query: &str) -> Option<String> {
    let rows = connection.query_all(query, &[]);
    format!(in alloc; "{rows:?}").ok()
}

/// Attaches a keeper, and returns what it loads, as a text.
pub(crate) fn loaded<K: Keeper>(alloc: Global, keeper: &mut K, path: &str) -> Option<String> {
    keeper.attach(alloc, path).ok()?;
    let tables = keeper.load(alloc).ok()?;
    spelled(alloc, &tables)
}

/// Returns all that tables hold, as a text.
pub(crate) fn spelled(alloc: Global, tables: &Tables) -> Option<String> {
    format!(in alloc; "{tables:?}").ok()
}
