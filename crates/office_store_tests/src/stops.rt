//! Tests in which the machine stops at a call on a file, tried for each call: while a new store is made, while a change of each kind is
//! stored, some of which bring the store to version 3, and while a store of version 1 is brought to version 2. When the store is opened
//! again, it must hold what it held before the step, or what it holds after it.

use crate::assembly::{Asked, FURTHER, HOUSEHOLDS, Row, command_of, done};
use crate::disks::{
    Kept, Stored, bytes_of, changed, closed, files, loaded, nothing, opened, rows_of,
};
use office_core::{Change, Keeper, Tables, decide};
use office_keeper::{MapKeeper, SqliteOver};
use outside::NoWatch;
use sqlite::{Connection, Files, Options};
use sqlite_disk::{Crash, Fuse, Memory};
use std::alloc::Global;
use std::process::Abort;
use std::thread::Threads;

/// How far a step got. A step opens and attaches a store, and stores a change if there is one.
#[derive(Clone, Copy, PartialEq, Eq)]
enum Far {
    /// The files aren't opened.
    Nowhere,
    /// The files are opened, and the store isn't attached.
    Opened,
    /// The store is attached, and the change isn't stored.
    Attached,
    /// All is done.
    Done,
}

/// Attaches a keeper, and stores a change if there is one.
fn step(alloc: Global, keeper: &mut SqliteOver<Stored>, change: &Option<Change>) -> Far {
    if keeper.attach(alloc, "").is_err() {
        return Far::Opened;
    }
    match change {
        Some(change) if keeper.store(alloc, change).is_err() => Far::Attached,
        _ => Far::Done,
    }
}

/// Does a step over a connection. Returns how far it got, and the files as they are then.
fn stepped(
    alloc: Global,
    connection: Connection<Stored>,
    change: &Option<Change>,
) -> (Far, Files<Fuse<Memory>>) {
    let mut keeper = SqliteOver::new(connection);
    let far = step(alloc, &mut keeper, change);
    (far, keeper.into_connection().into_store().close())
}

/// Opens files and does a step. Returns how far it got, and the files as they are then.
fn tried(
    alloc: Global,
    files: Files<Fuse<Memory>>,
    change: &Option<Change>,
) -> Option<(Far, Files<Fuse<Memory>>)> {
    if !files.may_be_used() {
        return None;
    }
    Some(
        match Connection::open_files(alloc, files, Options::new(7)) {
            Ok(connection) => stepped(alloc, connection, change),
            Err((_, left)) => (Far::Nowhere, left.into_files()),
        },
    )
}

/// Does a step over files of which the log does `log_calls` calls and the database `db_calls`, before each call fails. Returns how far the
/// step got, and the files as a stop of the machine leaves them.
fn stopped(
    alloc: Global,
    kept: &Kept,
    change: &Option<Change>,
    log_calls: u64,
    db_calls: u64,
) -> Option<(Far, Kept)> {
    let files = files(alloc, kept, log_calls, db_calls)?;
    let (far, mut left) = tried(alloc, files, change)?;
    left.log.crash();
    left.db.crash();
    Some((far, bytes_of(alloc, &left)?))
}

/// Returns the rows of a store, or None if it can't be attached and loaded.
fn held(alloc: Global, kept: &Kept) -> Option<String> {
    let mut connection = opened(alloc, kept)?;
    let rows = rows_of(alloc, &mut connection);
    let mut keeper = SqliteOver::new(connection);
    if loaded(alloc, &mut keeper, "").is_none() {
        return None;
    }
    rows
}

/// Stops a step at each call of the log if `of_log` holds, else at each call of the database. Asserts that the store then holds what it
/// held before the step, or what the whole step leaves; and that it holds the latter if the step was done.
fn stop_at_each(
    rt: &impl Abort,
    alloc: Global,
    kept: &Kept,
    change: &Option<Change>,
    of_log: bool,
) -> Option<()> {
    let before = held(alloc, kept)?;
    let (_, whole) = stopped(alloc, kept, change, u64::MAX, u64::MAX)?;
    let after = held(alloc, &whole)?;
    for calls in 0..10000u64 {
        let (log_calls, db_calls) = if of_log {
            (calls, u64::MAX)
        } else {
            (u64::MAX, calls)
        };
        let (far, left) = stopped(alloc, kept, change, log_calls, db_calls)?;
        let left = held(alloc, &left)?;
        let is_done = far == Far::Done;
        assert!(rt; left == after || !is_done && left == before, "call {calls}");
        if is_done {
            assert!(rt; calls > 0);
            return Some(());
        }
    }
    None
}

/// Stops a step at each call of the log, then at each call of the database. Returns the store that the step leaves if nothing stops it.
fn stop(rt: &impl Abort, alloc: Global, kept: &Kept, change: &Option<Change>) -> Option<Kept> {
    stop_at_each(rt, alloc, kept, change, true)?;
    stop_at_each(rt, alloc, kept, change, false)?;
    let mut keeper = SqliteOver::new(opened(alloc, kept)?);
    let far = step(alloc, &mut keeper, change);
    assert!(rt; far == Far::Done);
    closed(alloc, keeper.into_connection())
}

/// Returns the change that a command makes over these tables.
fn change_of<R: Threads + Sync>(
    rt: &R,
    alloc: Global,
    tables: &Tables,
    asked: Asked,
) -> Option<Change> {
    let command = command_of(alloc, asked)?;
    let (change, _) = decide(rt, alloc, tables, &command, &NoWatch).ok()?;
    change
}

/// Stops each step of an assembly: making a new store, and storing the change of each row. Returns the store at the end.
fn stop_rows<R: Threads + Sync + Abort>(rt: &R, alloc: Global, rows: &[Row]) -> Option<Kept> {
    let mut kept = stop(rt, alloc, &nothing(alloc), &None)?;
    let mut map = MapKeeper::new(alloc, &[]).ok()?;
    for (asked, _) in rows {
        let change = change_of(rt, alloc, map.tables(), *asked);
        assert!(rt; change.is_some());
        kept = stop(rt, alloc, &kept, &change)?;
        let _ = done(rt, alloc, &mut map, *asked);
    }
    Some(kept)
}

/// Stops each step of two assemblies, and bringing a store of version 1 to version 2.
fn stop_all<R: Threads + Sync + Abort>(rt: &R, alloc: Global) -> Option<()> {
    let _ = stop_rows(rt, alloc, FURTHER)?;
    let kept = stop_rows(rt, alloc, HOUSEHOLDS)?;
    let first = changed(
        alloc,
        &kept,
        "DROP TABLE household; UPDATE meta SET version = 1",
    )?;
    let _ = stop(rt, alloc, &first, &None)?;
    Some(())
}

#[test]
fn stops_leave_all_or_nothing(rt: HostRuntime) {
    assert!(rt; stop_all(&rt, rt.alloc()).is_some());
}
