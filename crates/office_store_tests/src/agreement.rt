//! Does each command of an assembly over a keeper in memory and over a store. After each command, a new keeper over the store's connection
//! must load what the keeper in memory holds. At the end the files are closed and opened again, and a keeper over them must load the same.

use crate::assembly::{CORRECTED, ENROLLED, HOUSEHOLDS, PLAIN, Row, SEALED, done};
use crate::disks::{Stored, closed, loaded, nothing, opened, spelled};
use office_core::Keeper;
use office_keeper::{MapKeeper, SqliteOver};
use std::alloc::Global;
use std::process::Abort;
use std::thread::Threads;

/// Does the command of a row over a keeper. True if it ends as the row says.
fn ends<K: Keeper, R: Threads + Sync>(rt: &R, alloc: Global, keeper: &mut K, row: &Row) -> bool {
    let (asked, ending) = *row;
    done(rt, alloc, keeper, asked) == Some(ending)
}

/// Attaches a keeper. True if it loads what the keeper in memory holds.
fn agrees(alloc: Global, over: &mut SqliteOver<Stored>, map: &MapKeeper) -> bool {
    let held = loaded(alloc, over, "");
    held.is_some() && held == spelled(alloc, map.tables())
}

/// Does the commands of an assembly over both keepers.
fn agree<R: Threads + Sync + Abort>(rt: &R, alloc: Global, rows: &[Row]) -> Option<()> {
    let mut map = MapKeeper::new(alloc, &[]).ok()?;
    let mut over = SqliteOver::new(opened(alloc, &nothing(alloc))?);
    assert!(rt; agrees(alloc, &mut over, &map));
    for (place, row) in rows.iter().enumerate() {
        assert!(rt; ends(rt, alloc, &mut map, row), "row {place}");
        assert!(rt; ends(rt, alloc, &mut over, row), "row {place}");
        over = SqliteOver::new(over.into_connection());
        assert!(rt; agrees(alloc, &mut over, &map), "row {place}");
    }
    let kept = closed(alloc, over.into_connection())?;
    let mut again = SqliteOver::new(opened(alloc, &kept)?);
    assert!(rt; agrees(alloc, &mut again, &map));
    Some(())
}

#[test]
fn keepers_agree(rt: HostRuntime) {
    for rows in [PLAIN, HOUSEHOLDS, ENROLLED, SEALED, CORRECTED] {
        assert!(rt; agree(&rt, rt.alloc(), rows).is_some());
    }
}
