//! Tests of a store in a file.

use crate::assembly::{Asked, ENROLLED, Ending, PLAIN, done};
use crate::disks::{loaded, spelled};
use office_core::{Change, Keeper};
use office_keeper::{MapKeeper, SqliteKeeper};
use std::alloc::Global;
use std::fs::{self, Files};
use std::process::Abort;
use std::test::Fail;
use std::thread::Threads;

const FOLDER: &str = "office_store_test";

const PATH: &str = "office_store_test/a.store";

const OTHER: &str = "office_store_test/b.store";

const LATER: &str = "office_store_test/c.store";

/// Does the commands of an assembly over a keeper of a file and over one in memory. Until the file is let go, no other keeper gets it.
/// Afterwards another one finds in it what the keeper in memory holds, and nothing at another path.
#[test]
fn another_keeper_finds_the_file(rt: HostRuntime) -> Result<(), Fail> {
    let alloc = rt.alloc();
    let _ = fs::remove_dir_all(&rt, FOLDER);
    fs::create_dir(&rt, FOLDER)?;
    let mut first = SqliteKeeper::new(&rt);
    assert!(rt; done(&rt, alloc, &mut first, Asked::Rules) == Some(Ending::Stops));
    assert!(rt; first.attach(alloc, FOLDER).is_err());
    assert_eq!(rt; first.faults(), 2);
    assert!(rt; first.attach(alloc, PATH).is_ok());
    let mut map = MapKeeper::new(alloc, &[])?;
    let empty = spelled(alloc, map.tables());
    for (asked, ending) in PLAIN {
        assert!(rt; done(&rt, alloc, &mut first, *asked) == Some(*ending));
        assert!(rt; done(&rt, alloc, &mut map, *asked) == Some(*ending));
    }
    let held = spelled(alloc, map.tables());
    assert!(rt; empty.is_some() && held.is_some() && held != empty);
    let mut second = SqliteKeeper::new(&rt);
    assert!(rt; second.attach(alloc, PATH).is_err());
    first.let_go();
    assert!(rt; loaded(alloc, &mut second, PATH) == held);
    assert!(rt; loaded(alloc, &mut first, OTHER) == empty);
    assert!(rt; !fs::exists(&rt, OTHER)?);
    first.let_go();
    second.let_go();
    take_turns(&rt, alloc, &mut first, &mut second)?;
    make_later(&rt, alloc, &mut first, &mut second)?;
    fs::remove_dir_all(&rt, FOLDER)?;
    Ok(())
}

/// Gives each command of an assembly to both keepers over the file `OTHER`: what one stores, the other loads, and it then changes nothing.
/// A change is refused over tables that the other keeper has changed since.
fn take_turns<R: Threads + Sync + Abort>(
    rt: &R,
    alloc: Global,
    first: &mut SqliteKeeper,
    second: &mut SqliteKeeper,
) -> Result<(), Fail> {
    let mut map = MapKeeper::new(alloc, &[])?;
    assert!(rt; loaded(alloc, second, OTHER) == spelled(alloc, map.tables()));
    second.let_go();
    for (asked, ending) in ENROLLED {
        assert!(rt; done(rt, alloc, &mut map, *asked) == Some(*ending));
        assert!(rt; in_turn(rt, alloc, first, *asked) == Some(*ending));
        assert!(rt; in_turn(rt, alloc, second, *asked) == Some(*ending));
        assert!(rt; told(alloc, first) == spelled(alloc, map.tables()));
        first.let_go();
    }
    let withdrawal = Asked::Withdraw("k2");
    assert!(rt; done(rt, alloc, &mut map, withdrawal) == Some(Ending::Replies));
    assert!(rt; in_turn(rt, alloc, second, withdrawal) == Some(Ending::Replies));
    assert!(rt; first.store(alloc, &Change::Withdrawn { place: 0 }).is_err());
    assert!(rt; told(alloc, first) == spelled(alloc, map.tables()));
    Ok(())
}

/// Attaches both keepers at a path where no file is. The first change of the one makes the file; the other stores nothing over the tables
/// that it loaded before, and loads the new ones. Where no folder is, nothing is attached.
fn make_later<R: Threads + Sync + Abort + Files>(
    rt: &R,
    alloc: Global,
    first: &mut SqliteKeeper,
    second: &mut SqliteKeeper,
) -> Result<(), Fail> {
    let mut map = MapKeeper::new(alloc, &[])?;
    let empty = spelled(alloc, map.tables());
    assert!(rt; loaded(alloc, first, LATER) == empty);
    assert!(rt; loaded(alloc, second, LATER) == empty);
    assert!(rt; !fs::exists(rt, LATER)?);
    assert!(rt; done(rt, alloc, &mut map, Asked::Rules) == Some(Ending::Replies));
    assert!(rt; in_turn(rt, alloc, first, Asked::Rules) == Some(Ending::Replies));
    assert!(rt; fs::exists(rt, LATER)?);
    assert!(rt;
        second
            .store(alloc, &Change::Withdrawn { place: 0 })
            .is_err()
    );
    assert!(rt; told(alloc, second) == spelled(alloc, map.tables()));
    second.let_go();
    assert!(rt;
        first
            .attach(alloc, "office_store_test/none/a.store")
            .is_err()
    );
    Ok(())
}

/// Does a command over a keeper, which then lets the file go.
fn in_turn<R: Threads + Sync>(
    rt: &R,
    alloc: Global,
    keeper: &mut SqliteKeeper,
    asked: Asked,
) -> Option<Ending> {
    let ending = done(rt, alloc, keeper, asked);
    keeper.let_go();
    ending
}

/// Returns what a keeper loads, as a text.
fn told(alloc: Global, keeper: &mut SqliteKeeper) -> Option<String> {
    let tables = keeper.load(alloc).ok()?;
    spelled(alloc, &tables)
}
