//! Stores that were changed by hand. A store is loaded if its rows still make tables of which `IsTables` holds. Over any other store a call
//! fails, counts one fault and changes nothing.

use crate::assembly::{HOUSEHOLDS, done};
use crate::disks::{Stored, loaded, nothing, opened, rows_of, spelled};
use office_core::Keeper;
use office_keeper::{MapKeeper, SqliteOver};
use sqlite::{Connection, params};
use std::alloc::Global;
use std::process::Abort;
use std::thread::Threads;

/// What a new keeper does with a store.
#[derive(Clone, Copy, PartialEq, Eq)]
enum Taken {
    /// It is attached, and loads the tables.
    Loaded,
    /// It is attached, and its `load` fails.
    Unsound,
    /// Its `attach` fails.
    Refused,
}

/// The bundle of round 1.
const BUNDLE: &[u8] = b"\
bundle\t2
pool\t2
size\t2
category\tgender
value\tfemale\t1\t1
value\tmale\t1\t1
volunteer\ta\tfemale
volunteer\tb\tfemale
volunteer\tc\tmale
volunteer\td\tmale
volunteer\te\tmale
household\ta\th
household\tc\th
gone\te
end
total\t2
panel\t1\t0\t3
panel\t1\t1\t2
stage\t0\t0\t0\t0\t0\t1
stage\t1\t1\t1\t0\t0\t-2
stage\t0\t0\t-1\t1\t0\t0
stage\t0\t-1\t1\t-1\t1\t0
done
";

/// The rows of a store after all commands of `HOUSEHOLDS`, except round 1, which a new store has already.
const STORE: &str = "
INSERT INTO charter VALUES (1, 'River', 2);
INSERT INTO bound VALUES (0, 'gender', 0, 'female', 1, 1), (0, 'gender', 1, 'male', 1, 1);
INSERT INTO volunteer VALUES
    (0, 'a', 'ba7816bf8f01cfea414140de5dae2223b00361a396177a9cb410ff61f20015ad', 'female', 0),
    (1, 'b', '015f7e6bc5aeaf483724089e9252cc13b50951a6b69412522765cff4d780306e', 'female', 0),
    (2, 'c', '2f5052c9fd15b19a18c584d01363568198613f0c34e84409ef7938709a159ec2', 'male', 0),
    (3, 'd', '94091dd64a21ffe94214bc6d17deeb43873a5cf2f0a71b4b5caa9a5c81b6967d', 'male', 0),
    (4, 'e', '88dbf612972c594a2c2f6dde493ef1c4cd27adba8c36e6ebd00b89ff143aba61', 'male', 1);
INSERT INTO household VALUES (0, 'h'), (2, 'h');
INSERT INTO round VALUES (2, 0, x'', '');
INSERT INTO dropped VALUES (1, 0, 'a');
";

/// Changes of `STORE` by hand after which its rows are still those of tables.
const SOUND: &[&str] = &[
    "UPDATE charter SET title = 'Lake'",
    "UPDATE bound SET upper = 2 WHERE value = 'male'",
    "UPDATE household SET name = 'g'",
    "DELETE FROM household",
    "UPDATE volunteer SET withdrawn = 0",
    "UPDATE volunteer SET keyhash = 'x' WHERE place = 3",
    "UPDATE volunteer SET answers = 'male' WHERE place = 0",
    "INSERT INTO dropped VALUES (1, 1, 'd')",
    "DELETE FROM round WHERE number = 2",
    "UPDATE round SET digits = '5' WHERE number = 1; UPDATE dropped SET id = 'b'",
];

/// Changes after which the rows make no tables: one has a number, place or text that it can't have, or they break a fact of `IsTables`.
const UNSOUND: &[&str] = &[
    "UPDATE charter SET size = 0",
    "UPDATE charter SET size = 201",
    "UPDATE charter SET size = -2",
    "UPDATE charter SET title = ''",
    "UPDATE charter SET title = 'a\tb'",
    "UPDATE charter SET one = 2",
    "INSERT INTO charter VALUES (2, 'Lake', 2)",
    "DELETE FROM charter",
    "UPDATE bound SET lower = 2",
    "UPDATE bound SET upper = 1000",
    "UPDATE bound SET lower = -1",
    "UPDATE bound SET value_place = 2 WHERE value_place = 1",
    "UPDATE bound SET category_place = 1",
    "UPDATE bound SET category = 'sex' WHERE value_place = 1",
    "UPDATE bound SET category = 'key'",
    "UPDATE bound SET value = 'male'",
    "INSERT INTO bound VALUES (1, 'gender', 0, 'x', 0, 1)",
    "DELETE FROM bound",
    "UPDATE volunteer SET withdrawn = 2",
    "UPDATE volunteer SET answers = ''",
    "UPDATE volunteer SET answers = 'other' WHERE place = 2",
    "UPDATE volunteer SET answers = 'male\tmale' WHERE place = 2",
    "UPDATE volunteer SET id = '' WHERE place = 1",
    "UPDATE volunteer SET id = 'x' WHERE place = 1",
    "UPDATE volunteer SET place = 5 WHERE place = 3",
    "UPDATE volunteer SET place = -1 WHERE place = 1",
    "DELETE FROM volunteer WHERE place = 4",
    "UPDATE household SET name = ''",
    "DELETE FROM dropped; DELETE FROM round",
    "DELETE FROM dropped; DELETE FROM round WHERE number = 1",
    "UPDATE round SET phase = 4 WHERE number = 1",
    "UPDATE round SET phase = -1 WHERE number = 1",
    "UPDATE round SET phase = 2 WHERE number = 1",
    "UPDATE round SET phase = 1 WHERE number = 2",
    "UPDATE round SET digits = '0' WHERE number = 2",
    "UPDATE round SET digits = '' WHERE number = 1",
    "UPDATE round SET digits = 'x' WHERE number = 1",
    "UPDATE round SET digits = '5' WHERE number = 1",
    "UPDATE round SET bundle = x'00' WHERE number = 1",
    "UPDATE round SET bundle = x'' WHERE number = 1",
    "UPDATE round SET number = 3 WHERE number = 2",
    "UPDATE dropped SET id = 'b'",
    "UPDATE dropped SET place = 1",
    "UPDATE dropped SET round = 2",
    "DELETE FROM dropped",
];

/// Changes after which the table `meta` doesn't hold exactly one version that this program knows.
const OTHER: &[&str] = &[
    "UPDATE meta SET version = 4",
    "UPDATE meta SET version = 0",
    "INSERT INTO meta VALUES (2)",
    "DELETE FROM meta",
    "DROP TABLE meta; CREATE TABLE meta (version TEXT NOT NULL) STRICT; INSERT INTO meta VALUES ('2')",
    "DROP TABLE meta; CREATE TABLE meta (other INTEGER NOT NULL) STRICT; INSERT INTO meta VALUES (2)",
];

/// Leaves the store at version 2.
const SECOND: &str = "UPDATE meta SET version = 2";

/// Brings the store to version 3.
const THIRD: &str = "
CREATE TABLE most_rows (one INTEGER PRIMARY KEY, volunteers INTEGER NOT NULL) STRICT;
CREATE TABLE tickets (round INTEGER PRIMARY KEY REFERENCES round (number), number INTEGER NOT NULL) STRICT;
CREATE TABLE round_bound (category_place INTEGER NOT NULL, category TEXT NOT NULL, value_place INTEGER NOT NULL, value TEXT NOT NULL,
    lower INTEGER NOT NULL, upper INTEGER NOT NULL, PRIMARY KEY (category_place, value_place)) STRICT;
UPDATE meta SET version = 3;
";

/// Changes of the store of version 3 after which its rows are still those of tables.
const THIRD_SOUND: &[&str] = &[
    "DELETE FROM most_rows",
    "INSERT INTO most_rows VALUES (1, 5)",
    "INSERT INTO most_rows VALUES (1, 4000)",
    "INSERT INTO most_rows VALUES (1, 401); UPDATE charter SET size = 1000",
    "INSERT INTO tickets VALUES (1, 2)",
    "INSERT INTO tickets VALUES (1, 1000000000); UPDATE round SET digits = '000000000' WHERE number = 1",
    "INSERT INTO round_bound VALUES (0, 'gender', 0, 'female', 0, 2), (0, 'gender', 1, 'male', 0, 2)",
];

/// Changes of it after which the rows make no tables.
const THIRD_UNSOUND: &[&str] = &[
    "INSERT INTO most_rows VALUES (1, 4)",
    "INSERT INTO most_rows VALUES (1, 0)",
    "INSERT INTO most_rows VALUES (1, 4001)",
    "INSERT INTO most_rows VALUES (1, -1)",
    "INSERT INTO most_rows VALUES (2, 400)",
    "INSERT INTO most_rows VALUES (1, 5), (2, 5)",
    "INSERT INTO most_rows VALUES (1, 400); UPDATE charter SET size = 201",
    "INSERT INTO most_rows VALUES (1, 401); UPDATE charter SET size = 1001",
    "INSERT INTO tickets VALUES (1, 0)",
    "INSERT INTO tickets VALUES (1, 1000000001)",
    "INSERT INTO tickets VALUES (1, 1000)",
    "INSERT INTO tickets VALUES (2, 2)",
    "INSERT INTO round_bound VALUES (0, 'gender', 0, 'female', 2, 1)",
    "INSERT INTO round_bound VALUES (0, 'gender', 1, 'female', 0, 1)",
    "INSERT INTO round_bound VALUES (1, 'gender', 0, 'female', 0, 1)",
    "INSERT INTO round_bound VALUES (0, 'key', 0, 'female', 0, 1)",
];

/// Attaches a keeper and loads its tables. Returns how that ended.
fn outcome_of(alloc: Global, keeper: &mut SqliteOver<Stored>) -> Taken {
    if keeper.attach(alloc, "").is_err() {
        return Taken::Refused;
    }
    match keeper.load(alloc) {
        Ok(_) => Taken::Loaded,
        Err(_) => Taken::Unsound,
    }
}

/// True if, after both changes by hand, a new keeper does with the store what `wanted` says, a call that fails counts a fault, and the rows
/// of the store stay the same.
fn is_taken(alloc: Global, first: &str, change: &str, wanted: Taken) -> Option<bool> {
    let mut connection = store(alloc)?;
    connection.execute_batch(first).ok()?;
    connection.execute_batch(change).ok()?;
    let before = rows_of(alloc, &mut connection)?;
    let mut keeper = SqliteOver::new(connection);
    let is_wanted = outcome_of(alloc, &mut keeper) == wanted;
    let is_counted = keeper.faults() == u64::from(wanted != Taken::Loaded);
    let mut connection = keeper.into_connection();
    let after = rows_of(alloc, &mut connection)?;
    Some(is_wanted && is_counted && before == after)
}

/// Returns a store in memory with the rows of `STORE`, and with round 1 as drawn from `BUNDLE` by the digit 0.
fn store(alloc: Global) -> Option<Connection<Stored>> {
    let mut keeper = SqliteOver::new(opened(alloc, &nothing(alloc))?);
    keeper.attach(alloc, "").ok()?;
    let mut connection = keeper.into_connection();
    connection.execute_batch(STORE).ok()?;
    let draw = "UPDATE round SET phase = 3, bundle = ?1, digits = '0' WHERE number = 1";
    connection.execute(draw, params![BUNDLE]).ok()?;
    Some(connection)
}

/// Returns the tables of `HOUSEHOLDS`, as a text.
fn assembled<R: Threads + Sync>(rt: &R, alloc: Global) -> Option<String> {
    let mut map = MapKeeper::new(alloc, &[]).ok()?;
    for (asked, _) in HOUSEHOLDS {
        let _ = done(rt, alloc, &mut map, *asked)?;
    }
    spelled(alloc, map.tables())
}

/// Makes each of these changes by itself, after the change `first`, and asserts that a new keeper then does with the store what `wanted`
/// says.
fn judge(rt: &impl Abort, alloc: Global, first: &str, changes: &[&str], wanted: Taken) {
    for change in changes {
        assert!(rt;
            is_taken(alloc, first, change, wanted) == Some(true),
            "{change}"
        );
    }
}

/// Returns the tables that are loaded after a change by hand, as a text.
fn loaded_after(alloc: Global, change: &str) -> Option<String> {
    let mut connection = store(alloc)?;
    connection.execute_batch(change).ok()?;
    let mut keeper = SqliteOver::new(connection);
    loaded(alloc, &mut keeper, "")
}

#[test]
fn changes_by_hand_are_judged(rt: HostRuntime) {
    let alloc = rt.alloc();
    judge(&rt, alloc, SECOND, SOUND, Taken::Loaded);
    judge(&rt, alloc, SECOND, UNSOUND, Taken::Unsound);
    judge(&rt, alloc, SECOND, OTHER, Taken::Refused);
    judge(&rt, alloc, THIRD, SOUND, Taken::Loaded);
    judge(&rt, alloc, THIRD, THIRD_SOUND, Taken::Loaded);
    judge(&rt, alloc, THIRD, THIRD_UNSOUND, Taken::Unsound);
    let whole = loaded_after(alloc, "UPDATE meta SET version = 2");
    assert!(rt; whole.is_some() && whole == assembled(&rt, alloc));
    let raised = loaded_after(alloc, "DROP TABLE household; UPDATE meta SET version = 1");
    assert!(rt; raised.is_some() && raised == loaded_after(alloc, "DELETE FROM household"));
}
