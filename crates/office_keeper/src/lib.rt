//! Keepers of an office's tables. `MapKeeper` keeps them in memory, for tests: each of its calls can be made to fail. `SqliteKeeper` keeps
//! them in a file, and `SqliteOver` in the database of a connection that it is given.
//!
//! Promises: those of the trait; each keeper counts exactly its calls that failed; `MapKeeper` tells its tables, and it and `SqliteKeeper`
//! tell their places. Before `SqliteKeeper` or `SqliteOver` is attached, its other calls fail. No contract promises that a file still holds
//! what was stored, for instance after a crash: `office_store_tests` tests that.
#![tactic(auto)]

mod map_keeper;
mod marks;
mod missing;
mod reading;
mod schema;
mod shared_file;
mod sqlite_keeper;
mod sqlite_over;
mod writing;

pub use map_keeper::MapKeeper;
pub use sqlite_keeper::SqliteKeeper;
pub use sqlite_over::SqliteOver;
