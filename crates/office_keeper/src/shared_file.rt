//! A store's file that is open only while a call or a visit has it, and the tables that were read from it.

ghost use Rattle.std.specs.Prelude.{◌≡◌, false, is_some};

use crate::marks::{Mark, mark_of};
use crate::missing::is_missing;
use crate::schema::{begin_new, is_current};
use crate::sqlite_over::SqliteOver;
use office_core::{Change, Keeper, KeeperStop, Tables};
use sqlite::{Connection, Error, ErrorCode, File, FileStore};
use std::alloc::Global;
use std::io::ErrorKind;
use std::time::{Duration, Instant};
use std::{fs, thread};

/// For how many seconds an open is tried while somebody else has the file.
const PATIENCE: u64 = 5;

/// How many milliseconds the pause after a try takes. A desk that is asked without a rest leaves the file free for about one between
/// visits.
const PAUSE: u64 = 2;

/// How many times an open is tried at most. The pauses after them take five seconds.
const TRIES: u32 = 2_500;

/// The file of a store. While it is open, nobody else can open it. A file that was missing has the first tables until it is made.
#[derive(Drop)]
pub(crate) struct SharedFile {
    open: Option<OpenFile>,
    known: Option<Known>,
    was_missing: bool,
}

/// An open file, with a keeper over it that is attached.
struct OpenFile {
    over: SqliteOver<FileStore<File>>,
}

/// The tables of the file while it is open, and later of each file with this mark, which the file had before it was opened.
#[derive(Drop)]
struct Known {
    mark: Option<Mark>,
    tables: Tables,
}

impl Drop for OpenFile {
    fn drop(self) {
        let OpenFile { over } = self;
        close(over);
    }
}

/// Copies the log, which is a file beside the database, into the database, and closes both. If that fails, the next open reads both.
fn close(over: SqliteOver<FileStore<File>>) {
    let _ = over.into_connection().close();
}

impl SharedFile {
    /// Returns no file, which isn't open.
    pub(crate) fn none() -> SharedFile
        ensures { is_some result.open ≡ false }
    {
        SharedFile {
            open: None,
            known: None,
            was_missing: false,
        }
    }

    /// Returns a file that was missing, which isn't open.
    fn missing() -> SharedFile {
        SharedFile {
            open: None,
            known: None,
            was_missing: true,
        }
    }

    /// Opens the file of a path, makes what it lacks, and reads its tables. If no file is there, makes none.
    pub(crate) fn open(
        rt: &HostRuntime,
        alloc: Global,
        path: &str,
    ) -> Result<SharedFile, KeeperStop> {
        if is_missing(rt, path)? {
            return Ok(SharedFile::missing());
        }
        let mark = mark_of(rt, path)?;
        let mut file = OpenFile {
            over: SqliteOver::new(connect(rt, path)?),
        };
        file.over.attach(alloc, path)?;
        let tables = file.over.load(alloc)?;
        Ok(SharedFile {
            open: Some(file),
            known: Some(Known { mark, tables }),
            was_missing: false,
        })
    }

    /// True if the file is open.
    pub(crate) fn is_open(&self) -> bool {
        self.open.is_some()
    }

    /// Makes what the file lacks, which is open.
    pub(crate) fn complete(&mut self, alloc: Global, path: &str) -> Result<(), KeeperStop> {
        match &mut self.open {
            Some(file) => file.over.attach(alloc, path),
            None => Err(KeeperStop::Failed),
        }
    }

    /// Returns the tables. If the file isn't open, and isn't known to be unchanged, it is opened.
    pub(crate) fn load(
        &mut self,
        rt: &HostRuntime,
        alloc: Global,
        path: &str,
    ) -> Result<Tables, KeeperStop> {
        match &mut self.open {
            Some(file) => loaded(alloc, file, &self.known),
            None if self.was_missing => self.load_first(rt, alloc, path),
            None => {
                let mark = mark_of(rt, path)?;
                match known_at(&self.known, &mark) {
                    Some(tables) => shared(tables),
                    None => self.reload(rt, alloc, path, mark),
                }
            }
        }
    }

    /// Returns the first tables if the file is still missing. If somebody made it since, opens it and reads its tables.
    fn load_first(
        &mut self,
        rt: &HostRuntime,
        alloc: Global,
        path: &str,
    ) -> Result<Tables, KeeperStop> {
        *self = SharedFile::open(rt, alloc, path)?;
        match &mut self.open {
            Some(file) => loaded(alloc, file, &self.known),
            None => first_tables(alloc),
        }
    }

    /// Opens the file, which had this mark, and reads its tables.
    fn reload(
        &mut self,
        rt: &HostRuntime,
        alloc: Global,
        path: &str,
        mark: Option<Mark>,
    ) -> Result<Tables, KeeperStop> {
        self.known = None;
        let mut file = reopened(rt, path)?;
        let tables = file.over.load(alloc)?;
        self.open = Some(file);
        self.known = Some(Known {
            mark,
            tables: shared(&tables)?,
        });
        Ok(tables)
    }

    /// Stores a change of the tables that were loaded last. If the file isn't open, it is opened, or made if it was missing, and the call
    /// fails if it was changed or made since.
    pub(crate) fn store(
        &mut self,
        rt: &HostRuntime,
        alloc: Global,
        path: &str,
        change: &Change,
    ) -> Result<(), KeeperStop> {
        if self.open.is_none() {
            self.open = Some(self.reached(rt, path)?);
            self.was_missing = false;
        }
        self.known = None;
        match &mut self.open {
            Some(file) => file.over.store(alloc, change),
            None => Err(KeeperStop::Failed),
        }
    }

    /// Opens the file, or makes it if it was missing. Fails if somebody changed or made it since.
    fn reached(&self, rt: &HostRuntime, path: &str) -> Result<OpenFile, KeeperStop> {
        if self.was_missing {
            made(rt, path)
        } else {
            unchanged(rt, path, &self.known)
        }
    }

    /// Closes the file. The tables stay known if they have a mark.
    pub(crate) fn let_go(&mut self)
        ensures { is_some self.new.open ≡ false }
    {
        self.open = None;
    }
}

/// Returns the tables of an open file.
fn loaded(alloc: Global, file: &mut OpenFile, known: &Option<Known>) -> Result<Tables, KeeperStop> {
    match known {
        Some(known) => shared(&known.tables),
        None => file.over.load(alloc),
    }
}

/// Returns the known tables, if they are those of each file with this mark.
fn known_at<'a>(known: &'a Option<Known>, mark: &Option<Mark>) -> Option<&'a Tables> {
    match known {
        Some(known) if mark.is_some() && known.mark == *mark => Some(&known.tables),
        _ => None,
    }
}

/// Returns the same tables, which aren't copied.
fn shared(tables: &Tables) -> Result<Tables, KeeperStop> {
    match tables.copy() {
        Ok(tables) => Ok(tables),
        Err(_) => Err(KeeperStop::OutOfMemory),
    }
}

fn first_tables(alloc: Global) -> Result<Tables, KeeperStop> {
    match Tables::first(alloc) {
        Ok(tables) => Ok(tables),
        Err(_) => Err(KeeperStop::OutOfMemory),
    }
}

/// Makes the file of a path where none was, with the first tables, and fails if somebody else made it since.
fn made(rt: &HostRuntime, path: &str) -> Result<OpenFile, KeeperStop> {
    if !is_missing(rt, path)? {
        return Err(KeeperStop::Failed);
    }
    let mut connection = connect(rt, path)?;
    match begin_new(&mut connection) {
        Ok(()) => Ok(OpenFile {
            over: SqliteOver::attached(connection),
        }),
        Err(Error::SqliteFailure(ErrorCode::OutOfMemory)) => Err(KeeperStop::OutOfMemory),
        Err(_) => Err(KeeperStop::Failed),
    }
}

/// Opens a file whose tables are known, and fails if it was changed since they were read.
fn unchanged(rt: &HostRuntime, path: &str, known: &Option<Known>) -> Result<OpenFile, KeeperStop> {
    let file = reopened(rt, path)?;
    // Nobody can change the file any more.
    match known_at(known, &mark_of(rt, path)?) {
        Some(_) => Ok(file),
        None => Err(KeeperStop::Failed),
    }
}

/// Opens a store again. Opening alone would make one that is missing, and anything may have taken its place.
fn reopened(rt: &HostRuntime, path: &str) -> Result<OpenFile, KeeperStop> {
    match fs::metadata(rt, path) {
        Ok(found) if found.len() > 0 => current(connect(rt, path)?),
        Err(error) if error.kind() == ErrorKind::OutOfMemory => Err(KeeperStop::OutOfMemory),
        _ => Err(KeeperStop::Failed),
    }
}

/// Returns the file of the connection, and fails if its store has another version.
fn current(connection: Connection<FileStore<File>>) -> Result<OpenFile, KeeperStop> {
    let mut connection = connection;
    match is_current(&mut connection) {
        Ok(true) => Ok(OpenFile {
            over: SqliteOver::attached(connection),
        }),
        Err(Error::SqliteFailure(ErrorCode::OutOfMemory)) => Err(KeeperStop::OutOfMemory),
        _ => Err(KeeperStop::Failed),
    }
}

/// Opens the file of a path. If somebody else has it, waits for up to five seconds.
fn connect(rt: &HostRuntime, path: &str) -> Result<Connection<FileStore<File>>, KeeperStop> {
    let begun = Instant::now(rt).ok();
    for _ in 0..TRIES {
        match Connection::open(rt, path) {
            Ok(connection) => return Ok(connection),
            Err(Error::SqliteFailure(ErrorCode::DatabaseBusy)) if !is_over(rt, &begun) => {
                thread::sleep(rt, Duration::from_millis(PAUSE));
            }
            Err(Error::SqliteFailure(ErrorCode::OutOfMemory)) => {
                return Err(KeeperStop::OutOfMemory);
            }
            Err(_) => return Err(KeeperStop::Failed),
        }
    }
    Err(KeeperStop::Failed)
}

/// True if the time for which an open is tried is over. Without a clock the tries alone are counted.
fn is_over(rt: &HostRuntime, begun: &Option<Instant>) -> bool {
    match begun {
        Some(begun) => match begun.elapsed(rt) {
            Ok(waited) => waited >= Duration::from_secs(PATIENCE),
            Err(_) => false,
        },
        None => false,
    }
}
