//! Tells whether a store was changed, without opening it. No clause says what a file system tells: `tests/desk-shared` tests it.

use office_core::KeeperStop;
use std::io::ErrorKind;
use std::os::unix::fs::{FileExt, MetadataExt};
use std::time::{SystemTime, UNIX_EPOCH};
use std::{fs, io};

/// For how many milliseconds a file must have been unchanged before its mark counts. A system may stamp two changes within its tick alike,
/// which takes 10 milliseconds at most.
const SETTLED: u64 = 100;

/// The same where the file system may stamp in whole seconds.
const SETTLED_COARSELY: u64 = 2_000;

/// How many nanoseconds a millisecond has. A stamp with a part of one is none of a file system that stamps in seconds.
const MILLISECOND: i64 = 1_000_000;

/// How many bytes a log has up to the end of the salts of its first frame.
const LOG_HEAD: usize = 48;

/// By what a store's file is known. If two looks return equal marks, nobody changed the store between them.
#[derive(Clone, Copy, PartialEq, Eq)]
pub(crate) struct Mark {
    device: u64,
    inode: u64,
    size: u64,
    seconds: i64,
    nanoseconds: i64,
}

/// Returns the mark of the store at `path`, or None if the store may be changing, if its log may hold a commit, or if it can't be looked at.
///
/// # Errors
///
/// Want of memory.
pub(crate) fn mark_of(rt: &HostRuntime, path: &str) -> Result<Option<Mark>, KeeperStop> {
    match looked_at(rt, path) {
        Ok(mark) => Ok(mark),
        Err(error) if error.kind() == ErrorKind::OutOfMemory => Err(KeeperStop::OutOfMemory),
        Err(_) => Ok(None),
    }
}

fn looked_at(rt: &HostRuntime, path: &str) -> io::Result<Option<Mark>> {
    // The log lies where a link leads.
    let real = fs::canonicalize(rt, path)?;
    let log = format!(in rt.alloc(); "{}-wal", real.as_str())?;
    // The log comes first: a commit leaves it only after the file was changed.
    if may_hold_commit(rt, log.as_str())? {
        return Ok(None);
    }
    settled_mark(rt, real.as_str())
}

/// True if the salts of the log's first frame are those of its head.
fn may_hold_commit(rt: &HostRuntime, log: &str) -> io::Result<bool> {
    let file = match fs::open(rt, log) {
        Ok(file) => file,
        Err(error) if error.kind() == ErrorKind::NotFound => return Ok(false),
        Err(error) => return Err(error),
    };
    let mut head = [0u8; LOG_HEAD];
    let read = file.read_at(&mut head, 0)?;
    Ok(read == LOG_HEAD && head[16..24] == head[40..48])
}

/// Returns the mark of a file, or None if it changed a moment ago. The time is that of the last change of the file or of what the system keeps
/// of it, since a program can set the other times back.
fn settled_mark(rt: &HostRuntime, path: &str) -> io::Result<Option<Mark>> {
    let found = fs::metadata(rt, path)?;
    let mark = Mark {
        device: found.dev(),
        inode: found.ino(),
        size: found.len(),
        seconds: found.ctime(),
        nanoseconds: found.ctime_nsec(),
    };
    let Ok(now) = SystemTime::now(rt)?.duration_since(UNIX_EPOCH) else {
        return Ok(None);
    };
    let milliseconds = now
        .as_secs()
        .saturating_mul(1000)
        .saturating_add(u64::from(now.subsec_millis()));
    Ok((mark.counts_from() < milliseconds).then_some(mark))
}

impl Mark {
    /// Returns the time from which on the mark counts, in milliseconds since 1970.
    fn counts_from(&self) -> u64 {
        let settled = if self.nanoseconds % MILLISECOND == 0 {
            SETTLED_COARSELY
        } else {
            SETTLED
        };
        let parts = (self.nanoseconds / MILLISECOND).unsigned_abs();
        self.seconds
            .unsigned_abs()
            .saturating_mul(1000)
            .saturating_add(parts)
            .saturating_add(settled)
    }
}
