//! Reads all the bytes of a source, up to a limit. The shell of the commands calls it.
ghost use Rattle.std.specs.Prelude.{◌≡◌, ◌≢◌, ◌+◌, ◌<◌, ◌≤◌, ◌^◌, length, IfOk};
ghost use Rattle.outside.specs.Content.{LosesFront, LosesMore, ReadsAll};
ghost use Rattle.outside.specs.Faults.{Rose};

use crate::Source;
use std::alloc::Global;
use thiserror::Error;

/// Why reading stopped early.
#[derive(Clone, Copy, Debug, PartialEq, Eq, Error)]
pub enum ReadStop {
    /// A read failed.
    #[error("a read failed")]
    Fault,
    /// More bytes came than the limit.
    #[error("too many bytes")]
    TooLong,
    /// Memory ran out.
    #[error("out of memory")]
    OutOfMemory,
}

// The most bytes that one read takes.
const ROOM: usize = 4096;

/// Returns all bytes that are left, or `TooLong` if they are more than `limit`. Each read but the last takes at least one byte, so there
/// are at most `limit + 2` reads.
pub fn read_all<S: Source>(alloc: Global, source: &mut S, limit: usize) -> Result<Vec<u8>, ReadStop>
    requires { limit + 2 < 2 ^ 64 }
    ensures all { IfOk result
        (λ bytes. ReadsAll (S.left source.old) (S.left source.new) bytes.items) }
    ensures within { IfOk result (λ bytes. length bytes.items ≤ limit) }

    // When each error is returned. Memory may run out at any time.
    ensures fault { result ≡ Err ReadStop.Fault
        → Rose (S.faults source.old) (S.faults source.new) }
    ensures long { result ≡ Err ReadStop.TooLong
        → LosesMore limit (S.left source.old) (S.left source.new) }

    // What the call does to the source, whatever it returns.
    ensures front { LosesFront (S.left source.old) (S.left source.new) }
    ensures none { result ≢ Err ReadStop.Fault → S.faults source.new ≡ S.faults source.old }
    ensures never_falls { S.faults source.old ≤ S.faults source.new }
    ensures reads { S.reads source.new ≤ S.reads source.old + (limit + 2) }
{
    let mut bytes = Vec::new(alloc);
    let mut room = [0u8; ROOM];
    for _turn in 0..limit + 2 {
        let Ok(count) = source.read(&mut room) else {
            return Err(ReadStop::Fault);
        };
        if count == 0 {
            return Ok(bytes);
        }
        if count > limit - bytes.len() {
            return Err(ReadStop::TooLong);
        }
        if bytes.extend_from_slice(&room[..count]).is_err() {
            return Err(ReadStop::OutOfMemory);
        }
    }
    unreachable!()
}
