//! Reads the text of a pool, line by line.

ghost use Rattle.std.specs.Prelude.{◌≡◌, ◌≢◌, ◌<◌, length, Ok, Err, IfOk};
ghost use Rattle.define_pools.specs.Pool.{Pool as Words, IsPool};
ghost use Rattle.define_bundles.specs.PoolText.{spelling};
ghost use Rattle.define_bundles.specs.PoolReading.{read, at_last};
ghost use Rattle.pool_text.specs.Answers.{Reads, IsRightBefore, stopped};
ghost use Rattle.pool_text.specs.declared.faults.ReadPool.TheVariants.{OutOfMemory};
ghost use Rattle.define_lines.specs.Lines.{pieces_of};
ghost use Rattle.pool_text.specs.Progress.{seen};

use crate::entries::FORM;
use crate::faults::{PoolFault, ReadPool};
use crate::progress::{Progress, after};
use pool_model::{BuildStop, Pool};
use std::alloc::Global;
use text_lines::next_line;

/// The kind of fault of a text whose lines run out before its end.
const MISSING_END: u8 = 12;

/// Reads the bytes as the text of a pool. Fails exactly if they aren't the text of a pool, with the first faulty line and its lowest
/// kind of fault, or if memory runs out.
pub fn read_pool(alloc: Global, bytes: &[u8]) -> Result<Pool, ReadPool>
    // If a pool is returned, the bytes are its text, byte for byte.
    ensures spelled { IfOk result (λ pool. IsPool pool × (bytes.now ≡ spelling pool)) }
    // The text of each pool is read as this pool, unless memory runs out.
    ensures read { (pool : Words) → IsPool pool → bytes.now ≡ spelling pool → Reads (Ok pool) result }
    // The result is the pool or the fault of the definition `read`.
    ensures exact { Reads (read bytes.now) result }
    // Memory runs out only if the first two lines have no fault and a third one is ended by LF.
    ensures memory { result ≡ Err OutOfMemory → IsRightBefore 3 (read bytes.now) × (3 < length (pieces_of bytes.now)) }
{
    read_lines(alloc, bytes)
}

fn read_lines(alloc: Global, bytes: &[u8]) -> Result<Pool, ReadPool>
    ensures exact { Reads (read bytes.now) result }
    ensures memory { result ≡ Err OutOfMemory → IsRightBefore 3 (read bytes.now) × (3 < length (pieces_of bytes.now)) }
{
    let mut progress = Progress::Begun;
    let mut number = 1;
    let mut rest = bytes;
    while let Some((line, later)) = next_line(rest) {
        progress = match after(alloc, progress, line) {
            Ok(next) => next,
            Err(stop) => return Err(stop_at(number, stop)),
        };
        number += 1;
        rest = later;
    }
    last(progress, number, rest)
}

/// Returns the reader's stop for a stop of the builder at line `line`.
fn stop_at(line: usize, stop: BuildStop) -> ReadPool
    ensures { result ≡ stopped line stop }
{
    match stop {
        BuildStop::Kind(kind) => ReadPool::Fault(PoolFault { line, kind }),
        BuildStop::OutOfMemory => ReadPool::OutOfMemory,
    }
}

/// Returns the pool if the end line was the last and nothing follows it, else the fault. `rest` is the bytes after the last LF.
fn last(progress: Progress, line: usize, rest: &[u8]) -> Result<Pool, ReadPool>
    ensures exact { Reads (at_last line (seen progress) rest.now) result }
    ensures memory { result ≢ Err OutOfMemory }
{
    match progress {
        Progress::Ended(pool) if rest.is_empty() => Ok(pool),
        Progress::Ended(_) => Err(ReadPool::Fault(PoolFault { line, kind: FORM })),
        _ => Err(ReadPool::Fault(PoolFault {
            line,
            kind: MISSING_END,
        })),
    }
}
