//! Reads the text of a bundle, line by line.

ghost use Rattle.std.specs.Prelude.{◌≡◌, Ok, IfOk};
ghost use Rattle.define_bundles.specs.BundleText.{Bundle as Words, IsBundle, bundle_spelling};
ghost use Rattle.define_bundles.specs.BundleReading.{read_bundle as read, at_last, missing_kind};
ghost use Rattle.define_bundles.specs.Ranges.{IsInRanges};
ghost use Rattle.bundle_text.specs.Answers.{Reads, stopped};
ghost use Rattle.bundle_text.specs.Progress.{seen, IsDoneRight};

use crate::bundles::Bundle;
use crate::faults::{BundleFault, ReadBundle};
use crate::progress::{ENDING, Progress, after};
use pool_model::{Answer, BuildStop, Pool};
use pool_text::Progress as PoolProgress;
use std::alloc::Global;
use text_lines::next_line;

/// The kind of fault if the lines run out within the pool.
const MISSING_END: u8 = 12;

/// Reads the bytes as the text of a bundle. Fails exactly if they aren't the text of a bundle, with the first faulty line and its
/// lowest kind of fault, or if memory runs out.
pub fn read_bundle(alloc: Global, bytes: &[u8]) -> Result<Bundle, ReadBundle>
    // If a bundle is read, `bytes` are its text, byte for byte.
    ensures spelled { IfOk result (λ bundle. IsBundle bundle × (bytes.now ≡ bundle_spelling bundle)) }
    // The text of each bundle is read as this bundle, unless memory runs out.
    ensures read { (bundle : Words) → IsBundle bundle → bytes.now ≡ bundle_spelling bundle → Reads (Ok bundle) result }
    // The result is the bundle or the fault that the definition reads, unless memory runs out.
    ensures exact { Reads (read bytes.now) result }
{
    read_lines(alloc, bytes)
}

fn read_lines(alloc: Global, bytes: &[u8]) -> Result<Bundle, ReadBundle>
    ensures { Reads (read bytes.now) result }
{
    let mut progress = Progress::Begun;
    let mut number = 1;
    let mut rest = bytes;
    while let Some((line, later)) = next_line(rest) {
        progress = match after(alloc, progress, line) {
            Ok(next) => next,
            Err(stop) => return Err(stop_at(number, stop)),
        };
        number += 1;
        rest = later;
    }
    last(progress, number, rest)
}

/// Returns the reader's stop at line `line`, with the kind of fault or the want of memory of `stop`.
fn stop_at(line: usize, stop: BuildStop) -> ReadBundle
    ensures { result ≡ stopped line stop }
{
    match stop {
        BuildStop::Kind(kind) => ReadBundle::Fault(BundleFault { line, kind }),
        BuildStop::OutOfMemory => ReadBundle::OutOfMemory,
    }
}

/// Returns the bundle if `done` was the last line and nothing follows it, else the fault. `rest` is the bytes after the last LF.
fn last(progress: Progress, line: usize, rest: &[u8]) -> Result<Bundle, ReadBundle>
    requires { IsDoneRight (seen progress) }
    ensures { Reads (at_last line (seen progress) rest.now) result }
{
    let kind = missing_kind(&progress);
    let missing = ReadBundle::Fault(BundleFault { line, kind });
    if !rest.is_empty() {
        return Err(missing);
    }
    match progress {
        Progress::Done(pool, answer) => Ok(finished(pool, answer)),
        Progress::Begun => Err(missing),
        Progress::InPool(_version, _progress) => Err(missing),
        Progress::InRows(_pool, _lottery) => Err(missing),
        Progress::InStages(_pool, _lottery, _certificate) => Err(missing),
    }
}

/// Returns the bundle of this pool and answer, whose numbers are in the ranges.
fn finished(pool: Pool, answer: Answer) -> Bundle
    requires { IsInRanges pool answer }
    ensures { result ≡ record { pool = pool; answer = answer } }
{
    match Bundle::new(pool, answer) {
        Some(bundle) => bundle,
        None => unreachable!(),
    }
}

/// Returns the kind of fault if the lines run out: 12 within the pool's lines, else 17, also before the first line.
fn missing_kind(progress: &Progress) -> u8
    ensures { result ≡ missing_kind (seen progress.now) }
{
    match progress {
        Progress::InPool(_, PoolProgress::Ended(_)) => ENDING,
        Progress::InPool(_, _) => MISSING_END,
        _ => ENDING,
    }
}
