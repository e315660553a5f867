//! Reading the text of a cover, line by line. `read_cover` is the promise; the other functions are helpers.

ghost use Rattle.std.specs.Prelude.{◌≡◌, Ok, IfOk};
ghost use Rattle.define_covers.specs.Covers.{Cover as Words};
ghost use Rattle.define_covers.specs.CoverText.{IsCover, cover_spelling};
ghost use Rattle.define_covers.specs.CoverReading.{read_cover as read, at_last, missing_kind as missing_in};
ghost use Rattle.cover_text.specs.Answers.{Reads};
ghost use Rattle.cover_text.specs.Progress.{seen, IsClosedRight};

use crate::progress::{ENDING, Progress, after};
use crate::shared::{missing_in_bundle, stop_at};
use crate::{Cover, Fronts};
use bundle_text::{Bundle, Progress as BundleProgress};
use pool_model::{Answer, Pool};
use std::alloc::Global;
use text_lines::{TextFault, TextStop, next_line};

/// Returns the cover that all the bytes spell. If they are the text of no cover, returns a fault: the first line that has one, and the
/// lowest kind in it:
/// - 1 to 17 in the text of the bundle, as in a bundle's text alone
/// - 18 the first line is not that of a cover
/// - 19 the line is not allowed there: after the bundle, it is not `tree` and 1; in a tree, it is neither a front in its ranges, nor the
///   line that begins the next tree, nor, in the last tree, `close`
/// - 20 the lines end outside the bundle's text, or something follows `close`
pub fn read_cover(alloc: Global, bytes: &[u8]) -> Result<Cover, TextStop>
    // A cover that is read is spelled by exactly these bytes.
    ensures spelled { IfOk result (λ cover. IsCover cover × (bytes.now ≡ cover_spelling cover)) }
    // A cover that is spelled by these bytes is read, unless memory runs out.
    ensures read { (cover : Words) → IsCover cover → bytes.now ≡ cover_spelling cover → Reads (Ok cover) result }
    // The result is the cover or the fault that the definitions compute, unless memory runs out.
    ensures exact { Reads (read bytes.now) result }
{
    read_lines(alloc, bytes)
}

/// Reads the text line by line.
fn read_lines(alloc: Global, bytes: &[u8]) -> Result<Cover, TextStop>
    ensures { Reads (read bytes.now) result }
{
    let mut progress = Progress::Begun;
    let mut number = 1;
    let mut unread = bytes;
    while let Some((line, later)) = next_line(unread) {
        progress = match after(alloc, progress, line) {
            Ok(next) => next,
            Err(stop) => return Err(stop_at(number, stop)),
        };
        number += 1;
        unread = later;
    }
    last(progress, number, unread)
}

/// Ends the reading. `unread` is the bytes after the last LF, and must be empty.
fn last(progress: Progress, line: usize, unread: &[u8]) -> Result<Cover, TextStop>
    requires { IsClosedRight (seen progress) }
    ensures { Reads (at_last line (seen progress) unread.now) result }
{
    let kind = missing_kind(&progress);
    let missing = TextStop::Fault(TextFault { line, kind });
    if !unread.is_empty() {
        return Err(missing);
    }
    match progress {
        Progress::Closed(pool, answer, trees) => Ok(closed(pool, answer, trees)),
        Progress::Begun => Err(missing),
        Progress::InBundle(_progress) => Err(missing),
        Progress::InTrees(_pool, _answer, _whole, _lines) => Err(missing),
    }
}

/// Returns the cover of the bundle of `pool` and `answer` that has these trees.
fn closed(pool: Pool, answer: Answer, trees: Vec<Fronts>) -> Cover
    requires { IsCover (record { bundle = record { pool = pool; answer = answer }; trees = trees.items }) }
    ensures { result ≡ record { bundle = record { pool = pool; answer = answer }; trees = trees.items } }
{
    let Some(bundle) = Bundle::new(pool, answer) else {
        unreachable!()
    };
    match Cover::new(bundle, trees) {
        Some(cover) => cover,
        None => unreachable!(),
    }
}

/// Returns the kind of fault if the text ends at this progress: 12 or 17 in the bundle's lines, else 20.
fn missing_kind(progress: &Progress) -> u8
    ensures { result ≡ missing_in (seen progress.now) }
{
    match progress {
        Progress::InBundle(BundleProgress::Done(_, _)) => ENDING,
        Progress::InBundle(progress) => missing_in_bundle(progress),
        _ => ENDING,
    }
}
