//! Reading the text of a proof, line by line. `read_proof` is the promise; the other functions are helpers.

ghost use Rattle.std.specs.Prelude.{◌≡◌, Ok, IfOk};
ghost use Rattle.define_proofs.specs.ProofVerdict.{Proof as Words, OfLottery, OfNoPanel};
ghost use Rattle.define_proofs.specs.ProofText.{IsProof, proof_spelling};
ghost use Rattle.define_proofs.specs.ProofReading.{read_proof as read, at_last, missing_kind};
ghost use Rattle.proof_text.specs.Answers.{Reads, stopped};
ghost use Rattle.proof_text.specs.Progress.{seen, IsClosedRight};

use crate::progress::{ENDING, Progress, after};
use crate::{Proof, TreeLines};
use bundle_text::{Bundle, Progress as BundleProgress};
use pool_model::{Answer, BuildStop, Pool};
use pool_text::Progress as PoolProgress;
use std::alloc::Global;
use text_lines::{TextFault, TextStop, next_line};

/// The kind of fault if a text ends before the end of the pool's lines.
const MISSING_END: u8 = 12;

/// The kind of fault if a text ends in the bundle's lines after the pool's end.
const MISSING_DONE: u8 = 17;

/// Returns the proof that all the bytes spell. If they are the text of no proof, returns a fault: the first line that has one, and the
/// lowest kind in it:
/// - 1 to 17 in the text of the bundle or of the pool, as in a bundle's or a pool's text alone
/// - 21 the first line is not that of a proof
/// - 22 the line is not allowed there: after the first line, it begins neither a bundle nor a pool; after a bundle, it is not `tree` and
///   1; after a pool, it is not `none`, and after `none` it is not `tree` and 0; in a tree, it is neither a split or bound in its ranges,
///   nor the line that begins the next tree, nor, in the last tree, `close`
/// - 23 the lines end outside the bundle's or the pool's text, or something follows `close`
pub fn read_proof(alloc: Global, bytes: &[u8]) -> Result<Proof, TextStop>
    // A proof that is read is spelled by exactly these bytes.
    ensures spelled { IfOk result (λ proof. IsProof proof × (bytes.now ≡ proof_spelling proof)) }
    // A proof that is spelled by these bytes is read, unless memory runs out.
    ensures read { (proof : Words) → IsProof proof → bytes.now ≡ proof_spelling proof → Reads (Ok proof) result }
    // The result is the proof or the fault that the definitions compute, unless memory runs out.
    ensures exact { Reads (read bytes.now) result }
{
    read_lines(alloc, bytes)
}

/// Reads the text line by line.
fn read_lines(alloc: Global, bytes: &[u8]) -> Result<Proof, TextStop>
    ensures { Reads (read bytes.now) result }
{
    let mut progress = Progress::Begun;
    let mut number = 1;
    let mut unread = bytes;
    while let Some((line, later)) = next_line(unread) {
        progress = match after(alloc, progress, line) {
            Ok(next) => next,
            Err(stop) => return Err(stop_at(number, stop)),
        };
        number += 1;
        unread = later;
    }
    last(progress, number, unread)
}

/// Returns the error for a stop in line `line`, counted from 1.
fn stop_at(line: usize, stop: BuildStop) -> TextStop
    ensures { result ≡ stopped line stop }
{
    match stop {
        BuildStop::Kind(kind) => TextStop::Fault(TextFault { line, kind }),
        BuildStop::OutOfMemory => TextStop::OutOfMemory,
    }
}

/// Ends the reading. `unread` is the bytes after the last LF, and must be empty.
fn last(progress: Progress, line: usize, unread: &[u8]) -> Result<Proof, TextStop>
    requires { IsClosedRight (seen progress) }
    ensures { Reads (at_last line (seen progress) unread.now) result }
{
    let kind = missing_kind(&progress);
    let missing = TextStop::Fault(TextFault { line, kind });
    if !unread.is_empty() {
        return Err(missing);
    }
    match progress {
        Progress::ClosedLottery(pool, answer, trees) => Ok(lottery_proof(pool, answer, trees)),
        Progress::ClosedNoPanel(pool, lines) => Ok(no_panel_proof(pool, lines)),
        Progress::Begun => Err(missing),
        Progress::Opened => Err(missing),
        Progress::InBundle(_progress) => Err(missing),
        Progress::InPool(_progress) => Err(missing),
        Progress::WithoutPanel(_pool) => Err(missing),
        Progress::InTrees(_pool, _answer, _whole, _lines) => Err(missing),
        Progress::InNoPanel(_pool, _lines) => Err(missing),
    }
}

/// Returns the proof of the bundle of `pool` and `answer` that has these trees.
fn lottery_proof(pool: Pool, answer: Answer, trees: Vec<TreeLines>) -> Proof
    requires { IsProof (OfLottery pool answer trees.items) }
    ensures { result ≡ OfLottery pool answer trees.items }
{
    let Some(bundle) = Bundle::new(pool, answer) else {
        unreachable!()
    };
    match Proof::of_lottery(bundle, trees) {
        Some(proof) => proof,
        None => unreachable!(),
    }
}

/// Returns the proof by these lines that the pool has no quota panel.
fn no_panel_proof(pool: Pool, lines: TreeLines) -> Proof
    requires { IsProof (OfNoPanel pool lines) }
    ensures { result ≡ OfNoPanel pool lines }
{
    match Proof::of_no_panel(pool, lines) {
        Some(proof) => proof,
        None => unreachable!(),
    }
}

/// Returns the kind of fault if the text ends at this progress: 12 in the pool's lines, 17 in the bundle's lines after them, else 23.
fn missing_kind(progress: &Progress) -> u8
    ensures { result ≡ missing_kind (seen progress.now) }
{
    match progress {
        Progress::InBundle(progress) => match progress {
            BundleProgress::InPool(_, PoolProgress::Ended(_)) => MISSING_DONE,
            BundleProgress::InPool(_, _) => MISSING_END,
            BundleProgress::Done(_, _) => ENDING,
            _ => MISSING_DONE,
        },
        Progress::InPool(PoolProgress::Ended(_)) => ENDING,
        Progress::InPool(_) => MISSING_END,
        _ => ENDING,
    }
}
