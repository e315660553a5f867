//! How far the text of a cover has been read: the progress after the lines so far, and after one more line.

ghost use Rattle.std.specs.Prelude.{◌≡◌, IfOk};
ghost use Rattle.bundle_text.specs.Progress.{seen as bundle_seen};
ghost use Rattle.pool_text.specs.Answers.{Tells};
ghost use Rattle.define_covers.specs.CoverReading.{line_kind, after_line, Begun, InBundle, InTrees};
ghost use Rattle.cover_text.specs.Progress.{seen};

use crate::Fronts;
use crate::lines::{LineInTree, line_in_tree};
use crate::shared::begins_tree;
use bundle_text::Progress as BundleProgress;
use pool_model::{Answer, BuildStop, Pool};
use std::alloc::Global;

const FIRST: &[u8] = b"cover\t1";

/// The kind of fault of a first line that isn't that of a cover.
const VERSION: u8 = 18;

/// The kind of fault of a line after the bundle that is not allowed in its place.
const FORM: u8 = 19;

/// The kind of fault if a text ends too early, outside the bundle's lines; also of anything after the last line.
pub(crate) const ENDING: u8 = 20;

/// What has been read.
#[derive(Debug, Drop)]
pub(crate) enum Progress {
    /// No line yet.
    Begun,
    /// The first line, and lines of a bundle.
    InBundle(BundleProgress),
    /// A whole bundle, whole trees, and the lines so far of the next tree.
    InTrees(Pool, Answer, Vec<Fronts>, Fronts),
    /// All lines.
    Closed(Pool, Answer, Vec<Fronts>),
}

/// Reads one more line. Stops with the lowest kind of fault that the line has.
pub(crate) fn after(alloc: Global, progress: Progress, line: &[u8]) -> Result<Progress, BuildStop>
    ensures kind { Tells (line_kind (seen progress) line.now) result }
    ensures ok { IfOk result (λ next. seen next ≡ after_line (seen progress) line.now) }
{
    match progress {
        Progress::Begun => first_line(line),
        Progress::InBundle(progress) => after_bundle(alloc, progress, line),
        Progress::InTrees(pool, answer, whole, lines) => {
            after_tree(alloc, pool, answer, whole, lines, line)
        }
        Progress::Closed(_, _, _) => Err(BuildStop::Kind(ENDING)),
    }
}

/// Reads the first line.
fn first_line(line: &[u8]) -> Result<Progress, BuildStop>
    ensures kind { Tells (line_kind Begun line.now) result }
    ensures ok { IfOk result (λ next. seen next ≡ after_line Begun line.now) }
{
    if line == FIRST {
        Ok(Progress::InBundle(BundleProgress::Begun))
    } else {
        Err(BuildStop::Kind(VERSION))
    }
}

/// Reads a line of the bundle; after the bundle's end, the line that begins the first tree.
fn after_bundle(alloc: Global, progress: BundleProgress, line: &[u8]) -> Result<Progress, BuildStop>
    ensures kind { Tells (line_kind (InBundle (bundle_seen progress)) line.now) result }
    ensures ok { IfOk result (λ next. seen next ≡ after_line (InBundle (bundle_seen progress)) line.now) }
{
    match progress {
        BundleProgress::Done(pool, answer) => {
            if begins_tree(1, line) {
                let first = Fronts::new(Vec::new(alloc));
                Ok(Progress::InTrees(pool, answer, Vec::new(alloc), first))
            } else {
                Err(BuildStop::Kind(FORM))
            }
        }
        progress => Ok(Progress::InBundle(bundle_text::after(alloc, progress, line)?)),
    }
}

/// Reads a line in a tree.
fn after_tree(
    alloc: Global,
    pool: Pool,
    answer: Answer,
    mut whole: Vec<Fronts>,
    mut lines: Fronts,
    line: &[u8],
) -> Result<Progress, BuildStop>
    ensures kind { Tells (line_kind (InTrees (record { pool = pool; answer = answer }) whole.items lines) line.now) result }
    ensures ok { IfOk result (λ next. seen next ≡ after_line (InTrees (record { pool = pool; answer = answer }) whole.items lines) line.now) }
{
    let last = answer.certificate().stages().len();
    match line_in_tree(alloc, &pool, whole.len() + 1, last, line)? {
        LineInTree::Front(front) => {
            lines.add_line(front)?;
            Ok(Progress::InTrees(pool, answer, whole, lines))
        }
        LineInTree::NextTree => {
            whole.push(lines)?;
            let next = Fronts::new(Vec::new(alloc));
            Ok(Progress::InTrees(pool, answer, whole, next))
        }
        LineInTree::Close => {
            whole.push(lines)?;
            Ok(Progress::Closed(pool, answer, whole))
        }
        LineInTree::Unknown => Err(BuildStop::Kind(FORM)),
    }
}
