//! How far the text of a proof has been read: the progress after the lines so far, and after one more line.

ghost use Rattle.std.specs.Prelude.{◌≡◌, IfOk};
ghost use Rattle.bundle_text.specs.Progress.{seen as bundle_seen};
ghost use Rattle.pool_text.specs.Answers.{Tells};
ghost use Rattle.pool_text.specs.Progress.{seen as pool_seen};
ghost use Rattle.define_proofs.specs.ProofReading.{line_kind, after_line, Begun, Opened, InBundle, InPool, WithoutPanel, InTrees, InNoPanel};
ghost use Rattle.proof_text.specs.Progress.{seen};

use crate::TreeLines;
use crate::lines::{LineInTree, begins_tree, line_in_tree};
use bundle_text::Progress as BundleProgress;
use pool_model::{Answer, BuildStop, Pool};
use pool_text::Progress as PoolProgress;
use std::alloc::Global;

const FIRST: &[u8] = b"proof\t1";

const NONE: &[u8] = b"none";

/// The kind of fault of a first line that isn't that of a proof.
const VERSION: u8 = 21;

/// The kind of fault of a later line that is not allowed in its place.
const FORM: u8 = 22;

/// The kind of fault if a text ends too early, outside the bundle's and the pool's lines; also of anything after the last line.
pub(crate) const ENDING: u8 = 23;

/// What has been read.
#[derive(Debug, Drop)]
pub(crate) enum Progress {
    /// No line yet.
    Begun,
    /// The first line.
    Opened,
    /// Lines of a bundle.
    InBundle(BundleProgress),
    /// Lines of a pool.
    InPool(PoolProgress),
    /// A whole pool, and the line that says that there is no quota panel.
    WithoutPanel(Pool),
    /// A whole bundle, whole trees, and the lines so far of the next tree.
    InTrees(Pool, Answer, Vec<TreeLines>, TreeLines),
    /// A pool without quota panel, and the lines so far of its tree.
    InNoPanel(Pool, TreeLines),
    /// All lines, with the trees of a bundle.
    ClosedLottery(Pool, Answer, Vec<TreeLines>),
    /// All lines, with the tree that is to show that there is no quota panel.
    ClosedNoPanel(Pool, TreeLines),
}

/// Reads one more line. Stops with the lowest kind of fault that the line has.
pub(crate) fn after(alloc: Global, progress: Progress, line: &[u8]) -> Result<Progress, BuildStop>
    ensures kind { Tells (line_kind (seen progress) line.now) result }
    ensures ok { IfOk result (λ next. seen next ≡ after_line (seen progress) line.now) }
{
    match progress {
        Progress::Begun => first_line(line),
        Progress::Opened => second_line(alloc, line),
        Progress::InBundle(progress) => after_bundle(alloc, progress, line),
        Progress::InPool(progress) => after_pool(alloc, progress, line),
        Progress::WithoutPanel(pool) => after_none(alloc, pool, line),
        Progress::InTrees(pool, answer, whole, lines) => {
            after_tree(alloc, pool, answer, whole, lines, line)
        }
        Progress::InNoPanel(pool, lines) => after_no_panel(alloc, pool, lines, line),
        Progress::ClosedLottery(_, _, _) | Progress::ClosedNoPanel(_, _) => {
            Err(BuildStop::Kind(ENDING))
        }
    }
}

/// Reads the first line.
fn first_line(line: &[u8]) -> Result<Progress, BuildStop>
    ensures kind { Tells (line_kind Begun line.now) result }
    ensures ok { IfOk result (λ next. seen next ≡ after_line Begun line.now) }
{
    if line == FIRST {
        Ok(Progress::Opened)
    } else {
        Err(BuildStop::Kind(VERSION))
    }
}

/// Reads the second line, which begins a bundle or a pool.
fn second_line(alloc: Global, line: &[u8]) -> Result<Progress, BuildStop>
    ensures kind { Tells (line_kind Opened line.now) result }
    ensures ok { IfOk result (λ next. seen next ≡ after_line Opened line.now) }
{
    match bundle_text::after(alloc, BundleProgress::Begun, line) {
        Ok(next) => Ok(Progress::InBundle(next)),
        Err(BuildStop::OutOfMemory) => Err(BuildStop::OutOfMemory),
        Err(BuildStop::Kind(_)) => match pool_text::after(alloc, PoolProgress::Begun, line) {
            Ok(next) => Ok(Progress::InPool(next)),
            Err(BuildStop::OutOfMemory) => Err(BuildStop::OutOfMemory),
            Err(BuildStop::Kind(_)) => Err(BuildStop::Kind(FORM)),
        },
    }
}

/// Reads a line of the bundle; after the bundle's end, the line that begins the first tree.
fn after_bundle(alloc: Global, progress: BundleProgress, line: &[u8]) -> Result<Progress, BuildStop>
    ensures kind { Tells (line_kind (InBundle (bundle_seen progress)) line.now) result }
    ensures ok { IfOk result (λ next. seen next ≡ after_line (InBundle (bundle_seen progress)) line.now) }
{
    match progress {
        BundleProgress::Done(pool, answer) => {
            if begins_tree(1, line) {
                Ok(Progress::InTrees(
                    pool,
                    answer,
                    Vec::new(alloc),
                    TreeLines::new(Vec::new(alloc)),
                ))
            } else {
                Err(BuildStop::Kind(FORM))
            }
        }
        progress => Ok(Progress::InBundle(bundle_text::after(alloc, progress, line)?)),
    }
}

/// Reads a line of the pool; after the pool's end, the line `none`.
fn after_pool(alloc: Global, progress: PoolProgress, line: &[u8]) -> Result<Progress, BuildStop>
    ensures kind { Tells (line_kind (InPool (pool_seen progress)) line.now) result }
    ensures ok { IfOk result (λ next. seen next ≡ after_line (InPool (pool_seen progress)) line.now) }
{
    match progress {
        PoolProgress::Ended(pool) => {
            if line == NONE {
                Ok(Progress::WithoutPanel(pool))
            } else {
                Err(BuildStop::Kind(FORM))
            }
        }
        progress => Ok(Progress::InPool(pool_text::after(alloc, progress, line)?)),
    }
}

/// Reads the line that begins the tree of a pool without quota panel.
fn after_none(alloc: Global, pool: Pool, line: &[u8]) -> Result<Progress, BuildStop>
    ensures kind { Tells (line_kind (WithoutPanel pool) line.now) result }
    ensures ok { IfOk result (λ next. seen next ≡ after_line (WithoutPanel pool) line.now) }
{
    if begins_tree(0, line) {
        Ok(Progress::InNoPanel(pool, TreeLines::new(Vec::new(alloc))))
    } else {
        Err(BuildStop::Kind(FORM))
    }
}

/// Reads a line in a tree of a bundle.
fn after_tree(
    alloc: Global,
    pool: Pool,
    answer: Answer,
    mut whole: Vec<TreeLines>,
    mut lines: TreeLines,
    line: &[u8],
) -> Result<Progress, BuildStop>
    ensures kind { Tells (line_kind (InTrees (record { pool = pool; answer = answer }) whole.items lines) line.now) result }
    ensures ok { IfOk result (λ next. seen next ≡ after_line (InTrees (record { pool = pool; answer = answer }) whole.items lines) line.now) }
{
    let volunteers = pool.volunteers().len();
    let last = answer.certificate().stages().len();
    match line_in_tree(alloc, volunteers, whole.len() + 1, last, line)? {
        LineInTree::Node(node) => {
            lines.add_line(node)?;
            Ok(Progress::InTrees(pool, answer, whole, lines))
        }
        LineInTree::NextTree => {
            whole.push(lines)?;
            let next = TreeLines::new(Vec::new(alloc));
            Ok(Progress::InTrees(pool, answer, whole, next))
        }
        LineInTree::Close => {
            whole.push(lines)?;
            Ok(Progress::ClosedLottery(pool, answer, whole))
        }
        LineInTree::Unknown => Err(BuildStop::Kind(FORM)),
    }
}

/// Reads a line in the tree of a pool without quota panel.
fn after_no_panel(
    alloc: Global,
    pool: Pool,
    mut lines: TreeLines,
    line: &[u8],
) -> Result<Progress, BuildStop>
    ensures kind { Tells (line_kind (InNoPanel pool lines) line.now) result }
    ensures ok { IfOk result (λ next. seen next ≡ after_line (InNoPanel pool lines) line.now) }
{
    match line_in_tree(alloc, pool.volunteers().len(), 0, 0, line)? {
        LineInTree::Node(node) => {
            lines.add_line(node)?;
            Ok(Progress::InNoPanel(pool, lines))
        }
        LineInTree::NextTree => Ok(Progress::InNoPanel(pool, lines)),
        LineInTree::Close => Ok(Progress::ClosedNoPanel(pool, lines)),
        LineInTree::Unknown => Err(BuildStop::Kind(FORM)),
    }
}
