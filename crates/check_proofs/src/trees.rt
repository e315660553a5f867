//! The walk through the lines of a tree, which finds the first fault: a line that can't come next, a leaf whose multipliers do not show the
//! cap, or that the lines end before the tree is complete.

ghost use Rattle.std.specs.Prelude.{◌≡◌, IfOk, IsTrue, OnOk, length, true, Ok, Err};
ghost use Rattle.std.specs.List.{list_all};
ghost use Rattle.define_proofs.specs.LeafSums.{is_problem_in_reach};
ghost use Rattle.define_proofs.specs.Leaves.{standings};
ghost use Rattle.define_proofs.specs.TreeLines.{OfLeaf, OfSplit, tree_fault as fault_of};
ghost use Rattle.define_proofs.specs.TreeRanges.{is_leaf, is_tree_line};
ghost use Rattle.check_proofs.specs.Steps.{next, place, seen_step};

use crate::leaves::{Problem, leaf_shows};
use crate::paths::Path;
use check_reasons::lines_after;
use pool_model::Pool;
use proof_text::{Leaf, Node, TreeLine};
use std::alloc::{AllocError, Global};
use std::marker::Model;

/// The reason to refuse a tree if a line can't come next in it, the lines end before it is complete, or a line follows its end.
const NO_NEXT_LINE: u8 = 11;

/// The reason to refuse a leaf whose multipliers do not show the cap.
const SHOWS_NO_CAP: u8 = 12;

/// The number of a line, and the reason why it is refused.
#[derive(Drop)]
pub(crate) struct Fault {
    line: usize,
    reason: u8,
}

impl Model for Fault {
    ghost use Rattle.define_proofs.specs.TreeLines.{TreeFault as Seen};

    ghost Value = { Seen };

    ghost view = { λ f. record { line = f.line; reason = f.reason } };
}

impl Fault {
    /// Returns a fault.
    fn new(line: usize, reason: u8) -> Fault
        ensures { result ≡ record { line = line; reason = reason } }
    {
        Fault { line, reason }
    }

    /// Returns the number of the line.
    pub(crate) fn line(&self) -> usize
        ensures { result ≡ self.now.line }
    {
        self.line
    }

    /// Returns the reason.
    pub(crate) fn reason(&self) -> u8
        ensures { result ≡ self.now.reason }
    {
        self.reason
    }
}

/// Finds the first fault in the lines of a tree over the pool's volunteers. The first line has the number `number`.
pub(crate) fn tree_fault(
    alloc: Global,
    problem: &Problem,
    pool: &Pool,
    number: usize,
    lines: &[TreeLine],
) -> Result<Option<Fault>, AllocError>
    requires near { IsTrue (is_problem_in_reach problem.now) }
    requires lines { IsTrue (list_all (is_tree_line (length pool.now.volunteers)) lines.now) }
    ensures { IfOk result (λ fault. fault ≡ fault_of problem.now (standings pool.now) number lines.now) }
{
    let mut path = Path::begin(alloc, pool)?;
    let mut goes_on = true;
    for (k, line) in lines.iter().enumerate() {
        match pass_line(problem, &mut path, goes_on, line)? {
            Ok(next) => goes_on = next,
            Err(reason) => return Ok(Some(Fault::new(lines_after(number, k)?, reason))),
        }
    }
    if !goes_on {
        return Ok(None);
    }
    Ok(Some(Fault::new(lines_after(number, lines.len())?, NO_NEXT_LINE)))
}

/// Passes a line, and moves the path to the next one. Returns whether the tree goes on, or the reason why the line is refused.
fn pass_line(
    problem: &Problem,
    path: &mut Path,
    goes_on: bool,
    line: &TreeLine,
) -> Result<Result<bool, u8>, AllocError>
    requires near { IsTrue (is_problem_in_reach problem.now) }
    requires line { IsTrue (is_tree_line (length path.old.pool.volunteers) line.now) }
    ensures step { IfOk result (λ step. next problem.now (standings path.old.pool) (place goes_on path.old.decisions) line.now ≡ seen_step step path.new.decisions) }
    ensures pool { OnOk result (path.new.pool ≡ path.old.pool) }
{
    if !goes_on {
        return Ok(Err(NO_NEXT_LINE));
    }
    match line.node() {
        Node::Split(i) => pass_split(problem, path, *i),
        Node::Leaf(leaf) => pass_leaf(problem, path, leaf),
    }
}

/// Passes a split, which has to be on an undecided volunteer.
fn pass_split(problem: &Problem, path: &mut Path, i: usize) -> Result<Result<bool, u8>, AllocError>
    ensures step { IfOk result (λ step. next problem.now (standings path.old.pool) (place true path.old.decisions) (OfSplit i) ≡ seen_step step path.new.decisions) }
    ensures pool { OnOk result (path.new.pool ≡ path.old.pool) }
{
    if !path.is_undecided(i) {
        return Ok(Err(NO_NEXT_LINE));
    }
    path.decide(i, false)?;
    Ok(Ok(true))
}

/// Passes a leaf, which has to show the cap.
fn pass_leaf(
    problem: &Problem,
    path: &mut Path,
    leaf: &Leaf,
) -> Result<Result<bool, u8>, AllocError>
    requires near { IsTrue (is_problem_in_reach problem.now) }
    requires leaf { IsTrue (is_leaf leaf.now) }
    ensures step { IfOk result (λ step. next problem.now (standings path.old.pool) (place true path.old.decisions) (OfLeaf leaf.now) ≡ seen_step step path.new.decisions) }
    ensures pool { OnOk result (path.new.pool ≡ path.old.pool) }
{
    if !leaf_shows(problem, path.standings(), leaf) {
        return Ok(Err(SHOWS_NO_CAP));
    }
    let goes_on = path.go_behind()?;
    Ok(Ok(goes_on))
}
