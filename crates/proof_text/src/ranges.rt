//! The ranges of the numbers in a tree's lines.

ghost use Rattle.std.specs.Prelude.{◌≡◌, ◌<◌, length, map, slice_index};
ghost use Rattle.std.specs.List.{list_all};
ghost use Rattle.define_pools.specs.Lists.{is_increasing};
ghost use Rattle.define_proofs.specs.TreeRanges.{is_leaf as keeps_leaf, is_multiplier as keeps_multiplier, is_tree_line as keeps_line, are_constraints as keep_constraints, last_constraint as last_number};

use crate::leaves::{Leaf, Multiplier};
use crate::trees::{Node, TreeLine, TreeLines};
use pool_model::Limits;

/// The greatest number of a constraint that a multiplier may name in any pool: one for the size, 1,000 for values, and as many as a pool has
/// volunteers for earlier stages and for households.
pub const GREATEST_CONSTRAINT: usize = 9000;

/// The greatest absolute value of a factor: 2^56.
const MAX_FACTOR: u128 = 72_057_594_037_927_936;

/// The greatest scale: 2^56.
const MAX_SCALE: u64 = 72_057_594_037_927_936;

/// True if the line is a split on a number below `volunteers`, or a leaf in its ranges.
pub fn is_tree_line(volunteers: usize, line: &TreeLine) -> bool
    ensures { result ≡ keeps_line volunteers line.now }
{
    match line.node() {
        Node::Split(i) => *i < volunteers,
        Node::Leaf(leaf) => is_leaf(leaf) && are_constraints(volunteers, leaf.multipliers()),
    }
}

/// True if no multiplier names a greater number than a constraint of a pool of `volunteers` volunteers has.
fn are_constraints(volunteers: usize, multipliers: &[Multiplier]) -> bool
    ensures { result ≡ keep_constraints volunteers multipliers.now }
{
    let last = last_constraint(volunteers);
    multipliers
        .iter()
        .all(|multiplier| multiplier.number() <= last)
}

/// Returns the greatest number of a constraint in a pool of `volunteers` volunteers.
fn last_constraint(volunteers: usize) -> usize
    ensures { result ≡ last_number volunteers }
{
    1000 + 2 * Limits::of(volunteers).volunteers()
}

/// True if the scale is at most 2^56, and the multipliers are in their ranges and in rising order of their constraints.
pub fn is_leaf(leaf: &Leaf) -> bool
    ensures { result ≡ keeps_leaf leaf.now }
{
    let multipliers = leaf.multipliers();
    leaf.scale() <= MAX_SCALE && are_multipliers(multipliers) && are_in_order(multipliers)
}

/// True if the number is at most 9000, and the factor isn't 0 and has an absolute value of at most 2^56.
pub fn is_multiplier(multiplier: &Multiplier) -> bool
    ensures { result ≡ keeps_multiplier multiplier.now }
{
    let size = multiplier.factor().unsigned_abs();
    multiplier.number() <= GREATEST_CONSTRAINT && 0 < size && size <= MAX_FACTOR
}

/// True if all multipliers are in their ranges.
fn are_multipliers(multipliers: &[Multiplier]) -> bool
    ensures { result ≡ list_all keeps_multiplier multipliers.now }
{
    multipliers.iter().all(is_multiplier)
}

/// True if the constraints' numbers are in rising order, so none comes twice.
fn are_in_order(multipliers: &[Multiplier]) -> bool
    ensures { result ≡ is_increasing (map (λ multiplier. multiplier.number) multipliers.now) }
{
    for i in 1..multipliers.len() {
        if number_at(multipliers, i) <= number_at(multipliers, i - 1) {
            return false;
        }
    }
    true
}

/// Returns the number of the constraint of multiplier `i`.
fn number_at(multipliers: &[Multiplier], i: usize) -> usize
    requires { i < length multipliers.now }
    ensures { result ≡ slice_index (map (λ multiplier. multiplier.number) multipliers.now) i }
{
    multipliers[i].number()
}

/// True if all lines are in their ranges, for a pool of `volunteers` volunteers.
pub(crate) fn are_tree_lines(volunteers: usize, lines: &[TreeLine]) -> bool
    ensures { result ≡ list_all (keeps_line volunteers) lines.now }
{
    lines.iter().all(|line| is_tree_line(volunteers, line))
}

/// True if all lines of all trees are in their ranges, for a pool of `volunteers` volunteers.
pub(crate) fn are_trees(volunteers: usize, trees: &[TreeLines]) -> bool
    ensures { result ≡ list_all (λ lines. list_all (keeps_line volunteers) lines) trees.now }
{
    trees
        .iter()
        .all(|tree| are_tree_lines(volunteers, tree.lines()))
}
