//! The lines of a tree that refutes a pool's constraints: splits, and leaves with multipliers of numbered constraints. They come from a
//! proof or from the steps of a search. No contract promises that the lines refute anything: `checks` finds that out.

use crate::covers::Node;
use crate::kept::{Kept, is_kept, is_least};
use define_quotas::Side;
use proof_text::{Node as TreeNode, TreeLine};
use prove_branching::Step;
use std::alloc::{AllocError, Global};

/// A line of a tree.
#[derive(Debug, Drop)]
pub(crate) enum Line {
    /// A split on the volunteer of this number.
    Split(usize),
    /// A leaf: numbers of constraints with their factors. A factor above 0 is for the constraint's upper bound, one below 0 for its lower.
    Leaf(Vec<(usize, i128)>),
}

/// Returns the lines of a proof's tree.
pub(crate) fn lines_of_tree(alloc: Global, tree: &[TreeLine]) -> Result<Vec<Line>, AllocError> {
    let mut lines = Vec::new(alloc);
    for line in tree {
        match line.node() {
            TreeNode::Split(i) => lines.push(Line::Split(*i))?,
            TreeNode::Leaf(leaf) => {
                let mut multipliers = Vec::new(alloc);
                for it in leaf.multipliers() {
                    multipliers.push((it.number(), it.factor()))?;
                }
                lines.push(Line::Leaf(multipliers))?;
            }
        }
    }
    Ok(lines)
}

/// Returns the lines of a search's steps, whose columns are volunteers, with the multipliers of kept bounds alone. In the search a lower
/// bound that isn't kept is 0, and no selection passes an upper one that isn't. So a leaf shows the same without the multipliers of such
/// bounds.
pub(crate) fn lines_of_steps(
    alloc: Global,
    steps: Vec<Step>,
    kept: &[Kept],
) -> Result<Vec<Line>, AllocError> {
    let mut lines = Vec::new(alloc);
    for step in steps {
        match step {
            Step::Split(column) => lines.push(Line::Split(column))?,
            Step::Refuted(refutation) => {
                lines.push(Line::Leaf(of_kept(alloc, &refutation.multipliers, kept)?))?;
            }
        }
    }
    Ok(lines)
}

/// Returns the multipliers of kept bounds.
fn of_kept(
    alloc: Global,
    multipliers: &[(usize, i128)],
    kept: &[Kept],
) -> Result<Vec<(usize, i128)>, AllocError> {
    let mut own = Vec::new(alloc);
    for (number, factor) in multipliers {
        if is_kept(kept, *number, side_of(*factor)) {
            own.push((*number, *factor))?;
        }
    }
    Ok(own)
}

/// Returns the side of a bound whose multiplier has this factor.
fn side_of(factor: i128) -> Side {
    if factor < 0 {
        Side::AtLeast
    } else {
        Side::AtMost
    }
}

/// Returns the bounds that have a multiplier in some leaf, in the order of their numbers. There are `constraints` constraints.
pub(crate) fn used_bounds(
    alloc: Global,
    lines: &[Line],
    constraints: usize,
) -> Result<Vec<Kept>, AllocError> {
    let mut used = Vec::new(alloc);
    for number in 0..constraints {
        for side in [Side::AtLeast, Side::AtMost] {
            let own = Kept { number, side };
            if is_used(lines, own) {
                used.push(own)?;
            }
        }
    }
    Ok(used)
}

/// True if a leaf has a multiplier of the bound.
fn is_used(lines: &[Line], own: Kept) -> bool {
    for line in lines {
        if let Line::Leaf(multipliers) = line {
            if weight_of(multipliers, own) > 0 {
                return true;
            }
        }
    }
    false
}

/// Returns the weight of a bound in a leaf: the absolute value of its factor. Returns 0 if the leaf has no factor for this side, or if the
/// absolute value doesn't fit `usize`.
fn weight_of(multipliers: &[(usize, i128)], own: Kept) -> usize {
    for (number, factor) in multipliers {
        if *number == own.number && is_least(side_of(*factor)) == is_least(own.side) {
            return usize::try_from(factor.unsigned_abs()).unwrap_or(0);
        }
    }
    0
}

/// Returns the nodes of the tree, with a weight in each leaf for each kept bound.
pub(crate) fn nodes_of_lines(
    alloc: Global,
    lines: &[Line],
    kept: &[Kept],
) -> Result<Vec<Node>, AllocError> {
    let mut nodes = Vec::new(alloc);
    for line in lines {
        match line {
            Line::Split(i) => nodes.push(Node::Split(*i))?,
            Line::Leaf(multipliers) => {
                let mut weights = Vec::new(alloc);
                for own in kept {
                    weights.push(weight_of(multipliers, *own))?;
                }
                nodes.push(Node::Leaf(weights))?;
            }
        }
    }
    Ok(nodes)
}
