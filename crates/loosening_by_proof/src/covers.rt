//! Whether a tree of splits shows that each team costs at least a number: each split is on a volunteer and is followed by both its parts,
//! and each leaf has weights that show this. `answers` uses `covers`.

ghost use Rattle.std.specs.Bool.{OnTrue};
ghost use Rattle.std.specs.Prelude.{ℕ, ◌≡◌, ◌<◌, ◌≤◌, length, IfOk, IfSome, Some};
ghost use Rattle.define_quotas.specs.CostBounds.{CostsAt, IsAtLeast};

use crate::bounds::{Leaf, least_cost};
use define_quotas::costs::both_parts_cost;
use pool_model::{Pool, Standing};
use quota_conflicts::with_standing;
use std::alloc::{AllocError, Global};

/// A node of a tree. A tree is a list of its nodes: a split is followed by the part without the volunteer, then by the part with them.
#[derive(Debug, Drop)]
pub(crate) enum Node {
    /// A split on the volunteer of this number.
    Split(usize),
    /// A leaf, with weights of quotas.
    Leaf(Leaf),
}

/// True if the nodes begin with a tree which shows that each team that keeps the standings costs at least `least`.
pub(crate) fn covers(
    alloc: Global,
    pool: &Pool,
    nodes: &[Node],
    standings: &[Standing],
    least: usize,
) -> Result<bool, AllocError>
    requires { length standings.now ≡ length pool.now.volunteers }
    ensures { IfOk result (λ is. OnTrue is (CostsAt pool.now standings.now (Some least))) }
{
    let end = end_of_tree(alloc, pool, nodes, 0, standings, least)?;
    Ok(end.is_some())
}

/// Returns the place after the tree that begins at place `at`, if this tree shows that each team that keeps the standings costs at least
/// `least`, else None.
fn end_of_tree(
    alloc: Global,
    pool: &Pool,
    nodes: &[Node],
    at: usize,
    standings: &[Standing],
    least: usize,
) -> Result<Option<usize>, AllocError>
    requires { length standings.now ≡ length pool.now.volunteers }
    ensures costs { IfOk result (λ end. IfSome end (λ _. CostsAt pool.now standings.now (Some least))) }
    ensures further { IfOk result (λ end. IfSome end (λ end. at < end)) }
{
    both_parts_cost();
    if at >= nodes.len() {
        return Ok(None);
    }
    match &nodes[at] {
        Node::Leaf(leaf) => {
            if leaf_costs(alloc, pool, leaf, standings, least)? {
                Ok(Some(at + 1))
            } else {
                Ok(None)
            }
        }
        Node::Split(i) => {
            let without = with_standing(alloc, standings, *i, Standing::Gone)?;
            let Some(middle) = end_of_tree(alloc, pool, nodes, at + 1, &without, least)? else {
                return Ok(None);
            };
            let with = with_standing(alloc, standings, *i, Standing::Seated)?;
            end_of_tree(alloc, pool, nodes, middle, &with, least)
        }
    }
}

/// True if the leaf's weights show that each team that keeps the standings costs at least `least`.
fn leaf_costs(
    alloc: Global,
    pool: &Pool,
    leaf: &Leaf,
    standings: &[Standing],
    least: usize,
) -> Result<bool, AllocError>
    requires { length standings.now ≡ length pool.now.volunteers }
    ensures { IfOk result (λ is. OnTrue is (CostsAt pool.now standings.now (Some least))) }
{
    let shown = least_cost(alloc, pool, leaf, standings)?;
    Ok(is_reached(shown, least))
}

/// True if what a leaf shows implies that each team costs at least `least`. The leaf shows that each team costs at least `shown`, or, if
/// that is None, that there is no team.
fn is_reached(shown: Option<usize>, least: usize) -> bool
    ensures { OnTrue result ((cost : ℕ) → IsAtLeast shown cost → least ≤ cost) }
{
    match shown {
        None => true,
        Some(shown) => least <= shown,
    }
}
