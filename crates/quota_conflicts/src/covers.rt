//! Whether a tree of splits shows that each selection misses some quotas. Each split is on a volunteer, and both parts below it must show
//! it. Each leaf has weights for the quotas, by which they ask for more than selections can give. `checks` uses `covers`.

ghost use Rattle.std.specs.Bool.{OnTrue};
ghost use Rattle.std.specs.Prelude.{◌≡◌, ◌<◌, length, slice_set, IfOk, IfSome, map};
ghost use Rattle.define_quotas.specs.LeastMisses.{quotas_of};
ghost use Rattle.define_quotas.specs.Quotas.{MissAt, MissBy};

use crate::misses::least_miss;
use define_quotas::{Quota, WeightedQuota, both_parts_miss};
use pool_model::{Pool, Standing, Volunteer};
use std::alloc::{AllocError, Global};

/// A node of a tree. A tree is a list of its nodes: a split is followed by the part without the volunteer, then by the part with them.
#[derive(Debug, Drop)]
pub(crate) enum Node {
    /// A split on the volunteer of this number.
    Split(usize),
    /// A leaf, with a weight for each quota.
    Leaf(Vec<usize>),
}

/// True if the nodes begin with a tree which shows that each selection of the pool misses the quotas.
pub(crate) fn covers(
    alloc: Global,
    pool: &Pool,
    quotas: &[Quota],
    nodes: &[Node],
) -> Result<bool, AllocError>
    ensures { IfOk result (λ is. OnTrue is (MissBy pool.now quotas.now 1)) }
{
    let standings = standings(alloc, pool.volunteers())?;
    let end = end_of_tree(alloc, pool, quotas, nodes, 0, &standings)?;
    Ok(end.is_some())
}

/// Returns the standings of volunteers.
pub fn standings(alloc: Global, volunteers: &[Volunteer]) -> Result<Vec<Standing>, AllocError>
    ensures { IfOk result (λ all. all.items ≡ map (λ volunteer. volunteer.standing) volunteers.now) }
{
    volunteers
        .iter()
        .map(|volunteer| volunteer.standing())
        .collect(alloc)
}

/// Returns the place after the tree that begins at place `at`, if this tree shows that each selection that keeps the standings misses the
/// quotas, else None.
fn end_of_tree(
    alloc: Global,
    pool: &Pool,
    quotas: &[Quota],
    nodes: &[Node],
    at: usize,
    standings: &[Standing],
) -> Result<Option<usize>, AllocError>
    requires { length standings.now ≡ length pool.now.volunteers }
    ensures misses { IfOk result (λ end. IfSome end (λ _. MissAt pool.now quotas.now standings.now 1)) }
    ensures further { IfOk result (λ end. IfSome end (λ end. at < end)) }
{
    both_parts_miss();
    if at >= nodes.len() {
        return Ok(None);
    }
    match &nodes[at] {
        Node::Leaf(weights) => {
            if leaf_misses(alloc, pool, quotas, weights, standings)? {
                Ok(Some(at + 1))
            } else {
                Ok(None)
            }
        }
        Node::Split(i) => {
            let without = with_standing(alloc, standings, *i, Standing::Gone)?;
            let Some(middle) = end_of_tree(alloc, pool, quotas, nodes, at + 1, &without)? else {
                return Ok(None);
            };
            let with = with_standing(alloc, standings, *i, Standing::Seated)?;
            end_of_tree(alloc, pool, quotas, nodes, middle, &with)
        }
    }
}

/// True if these weights show that each selection that keeps the standings misses the quotas.
fn leaf_misses(
    alloc: Global,
    pool: &Pool,
    quotas: &[Quota],
    weights: &[usize],
    standings: &[Standing],
) -> Result<bool, AllocError>
    requires { length standings.now ≡ length pool.now.volunteers }
    ensures { IfOk result (λ is. OnTrue is (MissAt pool.now quotas.now standings.now 1)) }
{
    let weighted = weighted(alloc, quotas, weights)?;
    Ok(least_miss(pool, &weighted, standings).is_some())
}

/// Returns the quotas with their weights. If there are too few weights, the last quotas have weight 0.
pub(crate) fn weighted(
    alloc: Global,
    quotas: &[Quota],
    weights: &[usize],
) -> Result<Vec<WeightedQuota>, AllocError>
    ensures { IfOk result (λ weighted. quotas_of weighted.items ≡ quotas.now) }
{
    let mut weighted = Vec::new(alloc);
    for (k, quota) in quotas.iter().enumerate() {
        weighted.push(WeightedQuota {
            quota: *quota,
            weight: weights.get(k).copied().unwrap_or(0),
        })?;
    }
    Ok(weighted)
}

/// Returns the standings, with `standing` for volunteer `i`, if there is one.
pub fn with_standing(
    alloc: Global,
    standings: &[Standing],
    i: usize,
    standing: Standing,
) -> Result<Vec<Standing>, AllocError>
    ensures { IfOk result (λ all. all.items ≡ slice_set standings.now i standing) }
{
    let mut all = Vec::from_slice(alloc, standings)?;
    if i < all.len() {
        all[i] = standing;
    }
    Ok(all)
}
