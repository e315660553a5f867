//! A conflict, checked: its quotas are the pool's, a tree shows that each selection misses them, and witnesses show that each is needed.

ghost use Rattle.std.specs.Prelude.{◌≡◌, ◌≢◌, IfOk, IfSome};
ghost use Rattle.std.specs.Bool.{OnTrue};
ghost use Rattle.std.specs.List.{AllPairs, list_all};
ghost use Rattle.define_quotas.specs.Conflicts.{IsConflict};
ghost use Rattle.define_quotas.specs.Quotas.{is_quota_of as is_of};
ghost use Rattle.quota_conflicts.specs.Shown.{IsShown};

use crate::covers::{Node, covers, standings, weighted};
use crate::misses::least_miss;
use crate::needs::each_needed;
use crate::quotas::is_quota_of;
use define_quotas::{Quota, conflict_leaves_no_panel};
use pool_model::{Panel, Pool};
use std::alloc::{AllocError, Global};
use std::marker::Model;

/// Quotas that can't be met together.
#[derive(Debug, Drop)]
pub struct Conflict {
    quotas: Vec<Quota>,
    least_miss: Option<usize>,
    is_each_needed: bool,
}

impl Model for Conflict {
    ghost use Rattle.define_quotas.specs.Quotas.{Conflict as Seen};

    ghost Value = { Seen };

    ghost view = { λ c. record { quotas = c.quotas.items; least_miss = c.least_miss; is_each_needed = c.is_each_needed } };
}

impl Conflict {
    pub(crate) fn new(
        quotas: Vec<Quota>,
        least_miss: Option<usize>,
        is_each_needed: bool,
    ) -> Conflict
        ensures { result ≡ record { quotas = quotas.items; least_miss = least_miss; is_each_needed = is_each_needed } }
    {
        Conflict {
            quotas,
            least_miss,
            is_each_needed,
        }
    }

    /// Returns the quotas, in the order of the pool's constraints.
    pub fn quotas(&self) -> &[Quota]
        ensures { result.now ≡ self.now.quotas }
    {
        &self.quotas
    }

    /// Returns a number of people by which each selection misses the quotas at least, or None if it is only known that each misses them.
    pub fn least_miss(&self) -> Option<usize>
        ensures { result ≡ self.now.least_miss }
    {
        self.least_miss
    }

    /// True if it is known that each of the quotas is needed.
    pub fn is_each_needed(&self) -> bool
        ensures { result ≡ self.now.is_each_needed }
    {
        self.is_each_needed
    }
}

/// Returns the conflict of the quotas, or None if one of them isn't the pool's or is there twice, or the tree doesn't show that each selection misses one.
pub(crate) fn checked(
    alloc: Global,
    pool: &Pool,
    quotas: Vec<Quota>,
    nodes: &[Node],
    witnesses: &[Panel],
) -> Result<Option<Conflict>, AllocError>
    ensures { IfOk result (λ found. IfSome found (IsConflict pool.now)) }
{
    conflict_leaves_no_panel();
    if !are_quotas_of(pool, &quotas) || !are_different(&quotas) {
        return Ok(None);
    }
    let Some(least_miss) = shown_miss(alloc, pool, &quotas, nodes)? else {
        return Ok(None);
    };
    let is_each_needed = each_needed(alloc, pool, &quotas, witnesses)?;
    Ok(Some(Conflict::new(quotas, least_miss, is_each_needed)))
}

fn are_quotas_of(pool: &Pool, quotas: &[Quota]) -> bool
    ensures { result ≡ list_all (is_of pool.now) quotas.now }
{
    quotas.iter().all(|quota| is_quota_of(pool, *quota))
}

/// True if no quota is there twice.
fn are_different(quotas: &[Quota]) -> bool
    ensures { OnTrue result (AllPairs (λ one other. one ≢ other) quotas.now) }
{
    for place in 0..quotas.len() {
        let quota = quotas[place];
        if quotas[..place].contains(&quota) {
            return false;
        }
    }
    true
}

/// Returns what the tree shows: `Some(Some(n))` if it is one leaf that shows that each selection misses the quotas by at least `n` people,
/// `Some(None)` if it is no single leaf and shows that each selection misses them, else None.
fn shown_miss(
    alloc: Global,
    pool: &Pool,
    quotas: &[Quota],
    nodes: &[Node],
) -> Result<Option<Option<usize>>, AllocError>
    ensures { IfOk result (λ shown. IfSome shown (IsShown pool.now quotas.now)) }
{
    if let [Node::Leaf(weights)] = nodes {
        let standings = standings(alloc, pool.volunteers())?;
        let weighted = weighted(alloc, quotas, weights)?;
        return Ok(least_miss(pool, &weighted, &standings).map(Some));
    }
    if covers(alloc, pool, quotas, nodes)? {
        Ok(Some(None))
    } else {
        Ok(None)
    }
}
