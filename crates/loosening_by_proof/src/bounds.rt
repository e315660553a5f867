//! A number that each team costs at least, as the weights of a leaf show. `answers` and `covers` use `least_cost`.

ghost use Rattle.std.specs.Bool.{OnTrue};
ghost use Rattle.std.specs.Prelude.{◌≡◌, ◌≤◌, ◌<◌, ◌+◌, ◌-◌, ◌*◌, ◌++◌, length, IfOk, IfSome, IsTrue, None, Some, nat_le};
ghost use Rattle.std.specs.List.{list_all};
ghost use Rattle.define_quotas.specs.LeastMisses.{asked as asked_of, given as given_of};
ghost use Rattle.define_quotas.specs.CostBounds.{CostsAt, is_met_by_teams as is_always_met};

use crate::quotas::weighted_values;
use define_quotas::costs::asking_more_costs;
use define_quotas::{Counted, WeightedQuota};
use pool_model::{Pool, Standing};
use quota_conflicts::{asked, given, greatest_weight, times_below};
use std::alloc::{AllocError, Global};

/// The weights that a leaf gives to quotas.
#[derive(Debug, Drop)]
pub(crate) struct Leaf {
    /// Two weights for each value, in the pool's order: for its least and its greatest number.
    pub(crate) values: Vec<usize>,
    /// Quotas of the size and of households, which each team meets.
    pub(crate) met: Vec<WeightedQuota>,
}

/// Returns a number that each team costs at least, as the leaf shows. None means that the leaf shows that there is no team.
pub(crate) fn least_cost(
    alloc: Global,
    pool: &Pool,
    leaf: &Leaf,
    standings: &[Standing],
) -> Result<Option<usize>, AllocError>
    requires { length standings.now ≡ length pool.now.volunteers }
    ensures { IfOk result (CostsAt pool.now standings.now) }
{
    asking_more_costs();
    if !are_met(&leaf.met) {
        return Ok(Some(0));
    }
    if is_more_asked(pool, &leaf.met, standings) {
        return Ok(None);
    }
    let values = weighted_values(alloc, pool, &leaf.values)?;
    let all = joined(alloc, &values, &leaf.met)?;
    let Some(times) = times_beyond(pool, &all, standings, greatest_weight(&values)) else {
        return Ok(Some(0));
    };
    match times.checked_add(1) {
        Some(least) => Ok(Some(least)),
        None => Ok(Some(0)),
    }
}

/// True if all quotas are of the size or of households.
fn are_met(met: &[WeightedQuota]) -> bool
    ensures { result ≡ list_all (λ it. is_always_met it.quota.counted) met.now }
{
    met.iter().all(|it| is_met_by_teams(it.quota.counted))
}

/// True if each team meets all quotas that count these volunteers: those of the size and of a household, but not those of a value.
fn is_met_by_teams(counted: Counted) -> bool
    ensures { result ≡ is_always_met counted }
{
    match counted {
        Counted::Everybody | Counted::OfHousehold(_) => true,
        Counted::WithValue(_, _) => false,
    }
}

/// Returns both lists, one after the other.
fn joined(
    alloc: Global,
    values: &[WeightedQuota],
    met: &[WeightedQuota],
) -> Result<Vec<WeightedQuota>, AllocError>
    ensures { IfOk result (λ all. all.items ≡ values.now ++ met.now) }
{
    let mut all = Vec::from_slice(alloc, values)?;
    all.extend_from_slice(met)?;
    Ok(all)
}

/// True if the weighted quotas ask for more than the volunteers can give, and both sums fit.
fn is_more_asked(pool: &Pool, weighted: &[WeightedQuota], standings: &[Standing]) -> bool
    requires { length standings.now ≡ length pool.now.volunteers }
    ensures { OnTrue result (given_of pool.now weighted.now standings.now < asked_of pool.now weighted.now standings.now) }
{
    match (
        asked(pool, weighted, standings),
        given(pool, weighted, standings),
    ) {
        (Some(asked), Some(given)) => given < asked,
        _ => false,
    }
}

/// Returns a number `times` with `given + greatest * times < asked`. Here `asked` is what the weighted quotas ask for, and `given` is the
/// most that can be given. Returns None if `asked` is at most `given`, or if one of these sums doesn't fit `usize`.
fn times_beyond(
    pool: &Pool,
    weighted: &[WeightedQuota],
    standings: &[Standing],
    greatest: usize,
) -> Option<usize>
    requires standings { length standings.now ≡ length pool.now.volunteers }
    requires greatest { 1 ≤ greatest }
    ensures { IfSome result (λ times. given_of pool.now weighted.now standings.now + greatest * times < asked_of pool.now weighted.now standings.now) }
{
    let asked = asked(pool, weighted, standings)?;
    let given = given(pool, weighted, standings)?;
    if given < asked {
        Some(times_below(asked - given, greatest))
    } else {
        None
    }
}
