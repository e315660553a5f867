//! All quotas of a pool as one conflict, for a pool that has no quota panel. `why` names them all if no smaller conflict is found.

ghost use Rattle.std.specs.Prelude.{◌≡◌, ◌<◌, ◌++◌, [], ◌∷◌, map, filter, length, count_by, IfOk, OnOk};
ghost use Rattle.std.specs.List.{enumerate_from, flat_map};
ghost use Rattle.define_quotas.specs.AllQuotas.{all_quotas as all_of, all_together as together_of, both_bounds, household_quota, household_quotas, is_first_of_shared as is_first_of, quotas_of_category};
ghost use Rattle.define_quotas.specs.Conflicts.{IsConflict};
ghost use Rattle.define_pools.specs.Pool.{everybody, panels, share_household as share_of};

use crate::checks::Conflict;
use crate::quotas::is_quota_of;
use define_quotas::{Counted, Quota, Side, all_quotas_conflict};
use pool_model::{Category, Pool, share_household};
use std::alloc::{AllocError, Global};

/// Returns the conflict of all quotas of a pool. The pool must have no quota panel.
pub fn all_together(alloc: Global, pool: &Pool) -> Result<Conflict, AllocError>
    requires { panels pool.now ≡ [] }
    ensures all { IfOk result (λ conflict. conflict ≡ together_of pool.now) }
    ensures is { IfOk result (IsConflict pool.now) }
{
    all_quotas_conflict();
    let quotas = all_quotas(alloc, pool)?;
    Ok(Conflict::new(quotas, None, false))
}

fn all_quotas(alloc: Global, pool: &Pool) -> Result<Vec<Quota>, AllocError>
    ensures { IfOk result (λ quotas. quotas.items ≡ all_of pool.now) }
{
    let mut quotas = Vec::new(alloc);
    push_both(&mut quotas, Counted::Everybody)?;
    push_categories(&mut quotas, pool.categories())?;
    push_households(&mut quotas, pool)?;
    Ok(quotas)
}

/// Appends both bounds on the number of members whom a quota counts.
fn push_both(quotas: &mut Vec<Quota>, counted: Counted) -> Result<(), AllocError>
    ensures { OnOk result (quotas.new.items ≡ quotas.old.items ++ both_bounds counted) }
{
    push_quota(quotas, counted, Side::AtLeast)?;
    push_quota(quotas, counted, Side::AtMost)
}

fn push_quota(quotas: &mut Vec<Quota>, counted: Counted, side: Side) -> Result<(), AllocError>
    ensures { OnOk result (quotas.new.items ≡ quotas.old.items ++ record { counted = counted; side = side } ∷ []) }
{
    quotas.push(Quota { counted, side })?;
    Ok(())
}

/// Appends the quotas of all values, category by category.
fn push_categories(quotas: &mut Vec<Quota>, categories: &[Category]) -> Result<(), AllocError>
    ensures { OnOk result (quotas.new.items ≡ quotas.old.items ++ flat_map quotas_of_category (enumerate_from 0 categories.now)) }
{
    for (place, category) in categories.iter().enumerate() {
        push_values(quotas, place, category)?;
    }
    Ok(())
}

/// Appends the quotas of the values of the category at `place`.
fn push_values(quotas: &mut Vec<Quota>, place: usize, category: &Category) -> Result<(), AllocError>
    ensures { OnOk result (quotas.new.items ≡ quotas.old.items ++ quotas_of_category (place, category.now)) }
{
    for value in 0..category.values().len() {
        push_both(quotas, Counted::WithValue(place, value))?;
    }
    Ok(())
}

/// Appends the quotas of the shared households.
fn push_households(quotas: &mut Vec<Quota>, pool: &Pool) -> Result<(), AllocError>
    ensures { OnOk result (quotas.new.items ≡ quotas.old.items ++ household_quotas pool.now) }
{
    for member in 0..pool.volunteers().len() {
        push_household(quotas, pool, member)?;
    }
    Ok(())
}

/// Appends the quota of a volunteer's household, if the volunteer is the first of a shared one.
fn push_household(quotas: &mut Vec<Quota>, pool: &Pool, member: usize) -> Result<(), AllocError>
    requires { member < length pool.now.volunteers }
    ensures { OnOk result (quotas.new.items ≡ quotas.old.items ++ map household_quota (filter (is_first_of pool.now) (member ∷ []))) }
{
    if is_first_of_shared(pool, member) {
        push_quota(quotas, Counted::OfHousehold(member), Side::AtMost)
    } else {
        Ok(())
    }
}

/// True if the volunteer is the first of a household of two or more.
fn is_first_of_shared(pool: &Pool, member: usize) -> bool
    ensures { result ≡ is_first_of pool.now member }
{
    let household = Quota {
        counted: Counted::OfHousehold(member),
        side: Side::AtMost,
    };
    is_quota_of(pool, household) && number_sharing(pool, member) >= 2
}

/// Returns how many volunteers share a household with `member`, who may be among them.
fn number_sharing(pool: &Pool, member: usize) -> usize
    ensures { result ≡ count_by (share_of pool.now.volunteers member) (everybody pool.now) }
{
    let volunteers = pool.volunteers();
    let mut number = 0;
    for other in 0..volunteers.len() {
        if share_household(volunteers, member, other) {
            number += 1;
        }
    }
    number
}
