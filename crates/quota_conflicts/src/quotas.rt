//! Quotas of a pool in code: whom they count, their bounds, and by how many people a selection misses them. `checks`, `misses`, `needs` and
//! `texts` use this.

ghost use Rattle.std.specs.Prelude.{◌≡◌, ◌<◌, count_by, length, nat_lt, IsTrue, slice_index};
ghost use Rattle.std.specs.List.{list_all, list_any, range_with_len};
ghost use Rattle.define_pools.specs.Pool.{share_household as share_of, volunteer as volunteer_of};
ghost use Rattle.define_quotas.specs.Quotas.{bound as bound_of, is_counted as counts_of, is_quota_of as is_of, meets as meets_of, miss as miss_of, side_bound, value_in as value_of};

use define_quotas::{Counted, Quota, Side};
use pool_model::{BoundedValue, Category, Pool, Volunteer, share_household};

/// True if volunteer `i` is among those whom a quota counts.
pub(crate) fn counts(pool: &Pool, counted: Counted, i: usize) -> bool
    requires { i < length pool.now.volunteers }
    ensures { result ≡ counts_of pool.now counted i }
{
    match counted {
        Counted::Everybody => true,
        Counted::WithValue(category, value) => place_of(pool, i, category) == value,
        Counted::OfHousehold(member) => share_household(pool.volunteers(), member, i),
    }
}

/// Returns the place of a volunteer's value in a category.
fn place_of(pool: &Pool, i: usize, category: usize) -> usize
    requires { i < length pool.now.volunteers }
    ensures { result ≡ slice_index (volunteer_of pool.now.volunteers i).values category }
{
    let values = pool.volunteers()[i].values();
    values.get(category).copied().unwrap_or(0)
}

/// Returns the bound of a quota.
pub(crate) fn bound(pool: &Pool, quota: Quota) -> usize
    ensures { result ≡ bound_of pool.now quota }
{
    match (quota.counted, quota.side) {
        (Counted::Everybody, _) => pool.size(),
        (Counted::WithValue(category, value), side) => value_bound(pool, category, value, side),
        (Counted::OfHousehold(_), Side::AtLeast) => 0,
        (Counted::OfHousehold(_), Side::AtMost) => 1,
    }
}

/// Returns a bound of a value, or 0 if there is no such value.
fn value_bound(pool: &Pool, category: usize, value: usize, side: Side) -> usize
    ensures { result ≡ bound_of pool.now (record { counted = Counted.WithValue category value; side = side }) }
{
    match pool.categories().get(category) {
        Some(category) => bound_in(category, value, side),
        None => 0,
    }
}

/// Returns a bound of a category's value, or 0 if there is no such value.
fn bound_in(category: &Category, value: usize, side: Side) -> usize
    ensures { result ≡ side_bound side (value_of category.now value) }
{
    match category.values().get(value) {
        Some(value) => side_of(value, side),
        None => 0,
    }
}

/// Returns a bound of a value.
fn side_of(value: &BoundedValue, side: Side) -> usize
    ensures { result ≡ side_bound side value.now }
{
    match side {
        Side::AtLeast => value.lower(),
        Side::AtMost => value.upper(),
    }
}

/// True if a quota is of the pool.
pub(crate) fn is_quota_of(pool: &Pool, quota: Quota) -> bool
    ensures { result ≡ is_of pool.now quota }
{
    match quota.counted {
        Counted::Everybody => true,
        Counted::WithValue(category, value) => has_value(pool, category, value),
        Counted::OfHousehold(member) => is_first(pool, member),
    }
}

/// True if a volunteer is the first of a household.
fn is_first(pool: &Pool, member: usize) -> bool
    ensures { result ≡ is_of pool.now (record { counted = Counted.OfHousehold member; side = Side.AtLeast }) }
{
    let volunteers = pool.volunteers();
    member < volunteers.len()
        && share_household(volunteers, member, member)
        && !shares_with_earlier(volunteers, member)
}

/// True if a volunteer shares a household with one of a lower number.
fn shares_with_earlier(volunteers: &[Volunteer], member: usize) -> bool
    ensures { result ≡ list_any (share_of volunteers.now member) (range_with_len 0 member) }
{
    (0..member).any(|other| share_household(volunteers, member, other))
}

/// True if the pool has a category and a value at these places.
fn has_value(pool: &Pool, category: usize, value: usize) -> bool
    ensures { result ≡ is_of pool.now (record { counted = Counted.WithValue category value; side = Side.AtLeast }) }
{
    match pool.categories().get(category) {
        Some(category) => value < category.values().len(),
        None => false,
    }
}

/// Returns by how many people a selection misses a quota.
pub(crate) fn miss(pool: &Pool, members: &[usize], quota: Quota) -> usize
    requires { IsTrue (list_all (λ i. nat_lt i (length pool.now.volunteers)) members.now) }
    ensures { result ≡ miss_of pool.now members.now quota }
{
    let number = number_counted(pool, members, quota.counted);
    match quota.side {
        Side::AtLeast => bound(pool, quota).saturating_sub(number),
        Side::AtMost => number.saturating_sub(bound(pool, quota)),
    }
}

/// Returns how many members a quota counts.
fn number_counted(pool: &Pool, members: &[usize], counted: Counted) -> usize
    requires { IsTrue (list_all (λ i. nat_lt i (length pool.now.volunteers)) members.now) }
    ensures { result ≡ count_by (counts_of pool.now counted) members.now }
{
    let mut number = 0;
    for i in members {
        if counts(pool, counted, *i) {
            number += 1;
        }
    }
    number
}

/// True if a selection meets each of the quotas.
pub(crate) fn meets(pool: &Pool, members: &[usize], quotas: &[Quota]) -> bool
    requires { IsTrue (list_all (λ i. nat_lt i (length pool.now.volunteers)) members.now) }
    ensures { result ≡ meets_of pool.now members.now quotas.now }
{
    quotas.iter().all(|quota| miss(pool, members, *quota) == 0)
}
