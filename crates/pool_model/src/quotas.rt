//! Tests whether a panel is a quota panel of a pool. The checks have a faster test of their own.

ghost use Rattle.std.specs.Prelude.{◌≡◌, IsTrue, nat_lt, count_by, length};
ghost use Rattle.std.specs.List.{list_all, enumerate_from};
ghost use Rattle.define_pools.specs.Lists.{includes};
ghost use Rattle.define_pools.specs.Pool.{members_with, is_within, meets_quotas, keeps_standings, keeps_households, share_household as share, is_quota_panel};

use crate::households::share_household;
use crate::panels::Panel;
use crate::parts::{BoundedValue, Category, Volunteer};
use crate::pools::Pool;

/// True if the panel is a quota panel of the pool: it has the pool's size, its members are volunteers, it has everyone who is seated and
/// no one who is gone, it meets each bound, and no two members share a household.
pub fn fits(pool: &Pool, panel: &Panel) -> bool
    ensures { result ≡ is_quota_panel pool.now panel.now }
{
    let members = panel.members();
    members.len() == pool.size()
        && are_below(members, pool.volunteers().len())
        && keep_standings(pool.volunteers(), members)
        && meet_quotas(pool.categories(), pool.volunteers(), members)
        && keep_households(pool.volunteers(), members)
}

fn are_below(members: &[usize], count: usize) -> bool
    ensures { result ≡ list_all (λ i. nat_lt i count) members.now }
{
    members.iter().all(|i| *i < count)
}

fn keep_standings(volunteers: &[Volunteer], members: &[usize]) -> bool
    ensures { result ≡ keeps_standings volunteers.now members.now }
{
    volunteers.iter().enumerate().all(|(i, volunteer)| volunteer
        .standing()
        .permits(is_member(members, i)))
}

fn is_member(members: &[usize], i: usize) -> bool
    ensures { result ≡ includes members.now i }
{
    members.iter().any(|member| *member == i)
}

fn meet_quotas(categories: &[Category], volunteers: &[Volunteer], members: &[usize]) -> bool
    requires members { IsTrue (list_all (λ i. nat_lt i (length volunteers.now)) members.now) }
    ensures { result ≡ meets_quotas categories.now volunteers.now members.now }
{
    categories.iter().enumerate().all(|(c, category)| meets_bounds(
        category, c, volunteers, members,
    ))
}

fn meets_bounds(category: &Category, c: usize, volunteers: &[Volunteer], members: &[usize]) -> bool
    requires members { IsTrue (list_all (λ i. nat_lt i (length volunteers.now)) members.now) }
    ensures { result ≡ list_all (λ (v, value). is_within value (members_with volunteers.now members.now c v)) (enumerate_from 0 category.now.values) }
{
    category.values().iter().enumerate().all(|(v, value)| lies_within(
        value,
        number_with(volunteers, members, c, v),
    ))
}

fn number_with(volunteers: &[Volunteer], members: &[usize], category: usize, value: usize) -> usize
    requires members { IsTrue (list_all (λ i. nat_lt i (length volunteers.now)) members.now) }
    ensures { result ≡ members_with volunteers.now members.now category value }
{
    let mut count = 0;
    for i in members {
        let volunteer = &volunteers[*i];
        if volunteer.values().get(category).copied().unwrap_or(0) == value {
            count += 1;
        }
    }
    count
}

fn lies_within(value: &BoundedValue, count: usize) -> bool
    ensures { result ≡ is_within value.now count }
{
    value.lower() <= count && count <= value.upper()
}

fn keep_households(volunteers: &[Volunteer], members: &[usize]) -> bool
    ensures { result ≡ keeps_households volunteers.now members.now }
{
    members
        .iter()
        .all(|i| number_of_household(volunteers, members, *i) <= 1)
}

// Returns how many members are of the household of volunteer `i`.
fn number_of_household(volunteers: &[Volunteer], members: &[usize], i: usize) -> usize
    ensures { result ≡ count_by (share volunteers.now i) members.now }
{
    members
        .iter()
        .filter(|j| share_household(volunteers, i, **j))
        .count()
}
