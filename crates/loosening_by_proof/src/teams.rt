//! Whether a panel is a team of a pool, and what a team costs.

ghost use Rattle.std.specs.Prelude.{◌≡◌, IsTrue, nat_le, nat_lt, count_by, length, map, sum_by, IfSome};
ghost use Rattle.std.specs.List.{list_all, enumerate_from};
ghost use Rattle.define_pools.specs.Pool.{keeps_households, meets_quotas, members_with, share_household as share};
ghost use Rattle.define_quotas.specs.Teams.{is_team as is_team_of, missed_by as missed_by_number, team_cost as team_cost_of, widest_category};

use pool_model::{BoundedValue, Category, Panel, Pool, Volunteer, share_household};
use quota_conflicts::{are_below, keep_standings};
use quota_loosen::number_with;

/// The greatest bound that a value may have.
const MOST: usize = 999;

/// True if the panel is a team of the pool: it has the pool's size, its members are volunteers, it has everyone who is seated and no one
/// who is gone, at most 999 members have each value, and no two members share a household.
pub(crate) fn is_team(pool: &Pool, panel: &Panel) -> bool
    ensures { result ≡ is_team_of pool.now panel.now }
{
    let members = panel.members();
    members.len() == pool.size()
        && are_below(members, pool.volunteers().len())
        && keep_standings(pool.volunteers(), members)
        && keep_widest(pool.categories(), pool.volunteers(), members)
        && keep_households(pool.volunteers(), members)
}

/// True if for each value the number of members who have it is within the widest bounds of a pool.
#[tactic(auto, using(crate::proofs::Widest::few_if_widest))]
fn keep_widest(categories: &[Category], volunteers: &[Volunteer], members: &[usize]) -> bool
    requires { IsTrue (list_all (λ i. nat_lt i (length volunteers.now)) members.now) }
    ensures { result ≡ meets_quotas (map widest_category categories.now) volunteers.now members.now }
{
    few_have_any(categories, volunteers, members)
}

/// True if each value of each category has at most 999 members.
fn few_have_any(categories: &[Category], volunteers: &[Volunteer], members: &[usize]) -> bool
    requires { IsTrue (list_all (λ i. nat_lt i (length volunteers.now)) members.now) }
    ensures { result ≡ list_all (λ (c, category). list_all (λ (v, value). nat_le (members_with volunteers.now members.now c v) 999) (enumerate_from 0 category.values))
        (enumerate_from 0 categories.now) }
{
    categories.iter().enumerate().all(|(c, category)| few_have_each(
        category, c, volunteers, members,
    ))
}

/// True if each value of a category has at most 999 members.
fn few_have_each(category: &Category, c: usize, volunteers: &[Volunteer], members: &[usize]) -> bool
    requires { IsTrue (list_all (λ i. nat_lt i (length volunteers.now)) members.now) }
    ensures { result ≡ list_all (λ (v, value). nat_le (members_with volunteers.now members.now c v) 999) (enumerate_from 0 category.now.values) }
{
    category.values().iter().enumerate().all(|(v, _value)| number_with(volunteers, members, c, v)
        <= MOST)
}

fn keep_households(volunteers: &[Volunteer], members: &[usize]) -> bool
    ensures { result ≡ keeps_households volunteers.now members.now }
{
    members
        .iter()
        .all(|i| number_of_household(volunteers, members, *i) <= 1)
}

/// Returns how many members are of the household of volunteer `i`.
fn number_of_household(volunteers: &[Volunteer], members: &[usize], i: usize) -> usize
    ensures { result ≡ count_by (share volunteers.now i) members.now }
{
    members
        .iter()
        .filter(|j| share_household(volunteers, i, **j))
        .count()
}

/// Returns what a team costs, or None if that doesn't fit `usize`.
pub(crate) fn team_cost(pool: &Pool, team: &Panel) -> Option<usize>
    requires { IsTrue (is_team_of pool.now team.now) }
    ensures { IfSome result (λ cost. cost ≡ team_cost_of pool.now team.now) }
{
    cost(pool.categories(), pool.volunteers(), team.members())
}

/// Returns the sum over the values of all categories of how far the members miss their bounds, or None if that doesn't fit `usize`.
fn cost(categories: &[Category], volunteers: &[Volunteer], members: &[usize]) -> Option<usize>
    requires { IsTrue (list_all (λ i. nat_lt i (length volunteers.now)) members.now) }
    ensures { IfSome result (λ cost. cost ≡ sum_by (λ (c, category).
        sum_by (λ (v, value). missed_by_number value.lower value.upper (members_with volunteers.now members.now c v)) (enumerate_from 0 category.values))
        (enumerate_from 0 categories.now)) }
{
    let mut sum: usize = 0;
    for (c, category) in categories.iter().enumerate() {
        let missed = category_cost(category.values(), volunteers, members, c)?;
        sum = sum.checked_add(missed)?;
    }
    Some(sum)
}

/// Returns the sum over the values of a category of how far the members miss their bounds, or None if that doesn't fit `usize`.
fn category_cost(
    values: &[BoundedValue],
    volunteers: &[Volunteer],
    members: &[usize],
    category: usize,
) -> Option<usize>
    requires { IsTrue (list_all (λ i. nat_lt i (length volunteers.now)) members.now) }
    ensures { IfSome result (λ cost. cost ≡
        sum_by (λ (v, value). missed_by_number value.lower value.upper (members_with volunteers.now members.now category v)) (enumerate_from 0 values.now)) }
{
    let mut sum: usize = 0;
    for (v, value) in values.iter().enumerate() {
        let number = number_with(volunteers, members, category, v);
        let missed = missed_by(value, number)?;
        sum = sum.checked_add(missed)?;
    }
    Some(sum)
}

/// Returns how far a number is below the least or above the greatest number of a value, or None if that doesn't fit `usize`.
fn missed_by(value: &BoundedValue, number: usize) -> Option<usize>
    ensures { IfSome result (λ missed. missed ≡ missed_by_number value.now.lower value.now.upper number) }
{
    value
        .lower()
        .saturating_sub(number)
        .checked_add(number.saturating_sub(value.upper()))
}
