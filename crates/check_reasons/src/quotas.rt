//! Tests whether a panel is a quota panel. The time grows with the number of members times the number of categories: each value is counted
//! once, and households are compared by number. A helper of `lotteries`.

ghost use Rattle.std.specs.Prelude.{◌≡◌, ◌==◌, ◌||◌, ◌<◌, ℕ, false, IfOk, IsTrue, map, nat_lt, length, slice_index_or};
ghost use Rattle.std.specs.List.{find, list_all, enumerate_from, range_with_len};
ghost use Rattle.define_pools.specs.Lists.{includes};
ghost use Rattle.define_pools.specs.Pool.{allows, is_of_size, is_quota_panel, is_within, keeps_standings, meets_quotas, members_with, share_household as share};
ghost use Rattle.check_reasons.specs.Households.{household_number as number_of, household_numbers as numbers_of, none_twice};

use pool_model::{BoundedValue, Category, Panel, Pool, Volunteer, share_household};
use std::alloc::{AllocError, Global};

/// Returns each volunteer's household number: the number of the household's first member, or the volunteer's own if there is no household.
pub(crate) fn household_numbers(
    alloc: Global,
    volunteers: &[Volunteer],
) -> Result<Vec<usize>, AllocError>
    ensures { IfOk result (λ found. found.items ≡ numbers_of volunteers.now) }
{
    (0..volunteers.len())
        .map(|i| household_number(volunteers, i))
        .collect(alloc)
}

fn household_number(volunteers: &[Volunteer], i: usize) -> usize
    ensures { result ≡ number_of volunteers.now i }
{
    first_of_household(volunteers, i).unwrap_or(i)
}

fn first_of_household(volunteers: &[Volunteer], i: usize) -> Option<usize>
    ensures { result ≡ find (λ j. j == i || share volunteers.now i j) (range_with_len 0 (length volunteers.now)) }
{
    (0..volunteers.len()).find(|j| *j == i || share_household(volunteers, i, *j))
}

/// True if the panel is a quota panel of the pool. `households` has each volunteer's household number.
pub(crate) fn is_quota_panel(
    alloc: Global,
    pool: &Pool,
    households: &[usize],
    panel: &Panel,
) -> Result<bool, AllocError>
    requires { households.now ≡ numbers_of pool.now.volunteers }
    ensures { IfOk result (λ is. is ≡ is_quota_panel pool.now panel.now) }
{
    if !is_of_size(pool, panel) {
        return Ok(false);
    }
    let members = panel.members();
    let volunteers = pool.volunteers();
    let stands = keep_standings(alloc, volunteers, members)?;
    let meets = meet_quotas(alloc, pool.categories(), volunteers, members)?;
    let differs = differ(alloc, households, members)?;
    Ok(stands && meets && differs)
}

fn is_of_size(pool: &Pool, panel: &Panel) -> bool
    ensures { result ≡ is_of_size pool.now panel.now }
{
    let members = panel.members();
    members.len() == pool.size() && are_below(members, pool.volunteers().len())
}

fn are_below(members: &[usize], count: usize) -> bool
    ensures { result ≡ list_all (λ i. nat_lt i count) members.now }
{
    members.iter().all(|i| *i < count)
}

/// True if each seated volunteer is a member, and no volunteer who is gone is a member.
fn keep_standings(
    alloc: Global,
    volunteers: &[Volunteer],
    members: &[usize],
) -> Result<bool, AllocError>
    ensures { IfOk result (λ kept. kept ≡ keeps_standings volunteers.now members.now) }
{
    let is_in = marks(alloc, volunteers.len(), members)?;
    Ok(permit(volunteers, &is_in))
}

fn permit(volunteers: &[Volunteer], is_in: &[bool]) -> bool
    ensures { result ≡ list_all (λ (i, volunteer). allows volunteer.standing (slice_index_or is_in.now i false)) (enumerate_from 0 volunteers.now) }
{
    volunteers.iter().enumerate().all(|(i, volunteer)| volunteer
        .standing()
        .permits(is_marked(is_in, i)))
}

fn is_marked(marks: &[bool], i: usize) -> bool
    ensures { result ≡ slice_index_or marks.now i false }
{
    marks.get(i).copied().unwrap_or(false)
}

/// Returns a mark for each number below `count`: true if it is a member's number.
fn marks(alloc: Global, count: usize, members: &[usize]) -> Result<Vec<bool>, AllocError>
    ensures { IfOk result (λ marks. (i : ℕ) → i < count → slice_index_or marks.items i false ≡ includes members.now i) }
{
    let mut marks = vec![in alloc; false; count]?;
    mark(&mut marks, members);
    Ok(marks)
}

fn mark(marks: &mut [bool], members: &[usize])
    ensures { (i : ℕ) → i < length marks.old → slice_index_or marks.new i false ≡ (slice_index_or marks.old i false || includes members.now i) }
{
    for i in members {
        if *i < marks.len() {
            marks[*i] = true;
        }
    }
}

/// True if, for each value of each category, the number of members who have it is within its bounds.
fn meet_quotas(
    alloc: Global,
    categories: &[Category],
    volunteers: &[Volunteer],
    members: &[usize],
) -> Result<bool, AllocError>
    requires members { IsTrue (list_all (λ i. nat_lt i (length volunteers.now)) members.now) }
    ensures { IfOk result (λ met. met ≡ meets_quotas categories.now volunteers.now members.now) }
{
    for (c, category) in categories.iter().enumerate() {
        let met = meets_bounds(alloc, category, c, volunteers, members)?;
        if !met {
            return Ok(false);
        }
    }
    Ok(true)
}

fn meets_bounds(
    alloc: Global,
    category: &Category,
    c: usize,
    volunteers: &[Volunteer],
    members: &[usize],
) -> Result<bool, AllocError>
    requires members { IsTrue (list_all (λ i. nat_lt i (length volunteers.now)) members.now) }
    ensures { IfOk result (λ met. met ≡ list_all (λ (v, value). is_within value (members_with volunteers.now members.now c v)) (enumerate_from 0 category.now.values)) }
{
    let values = category.values();
    let numbers = numbers_with(alloc, volunteers, members, c, values.len())?;
    Ok(lie_within(values, &numbers))
}

fn lie_within(values: &[BoundedValue], numbers: &[usize]) -> bool
    ensures { result ≡ list_all (λ (v, value). is_within value (slice_index_or numbers.now v 0)) (enumerate_from 0 values.now) }
{
    values
        .iter()
        .enumerate()
        .all(|(v, value)| lies_within(value, number_at(numbers, v)))
}

fn number_at(numbers: &[usize], v: usize) -> usize
    ensures { result ≡ slice_index_or numbers.now v 0 }
{
    numbers.get(v).copied().unwrap_or(0)
}

fn lies_within(value: &BoundedValue, count: usize) -> bool
    ensures { result ≡ is_within value.now count }
{
    value.lower() <= count && count <= value.upper()
}

/// Returns for each of the category's values how many members have it.
fn numbers_with(
    alloc: Global,
    volunteers: &[Volunteer],
    members: &[usize],
    category: usize,
    values: usize,
) -> Result<Vec<usize>, AllocError>
    requires members { IsTrue (list_all (λ i. nat_lt i (length volunteers.now)) members.now) }
    ensures { IfOk result (λ numbers. (v : ℕ) → v < values → slice_index_or numbers.items v 0 ≡ members_with volunteers.now members.now category v) }
{
    let mut numbers = vec![in alloc; 0; values]?;
    count_values(&mut numbers, volunteers, members, category);
    Ok(numbers)
}

fn count_values(numbers: &mut [usize], volunteers: &[Volunteer], members: &[usize], category: usize)
    requires members { IsTrue (list_all (λ i. nat_lt i (length volunteers.now)) members.now) }
    requires zero { (v : ℕ) → v < length numbers.old → slice_index_or numbers.old v 0 ≡ 0 }
    ensures { (v : ℕ) → v < length numbers.old → slice_index_or numbers.new v 0 ≡ members_with volunteers.now members.now category v }
{
    for i in members {
        let value = value_of(&volunteers[*i], category);
        if value < numbers.len() {
            numbers[value] += 1;
        }
    }
}

fn value_of(volunteer: &Volunteer, category: usize) -> usize
    ensures { result ≡ slice_index_or volunteer.now.values category 0 }
{
    volunteer.values().get(category).copied().unwrap_or(0)
}

/// True if no two members are of one household.
fn differ(alloc: Global, households: &[usize], members: &[usize]) -> Result<bool, AllocError>
    requires known { IsTrue (list_all (λ i. nat_lt i (length households.now)) members.now) }
    requires within { IsTrue (list_all (λ h. nat_lt h (length households.now)) households.now) }
    ensures { IfOk result (λ differ. differ ≡ none_twice (map (λ i. slice_index_or households.now i 0) members.now)) }
{
    let mut met = vec![in alloc; false; households.len()]?;
    Ok(meets_none_twice(&mut met, households, members))
}

fn meets_none_twice(met: &mut [bool], households: &[usize], members: &[usize]) -> bool
    requires known { IsTrue (list_all (λ i. nat_lt i (length households.now)) members.now) }
    requires within { IsTrue (list_all (λ h. nat_lt h (length met.old)) households.now) }
    requires none { (h : ℕ) → h < length met.old → slice_index_or met.old h false ≡ false }
    ensures { result ≡ none_twice (map (λ i. slice_index_or households.now i 0) members.now) }
{
    for i in members {
        let household = households[*i];
        if met[household] {
            return false;
        }
        met[household] = true;
    }
    true
}
