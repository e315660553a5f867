//! Makes the classes of a pool.

ghost use Rattle.std.specs.Prelude.{◌≡◌, ◌<◌, IfOk, map, filter, not, count_by, length};
ghost use Rattle.std.specs.List.{find, list_any, range_with_len};
ghost use Rattle.define_pools.specs.Pool.{share_household as share};
ghost use Rattle.define_searches.specs.Classes.{are_alike as alike, are_equal as equal, bounds_of, class_by, class_of, classes_of, is_same_standing, leaders, shared_household as shared, shares_household};

use crate::groups::{Class, Classes, ValueBounds};
use define_pools::Standing;
use define_searches::Bounds;
use pool_model::{BoundedValue, Category, Pool, Volunteer, share_household};
use std::alloc::{AllocError, Global};

/// Returns the classes of a pool, in the order of their first members. Volunteers of equal values and equal standing are of one class;
/// someone who shares a household with another volunteer is in a class alone.
pub fn classes(alloc: Global, pool: &Pool) -> Result<Classes, AllocError>
    ensures { IfOk result (λ found. found ≡ classes_of pool.now) }
{
    let bounds = all_bounds(alloc, pool.categories())?;
    let households = shared_households(alloc, pool.volunteers())?;
    let groups = groups(alloc, pool, &households)?;
    pool.facts();
    Ok(Classes::new(pool.size(), bounds, groups))
}

/// Returns the bounds of the values, category by category.
fn all_bounds(alloc: Global, categories: &[Category]) -> Result<Vec<ValueBounds>, AllocError>
    ensures { IfOk result (λ bounds. bounds.items ≡ bounds_of categories.now) }
{
    let mut bounds = Vec::new(alloc);
    for category in categories {
        bounds.push(ValueBounds::new(value_bounds(alloc, category.values())?))?;
    }
    Ok(bounds)
}

fn value_bounds(alloc: Global, values: &[BoundedValue]) -> Result<Vec<Bounds>, AllocError>
    ensures { IfOk result (λ bounds. bounds.items ≡ map (λ value. record { lower = value.lower; upper = value.upper }) values.now) }
{
    values
        .iter()
        .map(|value| Bounds {
            lower: value.lower(),
            upper: value.upper(),
        })
        .collect(alloc)
}

/// Returns the classes, one for each leader. A leader is the first member of a class.
fn groups(
    alloc: Global,
    pool: &Pool,
    households: &[Option<usize>],
) -> Result<Vec<Class>, AllocError>
    requires households { households.now ≡ map (shared pool.now.volunteers) (range_with_len 0 (length pool.now.volunteers)) }
    ensures { IfOk result (λ found. found.items ≡ map (class_by (alike pool.now) pool.now) (leaders (alike pool.now) (length pool.now.volunteers))) }
{
    let mut found = Vec::new(alloc);
    for i in 0..pool.volunteers().len() {
        if leads(pool, households, i) {
            found.push(group(alloc, pool, households, i)?)?;
        }
    }
    Ok(found)
}

/// Returns the class of `leader`.
fn group(
    alloc: Global,
    pool: &Pool,
    households: &[Option<usize>],
    leader: usize,
) -> Result<Class, AllocError>
    requires households { households.now ≡ map (shared pool.now.volunteers) (range_with_len 0 (length pool.now.volunteers)) }
    requires below { leader < length pool.now.volunteers }
    ensures { IfOk result (λ class. class ≡ class_by (alike pool.now) pool.now leader) }
{
    let members = members(alloc, pool, households, leader)?;
    let volunteer = &pool.volunteers()[leader];
    let values = Vec::from_slice(alloc, volunteer.values())?;
    Ok(Class::new(
        members,
        values,
        volunteer.standing(),
        household_of(pool, households, leader),
    ))
}

/// Returns the numbers of all who are alike to `leader`, in rising order.
fn members(
    alloc: Global,
    pool: &Pool,
    households: &[Option<usize>],
    leader: usize,
) -> Result<Vec<usize>, AllocError>
    requires households { households.now ≡ map (shared pool.now.volunteers) (range_with_len 0 (length pool.now.volunteers)) }
    requires below { leader < length pool.now.volunteers }
    ensures { IfOk result (λ found. found.items ≡ class_of (alike pool.now) (length pool.now.volunteers) leader) }
{
    let mut found = Vec::new(alloc);
    for i in 0..pool.volunteers().len() {
        if are_alike(pool, households, leader, i) {
            found.push(i)?;
        }
    }
    Ok(found)
}

/// True if no volunteer before `i` is alike to `i`, so that `i` is the first member of a class.
fn leads(pool: &Pool, households: &[Option<usize>], i: usize) -> bool
    requires households { households.now ≡ map (shared pool.now.volunteers) (range_with_len 0 (length pool.now.volunteers)) }
    requires below { i < length pool.now.volunteers }
    ensures { result ≡ not (list_any (λ j. alike pool.now j i) (range_with_len 0 i)) }
{
    for j in 0..i {
        if are_alike(pool, households, j, i) {
            return false;
        }
    }
    true
}

/// True if two volunteers are of one class.
fn are_alike(pool: &Pool, households: &[Option<usize>], i: usize, j: usize) -> bool
    requires households { households.now ≡ map (shared pool.now.volunteers) (range_with_len 0 (length pool.now.volunteers)) }
    requires one { i < length pool.now.volunteers }
    requires other { j < length pool.now.volunteers }
    ensures { result ≡ alike pool.now i j }
{
    let volunteers = pool.volunteers();
    let equal = are_equal(&volunteers[i], &volunteers[j]);
    let one = shares(pool, households, i);
    let other = shares(pool, households, j);
    i == j || (equal && !one && !other)
}

/// True if a volunteer shares a household with another one.
fn shares(pool: &Pool, households: &[Option<usize>], i: usize) -> bool
    requires households { households.now ≡ map (shared pool.now.volunteers) (range_with_len 0 (length pool.now.volunteers)) }
    requires below { i < length pool.now.volunteers }
    ensures { result ≡ shares_household pool.now i }
{
    household_of(pool, households, i).is_some()
}

/// Returns the number of the household that volunteer `i` shares with another one, if there is one.
fn household_of(pool: &Pool, households: &[Option<usize>], i: usize) -> Option<usize>
    requires households { households.now ≡ map (shared pool.now.volunteers) (range_with_len 0 (length pool.now.volunteers)) }
    requires below { i < length pool.now.volunteers }
    ensures { result ≡ shared pool.now.volunteers i }
{
    let _ = pool;
    match households.get(i) {
        Some(household) => *household,
        None => None,
    }
}

/// True if two volunteers have the same values and the same standing.
fn are_equal(one: &Volunteer, other: &Volunteer) -> bool
    ensures { result ≡ equal one.now other.now }
{
    one.values() == other.values() && is_same_standing(one.standing(), other.standing())
}

fn is_same_standing(one: Standing, other: Standing) -> bool
    ensures { result ≡ is_same_standing one other }
{
    match (one, other) {
        (Standing::Open, Standing::Open)
        | (Standing::Seated, Standing::Seated)
        | (Standing::Gone, Standing::Gone) => true,
        _ => false,
    }
}

/// Returns for each volunteer the number of the household that they share with another one, if there is one.
fn shared_households(
    alloc: Global,
    volunteers: &[Volunteer],
) -> Result<Vec<Option<usize>>, AllocError>
    ensures { IfOk result (λ found. found.items ≡ map (shared volunteers.now) (range_with_len 0 (length volunteers.now))) }
{
    (0..volunteers.len())
        .map(|i| shared_household(volunteers, i))
        .collect(alloc)
}

/// Returns the number of the household that volunteer `i` shares with another one, if there is one. It is the number of the household's
/// first member.
fn shared_household(volunteers: &[Volunteer], i: usize) -> Option<usize>
    ensures { result ≡ shared volunteers.now i }
{
    let members = household_size(volunteers, i);
    let first = household_number(volunteers, i);
    if 2 <= members { first } else { None }
}

/// Returns how many volunteers are of the household of volunteer `i`: 0 if `i` has none.
fn household_size(volunteers: &[Volunteer], i: usize) -> usize
    ensures { result ≡ count_by (share volunteers.now i) (range_with_len 0 (length volunteers.now)) }
{
    (0..volunteers.len())
        .filter(|j| share_household(volunteers, i, *j))
        .count()
}

/// Returns the number of the first volunteer of the household of volunteer `i`, if `i` has one.
fn household_number(volunteers: &[Volunteer], i: usize) -> Option<usize>
    ensures { result ≡ find (share volunteers.now i) (range_with_len 0 (length volunteers.now)) }
{
    (0..volunteers.len()).find(|j| share_household(volunteers, i, *j))
}
