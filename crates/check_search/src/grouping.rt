//! Makes the classes of a pool at a stage.

ghost use Rattle.std.specs.Prelude.{◌≡◌, ◌<◌, IfOk, map, not, length};
ghost use Rattle.std.specs.List.{list_any, range_with_len};
ghost use Rattle.check_search.specs.Likeness.{KnowsHouseholds, count_of, is_alike, stages_of};
ghost use Rattle.define_checks.specs.Caps.{classes_at};
ghost use Rattle.define_searches.specs.Classes.{bounds_of, class_by, class_of, leaders as leaders_by};

use crate::groups::{Class, Classes, ValueBounds};
use crate::likeness::Likeness;
use define_searches::Bounds;
use pool_model::{BoundedValue, Category};
use std::alloc::{AllocError, Global};

// Returns the classes at a stage. `leaders` are the first members of the classes.
pub(crate) fn classes_at(
    alloc: Global,
    likeness: &Likeness<'_>,
    leaders: &[usize],
) -> Result<Classes, AllocError>
    requires households { KnowsHouseholds likeness.now }
    requires leaders { leaders.now ≡ leaders_by (is_alike likeness.now) (count_of likeness.now) }
    ensures { IfOk result (λ found. found ≡ classes_at likeness.now.pool.now (stages_of likeness.now)) }
{
    let pool = likeness.pool;
    let bounds = all_bounds(alloc, pool.categories())?;
    let groups = groups(alloc, likeness, leaders)?;
    pool.facts();
    Ok(Classes::new(pool.size(), bounds, groups))
}

// Returns the bounds of the values, category by category.
fn all_bounds(alloc: Global, categories: &[Category]) -> Result<Vec<ValueBounds>, AllocError>
    ensures { IfOk result (λ bounds. bounds.items ≡ bounds_of categories.now) }
{
    let mut bounds = Vec::new(alloc);
    for category in categories {
        bounds.push(ValueBounds::new(value_bounds(alloc, category.values())?))?;
    }
    Ok(bounds)
}

fn value_bounds(alloc: Global, values: &[BoundedValue]) -> Result<Vec<Bounds>, AllocError>
    ensures { IfOk result (λ bounds. bounds.items ≡ map (λ value. record { lower = value.lower; upper = value.upper }) values.now) }
{
    values
        .iter()
        .map(|value| Bounds {
            lower: value.lower(),
            upper: value.upper(),
        })
        .collect(alloc)
}

// Returns the first member of each class: each volunteer to whom no earlier volunteer is alike.
pub(crate) fn leaders(alloc: Global, likeness: &Likeness<'_>) -> Result<Vec<usize>, AllocError>
    requires { KnowsHouseholds likeness.now }
    ensures { IfOk result (λ found. found.items ≡ leaders_by (is_alike likeness.now) (count_of likeness.now)) }
{
    let mut found = Vec::new(alloc);
    for i in 0..likeness.pool.volunteers().len() {
        if leads(likeness, i) {
            found.push(i)?;
        }
    }
    Ok(found)
}

// True if no volunteer before `i` is alike to `i`, so that `i` is the first member of a class.
fn leads(likeness: &Likeness<'_>, i: usize) -> bool
    requires households { KnowsHouseholds likeness.now }
    requires below { i < count_of likeness.now }
    ensures { result ≡ not (list_any (λ j. is_alike likeness.now j i) (range_with_len 0 i)) }
{
    for j in 0..i {
        if likeness.are_alike(j, i) {
            return false;
        }
    }
    true
}

// Returns the classes, one for each leader.
fn groups(
    alloc: Global,
    likeness: &Likeness<'_>,
    leaders: &[usize],
) -> Result<Vec<Class>, AllocError>
    requires households { KnowsHouseholds likeness.now }
    requires leaders { leaders.now ≡ leaders_by (is_alike likeness.now) (count_of likeness.now) }
    ensures { IfOk result (λ found. found.items ≡ map (class_by (is_alike likeness.now) likeness.now.pool.now) leaders.now) }
{
    let mut found = Vec::new(alloc);
    for leader in leaders {
        found.push(group(alloc, likeness, *leader)?)?;
    }
    Ok(found)
}

// Returns the class of `leader`.
fn group(alloc: Global, likeness: &Likeness<'_>, leader: usize) -> Result<Class, AllocError>
    requires households { KnowsHouseholds likeness.now }
    requires below { leader < count_of likeness.now }
    ensures { IfOk result (λ class. class ≡ class_by (is_alike likeness.now) likeness.now.pool.now leader) }
{
    let members = members(alloc, likeness, leader)?;
    let volunteer = &likeness.pool.volunteers()[leader];
    let values = Vec::from_slice(alloc, volunteer.values())?;
    Ok(Class::new(
        members,
        values,
        volunteer.standing(),
        likeness.household_of(leader),
    ))
}

// Returns the numbers of all who are alike to `leader`, in rising order.
fn members(alloc: Global, likeness: &Likeness<'_>, leader: usize) -> Result<Vec<usize>, AllocError>
    requires households { KnowsHouseholds likeness.now }
    requires below { leader < count_of likeness.now }
    ensures { IfOk result (λ found. found.items ≡ class_of (is_alike likeness.now) (count_of likeness.now) leader) }
{
    let mut found = Vec::new(alloc);
    for i in 0..likeness.pool.volunteers().len() {
        if likeness.are_alike(leader, i) {
            found.push(i)?;
        }
    }
    Ok(found)
}
