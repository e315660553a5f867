//! Demands: the constraints of a pool, each given by the volunteers whom it counts. There is one for the size, for each value and for each
//! shared household. `programs` lists demands, and `rows` makes rows of them.

ghost use Rattle.std.specs.Prelude.{◌≡◌, ◌<◌, ◌++◌, IfOk, OnOk, map, length, slice_get, slice_index};
ghost use Rattle.std.specs.List.{enumerate_from};
ghost use Rattle.define_proofs.specs.Constraints.{first_members, household_constraint, value_constraint};
ghost use Rattle.define_pools.specs.Pool.{everybody, volunteer as volunteer_of};
ghost use Rattle.define_searches.specs.Classes.{class_number, classes_of, shared_household};
ghost use Rattle.define_searches.specs.Compositions.{is_of_household as is_member};
ghost use Rattle.prove_program.specs.Demands.{constraint_of, household_of as household_in, is_counted, shared_households as households_of};
ghost use Rattle.prove_program.specs.Programs.{quota_constraints};

use alike::{Class, Classes};
use pool_model::{BoundedValue, Pool};
use std::alloc::{AllocError, Global};

/// Whom a constraint counts.
#[derive(Clone, Copy, Debug)]
pub(crate) enum Counted {
    Everybody,
    /// The volunteers who have value `.1` of category `.0`.
    WithValue(usize, usize),
    /// The members of the household whose first member has this number.
    OfHousehold(usize),
}

/// A constraint: a panel has at least `lower` and at most `upper` of those whom it counts.
#[derive(Clone, Copy, Debug)]
pub(crate) struct Demand {
    pub(crate) counted: Counted,
    pub(crate) lower: usize,
    pub(crate) upper: usize,
}

/// Returns the demands of the size and of each value, category by category.
pub(crate) fn quota_demands(alloc: Global, pool: &Pool) -> Result<Vec<Demand>, AllocError>
    ensures { IfOk result (λ demands. map (constraint_of pool.now) demands.items ≡ quota_constraints pool.now) }
{
    let mut demands = Vec::new(alloc);
    demands.push(Demand {
        counted: Counted::Everybody,
        lower: pool.size(),
        upper: pool.size(),
    })?;
    for (place, category) in pool.categories().iter().enumerate() {
        push_values(&mut demands, pool, place, category.values())?;
    }
    Ok(demands)
}

/// Adds the demands of a category's values.
fn push_values(
    demands: &mut Vec<Demand>,
    pool: &Pool,
    category: usize,
    values: &[BoundedValue],
) -> Result<(), AllocError>
    ensures { OnOk result (map (constraint_of pool.now) demands.new.items
        ≡ map (constraint_of pool.now) demands.old.items ++ map (value_constraint pool.now category) (enumerate_from 0 values.now)) }
{
    let _ = pool;
    for (value, bounds) in values.iter().enumerate() {
        demands.push(Demand {
            counted: Counted::WithValue(category, value),
            lower: bounds.lower(),
            upper: bounds.upper(),
        })?;
    }
    Ok(())
}

/// Adds the demands of the shared households, in the order of their first members.
pub(crate) fn push_households(
    demands: &mut Vec<Demand>,
    pool: &Pool,
    households: &[Option<usize>],
) -> Result<(), AllocError>
    requires { households.now ≡ households_of pool.now }
    ensures { OnOk result (map (constraint_of pool.now) demands.new.items
        ≡ map (constraint_of pool.now) demands.old.items ++ map (household_constraint pool.now) (first_members pool.now)) }
{
    let _ = pool;
    for (number, household) in households.iter().enumerate() {
        if is_of_household(*household, number) {
            demands.push(Demand {
                counted: Counted::OfHousehold(number),
                lower: 0,
                upper: 1,
            })?;
        }
    }
    Ok(())
}

/// Returns, for each volunteer, the number of the household that the volunteer shares, or None. It is that of the volunteer's class.
pub(crate) fn shared_households(
    alloc: Global,
    pool: &Pool,
    found: &Classes,
    numbers: &[usize],
) -> Result<Vec<Option<usize>>, AllocError>
    requires found { found.now ≡ classes_of pool.now }
    requires numbers { numbers.now ≡ map (class_number (classes_of pool.now).classes) (everybody pool.now) }
    ensures { IfOk result (λ households. households.items ≡ households_of pool.now) }
{
    let _ = pool;
    let households = class_households(alloc, found.classes(), numbers)?;
    Ok(households)
}

/// Returns, for each of `numbers`, the shared household of the class with this number, or None.
fn class_households(
    alloc: Global,
    classes: &[Class],
    numbers: &[usize],
) -> Result<Vec<Option<usize>>, AllocError>
    ensures { IfOk result (λ households. households.items ≡ map (λ number. household_in (slice_get classes.now number)) numbers.now) }
{
    numbers
        .iter()
        .map(|number| class_household(classes, *number))
        .collect(alloc)
}

/// Returns the shared household of the class with this number, or None.
fn class_household(classes: &[Class], number: usize) -> Option<usize>
    ensures { result ≡ household_in (slice_get classes.now number) }
{
    match classes.get(number) {
        Some(class) => class.household(),
        None => None,
    }
}

/// True if a demand counts a volunteer.
pub(crate) fn counts(
    pool: &Pool,
    households: &[Option<usize>],
    counted: Counted,
    volunteer: usize,
) -> bool
    requires households { households.now ≡ households_of pool.now }
    requires volunteer { volunteer < length pool.now.volunteers }
    ensures { result ≡ is_counted pool.now counted volunteer }
{
    match counted {
        Counted::Everybody => true,
        Counted::WithValue(category, value) => value_of(pool, volunteer, category) == value,
        Counted::OfHousehold(number) => is_of_household(
            household_of(pool, households, volunteer),
            number,
        ),
    }
}

/// Returns the place of a volunteer's value in a category.
fn value_of(pool: &Pool, i: usize, category: usize) -> usize
    requires { i < length pool.now.volunteers }
    ensures { result ≡ slice_index (volunteer_of pool.now.volunteers i).values category }
{
    let values = pool.volunteers()[i].values();
    values.get(category).copied().unwrap_or(0)
}

/// Returns the number of the household that a volunteer shares, if there is one.
fn household_of(pool: &Pool, households: &[Option<usize>], i: usize) -> Option<usize>
    requires households { households.now ≡ households_of pool.now }
    requires volunteer { i < length pool.now.volunteers }
    ensures { result ≡ shared_household pool.now.volunteers i }
{
    let _ = pool;
    match households.get(i) {
        Some(household) => *household,
        None => None,
    }
}

/// True if there is a household, and `number` is its number.
fn is_of_household(household: Option<usize>, number: usize) -> bool
    ensures { result ≡ is_member number household }
{
    household == Some(number)
}
