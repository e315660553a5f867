//! The pool of the first round: the rows of the register as volunteers.

ghost use Rattle.std.specs.Prelude.{◌≡◌, map, IfOk};
ghost use Rattle.define_pools.specs.Pool.{IsPool};
ghost use Rattle.define_offices.specs.Pools.{first_pool as pool_at_first, standing_of as standing_by, volunteer_of as volunteer_by};

use office_tables::{Charter, Entry, Rules};
use pool_model::{
    Category, Pool, Standing, Volunteer, copied_categories, copied_name, places_named,
};
use std::alloc::{AllocError, Global};

/// Returns the pool of the charter's size, the categories of the rules, and the rows of the register as volunteers.
pub(crate) fn first_pool(
    alloc: Global,
    charter: &Charter,
    rules: &Rules,
    register: &[Entry],
) -> Result<Pool, AllocError>
    requires { IsPool (pool_at_first charter.now rules.now register.now) }
    ensures { IfOk result (λ pool. pool ≡ pool_at_first charter.now rules.now register.now) }
{
    let categories = copied_categories(alloc, rules.categories())?;
    let volunteers = volunteers_of(alloc, rules.categories(), register)?;
    Ok(Pool::from_parts(charter.size(), categories, volunteers))
}

/// Returns the rows of a register as volunteers, in the register's order.
fn volunteers_of(
    alloc: Global,
    categories: &[Category],
    register: &[Entry],
) -> Result<Vec<Volunteer>, AllocError>
    ensures { IfOk result (λ volunteers. volunteers.items ≡ map (volunteer_by categories.now) register.now) }
{
    let mut volunteers = Vec::new(alloc);
    for entry in register {
        volunteers.push(volunteer_of(alloc, categories, entry)?)?;
    }
    Ok(volunteers)
}

/// Returns a row of a register as a volunteer.
fn volunteer_of(
    alloc: Global,
    categories: &[Category],
    entry: &Entry,
) -> Result<Volunteer, AllocError>
    ensures { IfOk result (λ volunteer. volunteer ≡ volunteer_by categories.now entry.now) }
{
    let id = entry.id().copy()?;
    let places = places_named(alloc, categories, entry.values())?;
    let household = copied_name(entry.household())?;
    Ok(Volunteer::from_parts(id, places, standing_of(entry.withdrawn()), household))
}

/// Returns `Gone` for a volunteer who withdrew, else `Open`.
fn standing_of(withdrawn: bool) -> Standing
    ensures { result ≡ standing_by withdrawn }
{
    if withdrawn {
        Standing::Gone
    } else {
        Standing::Open
    }
}
