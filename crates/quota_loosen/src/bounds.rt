//! Makes a pool whose bounds are moved only as far as a team needs to meet them.

ghost use Rattle.std.specs.Prelude.{◌≡◌, ◌<◌, ◌++◌, [], ◌∷◌, IsTrue, None, IfOk, OnOk, length, nat_lt};
ghost use Rattle.std.specs.List.{list_all};
ghost use Rattle.define_quotas.specs.Teams.{is_team, loosened as loosened_for, loosened_category};
ghost use Rattle.define_pools.specs.Building.{category_kind};
ghost use Rattle.define_pools.specs.Pool.{IsPool, is_category, members_with};

use pool_model::{Category, Limits, Panel, Pool, Volunteer, copied_categories, copied_volunteers};
use std::alloc::{AllocError, Global};

// Returns the pool with each bound moved only as far as the team needs to meet it.
pub(crate) fn loosened(alloc: Global, pool: &Pool, team: &Panel) -> Result<Pool, AllocError>
    requires { IsTrue (is_team pool.now team.now) }
    ensures { IfOk result (λ made. made ≡ loosened_for pool.now team.now) }
{
    pool.facts();
    let quotas = quotas(alloc, pool, team.members())?;
    let categories = copied_categories(alloc, quotas.categories())?;
    let volunteers = copied_volunteers(alloc, pool.volunteers())?;
    Ok(Pool::from_parts(pool.size(), categories, volunteers))
}

// Returns the loosened pool without its volunteers, since categories and values can be added only to a pool without volunteers.
fn quotas(alloc: Global, pool: &Pool, team: &[usize]) -> Result<Pool, AllocError>
    requires pool { IsPool pool.now }
    requires team { IsTrue (is_team pool.now team.now) }
    ensures { IfOk result (λ made. made ≡ record { size = pool.now.size; categories = (loosened_for pool.now team.now).categories; volunteers = [] }) }
{
    let mut made = match Pool::new_within(alloc, Limits::Large, pool.size()) {
        Ok(made) => made,
        Err(_) => unreachable!(),
    };
    for (place, category) in pool.categories().iter().enumerate() {
        add_category(&mut made, pool.volunteers(), team, place, category)?;
    }
    Ok(made)
}

// Appends the category at `place` to `made`, with its bounds moved only as far as the team needs to meet them.
fn add_category(
    made: &mut Pool,
    volunteers: &[Volunteer],
    team: &[usize],
    place: usize,
    category: &Category,
) -> Result<(), AllocError>
    requires team { IsTrue (list_all (λ i. nat_lt i (length volunteers.now)) team.now) }
    requires new { category_kind made.old category.now.name ≡ None }
    requires right { IsTrue (is_category (loosened_category volunteers.now team.now place category.now)) }
    ensures { OnOk result (made.new ≡ record made.old { categories = made.old.categories ++ loosened_category volunteers.now team.now place category.now ∷ [] }) }
{
    made.add_right_category(category.name().as_str())?;
    for (value_place, value) in category.values().iter().enumerate() {
        let number = number_with(volunteers, team, place, value_place);
        made.add_right_value(
            value.name().as_str(),
            value.lower().min(number),
            value.upper().max(number),
        )?;
    }
    Ok(())
}

// Returns how many members of the team have value `value` of category `category`, both counted from 0.
pub fn number_with(volunteers: &[Volunteer], team: &[usize], category: usize, value: usize) -> usize
    requires { IsTrue (list_all (λ i. nat_lt i (length volunteers.now)) team.now) }
    ensures { result ≡ members_with volunteers.now team.now category value }
{
    let mut count = 0;
    for i in team {
        let volunteer = &volunteers[*i];
        if volunteer.values().get(category).copied().unwrap_or(0) == value {
            count += 1;
        }
    }
    count
}
