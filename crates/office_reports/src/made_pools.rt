//! Makes a pool from a seed and a number of volunteers.

ghost use Rattle.std.specs.Prelude.{◌≡◌, ◌≤◌, ◌<◌, ◌++◌, ◌∷◌, [], None, false, map, length, slice_index_or, IfOk, OnOk};
ghost use Rattle.std.specs.List.{range_with_len};
ghost use Rattle.define_pools.specs.Building.{empty_pool, ids, value_added, value_kind};
ghost use Rattle.define_pools.specs.Lists.{includes_list};
ghost use Rattle.define_made_pools.specs.MadePools.{ages, areas, bounded_by, genders, made_id, made_pool, made_values, made_volunteers};
ghost use Rattle.office_reports.specs.Making.{ArePlaces, categories_by, made_names, members_with, names_of_values, with_values};

use crate::generator::Generator;
use pool_model::Pool;
use std::alloc::{AllocError, Global};

/// Returns the pool that is made from a seed and 1 to 400 volunteers, `v1`, `v2` and so on. A generator gives each of them a gender, an age
/// and an area, by three numbers in turn. A panel has a tenth of the volunteers, rounded down, but at least one. The bounds come from the
/// first volunteers, as many as a panel has: if n of them have a value, a panel has from n - 1 to n + 1 members with it, and at least 0.
/// All volunteers are open, without households. Fails only if memory runs out.
pub fn made_pool(alloc: Global, seed: u64, volunteers: u32) -> Result<Pool, AllocError>
    requires some { 1 ≤ volunteers }
    requires few { volunteers ≤ 400 }
    ensures { IfOk result (λ pool. pool ≡ made_pool seed volunteers) }
{
    let volunteers = volunteers as usize;
    let size = (volunteers / 10).max(1);
    let mut pool = empty_pool(alloc, size);
    add_categories(&mut pool, &first_values(alloc, seed, size)?)?;
    add_volunteers(alloc, &mut pool, seed, volunteers)?;
    Ok(pool)
}

/// Returns a pool without categories and volunteers.
fn empty_pool(alloc: Global, size: usize) -> Pool
    requires some { 1 ≤ size }
    requires few { size ≤ 200 }
    ensures { result ≡ empty_pool size }
{
    match Pool::new(alloc, size) {
        Ok(pool) => pool,
        Err(_) => unreachable!(),
    }
}

/// Returns the values of the first `size` volunteers.
fn first_values(alloc: Global, seed: u64, size: usize) -> Result<Vec<[usize; 3]>, AllocError>
    ensures { IfOk result (λ first. first.items ≡ map (made_values seed) (range_with_len 0 size)) }
{
    let mut generator = Generator { state: seed };
    let mut first = Vec::new(alloc);
    for _ in 0..size {
        first.push(generator.values())?;
    }
    Ok(first)
}

/// Adds the three categories, with the bounds that come from the first volunteers' values.
fn add_categories(pool: &mut Pool, first: &[[usize; 3]]) -> Result<(), AllocError>
    requires no_category { pool.old.categories ≡ [] }
    requires nobody { pool.old.volunteers ≡ [] }
    requires few { length first.now ≤ 40 }
    ensures { OnOk result (pool.new ≡ record pool.old { categories = categories_by first.now }) }
{
    pool.add_right_category("gender")?;
    add_bounded(pool, "female", members_with(first, 0, 0))?;
    add_bounded(pool, "male", members_with(first, 0, 1))?;
    pool.add_right_category("age")?;
    add_bounded(pool, "young", members_with(first, 1, 0))?;
    add_bounded(pool, "middle", members_with(first, 1, 1))?;
    add_bounded(pool, "old", members_with(first, 1, 2))?;
    pool.add_right_category("area")?;
    add_bounded(pool, "town", members_with(first, 2, 0))?;
    add_bounded(pool, "country", members_with(first, 2, 1))
}

/// Returns how many of the first volunteers have the value `value_place` in the category `place`.
fn members_with(first: &[[usize; 3]], place: usize, value_place: usize) -> usize
    requires { place < 3 }
    ensures value { result ≡ members_with first.now place value_place }
    ensures few { result ≤ length first.now }
{
    first
        .iter()
        .filter(|values| values[place] == value_place)
        .count()
}

/// Adds a value that `members` of the first volunteers have, with bounds one below `members`, but at least 0, and one above.
fn add_bounded(pool: &mut Pool, name: &str, members: usize) -> Result<(), AllocError>
    requires few { members ≤ 40 }
    requires kind { value_kind pool.old (bounded_by name.now members) ≡ None }
    ensures { OnOk result (pool.new ≡ value_added pool.old (bounded_by name.now members)) }
{
    pool.add_right_value(name, members.saturating_sub(1), members + 1)
}

/// Adds `volunteers` volunteers to a pool that has the three categories.
fn add_volunteers(
    alloc: Global,
    pool: &mut Pool,
    seed: u64,
    volunteers: usize,
) -> Result<(), AllocError>
    requires names { names_of_values pool.old.categories ≡ made_names }
    requires nobody { pool.old.volunteers ≡ [] }
    requires few { volunteers ≤ 400 }
    ensures { OnOk result (pool.new ≡ record pool.old { volunteers = made_volunteers seed volunteers }) }
{
    let mut generator = Generator { state: seed };
    for number in 0..volunteers {
        add_volunteer(alloc, pool, number, generator.values())?;
    }
    Ok(())
}

/// Adds volunteer `number`, counted from 0, with these values.
fn add_volunteer(
    alloc: Global,
    pool: &mut Pool,
    number: usize,
    values: [usize; 3],
) -> Result<(), AllocError>
    requires names { names_of_values pool.old.categories ≡ made_names }
    requires places { ArePlaces values }
    requires new { includes_list (ids pool.old.volunteers) (made_id number) ≡ false }
    requires number { number < 400 }
    requires room { length pool.old.volunteers < 400 }
    ensures { OnOk result (pool.new ≡ record pool.old { volunteers = pool.old.volunteers ++ with_values number values ∷ [] }) }
{
    let id = format!(in alloc; "v{}", number + 1)?;
    let [gender, age, area] = values;
    pool.add_right_volunteer(
        id.as_str(),
        &[gender_name(gender), age_name(age), area_name(area)],
    )
}

fn gender_name(place: usize) -> &'static [u8]
    requires { place < 2 }
    ensures { result.now ≡ slice_index_or genders place [] }
{
    match place {
        0 => b"female",
        _ => b"male",
    }
}

fn age_name(place: usize) -> &'static [u8]
    requires { place < 3 }
    ensures { result.now ≡ slice_index_or ages place [] }
{
    match place {
        0 => b"young",
        1 => b"middle",
        _ => b"old",
    }
}

fn area_name(place: usize) -> &'static [u8]
    requires { place < 2 }
    ensures { result.now ≡ slice_index_or areas place [] }
{
    match place {
        0 => b"town",
        _ => b"country",
    }
}
