//! Writes the text of a pool, line by line into one growing buffer.

ghost use Rattle.std.specs.Prelude.{◌≡◌, ◌++◌, ◌∷◌, [], map, Ok, IfOk, OnOk, IsTrue, ◌<◌, length, slice_index_or};
ghost use Rattle.define_pools.specs.Building.{value_names};
ghost use Rattle.std.specs.List.{flat_map, list_all};
ghost use Rattle.define_pools.specs.Pool.{has_values};
ghost use Rattle.define_lines.specs.Lines.{tabbed, text_of};
ghost use Rattle.define_bundles.specs.PoolText.{household_line, household_lines, size_line, category_lines, value_line, names_at, volunteer_line, standing_line, standing_lines, spelling};
ghost use Rattle.define_bundles.specs.PoolReading.{read};

use crate::versions::{version_of, version_word};
use itoa::Buffer;
use pool_model::{BoundedValue, Category, Pool, Standing, Volunteer};
use std::alloc::{AllocError, Global};
use text_lines::{end_line, push_field, push_line};

/// Returns the text of the pool. Reading this text returns the same pool.
pub fn write_pool(alloc: Global, pool: &Pool) -> Result<Vec<u8>, AllocError>
    ensures spelled { IfOk result (λ text. text.items ≡ spelling pool.now) }
    ensures read { IfOk result (λ text. read text.items ≡ Ok pool.now) }
{
    pool.facts();
    let mut text = Vec::new(alloc);
    push_pool(&mut text, pool)?;
    Ok(text)
}

/// Appends the text of the pool.
fn push_pool(text: &mut Vec<u8>, pool: &Pool) -> Result<(), AllocError>
    ensures { OnOk result (text.new.items ≡ text.old.items ++ spelling pool.now) }
{
    pool.facts();
    push_line(text, b"pool", &[version_word(version_of(pool))])?;
    push_size(text, pool.size())?;
    push_categories(text, pool.categories())?;
    push_volunteers(text, pool.categories(), pool.volunteers())?;
    push_households(text, pool.volunteers())?;
    push_standings(text, pool.volunteers())?;
    push_line(text, b"end", &[])
}

fn push_size(text: &mut Vec<u8>, size: usize) -> Result<(), AllocError>
    ensures { OnOk result (text.new.items ≡ text.old.items ++ text_of (size_line size ∷ [])) }
{
    let mut digits = Buffer::new();
    push_line(text, b"size", &[digits.format(size).as_bytes()])
}

fn push_categories(text: &mut Vec<u8>, categories: &[Category]) -> Result<(), AllocError>
    ensures { OnOk result (text.new.items ≡ text.old.items ++ text_of (flat_map category_lines categories.now)) }
{
    for category in categories {
        push_category(text, category)?;
    }
    Ok(())
}

/// Appends a category's line, and those of its values.
fn push_category(text: &mut Vec<u8>, category: &Category) -> Result<(), AllocError>
    ensures { OnOk result (text.new.items ≡ text.old.items ++ text_of (category_lines category.now)) }
{
    push_line(text, b"category", &[category.name().as_bytes()])?;
    push_values(text, category.values())
}

fn push_values(text: &mut Vec<u8>, values: &[BoundedValue]) -> Result<(), AllocError>
    ensures { OnOk result (text.new.items ≡ text.old.items ++ text_of (map value_line values.now)) }
{
    for value in values {
        push_value(text, value)?;
    }
    Ok(())
}

fn push_value(text: &mut Vec<u8>, value: &BoundedValue) -> Result<(), AllocError>
    ensures { OnOk result (text.new.items ≡ text.old.items ++ text_of (value_line value.now ∷ [])) }
{
    let mut lower = Buffer::new();
    let mut upper = Buffer::new();
    push_line(
        text,
        b"value",
        &[
            value.name().as_bytes(),
            lower.format(value.lower()).as_bytes(),
            upper.format(value.upper()).as_bytes(),
        ],
    )
}

fn push_volunteers(
    text: &mut Vec<u8>,
    categories: &[Category],
    volunteers: &[Volunteer],
) -> Result<(), AllocError>
    requires { IsTrue (list_all (λ volunteer. has_values categories.now volunteer.values) volunteers.now) }
    ensures { OnOk result (text.new.items ≡ text.old.items ++ text_of (map (volunteer_line categories.now) volunteers.now)) }
{
    for volunteer in volunteers {
        push_volunteer(text, categories, volunteer)?;
    }
    Ok(())
}

/// Appends a volunteer's line: the id, and the name of the value of each category.
fn push_volunteer(
    text: &mut Vec<u8>,
    categories: &[Category],
    volunteer: &Volunteer,
) -> Result<(), AllocError>
    requires { IsTrue (has_values categories.now volunteer.now.values) }
    ensures { OnOk result (text.new.items ≡ text.old.items ++ text_of (volunteer_line categories.now volunteer.now ∷ [])) }
{
    text.extend_from_slice(b"volunteer")?;
    push_field(text, volunteer.id().as_bytes())?;
    push_names(text, categories, volunteer.values())?;
    end_line(text)
}

/// Appends for each category a field with the name of its value at the place in `places`.
fn push_names(
    text: &mut Vec<u8>,
    categories: &[Category],
    places: &[usize],
) -> Result<(), AllocError>
    requires { IsTrue (has_values categories.now places.now) }
    ensures { OnOk result (text.new.items ≡ text.old.items ++ tabbed (names_at categories.now places.now)) }
{
    for (category, place) in categories.iter().zip(places) {
        push_field(text, name_at(category.values(), *place))?;
    }
    Ok(())
}

/// Returns the name of the value in this place.
fn name_at(values: &[BoundedValue], place: usize) -> &[u8]
    requires { place < length values.now }
    ensures { result.now ≡ slice_index_or (value_names values.now) place [] }
{
    values[place].name().as_bytes()
}

fn push_households(text: &mut Vec<u8>, volunteers: &[Volunteer]) -> Result<(), AllocError>
    ensures { OnOk result (text.new.items ≡ text.old.items ++ text_of (household_lines volunteers.now)) }
{
    for volunteer in volunteers {
        push_household(text, volunteer)?;
    }
    Ok(())
}

/// Appends a volunteer's household line, if the volunteer has a household.
fn push_household(text: &mut Vec<u8>, volunteer: &Volunteer) -> Result<(), AllocError>
    ensures { OnOk result (text.new.items ≡ text.old.items ++ text_of (household_line volunteer.now.household volunteer.now.id)) }
{
    match volunteer.household() {
        Some(name) => push_line(
            text,
            b"household",
            &[volunteer.id().as_bytes(), name.as_bytes()],
        ),
        None => Ok(()),
    }
}

fn push_standings(text: &mut Vec<u8>, volunteers: &[Volunteer]) -> Result<(), AllocError>
    ensures { OnOk result (text.new.items ≡ text.old.items ++ text_of (standing_lines volunteers.now)) }
{
    for volunteer in volunteers {
        push_standing(text, volunteer)?;
    }
    Ok(())
}

/// Appends a volunteer's standing line, unless the volunteer is open.
fn push_standing(text: &mut Vec<u8>, volunteer: &Volunteer) -> Result<(), AllocError>
    ensures { OnOk result (text.new.items ≡ text.old.items ++ text_of (standing_line volunteer.now.standing volunteer.now.id)) }
{
    match volunteer.standing() {
        Standing::Open => Ok(()),
        Standing::Seated => push_line(text, b"seated", &[volunteer.id().as_bytes()]),
        Standing::Gone => push_line(text, b"gone", &[volunteer.id().as_bytes()]),
    }
}
