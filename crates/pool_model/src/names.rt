//! Tests of the names and values that the builder is given. They search the lists from the front, which is fast enough: a pool has at most
//! 4,000 volunteers, 20 categories and 50 values a category. Only `bytes_of`, `places` and `places_named` allocate.

ghost use Rattle.std.specs.Prelude.{◌≡◌, ◌==◌, nat_le, not, ◌&&◌, map, IfOk};
ghost use Rattle.std.specs.List.{list_all};
ghost use Rattle.define_pools.specs.Lists.{includes_list};
ghost use Rattle.define_pools.specs.Pool.{keeps_name_limits as is_within_limits};
ghost use Rattle.define_pools.specs.Building.{category_names, value_names, ids, place_of, places_of, are_known as each_is_known};

use crate::parts::{BoundedValue, Category, Name, Volunteer};
use std::alloc::{AllocError, Global};

/// The most bytes that a name or id may have.
const MAX_NAME_LEN: usize = 200;

/// True for 1 to 200 bytes, none of which is below 32 or is 127.
pub fn keeps_name_limits(name: &[u8]) -> bool
    ensures { result ≡ is_within_limits name.now }
{
    1 <= name.len() && name.len() <= MAX_NAME_LEN && has_right_bytes(name)
}

fn has_right_bytes(name: &[u8]) -> bool
    ensures { result ≡ list_all (λ byte. nat_le 32 byte && not (byte == 127)) name.now }
{
    name.iter().all(|byte| 32 <= *byte && *byte != 127)
}

pub(crate) fn is_category(categories: &[Category], name: &[u8]) -> bool
    ensures { result ≡ includes_list (category_names categories.now) name.now }
{
    categories
        .iter()
        .any(|category| name == category.name().as_bytes())
}

pub(crate) fn is_value(values: &[BoundedValue], name: &[u8]) -> bool
    ensures { result ≡ includes_list (value_names values.now) name.now }
{
    values.iter().any(|value| name == value.name().as_bytes())
}

pub(crate) fn is_volunteer(volunteers: &[Volunteer], id: &[u8]) -> bool
    ensures { result ≡ includes_list (ids volunteers.now) id.now }
{
    volunteers
        .iter()
        .any(|volunteer| id == volunteer.id().as_bytes())
}

pub(crate) fn are_known(categories: &[Category], names: &[&[u8]]) -> bool
    ensures { result ≡ each_is_known categories.now (map (λ name. name.now) names.now) }
{
    categories
        .iter()
        .zip(names)
        .all(|(category, name)| is_value(category.values(), name))
}

/// True if the name given for each category is that of one of its values.
pub fn are_named(categories: &[Category], names: &[Name]) -> bool
    ensures { result ≡ each_is_known categories.now names.now }
{
    categories.iter().zip(names).all(|(category, name)| is_value(
        category.values(),
        name.as_bytes(),
    ))
}

/// Returns the place of the value called `name`, counted from 0, or None.
fn place(values: &[BoundedValue], name: &[u8]) -> Option<usize>
    ensures { result ≡ place_of values.now name.now }
{
    values
        .iter()
        .position(|value| name == value.name().as_bytes())
}

/// Returns for each category the place of the value whose name is given for it, or 0 if it has no such value.
pub(crate) fn places(
    alloc: Global,
    categories: &[Category],
    names: &[&[u8]],
) -> Result<Vec<usize>, AllocError>
    ensures { IfOk result (λ v. v.items ≡ places_of categories.now (map (λ name. name.now) names.now)) }
{
    categories
        .iter()
        .zip(names)
        .map(|(category, name)| place(category.values(), name).unwrap_or(0))
        .collect(alloc)
}

/// Returns the bytes of each name.
pub(crate) fn bytes_of(alloc: Global, names: &[Name]) -> Result<Vec<&[u8]>, AllocError>
    ensures { IfOk result (λ v. map (λ name. name.now) v.items ≡ names.now) }
{
    names.iter().map(|name| name.as_bytes()).collect(alloc)
}

/// Returns for each category the place of the value whose name is given for it, counted from 0; or 0 if it has no such value.
pub fn places_named(
    alloc: Global,
    categories: &[Category],
    names: &[Name],
) -> Result<Vec<usize>, AllocError>
    ensures { IfOk result (λ places. places.items ≡ places_of categories.now names.now) }
{
    let names = bytes_of(alloc, names)?;
    places(alloc, categories, &names)
}
