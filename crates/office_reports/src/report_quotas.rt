//! The lines of a report on the quotas. A helper of `reports`.

ghost use Rattle.std.specs.Prelude.{◌≡◌, ◌++◌, ◌∷◌, [], length, map, true, IfOk, OnOk};
ghost use Rattle.define_lines.specs.Lines.{text_of};
ghost use Rattle.define_pools.specs.Pool.{allows, members_with};
ghost use Rattle.define_offices.specs.Report.{not_gone as numbers_not_gone, numbers_with as numbers_of_groups, quota_line, quota_lines, value_lines};
ghost use Rattle.office_reports.specs.Groups.{AreBelow, GroupsAreBelow};

use pool_model::{BoundedValue, Category, Name, Pool, Standing, Volunteer};
use std::alloc::{AllocError, Global};
use text_lines::{end_line, push_field, push_number, push_numbers};

/// Returns the numbers of the volunteers who aren't gone.
pub(crate) fn not_gone(alloc: Global, pool: &Pool) -> Result<Vec<usize>, AllocError>
    ensures { IfOk result (λ numbers. numbers.items ≡ numbers_not_gone pool.now) }
{
    let mut numbers = Vec::new(alloc);
    for (number, volunteer) in pool.volunteers().iter().enumerate() {
        if may_be_chosen(volunteer.standing()) {
            numbers.push(number)?;
        }
    }
    Ok(numbers)
}

/// True unless the standing is gone.
fn may_be_chosen(standing: Standing) -> bool
    ensures { result ≡ allows standing true }
{
    match standing {
        Standing::Open | Standing::Seated => true,
        Standing::Gone => false,
    }
}

/// Appends a line for each value of a pool: its bounds, and how many of each group have it.
pub(crate) fn push_counts(
    alloc: Global,
    text: &mut Vec<u8>,
    pool: &Pool,
    groups: &[&[usize]],
) -> Result<(), AllocError>
    requires { GroupsAreBelow (length pool.now.volunteers) (map (λ group. group.now) groups.now) }
    ensures { OnOk result (text.new.items ≡ text.old.items ++ text_of (quota_lines pool.now (map (λ group. group.now) groups.now))) }
{
    for (place, category) in pool.categories().iter().enumerate() {
        push_category(alloc, text, pool.volunteers(), groups, place, category)?;
    }
    Ok(())
}

/// Appends a line for each value of the category at `place`.
fn push_category(
    alloc: Global,
    text: &mut Vec<u8>,
    volunteers: &[Volunteer],
    groups: &[&[usize]],
    place: usize,
    category: &Category,
) -> Result<(), AllocError>
    requires { GroupsAreBelow (length volunteers.now) (map (λ group. group.now) groups.now) }
    ensures { OnOk result (text.new.items ≡ text.old.items ++ text_of (value_lines volunteers.now (map (λ group. group.now) groups.now) place category.now)) }
{
    for (value_place, value) in category.values().iter().enumerate() {
        let numbers = numbers_with(alloc, volunteers, groups, place, value_place)?;
        push_quota(text, category.name(), value, &numbers)?;
    }
    Ok(())
}

/// Appends the line of a value with these numbers.
fn push_quota(
    text: &mut Vec<u8>,
    category: &Name,
    value: &BoundedValue,
    numbers: &[usize],
) -> Result<(), AllocError>
    ensures { OnOk result (text.new.items ≡ text.old.items ++ text_of (quota_line category.now value.now numbers.now ∷ [])) }
{
    text.extend_from_slice(b"quota")?;
    push_field(text, category.as_bytes())?;
    push_field(text, value.name().as_bytes())?;
    push_number(text, value.lower())?;
    push_number(text, value.upper())?;
    push_numbers(text, numbers)?;
    end_line(text)
}

/// Returns how many of each group have the value at `value_place` of the category at `place`.
fn numbers_with(
    alloc: Global,
    volunteers: &[Volunteer],
    groups: &[&[usize]],
    place: usize,
    value_place: usize,
) -> Result<Vec<usize>, AllocError>
    requires { GroupsAreBelow (length volunteers.now) (map (λ group. group.now) groups.now) }
    ensures { IfOk result (λ numbers. numbers.items ≡ numbers_of_groups volunteers.now (map (λ group. group.now) groups.now) place value_place) }
{
    let mut numbers = Vec::new(alloc);
    for group in groups {
        numbers.push(number_with(volunteers, group, place, value_place))?;
    }
    Ok(numbers)
}

/// Returns how many volunteers of `group` have the value at `value_place` of the category at `place`.
fn number_with(volunteers: &[Volunteer], group: &[usize], place: usize, value_place: usize) -> usize
    requires { AreBelow (length volunteers.now) group.now }
    ensures { result ≡ members_with volunteers.now group.now place value_place }
{
    let mut count = 0;
    for i in group {
        let volunteer = &volunteers[*i];
        if volunteer.values().get(place).copied().unwrap_or(0) == value_place {
            count += 1;
        }
    }
    count
}
