//! The counts, part by part: categories with their values, volunteers, households, standings, rows and stages.

ghost use Rattle.std.specs.Prelude.{◌≡◌, ◌+◌, not, count_by, IfOk, is_some, length};
ghost use Rattle.std.specs.List.{flat_map};
ghost use Rattle.define_proofs.specs.Trees.{is_open};
ghost use Rattle.define_bundles.specs.BundleText.{lines_before_done, pool_lines};
ghost use Rattle.define_bundles.specs.PoolText.{category_lines};

use pool_model::{Answer, Category, Pool, Standing, Volunteer};
use std::alloc::AllocError;

/// Returns the number of the line that comes `count` lines after line `number`: their sum. It is out of memory if the sum does not fit a
/// `usize`, since a text with that many lines would not fit memory.
pub fn lines_after(number: usize, count: usize) -> Result<usize, AllocError>
    ensures { IfOk result (λ sum. sum ≡ number + count) }
{
    match number.checked_add(count) {
        Some(sum) => Ok(sum),
        None => Err(AllocError),
    }
}

/// Returns how many lines a bundle's text has before the last one, or out of memory if the count does not fit a `usize`.
pub fn bundle_line_count(pool: &Pool, answer: &Answer) -> Result<usize, AllocError>
    ensures { IfOk result (λ count. count ≡ length (lines_before_done pool.now answer.now)) }
{
    let rows = answer.lottery().rows().len();
    let stages = answer.certificate().stages().len();
    let before = pool_line_count(pool)?;
    // The 2 further lines are the bundle's first, and the line of the total.
    let with_total = lines_after(before, 2)?;
    lines_after(lines_after(with_total, rows)?, stages)
}

/// Returns how many lines a pool's text has, or out of memory if the count does not fit a `usize`.
pub fn pool_line_count(pool: &Pool) -> Result<usize, AllocError>
    ensures { IfOk result (λ count. count ≡ length (pool_lines pool.now)) }
{
    let volunteers = pool.volunteers();
    let categories = category_line_count(pool.categories())?;
    // The 3 further lines are the pool's first two, and its last.
    let with_volunteers = lines_after(lines_after(categories, 3)?, volunteers.len())?;
    let with_households = lines_after(with_volunteers, household_count(volunteers))?;
    lines_after(with_households, decided_count(volunteers))
}

/// Returns how many lines categories and their values have.
fn category_line_count(categories: &[Category]) -> Result<usize, AllocError>
    ensures { IfOk result (λ count. count ≡ length (flat_map category_lines categories.now)) }
{
    let mut count = 0;
    for category in categories {
        count = lines_after(lines_after(count, category.values().len())?, 1)?;
    }
    Ok(count)
}

/// Returns how many volunteers have a household.
fn household_count(volunteers: &[Volunteer]) -> usize
    ensures { result ≡ count_by (λ volunteer. is_some volunteer.household) volunteers.now }
{
    volunteers
        .iter()
        .filter(|volunteer| has_household(volunteer))
        .count()
}

/// True if a volunteer has a household.
fn has_household(volunteer: &Volunteer) -> bool
    ensures { result ≡ is_some volunteer.now.household }
{
    volunteer.household().is_some()
}

/// Returns how many volunteers are seated or gone.
fn decided_count(volunteers: &[Volunteer]) -> usize
    ensures { result ≡ count_by (λ volunteer. not (is_open volunteer.standing)) volunteers.now }
{
    volunteers
        .iter()
        .filter(|volunteer| is_decided(volunteer.standing()))
        .count()
}

/// True unless the standing is open.
fn is_decided(standing: Standing) -> bool
    ensures { result ≡ not (is_open standing) }
{
    match standing {
        Standing::Open => false,
        Standing::Seated | Standing::Gone => true,
    }
}
