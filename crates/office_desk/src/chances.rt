//! What is published of one volunteer: the chance, and whether the panel has the volunteer.

ghost use Rattle.std.specs.Prelude.{◌≡◌, ◌<◌, ◌≤◌, ◌<ℤ◌, ◌≤ℤ◌, length, option_map, pos, string_bytes, unsigned_abs, IfOk, IfSome};
ghost use Rattle.frac128.specs.Fractions.{fraction_text as text_of_fraction, lowest_of};
ghost use Rattle.define_pools.specs.Lists.{includes_list};
ghost use Rattle.define_pools.specs.Lottery.{TotalAgrees};
ghost use Rattle.define_offices.specs.Deciding.{drawn_ids};
ghost use Rattle.define_desk.specs.Desk.{chance_in as text_in, chance_of as text_of_chance, chance_text as text_of_count, is_drawn as drawn_so, number_of as number_with};
ghost use Rattle.office_desk.specs.Shown.{CanBeDrawn, IsSound, seen_published};

use crate::published::Published;
use bundle_text::Bundle;
use frac128::lowest;
use office_tables::{Tickets, drawn_by, is_member};
use pool_model::{Lottery, Name, Pool, Volunteer, chances};
use std::alloc::{AllocError, Global};

/// Returns the chance of the volunteer with this id, in lowest terms; or None if no bundle is published, or no volunteer of the bundle's
/// pool has the id.
pub(crate) fn chance_of(
    alloc: Global,
    published: &Published<'_>,
    id: &Name,
) -> Result<Option<String>, AllocError>
    requires { IsSound (seen_published published.now) }
    ensures { IfOk result (λ chance. option_map (λ text. string_bytes text) chance ≡ text_of_chance (seen_published published.now) id.now) }
{
    match published {
        Published::Nothing => Ok(None),
        Published::TheBundle(bundle) => chance_in(alloc, bundle, id),
        Published::TheDraw(bundle, _, _) => chance_in(alloc, bundle, id),
    }
}

fn chance_in(alloc: Global, bundle: &Bundle, id: &Name) -> Result<Option<String>, AllocError>
    requires { TotalAgrees bundle.now.answer.lottery }
    ensures { IfOk result (λ chance. option_map (λ text. string_bytes text) chance ≡ text_in bundle.now id.now) }
{
    match number_of(bundle.pool().volunteers(), id.as_bytes()) {
        Some(number) => Ok(Some(chance_text(alloc, bundle, number)?)),
        None => Ok(None),
    }
}

/// Returns the number of the volunteer with this id, if there is one.
fn number_of(volunteers: &[Volunteer], id: &[u8]) -> Option<usize>
    ensures is { result ≡ number_with id.now volunteers.now 0 }
    ensures below { IfSome result (λ number. number < length volunteers.now) }
{
    for (number, volunteer) in volunteers.iter().enumerate() {
        if id == volunteer.id().as_bytes() {
            return Some(number);
        }
    }
    None
}

/// Returns the chance of the volunteer with this number in lowest terms.
fn chance_text(alloc: Global, bundle: &Bundle, number: usize) -> Result<String, AllocError>
    requires agrees { TotalAgrees bundle.now.answer.lottery }
    requires below { number < length bundle.now.pool.volunteers }
    ensures { IfOk result (λ text. string_bytes text ≡ text_of_count bundle.now.answer.lottery number) }
{
    bundle.facts();
    count_text(alloc, bundle.pool(), bundle.answer().lottery(), number)
}

/// Returns the chance over a lottery, in lowest terms, of the volunteer with this number.
fn count_text(
    alloc: Global,
    pool: &Pool,
    lottery: &Lottery,
    number: usize,
) -> Result<String, AllocError>
    requires agrees { TotalAgrees lottery.now }
    requires total { 1 ≤ lottery.now.total }
    requires below { number < length pool.now.volunteers }
    ensures { IfOk result (λ text. string_bytes text ≡ text_of_count lottery.now number) }
{
    let counts = chances(alloc, pool, lottery)?;
    fraction_text(alloc, counts[number], lottery.total())
}

/// Returns the fraction of a count of at least 0 over a total of at least 1, in lowest terms.
fn fraction_text(alloc: Global, count: i128, total: i128) -> Result<String, AllocError>
    requires count { pos 0 ≤ℤ count }
    requires total { pos 0 <ℤ total }
    ensures { IfOk result (λ text. string_bytes text ≡ text_of_fraction (lowest_of (unsigned_abs count) (unsigned_abs total))) }
{
    format!(in alloc; "{}", lowest(count, total))
}

/// Returns whether the volunteer with this id was drawn, or None if no draw is published.
pub(crate) fn is_drawn(
    alloc: Global,
    published: &Published<'_>,
    id: &Name,
) -> Result<Option<bool>, AllocError>
    requires { IsSound (seen_published published.now) }
    ensures { IfOk result (λ drawn. drawn ≡ drawn_so (seen_published published.now) id.now) }
{
    match published {
        Published::Nothing => Ok(None),
        Published::TheBundle(_) => Ok(None),
        Published::TheDraw(bundle, tickets, digits) => {
            Ok(Some(is_in_panel(alloc, bundle, tickets, digits, id)?))
        }
    }
}

fn is_in_panel(
    alloc: Global,
    bundle: &Bundle,
    tickets: &Option<Tickets>,
    digits: &[u8],
    id: &Name,
) -> Result<bool, AllocError>
    requires { CanBeDrawn bundle.now tickets.now digits.now }
    ensures { IfOk result (λ is. is ≡ includes_list (drawn_ids bundle.now tickets.now digits.now) id.now) }
{
    match drawn_by(alloc, bundle, tickets, digits)? {
        Some(drawn) => Ok(is_member(bundle.pool(), &drawn.panel, id)),
        None => unreachable!(),
    }
}
