//! The text of a conflict: a line for each quota, then by how many people the quotas are missed, and then whether each is needed.

ghost use Rattle.std.specs.Prelude.{◌≡◌, ◌<◌, ◌&&◌, ◌++◌, length, IfOk, OnOk};
ghost use Rattle.std.specs.Fmt.{decimal};
ghost use Rattle.define_pools.specs.Pool.{volunteer};
ghost use Rattle.define_quotas.specs.ConflictText.{available as available_of, is_available as is_available_one, is_seated as is_seated_one, conflict_text as words_of_conflict, counted_words, miss_line, need_line, quota_line, seated as seated_of, side_words};
ghost use Rattle.define_quotas.specs.Quotas.{is_counted as counts_of};

use crate::checks::Conflict;
use crate::quotas::{bound, counts};
use define_quotas::{Counted, Quota, Side};
use itoa::Buffer;
use pool_model::{Pool, Standing};
use std::alloc::{AllocError, Global};

/// Returns the text of a conflict of a pool's quotas.
pub fn conflict_text(alloc: Global, pool: &Pool, conflict: &Conflict) -> Result<Vec<u8>, AllocError>
    ensures { IfOk result (λ text. text.items ≡ words_of_conflict pool.now conflict.now) }
{
    let mut text = Vec::new(alloc);
    for quota in conflict.quotas() {
        push_quota(&mut text, pool, *quota)?;
    }
    push_miss(&mut text, conflict.least_miss())?;
    push_need(&mut text, conflict.is_each_needed())?;
    Ok(text)
}

fn push_number(text: &mut Vec<u8>, number: usize) -> Result<(), AllocError>
    ensures { OnOk result (text.new.items ≡ text.old.items ++ decimal number) }
{
    let mut digits = Buffer::new();
    text.extend_from_slice(digits.format(number).as_bytes())
}

/// Adds the line of a quota.
fn push_quota(text: &mut Vec<u8>, pool: &Pool, quota: Quota) -> Result<(), AllocError>
    ensures { OnOk result (text.new.items ≡ text.old.items ++ quota_line pool.now quota) }
{
    push_counted(text, pool, quota.counted)?;
    push_side(text, quota.side)?;
    push_number(text, bound(pool, quota))?;
    text.extend_from_slice(b"; ")?;
    push_number(text, available(pool, quota.counted))?;
    text.extend_from_slice(b" available, ")?;
    push_number(text, seated(pool, quota.counted))?;
    text.extend_from_slice(b" of them seated\n")
}

/// Adds whom a quota counts, in words.
fn push_counted(text: &mut Vec<u8>, pool: &Pool, counted: Counted) -> Result<(), AllocError>
    ensures { OnOk result (text.new.items ≡ text.old.items ++ counted_words pool.now counted) }
{
    match counted {
        Counted::Everybody => text.extend_from_slice(b"the size"),
        Counted::WithValue(category, value) => push_value(text, pool, category, value),
        Counted::OfHousehold(member) => push_household(text, pool, member),
    }
}

fn push_value(
    text: &mut Vec<u8>,
    pool: &Pool,
    category: usize,
    value: usize,
) -> Result<(), AllocError>
    ensures { OnOk result (text.new.items ≡ text.old.items ++ counted_words pool.now (Counted.WithValue category value)) }
{
    if let Some(category) = pool.categories().get(category) {
        text.extend_from_slice(category.name().as_bytes())?;
        text.push(b' ')?;
        if let Some(value) = category.values().get(value) {
            text.extend_from_slice(value.name().as_bytes())?;
        }
        return Ok(());
    }
    text.push(b' ')?;
    Ok(())
}

fn push_household(text: &mut Vec<u8>, pool: &Pool, member: usize) -> Result<(), AllocError>
    ensures { OnOk result (text.new.items ≡ text.old.items ++ counted_words pool.now (Counted.OfHousehold member)) }
{
    text.extend_from_slice(b"household ")?;
    if let Some(volunteer) = pool.volunteers().get(member) {
        if let Some(name) = volunteer.household() {
            text.extend_from_slice(name.as_bytes())?;
        }
    }
    Ok(())
}

fn push_side(text: &mut Vec<u8>, side: Side) -> Result<(), AllocError>
    ensures { OnOk result (text.new.items ≡ text.old.items ++ side_words side) }
{
    match side {
        Side::AtLeast => text.extend_from_slice(b": at least "),
        Side::AtMost => text.extend_from_slice(b": at most "),
    }
}

/// Returns how many of the volunteers whom a quota counts aren't gone.
fn available(pool: &Pool, counted: Counted) -> usize
    ensures { result ≡ available_of pool.now counted }
{
    let mut number = 0;
    for i in 0..pool.volunteers().len() {
        if is_counted_available(pool, counted, i) {
            number += 1;
        }
    }
    number
}

/// Returns how many of the volunteers whom a quota counts are seated.
fn seated(pool: &Pool, counted: Counted) -> usize
    ensures { result ≡ seated_of pool.now counted }
{
    let mut number = 0;
    for i in 0..pool.volunteers().len() {
        if is_counted_seated(pool, counted, i) {
            number += 1;
        }
    }
    number
}

/// True if a quota counts volunteer `i` and the volunteer isn't gone.
fn is_counted_available(pool: &Pool, counted: Counted, i: usize) -> bool
    requires { i < length pool.now.volunteers }
    ensures { result ≡ (counts_of pool.now counted i && is_available_one (volunteer pool.now.volunteers i).standing) }
{
    counts(pool, counted, i) && is_available(pool.volunteers()[i].standing())
}

/// True if a quota counts volunteer `i` and the volunteer is seated.
fn is_counted_seated(pool: &Pool, counted: Counted, i: usize) -> bool
    requires { i < length pool.now.volunteers }
    ensures { result ≡ (counts_of pool.now counted i && is_seated_one (volunteer pool.now.volunteers i).standing) }
{
    counts(pool, counted, i) && is_seated(pool.volunteers()[i].standing())
}

fn is_available(standing: Standing) -> bool
    ensures { result ≡ is_available_one standing }
{
    match standing {
        Standing::Open | Standing::Seated => true,
        Standing::Gone => false,
    }
}

fn is_seated(standing: Standing) -> bool
    ensures { result ≡ is_seated_one standing }
{
    match standing {
        Standing::Seated => true,
        Standing::Open | Standing::Gone => false,
    }
}

/// Adds the line that says by how many people the quotas are missed at least; if that isn't known, only that no panel of whole people
/// meets them together.
fn push_miss(text: &mut Vec<u8>, least_miss: Option<usize>) -> Result<(), AllocError>
    ensures { OnOk result (text.new.items ≡ text.old.items ++ miss_line least_miss) }
{
    match least_miss {
        Some(least) => {
            text.extend_from_slice(b"these together miss by at least ")?;
            push_number(text, least)?;
            text.push(b'\n')?;
            Ok(())
        }
        None => text.extend_from_slice(b"no panel of whole people meets these together\n"),
    }
}

/// Adds the line that says whether each quota is needed.
fn push_need(text: &mut Vec<u8>, is_each_needed: bool) -> Result<(), AllocError>
    ensures { OnOk result (text.new.items ≡ text.old.items ++ need_line is_each_needed) }
{
    if is_each_needed {
        text.extend_from_slice(b"each is needed: without it the others can be met\n")
    } else {
        text.extend_from_slice(b"perhaps not each of them is needed\n")
    }
}
