//! What the lines between the size and the end say, and how an entry is added to the pool.

ghost use Rattle.std.specs.Prelude.{◌≡◌, ◌<◌, ◌+◌, length, map, IfOk, IfSome, IsTrue, None, OnOk, Option, unwrap_or};
ghost use Rattle.define_pools.specs.Building.{household_kind as name_kind, household_set, ids, standing_set};
ghost use Rattle.define_pools.specs.Lists.{all_different};
ghost use Rattle.std.specs.Str.{IsUtf8, is_utf8};
ghost use Rattle.pool_text.specs.Answers.{Tells};
ghost use Rattle.define_bundles.specs.PoolReading.{Inside, line_kind, after_line, after_entry, ValueWord, StandingWord, entry_of_word, entry_of as entry_in, entry_kind as kind_in, number_of as number_in, bound_of as bound_in, awaits_household as awaits, awaits_volunteers as awaits_more, is_ahead as is_number_ahead};
ghost use Rattle.pool_text.specs.Ahead.{ahead};
ghost use Rattle.pool_text.specs.Entries.{said, IsText};
ghost use Rattle.pool_text.specs.Progress.{with_pool};

use crate::versions::{limits_in, may_house, must_house, must_pass};
use define_bundles::Passed;
use pool_model::{BuildStop, MAX_BOUND, Pool, Standing, Volunteer, household_kind};
use std::alloc::{AllocError, Global};
use std::str;
use text_lines::{fields, number_up_to};

/// What a field that spells no bound is read as.
const NO_BOUND: usize = 1000;

/// The kind of fault of a line that isn't allowed where it is.
pub(crate) const FORM: u8 = 1;

/// The kind of fault of a household or standing line, if no volunteer with its id comes after the volunteer of the last line of the same
/// sort.
const NOT_AHEAD: u8 = 9;

/// The kind of fault of a line that isn't UTF-8.
const NOT_UTF8: u8 = 11;

const CATEGORY: &[u8] = b"category";

const VALUE: &[u8] = b"value";

const VOLUNTEER: &[u8] = b"volunteer";

const HOUSEHOLD: &[u8] = b"household";

const SEATED: &[u8] = b"seated";

const GONE: &[u8] = b"gone";

const END: &[u8] = b"end";

/// What a line between the size and the end says, by its first field and its number of fields.
#[derive(Drop)]
pub(crate) enum Entry<'a> {
    Category(&'a [u8]),
    Value(&'a [u8], usize, usize),
    Volunteer(&'a [u8], &'a [&'a [u8]]),
    Household(&'a [u8], &'a [u8]),
    Standing(Standing, &'a [u8]),
    End,
    Unknown,
}

fn bound_of(field: &[u8]) -> usize
    ensures { result ≡ bound_in field.now }
{
    number_up_to(MAX_BOUND, field).unwrap_or(NO_BOUND)
}

fn entry_of<'a>(fields: &'a [&'a [u8]]) -> Entry<'a>
    ensures { said result ≡ entry_in (map (λ field. field.now) fields.now) }
{
    let Some((first, rest)) = fields.split_first() else {
        return Entry::Unknown;
    };
    let first = *first;
    if first == CATEGORY {
        match rest {
            [name] => Entry::Category(name),
            _ => Entry::Unknown,
        }
    } else if first == VALUE {
        value_entry(rest)
    } else if first == VOLUNTEER {
        match rest.split_first() {
            Some((id, values)) => Entry::Volunteer(id, values),
            None => Entry::Unknown,
        }
    } else if first == HOUSEHOLD {
        match rest {
            [id, name] => Entry::Household(id, name),
            _ => Entry::Unknown,
        }
    } else if first == SEATED {
        standing_entry(Standing::Seated, rest)
    } else if first == GONE {
        standing_entry(Standing::Gone, rest)
    } else if first == END && rest.is_empty() {
        Entry::End
    } else {
        Entry::Unknown
    }
}

fn value_entry<'a>(rest: &'a [&'a [u8]]) -> Entry<'a>
    ensures { said result ≡ entry_of_word ValueWord (map (λ field. field.now) rest.now) }
{
    if rest.len() != 3 {
        return Entry::Unknown;
    }
    Entry::Value(rest[0], bound_of(rest[1]), bound_of(rest[2]))
}

fn standing_entry<'a>(standing: Standing, rest: &'a [&'a [u8]]) -> Entry<'a>
    ensures { said result ≡ entry_of_word (StandingWord standing) (map (λ field. field.now) rest.now) }
{
    match rest {
        [id] => Entry::Standing(standing, id),
        _ => Entry::Unknown,
    }
}

/// Adds to the pool what a line says. `passed` is how far the lines before this one have come. Returns how far the lines have come after
/// this one, or None if this is the end line. A line with a fault changes nothing.
pub(crate) fn read_entry(
    alloc: Global,
    pool: &mut Pool,
    passed: Passed,
    line: &[u8],
) -> Result<Option<Passed>, BuildStop>
    ensures kind { Tells (line_kind (Inside pool.old passed) line.now) result }
    ensures ok { IfOk result (λ next. after_line (Inside pool.old passed) line.now ≡ with_pool pool.new next) }
{
    let fields = fields(alloc, line)?;
    let entry = entry_of(&fields);
    if let Some(kind) = entry_kind(pool, passed, &entry) {
        return Err(BuildStop::Kind(kind));
    }
    if !is_text(line) {
        return Err(BuildStop::Kind(NOT_UTF8));
    }
    Ok(add_entry(pool, passed, &entry)?)
}

fn is_text(line: &[u8]) -> bool
    ensures { result ≡ is_utf8 line.now }
{
    str::from_utf8(line).is_ok()
}

/// Returns the lowest kind of fault of an entry, or None if no kind applies.
fn entry_kind(pool: &Pool, passed: Passed, entry: &Entry<'_>) -> Option<u8>
    ensures { result ≡ kind_in pool.now passed (said entry.now) }
{
    match entry {
        Entry::Category(name) => pool.category_kind(name),
        Entry::Value(name, lower, upper) => pool.value_kind(name, *lower, *upper),
        Entry::Volunteer(_, _) if 0 < passed.households || 0 < passed.standings => Some(FORM),
        Entry::Volunteer(id, values) => {
            pool.volunteer_kind(limits_in(passed.version), id, values)
        }
        Entry::Household(_, _)
            if !may_house(passed.version)
                || 0 < passed.standings
                || awaits_volunteers(pool, passed) => { Some(FORM) }
        Entry::Household(id, _) if !is_ahead(pool, passed.households, id) => Some(NOT_AHEAD),
        Entry::Household(_, name) => household_kind(name),
        Entry::Standing(_, _) | Entry::End
            if awaits_household(passed) || awaits_volunteers(pool, passed) => { Some(FORM) }
        Entry::Standing(_, id) if !is_ahead(pool, passed.standings, id) => Some(NOT_AHEAD),
        Entry::Standing(_, _) | Entry::End => None,
        Entry::Unknown => Some(FORM),
    }
}

/// True if a household line must come before the end: in version 2, if there was none yet.
fn awaits_household(passed: Passed) -> bool
    ensures { result ≡ awaits passed }
{
    must_house(passed.version) && passed.households == 0
}

/// True if volunteers must come before any other line: in version 3, while the pool is within the usual limits.
fn awaits_volunteers(pool: &Pool, passed: Passed) -> bool
    ensures { result ≡ awaits_more pool.now passed }
{
    must_pass(passed.version) && pool.is_usual()
}

/// True if a volunteer has this id, and the volunteer's number is at least `passed`, which is how many volunteers the household lines, or
/// the standing lines, have passed.
#[tactic(auto, using(crate::proofs::NumberAhead::found_ahead))]
fn is_ahead(pool: &Pool, passed: usize, id: &[u8]) -> bool
    ensures { result ≡ is_number_ahead passed (number_in pool.now.volunteers id.now) }
{
    pool.facts();
    number_ahead(pool.volunteers(), passed, id).is_some()
}

/// Returns the number of the volunteer of this id, if there is one and the number is at least `passed`. The lines name volunteers in the
/// pool's order, so all lines of one sort together look at each volunteer about once.
#[tactic(auto, using(crate::proofs::NumberAhead::none_past, crate::proofs::NumberAhead::some_behind, crate::proofs::NumberAhead::none_found))]
fn number_ahead(volunteers: &[Volunteer], passed: usize, id: &[u8]) -> Option<usize>
    requires { IsTrue (all_different (ids volunteers.now)) }
    ensures value { result ≡ ahead passed (number_in volunteers.now id.now) }
    ensures inside { IfSome result (λ number. number < length volunteers.now) }
{
    if volunteers.len() < passed {
        return None;
    }
    match number_of(&volunteers[passed..], id) {
        Some(number) => Some(passed + number),
        None => None,
    }
}

/// Returns the number of the volunteer of this id, if there is one.
fn number_of(volunteers: &[Volunteer], id: &[u8]) -> Option<usize>
    ensures value { result ≡ number_in volunteers.now id.now }
    ensures inside { IfSome result (λ number. number < length volunteers.now) }
{
    volunteers
        .iter()
        .position(|volunteer| id == volunteer.id().as_bytes())
}

/// Adds to the pool an entry without a fault, whose new name or id is UTF-8. Returns what `read_entry` returns.
fn add_entry(
    pool: &mut Pool,
    passed: Passed,
    entry: &Entry<'_>,
) -> Result<Option<Passed>, AllocError>
    requires right { kind_in pool.old passed (said entry.now) ≡ None }
    requires text { IsText (said entry.now) }
    ensures ok { IfOk result (λ next. after_entry pool.old passed (said entry.now) ≡ with_pool pool.new next) }
{
    match entry {
        Entry::Category(name) => pool.add_right_category(text_of(name))?,
        Entry::Value(name, lower, upper) => pool.add_right_value(text_of(name), *lower, *upper)?,
        Entry::Volunteer(id, values) => pool.add_right_volunteer(text_of(id), values)?,
        Entry::Household(id, name) => {
            let households = add_household(pool, passed.households, id, text_of(name))?;
            return Ok(Some(Passed {
                households,
                ..passed
            }));
        }
        Entry::Standing(standing, id) => {
            let standings = add_standing(pool, passed.standings, *standing, id);
            return Ok(Some(Passed {
                standings,
                ..passed
            }));
        }
        Entry::End => return Ok(None),
        Entry::Unknown => {}
    }
    Ok(Some(passed))
}

/// Sets the standing of the volunteer of this id, whom no standing line has passed. Returns how many volunteers the standing lines have
/// then passed.
#[tactic(auto, using(crate::proofs::NumberAhead::same_number, crate::proofs::NumberAhead::not_none))]
fn add_standing(pool: &mut Pool, passed: usize, standing: Standing, id: &[u8]) -> usize
    requires { IsTrue (is_number_ahead passed (number_in pool.old.volunteers id.now)) }
    ensures set { pool.new ≡ standing_set pool.old (unwrap_or (number_in pool.old.volunteers id.now) 0) standing }
    ensures passed { result ≡ unwrap_or (number_in pool.old.volunteers id.now) 0 + 1 }
{
    pool.facts();
    match number_ahead(pool.volunteers(), passed, id) {
        Some(number) => {
            pool.set_standing(number, standing);
            number + 1
        }
        None => unreachable!(),
    }
}

/// Sets the household of the volunteer of this id, whom no household line has passed. Returns how many volunteers the household lines have
/// then passed.
#[tactic(auto, using(crate::proofs::NumberAhead::same_number, crate::proofs::NumberAhead::not_none))]
fn add_household(pool: &mut Pool, passed: usize, id: &[u8], name: &str) -> Result<usize, AllocError>
    requires found { IsTrue (is_number_ahead passed (number_in pool.old.volunteers id.now)) }
    requires right { name_kind name.now ≡ None }
    ensures set { OnOk result (pool.new ≡ household_set pool.old (unwrap_or (number_in pool.old.volunteers id.now) 0) name.now) }
    ensures passed { IfOk result (λ passed. passed ≡ unwrap_or (number_in pool.old.volunteers id.now) 0 + 1) }
{
    pool.facts();
    match number_ahead(pool.volunteers(), passed, id) {
        Some(number) => {
            pool.set_right_household(number, name)?;
            Ok(number + 1)
        }
        None => unreachable!(),
    }
}

fn text_of(field: &[u8]) -> &str
    requires { IsUtf8 field.now }
    ensures { result.now ≡ field.now }
{
    match str::from_utf8(field) {
        Ok(text) => text,
        Err(_) => unreachable!(),
    }
}
