//! The imports of charter, rules, and bounds of a round.

ghost use Rattle.std.specs.Prelude.{◌≡◌, ◌&&◌, ◌==◌, bytes_eq, codes, option_map, Ok};
ghost use Rattle.std.specs.List.{list_all, zip};
ghost use Rattle.define_pools.specs.Building.{value_names};
ghost use Rattle.define_offices.specs.Deciding.{are_rules_kept as rules_are_kept, bounds_in, bounds_over as bounds_with, decide_bounds, decide_charter, decide_rules, fit_rows as rows_fit, is_charter_kept as charter_is_kept, row_beyond as first_beyond};
ghost use Rattle.define_offices.specs.Tables.{named_round, same_names as are_same_names, same_rules as are_same_rules, same_shape as are_of_one_shape, same_values as are_same_values};
ghost use Rattle.define_offices.specs.Commands.{Refuses, RowDiffers};
ghost use Rattle.office_steps.specs.Steps.{Says, Stops};

use crate::lines::line;
use crate::named::{is_enrolling, last_phase, no_round};
use crate::pools::{PoolStop, pool_of, round_named};
use crate::replies::{Refusal, Reply};
use crate::stops::OfficeStop;
use office_tables::{Change, Charter, Entry, Phase, Round, Rules, Tables};
use pool_model::{BoundedValue, Category, Name, Pool};
use std::alloc::Global;

/// Returns the outcome of an import of the charter. For the charter that is kept already, the reply is `same`. A different charter is
/// refused unless volunteers are enrolled, that is, round 1 is the last one and open; and if the register has more rows than it takes under
/// this charter.
pub fn set_charter(
    alloc: Global,
    tables: &Tables,
    charter: &Charter,
) -> Result<(Option<Change>, Reply), OfficeStop>
    ensures { Says (decide_charter tables.now charter.now) result }
{
    if is_charter_kept(tables.charter(), charter) {
        return Ok((None, line(alloc, b"charter", &[b"same"])?));
    }
    if !is_enrolling(tables.rounds()) {
        return Err(OfficeStop::Refused(Refusal::WrongPhase {
            phase: last_phase(tables.rounds()),
        }));
    }
    match row_beyond(tables.register(), charter.volunteers()) {
        Some(entry) => {
            let what = entry.id().copy()?;
            Err(OfficeStop::Refused(Refusal::RowDiffers { what }))
        }
        None => {
            let change = Change::Charter(charter.copy()?);
            Ok((Some(change), line(alloc, b"charter", &[b"set"])?))
        }
    }
}

/// Returns the first row that a register of this many rows has no room for, if there is one.
fn row_beyond(register: &[Entry], rows: usize) -> Option<&Entry>
    ensures { option_map (λ entry. entry.now) result ≡ first_beyond register.now rows }
{
    register.get(rows)
}

/// True if `charter` is the one that is kept.
fn is_charter_kept(kept: &Option<Charter>, charter: &Charter) -> bool
    ensures { result ≡ charter_is_kept kept.now charter.now }
{
    match kept {
        Some(kept) => {
            kept.title().as_bytes() == charter.title().as_bytes()
                && kept.size() == charter.size()
                && kept.volunteers() == charter.volunteers()
        }
        None => false,
    }
}

/// Returns the outcome of an import of the rules. For the rules that are kept already, the reply is `same`. Different rules are refused
/// unless volunteers are enrolled, that is, round 1 is the last one and open. If the register has rows, they are also refused unless they
/// differ from the kept rules in bounds alone.
pub fn set_rules(
    alloc: Global,
    tables: &Tables,
    rules: &Rules,
) -> Result<(Option<Change>, Reply), OfficeStop>
    ensures { Says (decide_rules tables.now rules.now) result }
{
    if are_rules_kept(tables.rules(), rules) {
        return Ok((None, line(alloc, b"rules", &[b"same"])?));
    }
    if !is_enrolling(tables.rounds()) {
        return Err(OfficeStop::Refused(Refusal::WrongPhase {
            phase: last_phase(tables.rounds()),
        }));
    }
    if !fit_rows(tables.register(), tables.rules(), rules) {
        return Err(rules_differ(alloc));
    }
    let change = Change::Rules(rules.copy()?);
    Ok((Some(change), line(alloc, b"rules", &[b"set"])?))
}

/// Returns the outcome of bounds for round `number`. For those that the round's pool has, the reply is `same`. Others are refused unless the
/// round is open and they differ from the pool's in bounds alone.
pub fn set_bounds(
    alloc: Global,
    tables: &Tables,
    number: usize,
    bounds: &Rules,
) -> Result<(Option<Change>, Reply), OfficeStop>
    ensures { Says (decide_bounds tables.now number bounds.now) result }
{
    match pool_of(alloc, tables, number) {
        Ok(pool) => bounds_over(alloc, tables, number, &pool, bounds),
        Err(PoolStop::NoRound { last }) => Err(OfficeStop::Refused(Refusal::NoRound { last })),
        Err(PoolStop::Incomplete { what }) => {
            Err(OfficeStop::Refused(Refusal::Incomplete { what }))
        }
        Err(PoolStop::OutOfMemory) => Err(OfficeStop::OutOfMemory),
    }
}

/// Returns the outcome of bounds for round `number`, which has this pool.
fn bounds_over(
    alloc: Global,
    tables: &Tables,
    number: usize,
    pool: &Pool,
    bounds: &Rules,
) -> Result<(Option<Change>, Reply), OfficeStop>
    ensures { Says (bounds_with tables.now bounds.now (Ok pool.now) (named_round tables.now.rounds number)) result }
{
    let Some(round) = round_named(tables, number) else {
        return Err(OfficeStop::Refused(no_round(tables)));
    };
    if same_rules(pool.categories(), bounds.categories()) {
        return Ok((None, line(alloc, b"rules", &[b"same"])?));
    }
    new_bounds(alloc, pool, round, bounds)
}

/// Returns the outcome of new bounds for a round with this pool. They are refused unless the round is open and they differ from the pool's
/// in bounds alone.
fn new_bounds(
    alloc: Global,
    pool: &Pool,
    round: &Round,
    bounds: &Rules,
) -> Result<(Option<Change>, Reply), OfficeStop>
    ensures { Says (bounds_in pool.now bounds.now round.now) result }
{
    if round.phase() != Phase::Open {
        return Err(OfficeStop::Refused(Refusal::WrongPhase {
            phase: round.phase(),
        }));
    }
    if !same_shape(pool.categories(), bounds.categories()) {
        return Err(rules_differ(alloc));
    }
    let change = Change::Bounds(bounds.copy()?);
    Ok((Some(change), line(alloc, b"rules", &[b"set"])?))
}

/// Returns the refusal for rows and rules that don't fit each other.
pub(crate) fn rules_differ(alloc: Global) -> OfficeStop
    ensures { Stops (Refuses (RowDiffers (codes "rules"))) result }
{
    match Name::new(alloc, "rules") {
        Ok(what) => OfficeStop::Refused(Refusal::RowDiffers { what }),
        Err(_) => OfficeStop::OutOfMemory,
    }
}

/// True if `rules` are those that are kept.
fn are_rules_kept(kept: &Option<Rules>, rules: &Rules) -> bool
    ensures { result ≡ rules_are_kept kept.now rules.now }
{
    match kept {
        Some(kept) => same_rules(kept.categories(), rules.categories()),
        None => false,
    }
}

/// True if the register has no row, or if there are kept rules and `rules` differ from them in bounds alone.
fn fit_rows(register: &[Entry], kept: &Option<Rules>, rules: &Rules) -> bool
    ensures { result ≡ rows_fit register.now kept.now rules.now }
{
    if register.is_empty() {
        return true;
    }
    match kept {
        Some(kept) => same_shape(kept.categories(), rules.categories()),
        None => false,
    }
}

/// True if both lists have the same categories with the same bounds, in the same order.
fn same_rules(one: &[Category], other: &[Category]) -> bool
    ensures { result ≡ are_same_rules one.now other.now }
{
    one.len() == other.len() && rules_agree(one, other)
}

/// True if the categories at each place of both lists are the same.
fn rules_agree(one: &[Category], other: &[Category]) -> bool
    ensures { result ≡ list_all (λ pair. bytes_eq pair.0.name pair.1.name && are_same_values pair.0.values pair.1.values) (zip one.now other.now) }
{
    one.iter().zip(other).all(|(one, other)| {
        one.name().as_bytes() == other.name().as_bytes()
            && same_values(one.values(), other.values())
    })
}

/// True if both lists have the same values with the same bounds, in the same order.
fn same_values(one: &[BoundedValue], other: &[BoundedValue]) -> bool
    ensures { result ≡ are_same_values one.now other.now }
{
    one.len() == other.len() && values_agree(one, other)
}

/// True if the values at each place of both lists are the same.
fn values_agree(one: &[BoundedValue], other: &[BoundedValue]) -> bool
    ensures { result ≡ list_all (λ pair. bytes_eq pair.0.name pair.1.name && (pair.0.lower == pair.1.lower) && (pair.0.upper == pair.1.upper)) (zip one.now other.now) }
{
    one.iter().zip(other).all(|(one, other)| {
        one.name().as_bytes() == other.name().as_bytes()
            && one.lower() == other.lower()
            && one.upper() == other.upper()
    })
}

/// True if both lists have the same names of categories and values in the same order, whatever the bounds.
pub(crate) fn same_shape(one: &[Category], other: &[Category]) -> bool
    ensures { result ≡ are_of_one_shape one.now other.now }
{
    one.len() == other.len() && shapes_agree(one, other)
}

/// True if the names at each place of both lists are the same.
fn shapes_agree(one: &[Category], other: &[Category]) -> bool
    ensures { result ≡ list_all (λ pair. bytes_eq pair.0.name pair.1.name && are_same_names (value_names pair.0.values) (value_names pair.1.values)) (zip one.now other.now) }
{
    one.iter().zip(other).all(|(one, other)| {
        one.name().as_bytes() == other.name().as_bytes()
            && have_same_names(one.values(), other.values())
    })
}

/// True if the values of both lists have the same names, in the same order.
fn have_same_names(one: &[BoundedValue], other: &[BoundedValue]) -> bool
    ensures { result ≡ are_same_names (value_names one.now) (value_names other.now) }
{
    one.len() == other.len() && value_names_agree(one, other)
}

/// True if the values at each place of both lists have the same name.
fn value_names_agree(one: &[BoundedValue], other: &[BoundedValue]) -> bool
    ensures { result ≡ list_all (λ pair. bytes_eq pair.0.name pair.1.name) (zip one.now other.now) }
{
    one.iter().zip(other).all(|(one, other)| one.name().as_bytes() == other.name().as_bytes())
}
