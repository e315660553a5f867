//! The page `/me/seat`: the rounds of which a volunteer dropped out, and whether the volunteer is seated.

ghost use Rattle.std.specs.Prelude.{◌≡◌, map, IfOk, string_bytes};
ghost use Rattle.serde_json.specs.View.{view};
ghost use Rattle.define_pools.specs.Lists.{includes, includes_list};
ghost use Rattle.define_desk.specs.Desk.{keeps_seat as is_kept, seat_body as body_of_seat};
ghost use Rattle.define_desk.specs.Views.{dropped_from, dropped_of, published as published_so};
ghost use Rattle.office_desk.specs.Bodies.{number_data};
ghost use Rattle.office_desk.specs.Shown.{own_in, shown_to};

use crate::bodies::seat_body;
use crate::chances::is_drawn;
use crate::published::published_of;
use office_steps::pools::round_named;
use office_tables::{Entry, Round, Tables};
use pool_model::Name;
use serde_json::Value;
use std::alloc::{AllocError, Global};

/// Returns the body for the seat of the volunteer with this row.
pub(crate) fn seat_of(alloc: Global, tables: &Tables, entry: &Entry) -> Result<String, AllocError>
    ensures { IfOk result (λ body. string_bytes body ≡ body_of_seat (shown_to tables.now entry.now) (own_in tables.now entry.now)) }
{
    let before = tables.rounds().len().saturating_sub(1);
    let seated = keeps_seat(alloc, tables, entry, before)?;
    let dropped = dropped_rounds(alloc, tables.rounds(), entry.id())?;
    seat_body(alloc, dropped, entry.id().as_str(), seated)
}

/// Returns whether the round with this number drew the volunteer with this row, who didn't drop out of it.
fn keeps_seat(
    alloc: Global,
    tables: &Tables,
    entry: &Entry,
    number: usize,
) -> Result<bool, AllocError>
    ensures { IfOk result (λ keeps. keeps ≡ is_kept (map published_so tables.now.rounds) (own_in tables.now entry.now) number) }
{
    let drawn = is_drawn(alloc, &published_of(tables, number), entry.id())?;
    let left = has_left(tables, entry.id(), number);
    Ok(drawn.unwrap_or(false) && !left)
}

/// True if the volunteer with this id dropped out of the round with this number, counted from 1.
fn has_left(tables: &Tables, id: &Name, number: usize) -> bool
    ensures { result ≡ includes (dropped_from id.now tables.now.rounds 1) number }
{
    match round_named(tables, number) {
        Some(round) => has_dropped(round, id),
        None => false,
    }
}

/// Returns the numbers of the rounds of which the volunteer with this id dropped out, as values of JSON.
fn dropped_rounds(alloc: Global, rounds: &[Round], id: &Name) -> Result<Vec<Value>, AllocError>
    ensures { IfOk result (λ values. map view values.items ≡ map number_data (dropped_from id.now rounds.now 1)) }
{
    let mut numbers = Vec::new(alloc);
    for (place, round) in rounds.iter().enumerate() {
        if has_dropped(round, id) {
            numbers.push(Value::from(place + 1))?;
        }
    }
    Ok(numbers)
}

/// True if the volunteer with this id dropped out of the round.
fn has_dropped(round: &Round, id: &Name) -> bool
    ensures { result ≡ includes_list (dropped_of round.now) id.now }
{
    round
        .dropped()
        .iter()
        .any(|name| id.as_bytes() == name.as_bytes())
}
