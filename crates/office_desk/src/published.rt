//! What is published of a round.

ghost use Rattle.std.specs.Prelude.{◌≡◌, length, map};
ghost use Rattle.define_desk.specs.Views.{last_published as published_last, published as published_so, published_of as published_with};
ghost use Rattle.define_offices.specs.Tables.{last_phase as phase_last};
ghost use Rattle.office_desk.specs.Shown.{IsSound, seen_published};

use bundle_text::Bundle;
use office_steps::pools::round_named;
use office_tables::{Phase, Round, Tables, Tickets};

/// What is published of a round: its bundle once it is sealed; once it is drawn, also the digits of the dice, and the number of
/// tickets that was kept with the seal, if one was.
#[derive(Clone, Copy)]
pub(crate) enum Published<'a> {
    Nothing,
    TheBundle(&'a Bundle),
    TheDraw(&'a Bundle, &'a Option<Tickets>, &'a [u8]),
}

/// Returns what is published of the round with a number, counted from 1. Nothing is published of a round that doesn't exist.
pub(crate) fn published_of(tables: &Tables, number: usize) -> Published<'_>
    ensures is { seen_published result ≡ published_with (map published_so tables.now.rounds) number }
    ensures sound { IsSound (seen_published result) }
{
    tables.facts();
    match round_named(tables, number) {
        Some(round) => published_in(round),
        None => Published::Nothing,
    }
}

/// Returns what is published of a round.
fn published_in(round: &Round) -> Published<'_>
    ensures { seen_published result ≡ published_so round.now }
{
    let Some(bundle) = round.bundle() else {
        return Published::Nothing;
    };
    match round.phase() {
        Phase::Sealed => Published::TheBundle(bundle),
        Phase::Drawn => Published::TheDraw(bundle, round.tickets(), round.digits()),
        Phase::Open | Phase::Solved => Published::Nothing,
    }
}

/// Returns what is published of the last round.
pub(crate) fn last_published(tables: &Tables) -> Published<'_>
    ensures is { seen_published result ≡ published_last (map published_so tables.now.rounds) }
    ensures sound { IsSound (seen_published result) }
{
    published_of(tables, tables.rounds().len())
}

/// Returns the phase of the last round.
pub(crate) fn last_phase(tables: &Tables) -> Phase
    ensures { result ≡ phase_last tables.now.rounds }
{
    match round_named(tables, tables.rounds().len()) {
        Some(round) => round.phase(),
        None => Phase::Open,
    }
}
