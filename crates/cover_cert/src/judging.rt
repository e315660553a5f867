//! The judging of a front: whether a cause applies to it. A tally is brought to the front and back to the empty front.

ghost use Rattle.std.specs.Prelude.{◌≡◌, ◌+◌, ◌-◌, ◌≤◌, ◌<◌, [], drop, length, int_le};
ghost use Rattle.check_search.specs.Front.{Tracks};
ghost use Rattle.check_search.specs.Terms.{AreTerms};
ghost use Rattle.cover_text.specs.Causes.{seen_cause};
ghost use Rattle.define_covers.specs.Causes.{applies, closed_fails as fails_closed, value_fails as fails_value};
ghost use Rattle.define_searches.specs.Fronts.{optimistic, taken_by};
ghost use Rattle.define_searches.specs.Front.{AreWithin};

use crate::steps::Steps;
use check_search::{Classes, Tally, Terms, optimistic_weight};
use cover_text::Cause;
use std::sync::ledger::Ledger;

/// Judges a front, which takes one step: true if the cause applies to it.
pub(crate) fn judge<L: Ledger>(
    terms: &Terms,
    tally: &mut Tally,
    front: &[usize],
    cause: Cause,
    steps: &mut Steps<L>,
) -> bool
    requires terms { AreTerms terms.now }
    requires fits { length front.now ≤ length terms.now.classes.classes }
    requires within { AreWithin terms.now.classes front.now }
    requires begins { Tracks terms.now.classes [] terms.now.classes.classes tally.old }
    ensures value { result ≡ applies terms.now.classes terms.now.closed.items terms.now.row front.now (seen_cause cause) }
    ensures again { Tracks terms.now.classes [] terms.now.classes.classes tally.new }
    ensures step { steps.new ≡ steps.old + 1 }
{
    steps.tick();
    let classes = &terms.classes;
    go_to(classes, tally, front);
    let holds = does_apply(terms, tally, front, cause);
    go_back(classes, tally, front);
    holds
}

/// Brings a tally from the empty front to a front.
pub(crate) fn go_to(classes: &Classes, tally: &mut Tally, front: &[usize])
    requires fits { length front.now ≤ length classes.now.classes }
    requires within { AreWithin classes.now front.now }
    requires begins { Tracks classes.now [] classes.now.classes tally.old }
    ensures { Tracks classes.now front.now (drop (length front.now) classes.now.classes) tally.new }
{
    classes.facts();
    for place in 0..front.len() {
        let before = &front[..place];
        tally.begin_class(classes, before);
        tally.take(classes, before, front[place]);
    }
}

/// Brings a tally from a front back to the empty front.
pub(crate) fn go_back(classes: &Classes, tally: &mut Tally, front: &[usize])
    requires fits { length front.now ≤ length classes.now.classes }
    requires stands { Tracks classes.now front.now (drop (length front.now) classes.now.classes) tally.old }
    ensures { Tracks classes.now [] classes.now.classes tally.new }
{
    for done in 0..front.len() {
        let place = front.len() - 1 - done;
        let before = &front[..place];
        tally.give_back(classes, before, front[place]);
        tally.end_class(classes, before);
    }
}

/// True if the cause applies to the front of the tally.
pub(crate) fn does_apply(terms: &Terms, tally: &Tally, front: &[usize], cause: Cause) -> bool
    requires terms { AreTerms terms.now }
    requires fits { length front.now ≤ length terms.now.classes.classes }
    requires within { AreWithin terms.now.classes front.now }
    requires stands { Tracks terms.now.classes front.now (drop (length front.now) terms.now.classes.classes) tally.now }
    ensures { result ≡ applies terms.now.classes terms.now.closed.items terms.now.row front.now (seen_cause cause) }
{
    let classes = &terms.classes;
    classes.facts();
    match cause {
        Cause::Size => !tally.reaches_size(classes, front),
        Cause::Value(number) => value_fails(classes, tally, front, number),
        Cause::Household => !tally.takes_one_a_household(classes, front),
        Cause::Closed(number) => {
            let lack = tally.front_lack(classes, front);
            tally.reaches_size(classes, front) && closed_fails(terms, front, lack, number)
        }
        Cause::Cap => {
            let lack = tally.front_lack(classes, front);
            tally.reaches_size(classes, front) && is_within_cap(terms, front, lack)
        }
    }
}

/// True if there is a value with this number, counted from 1 over all categories, and the front can't keep its bounds.
fn value_fails(classes: &Classes, tally: &Tally, front: &[usize], number: usize) -> bool
    requires fits { length front.now ≤ length classes.now.classes }
    requires within { AreWithin classes.now front.now }
    requires stands { Tracks classes.now front.now (drop (length front.now) classes.now.classes) tally.now }
    ensures { result ≡ fails_value classes.now front.now number }
{
    if number == 0 {
        return false;
    }
    classes.facts();
    let mut place = number - 1;
    for category in 0..classes.bounds().len() {
        let count = classes.bounds()[category].as_slice().len();
        if place < count {
            return !tally.reaches_value(classes, front, category, place);
        }
        place -= count;
    }
    false
}

/// True if there is an earlier stage with this number, counted from 1, and the front can't attain its cap.
fn closed_fails(terms: &Terms, front: &[usize], lack: usize, number: usize) -> bool
    requires terms { AreTerms terms.now }
    requires fits { length front.now ≤ length terms.now.classes.classes }
    requires within { AreWithin terms.now.classes front.now }
    requires lack { lack ≡ terms.now.classes.size - taken_by terms.now.classes front.now }
    ensures { result ≡ fails_closed terms.now.classes terms.now.closed.items front.now number }
{
    let stages = terms.closed.len();
    if number == 0 || stages < number {
        return false;
    }
    let place = stages - number;
    let row = &terms.closed[place];
    optimistic_weight(&terms.closed_sums[place], &terms.classes, row, front, lack) < row.side()
}

/// True if the front can't exceed the cap.
fn is_within_cap(terms: &Terms, front: &[usize], lack: usize) -> bool
    requires terms { AreTerms terms.now }
    requires fits { length front.now ≤ length terms.now.classes.classes }
    requires within { AreWithin terms.now.classes front.now }
    requires lack { lack ≡ terms.now.classes.size - taken_by terms.now.classes front.now }
    ensures { result ≡ int_le (optimistic terms.now.classes terms.now.row front.now) terms.now.row.b }
{
    let row = &terms.row;
    optimistic_weight(&terms.sums, &terms.classes, row, front, lack) <= row.side()
}
