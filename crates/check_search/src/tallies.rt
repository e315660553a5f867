//! Counts how many members have each value, in 50 places for each category, and tests which further counts the bounds allow. A helper of
//! `tally`.

ghost use Rattle.std.specs.Prelude.{◌≡◌, ℕ, List, true, false, ◌≤◌, ◌<◌, ◌+◌, ◌^◌, length};
ghost use Rattle.define_searches.specs.Tallies.{HaveCells, CanGive, AreAtMost, HasMore, HaveBounds, AllReach, FitCells, EachReaches, SomeFails, within_reach};
ghost use Rattle.check_search.specs.Tallies.{OneFails};

use crate::groups::ValueBounds;
use define_searches::Bounds;

// How many places each category has.
pub(crate) const PLACES: usize = 50;

// Adds `count` to the counter of each value in `values`. A search often tries the count 0, which changes nothing.
pub(crate) fn add_to(cells: &mut [usize], values: &[usize], count: usize)
    requires cells { HaveCells values.now cells.old }
    requires small { AreAtMost 1000000 (length values.now) cells.old }
    requires count { count ≤ 1000000 }
    ensures { HasMore values.now count cells.old cells.new }
{
    if count == 0 {
        return;
    }
    for (category, value) in values.iter().enumerate() {
        cells[PLACES * category + value] += count;
    }
}

// Subtracts `count` from the counter of each value in `values`.
pub(crate) fn take_from(cells: &mut [usize], values: &[usize], count: usize)
    requires cells { HaveCells values.now cells.old }
    requires enough { CanGive values.now cells.old count }
    ensures { HasMore values.now count cells.new cells.old }
{
    if count == 0 {
        return;
    }
    for (category, value) in values.iter().enumerate() {
        cells[PLACES * category + value] -= count;
    }
}

// True if the bounds of each value in `values` can still be met after `count` more members with these values are taken: the value's number
// is then at most its upper bound, and with the members that `later` has for the value it reaches its lower bound.
pub(crate) fn values_allow(
    bounds: &[ValueBounds],
    held: &[usize],
    later: &[usize],
    values: &[usize],
    count: usize,
) -> bool
    requires bounds { HaveBounds bounds.now values.now }
    requires held { HaveCells values.now held.now }
    requires later { HaveCells values.now later.now }
    requires small { AreAtMost 1000000 (length values.now) held.now }
    requires small_later { AreAtMost 1000000 (length values.now) later.now }
    requires count { count ≤ 1000000 }
    ensures allowed { result ≡ true → AllReach bounds.now held.now later.now values.now count }
    ensures refused { result ≡ false → OneFails bounds.now held.now later.now values.now count }
{
    for (category, value) in values.iter().enumerate() {
        let place = PLACES * category + value;
        let bound = bounds[category].as_slice()[*value];
        if !is_within_reach(bound, held[place] + count, later[place]) {
            return false;
        }
    }
    true
}

// Returns the greatest count, at most `most`, that the upper bounds of `values` allow. With more, up to `most`, some value exceeds its
// bound.
pub(crate) fn room_left(
    bounds: &[ValueBounds],
    held: &[usize],
    values: &[usize],
    most: usize,
) -> usize
    requires bounds { HaveBounds bounds.now values.now }
    requires held { HaveCells values.now held.now }
    ensures within { result ≤ most }
    ensures passed { (count : ℕ) (later : List ℕ) → result < count → count ≤ most → OneFails bounds.now held.now later values.now count }
{
    let mut room = most;
    for (category, value) in values.iter().enumerate() {
        let bound = bounds[category].as_slice()[*value];
        room = room.min(bound.upper.saturating_sub(held[PLACES * category + value]));
    }
    room
}

// Returns the least count, at least `least`, that the lower bounds of `values` need. With fewer, down to `least`, some value can't reach
// its bound.
pub(crate) fn number_needed(
    bounds: &[ValueBounds],
    held: &[usize],
    later: &[usize],
    values: &[usize],
    least: usize,
) -> usize
    requires bounds { HaveBounds bounds.now values.now }
    requires held { HaveCells values.now held.now }
    requires later { HaveCells values.now later.now }
    requires small { AreAtMost 1000000 (length values.now) held.now }
    requires small_later { AreAtMost 1000000 (length values.now) later.now }
    ensures within { least ≤ result }
    ensures lacking { (count : ℕ) → count < result → least ≤ count → OneFails bounds.now held.now later.now values.now count }
{
    let mut needed = least;
    for (category, value) in values.iter().enumerate() {
        let place = PLACES * category + value;
        let bound = bounds[category].as_slice()[*value];
        needed = needed.max(bound.lower.saturating_sub(held[place] + later[place]));
    }
    needed
}

// True if each value's number in `held` is at most its upper bound, and with its number in `later` added reaches its lower bound.
pub(crate) fn all_within_reach(bounds: &[ValueBounds], held: &[usize], later: &[usize]) -> bool
    requires held { FitCells bounds.now held.now }
    requires later { FitCells bounds.now later.now }
    requires small { AreAtMost 1000000 (length bounds.now) held.now }
    requires small_later { AreAtMost 1000000 (length bounds.now) later.now }
    ensures all { result ≡ true → EachReaches bounds.now held.now later.now }
    ensures some { result ≡ false → SomeFails bounds.now held.now later.now }
{
    for (category, values) in bounds.iter().enumerate() {
        for (value, bound) in values.as_slice().iter().enumerate() {
            let place = PLACES * category + value;
            if !is_within_reach(*bound, held[place], later[place]) {
                return false;
            }
        }
    }
    true
}

// True if `number ≤ upper` and `lower ≤ number + more`.
pub(crate) fn is_within_reach(bound: Bounds, number: usize, more: usize) -> bool
    requires { number + more < 2 ^ 64 }
    ensures { result ≡ within_reach bound number more }
{
    number <= bound.upper && bound.lower <= number + more
}
