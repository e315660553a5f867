//! Counts how many members have each value, in 50 places for each category, and tests which further counts the bounds allow. A helper of
//! `tally`.

ghost use Rattle.std.specs.Prelude.{◌≡◌, ℕ, true, false, ◌≤◌, ◌<◌, ◌+◌, ◌^◌, [], length, slice_index_or};
ghost use Rattle.define_searches.specs.Tallies.{HaveCells, CanGive, AreAtMost, HasMore, HaveBounds, AllReach, FitCells, HasBound, EachReaches, SomeFails, within_reach};
ghost use Rattle.panel_search.specs.Tallies.{AreSmallBounds};

use alike::{Bounds, ValueBounds};

// How many places each category has.
pub(crate) const PLACES: usize = 50;

// Adds `count` to the counter of each category's value. A search often tries the count 0, which changes nothing.
pub(crate) fn add_to(cells: &mut [usize], values: &[usize], count: usize)
    requires cells { HaveCells values.now cells.old }
    requires small { AreAtMost 1000000 (length values.now) cells.old }
    requires count { count ≤ 1000000 }
    ensures { HasMore values.now count cells.old cells.new }
{
    if count == 0 {
        return;
    }
    for (category, value) in values.iter().enumerate() {
        cells[PLACES * category + value] += count;
    }
}

// Takes `count` from the counter of each category's value.
pub(crate) fn take_from(cells: &mut [usize], values: &[usize], count: usize)
    requires cells { HaveCells values.now cells.old }
    requires enough { CanGive values.now cells.old count }
    ensures { HasMore values.now count cells.new cells.old }
{
    if count == 0 {
        return;
    }
    for (category, value) in values.iter().enumerate() {
        cells[PLACES * category + value] -= count;
    }
}

// Returns `(low, end)`: of the counts in `from..until`, exactly those in `low..end` keep each of `values` at most its upper bound and able
// to reach its lower one.
pub(crate) fn values_range(
    bounds: &[ValueBounds],
    held: &[usize],
    later: &[usize],
    values: &[usize],
    from: usize,
    until: usize,
) -> (usize, usize)
    requires bounds { HaveBounds bounds.now values.now }
    requires small_bounds { AreSmallBounds bounds.now }
    requires held { HaveCells values.now held.now }
    requires later { HaveCells values.now later.now }
    requires small { AreAtMost 1000000 (length values.now) held.now }
    requires small_later { AreAtMost 1000000 (length values.now) later.now }
    ensures inside { (count : ℕ) → result.0 ≤ count → count < result.1 → (from ≤ count) × (count < until) × AllReach bounds.now held.now later.now values.now count }
    ensures until { result.1 ≤ until }
    ensures outside { (count : ℕ) → from ≤ count → count < until → AllReach bounds.now held.now later.now values.now count → (result.0 ≤ count) × (count < result.1) }
{
    let mut low = from;
    let mut end = until;
    for (category, value) in values.iter().enumerate() {
        let place = PLACES * category + value;
        let bound = bound_at(bounds, category, *value);
        let range = counts_within_reach(bound, held[place], later[place], low, end);
        low = range.0;
        end = range.1;
    }
    (low, end)
}

// Returns the bounds of a category's value.
fn bound_at(bounds: &[ValueBounds], category: usize, value: usize) -> Bounds
    requires category { category < length bounds.now }
    requires value { value < length (slice_index_or bounds.now category []) }
    ensures { HasBound bounds.now category value result }
{
    bounds[category].as_slice()[value]
}

// Returns `(low, end)`: of the counts `c` in `from..until`, exactly those in `low..end` have `number + c ≤ upper` and
// `lower ≤ number + c + more`.
fn counts_within_reach(
    bound: Bounds,
    number: usize,
    more: usize,
    from: usize,
    until: usize,
) -> (usize, usize)
    requires small { bound.upper ≤ 999 }
    requires number { number + more < 2 ^ 64 }
    ensures inside { (count : ℕ) → result.0 ≤ count → count < result.1 → (from ≤ count) × (count < until) × (within_reach bound (number + count) more ≡ true) }
    ensures until { result.1 ≤ until }
    ensures outside { (count : ℕ) → from ≤ count → count < until → within_reach bound (number + count) more ≡ true → (result.0 ≤ count) × (count < result.1) }
{
    (
        from.max(bound.lower.saturating_sub(number + more)),
        until.min((bound.upper + 1).saturating_sub(number)),
    )
}

// True if each value's number is at most its upper bound and can still reach its lower one.
pub(crate) fn all_within_reach(bounds: &[ValueBounds], held: &[usize], later: &[usize]) -> bool
    requires held { FitCells bounds.now held.now }
    requires later { FitCells bounds.now later.now }
    requires small { AreAtMost 1000000 (length bounds.now) held.now }
    requires small_later { AreAtMost 1000000 (length bounds.now) later.now }
    ensures all { result ≡ true → EachReaches bounds.now held.now later.now }
    ensures some { result ≡ false → SomeFails bounds.now held.now later.now }
{
    for (category, values) in bounds.iter().enumerate() {
        for (value, bound) in values.as_slice().iter().enumerate() {
            let place = PLACES * category + value;
            if !is_within_reach(*bound, held[place], later[place]) {
                return false;
            }
        }
    }
    true
}

// True if `number ≤ upper` and `lower ≤ number + more`.
fn is_within_reach(bound: Bounds, number: usize, more: usize) -> bool
    requires { number + more < 2 ^ 64 }
    ensures { result ≡ within_reach bound number more }
{
    number <= bound.upper && bound.lower <= number + more
}
