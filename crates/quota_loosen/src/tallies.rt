//! Counters for values, 50 places for each category, and how far they miss the bounds at least. A helper of `tally`.

ghost use Rattle.std.specs.Prelude.{◌≡◌, ◌≤◌, ◌<◌, ◌+◌, ◌*◌, All, length, slice_index};
ghost use Rattle.std.specs.List.{enumerate_from, list_all};
ghost use Rattle.define_quotas.specs.Costs.{surely_missed};
ghost use Rattle.define_searches.specs.Tallies.{HaveCells, CanGive, AreAtMost, FitCells, HasMore};
ghost use Rattle.quota_loosen.specs.Sums.{AreLimited, AreSmallIn, are_few, missed_in, missed_in_all};

use alike::{Bounds, ValueBounds};
use pool_model::MAX_BOUND;

// How many places each category has.
pub(crate) const PLACES: usize = 50;

// Adds `count` to the counter of each category's value. A search often tries the count 0, which changes nothing.
pub(crate) fn add_to(cells: &mut [usize], values: &[usize], count: usize)
    requires cells { HaveCells values.now cells.old }
    requires small { AreAtMost 1000000 (length values.now) cells.old }
    requires count { count ≤ 1000000 }
    ensures { HasMore values.now count cells.old cells.new }
{
    if count == 0 {
        return;
    }
    for (category, value) in values.iter().enumerate() {
        cells[PLACES * category + value] += count;
    }
}

// Takes `count` from the counter of each category's value.
pub(crate) fn take_from(cells: &mut [usize], values: &[usize], count: usize)
    requires cells { HaveCells values.now cells.old }
    requires enough { CanGive values.now cells.old count }
    ensures { HasMore values.now count cells.new cells.old }
{
    if count == 0 {
        return;
    }
    for (category, value) in values.iter().enumerate() {
        cells[PLACES * category + value] -= count;
    }
}

// True if the number of each value is at most the greatest bound that it may have.
pub(crate) fn hold_few(bounds: &[ValueBounds], held: &[usize]) -> bool
    requires { length bounds.now ≤ 20 }
    ensures { result ≡ list_all (λ (c, values). are_few values held.now c) (enumerate_from 0 bounds.now) }
{
    bounds.iter().enumerate().all(|(category, values)| hold_few_of(
        values.as_slice(),
        held,
        category,
    ))
}

// True if the number of each value of a category is at most the greatest bound that it may have.
fn hold_few_of(values: &[Bounds], held: &[usize], category: usize) -> bool
    requires { category < 20 }
    ensures { result ≡ are_few values.now held.now category }
{
    values.iter().enumerate().all(|(value, _bound)| number_in(held, PLACES * category + value)
        <= MAX_BOUND)
}

// Returns the number in a cell, or 0 if there is no such cell.
fn number_in(cells: &[usize], cell: usize) -> usize
    ensures { result ≡ slice_index cells.now cell }
{
    cells.get(cell).copied().unwrap_or(0)
}

// Returns the least sum by which all values will miss their bounds, whatever later classes give.
pub(crate) fn missed_by_all(bounds: &[ValueBounds], held: &[usize], later: &[usize]) -> usize
    requires few { length bounds.now ≤ 20 }
    requires limits { AreLimited bounds.now }
    requires held { FitCells bounds.now held.now }
    requires later { FitCells bounds.now later.now }
    requires small { AreAtMost 1000000 (length bounds.now) held.now }
    requires small_later { AreAtMost 1000000 (length bounds.now) later.now }
    ensures { result ≡ missed_in_all bounds.now held.now later.now }
{
    let mut missed = 0;
    for (category, values) in bounds.iter().enumerate() {
        missed += missed_by(values.as_slice(), held, later, category);
    }
    missed
}

// Returns the least sum by which the values of a category will miss their bounds, whatever later classes give.
fn missed_by(values: &[Bounds], held: &[usize], later: &[usize], category: usize) -> usize
    requires few { length values.now ≤ 50 }
    requires category { category < 20 }
    requires limits { All (λ bound. (bound.lower ≤ bound.upper) × (bound.upper ≤ 999)) values.now }
    requires held { 50 * category + 50 ≤ length held.now }
    requires later { 50 * category + 50 ≤ length later.now }
    requires small { AreSmallIn category held.now }
    requires small_later { AreSmallIn category later.now }
    ensures value { result ≡ missed_in values.now held.now later.now category }
    ensures small { result ≤ 2000000 * length values.now }
{
    let mut missed = 0;
    for (value, bound) in values.iter().enumerate() {
        let place = PLACES * category + value;
        missed += surely(*bound, held[place], later[place]);
    }
    missed
}

// Returns the least by which `number` will miss the bounds, if it may still grow by up to `more`.
fn surely(bound: Bounds, number: usize, more: usize) -> usize
    requires lower { bound.lower ≤ 999 }
    requires number { number ≤ 1000000 }
    requires more { more ≤ 1000000 }
    ensures { result ≡ surely_missed bound number more }
{
    bound.lower.saturating_sub(number + more) + number.saturating_sub(bound.upper)
}
