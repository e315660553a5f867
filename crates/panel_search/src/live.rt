//! Whether a front is live, counted anew from the classes and the rows, without memory. The searches keep tallies and tables instead.
//! Promise: `is_live`.

ghost use Rattle.std.specs.Prelude.{◌≡◌, ◌+◌, ◌-◌, ◌≤◌, ◌<◌, ◌∷◌, ◌&&◌, true, drop, length, nat_le, int_le};
ghost use Rattle.std.specs.List.{enumerate_from, list_all};
ghost use Rattle.define_searches.specs.Compositions.{taken_of, takes_one_a_household, takes_one_of};
ghost use Rattle.define_searches.specs.Fronts.{HaveEntries, HaveReach, is_live_above, is_reachable, most_given, optimistic, size_reachable, taken_by, value_reachable, values_reachable};
ghost use Rattle.define_searches.specs.Below.{IsFront};
ghost use Rattle.define_searches.specs.Front.{AreWithin};
ghost use Rattle.define_searches.specs.Weights.{EachNarrow};
ghost use Rattle.panel_search.specs.Groups.{HasCategory, is_in_group};

use crate::counting::{Group, given, taken};
use crate::fronts::Front;
use crate::units::optimistic;
use alike::{Bounds, Classes};
use define_rows::Row;

/// True if a front is live above a floor: size, values and households are within its reach; its optimistic weight is at least the right
/// side in each closed row, and above the floor in `row`. The optimistic weight in a row is the front's weight plus the greatest sum of
/// units of the later classes, one for each member that the front lacks.
///
/// Each of the rows has one entry per class and a reach below 2^127. The front has at most one count for each class, from the class's least
/// to its most. Takes no memory: it counts anew, in time that grows with the number of rows times the square of the number of classes, and
/// with the number of values times that of classes. A search that tests many fronts keeps tallies and tables, and is faster.
pub fn is_live(classes: &Classes, closed: &[Row], row: &Row, front: &Front, floor: i128) -> bool
    requires entries { HaveEntries classes.now (row.now ∷ closed.now) }
    requires reaches { HaveReach classes.now (row.now ∷ closed.now) }
    requires front { IsFront classes.now front.now }
    ensures { result ≡ is_live_above classes.now closed.now row.now floor front.now }
{
    classes.facts();
    let front = front.counts();
    if !is_reachable(classes, front) {
        return false;
    }
    let lack = classes.size() - taken(classes, front, Group::Everybody);
    attains_each(classes, closed, front, lack) && floor < optimistic(classes, row, front, lack)
}

// True if size, values and households are within reach of a front.
fn is_reachable(classes: &Classes, front: &[usize]) -> bool
    requires within { length front.now ≤ length classes.now.classes }
    requires counts { AreWithin classes.now front.now }
    ensures { result ≡ is_reachable classes.now front.now }
{
    size_reachable(classes, front)
        && values_reachable(classes, front)
        && takes_one_a_household(classes, front)
}

// True if a front takes at most the size, and can reach it with all that the later classes can give.
fn size_reachable(classes: &Classes, front: &[usize]) -> bool
    requires within { length front.now ≤ length classes.now.classes }
    requires counts { AreWithin classes.now front.now }
    ensures { result ≡ size_reachable classes.now front.now }
{
    let size = classes.size();
    can_reach(classes, front, Group::Everybody, size, size)
}

// True if for each value a front can still meet the bounds.
fn values_reachable(classes: &Classes, front: &[usize]) -> bool
    requires within { length front.now ≤ length classes.now.classes }
    requires counts { AreWithin classes.now front.now }
    ensures { result ≡ values_reachable classes.now front.now }
{
    classes.bounds().iter().enumerate().all(|(category, values)| category_reachable(
        classes,
        front,
        category,
        values.as_slice(),
    ))
}

// True if for each value of a category a front can still meet the bounds.
fn category_reachable(
    classes: &Classes,
    front: &[usize],
    category: usize,
    bounds: &[Bounds],
) -> bool
    requires category { category < length classes.now.bounds }
    requires within { length front.now ≤ length classes.now.classes }
    requires counts { AreWithin classes.now front.now }
    ensures { result ≡ list_all (value_reachable classes.now front.now category) (enumerate_from 0 bounds.now) }
{
    bounds.iter().enumerate().all(|(value, bound)| value_reachable(
        classes, front, category, value, *bound,
    ))
}

// True if for a value a front can still meet the bounds.
fn value_reachable(
    classes: &Classes,
    front: &[usize],
    category: usize,
    value: usize,
    bound: Bounds,
) -> bool
    requires category { category < length classes.now.bounds }
    requires within { length front.now ≤ length classes.now.classes }
    requires counts { AreWithin classes.now front.now }
    ensures { result ≡ value_reachable classes.now front.now category (value, bound) }
{
    let group = Group::WithValue(category, value);
    can_reach(classes, front, group, bound.lower, bound.upper)
}

// True if a front takes at most `upper` members of a group, and can reach `lower` with all that the later classes can give.
fn can_reach(classes: &Classes, front: &[usize], group: Group, lower: usize, upper: usize) -> bool
    requires group { HasCategory (length classes.now.bounds) group }
    requires within { length front.now ≤ length classes.now.classes }
    requires counts { AreWithin classes.now front.now }
    ensures { result ≡ (nat_le (taken_of (is_in_group group) classes.now.classes front.now) upper
        && nat_le lower (taken_of (is_in_group group) classes.now.classes front.now + most_given (is_in_group group) (drop (length front.now) classes.now.classes))) }
{
    classes.facts();
    let taken = taken(classes, front, group);
    taken <= upper && lower <= taken + given(classes, front.len(), group)
}

// True if a front takes at most one member of each household.
fn takes_one_a_household(classes: &Classes, front: &[usize]) -> bool
    requires within { length front.now ≤ length classes.now.classes }
    requires counts { AreWithin classes.now front.now }
    ensures { result ≡ takes_one_a_household classes.now.classes front.now }
{
    classes
        .classes()
        .iter()
        .all(|class| takes_one_of(classes, front, class.household()))
}

// True if a front takes at most one member of the household, or if there is no household.
fn takes_one_of(classes: &Classes, front: &[usize], household: Option<usize>) -> bool
    requires within { length front.now ≤ length classes.now.classes }
    requires counts { AreWithin classes.now front.now }
    ensures { result ≡ takes_one_of classes.now.classes front.now household }
{
    match household {
        None => true,
        Some(number) => taken(classes, front, Group::OfHousehold(number)) <= 1,
    }
}

// True if the optimistic weight of a front that lacks `lack` members is at least the right side in each closed row.
fn attains_each(classes: &Classes, closed: &[Row], front: &[usize], lack: usize) -> bool
    requires narrow { EachNarrow classes.now closed.now }
    requires within { length front.now ≤ length classes.now.classes }
    requires counts { AreWithin classes.now front.now }
    requires lack { lack ≡ classes.now.size - taken_by classes.now front.now }
    requires given { lack ≤ most_given (λ class. true) (drop (length front.now) classes.now.classes) }
    ensures { result ≡ list_all (λ row. int_le row.b (optimistic classes.now row front.now)) closed.now }
{
    for row in closed {
        if optimistic(classes, row, front, lack) < row.side() {
            return false;
        }
    }
    true
}
