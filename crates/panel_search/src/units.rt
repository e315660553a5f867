//! What fronts and units weigh in a row, summed without memory. A unit is one member that a class can give, and weighs the class's entry. A
//! helper of `live`. The searches keep `Weights` and the table `Sums` instead.

ghost use Rattle.std.specs.Prelude.{◌≡◌, ◌-◌, ◌≤◌, ◌&&◌, if◌then◌else◌, true, nat_le, drop, length};
ghost use Rattle.define_searches.specs.Compositions.{weight_in};
ghost use Rattle.define_searches.specs.Fronts.{greatest_sum, most_given, optimistic, taken_by};
ghost use Rattle.define_searches.specs.Front.{AreWithin};
ghost use Rattle.define_searches.specs.Weights.{AreNarrow, units_from};
ghost use Rattle.panel_search.specs.Units.{IsBeside};

use crate::weighing::with_count;
use alike::Classes;
use define_rows::Row;

// Returns the optimistic weight of a front that lacks `lack` members: its weight plus the greatest sum of `lack` units of the classes
// after it, which can give as many.
pub(crate) fn optimistic(classes: &Classes, row: &Row, front: &[usize], lack: usize) -> i128
    requires narrow { AreNarrow classes.now row.now.a }
    requires within { length front.now ≤ length classes.now.classes }
    requires counts { AreWithin classes.now front.now }
    requires lack { lack ≡ classes.now.size - taken_by classes.now front.now }
    requires given { lack ≤ most_given (λ class. true) (drop (length front.now) classes.now.classes) }
    ensures { result ≡ optimistic classes.now row.now front.now }
{
    classes.facts();
    let entries = row.entries();
    let rest = greatest_sum(classes, entries, front.len(), lack);
    weight(classes, entries, front) + rest
}

// Returns the weight of a front.
fn weight(classes: &Classes, entries: &[i128], front: &[usize]) -> i128
    requires narrow { AreNarrow classes.now entries.now }
    requires within { length front.now ≤ length classes.now.classes }
    requires counts { AreWithin classes.now front.now }
    ensures { result ≡ weight_in entries.now front.now }
{
    classes.facts();
    let mut weight = 0;
    for place in 0..front.len() {
        weight = with_count(weight, front[place], entries[place]);
    }
    weight
}

// Returns the greatest sum of `count` units of the classes from `place` on, which have as many. It seeks the weight of the lightest unit in
// this sum: all heavier units are in it, and of those that weigh as much, as many as are still needed.
fn greatest_sum(classes: &Classes, entries: &[i128], place: usize, count: usize) -> i128
    requires narrow { AreNarrow classes.now entries.now }
    requires place { place ≤ length classes.now.classes }
    requires count { count ≤ most_given (λ class. true) (drop place classes.now.classes) }
    ensures { result ≡ greatest_sum count (drop place classes.now.classes) (drop place entries.now) }
{
    classes.facts();
    for i in place..entries.len() {
        let lightest = entries[i];
        let beside = units_beside(classes, entries, place, lightest);
        if beside.can_end(count) {
            return with_count(beside.sum, count - beside.heavier, lightest);
        }
    }
    // the classes have no units, so `count` is 0
    0
}

/// The units beside a weight.
#[derive(Drop)]
struct Beside {
    /// How many weigh more.
    heavier: usize,
    /// What these sum to.
    sum: i128,
    /// How many weigh at least as much.
    no_lighter: usize,
}

impl Beside {
    // True if the `count` heaviest units are all that weigh more, and for the rest units that weigh as much.
    fn can_end(&self, count: usize) -> bool
        ensures { result ≡ (nat_le self.now.heavier count && nat_le count self.now.no_lighter) }
    {
        self.heavier <= count && count <= self.no_lighter
    }
}

// Counts and sums the units of the classes from `place` on beside a weight.
fn units_beside(classes: &Classes, entries: &[i128], place: usize, weight: i128) -> Beside
    requires narrow { AreNarrow classes.now entries.now }
    requires place { place ≤ length classes.now.classes }
    ensures { IsBeside (units_from classes.now entries.now place) weight result }
{
    classes.facts();
    let mut heavier = 0;
    let mut sum = 0;
    let mut no_lighter = 0;
    for i in place..entries.len() {
        let most = classes.class_at(i).most();
        let more = count_if(weight < entries[i], most);
        heavier += more;
        sum = with_count(sum, more, entries[i]);
        no_lighter += count_if(weight <= entries[i], most);
    }
    Beside {
        heavier,
        sum,
        no_lighter,
    }
}

// Returns `count` if the condition holds, else 0.
fn count_if(holds: bool, count: usize) -> usize
    ensures { result ≡ (if holds then count else 0) }
{
    if holds { count } else { 0 }
}
