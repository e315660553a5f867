//! The greatest sums of units in a row, as a table that is made once. A unit is a member that a class can give; it weighs the class's
//! entry. `weighing` reads the table.

ghost use Rattle.std.specs.Prelude.{◌≡◌, ◌+◌, ◌<◌, ◌≤◌, drop, length, IfOk};
ghost use Rattle.define_searches.specs.Weights.{AreNarrow, CanAdd, EachNarrow, HasUnit, IsGreater, AreGreatest, HoldsSums, units_from};
ghost use Rattle.check_search.specs.Weights.{IsSummed, SumEach};
ghost use Rattle.define_searches.specs.Fronts.{greatest_sum};

use crate::groups::Classes;
use crate::rows::StageRow;
use std::alloc::{AllocError, Global};

/// A table that holds, for each place, the greatest sums of 0, 1, 2 and more units, up to the size, of the classes from that place on. It
/// has (classes + 1) times (size + 1) numbers of 16 bytes, from the last class to the first.
#[derive(Debug, Drop)]
pub struct Sums {
    cells: Vec<i128>,
}

impl Sums {
    // Makes the table of a row.
    pub(crate) fn new(alloc: Global, classes: &Classes, row: &StageRow) -> Result<Sums, AllocError>
        requires { AreNarrow classes.now row.now.a }
        ensures { IfOk result (λ sums. IsSummed classes.now row.now sums) }
    {
        let cells = greatest_sums(alloc, classes, row.entries())?;
        Ok(Sums { cells })
    }

    // Returns the greatest sum of `count` units of the classes from `place` on.
    pub(crate) fn greatest_of(
        &self,
        classes: &Classes,
        row: &StageRow,
        place: usize,
        count: usize,
    ) -> i128
        requires place { place ≤ length classes.now.classes }
        requires count { count ≤ classes.now.size }
        requires sums { IsSummed classes.now row.now self.now }
        ensures { result ≡ greatest_sum count (drop place classes.now.classes) (drop place row.now.a) }
    {
        classes.facts();
        let later = classes.classes().len() - place;
        self.cells[later * (classes.size() + 1) + count]
    }
}

// Makes the tables of the closed rows.
pub(crate) fn all_sums(
    alloc: Global,
    classes: &Classes,
    closed: &[StageRow],
) -> Result<Vec<Sums>, AllocError>
    requires { EachNarrow classes.now closed.now }
    ensures { IfOk result (λ sums. SumEach classes.now closed.now sums.items) }
{
    let mut sums = Vec::with_capacity(alloc, closed.len())?;
    for row in closed {
        sums.push(Sums::new(alloc, classes, row)?)?;
    }
    Ok(sums)
}

// Returns the cells of the table `Sums` for a row with these entries: for the last 0, 1, 2 and more classes in turn, the greatest sums of 0
// up to `size` of their units.
fn greatest_sums(
    alloc: Global,
    classes: &Classes,
    entries: &[i128],
) -> Result<Vec<i128>, AllocError>
    requires { AreNarrow classes.now entries.now }
    ensures { IfOk result (λ table. HoldsSums classes.now entries.now (length classes.now.classes + 1) table.items) }
{
    classes.facts();
    let mut sums = vec![in alloc; 0; classes.size() + 1]?;
    let mut table = Vec::with_capacity(alloc, (entries.len() + 1) * sums.len())?;
    table.extend_from_slice(&sums)?;
    let mut units = 0;
    for later in 0..entries.len() {
        let place = entries.len() - 1 - later;
        units = put_class(&mut sums, classes, entries, place, units);
        table.extend_from_slice(&sums)?;
    }
    Ok(table)
}

// Adds the units of the class at `place` to the greatest sums, which are over `units` units so far. Returns the new number of units.
fn put_class(
    sums: &mut [i128],
    classes: &Classes,
    entries: &[i128],
    place: usize,
    units: usize,
) -> usize
    requires narrow { AreNarrow classes.now entries.now }
    requires below { place < length classes.now.classes }
    requires units { units ≡ length (units_from classes.now entries.now (place + 1)) }
    requires greatest { AreGreatest (units_from classes.now entries.now (place + 1)) sums.old }
    ensures units { result ≡ length (units_from classes.now entries.now place) }
    ensures greatest { AreGreatest (units_from classes.now entries.now place) sums.new }
    ensures same { length sums.new ≡ length sums.old }
{
    let most = classes.class_at(place).most();
    for done in 0..most {
        put_unit(sums, units + done, entries[place]);
    }
    units + most
}

// Updates the greatest sums over `units` units for one more unit, which weighs `weight`.
fn put_unit(sums: &mut [i128], units: usize, weight: i128)
    requires { CanAdd weight sums.old }
    ensures { HasUnit units weight sums.old sums.new }
{
    for done in 1..sums.len() {
        let count = sums.len() - done;
        sums[count] = greater(units, count, sums[count], sums[count - 1] + weight);
    }
}

// Returns the greatest sum of `count` units if a new unit joins `units` units. `without` is the greatest sum without the new unit, and
// `with_it` the greatest sum with it. If `count` is above `units`, returns `with_it`, since the new unit must be taken; else returns the
// greater of the two sums.
fn greater(units: usize, count: usize, without: i128, with_it: i128) -> i128
    ensures { IsGreater units count without with_it result }
{
    if units < count {
        with_it
    } else {
        without.max(with_it)
    }
}
