//! The greatest sums of units in a row, as a table that is made once. A unit is one member that a class can give, and weighs the class's
//! entry. `weighing` reads the table.

ghost use Rattle.std.specs.Prelude.{◌≡◌, ◌+◌, ◌<◌, ◌≤◌, drop, length, IfOk};
ghost use Rattle.define_searches.specs.Weights.{AreNarrow, CanAdd, HasUnit, IsGreater, AreGreatest, HoldsSums, units_from};
ghost use Rattle.panel_search.specs.Weights.{IsSummed};
ghost use Rattle.define_searches.specs.Fronts.{greatest_sum};

use alike::Classes;
use define_rows::Row;
use std::alloc::{AllocError, Global};

/// A table that holds, for each k from 0 to the number of classes and each n from 0 to the size, the greatest sum of n units of the last k
/// classes, or the sum of all their units if they have fewer than n. It has (classes + 1) times (size + 1) numbers of 16 bytes.
#[derive(Debug, Drop)]
pub(crate) struct Sums {
    cells: Vec<i128>,
}

impl Sums {
    // Makes the table of a row.
    pub(crate) fn new(alloc: Global, classes: &Classes, row: &Row) -> Result<Sums, AllocError>
        requires { AreNarrow classes.now row.now.a }
        ensures { IfOk result (λ sums. IsSummed classes.now row.now sums) }
    {
        let cells = greatest_sums(alloc, classes, row.entries())?;
        Ok(Sums { cells })
    }

    // Returns the greatest sum of `count` units of the classes from `place` on.
    pub(crate) fn greatest_of(
        &self,
        classes: &Classes,
        row: &Row,
        place: usize,
        count: usize,
    ) -> i128
        requires place { place ≤ length classes.now.classes }
        requires count { count ≤ classes.now.size }
        requires sums { IsSummed classes.now row.now self.now }
        ensures { result ≡ greatest_sum count (drop place classes.now.classes) (drop place row.now.a) }
    {
        classes.facts();
        let later = classes.classes().len() - place;
        self.cells[later * (classes.size() + 1) + count]
    }
}

// Returns the cells of the table `Sums` for a row with these entries.
fn greatest_sums(
    alloc: Global,
    classes: &Classes,
    entries: &[i128],
) -> Result<Vec<i128>, AllocError>
    requires { AreNarrow classes.now entries.now }
    ensures { IfOk result (λ table. HoldsSums classes.now entries.now (length classes.now.classes + 1) table.items) }
{
    classes.facts();
    let mut sums = vec![in alloc; 0; classes.size() + 1]?;
    let mut table = Vec::with_capacity(alloc, (entries.len() + 1) * sums.len())?;
    table.extend_from_slice(&sums)?;
    let mut units = 0;
    for later in 0..entries.len() {
        let place = entries.len() - 1 - later;
        units = put_class(&mut sums, classes, entries, place, units);
        table.extend_from_slice(&sums)?;
    }
    Ok(table)
}

// Adds the units of the class at `place` to `units` units whose greatest sums are `sums`. Returns how many units there are then.
fn put_class(
    sums: &mut [i128],
    classes: &Classes,
    entries: &[i128],
    place: usize,
    units: usize,
) -> usize
    requires narrow { AreNarrow classes.now entries.now }
    requires below { place < length classes.now.classes }
    requires units { units ≡ length (units_from classes.now entries.now (place + 1)) }
    requires greatest { AreGreatest (units_from classes.now entries.now (place + 1)) sums.old }
    ensures units { result ≡ length (units_from classes.now entries.now place) }
    ensures greatest { AreGreatest (units_from classes.now entries.now place) sums.new }
    ensures same { length sums.new ≡ length sums.old }
{
    let most = classes.class_at(place).most();
    for done in 0..most {
        put_unit(sums, units + done, entries[place]);
    }
    units + most
}

// Adds one unit that weighs `weight` to `units` units whose greatest sums are `sums`.
fn put_unit(sums: &mut [i128], units: usize, weight: i128)
    requires { CanAdd weight sums.old }
    ensures { HasUnit units weight sums.old sums.new }
{
    for done in 1..sums.len() {
        let count = sums.len() - done;
        sums[count] = greater(units, count, sums[count], sums[count - 1] + weight);
    }
}

// Returns the greatest sum of `count` units out of `units` and a new one. If `count` exceeds `units`, it is the sum with the new unit; else
// the greater of the sums without and with it.
fn greater(units: usize, count: usize, without: i128, with_it: i128) -> i128
    ensures { IsGreater units count without with_it result }
{
    if units < count {
        with_it
    } else {
        without.max(with_it)
    }
}
