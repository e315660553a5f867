//! Turns the closed rows into the stages of a certificate.

ghost use Rattle.std.specs.Prelude.{◌≡◌, map, IfOk};
ghost use Rattle.std.specs.List.{range_with_len};
ghost use Rattle.define_rows.specs.Row.{entry};
ghost use Rattle.define_runs.specs.Run.{stage_of};
ghost use Rattle.define_searches.specs.Classes.{Classes as ClassesOf, class_number, volunteer_count};

use alike::{Classes, class_numbers};
use panel_search::Row;
use pool_model::{Certificate, Stage};
use std::alloc::{AllocError, Global};

/// Returns the stages of the closed rows, in the order of the rows.
pub(crate) fn certificate(
    alloc: Global,
    classes: &Classes,
    closed: &[Row],
) -> Result<Certificate, AllocError>
    ensures { IfOk result (λ certificate. certificate ≡ map (stage_of classes.now) closed.now) }
{
    let numbers = class_numbers(alloc, classes)?;
    let mut stages = Vec::new(alloc);
    for row in closed {
        stages.push(stage(alloc, &numbers, row)?)?;
    }
    Ok(Certificate::new(stages))
}

// Returns the stage of a row: its right side is the cap, and each volunteer weighs the entry of their class. `numbers` has the number of
// each volunteer's class.
fn stage(alloc: Global, numbers: &[usize], row: &Row) -> Result<Stage, AllocError>
    ensures { IfOk result (λ stage. (all : ClassesOf) → numbers.now ≡ map (class_number all.classes) (range_with_len 0 (volunteer_count all)) → stage ≡ stage_of all row.now) }
{
    let weights = weights(alloc, numbers, row)?;
    Ok(Stage::new(weights, row.side()))
}

fn weights(alloc: Global, numbers: &[usize], row: &Row) -> Result<Vec<i128>, AllocError>
    ensures { IfOk result (λ weights. weights.items ≡ map (entry row.now) numbers.now) }
{
    numbers
        .iter()
        .map(|class| entry_of(row, *class))
        .collect(alloc)
}

// Returns the entry of class number `class`, or 0 if there is no class of this number.
fn entry_of(row: &Row, class: usize) -> i128
    ensures { result ≡ entry row.now class }
{
    let entries = row.entries();
    if class < entries.len() {
        entries[class]
    } else {
        0
    }
}
