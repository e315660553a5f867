//! The table of a pool's program in which the number of a value's members may miss its bounds. Each value has two columns more: by how many
//! members it is below its lower bound, and by how many it is above its upper bound. A last row has the sum of all these. Promises: the
//! sizes of the table.

ghost use Rattle.std.specs.Prelude.{◌≡◌, length, IfOk, OnOk};
ghost use Rattle.loosening_by_proof.specs.Searches.{AreSizes};

use define_quotas::Counted;
use prove_limits::{Narrow, ProveStop, Span};
use prove_program::Program;
use prove_table::Table;
use std::alloc::{AllocError, Global};

/// The greatest number by which a bound may be missed in the table. It is never reached: no pool has more than 4,000 volunteers, and no bound
/// passes 999.
const MOST_MISSES: u32 = 1000000;

/// The part of a column of misses in the goal. It is below 0, so that a run begins with no misses.
const FEW_MISSES: i64 = -2;

/// Adds the columns of misses and the row of their sum to a program's table, and their spans to those of the program.
pub(crate) fn add_misses(
    alloc: Global,
    program: &Program,
    counted: &[Counted],
    table: &mut Table,
    columns: &mut Vec<Span>,
    rows: &mut Vec<Span>,
) -> Result<(), ProveStop>
    requires { AreSizes table.old columns.old.items rows.old.items }
    ensures { OnOk result (AreSizes table.new columns.new.items rows.new.items) }
{
    for (row, quota) in program.rows().iter().enumerate() {
        if let Some(Counted::WithValue(_, _)) = counted.get(quota.number()) {
            add_column(alloc, table, columns, row, Narrow::ONE)?;
            add_column(alloc, table, columns, row, -Narrow::ONE)?;
        }
    }
    let sum = sum_of_misses(alloc, table.columns(), program.columns())?;
    table.add_row(&sum)?;
    rows.push(Span::reaching(Narrow::ZERO, Narrow::from(MOST_MISSES)))?;
    let parts = parts(alloc, table.columns(), program.columns())?;
    table.aim(&parts, 1)
}

/// Adds a column of misses, with this entry in a row.
fn add_column(
    alloc: Global,
    table: &mut Table,
    columns: &mut Vec<Span>,
    row: usize,
    entry: Narrow,
) -> Result<(), ProveStop>
    requires { table.old.columns ≡ length columns.old.items }
    ensures columns { OnOk result (table.new.columns ≡ length columns.new.items) }
    ensures rows { OnOk result (table.new.rows ≡ table.old.rows) }
{
    let entries = unit(alloc, table.rows(), row, entry)?;
    table.add_column(&entries, FEW_MISSES)?;
    columns.push(Span::reaching(Narrow::ZERO, Narrow::from(MOST_MISSES)))?;
    Ok(())
}

/// Returns a list with `entry` at `place` and zeros elsewhere.
fn unit(alloc: Global, count: usize, place: usize, entry: Narrow) -> Result<Vec<Narrow>, AllocError>
    ensures { IfOk result (λ entries. length entries.items ≡ count) }
{
    let mut entries = vec![in alloc; Narrow::ZERO; count]?;
    if place < entries.len() {
        entries[place] = entry;
    }
    Ok(entries)
}

/// Returns the coefficients of the sum of all misses: 0 for the first `volunteers` columns, and 1 for the others.
fn sum_of_misses(
    alloc: Global,
    columns: usize,
    volunteers: usize,
) -> Result<Vec<Narrow>, AllocError>
    ensures { IfOk result (λ sum. length sum.items ≡ columns) }
{
    let mut sum = vec![in alloc; Narrow::ONE; columns]?;
    for column in 0..volunteers.min(columns) {
        sum[column] = Narrow::ZERO;
    }
    Ok(sum)
}

/// Returns the parts of the goal: 0 for the first `volunteers` columns, and `FEW_MISSES` for the others.
fn parts(alloc: Global, columns: usize, volunteers: usize) -> Result<Vec<i64>, AllocError> {
    let mut parts = Vec::new(alloc);
    for column in 0..columns {
        parts.push(if column < volunteers { 0 } else { FEW_MISSES })?;
    }
    Ok(parts)
}
