//! The inverse of a square matrix in fixed point.

use crate::fixed::{UNIT, product, quotient};
use std::alloc::{AllocError, Global};
use std::mem;

/// A pivot must be above this by absolute value: 2^-26.
const LEAST_PIVOT: u64 = 1_048_576;

/// Returns the inverse of the matrix with these columns, given by their entries that are not 0, each with its row. Row `k` of the inverse
/// times a right side is the value of column `k`. Returns None if the columns are dependent, as far as fixed-point numbers show. `order`
/// has the numbers of the columns, in the order in which they are eliminated.
pub(crate) fn inverse_of(
    alloc: Global,
    columns: &[Vec<(usize, i64)>],
    order: &[usize],
) -> Result<Option<Vec<Vec<i64>>>, AllocError> {
    let size = columns.len();
    let mut left = spread_columns(alloc, columns)?;
    let mut right = identity(alloc, size)?;
    let mut is_used = vec![in alloc; false; size]?;
    let mut row_of = vec![in alloc; 0; size]?;
    for place in order {
        let Some(row) = pivot_row(&left, &is_used, *place) else {
            return Ok(None);
        };
        if let Some(used) = is_used.get_mut(row) {
            *used = true;
        }
        if let Some(own) = row_of.get_mut(*place) {
            *own = row;
        }
        eliminate(alloc, &mut left, &mut right, row, *place);
    }
    let mut inverse = Vec::new(alloc);
    for row in &row_of {
        match right.get_mut(*row) {
            Some(entries) => inverse.push(mem::replace(entries, Vec::new(alloc)))?,
            None => return Ok(None),
        }
    }
    Ok(Some(inverse))
}

/// Returns the rows of the matrix with these columns.
fn spread_columns(
    alloc: Global,
    columns: &[Vec<(usize, i64)>],
) -> Result<Vec<Vec<i64>>, AllocError> {
    let size = columns.len();
    let mut rows = Vec::new(alloc);
    for _ in 0..size {
        rows.push(vec![in alloc; 0i64; size]?)?;
    }
    for (place, column) in columns.iter().enumerate() {
        for (row, entry) in column {
            write(&mut rows, *row, place, *entry);
        }
    }
    Ok(rows)
}

/// Writes the entry of a row at a place.
fn write(rows: &mut [Vec<i64>], row: usize, place: usize, number: i64) {
    if let Some(entries) = rows.get_mut(row) {
        if let Some(entry) = entries.get_mut(place) {
            *entry = number;
        }
    }
}

/// Returns the identity matrix.
fn identity(alloc: Global, size: usize) -> Result<Vec<Vec<i64>>, AllocError> {
    let mut rows = Vec::new(alloc);
    for _ in 0..size {
        rows.push(vec![in alloc; 0i64; size]?)?;
    }
    for row in 0..size {
        write(&mut rows, row, row, UNIT);
    }
    Ok(rows)
}

/// Returns the unused row with the greatest absolute value at a place, if that is above `LEAST_PIVOT`.
fn pivot_row(rows: &[Vec<i64>], is_used: &[bool], place: usize) -> Option<usize> {
    let mut greatest = LEAST_PIVOT;
    let mut found = None;
    for row in 0..rows.len().min(is_used.len()) {
        let entry = rows[row].get(place).copied().unwrap_or(0).unsigned_abs();
        if !is_used[row] && entry > greatest {
            greatest = entry;
            found = Some(row);
        }
    }
    found
}

/// Makes the entry of a row of `left` at a place 1, and those of the other rows 0, and does the same to the rows of `right`.
fn eliminate(
    alloc: Global,
    left: &mut [Vec<i64>],
    right: &mut [Vec<i64>],
    row: usize,
    place: usize,
) {
    let mut own_left = match left.get_mut(row) {
        Some(entries) => mem::replace(entries, Vec::new(alloc)),
        None => return,
    };
    let mut own_right = match right.get_mut(row) {
        Some(entries) => mem::replace(entries, Vec::new(alloc)),
        None => return,
    };
    let pivot = own_left.get(place).copied().unwrap_or(0);
    divide(&mut own_left, pivot);
    divide(&mut own_right, pivot);
    for other in 0..left.len().min(right.len()) {
        let factor = left[other].get(place).copied().unwrap_or(0);
        if factor != 0 {
            subtract(&mut left[other], factor, &own_left);
            subtract(&mut right[other], factor, &own_right);
        }
    }
    if let Some(entries) = left.get_mut(row) {
        *entries = own_left;
    }
    if let Some(entries) = right.get_mut(row) {
        *entries = own_right;
    }
}

/// Divides each entry by a number.
pub(crate) fn divide(entries: &mut [i64], divisor: i64) {
    for entry in entries.iter_mut() {
        if *entry != 0 {
            *entry = quotient(*entry, divisor);
        }
    }
}

/// Subtracts a multiple of a row from another.
pub(crate) fn subtract(entries: &mut [i64], factor: i64, others: &[i64]) {
    for place in 0..entries.len().min(others.len()) {
        let other = others[place];
        if other != 0 {
            entries[place] = entries[place].saturating_sub(product(factor, other));
        }
    }
}
