//! The coefficients of the rows, by column: each column lists those that are not 0.

ghost use Rattle.std.specs.Prelude.{IfErr};
ghost use Rattle.prove_limits.specs.Stops.{IsWideOrMemory};

use prove_limits::{Narrow, ProveStop, times, wide_add};
use std::alloc::{AllocError, Global};

// A coefficient that is not 0, and the number of its row.
#[derive(Clone, Copy)]
pub(crate) struct Coefficient {
    pub(crate) row: usize,
    pub(crate) value: Narrow,
}

// The coefficients of all columns. Each column lists its own by rising numbers of rows.
#[derive(Drop)]
pub(crate) struct Coefficients {
    alloc: Global,
    columns: Vec<Vec<Coefficient>>,
    // the greatest absolute value of a coefficient of each row
    greatest: Vec<u64>,
}

impl Coefficients {
    // Returns the coefficients of `columns` columns before any row is added: each column lists none.
    pub(crate) fn new(alloc: Global, columns: usize) -> Result<Coefficients, AllocError> {
        let mut empty = Vec::new(alloc);
        for _ in 0..columns {
            empty.push(Vec::new(alloc))?;
        }
        Ok(Coefficients {
            alloc,
            columns: empty,
            greatest: Vec::new(alloc),
        })
    }

    // Returns the coefficients of a column, or none if there is no such column.
    pub(crate) fn of(&self, column: usize) -> &[Coefficient] {
        match self.columns.get(column) {
            Some(own) => own,
            None => &[],
        }
    }

    // Adds a row, whose number `row` is above all others, with a coefficient for each column. After an error nothing is added.
    pub(crate) fn add_row(&mut self, row: usize, values: &[Narrow]) -> Result<(), AllocError> {
        let added = self.push_row(row, values);
        if added.is_err() {
            self.drop_row(row);
        }
        added
    }

    // Adds the coefficients of a row. If memory runs out, those of the first columns stay added.
    fn push_row(&mut self, row: usize, values: &[Narrow]) -> Result<(), AllocError> {
        let mut greatest: u64 = 0;
        for (column, value) in values.iter().enumerate() {
            if let Some(own) = self.columns.get_mut(column) {
                if !value.is_zero() {
                    own.push(Coefficient { row, value: *value })?;
                    greatest = greatest.max(value.get().unsigned_abs());
                }
            }
        }
        self.greatest.truncate(row);
        self.greatest.push(greatest)?;
        Ok(())
    }

    // Removes the coefficients of the last row, whose number is `row`.
    pub(crate) fn drop_row(&mut self, row: usize) {
        self.greatest.truncate(row);
        for own in self.columns.iter_mut() {
            if own.last().is_some_and(|last| last.row == row) {
                let _last = own.pop();
            }
        }
    }

    // Adds a column with a coefficient for each row.
    pub(crate) fn add_column(&mut self, values: &[Narrow]) -> Result<(), AllocError> {
        let mut own = Vec::new(self.alloc);
        for (row, value) in values.iter().enumerate() {
            if !value.is_zero() {
                own.push(Coefficient { row, value: *value })?;
            }
        }
        self.columns.push(own)?;
        for (row, value) in values.iter().enumerate() {
            if let Some(greatest) = self.greatest.get_mut(row) {
                *greatest = value.get().unsigned_abs().max(*greatest);
            }
        }
        Ok(())
    }

    // True if the absolute values of the multipliers, each times the greatest one of its row, sum to at most 2^62. Then no column's sum of
    // coefficients times these multipliers passes 2^62, and no part of such a sum does.
    pub(crate) fn are_small(&self, multipliers: &[Narrow]) -> bool {
        let mut bound: u128 = 0;
        for row in 0..self.greatest.len().min(multipliers.len()) {
            let multiplier = multipliers[row].get().unsigned_abs();
            let own = u128::from(self.greatest[row]) * u128::from(multiplier);
            bound = bound.saturating_add(own);
        }
        bound <= 1 << 62
    }
}

// Returns the sum of a column's coefficients, each times the multiplier of its row. It is right only if `are_small` holds of the
// multipliers.
#[inline(always)]
pub(crate) fn priced_small(column: &[Coefficient], multipliers: &[Narrow]) -> i64 {
    let mut sum: i64 = 0;
    for own in column {
        if let Some(multiplier) = multipliers.get(own.row) {
            sum = sum.wrapping_add(multiplier.get().wrapping_mul(own.value.get()));
        }
    }
    sum
}

// Returns the sum of a column's coefficients, each times the multiplier of its row.
pub(crate) fn priced(column: &[Coefficient], multipliers: &[Narrow]) -> Result<i128, ProveStop>
    ensures { IfErr result IsWideOrMemory }
{
    let mut sum = 0;
    for own in column {
        if let Some(multiplier) = multipliers.get(own.row) {
            if !multiplier.is_zero() {
                sum = wide_add(sum, times(*multiplier, own.value))?;
            }
        }
    }
    Ok(sum)
}
