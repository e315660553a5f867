//! The face of a point over classes: the rows that hold of each composition which a mix of the point can have.

use crate::free_classes::FreeClasses;
use crate::rows::{PanelRow, value_at};
use prove_limits::{Narrow, ProveStop, Span, times, wide_add, wide_mul};
use prove_stages::CompositionSearch;
use std::alloc::Global;

/// A row over classes: a coefficient for each class, and the span of its sums.
#[derive(Drop)]
pub(crate) struct ClassRow {
    coefficients: Vec<Narrow>,
    span: Span,
}

impl ClassRow {
    /// Returns the sum of the counts, each times the coefficient of its class.
    fn sum(&self, counts: &[i64]) -> Result<i128, ProveStop> {
        let mut sum = 0;
        for class in 0..self.coefficients.len().min(counts.len()) {
            let coefficient = self.coefficients[class].wide();
            sum = wide_add(sum, wide_mul(coefficient, i128::from(counts[class]))?)?;
        }
        Ok(sum)
    }
}

/// Returns the rows over classes. A row whose sum over the point is an end of its span has that sum in each composition of a mix.
pub(crate) fn class_rows(
    alloc: Global,
    free: &FreeClasses<'_>,
    rows: &[PanelRow],
) -> Result<Vec<ClassRow>, ProveStop> {
    let mut own = Vec::new(alloc);
    for row in rows {
        let coefficients = free.coefficients(row)?;
        let span = face_span(free, row.span, &coefficients)?;
        own.push(ClassRow { coefficients, span })?;
    }
    Ok(own)
}

/// Returns a search for compositions within these rows.
pub(crate) fn search_of(
    alloc: Global,
    free: &FreeClasses<'_>,
    rows: &[ClassRow],
) -> Result<CompositionSearch, ProveStop> {
    let mut search = CompositionSearch::new(alloc, &free.spans)?;
    for row in rows {
        search.add_row(&row.coefficients, row.span)?;
    }
    Ok(search)
}

/// True if a composition, given by its count for each class, is within all rows.
pub(crate) fn are_met(rows: &[ClassRow], counts: &[i64]) -> Result<bool, ProveStop> {
    for row in rows {
        let sum = row.sum(counts)?;
        if sum < row.span.least().wide() || row.span.greatest().wide() < sum {
            return Ok(false);
        }
    }
    Ok(true)
}

/// Returns the span of a row: one number if the row's sum over the point is an end of the row's span.
fn face_span(
    free: &FreeClasses<'_>,
    span: Span,
    coefficients: &[Narrow],
) -> Result<Span, ProveStop> {
    let mut sum = 0;
    for class in 0..coefficients.len() {
        let own = wide_mul(value_at(coefficients, class).wide(), free.amount(class))?;
        sum = wide_add(sum, own)?;
    }
    Ok(if sum == times(span.greatest(), free.total) {
        Span::point(span.greatest())
    } else if sum == times(span.least(), free.total) {
        Span::point(span.least())
    } else {
        span
    })
}
