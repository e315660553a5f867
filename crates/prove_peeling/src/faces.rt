//! The face of a remainder: what holds of every panel that can be peeled off it.

ghost use Rattle.std.specs.Prelude.{◌≡◌, length, IfOk};

use crate::remainders::Remainder;
use crate::rows::PanelRow;
use prove_limits::{Narrow, ProveStop, Span, times};
use std::alloc::Global;

/// Spans that hold of every panel that can be peeled off a remainder. A volunteer whose part equals the total is on each of these
/// panels, and one whose part is 0 is on none. If a row's sum over the remainder is an end of the row's span times the total, the row's sum
/// over each of these panels is that end. `sums` has the rows' sums over the remainder.
#[derive(Drop)]
pub(crate) struct Face {
    pub(crate) columns: Vec<Span>,
    pub(crate) rows: Vec<Span>,
    pub(crate) sums: Vec<i128>,
}

impl Face {
    /// Returns the face of a remainder with a total above 0.
    pub(crate) fn of(
        alloc: Global,
        remainder: &Remainder,
        rows: &[PanelRow],
    ) -> Result<Face, ProveStop>
        ensures columns { IfOk result (λ face. length face.columns.items ≡ length remainder.now.parts.items) }
        ensures rows { IfOk result (λ face. length face.rows.items ≡ length rows.now) }
    {
        let mut columns = Vec::new(alloc);
        for column in 0..remainder.parts.len() {
            columns.push(column_span(remainder.parts[column], remainder.total))?;
        }
        let mut spans = Vec::new(alloc);
        let mut sums = Vec::new(alloc);
        for row in 0..rows.len() {
            let sum = rows[row].sum(&remainder.parts)?;
            spans.push(row_span(rows[row].span, sum, remainder.total))?;
            sums.push(sum)?;
        }
        Ok(Face {
            columns,
            rows: spans,
            sums,
        })
    }

    /// True if a panel, given by a value of 0 or 1 for each volunteer, is within the spans of the face.
    pub(crate) fn has(&self, rows: &[PanelRow], point: &[Narrow]) -> Result<bool, ProveStop> {
        for column in 0..self.columns.len().min(point.len()) {
            if !is_in(self.columns[column], point[column].wide()) {
                return Ok(false);
            }
        }
        for row in 0..self.rows.len().min(rows.len()) {
            if !is_in(self.rows[row], rows[row].sum(point)?) {
                return Ok(false);
            }
        }
        Ok(true)
    }
}

/// Returns the span of a volunteer with this part of the total: 1 if it is all, 0 if it is nothing, else from 0 to 1.
fn column_span(part: Narrow, total: Narrow) -> Span {
    let least = if part.get() >= total.get() {
        Narrow::ONE
    } else {
        Narrow::ZERO
    };
    let greatest = if part.get() > 0 {
        Narrow::ONE
    } else {
        Narrow::ZERO
    };
    Span::reaching(least, greatest)
}

/// Returns the span of a row with the sum `sum` over the remainder: one number if the sum is the greatest or the least that the row allows.
fn row_span(span: Span, sum: i128, total: Narrow) -> Span {
    if sum == times(span.greatest(), total) {
        Span::point(span.greatest())
    } else if sum == times(span.least(), total) {
        Span::point(span.least())
    } else {
        span
    }
}

/// True if a value lies in a span.
pub(crate) fn is_in(span: Span, value: i128) -> bool {
    span.least().wide() <= value && value <= span.greatest().wide()
}
