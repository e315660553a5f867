//! The spans of one run, by variable. `table` makes a `Spans` for each run; `slots`, `candidates` and `worst` look spans up in it.

use crate::variables::Variable;
use prove_limits::{Narrow, Span};

// The spans of columns and of rows.
#[derive(Clone, Copy)]
pub(crate) struct Spans<'a> {
    columns: &'a [Span],
    rows: &'a [Span],
}

impl<'a> Spans<'a> {
    // Returns the spans of all columns and rows, in the order of their numbers.
    pub(crate) fn new(columns: &'a [Span], rows: &'a [Span]) -> Spans<'a> {
        Spans { columns, rows }
    }

    // Returns the span of a variable.
    pub(crate) fn of(&self, variable: Variable) -> Span {
        let span = match variable {
            Variable::Row(row) => self.rows.get(row.0),
            Variable::Column(column) => self.columns.get(column),
        };
        span.copied().unwrap_or(Span::point(Narrow::ZERO))
    }
}
