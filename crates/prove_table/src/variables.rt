//! The variables of a table: its columns, and the sums of its rows. `rows`, `slots`, `spans`, `combining`, `candidates`, `worst` and
//! `table` use this.

use std::cmp::Reverse;

// The sum of a row, or a column, by its number. In the order of variables all rows come before all columns, and the latest row is first.
#[derive(Clone, Copy, PartialEq, Eq, PartialOrd, Ord)]
pub(crate) enum Variable {
    Row(Reverse<usize>),
    Column(usize),
}

impl Variable {
    // Returns the variable that is the sum of a row.
    pub(crate) fn row(row: usize) -> Variable {
        Variable::Row(Reverse(row))
    }
}
