//! The rows of the first table. `Table::start` calls it.

ghost use Rattle.std.specs.Prelude.{◌≡◌, ◌+◌, ◌<◌, ◌^◌, ◌∷◌, map, length, IfOk, Ok, pos, ◌≤ℤ◌, unsigned_abs};
ghost use Rattle.std.specs.List.{All, range_with_len};
ghost use Rattle.define_rows.specs.Row.{reach};
ghost use Rattle.define_rows.specs.Width.{all_in_turn, reach_operations};
ghost use Rattle.define_rows.specs.Pivot.{first_rows};
ghost use Rattle.exact_table.specs.Starting.{PassesWith};

use crate::rows;
use define_rows::{Pass, Row, Var};
use std::alloc::{AllocError, Global};

// Returns the rows of the first table, given the counts of the first column.
pub(crate) fn first_rows(alloc: Global, first: &[usize]) -> Result<Vec<Row>, AllocError>
    ensures { IfOk result (λ rows. rows.items ≡ first_rows first.now) }
{
    let classes = first.len();
    let mut rows = Vec::new(alloc);
    rows.push(rows::of_total(alloc, classes)?)?;
    for class in 0..classes {
        rows.push(rows::of_class(alloc, classes, class, first[class])?)?;
    }
    Ok(rows)
}

// Computes the reach of each row under the width. Fails with the first operation that passes it.
pub(crate) fn check_reaches(most: i128, sizes: &[usize], rows: &[Row]) -> Result<(), Pass>
    requires most { pos 0 ≤ℤ most }
    requires entries { All (λ row. length row.a ≡ length sizes.now) rows.now }
    requires sides { All (λ row. unsigned_abs row.b < 2 ^ 127) rows.now }
    requires small { All (λ row. All (λ x. unsigned_abs x < 2 ^ 127) row.a) rows.now }
    ensures { PassesWith result (all_in_turn (reach_operations (unsigned_abs most) sizes.now) 0 rows.now) }
{
    for place in 0..rows.len() {
        let row = &rows[place];
        match rows::reach_operations(most, place, row, sizes) {
            Ok(_) => {}
            Err(pass) => return Err(pass),
        }
    }
    Ok(())
}

// Returns the basic variables of the first table: column 0, then the slacks.
pub(crate) fn first_basic(alloc: Global, classes: usize) -> Result<Vec<Var>, AllocError>
    ensures { IfOk result (λ basic. basic.items ≡ Var.Column 0 ∷ map Var.Slack (range_with_len 0 classes)) }
{
    let mut basic = Vec::new(alloc);
    basic.push(Var::Column(0))?;
    for class in 0..classes {
        basic.push(Var::Slack(class))?;
    }
    Ok(basic)
}
