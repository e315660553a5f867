//! Rows as values. `exact_table` makes and changes them, `panel_search` and `pricing_pool` price in them.

ghost use Rattle.std.specs.Prelude.{◌≡◌, length, IfOk};

use std::alloc::AllocError;
use std::marker::Model;

/// A right side, and an entry for each class. A composition's weight in a row is the sum of each class's count times its entry. Any
/// numbers make a row, so its fields are public and may be written in place.
#[derive(Debug, Drop)]
pub struct Row {
    /// The right side.
    pub b: i128,
    /// The entries, one for each class, in class order.
    pub a: Vec<i128>,
}

impl Model for Row {
    ghost use Rattle.define_rows.specs.Row.{Row as Seen};

    ghost Value = { Seen };

    ghost view = { λ r. record { b = r.b; a = r.a.items } };
}

impl Row {
    /// Returns the row of this right side and these entries, one for each class in order.
    pub fn new(b: i128, a: Vec<i128>) -> Row
        ensures { result ≡ record { b = b; a = a.items } }
    {
        Row { b, a }
    }

    /// Returns the right side.
    pub fn side(&self) -> i128
        ensures { result ≡ self.now.b }
    {
        self.b
    }

    /// Returns the entries, in class order.
    pub fn entries(&self) -> &[i128]
        ensures { result.now ≡ self.now.a }
    {
        &self.a
    }

    /// Returns an equal row. Fails if memory runs out.
    pub fn copy(&self) -> Result<Row, AllocError>
        ensures { IfOk result (λ copied. copied ≡ self.now) }
    {
        Ok(Row {
            b: self.b,
            a: self.a.clone()?,
        })
    }

    /// Copies the numbers of `other`, a row with the same number of entries.
    pub fn copy_from(&mut self, other: &Row)
        requires { length self.old.a ≡ length other.now.a }
        ensures { self.new ≡ other.now }
    {
        self.b = other.b;
        self.a.copy_from_slice(&other.a);
    }
}
