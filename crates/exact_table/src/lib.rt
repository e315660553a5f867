//! The exact simplex table of the leximin program, in whole numbers under a width: rows `(b; a_1 .. a_m)` whose greatest common divisor is
//! 1, Bland's rule, and a pivot that is made whole or stops at the first operation that passes the width.
//!
//! Promises: the calls of `Table`, each exactly the definition's step, and `basis_bound`. All other modules are helpers over numbers and
//! slices.
#![tactic(auto)]

mod bases;
mod bounds;
mod choosing;
mod frame;
mod marks;
mod pivoting;
mod rows;
mod starting;
mod table;
mod width;

pub use bases::basis_bound;
pub use define_rows::{Composition, Op, Pass, Row, Var};
pub use table::Table;
use thiserror::Error;

/// Why a table was not made.
#[derive(Debug, Drop, Error)]
pub enum TableStop {
    /// The first operation of the rows' reaches that passes the width.
    #[error("row {} passes the width", .0.row)]
    Pass(Pass),
    /// No memory was left.
    #[error("out of memory")]
    OutOfMemory,
}
