//! The table of `prove` (that of `lottery` is `exact_table`): columns within spans, and rows, which are sums of columns times coefficients
//! and have spans too. A run finds a point that keeps all spans, or multipliers of the rows that show that there is none. All its numbers
//! are whole: each row's basic variable times the denominator is the sum of the row's entries times the variables that are not basic. A row
//! keeps only its entries at places, slots whose variables are sums of rows; those at slots of columns follow from these and coefficients.
//!
//! Promises: each call is safe and ends; it changes the sizes, spends and stops only as its clauses say. That a point or a refutation is
//! right is no promise: the callers test points, and `check_proofs` tests proofs.
#![tactic(auto)]

mod candidates;
mod coefficients;
mod combining;
mod divisors;
mod eliminating;
mod guesses;
mod pseudo_random;
mod rows;
mod slots;
mod spans;
mod table;
mod variables;
mod worst;

pub use divisors::{common_divisor, divide_by_common};
pub use pseudo_random::PseudoRandom;
pub use table::Table;
