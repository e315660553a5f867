//! The numbers and limits of the run that makes proofs: whole numbers of at most 2^62 by absolute value with exact operations, spans, the
//! budget of a run, and why a run stops. `command_meanings` says what is printed of budgets and stops, and `command_office` what the
//! program promises of them. Every public call is a promise: its contract says its result exactly.
#![tactic(auto)]

mod budgets;
mod narrow;
mod operations;
mod passes;
mod spans;
mod stops;

pub use budgets::Budget;
pub use narrow::Narrow;
pub use operations::{
    narrow_add, narrow_div, narrow_mul, narrow_sub, times, wide_add, wide_mul, wide_sub,
};
pub use passes::{Op, Pass};
pub use spans::Span;
pub use stops::{Limit, ProveStop};
