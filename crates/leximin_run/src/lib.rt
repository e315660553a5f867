//! The stated run, by which `lottery` finds a lottery (`prove` has an engine of its own). It begins with the opening search. Then, stage by
//! stage, it makes pivots, prices compositions and closes the stage, until everybody is settled, and spreads what it found over panels.
//!
//! Promises: `solve`, `solve_sharing`, `solve_sized` and `solve_traced`. All else is a helper.
#![tactic(auto)]

mod certifying;
mod running;
mod solving;
mod stops;
mod tracing;

pub use define_legs::Leg;
pub use define_runs::{Limits, RunSizes};
pub use solving::{solve, solve_sharing, solve_sized, solve_traced};
pub use stops::{At, Solved, SolvedSized, SolvedTraced, Stop};
