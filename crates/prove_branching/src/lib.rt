//! The search for a point of whole numbers that keeps the spans of a table's columns and rows: if the table's point is not whole, a
//! column's span is split there and both parts are searched. The same search, run to its end, lists the steps that show that there is no
//! such point. It knows nothing of proofs: `prove_run` and `quota_conflicts` turn the steps into the lines of trees. Promises: a point lies
//! in the columns' spans, and each call ends, spends what its clauses say, and stops only as they allow. That a point keeps the rows'
//! spans, or that there is none, is no promise: callers test points, and `check_proofs` tests proofs.
#![tactic(auto)]

mod nodes;
mod path;
mod proving;
mod refutations;
mod searching;
mod steps;
mod weighing;

pub use proving::prove_empty;
pub use refutations::in_lowest_terms;
pub use searching::{Found, search};
pub use steps::{Refutation, Step};
pub use weighing::{add_weights, ceiling, reach_of, search_weighing};
