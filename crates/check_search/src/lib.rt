//! A check's search for a quota panel above the cap of a stage, under a budget of visits. It makes classes of its own, which also depend on
//! the weights of the stages, and goes through their compositions. It uses none of the crates of the solver: `alike`, `exact_table`,
//! `panel_search`, `pricing_pool` and `leximin_run`.
//!
//! Promise: `panel_above_cap`. All else is a helper.
#![tactic(auto)]

mod above_cap;
mod composing;
mod greatest;
mod grouping;
mod groups;
mod homes;
mod likeness;
mod rows;
mod searching;
mod tallies;
mod tally;
mod terms;
mod weighing;

pub use above_cap::{panel_above_cap, terms_of};
pub use greatest::Sums;
pub use groups::{Class, Classes, ValueBounds};
pub use rows::StageRow;
pub use searching::CapStop;
pub use tally::Tally;
pub use terms::Terms;
pub use weighing::optimistic_weight;
