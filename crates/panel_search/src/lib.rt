//! The searches for the first composition of a pool's classes, and for the best one in a row, under a budget of visits.
//!
//! Promises: `first`, `best`, `pieces` and `best_from`, and the calls of `Pricer` and `PricedRow`, which keep the tables that each search
//! needs of the closed rows and of the priced row. `PricedRow::shared_from` searches below a front and shares a word with other searches,
//! whose rule is `Beaten`. `is_live` tests one front and takes no memory. All other modules are helpers.
#![tactic(auto)]

mod counting;
mod dividing;
mod fronts;
mod greatest;
mod homes;
mod live;
mod priced;
mod pricer;
mod pricing;
mod searching;
mod sharing;
mod tallies;
mod tally;
mod units;
mod weighing;
mod word;

pub use define_rows::Row;
pub use fronts::Front;
pub use live::is_live;
pub use priced::PricedRow;
pub use pricer::{Pricer, best, best_from, pieces, pricer_of};
pub use searching::{SearchStop, first};
pub use word::{Beaten, Scope};
