//! The least loosening of a pool's quotas: the bounds are moved by as little as possible in all so that there is a quota panel. A search
//! under a budget of visits finds it.
//!
//! Promises: `loosen`, `Loosened::for_team`, and `number_with`. All else is a helper.
#![tactic(auto)]

mod bounds;
mod homes;
mod least;
mod searching;
mod tallies;
mod tally;

pub use bounds::number_with;
pub use least::{Loosened, loosen};
pub use searching::LoosenStop;
