//! Pricing in pieces, which workers run on threads: the search for the best composition, cut into the searches below fronts, which run in
//! waves. The composition and the visits are the same for every number of workers. Where the pieces share a bound, the composition still
//! is, and the visits are at most those without it.
//!
//! Promises: `best_by` and `price_by`, and `best_sharing` and `price_sharing`, whose pieces share a bound. The modules `wave`, `waves`,
//! `shared_wave`, `shared_waves` and `workers` are helpers.
#![tactic(auto)]

mod pricing;
mod shared_wave;
mod shared_waves;
mod sharing;
mod wave;
mod waves;
mod workers;

pub use pricing::{best_by, price_by};
pub use sharing::{best_sharing, price_sharing};
