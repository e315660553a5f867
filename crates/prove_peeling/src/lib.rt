//! Makes a lottery over panels that gives each volunteer the chance of a point. Panels are peeled off the point one after the other, or in
//! a large pool sets of classes. If a remainder is left, an exact table looks for weights of the panels seen that make it up. Or the point
//! is mixed from compositions. Compositions are spread over panels. Promises: each call is safe and ends, and gives nothing of the budget
//! back. That the lottery has the point's chances is no promise: `check_proofs` tests each proof.
#![tactic(auto)]

mod class_mixes;
mod class_peels;
mod faces;
mod free_classes;
mod lotteries;
mod odds;
mod peels;
mod pricing;
mod remainders;
mod rows;
mod seen;
mod spreads;
mod tails;

pub use lotteries::{Peeled, WeightedPanel, lottery_of_point, mix_of};
pub use rows::{PanelRows, weights_of};
