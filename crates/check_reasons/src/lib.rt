//! The reasons for which a certificate is refused, in their order: first those of the lottery; then, for each stage, those that are tried
//! before its cap, and that a listed panel doesn't weigh the cap; last, that somebody is left unsettled. Reason 8, that a quota panel is
//! above a cap, isn't here, since a search or a proof decides it. And the numbers of the lines that verdicts name (`line_counts`).
//!
//! Promises: `lottery_verdict`, the calls of `Course`, `Verdict` with its `Refusal`, and the counts of lines. The module `quotas` is a
//! helper.
#![tactic(auto)]

mod counting;
mod courses;
mod lotteries;
mod quotas;
mod verdicts;

pub use counting::{bundle_line_count, lines_after, pool_line_count};
pub use courses::Course;
pub use lotteries::lottery_verdict;
pub use verdicts::{Refusal, Verdict};
