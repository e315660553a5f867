//! The text of a bundle, which is a pool with its answer: a lottery, and the stages that certify it. It is read into a bundle or answered
//! with its first fault, and a bundle is written as its text.
//!
//! Promises: `Bundle`, `read_bundle`, `write_bundle` and `is_in_ranges`. `Progress` and `after` are for the reader of proofs.
#![tactic(auto)]

mod bundles;
mod faults;
mod lines;
mod progress;
mod ranges;
mod reading;
mod writing;

pub use bundles::Bundle;
pub use faults::{BundleFault, ReadBundle};
pub use progress::{Progress, after};
pub use ranges::is_in_ranges;
pub use reading::read_bundle;
pub use writing::write_bundle;
