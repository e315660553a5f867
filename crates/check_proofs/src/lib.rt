//! The check of a proof: whether it shows that a lottery is leximin greatest, or that a pool has no quota panel; if it does not, why it is
//! refused. The check multiplies, adds and compares whole numbers. It searches nothing and divides nothing, and its time grows with the
//! size of the text times the number of volunteers.
//!
//! Promise: `verify` returns exactly the verdict of the definitions. All other functions are helpers; `is_in_reach` is lent to
//! `command_proofs`.
#![tactic(auto)]

mod constraints;
mod leaves;
mod paths;
mod trees;
mod verifying;

pub use check_reasons::{Refusal, Verdict};
pub use proof_text::Proof;
pub use verifying::{is_in_reach, verify};
