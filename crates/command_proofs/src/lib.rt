//! The commands about proofs: `prove`, `verify` and `bundle`. Each is a struct of its arguments; what its answers mean is defined in
//! `command_meanings`.
//!
//! Promises: the three commands; `call_prove`; `prove_within`; `prove_alone`, which is `prove` about a pool without its run of `lottery` and
//! so without threads; and `proof_within`, which makes a valid proof of a pool, or a lottery without trees, or nothing. Their runs give
//! nothing back to a budget.
#![tactic(auto)]

mod beyond;
mod its_bundle;
mod lines;
mod making;
mod proving;
mod proving_lines;
mod settling;
mod verify;

pub use its_bundle::ItsBundle;
pub use making::{Made, proof_within};
pub use proving::{Prove, call_prove, prove_alone, prove_within};
pub use verify::Verify;
