//! Mixes, for the engine of `prove`: a point as a sum of columns, which are compositions, times weights of at least 0. In fixed point
//! `masters` finds weights, and `exact` their duals as whole numbers; `wholes` solves whole weights over a basis with a small determinant.
//! Promises: each call is safe and ends, and gives nothing of the budget back. What is found is advice, since `check_proofs` tests each
//! proof.
#![tactic(auto)]

mod bases;
mod columns;
mod exact;
mod fixed;
mod inverses;
mod masters;
mod remnants;
mod wholes;

pub use columns::{Column, Columns};
pub use fixed::{UNIT, fraction, rounded};
pub use masters::{Master, Solved};
pub use wholes::{Whole, whole_weights};
