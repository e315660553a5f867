//! Proofs as values, and their text: a proof is read from it, or answered with its first fault, and written as it. `define_proofs` defines
//! both.
//!
//! Promises: `Proof`, its trees and their ranges; `read_proof` returns exactly the proof that the bytes spell or their first fault, and
//! `write_proof` returns the proof's text. All other functions are helpers.
#![tactic(auto)]

mod leaves;
mod lines;
mod progress;
mod proofs;
mod ranges;
mod reading;
mod trees;
mod writing;

pub use leaves::{Leaf, Multiplier};
pub use proofs::{Parts, Proof, most_trees};
pub use ranges::{GREATEST_CONSTRAINT, is_leaf, is_multiplier, is_tree_line};
pub use reading::read_proof;
pub use trees::{Node, TreeLine, TreeLines};
pub use writing::write_proof;
