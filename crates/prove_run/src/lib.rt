//! A run that makes a proof of a pool: its stages, a lottery of their point, and a tree for each stage; or a tree that shows that there is
//! no quota panel. And searches for the trees of a bundle, or of a pool without a quota panel, which their count of nodes ends. Promises: a
//! proof or a lottery is over the given pool, or of the given bundle; and nothing of a budget is given back. That a proof is valid is no
//! promise.
#![tactic(auto)]

mod answers;
mod caps;
mod paths;
mod programs;
mod runs;
mod splits;
mod trees;

pub use runs::{RunMade, make_proof, prove_bundle, prove_none};
pub use trees::TreesBy;
