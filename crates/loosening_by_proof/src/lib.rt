//! A least loosening of a pool's quotas, by integer programs.
//!
//! Promises: this crate itself checks what `loosen_by_proof` returns, by adding and comparing whole numbers (`bounds`, `covers`, `teams`).
//! So a loosening that it returns is least, and if it returns that there is no team, there is none, whatever the search did. If there are
//! several least loosenings, no promise says which one is returned.
#![tactic(auto)]

mod answers;
mod bounds;
mod covers;
mod leaves;
mod programs;
mod quotas;
mod searches;
mod teams;

pub use answers::loosen_by_proof;
