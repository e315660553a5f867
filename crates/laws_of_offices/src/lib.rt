//! Laws of the office of `define_offices`, beyond those in its module `laws`: what is true of all tables that a list of commands leaves, and
//! what commands keep or take back.
//!
//! The functions have no body. Their contracts are the laws, and the promises of this crate.
#![tactic(auto)]

pub mod bounds;
pub mod seats;
pub mod taken_back;
pub mod versions;
