//! Worked examples that are computed from the definitions: small pools, lotteries, certificates, texts and spread lotteries, right ones and
//! wrong ones. No crate uses this one, so a new example makes no other proof run again.
//!
//! The functions have no body: their contracts are the examples.
#![tactic(auto)]

pub mod certificates;
pub mod lotteries;
pub mod pools;
pub mod spreads;
pub mod texts;
