//! The commands about quotas that can't be met. `why` says in words which quotas can't be met together, so that the pool has no quota
//! panel; or else it prints a quota panel. `loosen` and `loosen-by-proof` print a least loosening of the quotas.
//!
//! Promises: the three commands answer as `command_meanings` says. `why` has no answer only where the search of `panel` is spent, and
//! `why_answers_where_panel_does` is the law that follows. Which of several conflicts is found is no promise. A proof isn't verified: its
//! tree is where the engine begins.
#![tactic(auto)]

mod about;
mod lines;
mod loosen;
mod loosen_by_proof;
mod panels;
mod why;
mod worked;

pub use about::PoolOrProof;
pub use loosen::{Loosen, loosen_has_one_answer};
pub use loosen_by_proof::{
    LoosenByProof, loosen_by_proof_answers_where_loosen_does, loosen_totals_are_equal,
};
pub use why::{Why, why_answers_where_panel_does};
