//! Texts that report: the report of a round of an office; the pool that `make` makes from a number, and the summary of its run; and the
//! text that tells the legs of a run.
//!
//! Promises: `round_report` returns exactly the report of the definitions or the refusal, `made_pool` exactly the pool of the definitions,
//! `run_summary` exactly their summary, and `legs_text` exactly their text of legs.
#![tactic(auto)]

mod generator;
mod legs;
mod made_pools;
mod report_chances;
mod report_heads;
mod report_quotas;
mod reports;
mod summaries;

pub use define_legs::Leg;
pub use define_runs::RunSizes;
pub use legs::legs_text;
pub use made_pools::made_pool;
pub use reports::round_report;
pub use summaries::run_summary;
