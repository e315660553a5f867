//! The check of a certificate: whether the stages of a bundle show that its lottery is leximin greatest, and if not, why. It uses none of
//! the crates of the solver: `alike`, `exact_table`, `panel_search`, `pricing_pool` and `leximin_run`. Promise: `check` returns exactly the
//! verdict of the definition, or stops at the stage whose search exceeds its visits.
#![tactic(auto)]

mod checking;
mod stops;

pub use check_reasons::{Refusal, Verdict};
pub use checking::check;
pub use stops::CheckStop;
