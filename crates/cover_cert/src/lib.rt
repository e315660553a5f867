//! Covers made and checked. A cover shows without a search that the caps of a certificate hold, so that the lottery is leximin greatest.
//! `cover` checks a certificate, and if it is valid, returns the fronts that the check's searches tried and didn't enter. `check_cover`
//! says whether a cover shows what it should; if not, why it is refused. It searches nothing: it judges each front of the cover once.
//!
//! Promises: `check_cover` returns exactly the verdict of the definitions, with a step for each front that it judges. `cover` answers as
//! `check` of `cert_check` does, with a cover exactly if the certificate is valid, and `check_cover` finds that cover valid. All other
//! functions are helpers.
#![tactic(auto)]

mod causes;
mod checking;
mod judging;
mod making;
mod order;
mod steps;
mod trees;

pub use cert_check::CheckStop;
pub use check_reasons::{Refusal, Verdict};
pub use checking::check_cover;
pub use cover_text::{Cause, Cover, FrontLine, Fronts};
pub use making::{Covered, cover};
pub use steps::Steps;
