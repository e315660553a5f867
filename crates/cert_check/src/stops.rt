//! Why a check ends without a verdict.

use std::alloc::AllocError;
use thiserror::Error;

/// Why a check ends without a verdict.
#[derive(Debug, Drop, Error)]
pub enum CheckStop {
    /// The search for a panel above the cap of a stage needs more visits than its budget.
    #[error("the search at stage {stage} takes more visits than it may")]
    NodesSpent {
        /// The number of the stage, from 1.
        stage: usize,
    },
    /// No memory was left.
    #[error("out of memory")]
    OutOfMemory,
}

impl From<AllocError> for CheckStop {
    ghost use Rattle.std.specs.Prelude.{◌≡◌};
    ghost use Rattle.cert_check.specs.declared.stops.CheckStop.TheVariants.{OutOfMemory};

    ghost from_gives = { λ _ e. e ≡ OutOfMemory };

    fn from(_error: AllocError) -> CheckStop {
        CheckStop::OutOfMemory
    }
}
