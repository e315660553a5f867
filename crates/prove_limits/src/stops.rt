//! Why a run that makes proofs stops before its answer. A call of the engine that can stop returns a `ProveStop`, or an `AllocError` if
//! only memory can run out; `command_proofs` prints the stop of a run.

use crate::passes::Pass;
use std::alloc::{AllocError, AllocFailed};
use thiserror::Error;

/// What a run may spend.
#[derive(Clone, Copy, Debug, PartialEq, Eq)]
pub enum Limit {
    /// The pivots of the whole run.
    Pivots,
    /// The nodes of all search trees of the whole run.
    Nodes,
    /// The turns in which the lottery of a point is sought.
    Lottery,
}

/// Why a run that makes proofs stops before its answer.
#[derive(Clone, Copy, Debug, Error)]
pub enum ProveStop {
    /// The exact result of this operation has an absolute value above 2^62.
    #[error("an operation passes 2^62")]
    Wide(Pass),
    /// An entry of a table is within 2^62 but beyond the smaller width that its table was given.
    #[error("an entry passes the width of its table")]
    BeyondWidth,
    /// Nothing is left of this limit.
    #[error("a limit is spent")]
    Spent(Limit),
    /// The run met a state that exact arithmetic never leads to.
    #[error("a step found nothing to go on with")]
    Lost,
    /// No memory was left.
    #[error("out of memory")]
    OutOfMemory,
}

impl From<AllocError> for ProveStop {
    ghost use Rattle.std.specs.Prelude.{◌≡◌};
    ghost use Rattle.prove_limits.specs.declared.stops.ProveStop.TheVariants.{OutOfMemory};

    ghost from_gives = { λ _ stop. stop ≡ OutOfMemory };

    fn from(_error: AllocError) -> ProveStop {
        ProveStop::OutOfMemory
    }
}

impl<T: Drop> From<AllocFailed<T>> for ProveStop {
    ghost use Rattle.std.specs.Prelude.{◌≡◌};
    ghost use Rattle.prove_limits.specs.declared.stops.ProveStop.TheVariants.{OutOfMemory};

    ghost from_gives = { λ _ stop. stop ≡ OutOfMemory };

    fn from(_failed: AllocFailed<T>) -> ProveStop {
        ProveStop::OutOfMemory
    }
}
