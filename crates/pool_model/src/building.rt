//! Why a step of building a pool is refused. The readers of texts stop with it too.

use std::alloc::{AllocError, AllocFailed};
use thiserror::Error;

/// Why a step of building a pool is refused.
#[derive(Debug, Drop, Error)]
pub enum BuildStop {
    /// The lowest kind of fault that applies. Kinds are numbered as in the faults of the texts of pools, bundles and proofs.
    #[error("fault of kind {0}")]
    Kind(u8),
    /// No memory was left.
    #[error("out of memory")]
    OutOfMemory,
}

impl From<AllocError> for BuildStop {
    ghost use Rattle.std.specs.Prelude.{◌≡◌};
    ghost use Rattle.pool_model.specs.declared.building.BuildStop.TheVariants.{OutOfMemory};

    ghost from_gives = { λ _ e. e ≡ OutOfMemory };

    fn from(_error: AllocError) -> BuildStop {
        BuildStop::OutOfMemory
    }
}

impl<T: Drop> From<AllocFailed<T>> for BuildStop {
    ghost use Rattle.std.specs.Prelude.{◌≡◌};
    ghost use Rattle.pool_model.specs.declared.building.BuildStop.TheVariants.{OutOfMemory};

    ghost from_gives = { λ _ e. e ≡ OutOfMemory };

    fn from(_error: AllocFailed<T>) -> BuildStop {
        BuildStop::OutOfMemory
    }
}
