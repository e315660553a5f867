//! Why a command has no reply.

use crate::replies::Refusal;
use std::alloc::{AllocError, AllocFailed};

/// Why a command has no reply.
#[derive(Debug, Drop)]
pub enum OfficeStop {
    /// A rule of the office refuses.
    Refused(Refusal),
    /// No memory was left.
    OutOfMemory,
}

impl From<AllocError> for OfficeStop {
    ghost use Rattle.std.specs.Prelude.{◌≡◌};
    ghost use Rattle.office_steps.specs.declared.stops.OfficeStop.TheVariants.{OutOfMemory};

    ghost from_gives = { λ _ e. e ≡ OutOfMemory };

    fn from(_error: AllocError) -> OfficeStop {
        OfficeStop::OutOfMemory
    }
}

impl<T: Drop> From<AllocFailed<T>> for OfficeStop {
    ghost use Rattle.std.specs.Prelude.{◌≡◌};
    ghost use Rattle.office_steps.specs.declared.stops.OfficeStop.TheVariants.{OutOfMemory};

    ghost from_gives = { λ _ e. e ≡ OutOfMemory };

    fn from(_error: AllocFailed<T>) -> OfficeStop {
        OfficeStop::OutOfMemory
    }
}
