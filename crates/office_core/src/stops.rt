//! Why a call of the office has no reply.

use crate::keeper::KeeperStop;
use check_proofs::Verdict;
use leximin_run::Stop;
use office_steps::{OfficeStop, Refusal};
use std::alloc::AllocError;

/// Why a command has no reply.
#[derive(Drop)]
pub enum DecideStop {
    /// A rule of the office or of the draw refuses.
    Refused(Refusal),
    /// The run over the round's pool stops.
    Solve(Stop),
    /// The proof is refused; the verdict says why.
    Unproved(Verdict),
    /// No memory was left.
    OutOfMemory,
}

impl From<AllocError> for DecideStop {
    ghost use Rattle.std.specs.Prelude.{◌≡◌};
    ghost use Rattle.office_core.specs.declared.stops.DecideStop.TheVariants.{OutOfMemory};

    ghost from_gives = { λ _ e. e ≡ OutOfMemory };

    fn from(_error: AllocError) -> DecideStop {
        DecideStop::OutOfMemory
    }
}

impl From<OfficeStop> for DecideStop {
    ghost use Rattle.std.specs.Prelude.{◌≡◌};
    ghost use Rattle.office_core.specs.Deciding.{stop_of_office};

    ghost from_gives = { λ stop e. e ≡ stop_of_office stop };

    fn from(stop: OfficeStop) -> DecideStop {
        match stop {
            OfficeStop::Refused(refusal) => DecideStop::Refused(refusal),
            OfficeStop::OutOfMemory => DecideStop::OutOfMemory,
        }
    }
}

/// Why a command over a keeper has no reply. The keeper's tables are then as before.
#[derive(Drop)]
pub enum ActStop {
    /// A rule of the office or of the draw refuses.
    Refused(Refusal),
    /// The run over the round's pool stops.
    Solve(Stop),
    /// The proof is refused; the verdict says why.
    Unproved(Verdict),
    /// The keeper counted a fault.
    KeeperFault,
    /// No memory was left.
    OutOfMemory,
}

impl From<KeeperStop> for ActStop {
    ghost use Rattle.std.specs.Prelude.{◌≡◌};
    ghost use Rattle.office_core.specs.Acting.{stop_of_keeper};

    ghost from_gives = { λ stop e. e ≡ stop_of_keeper stop };

    fn from(stop: KeeperStop) -> ActStop {
        match stop {
            KeeperStop::Failed => ActStop::KeeperFault,
            KeeperStop::OutOfMemory => ActStop::OutOfMemory,
        }
    }
}
