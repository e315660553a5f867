//! What a draw answers: what is drawn, or why nothing is.

use pool_model::Panel;
use std::alloc::AllocError;
use thiserror::Error;

/// What is drawn.
#[derive(Debug, Drop)]
pub struct Draw {
    /// The ticket that the digits name, from 0 to the total less 1.
    pub ticket: i128,
    /// How many digits were read.
    pub used: usize,
    /// The panel whose range has the ticket.
    pub panel: Panel,
}

/// Why nothing is drawn.
#[derive(Debug, Drop, Error)]
pub enum DrawStop {
    /// The seal that was given isn't the one that is kept.
    #[error("the seal is {kept}, and {given} was given")]
    SealDiffers {
        /// The seal as it was given.
        given: String,
        /// The seal that is kept.
        kept: String,
    },
    /// A byte isn't one of the digits `0` to `9`.
    #[error("byte {place} is no digit")]
    BadDigit {
        /// The place of the first such byte, from 1.
        place: usize,
    },
    /// The digits name no ticket: more dice must be thrown.
    #[error("the {read} digits name no ticket")]
    MoreDigits {
        /// How many digits were given.
        read: usize,
    },
    /// No memory was left.
    #[error("out of memory")]
    OutOfMemory,
}

impl From<AllocError> for DrawStop {
    ghost use Rattle.std.specs.Prelude.{◌≡◌};
    ghost use Rattle.sealed_draw.specs.declared.drawn.DrawStop.TheVariants.{OutOfMemory};

    ghost from_gives = { λ _ e. e ≡ OutOfMemory };

    fn from(_error: AllocError) -> DrawStop {
        DrawStop::OutOfMemory
    }
}
