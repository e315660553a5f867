//! What a command answers: a reply, or a refusal.

use define_offices::{Part, Phase};
use pool_model::Name;

/// The reply of a command that isn't refused.
#[derive(Debug, Drop)]
pub enum Reply {
    /// The lines that are printed, as one text, each ended by LF. A withdrawal has none.
    Lines(Vec<u8>),
    /// The pool of the round has no quota panel.
    NoPanel,
}

/// Why a command is refused by a rule of the office or of the draw.
#[derive(Debug, Drop)]
pub enum Refusal {
    /// There is no round of this number.
    NoRound {
        /// The number of the last round.
        last: usize,
    },
    /// A part of the office's tables is missing.
    Incomplete {
        /// Which part is missing.
        what: Part,
    },
    /// The phase of the round doesn't allow the command. For an import, it is the last round's phase.
    WrongPhase {
        /// The round's phase.
        phase: Phase,
    },
    /// A row of the import differs from the kept row with its id, or rows and rules don't fit.
    RowDiffers {
        /// The row's id, or `rules`.
        what: Name,
    },
    /// Another row has this key.
    KeyTaken {
        /// The id of that row.
        id: Name,
    },
    /// The register is full, with the rows that the import adds before this one.
    RegisterFull {
        /// How many rows the register takes.
        rows: usize,
    },
    /// The round isn't sealed yet.
    NotSealed {
        /// The round's phase.
        phase: Phase,
    },
    /// The seal that was given isn't the one of the round's bundle.
    SealDiffers {
        /// The seal as it was given.
        given: Name,
        /// The seal of the bundle.
        kept: Name,
    },
    /// The round was drawn by other digits.
    DrawDiffers {
        /// The digits by which it was drawn.
        kept: Vec<u8>,
    },
    /// A byte isn't one of the digits `0` to `9`.
    BadDigit {
        /// The place of the first such byte, from 1.
        place: usize,
    },
    /// The digits name no ticket: more dice must be thrown.
    MoreDigits {
        /// How many digits were given.
        read: usize,
    },
    /// The volunteer isn't in the drawn panel.
    NotSeated {
        /// The volunteer's id.
        id: Name,
    },
    /// A later round has begun.
    RoundClosed {
        /// The number of the last round.
        last: usize,
    },
    /// The proof is of another pool than the round's.
    OtherPool {
        /// The round's number.
        round: usize,
    },
    /// No row of the register has this key.
    UnknownKey,
    /// The volunteer can't withdraw any more.
    TooLate,
    /// The round was sealed with another number of tickets.
    TicketsDiffer {
        /// The number that was kept with the seal, 0 if none was.
        kept: usize,
    },
    /// The volunteer didn't drop out of the round.
    NotDropped {
        /// The volunteer's id.
        id: Name,
    },
    /// No row of the register has this id.
    UnknownId {
        /// The id.
        id: Name,
    },
}
