//! What a command answers.

use crate::status::{Cause, Printed};

/// What a command answers. It is complete before any byte of it is written.
#[derive(Debug, Drop)]
pub enum Answer {
    /// A text for `out`.
    Prints {
        /// How the command ends.
        printed: Printed,
        /// Lines, each ended by LF.
        text: Vec<u8>,
    },
    /// A line for `errs`.
    Stops {
        /// Why the command stops.
        cause: Cause,
        /// The line with its LF.
        line: Vec<u8>,
    },
}
