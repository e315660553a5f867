//! The commands of the office that the words of a call can ask for, with their arguments.

ghost use Rattle.std.specs.Prelude.{◌≡◌, IfOk};
ghost use Rattle.office_core.specs.Commands.{HasWorkers, seen_command};
ghost use Rattle.command_office.specs.Steps.{step_command};

use command_words::Word;
use define_runs::{Limits, Workers};
use office_core::Command;
use office_tables::{LaterRound, Tickets, copied_tickets};
use pool_model::Name;
use std::alloc::{AllocError, Global};

/// A command of the office, as the words give it. Texts are borrowed from the words. Rounds are named by their numbers, counted from 1.
#[derive(Debug, Drop)]
pub enum Step<'a> {
    /// Answers an open round by the stated run.
    Solve {
        /// The round's number.
        round: usize,
        /// The limits of the run.
        limits: Limits,
        /// How many workers price, on threads. The answer doesn't depend on it.
        workers: Workers,
    },
    /// Tells the seal of a round's bundle.
    Seal {
        /// The round's number.
        round: usize,
        /// The round number of tickets that is kept with the seal, if one is.
        tickets: Option<Tickets>,
    },
    /// Draws a panel from a sealed round.
    Draw {
        /// The round's number.
        round: usize,
        /// The seal of the round's bundle, as it was published.
        seal: Word<'a>,
        /// The digits of dice.
        digits: Word<'a>,
    },
    /// Prints what a draw from a sealed round would draw, and keeps nothing.
    Try {
        /// The round's number.
        round: usize,
        /// The seal of the round's bundle, as it was published.
        seal: Word<'a>,
        /// The digits of dice.
        digits: Word<'a>,
    },
    /// Lets a member of a drawn panel drop out.
    Drop {
        /// The round's number.
        round: usize,
        /// The member's id.
        id: Word<'a>,
    },
    /// Takes a dropout back.
    Undrop {
        /// The round's number.
        round: usize,
        /// The member's id.
        id: Word<'a>,
    },
    /// Begins the round after one that was drawn and from whose panel somebody dropped out.
    NextRound {
        /// The number of the round before.
        after: usize,
    },
    /// Takes the last round away while it is open.
    Reopen {
        /// The round's number.
        round: LaterRound,
    },
    /// Prints a round's bundle.
    Show {
        /// The round's number.
        round: usize,
    },
    /// Lets a volunteer withdraw.
    Withdraw {
        /// The volunteer's id.
        id: Word<'a>,
    },
}

/// Returns the command of the office that the words ask for.
///
/// # Errors
///
/// Want of memory.
pub fn command_of(alloc: Global, step: &Step<'_>) -> Result<Command, AllocError>
    ensures command { IfOk result (λ command. seen_command command ≡ step_command step.now) }
    ensures workers { IfOk result HasWorkers }
{
    match step {
        Step::Solve {
            round,
            limits,
            workers,
        } => Ok(Command::Solve {
            round: *round,
            limits: *limits,
            workers: workers.number(),
        }),
        Step::Seal { round, tickets } => Ok(Command::Seal {
            round: *round,
            tickets: copied_tickets(tickets),
        }),
        Step::Draw {
            round,
            seal,
            digits,
        } => Ok(Command::Draw {
            round: *round,
            seal: Name::new(alloc, seal.as_str())?,
            digits: Vec::from_slice(alloc, digits.as_str().as_bytes())?,
        }),
        Step::Try {
            round,
            seal,
            digits,
        } => Ok(Command::Try {
            round: *round,
            seal: Name::new(alloc, seal.as_str())?,
            digits: Vec::from_slice(alloc, digits.as_str().as_bytes())?,
        }),
        Step::Drop { round, id } => Ok(Command::Drop {
            round: *round,
            id: Name::new(alloc, id.as_str())?,
        }),
        Step::Undrop { round, id } => Ok(Command::Undrop {
            round: *round,
            id: Name::new(alloc, id.as_str())?,
        }),
        Step::Reopen { round } => Ok(Command::Reopen {
            round: round.copy(),
        }),
        Step::Withdraw { id } => Ok(Command::WithdrawId {
            id: Name::new(alloc, id.as_str())?,
        }),
        Step::NextRound { after } => Ok(Command::NextRound { after: *after }),
        Step::Show { round } => Ok(Command::Show { round: *round }),
    }
}
