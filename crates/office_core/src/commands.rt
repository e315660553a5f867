//! The commands of an office.

ghost use Rattle.define_offices.specs.Facts.{IsCommand};
ghost use Rattle.office_core.specs.Commands.{seen_command};

use define_runs::Limits;
use office_tables::{Charter, LaterRound, Rows, Rules, Tickets, tickets_facts};
use pool_model::Name;
use proof_text::Proof;

/// A command of the office. Rounds are named by their numbers, counted from 1.
#[derive(Debug, Drop)]
pub enum Command {
    /// Sets the charter, while volunteers are enrolled.
    Charter(Charter),
    /// Sets the rules, while volunteers are enrolled.
    Rules(Rules),
    /// Adds rows to the register, while volunteers are enrolled. All are added, or none.
    Register(Rows),
    /// Answers an open round by the stated run under these limits. `decide` requires 1 to 64 workers.
    Solve {
        /// The round's number.
        round: usize,
        /// The limits of the run.
        limits: Limits,
        /// How many workers price, which the answer doesn't depend on.
        workers: u32,
    },
    /// Answers an open round by a proof, whoever made it.
    Keep {
        /// The round's number.
        round: usize,
        /// A proof of a lottery over the round's pool, or a proof that this pool has no quota panel.
        proof: Proof,
    },
    /// Tells the seal of a round's bundle.
    Seal {
        /// The round's number.
        round: usize,
        /// The round number of tickets that is kept with the seal, if one is.
        tickets: Option<Tickets>,
    },
    /// Draws a panel from a sealed round.
    Draw {
        /// The round's number.
        round: usize,
        /// The published seal.
        seal: Name,
        /// The digits of the dice.
        digits: Vec<u8>,
    },
    /// Lets a member of a drawn panel drop out.
    Drop {
        /// The round's number.
        round: usize,
        /// The member's id.
        id: Name,
    },
    /// Begins the round after one that was drawn and from whose panel somebody dropped out.
    NextRound {
        /// The number of the round before.
        after: usize,
    },
    /// Prints a round's bundle.
    Show {
        /// The round's number.
        round: usize,
    },
    /// Lets a volunteer withdraw, named by the key.
    Withdraw {
        /// The volunteer's key. Any bytes are allowed.
        key: Vec<u8>,
    },
    /// Sets other bounds for an open round.
    Bounds {
        /// The round's number.
        round: LaterRound,
        /// The same categories and values with other bounds.
        bounds: Rules,
    },
    /// Prints what a draw from a sealed round would draw, and keeps nothing.
    Try {
        /// The round's number.
        round: usize,
        /// The published seal.
        seal: Name,
        /// The digits of the dice.
        digits: Vec<u8>,
    },
    /// Takes a dropout back.
    Undrop {
        /// The round's number.
        round: usize,
        /// The member's id.
        id: Name,
    },
    /// Takes the last round away while it is open.
    Reopen {
        /// The round's number.
        round: LaterRound,
    },
    /// Lets a volunteer withdraw, named by the id.
    WithdrawId {
        /// The volunteer's id.
        id: Name,
    },
}

impl Command {
    /// Does nothing; its contract says that each command is within the limits of `IsCommand`.
    pub fn facts(&self)
        ensures { IsCommand (seen_command self.now) }
    {
        match self {
            Command::Charter(charter) => charter.facts(),
            Command::Rules(rules) => {
                let _ = rules.categories();
            }
            Command::Register(rows) => {
                let _ = rows.rows();
            }
            Command::Solve { limits, .. } => {
                let _ = limits.bits();
            }
            Command::Keep { proof, .. } => proof.facts(),
            Command::Seal { tickets, .. } => tickets_facts(tickets),
            Command::Bounds { round, bounds } => {
                let _ = round.number();
                let _ = bounds.categories();
            }
            Command::Reopen { round } => {
                let _ = round.number();
            }
            _ => {}
        }
    }
}
