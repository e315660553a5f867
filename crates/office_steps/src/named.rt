//! The refusal for a number that no round has, the phase of the last round, and whether volunteers are enrolled.

ghost use Rattle.std.specs.Prelude.{◌≡◌, length};
ghost use Rattle.define_offices.specs.Commands as office;
ghost use Rattle.define_offices.specs.Tables.{is_enrolling as enrolls, last_phase as phase_of_last};
ghost use Rattle.office_steps.specs.Replies.{seen_refusal};

use crate::replies::Refusal;
use office_tables::{Phase, Round, Tables};

/// Returns the refusal for a number that no round has. It names the last round.
pub fn no_round(tables: &Tables) -> Refusal
    ensures { seen_refusal result ≡ office.NoRound (length tables.now.rounds) }
{
    Refusal::NoRound {
        last: tables.rounds().len(),
    }
}

/// Returns the phase of the last round; open if there is no round.
pub(crate) fn last_phase(rounds: &[Round]) -> Phase
    ensures { result ≡ phase_of_last rounds.now }
{
    match rounds.last() {
        Some(round) => round.phase(),
        None => Phase::Open,
    }
}

/// True while volunteers are enrolled: round 1 is the last one, and open.
pub(crate) fn is_enrolling(rounds: &[Round]) -> bool
    ensures { result ≡ enrolls rounds.now }
{
    rounds.len() == 1 && last_phase(rounds) == Phase::Open
}
