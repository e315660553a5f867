//! The beginning of the next round, and the showing of a round.

ghost use Rattle.std.specs.Prelude.{◌≡◌, ◌+◌, ◌<◌, ◌^◌, IfOk};
ghost use Rattle.define_bundles.specs.BundleText.{bundle_spelling};
ghost use Rattle.define_offices.specs.Commands as office;
ghost use Rattle.define_offices.specs.Deciding.{next_after as next_of, next_in, reopen_at, reopen_in, show_in};
ghost use Rattle.define_offices.specs.Lines.{one_line, reopened_line, round_line as line_of_round};
ghost use Rattle.define_offices.specs.Tables.{named_round};
ghost use Rattle.office_steps.specs.Replies.{seen_reply};
ghost use Rattle.office_steps.specs.Steps.{Says};

use crate::lines::line;
use crate::named::no_round;
use crate::pools::round_named;
use crate::replies::{Refusal, Reply};
use crate::stops::OfficeStop;
use bundle_text::{Bundle, write_bundle};
use itoa::Buffer;
use office_tables::{Change, Part, Phase, Round, Tables};
use std::alloc::{AllocError, Global};

/// Returns the outcome of beginning the round after round `after`. If that round has begun already, the reply is the same, and nothing
/// changes.
pub fn next_round(
    alloc: Global,
    tables: &Tables,
    after: usize,
) -> Result<(Option<Change>, Reply), OfficeStop>
    ensures { Says (next_in tables.now after (named_round tables.now.rounds after)) result }
{
    let Some(round) = round_named(tables, after) else {
        return Err(OfficeStop::Refused(no_round(tables)));
    };
    if after == tables.rounds().len() {
        next_after(alloc, after, round)
    } else {
        Ok((None, round_line(alloc, after + 1)?))
    }
}

/// Returns the outcome of beginning the round after the last one. It is refused unless the last one is drawn and has a dropout.
fn next_after(
    alloc: Global,
    number: usize,
    round: &Round,
) -> Result<(Option<Change>, Reply), OfficeStop>
    requires { number + 1 < 2 ^ 64 }
    ensures { Says (next_of number round.now) result }
{
    if round.phase() != Phase::Drawn {
        return Err(OfficeStop::Refused(Refusal::WrongPhase {
            phase: round.phase(),
        }));
    }
    if !round.has_drop() {
        return Err(OfficeStop::Refused(Refusal::Incomplete { what: Part::Drops }));
    }
    Ok((Some(Change::Next), round_line(alloc, number + 1)?))
}

/// Returns the outcome of taking round `number` away. It is refused unless the round is the last one and open.
pub fn reopen_round(
    alloc: Global,
    tables: &Tables,
    number: usize,
) -> Result<(Option<Change>, Reply), OfficeStop>
    ensures { Says (reopen_in tables.now number (named_round tables.now.rounds number)) result }
{
    let Some(round) = round_named(tables, number) else {
        return Err(OfficeStop::Refused(no_round(tables)));
    };
    if number == tables.rounds().len() {
        reopen_last(alloc, number, round)
    } else {
        Err(OfficeStop::Refused(Refusal::RoundClosed {
            last: tables.rounds().len(),
        }))
    }
}

/// Returns the outcome of taking the last round away, which has this number. It is refused unless the round is open.
fn reopen_last(
    alloc: Global,
    number: usize,
    round: &Round,
) -> Result<(Option<Change>, Reply), OfficeStop>
    ensures { Says (reopen_at number round.now) result }
{
    if round.phase() != Phase::Open {
        return Err(OfficeStop::Refused(Refusal::WrongPhase {
            phase: round.phase(),
        }));
    }
    let change = Change::Reopened { round: number };
    Ok((Some(change), reopened_reply(alloc, number)?))
}

/// Returns the reply that names a round that is taken away.
fn reopened_reply(alloc: Global, number: usize) -> Result<Reply, AllocError>
    ensures { IfOk result (λ reply. seen_reply reply ≡ one_line (reopened_line number)) }
{
    let mut digits = Buffer::new();
    line(alloc, b"reopened", &[digits.format(number).as_bytes()])
}

/// Returns the reply that names a round.
fn round_line(alloc: Global, number: usize) -> Result<Reply, AllocError>
    ensures { IfOk result (λ reply. seen_reply reply ≡ one_line (line_of_round number)) }
{
    let mut digits = Buffer::new();
    line(alloc, b"round", &[digits.format(number).as_bytes()])
}

/// Returns the outcome of showing round `number`: the text of its bundle. It is refused if the round is open.
pub fn show_round(
    alloc: Global,
    tables: &Tables,
    number: usize,
) -> Result<(Option<Change>, Reply), OfficeStop>
    ensures { Says (show_in tables.now (named_round tables.now.rounds number)) result }
{
    let Some(round) = round_named(tables, number) else {
        return Err(OfficeStop::Refused(no_round(tables)));
    };
    match round.bundle() {
        Some(bundle) => Ok((None, bundle_reply(alloc, bundle)?)),
        None => Err(OfficeStop::Refused(Refusal::WrongPhase { phase: Phase::Open })),
    }
}

/// Returns the reply that is the text of a bundle.
fn bundle_reply(alloc: Global, bundle: &Bundle) -> Result<Reply, AllocError>
    ensures { IfOk result (λ reply. seen_reply reply ≡ office.Lines (bundle_spelling bundle.now)) }
{
    let text = write_bundle(alloc, bundle.pool(), bundle.answer())?;
    Ok(Reply::Lines(text))
}
