//! The outcomes of seals, draws and dropouts, and of a dropout that is taken back.

ghost use Rattle.std.specs.Prelude.{◌≡◌, [], ◌∷◌, length, nat_lt, option_map, IfOk, IsTrue, Some, is_ok};
ghost use Rattle.std.specs.List.{list_all};
ghost use Rattle.define_pools.specs.Lists.{includes_list};
ghost use Rattle.define_pools.specs.Lottery.{TotalAgrees};
ghost use Rattle.define_draws.specs.Dice.{name_ticket};
ghost use Rattle.define_draws.specs.Draw.{draw as draw_of};
ghost use Rattle.define_offices.specs.Commands.{SealTold};
ghost use Rattle.define_offices.specs.Deciding.{changes, draw_in, drawn_ids, drop_in, is_withdrawn, new_draw as new_draw_of, same_draw as same_draw_of, same_seal as same_seal_of, seal_in, tells, tickets_or_none, undrop_in, with_id, without_change};
ghost use Rattle.define_offices.specs.Pools.{drawn_lottery};
ghost use Rattle.define_lines.specs.Lines.{line_of};
ghost use Rattle.sealed_draw.specs.Answers.{DrawSays};
ghost use Rattle.std.specs.Fmt.{decimal};
ghost use Rattle.define_offices.specs.Facts.{KeepsRound};
ghost use Rattle.define_offices.specs.Lines.{dropped_line as line_of_dropout, one_line, undropped_line as line_of_return};
ghost use Rattle.define_draws.specs.Lines.{bundle_seal as seal_of_bundle, seal_line as line_of_seal};
ghost use Rattle.define_offices.specs.Tables.{named_round};
ghost use Rattle.office_steps.specs.Replies.{seen_reply};
ghost use Rattle.office_steps.specs.Steps.{Says};

use crate::drawn::{draw_refusal, drawn_reply};
use crate::lines::line;
use crate::named::no_round;
use crate::pools::round_named;
use crate::replies::{Refusal, Reply};
use crate::stops::OfficeStop;
use bundle_text::{Bundle, write_bundle};
use itoa::Buffer;
use office_tables::{
    Change, Entry, Phase, Round, Tables, Tickets, copied_tickets, drawn_by, is_member,
};
use pool_model::Name;
use sealed_draw::{Draw, DrawStop, draw, seal};
use short_tickets::short_bundle;
use std::alloc::{AllocError, Global};

/// Returns the outcome of sealing round `number`, with a round number of tickets if one is given. It is refused if the round is open. If the
/// round is sealed already, the reply is the same, and nothing changes; then a number of tickets other than the kept one is refused.
pub fn seal_round(
    alloc: Global,
    tables: &Tables,
    number: usize,
    tickets: &Option<Tickets>,
) -> Result<(Option<Change>, Reply), OfficeStop>
    ensures { Says (seal_in tables.now number tickets.now (named_round tables.now.rounds number)) result }
{
    let Some(round) = round_named(tables, number) else {
        return Err(OfficeStop::Refused(no_round(tables)));
    };
    let Some(bundle) = round.bundle() else {
        return Err(OfficeStop::Refused(Refusal::WrongPhase { phase: Phase::Open }));
    };
    match round.phase() {
        Phase::Solved => new_seal(alloc, number, bundle, tickets),
        _ => same_seal(alloc, bundle, round.tickets(), tickets),
    }
}

/// Returns the outcome of sealing a solved round, with a round number of tickets if one is given.
fn new_seal(
    alloc: Global,
    number: usize,
    bundle: &Bundle,
    tickets: &Option<Tickets>,
) -> Result<(Option<Change>, Reply), OfficeStop>
    ensures { Says (changes (SealTold number tickets.now) (line_of_seal bundle.now)) result }
{
    let reply = seal_reply(alloc, bundle)?;
    let change = Change::Sealed {
        round: number,
        tickets: copied_tickets(tickets),
    };
    Ok((Some(change), reply))
}

/// Returns the outcome of sealing a round that is sealed already, with the tickets `kept`.
fn same_seal(
    alloc: Global,
    bundle: &Bundle,
    kept: &Option<Tickets>,
    given: &Option<Tickets>,
) -> Result<(Option<Change>, Reply), OfficeStop>
    ensures { Says (same_seal_of bundle.now kept.now given.now) result }
{
    match given {
        None => told_seal(alloc, bundle),
        Some(tickets) => {
            let count = count_of(kept);
            if count == tickets.count() {
                told_seal(alloc, bundle)
            } else {
                Err(OfficeStop::Refused(Refusal::TicketsDiffer {
                    kept: count as usize,
                }))
            }
        }
    }
}

/// Returns the outcome that tells the seal of a bundle and changes nothing.
fn told_seal(alloc: Global, bundle: &Bundle) -> Result<(Option<Change>, Reply), OfficeStop>
    ensures { Says (tells (line_of_seal bundle.now)) result }
{
    Ok((None, seal_reply(alloc, bundle)?))
}

/// Returns a number of tickets, 0 if there is none.
fn count_of(tickets: &Option<Tickets>) -> u32
    ensures { result ≡ tickets_or_none tickets.now }
{
    match tickets {
        Some(tickets) => tickets.count(),
        None => 0,
    }
}

/// Returns the reply of sealing a round: the line with the seal of its bundle's text.
fn seal_reply(alloc: Global, bundle: &Bundle) -> Result<Reply, AllocError>
    ensures { IfOk result (λ reply. seen_reply reply ≡ one_line (line_of_seal bundle.now)) }
{
    let seal = bundle_seal(alloc, bundle)?;
    line(alloc, b"seal", &[seal.as_bytes()])
}

/// Returns the seal of a bundle.
fn bundle_seal(alloc: Global, bundle: &Bundle) -> Result<Name, AllocError>
    ensures { IfOk result (λ seal. seal ≡ seal_of_bundle bundle.now) }
{
    let text = write_bundle(alloc, bundle.pool(), bundle.answer())?;
    let seal = seal(alloc, &text)?;
    Name::new(alloc, seal.as_str())
}

/// Returns the outcome of a draw from round `number`, by the seal `given` and the digits of the dice.
pub fn draw_round(
    alloc: Global,
    tables: &Tables,
    number: usize,
    given: &str,
    digits: &[u8],
) -> Result<(Option<Change>, Reply), OfficeStop>
    ensures { Says (draw_in tables.now number given.now digits.now (named_round tables.now.rounds number)) result }
{
    let Some(round) = round_named(tables, number) else {
        return Err(OfficeStop::Refused(no_round(tables)));
    };
    tables.facts();
    let Some(bundle) = round.bundle() else {
        return Err(OfficeStop::Refused(Refusal::NotSealed { phase: Phase::Open }));
    };
    let tickets = round.tickets();
    match round.phase() {
        Phase::Sealed => new_draw(alloc, number, bundle, tickets, given, digits),
        Phase::Drawn => same_draw(alloc, bundle, tickets, round.digits(), given, digits),
        phase => Err(OfficeStop::Refused(Refusal::NotSealed { phase })),
    }
}

/// Returns the outcome of a draw from round `number`, without its change.
pub fn try_draw(
    alloc: Global,
    tables: &Tables,
    number: usize,
    given: &str,
    digits: &[u8],
) -> Result<(Option<Change>, Reply), OfficeStop>
    ensures { Says (without_change (draw_in tables.now number given.now digits.now (named_round tables.now.rounds number))) result }
{
    let (_change, reply) = draw_round(alloc, tables, number, given, digits)?;
    Ok((None, reply))
}

/// Draws in a round with this bundle: from its lottery, shortened to `tickets` tickets if a number was kept with the seal. The members of
/// the panel are volunteers of the bundle's pool.
fn draw_in_round(
    alloc: Global,
    bundle: &Bundle,
    tickets: &Option<Tickets>,
    kept: &str,
    given: &str,
    digits: &[u8],
) -> Result<Draw, DrawStop>
    requires { TotalAgrees bundle.now.answer.lottery }
    ensures says { DrawSays (drawn_lottery bundle.now tickets.now) kept.now given.now digits.now result }
    ensures members { IfOk result (λ drawn. IsTrue (list_all (λ i. nat_lt i (length bundle.now.pool.volunteers)) drawn.panel)) }
{
    match tickets {
        None => draw_from(alloc, bundle, kept, given, digits),
        Some(tickets) => {
            let short = short_bundle(alloc, bundle, tickets.number())?;
            draw_from(alloc, &short, kept, given, digits)
        }
    }
}

/// Draws from a bundle's lottery. The members of the panel are volunteers of the bundle's pool.
fn draw_from(
    alloc: Global,
    bundle: &Bundle,
    kept: &str,
    given: &str,
    digits: &[u8],
) -> Result<Draw, DrawStop>
    requires { TotalAgrees bundle.now.answer.lottery }
    ensures says { DrawSays bundle.now.answer.lottery kept.now given.now digits.now result }
    ensures members { IfOk result (λ drawn. IsTrue (list_all (λ i. nat_lt i (length bundle.now.pool.volunteers)) drawn.panel)) }
{
    bundle.facts();
    draw(alloc, bundle, kept, given, digits)
}

/// Returns the outcome of the first draw from a sealed round.
fn new_draw(
    alloc: Global,
    number: usize,
    bundle: &Bundle,
    tickets: &Option<Tickets>,
    given: &str,
    digits: &[u8],
) -> Result<(Option<Change>, Reply), OfficeStop>
    requires { TotalAgrees bundle.now.answer.lottery }
    ensures { Says (new_draw_of number bundle.now given.now digits.now
        (draw_of (drawn_lottery bundle.now tickets.now) (seal_of_bundle bundle.now) given.now digits.now)) result }
{
    let kept = bundle_seal(alloc, bundle)?;
    match draw_in_round(alloc, bundle, tickets, kept.as_str(), given, digits) {
        Ok(drawn) => {
            let change = Change::Drawn {
                round: number,
                digits: Vec::from_slice(alloc, digits)?,
            };
            Ok((Some(change), drawn_reply(alloc, bundle, &drawn)?))
        }
        Err(stop) => Err(OfficeStop::Refused(draw_refusal(alloc, &stop)?)),
    }
}

/// Returns the outcome of a draw from a round that was drawn by the digits `thrown`: first the seal is compared, then the digits.
fn same_draw(
    alloc: Global,
    bundle: &Bundle,
    tickets: &Option<Tickets>,
    thrown: &[u8],
    given: &str,
    digits: &[u8],
) -> Result<(Option<Change>, Reply), OfficeStop>
    requires agrees { TotalAgrees bundle.now.answer.lottery }
    requires named { IsTrue (is_ok (name_ticket (drawn_lottery bundle.now tickets.now).total thrown.now)) }
    ensures { Says (same_draw_of bundle.now tickets.now thrown.now given.now digits.now) result }
{
    let kept = bundle_seal(alloc, bundle)?;
    match draw_in_round(alloc, bundle, tickets, kept.as_str(), given, thrown) {
        Ok(drawn) => {
            if thrown == digits {
                Ok((None, drawn_reply(alloc, bundle, &drawn)?))
            } else {
                Err(OfficeStop::Refused(Refusal::DrawDiffers {
                    kept: Vec::from_slice(alloc, thrown)?,
                }))
            }
        }
        Err(stop) => Err(OfficeStop::Refused(draw_refusal(alloc, &stop)?)),
    }
}

/// Returns the outcome of a dropout of the member with this id from round `number`.
pub fn drop_member(
    alloc: Global,
    tables: &Tables,
    number: usize,
    id: &Name,
) -> Result<(Option<Change>, Reply), OfficeStop>
    ensures { Says (drop_in tables.now number id.now (named_round tables.now.rounds number)) result }
{
    let Some(round) = round_named(tables, number) else {
        return Err(OfficeStop::Refused(no_round(tables)));
    };
    tables.facts();
    drop_from(alloc, tables, number, round, id)
}

/// Returns the outcome of a dropout from `round`, which has this number. It is refused unless the round is drawn and its panel has this
/// member. If the dropout is known already, the reply is the same, and nothing changes. A new dropout is refused if a later round has
/// begun.
fn drop_from(
    alloc: Global,
    tables: &Tables,
    number: usize,
    round: &Round,
    id: &Name,
) -> Result<(Option<Change>, Reply), OfficeStop>
    requires { KeepsRound tables.now round.now }
    ensures { Says (drop_in tables.now number id.now (Some round.now)) result }
{
    let Some(bundle) = round.bundle() else {
        return Err(OfficeStop::Refused(Refusal::WrongPhase { phase: Phase::Open }));
    };
    if round.phase() != Phase::Drawn {
        return Err(OfficeStop::Refused(Refusal::WrongPhase {
            phase: round.phase(),
        }));
    }
    if !is_drawn(alloc, bundle, round.tickets(), round.digits(), id)? {
        return Err(OfficeStop::Refused(Refusal::NotSeated { id: id.copy()? }));
    }
    if is_among(round.dropped(), id) {
        return Ok((None, dropped_reply(alloc, number, id)?));
    }
    if number != tables.rounds().len() {
        return Err(OfficeStop::Refused(Refusal::RoundClosed {
            last: tables.rounds().len(),
        }));
    }
    let change = Change::Dropped {
        round: number,
        id: id.copy()?,
    };
    Ok((Some(change), dropped_reply(alloc, number, id)?))
}

/// Returns the outcome of taking back the dropout of the member with this id from round `number`.
pub fn undrop_member(
    alloc: Global,
    tables: &Tables,
    number: usize,
    id: &Name,
) -> Result<(Option<Change>, Reply), OfficeStop>
    ensures { Says (undrop_in tables.now number id.now (named_round tables.now.rounds number)) result }
{
    match round_named(tables, number) {
        Some(round) => undrop_from(alloc, tables, number, round, id),
        None => Err(OfficeStop::Refused(no_round(tables))),
    }
}

/// Returns the outcome of taking a dropout back from `round`, which has this number. It is refused unless the round is drawn, this member
/// dropped out and hasn't withdrawn since, and no later round has begun.
fn undrop_from(
    alloc: Global,
    tables: &Tables,
    number: usize,
    round: &Round,
    id: &Name,
) -> Result<(Option<Change>, Reply), OfficeStop>
    ensures { Says (undrop_in tables.now number id.now (Some round.now)) result }
{
    if round.phase() != Phase::Drawn {
        return Err(OfficeStop::Refused(Refusal::WrongPhase {
            phase: round.phase(),
        }));
    }
    if !is_among(round.dropped(), id) {
        return Err(OfficeStop::Refused(Refusal::NotDropped { id: id.copy()? }));
    }
    if has_withdrawn(tables.register(), id) {
        return Err(OfficeStop::Refused(Refusal::TooLate));
    }
    if number != tables.rounds().len() {
        return Err(OfficeStop::Refused(Refusal::RoundClosed {
            last: tables.rounds().len(),
        }));
    }
    let change = Change::TakenBack {
        round: number,
        id: id.copy()?,
    };
    Ok((Some(change), undropped_reply(alloc, number, id)?))
}

/// True if the volunteer with this id withdrew.
fn has_withdrawn(register: &[Entry], id: &Name) -> bool
    ensures { result ≡ is_withdrawn (with_id register.now id.now) }
{
    match row_with_id(register, id) {
        Some(entry) => entry.withdrawn(),
        None => false,
    }
}

/// Returns the first row with this id, if there is one.
fn row_with_id<'a>(register: &'a [Entry], id: &Name) -> Option<&'a Entry>
    ensures { option_map (λ entry. entry.now) result ≡ with_id register.now id.now }
{
    register
        .iter()
        .find(|entry| id.as_bytes() == entry.id().as_bytes())
}

/// True if the digits draw a panel with this member.
fn is_drawn(
    alloc: Global,
    bundle: &Bundle,
    tickets: &Option<Tickets>,
    digits: &[u8],
    id: &Name,
) -> Result<bool, AllocError>
    requires { TotalAgrees bundle.now.answer.lottery }
    ensures { IfOk result (λ is. is ≡ includes_list (drawn_ids bundle.now tickets.now digits.now) id.now) }
{
    match drawn_by(alloc, bundle, tickets, digits)? {
        Some(drawn) => Ok(is_member(bundle.pool(), &drawn.panel, id)),
        None => Ok(false),
    }
}

/// True if `id` is among `ids`.
fn is_among(ids: &[Name], id: &Name) -> bool
    ensures { result ≡ includes_list ids.now id.now }
{
    ids.iter().any(|one| id.as_bytes() == one.as_bytes())
}

/// Returns the reply that names a dropout.
fn dropped_reply(alloc: Global, number: usize, id: &Name) -> Result<Reply, AllocError>
    ensures { IfOk result (λ reply. seen_reply reply ≡ one_line (line_of_dropout number id.now)) }
{
    member_reply(alloc, b"dropped", number, id)
}

/// Returns the reply that names a dropout that is taken back.
fn undropped_reply(alloc: Global, number: usize, id: &Name) -> Result<Reply, AllocError>
    ensures { IfOk result (λ reply. seen_reply reply ≡ one_line (line_of_return number id.now)) }
{
    member_reply(alloc, b"undropped", number, id)
}

/// Returns the reply of one line: a word, the round's number, and a member's id.
fn member_reply(alloc: Global, word: &[u8], number: usize, id: &Name) -> Result<Reply, AllocError>
    ensures { IfOk result (λ reply. seen_reply reply ≡ one_line (line_of (word.now ∷ decimal number ∷ id.now ∷ []))) }
{
    let mut digits = Buffer::new();
    line(
        alloc,
        word,
        &[digits.format(number).as_bytes(), id.as_bytes()],
    )
}
