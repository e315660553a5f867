//! The report of a round: what anybody may know of it.

ghost use Rattle.std.specs.Prelude.{◌≡◌, ◌++◌, [], ◌∷◌, IfOk, OnOk};
ghost use Rattle.define_lines.specs.Lines.{text_of};
ghost use Rattle.define_offices.specs.Report.{bundle_lines, chance_lines_in, quota_lines, report_lines, report_of, seal_lines, tickets_lines};
ghost use Rattle.define_draws.specs.Lines.{seal_line};
ghost use Rattle.office_reports.specs.Rounds.{HasPool, IsDrawnIn, IsOfPool, KeepsDraw, TellsReport, WeightsAgree, counted_with};

use crate::report_chances::push_chances;
use crate::report_heads::{push_draw, push_head, push_lottery, push_number_line};
use crate::report_quotas::{not_gone, push_counts};
use bundle_text::{Bundle, write_bundle};
use office_steps::pools::{PoolStop, pool_of, round_named};
use office_tables::{Phase, Round, Tables, Tickets, drawn_by};
use pool_model::{Name, Pool};
use sealed_draw::{Draw, seal};
use std::alloc::{AllocError, Global};
use text_lines::push_line;

/// Returns the report of a round: lines that end with LF, of fields with a TAB between two. First come the round's number, the title, the
/// phase, the size of a panel and the number of volunteers. If the round is past `Open`, the number of the lottery's panels and its total
/// follow; if it is sealed or drawn, the seal, with the number of tickets if one was kept with it; and if it is drawn, the digits, the
/// ticket with how many digits were read, and the members. Then each value has a line: its bounds, how many of the volunteers who aren't
/// gone have it, and, if a panel was drawn, how many of its members do. If the round is past `Open`, each volunteer has a line with the
/// chance in lowest terms. The last line is `end`. Stops exactly if the round has no pool, for the same reason. Running out of memory is
/// allowed at any time.
pub fn round_report(alloc: Global, tables: &Tables, round: usize) -> Result<Vec<u8>, PoolStop>
    ensures { TellsReport (report_of tables.now round) result }
{
    let pool = pool_of(alloc, tables, round)?;
    let Some(charter) = tables.charter() else {
        unreachable!();
    };
    let Some(kept) = round_named(tables, round) else {
        unreachable!();
    };
    tables.facts();
    Ok(report_text(alloc, round, charter.title(), kept, &pool)?)
}

/// Returns the report of the round of this number, which has this pool.
fn report_text(
    alloc: Global,
    number: usize,
    title: &Name,
    round: &Round,
    pool: &Pool,
) -> Result<Vec<u8>, AllocError>
    requires pool { HasPool round.now pool.now }
    requires keeps { KeepsDraw round.now }
    ensures { IfOk result (λ text. text.items ≡ text_of (report_lines number title.now round.now pool.now)) }
{
    let drawn = drawn_in(alloc, round)?;
    let mut text = Vec::new(alloc);
    push_head(&mut text, number, title, round.phase(), pool)?;
    push_bundle(alloc, &mut text, round, &drawn)?;
    push_quotas(alloc, &mut text, pool, &drawn)?;
    push_chances_in(alloc, &mut text, round.bundle())?;
    push_line(&mut text, b"end", &[])?;
    Ok(text)
}

/// Returns what was drawn in a round, or None if it isn't drawn yet.
fn drawn_in(alloc: Global, round: &Round) -> Result<Option<Draw>, AllocError>
    requires { KeepsDraw round.now }
    ensures { IfOk result (λ drawn. IsDrawnIn round.now drawn) }
{
    if round.phase() != Phase::Drawn {
        return Ok(None);
    }
    match round.bundle() {
        Some(bundle) => drawn_by(alloc, bundle, round.tickets(), round.digits()),
        None => Ok(None),
    }
}

/// Appends what the report shows of the round's bundle. `drawn` is what was drawn in the round.
fn push_bundle(
    alloc: Global,
    text: &mut Vec<u8>,
    round: &Round,
    drawn: &Option<Draw>,
) -> Result<(), AllocError>
    requires { IsDrawnIn round.now drawn.now }
    ensures { OnOk result (text.new.items ≡ text.old.items ++ text_of (bundle_lines round.now)) }
{
    let Some(bundle) = round.bundle() else {
        return Ok(());
    };
    push_lottery(text, bundle.answer().lottery())?;
    if round.phase() == Phase::Solved {
        return Ok(());
    }
    push_seal_lines(alloc, text, bundle, round.tickets())?;
    match drawn {
        Some(drawn) => push_draw(
            text,
            bundle.pool(),
            round.digits(),
            drawn.ticket,
            drawn.used,
            &drawn.panel,
        ),
        None => Ok(()),
    }
}

/// Appends the seal of a bundle, with the round number of tickets that was kept with it, if there is one.
fn push_seal_lines(
    alloc: Global,
    text: &mut Vec<u8>,
    bundle: &Bundle,
    tickets: &Option<Tickets>,
) -> Result<(), AllocError>
    ensures { OnOk result (text.new.items ≡ text.old.items ++ text_of (seal_lines bundle.now tickets.now)) }
{
    push_seal(alloc, text, bundle)?;
    push_tickets(text, tickets)?;
    Ok(())
}

/// Appends the round number of tickets that was kept with the seal, if there is one.
fn push_tickets(text: &mut Vec<u8>, tickets: &Option<Tickets>) -> Result<(), AllocError>
    ensures { OnOk result (text.new.items ≡ text.old.items ++ text_of (tickets_lines tickets.now)) }
{
    match tickets {
        Some(tickets) => push_number_line(text, b"tickets", tickets.count() as usize),
        None => Ok(()),
    }
}

/// Appends the seal of a bundle.
fn push_seal(alloc: Global, text: &mut Vec<u8>, bundle: &Bundle) -> Result<(), AllocError>
    ensures { OnOk result (text.new.items ≡ text.old.items ++ text_of (seal_line bundle.now ∷ [])) }
{
    let bytes = write_bundle(alloc, bundle.pool(), bundle.answer())?;
    let kept = seal(alloc, &bytes)?;
    push_line(text, b"seal", &[kept.as_bytes()])
}

/// Appends a line for each value of a pool: its bounds, how many of the volunteers who aren't gone have it, and, if a panel was drawn, how
/// many of its members have it.
fn push_quotas(
    alloc: Global,
    text: &mut Vec<u8>,
    pool: &Pool,
    drawn: &Option<Draw>,
) -> Result<(), AllocError>
    requires { IsOfPool pool.now drawn.now }
    ensures { OnOk result (text.new.items ≡ text.old.items ++ text_of (quota_lines pool.now (counted_with pool.now drawn.now))) }
{
    let here = not_gone(alloc, pool)?;
    match drawn {
        Some(drawn) => push_counts(alloc, text, pool, &[here.as_slice(), drawn.panel.members()]),
        None => push_counts(alloc, text, pool, &[here.as_slice()]),
    }
}

/// Appends the line of the chance of each volunteer of a bundle's pool, if there is a bundle.
fn push_chances_in(
    alloc: Global,
    text: &mut Vec<u8>,
    bundle: &Option<Bundle>,
) -> Result<(), AllocError>
    requires { WeightsAgree bundle.now }
    ensures { OnOk result (text.new.items ≡ text.old.items ++ text_of (chance_lines_in bundle.now)) }
{
    match bundle {
        Some(bundle) => push_chances(alloc, text, bundle.pool(), bundle.answer().lottery()),
        None => Ok(()),
    }
}
