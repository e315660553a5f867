//! The page of a round.

ghost use Rattle.std.specs.Prelude.{◌≡◌, IfOk, Some};
ghost use Rattle.bundle_page.specs.Page.{page_with as words_of_page, round_head as words_of_head};
ghost use Rattle.define_draws.specs.Lines.{bundle_seal};
ghost use Rattle.define_offices.specs.Pools.{drawn_lottery};
ghost use Rattle.define_offices.specs.Tables.{bundle_of};
ghost use Rattle.command_shell.specs.Answers.{saying};
ghost use Rattle.command_meanings.specs.RoundPages.{draw_of_round, page_of, title_of};
ghost use Rattle.command_meanings.specs.Steps.{text_or_refusal};
ghost use Rattle.office_reports.specs.Rounds.{KeepsDraw};

use crate::refusals::refusal_answer;
use bundle_page::{drawn_part, page_with, round_head};
use bundle_text::{Bundle, write_bundle};
use command_shell::{Answer, Printed};
use office_core::{Phase, Refusal, Tables};
use office_steps::pools::round_named;
use office_tables::{Round, Tickets, drawn_by};
use sealed_draw::seal;
use std::alloc::{AllocError, Global};

/// Returns the page of a round as an answer, or a refusal if there is no such round or it is open.
pub(crate) fn page_answer(
    alloc: Global,
    tables: &Tables,
    number: usize,
) -> Result<Answer, AllocError>
    ensures { IfOk result (λ answer. saying answer ≡ text_or_refusal (page_of tables.now number)) }
{
    let Some(round) = round_named(tables, number) else {
        let last = tables.rounds().len();
        return refusal_answer(alloc, &Refusal::NoRound { last });
    };
    let Some(bundle) = round.bundle() else {
        return refusal_answer(alloc, &Refusal::WrongPhase { phase: Phase::Open });
    };
    tables.facts();
    Ok(Answer::Prints {
        printed: Printed::Done,
        text: round_page(alloc, title_in(tables), number, round, bundle)?,
    })
}

/// Returns the title of the assembly.
fn title_in(tables: &Tables) -> &[u8]
    ensures { result.now ≡ title_of tables.now.charter }
{
    match tables.charter() {
        Some(charter) => charter.title().as_bytes(),
        None => &[],
    }
}

/// Returns the page of a round of this number, with this bundle.
fn round_page(
    alloc: Global,
    title: &[u8],
    number: usize,
    round: &Round,
    bundle: &Bundle,
) -> Result<Vec<u8>, AllocError>
    requires has { bundle_of round.now ≡ Some bundle.now }
    requires keeps { KeepsDraw round.now }
    ensures { IfOk result (λ text. text.items
        ≡ words_of_page (words_of_head title.now number) bundle.now (bundle_seal bundle.now) (draw_of_round round.now (bundle_seal bundle.now))) }
{
    let bytes = write_bundle(alloc, bundle.pool(), bundle.answer())?;
    let kept = seal(alloc, &bytes)?;
    let head = round_head(alloc, title, number)?;
    let drawn = draw_text(alloc, round, bundle, kept.as_bytes())?;
    page_with(alloc, &head, bundle, kept.as_bytes(), &drawn)
}

/// Returns the part about the draw of a round with this bundle and this seal of the bundle, or an empty text if the round isn't drawn yet.
fn draw_text(
    alloc: Global,
    round: &Round,
    bundle: &Bundle,
    seal: &[u8],
) -> Result<Vec<u8>, AllocError>
    requires has { bundle_of round.now ≡ Some bundle.now }
    requires keeps { KeepsDraw round.now }
    ensures { IfOk result (λ text. text.items ≡ draw_of_round round.now seal.now) }
{
    if round.phase() != Phase::Drawn {
        return Ok(Vec::new(alloc));
    }
    let tickets = round.tickets();
    match drawn_by(alloc, bundle, tickets, round.digits())? {
        Some(drawn) => {
            let all = tickets_in(bundle, tickets);
            drawn_part(alloc, bundle, seal, round.digits(), all, &drawn)
        }
        None => Ok(Vec::new(alloc)),
    }
}

/// Returns how many tickets a round with this bundle is drawn from.
fn tickets_in(bundle: &Bundle, tickets: &Option<Tickets>) -> u128
    ensures { result ≡ (drawn_lottery bundle.now tickets.now).total }
{
    match tickets {
        Some(tickets) => u128::from(tickets.count()),
        None => bundle.answer().lottery().total().unsigned_abs(),
    }
}
