//! The command `page` with the digits of dice.

ghost use Rattle.std.specs.Prelude.{◌≡◌, ℕ, IfOk, List, Option};
ghost use Rattle.define_bundles.specs.BundleText.{bundle_spelling};
ghost use Rattle.define_pools.specs.Lottery.{TotalAgrees};
ghost use Rattle.define_draws.specs.Lines.{bundle_seal};
ghost use Rattle.bundle_page.specs.Drawn.{seen_draw};
ghost use Rattle.bundle_page.specs.Page.{drawn_page_text};
ghost use Rattle.command_shell.specs.Answers.{HasOneAnswer, IsRight, saying};
ghost use Rattle.command_shell.specs.declared.bundle_or_proof.BundleOrProof.{BundleOrProof as SeenInput};
ghost use Rattle.command_meanings.specs.Page.{DrawnPageMeans, DrawnPageOfBundle, draw_means};
ghost use Rattle.define_offices.specs.Pools.{lottery_in};
ghost use Rattle.sealed_draw.specs.Answers.{DrawSays};

use crate::inputs::bundle_in;
use crate::pages::without_lottery;
use bundle_page::write_drawn_page;
use bundle_text::{Bundle, write_bundle};
use command_bundles::{Draw, ShortDraw};
use command_shell::{
    Answer, BundleOrProof, Cause, Command, Meaning, Printed, WRONG_TOTAL, input_line,
};
use sealed_draw::{Draw as Drawn, DrawStop, draw, seal, total_agrees};
use short_tickets::{TicketCount, draw_short};
use std::alloc::{AllocError, Global};

/// `page --drawn`: prints the page about a bundle, or about the bundle that a proof holds, with the panel that the digits draw from it.
#[derive(Clone, Copy, Debug)]
pub struct DrawnPage<'a> {
    /// The number of tickets of a draw in a round number of them, or None for a draw from all tickets of the lottery.
    pub tickets: Option<TicketCount>,
    /// The digits of dice, in the order in which they were thrown.
    pub digits: &'a str,
}

/// `page --drawn` has at most one right answer about a bundle or a proof, for a number of tickets and the digits of dice.
pub fn drawn_page_has_one_answer()
    ensures { (tickets : Option ℕ) (digits : List ℕ) (input : SeenInput) → HasOneAnswer (DrawnPageMeans tickets digits input) }
{}

impl Meaning for DrawnPage<'_> {
    type About = BundleOrProof;

    ghost use Rattle.command_shell.specs.Answers.{IsTheAnswer};
    ghost use Rattle.command_meanings.specs.Page.{DrawnPageMeans};

    ghost means = { λ command input. IsTheAnswer (DrawnPageMeans command.tickets command.digits.now input) };
}

impl Command for DrawnPage<'_> {
    fn answer(
        &self,
        alloc: Global,
        input: &BundleOrProof,
        _text: &[u8],
    ) -> Result<Answer, AllocError> {
        drawn_page_has_one_answer();
        answered(alloc, self.tickets, self.digits, input)
    }
}

/// Returns what `page --drawn` answers about a bundle or a proof.
fn answered(
    alloc: Global,
    tickets: Option<TicketCount>,
    digits: &str,
    input: &BundleOrProof,
) -> Result<Answer, AllocError>
    ensures { IfOk result (λ answer. IsRight (DrawnPageMeans tickets digits.now input.now) (saying answer)) }
{
    match bundle_in(input) {
        Some(bundle) => about_bundle(alloc, tickets, digits, bundle),
        None => without_lottery(alloc),
    }
}

/// Returns what `page --drawn` answers about a bundle.
fn about_bundle(
    alloc: Global,
    tickets: Option<TicketCount>,
    digits: &str,
    bundle: &Bundle,
) -> Result<Answer, AllocError>
    ensures { IfOk result (λ answer. IsRight (DrawnPageOfBundle tickets digits.now bundle.now) (saying answer)) }
{
    if !total_agrees(bundle) {
        return Ok(Answer::Stops {
            cause: Cause::Input,
            line: input_line(alloc, 0, WRONG_TOTAL)?,
        });
    }
    let text = write_bundle(alloc, bundle.pool(), bundle.answer())?;
    let seal = seal(alloc, &text)?;
    drawn(alloc, bundle, &text, &seal, tickets, digits)
}

/// Returns what `page --drawn` answers about `bundle`, whose weights sum to its total and whose text is `text`.
fn drawn(
    alloc: Global,
    bundle: &Bundle,
    text: &[u8],
    seal: &str,
    tickets: Option<TicketCount>,
    digits: &str,
) -> Result<Answer, AllocError>
    requires agrees { TotalAgrees bundle.now.answer.lottery }
    requires text { text.now ≡ bundle_spelling bundle.now }
    requires seal { seal.now ≡ bundle_seal bundle.now }
    ensures { IfOk result (λ answer. IsRight (DrawnPageOfBundle tickets digits.now bundle.now) (saying answer)) }
{
    match draw_in(alloc, bundle, tickets, seal, digits) {
        Ok(drawn) => Ok(Answer::Prints {
            printed: Printed::Done,
            text: page_of(alloc, bundle, seal, tickets, digits, &drawn)?,
        }),
        Err(DrawStop::OutOfMemory) => Err(AllocError),
        Err(_) => refused(alloc, bundle, text, seal, tickets, digits),
    }
}

/// Returns the page about a bundle with this seal, and about what the digits draw from it.
fn page_of(
    alloc: Global,
    bundle: &Bundle,
    seal: &str,
    tickets: Option<TicketCount>,
    digits: &str,
    drawn: &Drawn,
) -> Result<Vec<u8>, AllocError>
    requires { TotalAgrees bundle.now.answer.lottery }
    ensures { IfOk result (λ text. text.items ≡ drawn_page_text bundle.now seal.now digits.now (lottery_in tickets bundle.now.answer.lottery).total (seen_draw drawn.now)) }
{
    let number = tickets_in(bundle, tickets);
    write_drawn_page(
        alloc,
        bundle,
        seal.as_bytes(),
        digits.as_bytes(),
        number,
        drawn,
    )
}

/// Returns how many tickets there are in all.
fn tickets_in(bundle: &Bundle, tickets: Option<TicketCount>) -> u128
    ensures { result ≡ (lottery_in tickets bundle.now.answer.lottery).total }
{
    match tickets {
        Some(count) => count.number().unsigned_abs(),
        None => bundle.answer().lottery().total().unsigned_abs(),
    }
}

/// Draws from a bundle whose weights sum to its total, under its own seal.
fn draw_in(
    alloc: Global,
    bundle: &Bundle,
    tickets: Option<TicketCount>,
    seal: &str,
    digits: &str,
) -> Result<Drawn, DrawStop>
    requires { TotalAgrees bundle.now.answer.lottery }
    ensures { DrawSays (lottery_in tickets bundle.now.answer.lottery) seal.now seal.now digits.now result }
{
    match tickets {
        Some(count) => draw_short(alloc, bundle, count.number(), seal, seal, digits.as_bytes()),
        None => draw(alloc, bundle, seal, seal, digits.as_bytes()),
    }
}

/// Returns the answer of `draw` about a bundle, or of `short-draw` if a number of tickets is given. `page` answers so if nothing
/// is drawn.
fn refused(
    alloc: Global,
    bundle: &Bundle,
    text: &[u8],
    seal: &str,
    tickets: Option<TicketCount>,
    digits: &str,
) -> Result<Answer, AllocError>
    requires { text.now ≡ bundle_spelling bundle.now }
    ensures { IfOk result (λ answer. IsRight (draw_means tickets seal.now digits.now bundle.now) (saying answer)) }
{
    bundle.facts();
    match tickets {
        Some(tickets) => {
            let command = ShortDraw {
                tickets,
                seal,
                digits,
            };
            command.answer(alloc, bundle, text)
        }
        None => {
            let command = Draw { seal, digits };
            command.answer(alloc, bundle, text)
        }
    }
}
