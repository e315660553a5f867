//! The command `short-draw`: the panel that the digits of dice draw from a bundle in a round number of tickets, if the given seal is the
//! bundle's.

ghost use Rattle.std.specs.Prelude.{◌≡◌, ℕ, IfOk, List};
ghost use Rattle.define_bundles.specs.BundleText.{Bundle as SeenBundle, bundle_spelling};
ghost use Rattle.command_shell.specs.Answers.{HasOneAnswer, IsRight, saying};
ghost use Rattle.command_meanings.specs.ShortDraw.{ShortDrawMeans};

use crate::draw::stopped;
use bundle_text::Bundle;
use command_shell::{Answer, Cause, Command, Meaning, Printed, WRONG_TOTAL, input_line};
use sealed_draw::{drawn_lines, seal, total_agrees};
use short_tickets::{TicketCount, draw_short};
use std::alloc::{AllocError, Global};

/// `short-draw`: prints the panel that is drawn from a bundle in a round number of tickets.
#[derive(Clone, Copy, Debug)]
pub struct ShortDraw<'a> {
    /// The number of tickets.
    pub tickets: TicketCount,
    /// The seal of the bundle, as it was published, in hexadecimal digits. Capitals are read as small letters.
    pub seal: &'a str,
    /// The digits of dice, in the order in which they were thrown.
    pub digits: &'a str,
}

/// `short-draw` has at most one right answer about a bundle, for a number of tickets, a given seal and the digits of dice.
pub fn short_draw_has_one_answer()
    ensures { (tickets : ℕ) (given digits : List ℕ) (bundle : SeenBundle) → HasOneAnswer (ShortDrawMeans tickets given digits bundle) }
{}

impl Meaning for ShortDraw<'_> {
    type About = Bundle;

    ghost use Rattle.command_shell.specs.Answers.{IsTheAnswer};
    ghost use Rattle.command_meanings.specs.ShortDraw.{ShortDrawMeans};

    ghost means = { λ command bundle. IsTheAnswer (ShortDrawMeans command.tickets command.seal.now command.digits.now bundle) };
}

impl Command for ShortDraw<'_> {
    fn answer(&self, alloc: Global, bundle: &Bundle, text: &[u8]) -> Result<Answer, AllocError> {
        short_draw_has_one_answer();
        drawn(alloc, self.tickets, self.seal, self.digits, bundle, text)
    }
}

/// Returns what `short-draw` answers about `bundle`, whose text is `text`.
fn drawn(
    alloc: Global,
    tickets: TicketCount,
    given: &str,
    digits: &str,
    bundle: &Bundle,
    text: &[u8],
) -> Result<Answer, AllocError>
    requires { text.now ≡ bundle_spelling bundle.now }
    ensures { IfOk result (λ answer. IsRight (ShortDrawMeans tickets given.now digits.now bundle.now) (saying answer)) }
{
    if !total_agrees(bundle) {
        return Ok(Answer::Stops {
            cause: Cause::Input,
            line: input_line(alloc, 0, WRONG_TOTAL)?,
        });
    }
    bundle.facts();
    let kept = seal(alloc, text)?;
    match draw_short(
        alloc,
        bundle,
        tickets.number(),
        &kept,
        given,
        digits.as_bytes(),
    ) {
        Ok(drawn) => Ok(Answer::Prints {
            printed: Printed::Done,
            text: drawn_lines(alloc, bundle.pool(), &drawn)?,
        }),
        Err(stop) => stopped(alloc, &stop),
    }
}
