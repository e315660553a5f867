//! The command `draw`: the panel that the digits of dice draw from a bundle, if the given seal is the bundle's.

ghost use Rattle.std.specs.Prelude.{◌≡◌, IfOk};
ghost use Rattle.define_bundles.specs.BundleText.{bundle_spelling};
ghost use Rattle.command_shell.specs.Answers.{IsRight, saying};
ghost use Rattle.command_meanings.specs.Draw.{DrawMeans};
ghost use Rattle.command_bundles.specs.Stopped.{TellsStop};

use crate::lines::{number_rule_line, seal_rule_line};
use bundle_text::Bundle;
use command_meanings::draw_has_one_answer;
use command_shell::{Answer, Cause, Command, Meaning, Printed, WRONG_TOTAL, input_line};
use sealed_draw::{DrawStop, draw, drawn_lines, seal, total_agrees};
use std::alloc::{AllocError, Global};

/// `draw`: prints the panel that is drawn from a bundle.
#[derive(Clone, Copy, Debug)]
pub struct Draw<'a> {
    /// The seal of the bundle, as it was published, in hexadecimal digits. Capitals are read as small letters.
    pub seal: &'a str,
    /// The digits of dice, in the order in which they were thrown.
    pub digits: &'a str,
}

impl Meaning for Draw<'_> {
    type About = Bundle;

    ghost use Rattle.command_shell.specs.Answers.{IsTheAnswer};
    ghost use Rattle.command_meanings.specs.Draw.{DrawMeans};

    ghost means = { λ command bundle. IsTheAnswer (DrawMeans command.seal.now command.digits.now bundle) };
}

impl Command for Draw<'_> {
    fn answer(&self, alloc: Global, bundle: &Bundle, text: &[u8]) -> Result<Answer, AllocError> {
        draw_has_one_answer();
        drawn(alloc, self.seal, self.digits, bundle, text)
    }
}

/// Returns what `draw` answers about `bundle`, whose text is `text`.
fn drawn(
    alloc: Global,
    given: &str,
    digits: &str,
    bundle: &Bundle,
    text: &[u8],
) -> Result<Answer, AllocError>
    requires { text.now ≡ bundle_spelling bundle.now }
    ensures { IfOk result (λ answer. IsRight (DrawMeans given.now digits.now bundle.now) (saying answer)) }
{
    if !total_agrees(bundle) {
        return Ok(Answer::Stops {
            cause: Cause::Input,
            line: input_line(alloc, 0, WRONG_TOTAL)?,
        });
    }
    bundle.facts();
    let kept = seal(alloc, text)?;
    match draw(alloc, bundle, &kept, given, digits.as_bytes()) {
        Ok(drawn) => Ok(Answer::Prints {
            printed: Printed::Done,
            text: drawn_lines(alloc, bundle.pool(), &drawn)?,
        }),
        Err(stop) => stopped(alloc, &stop),
    }
}

/// Returns the answer for a draw that is refused. Fails if memory runs out.
pub(crate) fn stopped(alloc: Global, stop: &DrawStop) -> Result<Answer, AllocError>
    ensures { IfOk result (λ answer. TellsStop stop.now (saying answer)) }
{
    let line = match stop {
        DrawStop::SealDiffers { given, kept } => seal_rule_line(alloc, given, kept)?,
        DrawStop::BadDigit { place } => number_rule_line(alloc, b"BadDigit", *place)?,
        DrawStop::MoreDigits { read } => number_rule_line(alloc, b"MoreDigits", *read)?,
        DrawStop::OutOfMemory => return Err(AllocError),
    };
    Ok(Answer::Stops {
        cause: Cause::Rule,
        line,
    })
}
