//! The command `check`: whether the certificate of a bundle holds, and if not, why it is refused.

ghost use Rattle.std.specs.Prelude.{IfOk};
ghost use Rattle.command_shell.specs.Answers.{IsRight, saying};
ghost use Rattle.command_meanings.specs.Check.{CheckMeans};
ghost use Rattle.command_bundles.specs.Checked.{TellsStop, TellsVerdict};

use crate::lines::{nodes_spent_line, refused_line, valid_line};
use bundle_text::Bundle;
use cert_check::{CheckStop, Verdict, check};
use command_meanings::check_has_one_answer;
use command_shell::{Answer, Cause, Command, Meaning, Printed};
use std::alloc::{AllocError, Global};

/// `check`: prints the verdict on the certificate of a bundle.
#[derive(Clone, Copy, Debug)]
pub struct Check {
    /// The most visits that the search for each stage may make, from 0 to 1,000,000,000,000.
    pub nodes: u64,
}

impl Meaning for Check {
    type About = Bundle;

    ghost use Rattle.command_shell.specs.Answers.{IsTheAnswer};
    ghost use Rattle.command_meanings.specs.Check.{CheckMeans};

    ghost means = { λ command bundle. IsTheAnswer (CheckMeans command.nodes bundle) };
}

impl Command for Check {
    fn answer(&self, alloc: Global, bundle: &Bundle, _text: &[u8]) -> Result<Answer, AllocError> {
        check_has_one_answer();
        check_bundle(alloc, self.nodes, bundle)
    }
}

/// Returns what `check` answers about `bundle`, by searches of at most `nodes` visits. `prove` gives it too.
///
/// # Errors
///
/// Want of memory.
pub fn check_bundle(alloc: Global, nodes: u64, bundle: &Bundle) -> Result<Answer, AllocError>
    ensures { IfOk result (λ answer. IsRight (CheckMeans nodes bundle.now) (saying answer)) }
{
    match check(alloc, bundle, nodes) {
        Ok(verdict) => verdict_answer(alloc, &verdict),
        Err(stop) => check_stop_answer(alloc, nodes, &stop),
    }
}

/// Returns the answer for a verdict: `valid`, or the line of a refusal. `check-cover` gives it too.
pub fn verdict_answer(alloc: Global, verdict: &Verdict) -> Result<Answer, AllocError>
    ensures { IfOk result (λ answer. TellsVerdict verdict.now (saying answer)) }
{
    match verdict.refusal() {
        None => Ok(Answer::Prints {
            printed: Printed::Done,
            text: valid_line(alloc)?,
        }),
        Some(refusal) => Ok(Answer::Prints {
            printed: Printed::Refused,
            text: refused_line(alloc, refusal)?,
        }),
    }
}

/// Returns the answer for a check that has no verdict because a search spent its visits. Fails if memory ran out. `cover` gives it too.
pub fn check_stop_answer(alloc: Global, nodes: u64, stop: &CheckStop) -> Result<Answer, AllocError>
    ensures { IfOk result (λ answer. TellsStop nodes stop.now (saying answer)) }
{
    match stop {
        CheckStop::NodesSpent { stage } => Ok(Answer::Stops {
            cause: Cause::Spent,
            line: nodes_spent_line(alloc, nodes, *stage)?,
        }),
        CheckStop::OutOfMemory => Err(AllocError),
    }
}
