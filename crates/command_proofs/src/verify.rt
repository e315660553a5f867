//! The command `verify`: whether a proof is valid, and why it is refused if it isn't.

ghost use Rattle.std.specs.Prelude.{◌≡◌, IfOk};
ghost use Rattle.command_shell.specs.Answers.{IsRight, saying};
ghost use Rattle.command_meanings.specs.Verify.{VerifyMeans, shown_line};
ghost use Rattle.command_proofs.specs.Verified.{TellsVerdict};
ghost use Rattle.proof_text.specs.Parts.{seen};

use crate::lines::valid_none_line;
use check_proofs::{Verdict, verify};
use command_bundles::{refused_line, valid_line};
use command_meanings::verify_has_one_answer;
use command_shell::{Answer, Command, Meaning, Printed};
use proof_text::{Parts, Proof};
use std::alloc::{AllocError, Global};

/// `verify`: the verdict on a proof.
#[derive(Clone, Copy, Debug)]
pub struct Verify;

impl Meaning for Verify {
    type About = Proof;

    ghost use Rattle.command_shell.specs.Answers.{IsTheAnswer};
    ghost use Rattle.command_meanings.specs.Verify.{VerifyMeans};

    ghost means = { λ command proof. IsTheAnswer (VerifyMeans proof) };
}

impl Command for Verify {
    fn answer(&self, alloc: Global, proof: &Proof, _text: &[u8]) -> Result<Answer, AllocError> {
        verify_has_one_answer();
        verified(alloc, proof)
    }
}

/// Returns what `verify` answers about `proof`.
fn verified(alloc: Global, proof: &Proof) -> Result<Answer, AllocError>
    ensures { IfOk result (λ answer. IsRight (VerifyMeans proof.now) (saying answer)) }
{
    let verdict = verify(alloc, proof)?;
    told(alloc, proof.parts(), &verdict)
}

/// Returns the answer for a verdict on a proof of these parts.
fn told(alloc: Global, parts: &Parts, verdict: &Verdict) -> Result<Answer, AllocError>
    ensures { IfOk result (λ answer. TellsVerdict (seen parts.now) verdict.now (saying answer)) }
{
    match verdict.refusal() {
        None => Ok(Answer::Prints {
            printed: Printed::Done,
            text: shown_line(alloc, parts)?,
        }),
        Some(refusal) => Ok(Answer::Prints {
            printed: Printed::Refused,
            text: refused_line(alloc, refusal)?,
        }),
    }
}

/// Returns the line of a valid proof of these parts.
fn shown_line(alloc: Global, parts: &Parts) -> Result<Vec<u8>, AllocError>
    ensures { IfOk result (λ line. line.items ≡ shown_line (seen parts.now)) }
{
    match parts {
        Parts::Lottery(_, _) => valid_line(alloc),
        Parts::NoPanel(_, _) => valid_none_line(alloc),
    }
}
