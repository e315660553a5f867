//! The command `bundle`: the bundle of a proof's lottery. It verifies nothing.

ghost use Rattle.std.specs.Prelude.{IfOk};
ghost use Rattle.command_shell.specs.Answers.{IsRight, saying};
ghost use Rattle.command_meanings.specs.ItsBundle.{BundleMeans};
ghost use Rattle.proof_text.specs.Parts.{seen};

use crate::lines::no_lottery_line;
use bundle_text::write_bundle;
use command_meanings::bundle_has_one_answer;
use command_shell::{Answer, Cause, Command, Meaning, Printed};
use proof_text::{Parts, Proof};
use std::alloc::{AllocError, Global};

/// `bundle`: the bundle of a proof.
#[derive(Clone, Copy, Debug)]
pub struct ItsBundle;

impl Meaning for ItsBundle {
    type About = Proof;

    ghost use Rattle.command_shell.specs.Answers.{IsTheAnswer};
    ghost use Rattle.command_meanings.specs.ItsBundle.{BundleMeans};

    ghost means = { λ command proof. IsTheAnswer (BundleMeans proof) };
}

impl Command for ItsBundle {
    fn answer(&self, alloc: Global, proof: &Proof, _text: &[u8]) -> Result<Answer, AllocError> {
        bundle_has_one_answer();
        its_bundle(alloc, proof)
    }
}

/// Returns what `bundle` answers about `proof`.
fn its_bundle(alloc: Global, proof: &Proof) -> Result<Answer, AllocError>
    ensures { IfOk result (λ answer. IsRight (BundleMeans proof.now) (saying answer)) }
{
    told(alloc, proof.parts())
}

/// Returns what `bundle` answers about a proof of these parts.
fn told(alloc: Global, parts: &Parts) -> Result<Answer, AllocError>
    ensures { IfOk result (λ answer. IsRight (BundleMeans (seen parts.now)) (saying answer)) }
{
    match parts {
        Parts::Lottery(bundle, _) => Ok(Answer::Prints {
            printed: Printed::Done,
            text: write_bundle(alloc, bundle.pool(), bundle.answer())?,
        }),
        Parts::NoPanel(_, _) => Ok(Answer::Stops {
            cause: Cause::Rule,
            line: no_lottery_line(alloc)?,
        }),
    }
}
