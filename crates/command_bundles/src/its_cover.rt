//! The command `cover`: a cover of a bundle's certificate, or why it is refused.

ghost use Rattle.std.specs.Prelude.{ℕ, IfOk};
ghost use Rattle.define_bundles.specs.BundleText.{Bundle as SeenBundle};
ghost use Rattle.command_shell.specs.Answers.{HasOneAnswer, IsRight, saying};
ghost use Rattle.command_meanings.specs.ItsCover.{CoverMeans};
ghost use Rattle.command_bundles.specs.Covered.{TellsCovered};

use crate::{check_stop_answer, verdict_answer};
use bundle_text::Bundle;
use command_shell::{Answer, Command, Meaning, Printed};
use cover_cert::{Covered, Verdict, cover};
use cover_text::write_cover;
use std::alloc::{AllocError, Global};

/// `cover`: prints a cover of the bundle whose certificate holds.
#[derive(Clone, Copy, Debug)]
pub struct ItsCover {
    /// The most visits that the search for each stage may make, from 0 to 1,000,000,000,000.
    pub nodes: u64,
}

/// `cover` has at most one right answer about a bundle.
pub fn cover_has_one_answer()
    ensures { (nodes : ℕ) (bundle : SeenBundle) → HasOneAnswer (CoverMeans nodes bundle) }
{}

impl Meaning for ItsCover {
    type About = Bundle;

    ghost use Rattle.command_shell.specs.Answers.{IsTheAnswer};
    ghost use Rattle.command_meanings.specs.ItsCover.{CoverMeans};

    ghost means = { λ command bundle. IsTheAnswer (CoverMeans command.nodes bundle) };
}

impl Command for ItsCover {
    fn answer(&self, alloc: Global, bundle: &Bundle, _text: &[u8]) -> Result<Answer, AllocError> {
        cover_has_one_answer();
        covered(alloc, self.nodes, bundle)
    }
}

/// Returns what `cover` answers about `bundle`.
fn covered(alloc: Global, nodes: u64, bundle: &Bundle) -> Result<Answer, AllocError>
    ensures { IfOk result (λ answer. IsRight (CoverMeans nodes bundle.now) (saying answer)) }
{
    bundle.facts();
    match cover(alloc, bundle, nodes) {
        Ok(covered) => told(alloc, &covered),
        Err(stop) => check_stop_answer(alloc, nodes, &stop),
    }
}

/// Returns the answer with a cover, or that the certificate is refused.
fn told(alloc: Global, covered: &Covered) -> Result<Answer, AllocError>
    ensures { IfOk result (λ answer. TellsCovered covered.now (saying answer)) }
{
    match covered {
        Covered::Cover(cover) => {
            cover.facts();
            Ok(Answer::Prints {
                printed: Printed::Done,
                text: write_cover(alloc, cover)?,
            })
        }
        Covered::Refused { stage, reason, who } => {
            let verdict = Verdict::refused(alloc, *stage, *reason, who)?;
            verdict_answer(alloc, &verdict)
        }
    }
}
