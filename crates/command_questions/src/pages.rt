//! The command `page` without digits.

ghost use Rattle.std.specs.Prelude.{◌≡◌, IfOk};
ghost use Rattle.define_pools.specs.Lottery.{TotalAgrees};
ghost use Rattle.define_draws.specs.Lines.{bundle_seal};
ghost use Rattle.command_shell.specs.Answers.{HasOneAnswer, IsRight, saying};
ghost use Rattle.bundle_page.specs.Page.{page_text};
ghost use Rattle.command_shell.specs.declared.bundle_or_proof.BundleOrProof.{BundleOrProof as SeenInput};
ghost use Rattle.command_meanings.specs.Page.{PageMeans, PageOfBundle, WithoutLottery};

use crate::inputs::bundle_in;
use bundle_page::write_page;
use bundle_text::{Bundle, write_bundle};
use command_shell::{
    Answer, BundleOrProof, Cause, Command, Meaning, Printed, WRONG_TOTAL, input_line,
};
use sealed_draw::{seal, total_agrees};
use std::alloc::{AllocError, Global};
use text_lines::push_line;

/// `page`: prints the page about a bundle, or about the bundle that a proof holds. It has no arguments.
#[derive(Clone, Copy, Debug)]
pub struct Page;

/// `page` has at most one right answer about a bundle or a proof.
pub fn page_has_one_answer()
    ensures { (input : SeenInput) → HasOneAnswer (PageMeans input) }
{}

impl Meaning for Page {
    type About = BundleOrProof;

    ghost use Rattle.command_shell.specs.Answers.{IsTheAnswer};
    ghost use Rattle.command_meanings.specs.Page.{PageMeans};

    ghost means = { λ command input. IsTheAnswer (PageMeans input) };
}

impl Command for Page {
    fn answer(
        &self,
        alloc: Global,
        input: &BundleOrProof,
        _text: &[u8],
    ) -> Result<Answer, AllocError> {
        page_has_one_answer();
        answered(alloc, input)
    }
}

/// Returns what `page` answers about a bundle or a proof.
fn answered(alloc: Global, input: &BundleOrProof) -> Result<Answer, AllocError>
    ensures { IfOk result (λ answer. IsRight (PageMeans input.now) (saying answer)) }
{
    match bundle_in(input) {
        Some(bundle) => about_bundle(alloc, bundle),
        None => without_lottery(alloc),
    }
}

/// Returns the answer about a proof that there is no quota panel, which has no lottery.
pub(crate) fn without_lottery(alloc: Global) -> Result<Answer, AllocError>
    ensures { IfOk result (λ answer. IsRight WithoutLottery (saying answer)) }
{
    let mut line = Vec::new(alloc);
    push_line(&mut line, b"rule", &[b"NoLottery"])?;
    Ok(Answer::Stops {
        cause: Cause::Rule,
        line,
    })
}

/// Returns what `page` answers about a bundle.
fn about_bundle(alloc: Global, bundle: &Bundle) -> Result<Answer, AllocError>
    ensures { IfOk result (λ answer. IsRight (PageOfBundle bundle.now) (saying answer)) }
{
    if !total_agrees(bundle) {
        return Ok(Answer::Stops {
            cause: Cause::Input,
            line: input_line(alloc, 0, WRONG_TOTAL)?,
        });
    }
    Ok(Answer::Prints {
        printed: Printed::Done,
        text: page_of(alloc, bundle)?,
    })
}

/// Returns the page about a bundle whose weights sum to its total, with the seal of the bundle's text.
fn page_of(alloc: Global, bundle: &Bundle) -> Result<Vec<u8>, AllocError>
    requires { TotalAgrees bundle.now.answer.lottery }
    ensures { IfOk result (λ text. text.items ≡ page_text bundle.now (bundle_seal bundle.now)) }
{
    let text = write_bundle(alloc, bundle.pool(), bundle.answer())?;
    let seal = seal(alloc, &text)?;
    write_page(alloc, bundle, seal.as_bytes())
}
