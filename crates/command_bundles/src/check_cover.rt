//! The command `check-cover`: whether a cover is valid, and why it is refused if it isn't.

ghost use Rattle.std.specs.Prelude.{◌≡◌, ◌<◌, IfOk};
ghost use Rattle.define_checks.specs.Reasons.{Valid};
ghost use Rattle.define_covers.specs.Covers.{Cover as Seen};
ghost use Rattle.define_covers.specs.CoverVerdict.{verdict as verdict_of};
ghost use Rattle.define_pools.specs.Certificate.{Certifies};
ghost use Rattle.define_pools.specs.Lottery.{LeximinGreatest};
ghost use Rattle.command_shell.specs.Answers.{HasOneAnswer, IsRight, saying};
ghost use Rattle.command_meanings.specs.CheckCover.{CheckCoverMeans};

use crate::given_cover::GivenCover;
use crate::verdict_answer;
use command_shell::{Answer, Command, Meaning};
use cover_cert::{Cover, Steps, Verdict, check_cover};
use std::alloc::{AllocError, Global};
use std::marker::Brand;
use std::sync::ledger::{Blank, Ledger};

/// `check-cover`: prints the verdict on a cover.
#[derive(Clone, Copy, Debug)]
pub struct CheckCover;

/// `check-cover` has at most one right answer about a cover.
pub fn check_cover_has_one_answer()
    ensures { (cover : Seen) → HasOneAnswer (CheckCoverMeans cover) }
{}

impl Meaning for CheckCover {
    type About = GivenCover;

    ghost use Rattle.command_shell.specs.Answers.{IsTheAnswer};
    ghost use Rattle.command_meanings.specs.CheckCover.{CheckCoverMeans};

    ghost means = { λ command cover. IsTheAnswer (CheckCoverMeans cover) };
}

impl Command for CheckCover {
    fn answer(
        &self,
        alloc: Global,
        given: &GivenCover,
        _text: &[u8],
    ) -> Result<Answer, AllocError> {
        check_cover_has_one_answer();
        checked(alloc, given.cover())
    }
}

/// Returns what `check-cover` answers about a cover.
fn checked(alloc: Global, cover: &Cover) -> Result<Answer, AllocError>
    ensures { IfOk result (λ answer. IsRight (CheckCoverMeans cover.now) (saying answer)) }
{
    let verdict = judged::<Brand>(alloc, cover, Blank::new(1))?;
    verdict_answer(alloc, &verdict)
}

/// Returns the verdict on a cover. The steps that it takes are counted at no cost, and nobody reads them here.
fn judged<L: Ledger>(alloc: Global, cover: &Cover, blank: Blank) -> Result<Verdict, AllocError>
    requires name { blank.name ≡ L.name }
    requires parts { blank.parts ≡ L.parts }
    requires some { 0 < blank.parts }
    ensures answer { IfOk result (λ verdict. verdict ≡ verdict_of cover.now) }
    ensures certified { IfOk result (λ verdict. verdict ≡ Valid → Certifies cover.now.bundle.pool cover.now.bundle.answer.lottery cover.now.bundle.answer.stages) }
    ensures greatest { IfOk result (λ verdict. verdict ≡ Valid → LeximinGreatest cover.now.bundle.pool cover.now.bundle.answer.lottery) }
{
    let mut steps = Steps::<L>::new(blank);
    check_cover(alloc, cover, &mut steps)
}
