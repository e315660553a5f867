//! The command `seal`: the seal of a bundle's text.

use crate::lines::seal_line;
use bundle_text::Bundle;
use command_meanings::seal_has_one_answer;
use command_shell::{Answer, Command, Meaning, Printed};
use std::alloc::{AllocError, Global};

/// `seal`: prints the seal of a bundle's text.
#[derive(Clone, Copy, Debug)]
pub struct Seal;

impl Meaning for Seal {
    type About = Bundle;

    ghost use Rattle.command_shell.specs.Answers.{IsTheAnswer};
    ghost use Rattle.command_meanings.specs.Seal.{SealMeans};

    ghost means = { λ command bundle. IsTheAnswer (SealMeans bundle) };
}

impl Command for Seal {
    fn answer(&self, alloc: Global, _bundle: &Bundle, text: &[u8]) -> Result<Answer, AllocError> {
        seal_has_one_answer();
        Ok(Answer::Prints {
            printed: Printed::Done,
            text: seal_line(alloc, text)?,
        })
    }
}
