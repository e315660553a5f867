//! The questions, what their answers mean, and how they are answered.

ghost use Rattle.std.specs.Prelude.{◌≡◌, IfOk};
ghost use Rattle.define_bundles.specs.BundleText.{Bundle};
ghost use Rattle.define_pools.specs.Lottery.{TotalAgrees};
ghost use Rattle.command_shell.specs.Answers.{HasOneAnswer, IsRight, saying};
ghost use Rattle.command_meanings.specs.Question.{QuestionMeans};
ghost use Rattle.command_questions.specs.Questions.{question_text};
ghost use Rattle.command_questions.specs.declared.questions.Question.{Question};

use crate::short::InTickets;
use crate::{chances, dice, ranges, short};
use bundle_text::Bundle;
use command_shell::{Answer, Cause, Command, Meaning, Printed, WRONG_TOTAL, input_line};
use sealed_draw::total_agrees;
use short_tickets::TicketCount;
use std::alloc::{AllocError, Global};

/// A command that prints a text about a bundle.
#[derive(Clone, Copy, Debug)]
pub enum Question {
    /// `dice`: how many ten-sided dice are thrown at once, how many tickets there are, and which part of the throws is thrown again.
    Dice,
    /// `tickets`: which tickets draw which panel.
    Tickets,
    /// `chances`: each volunteer's chance, the sum of the chances for each value, and the least and the greatest chance.
    Chances,
    /// `short`, and `dice` and `tickets` with `--tickets`: an answer about the bundle in a round number of tickets.
    InTickets {
        /// The number of tickets.
        tickets: TicketCount,
        /// What is printed.
        answer: InTickets,
    },
}

/// Each question has at most one right answer about a bundle.
pub fn questions_have_one_answer()
    ensures { (question : Question) (bundle : Bundle) → HasOneAnswer (QuestionMeans (question_text question) bundle) }
{}

impl Meaning for Question {
    type About = Bundle;

    ghost use Rattle.command_shell.specs.Answers.{IsTheAnswer};
    ghost use Rattle.command_meanings.specs.Question.{QuestionMeans};
    ghost use Rattle.command_questions.specs.Questions.{question_text};

    ghost means = { λ question bundle. IsTheAnswer (QuestionMeans (question_text question) bundle) };
}

impl Command for Question {
    fn answer(&self, alloc: Global, bundle: &Bundle, _text: &[u8]) -> Result<Answer, AllocError> {
        questions_have_one_answer();
        answered(alloc, *self, bundle)
    }
}

/// Returns the answer to a question about a bundle.
fn answered(alloc: Global, question: Question, bundle: &Bundle) -> Result<Answer, AllocError>
    ensures { IfOk result (λ answer. IsRight (QuestionMeans (question_text question) bundle.now) (saying answer)) }
{
    if !total_agrees(bundle) {
        return Ok(Answer::Stops {
            cause: Cause::Input,
            line: input_line(alloc, 0, WRONG_TOTAL)?,
        });
    }
    Ok(Answer::Prints {
        printed: Printed::Done,
        text: text_about(alloc, question, bundle)?,
    })
}

/// Returns the text that answers a question about a bundle whose weights sum to its total.
fn text_about(alloc: Global, question: Question, bundle: &Bundle) -> Result<Vec<u8>, AllocError>
    requires { TotalAgrees bundle.now.answer.lottery }
    ensures { IfOk result (λ text. text.items ≡ question_text question bundle.now) }
{
    match question {
        Question::Dice => dice::dice_text(alloc, bundle),
        Question::Tickets => ranges::tickets_text(alloc, bundle),
        Question::Chances => chances::chances_text(alloc, bundle),
        Question::InTickets { tickets, answer } => {
            short::text_in_tickets(alloc, bundle, tickets, answer)
        }
    }
}
