//! How each command that reads one text is answered from the bytes of its input.

ghost use Rattle.std.specs.Prelude.{IfOk};
ghost use Rattle.command_shell.specs.Answers.{saying};
ghost use Rattle.command_texts.specs.TextMeans.{TextMeans};

use crate::commands::TextCommand;
use command_bundles::{Draw, ShortDraw};
use command_questions::DrawnPage;
use command_shell::{Answer, Answering, answer_about};
use std::alloc::{AllocError, Global};

impl Answering for TextCommand<'_> {
    ghost use Rattle.command_texts.specs.TextMeans.{TextMeans};

    ghost answers = { TextMeans };

    fn answer_bytes(&self, alloc: Global, bytes: &[u8]) -> Result<Answer, AllocError> {
        answer_text(alloc, self, bytes)
    }
}

/// Returns the command's answer about the bytes of its input.
///
/// # Errors
///
/// Want of memory.
pub fn answer_text(
    alloc: Global,
    command: &TextCommand<'_>,
    bytes: &[u8],
) -> Result<Answer, AllocError>
    ensures { IfOk result (λ answer. TextMeans command.now bytes.now (saying answer)) }
{
    match command {
        TextCommand::Verify(verify) => answer_about(alloc, verify, bytes),
        TextCommand::Bundle(bundle) => answer_about(alloc, bundle, bytes),
        TextCommand::Seal(seal) => answer_about(alloc, seal, bytes),
        TextCommand::Draw { seal, digits } => {
            let draw = Draw {
                seal: seal.as_str(),
                digits: digits.as_str(),
            };
            answer_about(alloc, &draw, bytes)
        }
        TextCommand::ShortDraw {
            tickets,
            seal,
            digits,
        } => {
            let draw = ShortDraw {
                tickets: *tickets,
                seal: seal.as_str(),
                digits: digits.as_str(),
            };
            answer_about(alloc, &draw, bytes)
        }
        TextCommand::Panel(panel) => answer_about(alloc, panel, bytes),
        TextCommand::Loosen(loosen) => answer_about(alloc, loosen, bytes),
        TextCommand::Why(why) => answer_about(alloc, why, bytes),
        TextCommand::LoosenByProof(loosen) => answer_about(alloc, loosen, bytes),
        TextCommand::Page(page) => answer_about(alloc, page, bytes),
        TextCommand::DrawnPage { tickets, digits } => {
            let page = DrawnPage {
                tickets: *tickets,
                digits: digits.as_str(),
            };
            answer_about(alloc, &page, bytes)
        }
        TextCommand::Check(check) => answer_about(alloc, check, bytes),
        TextCommand::Cover(cover) => answer_about(alloc, cover, bytes),
        TextCommand::CheckCover(check) => answer_about(alloc, check, bytes),
        TextCommand::Question(question) => answer_about(alloc, question, bytes),
        TextCommand::Explain(explain) => answer_about(alloc, explain, bytes),
    }
}
