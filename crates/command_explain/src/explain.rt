//! The command `explain`.

ghost use Rattle.std.specs.Prelude.{IfOk};
ghost use Rattle.std.specs.Io.{StartsWith};
ghost use Rattle.command_shell.specs.Answers.{saying};
ghost use Rattle.command_shell.specs.Lines.{input_line as words_of_input};
ghost use Rattle.command_explain.specs.AnyTexts.{fault_in};
ghost use Rattle.command_meanings.specs.Explain.{Explains};

use crate::any_text::AnyText;
use command_shell::{Answer, Cause, Command, Meaning, Printed, input_line};
use std::alloc::{AllocError, Global};
use text_lines::TextFault;
use text_words::words_about;

/// `explain`: says in words what a text holds, or what is wrong with a file.
#[derive(Clone, Copy, Debug)]
pub struct Explain;

impl Meaning for Explain {
    type About = AnyText;

    ghost use Rattle.command_explain.specs.AnyTexts.{fault_in};
    ghost use Rattle.command_meanings.specs.Explain.{Explains};

    ghost means = { λ command text. Explains (fault_in text) };
}

impl Command for Explain {
    fn answer(&self, alloc: Global, about: &AnyText, text: &[u8]) -> Result<Answer, AllocError> {
        explained(alloc, *about, text)
    }
}

/// Returns the words about the bytes `text`, which were read as `about`.
fn explained(alloc: Global, about: AnyText, text: &[u8]) -> Result<Answer, AllocError>
    ensures { IfOk result (λ answer. Explains (fault_in about) (saying answer)) }
{
    match about {
        AnyText::Right => Ok(Answer::Prints {
            printed: Printed::Done,
            text: words_about(alloc, text, None)?.into_bytes(),
        }),
        AnyText::Faulty(fault) => Ok(Answer::Stops {
            cause: Cause::Input,
            line: fault_lines(alloc, fault, text)?,
        }),
    }
}

/// Returns the line of the first fault, and after it the words about the bytes.
fn fault_lines(alloc: Global, fault: TextFault, text: &[u8]) -> Result<Vec<u8>, AllocError>
    ensures { IfOk result (λ lines. StartsWith lines.items (words_of_input (record { line = fault.line; kind = fault.kind }))) }
{
    let words = words_about(alloc, text, Some(fault))?;
    let mut lines = input_line(alloc, fault.line, fault.kind)?;
    lines.extend_from_slice(words.as_bytes())?;
    Ok(lines)
}
