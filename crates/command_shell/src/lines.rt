//! The line of a faulty input, and the answer that there is no quota panel, which several commands have.

ghost use Rattle.std.specs.Prelude.{◌≡◌, IfOk};
ghost use Rattle.command_shell.specs.Answers.{Prints, saying};
ghost use Rattle.command_shell.specs.Lines.{input_line as words_of_input, no_panel_line};

use crate::answer::Answer;
use crate::status::Printed;
use std::alloc::{AllocError, Global};
use text_lines::{end_line, push_number};

const NO_PANEL_LINE: &[u8] = b"no panel\n";

/// The kind of fault of a bundle whose weights don't sum to its total. It is printed with line number 0, since no single line is faulty.
pub const WRONG_TOTAL: u8 = 14;

/// Returns the line for a faulty input: its first faulty line, counted from 1, and the lowest kind of fault in it.
pub fn input_line(alloc: Global, line: usize, kind: u8) -> Result<Vec<u8>, AllocError>
    ensures { IfOk result (λ text. text.items ≡ words_of_input (record { line = line; kind = kind })) }
{
    let mut text = Vec::new(alloc);
    text.extend_from_slice(b"input")?;
    push_number(&mut text, line)?;
    push_number(&mut text, usize::from(kind))?;
    end_line(&mut text)?;
    Ok(text)
}

/// Returns the answer that no quota panel exists.
pub fn no_panel(alloc: Global) -> Result<Answer, AllocError>
    ensures { IfOk result (λ answer. saying answer ≡ Prints Printed.NoPanel no_panel_line) }
{
    Ok(Answer::Prints {
        printed: Printed::NoPanel,
        text: Vec::from_slice(alloc, NO_PANEL_LINE)?,
    })
}
