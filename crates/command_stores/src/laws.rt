//! The laws that a command of the office, and an import, have at most one answer: contracts of functions that do nothing.

ghost use Rattle.command_meanings.specs.Imports.{ImportsAnswerOnce};
ghost use Rattle.command_meanings.specs.Steps.{StepsAnswerOnce};

use define_imports::one_reading;

/// Over given tables a command of the office has at most one answer, with at most one change.
pub fn steps_answer_once()
    ensures { StepsAnswerOnce }
{}

/// About a given file, over given tables, an import has at most one answer, with at most one change.
pub fn imports_answer_once()
    ensures { ImportsAnswerOnce }
{
    one_reading();
}
