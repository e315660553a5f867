//! The answer to words that can't be read.

ghost use Rattle.std.specs.Prelude.{◌≡◌, ◌≢◌};
ghost use Rattle.std.specs.declared.io.ErrorKind.TheVariants.{InvalidData};
ghost use Rattle.command_shell.specs.Told.{object, GainsLine};
ghost use Rattle.command_shell.specs.Answers.{status_number};
ghost use Rattle.command_shell.specs.Lines.{want_of_memory_line};
ghost use Rattle.command_office.specs.Office.{words_not_utf8_line};

use command_shell::{Status, refuse_words, want_memory};
use outside::Sink;
use std::io;

const WORDS_NOT_UTF8_LINE: &[u8] = b"error: invalid UTF-8 was detected in one or more arguments\n";

/// Writes to `errs` why the words could not be read: one of them isn't UTF-8, or no memory was left.
pub fn no_words<E: Sink>(errs: &mut E, kind: io::ErrorKind) -> Status
    ensures not_utf8 { kind ≡ InvalidData → (status_number result ≡ 2)
        × GainsLine (object (E.written errs.old) (E.written errs.new) (E.faults errs.old) (E.faults errs.new)) words_not_utf8_line }
    ensures want { kind ≢ InvalidData → (status_number result ≡ 12)
        × GainsLine (object (E.written errs.old) (E.written errs.new) (E.faults errs.old) (E.faults errs.new)) want_of_memory_line }
{
    match kind {
        io::ErrorKind::InvalidData => refuse_words(errs, WORDS_NOT_UTF8_LINE),
        _ => want_memory(errs),
    }
}
