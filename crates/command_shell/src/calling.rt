//! One call of a command. The three public calls here are promises: every command of the program ends as they say.

ghost use Rattle.std.specs.Fn.{FnOnceReturns, FnOnceReturnsAt};
ghost use Rattle.std.specs.Prelude.{◌≡◌, IfOk};
ghost use Rattle.command_shell.specs.Told.{Bytes, IsUntouched, object, told};
ghost use Rattle.command_shell.specs.declared.status.Cause.TheVariants.{Input};
ghost use Rattle.command_shell.specs.Answers.{Stops, status_number, saying};
ghost use Rattle.command_shell.specs.Lines.{input_line as words_of_input};
ghost use Rattle.command_shell.specs.Outcomes.{SilentOutcome, TextOutcome};
ghost use Rattle.command_shell.specs.Subjects.{About, no_input};

use crate::answer::Answer;
use crate::command::{Answering, Command, Meaning};
use crate::lines::input_line;
use crate::reading::{read_input, refuse_input};
use crate::status::{Cause, Status};
use crate::subject::{Nothing, Subject};
use crate::telling::{tell, want_memory};
use outside::{Sink, Source};
use std::alloc::{AllocError, Global};
use text_lines::{TextFault, TextStop};

/// Makes one call of a command that reads the source and starts no threads. The source is read to its end, or past the limit, before the
/// command is asked about its bytes. The answer is told once it is whole.
pub fn call<C: Answering, S: Source, O: Sink, E: Sink>(
    alloc: Global,
    command: &C,
    source: &mut S,
    out: &mut O,
    errs: &mut E,
) -> Status
    ensures { TextOutcome (C.answers command.now) (told (status_number result)
        (object (S.left source.old) (S.left source.new) (S.faults source.old) (S.faults source.new))
        (object (O.written out.old) (O.written out.new) (O.faults out.old) (O.faults out.new))
        (object (E.written errs.old) (E.written errs.new) (E.faults errs.old) (E.faults errs.new))) }
{
    match read_input(alloc, source) {
        Ok(bytes) => match command.answer_bytes(alloc, &bytes) {
            Ok(answer) => tell(out, errs, &answer),
            Err(AllocError) => want_memory(errs),
        },
        Err(stop) => refuse_input(errs, stop),
    }
}

/// Makes one call of a command that reads the source, as `call` does, but with a closure that answers. A closure can start threads, and a
/// method of a trait can't; so this call repeats the body of `call`.
pub fn call_answered_by<
    C: Meaning,
    F: FnOnce(&C::About) -> Result<Answer, AllocError>,
    S: Source,
    O: Sink,
    E: Sink,
>(alloc: Global, command: &C, answer: F, source: &mut S, out: &mut O, errs: &mut E) -> Status
    requires callable { F.IsAlwaysCallable answer }
    requires right { (about : _) (answered : _) → FnOnceReturnsAt F.FnOnce answer about answered → IfOk answered (λ it. C.means command.now about (saying it)) }
    ensures { TextOutcome (About C.About.format (C.means command.now)) (told (status_number result)
        (object (S.left source.old) (S.left source.new) (S.faults source.old) (S.faults source.new))
        (object (O.written out.old) (O.written out.new) (O.faults out.old) (O.faults out.new))
        (object (E.written errs.old) (E.written errs.new) (E.faults errs.old) (E.faults errs.new))) }
{
    match read_input(alloc, source) {
        Ok(bytes) => match answer_by(alloc, command, answer, &bytes) {
            Ok(answer) => tell(out, errs, &answer),
            Err(AllocError) => want_memory(errs),
        },
        Err(stop) => refuse_input(errs, stop),
    }
}

/// Makes one call of a command that reads nothing, with a closure that answers. It takes no source, so every source stays untouched.
pub fn call_silent<
    C: Meaning<About = Nothing>,
    F: FnOnce() -> Result<Answer, AllocError>,
    O: Sink,
    E: Sink,
>(command: &C, answer: F, out: &mut O, errs: &mut E) -> Status
    requires callable { F.IsAlwaysCallable answer }
    requires right { (answered : _) → FnOnceReturns F.FnOnce answer tt answered → IfOk answered (λ it. C.means command.now no_input (saying it)) }
    ensures { (source : Bytes) → IsUntouched source → SilentOutcome (C.means command.now no_input) (told (status_number result) source
        (object (O.written out.old) (O.written out.new) (O.faults out.old) (O.faults out.new))
        (object (E.written errs.old) (E.written errs.new) (E.faults errs.old) (E.faults errs.new))) }
{
    match answer() {
        Ok(answer) => tell(out, errs, &answer),
        Err(_) => want_memory(errs),
    }
}

/// Returns the command's answer about the value that `bytes` spell, or the line of their first fault.
///
/// # Errors
///
/// Want of memory.
pub fn answer_about<C: Command>(
    alloc: Global,
    command: &C,
    bytes: &[u8],
) -> Result<Answer, AllocError>
    ensures { IfOk result (λ answer. About C.About.format (C.means command.now) bytes.now (saying answer)) }
{
    match C::About::read(alloc, bytes) {
        Ok(about) => command.answer(alloc, &about, bytes),
        Err(TextStop::Fault(fault)) => at_fault(alloc, fault),
        Err(TextStop::OutOfMemory) => Err(AllocError),
    }
}

/// Returns the closure's answer about the value that `bytes` spell, or the line of their first fault.
fn answer_by<C: Meaning, F: FnOnce(&C::About) -> Result<Answer, AllocError>>(
    alloc: Global,
    command: &C,
    answer: F,
    bytes: &[u8],
) -> Result<Answer, AllocError>
    requires callable { F.IsAlwaysCallable answer }
    requires right { (about : _) (answered : _) → FnOnceReturnsAt F.FnOnce answer about answered → IfOk answered (λ it. C.means command.now about (saying it)) }
    ensures { IfOk result (λ answer. About C.About.format (C.means command.now) bytes.now (saying answer)) }
{
    match C::About::read(alloc, bytes) {
        Ok(about) => answer(&about),
        Err(TextStop::Fault(fault)) => at_fault(alloc, fault),
        Err(TextStop::OutOfMemory) => Err(AllocError),
    }
}

/// Returns the answer for a text whose first fault is `fault`.
fn at_fault(alloc: Global, fault: TextFault) -> Result<Answer, AllocError>
    ensures { IfOk result (λ answer. saying answer ≡ Stops Input (words_of_input (record { line = fault.line; kind = fault.kind }))) }
{
    Ok(Answer::Stops {
        cause: Cause::Input,
        line: input_line(alloc, fault.line, fault.kind)?,
    })
}
