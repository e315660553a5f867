//! Writes answers: a text to `out` line by line, up to the first call that fails, or one line to `errs`.

ghost use Rattle.std.specs.Prelude.{◌≡◌, ◌<◌, ◌≤◌, length, OnErr, OnOk};
ghost use Rattle.std.specs.Io.KnownBytes.{Appends};
ghost use Rattle.outside.specs.Content.{AppendsPart};
ghost use Rattle.outside.specs.Faults.{Rose};
ghost use Rattle.command_shell.specs.Told.{Bytes, object, told, GainsLine};
ghost use Rattle.command_shell.specs.Answers.{status_number, saying};
ghost use Rattle.command_shell.specs.Lines.{door_fault_line, keeper_fault_line, read_fault_line, too_long_line, want_of_memory_line, write_fault_line};
ghost use Rattle.command_shell.specs.Outcomes.{IsToldOrCutOff};

use crate::answer::Answer;
use crate::status::{Cause, Status};
use outside::{Failed, Sink};

const LINE_FEED: u8 = b'\n';

const TOO_LONG_LINE: &[u8] = b"input\t0\t10\n";

const READ_FAULT_LINE: &[u8] = b"read fault\n";

const WRITE_FAULT_LINE: &[u8] = b"write fault\n";

const KEEPER_FAULT_LINE: &[u8] = b"keeper fault\n";

const DOOR_FAULT_LINE: &[u8] = b"door fault\n";

const WANT_OF_MEMORY_LINE: &[u8] = b"want of memory\n";

/// Writes an answer: its text to `out`, or its line to `errs`. If `out` fails on the way, the status is that of a write fault, and `errs`
/// gets the line for it.
pub fn tell<O: Sink, E: Sink>(out: &mut O, errs: &mut E, answer: &Answer) -> Status
    ensures { (source : Bytes) → IsToldOrCutOff (saying answer.now) (told (status_number result) source
        (object (O.written out.old) (O.written out.new) (O.faults out.old) (O.faults out.new))
        (object (E.written errs.old) (E.written errs.new) (E.faults errs.old) (E.faults errs.new))) }
{
    match answer {
        Answer::Prints { printed, text } => match put_lines(out, text) {
            Ok(()) => Status::Printed(*printed),
            Err(_) => write_fault(errs),
        },
        Answer::Stops { cause, line } => {
            complain(errs, line);
            Status::Stopped(*cause)
        }
    }
}

/// Puts a text line by line, each with its LF, up to the first call that fails.
fn put_lines<O: Sink>(out: &mut O, text: &[u8]) -> Result<(), Failed>
    ensures part { AppendsPart (O.written out.old) (O.written out.new) text.now }
    ensures whole { OnOk result (Appends (O.written out.old) (O.written out.new) text.now) }
    ensures cause { OnErr result (Rose (O.faults out.old) (O.faults out.new)) }
    ensures none { OnOk result (O.faults out.new ≡ O.faults out.old) }
{
    let mut start = 0;
    while start < text.len() {
        let end = line_end(text, start);
        out.put(&text[start..end])?;
        start = end;
    }
    Ok(())
}

/// Returns the end of the line that begins at `start`: the place after its LF, or the end of the text.
fn line_end(text: &[u8], start: usize) -> usize
    requires { start < length text.now }
    ensures later { start < result }
    ensures inside { result ≤ length text.now }
{
    match text[start..].iter().position(|byte| *byte == LINE_FEED) {
        Some(before) => start + before + 1,
        None => text.len(),
    }
}

/// Puts a line to `errs`, in one call that isn't tried again. A failure doesn't change the status of the program.
fn complain<E: Sink>(errs: &mut E, line: &[u8])
    ensures { GainsLine (object (E.written errs.old) (E.written errs.new) (E.faults errs.old) (E.faults errs.new)) line.now }
{
    let _ = errs.put(line);
}

/// Writes to `errs` why the words ask for no command. The status is 2.
pub fn refuse_words<E: Sink>(errs: &mut E, text: &[u8]) -> Status
    ensures status { status_number result ≡ 2 }
    ensures line { GainsLine (object (E.written errs.old) (E.written errs.new) (E.faults errs.old) (E.faults errs.new)) text.now }
{
    complain(errs, text);
    Status::Usage
}

/// Writes to `errs` that the input is too long. The status is 3.
pub(crate) fn too_long<E: Sink>(errs: &mut E) -> Status
    ensures status { status_number result ≡ 3 }
    ensures line { GainsLine (object (E.written errs.old) (E.written errs.new) (E.faults errs.old) (E.faults errs.new)) too_long_line }
{
    complain(errs, TOO_LONG_LINE);
    Status::Stopped(Cause::Input)
}

/// Writes to `errs` that the source counted a fault. The status is 7.
pub(crate) fn read_fault<E: Sink>(errs: &mut E) -> Status
    ensures status { status_number result ≡ 7 }
    ensures line { GainsLine (object (E.written errs.old) (E.written errs.new) (E.faults errs.old) (E.faults errs.new)) read_fault_line }
{
    complain(errs, READ_FAULT_LINE);
    Status::ReadFault
}

/// Writes to `errs` that `out` counted a fault. The status is 8.
fn write_fault<E: Sink>(errs: &mut E) -> Status
    ensures status { status_number result ≡ 8 }
    ensures line { GainsLine (object (E.written errs.old) (E.written errs.new) (E.faults errs.old) (E.faults errs.new)) write_fault_line }
{
    complain(errs, WRITE_FAULT_LINE);
    Status::WriteFault
}

/// Writes to `errs` that the keeper of the store counted a fault. The status is 9.
pub fn keeper_fault<E: Sink>(errs: &mut E) -> Status
    ensures status { status_number result ≡ 9 }
    ensures line { GainsLine (object (E.written errs.old) (E.written errs.new) (E.faults errs.old) (E.faults errs.new)) keeper_fault_line }
{
    complain(errs, KEEPER_FAULT_LINE);
    Status::KeeperFault
}

/// Writes to `errs` that the door of the desk counted a fault. The status is 10.
pub fn door_fault<E: Sink>(errs: &mut E) -> Status
    ensures status { status_number result ≡ 10 }
    ensures line { GainsLine (object (E.written errs.old) (E.written errs.new) (E.faults errs.old) (E.faults errs.new)) door_fault_line }
{
    complain(errs, DOOR_FAULT_LINE);
    Status::DoorFault
}

/// Writes to `errs` that no memory was left. The status is 12.
pub fn want_memory<E: Sink>(errs: &mut E) -> Status
    ensures status { status_number result ≡ 12 }
    ensures line { GainsLine (object (E.written errs.old) (E.written errs.new) (E.faults errs.old) (E.faults errs.new)) want_of_memory_line }
{
    complain(errs, WANT_OF_MEMORY_LINE);
    Status::WantOfMemory
}
