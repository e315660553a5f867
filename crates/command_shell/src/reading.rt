//! How a call reads its source, and what it tells if the source gives no input. `calling` uses both functions, and so does `command_stores`
//! for imports.

ghost use Rattle.std.specs.Prelude.{IfErr, IfOk};
ghost use Rattle.command_shell.specs.Answers.{status_number};
ghost use Rattle.command_shell.specs.Outcomes.{HasNoInput, IsInput, TellsNoInput};
ghost use Rattle.command_shell.specs.Told.{Bytes, IsUntouched, object, told};

use crate::status::Status;
use crate::telling::{read_fault, too_long, want_memory};
use outside::{ReadStop, Sink, Source, read_all};
use std::alloc::Global;

/// The most bytes that an input may have.
const INPUT_LIMIT: usize = 16_777_216;

/// Reads the source to its end, or until it has given more bytes than an input may have.
pub fn read_input<S: Source>(alloc: Global, source: &mut S) -> Result<Vec<u8>, ReadStop>
    ensures input { IfOk result (λ bytes. IsInput (object (S.left source.old) (S.left source.new) (S.faults source.old) (S.faults source.new)) bytes.items) }
    ensures none { IfErr result (λ stop. HasNoInput stop (object (S.left source.old) (S.left source.new) (S.faults source.old) (S.faults source.new))) }
{
    read_all(alloc, source, INPUT_LIMIT)
}

/// Writes to `errs` why the source gave no input. The status is 3, 7 or 12.
pub fn refuse_input<E: Sink>(errs: &mut E, stop: ReadStop) -> Status
    ensures { (source out : Bytes) → IsUntouched out → TellsNoInput stop (told (status_number result) source out
        (object (E.written errs.old) (E.written errs.new) (E.faults errs.old) (E.faults errs.new))) }
{
    match stop {
        ReadStop::TooLong => too_long(errs),
        ReadStop::Fault => read_fault(errs),
        ReadStop::OutOfMemory => want_memory(errs),
    }
}
