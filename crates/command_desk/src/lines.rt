//! The line that `serve` tells at its end, and the room for it.

ghost use Rattle.std.specs.Prelude.{◌≡◌, ◌+◌, ◌≤◌, ◌++◌, IfOk, decimal, length, vec_capacity};
ghost use Rattle.command_shell.specs.Answers.{Prints, saying};
ghost use Rattle.command_shell.specs.declared.status.Printed.TheVariants as printed;
ghost use Rattle.command_desk.specs.Rooms.{IsRoom, numbers_line};

use command_shell::{Answer, Printed};
use itoa::Buffer;
use std::alloc::{AllocError, Global};

/// How many bytes the room has: more than the line needs, whatever its numbers are.
pub(crate) const ROOM: usize = 128;

/// Returns an empty text with room for the line.
pub(crate) fn room_for_line(alloc: Global) -> Result<Vec<u8>, AllocError>
    ensures { IfOk result IsRoom }
{
    Vec::with_capacity(alloc, ROOM)
}

/// Returns the answer that `served` links ended with a reply and `broken` with a fault. It takes no memory.
pub(crate) fn served_answer(room: Vec<u8>, served: usize, broken: usize) -> Answer
    requires { IsRoom room }
    ensures { saying result ≡ Prints printed.Done (numbers_line served broken) }
{
    let mut text = room;
    append(&mut text, b"served\t");
    append_number(&mut text, served);
    append(&mut text, b"\tbroken\t");
    append_number(&mut text, broken);
    append(&mut text, b"\n");
    Answer::Prints {
        printed: Printed::Done,
        text,
    }
}

/// Appends the digits of a number. The text has room for 40 more bytes.
fn append_number(text: &mut Vec<u8>, number: usize)
    requires { length text.old.items + 40 ≤ vec_capacity text.old }
    ensures items { text.new.items ≡ text.old.items ++ decimal number }
    ensures size { length text.new.items ≤ length text.old.items + 40 }
    ensures room { vec_capacity text.old ≤ vec_capacity text.new }
{
    let mut digits = Buffer::new();
    append(text, digits.format(number).as_bytes());
}

/// Appends `piece`. The text has room for it.
fn append(text: &mut Vec<u8>, piece: &[u8])
    requires { length text.old.items + length piece.now ≤ vec_capacity text.old }
    ensures items { text.new.items ≡ text.old.items ++ piece.now }
    ensures size { length text.new.items ≡ length text.old.items + length piece.now }
    ensures room { vec_capacity text.old ≤ vec_capacity text.new }
{
    text.extend_from_slice(piece).unwrap();
}
