//! Puts a text into `room`, the bytes that a page lends for it. Each call of `calls` ends with `tell`.

ghost use Rattle.std.specs.Prelude.{◌≡◌, ◌≤◌, IfErr, IfOk, length};
ghost use Rattle.command_browser.specs.Told.{IsPut, IsPutIfAny};

use std::alloc::AllocError;

/// Puts the text at the beginning of `room`, and returns its length. If the room is too short, nothing is put. Returns 0 if there is no
/// text for want of memory.
pub(crate) fn tell(text: Result<Vec<u8>, AllocError>, room: &mut [u8]) -> usize
    requires { IfOk text (λ text. 1 ≤ length text.items) }
    ensures told { IfOk text (λ text. IsPut text.items room.old room.new result) }
    ensures none { IfErr text (λ error. result ≡ 0) }
    ensures alone { IfErr text (λ error. room.new ≡ room.old) }
{
    match text {
        Ok(text) => put(&text, room),
        Err(AllocError) => 0,
    }
}

/// As `tell`, but the text may be empty. Of an empty text nothing is put, and the result is 0.
pub(crate) fn tell_if_any(text: Result<Vec<u8>, AllocError>, room: &mut [u8]) -> usize
    ensures told { IfOk text (λ text. IsPutIfAny text.items room.old room.new result) }
    ensures none { IfErr text (λ error. result ≡ 0) }
    ensures alone { IfErr text (λ error. room.new ≡ room.old) }
{
    match text {
        Ok(text) => put_if_any(&text, room),
        Err(AllocError) => 0,
    }
}

/// Puts `text` at the beginning of `room` if it is not empty and fits, and returns its length.
fn put_if_any(text: &[u8], room: &mut [u8]) -> usize
    ensures { IsPutIfAny text.now room.old room.new result }
{
    if text.is_empty() { 0 } else { put(text, room) }
}

/// Puts `text` at the beginning of `room` if it fits, and returns its length.
fn put(text: &[u8], room: &mut [u8]) -> usize
    requires { 1 ≤ length text.now }
    ensures { IsPut text.now room.old room.new result }
{
    let count = text.len();
    if count <= room.len() {
        room[..count].copy_from_slice(text);
    }
    count
}
