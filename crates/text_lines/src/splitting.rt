//! Takes a text apart into lines, and a line into fields. The readers of texts call it.

ghost use Rattle.std.specs.Prelude.{◌≡◌, ◌<◌, [], ◌∷◌, ◌==◌, length, map, position, IfOk, IfSome, IfNone};
ghost use Rattle.define_lines.specs.Lines.{fields_of, pieces_of};

use std::alloc::{AllocError, Global};

const TAB: u8 = 9;

const LINE_FEED: u8 = 10;

/// Returns the next line and the bytes after its LF, or None if there is no LF.
pub fn next_line(bytes: &[u8]) -> Option<(&[u8], &[u8])>
    ensures some { IfSome result (λ (line, later). pieces_of bytes.now ≡ line.now ∷ pieces_of later.now) }
    ensures shorter { IfSome result (λ (line, later). length later.now < length bytes.now) }
    ensures none { IfNone result (pieces_of bytes.now ≡ bytes.now ∷ []) }
{
    match line_end(bytes) {
        Some(end) => Some((&bytes[..end], &bytes[end + 1..])),
        None => None,
    }
}

/// Returns the place of the first LF, counted from 0, if there is one.
fn line_end(bytes: &[u8]) -> Option<usize>
    ensures { result ≡ position (λ byte. byte == 10) bytes.now }
{
    bytes.iter().position(|byte| *byte == LINE_FEED)
}

/// Returns the fields of a line, which are separated by TABs. An empty line has one empty field.
pub fn fields(alloc: Global, line: &[u8]) -> Result<Vec<&[u8]>, AllocError>
    ensures { IfOk result (λ v. map (λ field. field.now) v.items ≡ fields_of line.now) }
{
    line.split(|byte| *byte == TAB).collect(alloc)
}
