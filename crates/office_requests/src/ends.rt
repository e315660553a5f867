//! Finds where the head of a request ends.

ghost use Rattle.std.specs.Prelude.{◌≡◌};
ghost use Rattle.define_desk.specs.Requests.{empty_line, head_size};

/// Returns how many bytes a head has: it ends with the first empty line that comes after an LF. Returns None if there is no such line.
pub(crate) fn head_size(bytes: &[u8]) -> Option<usize>
    ensures { result ≡ head_size bytes.now }
{
    for (at, byte) in bytes.iter().enumerate() {
        if *byte == b'\n' {
            let ending = empty_line(&bytes[at + 1..]);
            if ending > 0 {
                return Some(at + 1 + ending);
            }
        }
    }
    None
}

/// Returns the size of the empty line with which the bytes begin: 1 for LF, 2 for CR LF, or 0 if they don't begin with one.
fn empty_line(bytes: &[u8]) -> usize
    ensures { result ≡ empty_line bytes.now }
{
    match bytes {
        [b'\n', ..] => 1,
        [b'\r', b'\n', ..] => 2,
        _ => 0,
    }
}
