//! The lines of the log.
ghost use Rattle.std.specs.Prelude.{◌≡◌, ◌++◌, OnOk, option_map};
ghost use Rattle.desk_log.specs.LogLines.{listening_line, route_of as name_of_route, visit_line};

use itoa::Buffer;
use std::alloc::AllocError;

/// Makes the line that tells at which port the desk listens.
pub(crate) fn put_listening(text: &mut Vec<u8>, port: u16) -> Result<(), AllocError>
    ensures { OnOk result (text.new.items ≡ listening_line port) }
{
    let mut digits = Buffer::new();
    text.clear();
    text.extend_from_slice(b"listening\t")?;
    text.extend_from_slice(digits.format(port).as_bytes())?;
    text.extend_from_slice(b"\n")
}

/// Makes the line of a visit.
pub(crate) fn put_visit(
    text: &mut Vec<u8>,
    route: &[u8],
    status: Option<[u8; 3]>,
) -> Result<(), AllocError>
    ensures { OnOk result (text.new.items ≡ visit_line route.now status) }
{
    text.clear();
    text.extend_from_slice(b"visit\t")?;
    text.extend_from_slice(route)?;
    text.extend_from_slice(b"\t")?;
    match status {
        Some(digits) => text.extend_from_slice(&digits)?,
        None => text.extend_from_slice(b"broken")?,
    }
    text.extend_from_slice(b"\n")
}

/// Returns the name of a path's route.
pub(crate) fn route_of(path: &[u8]) -> &'static [u8]
    ensures { result.now ≡ name_of_route path.now }
{
    if path == b"/me".as_slice() {
        b"/me"
    } else if path == b"/me/seat".as_slice() {
        b"/me/seat"
    } else if path == b"/me/withdraw".as_slice() {
        b"/me/withdraw"
    } else if path.starts_with(b"/public/bundle/") {
        b"/public/bundle"
    } else if path.starts_with(b"/public/draw/") {
        b"/public/draw"
    } else {
        b"-"
    }
}

/// Returns the path of a request that begins with these bytes: what stands between the first blank and the next blank or `?`. Empty if it
/// doesn't end here.
pub(crate) fn path_in(front: &[u8]) -> &[u8] {
    match front.iter().position(|byte| *byte == b' ') {
        Some(blank) => until_end(&front[blank + 1..]),
        None => &[],
    }
}

fn until_end(text: &[u8]) -> &[u8] {
    match text.iter().position(|byte| matches!(*byte, b' ' | b'?')) {
        Some(end) => &text[..end],
        None => &[],
    }
}
