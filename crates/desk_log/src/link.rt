//! A link that keeps what the log tells of its visit.
ghost use Rattle.std.specs.Prelude.{◌≡◌, None, Some, option_map};

use outside::{Failed, Link};

/// How many bytes of a request are kept, from its first: enough for the longest path that has a route.
const FRONT: usize = 64;

/// A link, the first bytes that were read from it, and the three digits of the status that was written to it.
#[derive(Drop)]
pub struct LoggedLink<L: Link + Drop> {
    link: L,
    front: [u8; FRONT],
    known: usize,
    status: Option<[u8; 3]>,
}

impl<L: Link + Drop> LoggedLink<L> {
    /// Returns a link from which nothing was read yet.
    pub(crate) fn new(link: L) -> LoggedLink<L>
        ensures { result.link ≡ link }
    {
        LoggedLink {
            link,
            front: [0; FRONT],
            known: 0,
            status: None,
        }
    }

    /// Returns the first bytes that were read.
    pub(crate) fn front(&self) -> &[u8] {
        &self.front[..self.known.min(FRONT)]
    }

    /// Returns the digits of the status, if a reply was written whole.
    pub(crate) fn status(&self) -> Option<[u8; 3]> {
        self.status
    }

    /// Returns the link.
    pub(crate) fn into_link(self) -> L
        ensures { result ≡ self.link }
    {
        self.link
    }
}

impl<L: Link + Drop> Link for LoggedLink<L> {
    ghost left = { λ l. L.left l.link };

    ghost written = { λ l. L.written l.link };

    ghost faults = { λ l. L.faults l.link };

    ghost reads = { λ l. L.reads l.link };

    fn read(&mut self, room: &mut [u8]) -> Result<usize, Failed> {
        let count = self.link.read(room)?;
        keep(&mut self.front, &mut self.known, &room[..count]);
        Ok(count)
    }

    fn put(&mut self, piece: &[u8]) -> Result<(), Failed> {
        self.link.put(piece)?;
        self.status = status_in(piece);
        Ok(())
    }
}

/// Appends a piece to the bytes that are known, as far as there is room.
fn keep(front: &mut [u8; FRONT], known: &mut usize, piece: &[u8]) {
    for byte in piece.iter().take(FRONT) {
        if let Some(place) = front.get_mut(*known) {
            *place = *byte;
            *known = known.saturating_add(1);
        }
    }
}

/// Returns the digits of the status in a reply, which begins with `HTTP/1.1` and a blank.
fn status_in(reply: &[u8]) -> Option<[u8; 3]> {
    match reply {
        [_, _, _, _, _, _, _, _, _, hundreds, tens, ones, ..] => Some([*hundreds, *tens, *ones]),
        _ => None,
    }
}
