//! Reads the bytes of a link up to the end of a request's head, and skips bytes of a link.

ghost use Rattle.std.specs.Prelude.{◌≡◌, ◌≢◌, ◌≤◌, ◌+◌, IfOk, OnErr, OnOk};
ghost use Rattle.outside.specs.Faults.{Rose};
ghost use Rattle.define_desk.specs.Requests.{most_of_head};
ghost use Rattle.office_requests.specs.Needs.{ComeWhile, LacksBytes, LacksHead, ReadsWhile, StopsWhile};
ghost use Rattle.office_requests.specs.Reads.{LosesAtMost, ReadsFront, Skips};

use crate::askings::RequestStop;
use crate::ends::head_size;
use outside::{Failed, Link};
use std::alloc::Global;

/// The most bytes that a head may have.
pub(crate) const MOST_OF_HEAD: usize = 8192;

// The most bytes that one read takes.
const ROOM: usize = 4096;

/// The first bytes of a link, and how many of them are its head, if it is whole.
#[derive(Drop)]
pub(crate) struct Front {
    pub bytes: Vec<u8>,
    pub head: Option<usize>,
}

/// Reads until a head is whole, until 8,192 bytes were read, which is the most that a head may have, or until no byte is left.
pub(crate) fn read_front<L: Link>(alloc: Global, link: &mut L) -> Result<Front, RequestStop>
    ensures front { IfOk result
        (λ front. ReadsFront (L.left link.old) (L.left link.new) front.bytes.items front.head) }
    ensures fault { result ≡ Err RequestStop.LinkFault
        → Rose (L.faults link.old) (L.faults link.new) }
    ensures lost { LosesAtMost most_of_head (L.left link.old) (L.left link.new) }
    ensures written { L.written link.new ≡ L.written link.old }
    ensures none { result ≢ Err RequestStop.LinkFault → L.faults link.new ≡ L.faults link.old }
    ensures never_falls { L.faults link.old ≤ L.faults link.new }
    ensures reads { L.reads link.new ≤ L.reads link.old + most_of_head }
    ensures came { IfOk result
        (λ front. ComeWhile L.left L.reads LacksHead link.old link.new front.bytes.items) }
    ensures stopped { OnErr result (ReadsWhile L.left L.reads LacksHead link.old link.new) }
    ensures lacking { result ≡ Err RequestStop.LinkFault
        → StopsWhile LacksHead (L.left link.old) (L.left link.new) }
{
    let mut bytes = Vec::new(alloc);
    let mut room = [0u8; ROOM];
    while bytes.len() < MOST_OF_HEAD {
        let size = ROOM.min(MOST_OF_HEAD - bytes.len());
        let space = &mut room[..size];
        let Ok(count) = link.read(space) else {
            return Err(RequestStop::LinkFault);
        };
        if count == 0 {
            return Ok(Front { bytes, head: None });
        }
        // The end of a head, LF LF or LF CR LF, may be split between two reads, so the search starts two bytes before the new ones.
        let from = bytes.len().saturating_sub(2);
        if bytes.extend_from_slice(&space[..count]).is_err() {
            return Err(RequestStop::OutOfMemory);
        }
        if let Some(size) = head_size(&bytes[from..]) {
            let head = Some(from + size);
            return Ok(Front { bytes, head });
        }
    }
    Ok(Front { bytes, head: None })
}

/// Reads `count` bytes and forgets them. Returns true if all came, and false if the link ended before they did.
pub(crate) fn skip<L: Link>(link: &mut L, count: usize) -> Result<bool, Failed>
    ensures skips { IfOk result (Skips count (L.left link.old) (L.left link.new)) }
    ensures lost { LosesAtMost count (L.left link.old) (L.left link.new) }
    ensures written { L.written link.new ≡ L.written link.old }
    ensures never_falls { L.faults link.old ≤ L.faults link.new }
    ensures cause { OnErr result (Rose (L.faults link.old) (L.faults link.new)) }
    ensures none { OnOk result (L.faults link.new ≡ L.faults link.old) }
    ensures reads { L.reads link.new ≤ L.reads link.old + count }
    ensures came { ReadsWhile L.left L.reads (LacksBytes count) link.old link.new }
    ensures lacking { OnErr result (StopsWhile (LacksBytes count) (L.left link.old) (L.left link.new)) }
{
    let mut left = count;
    let mut room = [0u8; ROOM];
    while left > 0 {
        let size = ROOM.min(left);
        let taken = link.read(&mut room[..size])?;
        if taken == 0 {
            return Ok(false);
        }
        left -= taken;
    }
    Ok(true)
}
