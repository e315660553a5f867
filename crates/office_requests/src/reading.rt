//! Reads what the bytes of a link ask for.

ghost use Rattle.std.specs.Prelude.{◌≡◌, ◌≢◌, ◌≤◌, ◌+◌, IfOk};
ghost use Rattle.outside.specs.Faults.{Rose};
ghost use Rattle.define_desk.specs.Requests.{asking_without};
ghost use Rattle.office_requests.specs.Askings.{IsAskedOver, seen_asking};
ghost use Rattle.office_requests.specs.Needs.{IsUndecided, ReadsAsNeeded, StopsWhile};
ghost use Rattle.office_requests.specs.Reads.{LosesAtMost, most_read};

use crate::askings::{Asking, RequestStop};
use crate::fronts::{MOST_OF_HEAD, read_front, skip};
use crate::heads::{Wanted, wanted_by};
use outside::Link;
use std::alloc::Global;

/// Returns what the bytes that are left ask for. It stops reading once it knows that, so a client that keeps the connection open while it
/// waits for an answer gets one. It reads at most the 8,192 bytes of a head and the 65,536 of a body, and each read but the last takes at
/// least one byte, so it makes at most 73,728 reads.
pub fn read_asking<L: Link>(alloc: Global, link: &mut L) -> Result<Asking, RequestStop>
    ensures asking { IfOk result (λ asking. IsAskedOver (L.left link.old) (seen_asking asking)) }

    // When each error is returned. Memory may run out at any time.
    ensures fault { result ≡ Err RequestStop.LinkFault
        → Rose (L.faults link.old) (L.faults link.new) }

    // What the call does to the link, whatever it returns.
    ensures front { LosesAtMost most_read (L.left link.old) (L.left link.new) }
    ensures written { L.written link.new ≡ L.written link.old }
    ensures none { result ≢ Err RequestStop.LinkFault → L.faults link.new ≡ L.faults link.old }
    ensures never_falls { L.faults link.old ≤ L.faults link.new }
    ensures reads { L.reads link.new ≤ L.reads link.old + most_read }

    // It reads only while the bytes so far can still ask for different things. Any read may fail, so `undecided` holds before each read.
    ensures needed { ReadsAsNeeded L.left L.reads link.old link.new }
    ensures undecided { result ≡ Err RequestStop.LinkFault
        → StopsWhile IsUndecided (L.left link.old) (L.left link.new) }
{
    let front = read_front(alloc, link)?;
    let Some(size) = front.head else {
        return Ok(without_head(&front.bytes));
    };
    let Ok(wanted) = wanted_by(alloc, &front.bytes[..size]) else {
        return Err(RequestStop::OutOfMemory);
    };
    match wanted {
        Wanted::TooLarge => Ok(Asking::TooLarge),
        Wanted::NoRequest => Ok(Asking::NoRequest),
        Wanted::Asks { request, body } => {
            let come = front.bytes.len() - size;
            match skip(link, body.saturating_sub(come)) {
                Ok(true) => Ok(Asking::Asks(request)),
                Ok(false) => Ok(Asking::NoRequest),
                Err(_) => Err(RequestStop::LinkFault),
            }
        }
    }
}

/// Returns what bytes without a head ask for.
fn without_head(bytes: &[u8]) -> Asking
    ensures { seen_asking result ≡ asking_without bytes.now }
{
    if bytes.len() < MOST_OF_HEAD {
        Asking::NoRequest
    } else {
        Asking::TooLarge
    }
}
