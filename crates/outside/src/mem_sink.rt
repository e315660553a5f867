//! A sink in memory, for tests.
ghost use Rattle.std.specs.Prelude.{◌≡◌, ◌+◌, ◌-◌, ◌≤◌, ◌++◌, [], length, take, is_err, Some, IfOk, OnErr, OnOk, vec_capacity};
ghost use Rattle.std.specs.Io.KnownBytes.{Appends};
ghost use Rattle.outside.specs.Content.{AppendsPart};
ghost use Rattle.outside.specs.Faults.{Rose};
ghost use Rattle.outside.specs.Memory.{no_calls, put_fails, after_put};

use crate::calls::CallPlan;
use crate::{Failed, Sink};
use std::alloc::{AllocError, Global};
use std::marker::Model;

/// Room for bytes in memory, with a list of the calls that are to fail. Contracts speak of the bytes that were written.
#[derive(Drop)]
pub struct MemSink {
    written: Vec<u8>,
    room: usize,
    calls: CallPlan,
}

impl Model for MemSink {
    ghost use Rattle.std.specs.Prelude.{◌≤◌, length, vec_capacity};
    ghost use Rattle.outside.specs.Memory.{SinkState};

    ghost Value = { SinkState };

    ghost view = { λ s. record { written = s.written.items; room = s.room; calls = s.calls } };

    ghost invariant = { λ s. (length s.written.items ≤ s.room)
        × (s.room ≤ vec_capacity s.written) };
}

impl MemSink {
    /// Returns an empty sink that takes `room` bytes in all. The calls of `put` whose numbers are in `failing`, counted from 1,
    /// will fail.
    pub fn new(alloc: Global, room: usize, failing: &[u64]) -> Result<MemSink, AllocError>
        ensures written { IfOk result (λ sink. sink.written ≡ []) }
        ensures room { IfOk result (λ sink. sink.room ≡ room) }
        ensures calls { IfOk result (λ sink. sink.calls ≡ no_calls failing.now) }
    {
        Ok(MemSink {
            written: Vec::with_capacity(alloc, room)?,
            room,
            calls: CallPlan::new(alloc, failing)?,
        })
    }

    /// Returns the bytes that were written.
    pub fn written(&self) -> &[u8]
        ensures { result.now ≡ self.now.written }
    {
        self.written.as_slice()
    }

    /// Returns how many puts have failed.
    pub fn faults(&self) -> u64
        ensures { result ≡ self.now.calls.faults }
    {
        self.calls.faults()
    }
}

impl Sink for MemSink {
    ghost written = { λ s. Some s.written };

    ghost faults = { λ s. s.calls.faults };

    fn put(&mut self, piece: &[u8]) -> Result<(), Failed>
        ensures part { AppendsPart (Some self.old.written) (Some self.new.written) piece.now }
        ensures whole { OnOk result
            (Appends (Some self.old.written) (Some self.new.written) piece.now) }
        ensures never_falls { self.old.calls.faults ≤ self.new.calls.faults }
        ensures cause { OnErr result (Rose self.old.calls.faults self.new.calls.faults) }
        ensures none { OnOk result (self.new.calls.faults ≡ self.old.calls.faults) }

        // What a put does, exactly.
        ensures failed { is_err result ≡ put_fails self.old piece.now }
        ensures state { self.new ≡ after_put self.old piece.now }
    {
        let is_listed = self.calls.next_fails();
        let fitting = if is_listed {
            0
        } else {
            self.room - self.written.len()
        };
        let is_fault = is_listed || fitting < piece.len();
        self.calls.count(is_fault);
        append_front(&mut self.written, piece, fitting);
        if is_fault { Err(Failed) } else { Ok(()) }
    }
}

// Appends the first `fitting` bytes of the piece, or all if it has fewer.
pub(crate) fn append_front(written: &mut Vec<u8>, piece: &[u8], fitting: usize)
    requires { length written.old.items + fitting ≤ vec_capacity written.old }
    ensures items { written.new.items ≡ written.old.items ++ take fitting piece.now }
    ensures room { vec_capacity written.old ≤ vec_capacity written.new }
{
    let count = fitting.min(piece.len());
    written.extend_from_slice(&piece[..count]).unwrap();
}
