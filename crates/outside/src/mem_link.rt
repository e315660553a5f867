//! A link in memory, for tests.
ghost use Rattle.std.specs.Prelude.{◌≡◌, ◌≤◌, ◌++◌, length, min, take, drop, is_err, Some, IfOk, OnErr, OnOk};
ghost use Rattle.std.specs.Io.{ReadsAtMost};
ghost use Rattle.std.specs.Io.KnownBytes.{Appends, ReadConsumes};
ghost use Rattle.outside.specs.Content.{AppendsPart};
ghost use Rattle.outside.specs.Faults.{Rose, raised};
ghost use Rattle.outside.specs.Memory.{next_fails, put_fails};
ghost use Rattle.outside.specs.Links.{link_after_put, link_after_read, new_link, sink_of};

use crate::calls::CallPlan;
use crate::mem_sink::append_front;
use crate::mem_source::copy_front;
use crate::{Failed, Link};
use std::alloc::{AllocError, Global};
use std::marker::Model;

/// Bytes to read and room for bytes to write, in memory, with a list of the calls that are to fail. Contracts speak of the bytes that are
/// left and of those that were written.
#[derive(Drop)]
pub struct MemLink {
    bytes: Vec<u8>,
    at: usize,
    written: Vec<u8>,
    room: usize,
    reads: u64,
    calls: CallPlan,
}

impl Model for MemLink {
    ghost use Rattle.std.specs.Prelude.{◌≤◌, length, drop, vec_capacity};
    ghost use Rattle.outside.specs.Links.{LinkState};

    ghost Value = { LinkState };

    ghost view = { λ l. record {
      left = drop l.at l.bytes.items;
      written = l.written.items;
      room = l.room;
      reads = l.reads;
      calls = l.calls;
    } };

    ghost invariant = { λ l. (l.at ≤ length l.bytes.items)
        × (length l.written.items ≤ l.room) × (l.room ≤ vec_capacity l.written) };
}

impl MemLink {
    /// Returns a link from which `bytes` can be read, and which takes `room` bytes in all. The calls of `read` and `put` whose numbers are
    /// in `failing` will fail. They are counted together, from 1.
    pub fn new(
        alloc: Global,
        bytes: &[u8],
        room: usize,
        failing: &[u64],
    ) -> Result<MemLink, AllocError>
        ensures { IfOk result (λ link. link ≡ new_link bytes.now room failing.now) }
    {
        Ok(MemLink {
            bytes: Vec::from_slice(alloc, bytes)?,
            at: 0,
            written: Vec::with_capacity(alloc, room)?,
            room,
            reads: 0,
            calls: CallPlan::new(alloc, failing)?,
        })
    }

    /// Returns the bytes that are left.
    pub fn left(&self) -> &[u8]
        ensures { result.now ≡ self.now.left }
    {
        &self.bytes[self.at..]
    }

    /// Returns the bytes that were written.
    pub fn written(&self) -> &[u8]
        ensures { result.now ≡ self.now.written }
    {
        self.written.as_slice()
    }

    /// Returns how many reads and puts have failed.
    pub fn faults(&self) -> u64
        ensures { result ≡ self.now.calls.faults }
    {
        self.calls.faults()
    }
}

impl Link for MemLink {
    ghost left = { λ l. Some l.left };

    ghost written = { λ l. Some l.written };

    ghost faults = { λ l. l.calls.faults };

    ghost reads = { λ l. l.reads };

    fn read(&mut self, room: &mut [u8]) -> Result<usize, Failed>
        ensures fits { ReadsAtMost result room.new }
        ensures given { ReadConsumes (Some self.old.left) (Some self.new.left) result room.new }
        ensures same { Some self.new.written ≡ Some self.old.written }
        ensures never_falls { self.old.calls.faults ≤ self.new.calls.faults }
        ensures cause { OnErr result (Rose self.old.calls.faults self.new.calls.faults) }
        ensures none { OnOk result (self.new.calls.faults ≡ self.old.calls.faults) }
        ensures one { self.new.reads ≡ raised self.old.reads }

        // What a read does, exactly.
        ensures failed { is_err result ≡ next_fails self.old.calls }
        ensures count { IfOk result (λ n. n ≡ min (length room.old) (length self.old.left)) }
        ensures room { IfOk result (λ n. room.new ≡ take n self.old.left ++ drop n room.old) }
        ensures untouched { OnErr result (room.new ≡ room.old) }
        ensures state { self.new ≡ link_after_read self.old (length room.old) }
    {
        self.reads = self.reads.saturating_add(1);
        let is_fault = self.calls.next_fails();
        self.calls.count(is_fault);
        if is_fault {
            return Err(Failed);
        }
        let count = copy_front(&self.bytes[self.at..], room);
        self.at += count;
        Ok(count)
    }

    fn put(&mut self, piece: &[u8]) -> Result<(), Failed>
        ensures part { AppendsPart (Some self.old.written) (Some self.new.written) piece.now }
        ensures whole { OnOk result
            (Appends (Some self.old.written) (Some self.new.written) piece.now) }
        ensures same { Some self.new.left ≡ Some self.old.left }
        ensures never_falls { self.old.calls.faults ≤ self.new.calls.faults }
        ensures cause { OnErr result (Rose self.old.calls.faults self.new.calls.faults) }
        ensures none { OnOk result (self.new.calls.faults ≡ self.old.calls.faults) }
        ensures no_read { self.new.reads ≡ self.old.reads }

        // What a put does, exactly.
        ensures failed { is_err result ≡ put_fails (sink_of self.old) piece.now }
        ensures state { self.new ≡ link_after_put self.old piece.now }
    {
        let is_listed = self.calls.next_fails();
        let fitting = if is_listed {
            0
        } else {
            self.room - self.written.len()
        };
        let is_fault = is_listed || fitting < piece.len();
        self.calls.count(is_fault);
        append_front(&mut self.written, piece, fitting);
        if is_fault { Err(Failed) } else { Ok(()) }
    }
}
