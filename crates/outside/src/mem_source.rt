//! A source in memory, for tests and for programs with a fixed input.
ghost use Rattle.std.specs.Prelude.{◌≡◌, ◌+◌, ◌<◌, ◌≤◌, ◌++◌, [], length, min, take, drop, is_err, Some, IfOk, OnErr, OnOk};
ghost use Rattle.std.specs.Io.{ReadsAtMost};
ghost use Rattle.std.specs.Io.KnownBytes.{ReadConsumes};
ghost use Rattle.outside.specs.Faults.{Rose, raised};
ghost use Rattle.outside.specs.Memory.{no_calls, next_fails, after_read};

use crate::calls::CallPlan;
use crate::{Failed, Source};
use std::alloc::{AllocError, Global};
use std::marker::Model;

/// Bytes in memory, with a list of the calls that are to fail. Contracts speak of the bytes that are left.
#[derive(Drop)]
pub struct MemSource {
    bytes: Vec<u8>,
    at: usize,
    calls: CallPlan,
}

impl Model for MemSource {
    ghost use Rattle.std.specs.Prelude.{◌≤◌, length, drop};
    ghost use Rattle.outside.specs.Memory.{SourceState};

    ghost Value = { SourceState };

    ghost view = { λ s. record { left = drop s.at s.bytes.items; calls = s.calls } };

    ghost invariant = { λ s. s.at ≤ length s.bytes.items };
}

impl MemSource {
    /// Returns a source of these bytes. The calls of `read` whose numbers are in `failing`, counted from 1, will fail.
    pub fn new(alloc: Global, bytes: &[u8], failing: &[u64]) -> Result<MemSource, AllocError>
        ensures left { IfOk result (λ source. source.left ≡ bytes.now) }
        ensures calls { IfOk result (λ source. source.calls ≡ no_calls failing.now) }
    {
        Ok(MemSource {
            bytes: Vec::from_slice(alloc, bytes)?,
            at: 0,
            calls: CallPlan::new(alloc, failing)?,
        })
    }

    /// Returns the bytes that are left.
    pub fn left(&self) -> &[u8]
        ensures { result.now ≡ self.now.left }
    {
        &self.bytes[self.at..]
    }

    /// Returns how many reads have failed.
    pub fn faults(&self) -> u64
        ensures { result ≡ self.now.calls.faults }
    {
        self.calls.faults()
    }
}

impl Source for MemSource {
    ghost left = { λ s. Some s.left };

    ghost faults = { λ s. s.calls.faults };

    ghost reads = { λ s. s.calls.made };

    fn read(&mut self, room: &mut [u8]) -> Result<usize, Failed>
        ensures fits { ReadsAtMost result room.new }
        ensures given { ReadConsumes (Some self.old.left) (Some self.new.left) result room.new }
        ensures never_falls { self.old.calls.faults ≤ self.new.calls.faults }
        ensures cause { OnErr result (Rose self.old.calls.faults self.new.calls.faults) }
        ensures none { OnOk result (self.new.calls.faults ≡ self.old.calls.faults) }
        ensures one { self.new.calls.made ≡ raised self.old.calls.made }

        // What a read does, exactly.
        ensures failed { is_err result ≡ next_fails self.old.calls }
        ensures count { IfOk result (λ n. n ≡ min (length room.old) (length self.old.left)) }
        ensures room { IfOk result (λ n. room.new ≡ take n self.old.left ++ drop n room.old) }
        ensures untouched { OnErr result (room.new ≡ room.old) }
        ensures state { self.new ≡ after_read self.old (length room.old) }
    {
        let is_fault = self.calls.next_fails();
        self.calls.count(is_fault);
        if is_fault {
            return Err(Failed);
        }
        let count = copy_front(&self.bytes[self.at..], room);
        self.at += count;
        Ok(count)
    }
}

// Copies bytes to the front of the room, as many as fit, and returns how many.
pub(crate) fn copy_front(bytes: &[u8], room: &mut [u8]) -> usize
    ensures count { result ≡ min (length room.old) (length bytes.now) }
    ensures room { room.new ≡ take result bytes.now ++ drop result room.old }
    ensures front { take result room.new ≡ take result bytes.now }
{
    let count = room.len().min(bytes.len());
    room[..count].copy_from_slice(&bytes[..count]);
    count
}
