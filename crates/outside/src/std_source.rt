//! A source over any reader of std. The program's standard input is such a source.
ghost use Rattle.std.specs.Prelude.{◌≡◌, ◌≤◌, if◌then◌else◌, is_err, OnErr, OnOk};
ghost use Rattle.std.specs.Io.{ReadsAtMost};
ghost use Rattle.std.specs.Io.KnownBytes.{ReadConsumes};
ghost use Rattle.outside.specs.Faults.{Rose, raised};

use crate::{Failed, Source};
use std::io::Read;

/// Any reader of std. Contracts speak of the bytes that are left if the contracts of the reader do. Each error of the reader is a fault,
/// also an interrupted call. No failed read is tried again.
#[derive(Drop)]
pub struct StdSource<R: Read> {
    inner: R,
    faults: u64,
    reads: u64,
}

impl<R: Read> StdSource<R> {
    /// Returns a source that reads from `inner` and has counted no fault.
    pub fn new(inner: R) -> StdSource<R>
        ensures left { ⟦<StdSource<R> as Source>⟧.left result ≡ R.remaining inner }
        ensures faults { ⟦<StdSource<R> as Source>⟧.faults result ≡ 0 }
    {
        StdSource {
            inner,
            faults: 0,
            reads: 0,
        }
    }

    /// Returns how many reads have failed.
    pub fn faults(&self) -> u64
        ensures { result ≡ ⟦<StdSource<R> as Source>⟧.faults self.now }
    {
        self.faults
    }
}

impl<R: Read> Source for StdSource<R> {
    ghost left = { λ s. R.remaining s.inner };

    ghost faults = { λ s. s.faults };

    ghost reads = { λ s. s.reads };

    fn read(&mut self, room: &mut [u8]) -> Result<usize, Failed>
        ensures fits { ReadsAtMost result room.new }
        ensures given { ReadConsumes (⟦<StdSource<R> as Source>⟧.left self.old)
            (⟦<StdSource<R> as Source>⟧.left self.new) result room.new }
        ensures never_falls { ⟦<StdSource<R> as Source>⟧.faults self.old
            ≤ ⟦<StdSource<R> as Source>⟧.faults self.new }
        ensures cause { OnErr result (Rose (⟦<StdSource<R> as Source>⟧.faults self.old)
            (⟦<StdSource<R> as Source>⟧.faults self.new)) }
        ensures none { OnOk result (⟦<StdSource<R> as Source>⟧.faults self.new
            ≡ ⟦<StdSource<R> as Source>⟧.faults self.old) }
        ensures one { ⟦<StdSource<R> as Source>⟧.reads self.new
            ≡ raised (⟦<StdSource<R> as Source>⟧.reads self.old) }

        // Each error counts one fault, and nothing else does.
        ensures counted { ⟦<StdSource<R> as Source>⟧.faults self.new
            ≡ (if is_err result then raised (⟦<StdSource<R> as Source>⟧.faults self.old)
            else ⟦<StdSource<R> as Source>⟧.faults self.old) }
    {
        self.reads = self.reads.saturating_add(1);
        match self.inner.read(room) {
            Ok(count) => Ok(count),
            Err(_) => {
                self.faults = self.faults.saturating_add(1);
                Err(Failed)
            }
        }
    }
}
