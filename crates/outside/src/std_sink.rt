//! A sink over any writer of std. The program's standard output and errors are such sinks.
ghost use Rattle.std.specs.Prelude.{◌≡◌, ◌≤◌, if◌then◌else◌, is_err, false, true, OnErr, OnOk};
ghost use Rattle.std.specs.Io.KnownBytes.{Appends};
ghost use Rattle.outside.specs.Content.{AppendsLess, AppendsPart};
ghost use Rattle.outside.specs.Faults.{Rose, raised};

use crate::{Failed, Sink};
use std::io::Write;

/// Any writer of std. Contracts speak of the bytes that were written if the contracts of the writer do. Each error of the writer is a
/// fault, also an interrupted call, and so is a write that takes nothing. No failed write is tried again.
#[derive(Drop)]
pub struct StdSink<W: Write> {
    inner: W,
    faults: u64,
}

impl<W: Write> StdSink<W> {
    /// Returns a sink that writes to `inner` and has counted no fault.
    pub fn new(inner: W) -> StdSink<W>
        ensures written { ⟦<StdSink<W> as Sink>⟧.written result ≡ W.contents inner }
        ensures faults { ⟦<StdSink<W> as Sink>⟧.faults result ≡ 0 }
    {
        StdSink { inner, faults: 0 }
    }

    /// Returns how many puts have failed.
    pub fn faults(&self) -> u64
        ensures { result ≡ ⟦<StdSink<W> as Sink>⟧.faults self.now }
    {
        self.faults
    }
}

impl<W: Write> Sink for StdSink<W> {
    ghost written = { λ s. W.contents s.inner };

    ghost faults = { λ s. s.faults };

    fn put(&mut self, piece: &[u8]) -> Result<(), Failed>
        ensures part { AppendsPart (⟦<StdSink<W> as Sink>⟧.written self.old)
            (⟦<StdSink<W> as Sink>⟧.written self.new) piece.now }
        ensures whole { OnOk result (Appends (⟦<StdSink<W> as Sink>⟧.written self.old)
            (⟦<StdSink<W> as Sink>⟧.written self.new) piece.now) }
        ensures never_falls { ⟦<StdSink<W> as Sink>⟧.faults self.old
            ≤ ⟦<StdSink<W> as Sink>⟧.faults self.new }
        ensures cause { OnErr result (Rose (⟦<StdSink<W> as Sink>⟧.faults self.old)
            (⟦<StdSink<W> as Sink>⟧.faults self.new)) }
        ensures none { OnOk result (⟦<StdSink<W> as Sink>⟧.faults self.new
            ≡ ⟦<StdSink<W> as Sink>⟧.faults self.old) }

        // Each put that fails counts one fault, and no other put does. A put that wrote all of its piece doesn't fail.
        ensures less { OnErr result (AppendsLess (⟦<StdSink<W> as Sink>⟧.written self.old)
            (⟦<StdSink<W> as Sink>⟧.written self.new) piece.now) }
        ensures counted { ⟦<StdSink<W> as Sink>⟧.faults self.new
            ≡ (if is_err result then raised (⟦<StdSink<W> as Sink>⟧.faults self.old)
            else ⟦<StdSink<W> as Sink>⟧.faults self.old) }
    {
        if write_piece(&mut self.inner, piece) {
            return Ok(());
        }
        self.faults = self.faults.saturating_add(1);
        Err(Failed)
    }
}

// Writes the piece, and returns whether the writer took all of it.
pub(crate) fn write_piece<W: Write>(inner: &mut W, piece: &[u8]) -> bool
    ensures part { AppendsPart (W.contents inner.old) (W.contents inner.new) piece.now }
    ensures whole { result ≡ true
        → Appends (W.contents inner.old) (W.contents inner.new) piece.now }
    ensures less { result ≡ false
        → AppendsLess (W.contents inner.old) (W.contents inner.new) piece.now }
{
    let mut taken = 0;
    while taken < piece.len() {
        match inner.write(&piece[taken..]) {
            Ok(0) | Err(_) => return false,
            Ok(count) => taken += count,
        }
    }
    true
}
