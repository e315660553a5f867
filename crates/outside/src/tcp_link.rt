//! A link over a connection of std. The desk answers over such links.
ghost use Rattle.std.specs.Prelude.{◌≡◌, ◌≤◌, None, if◌then◌else◌, is_err, OnErr, OnOk};
ghost use Rattle.std.specs.Io.{ReadsAtMost};
ghost use Rattle.std.specs.Io.KnownBytes.{Appends, ReadConsumes};
ghost use Rattle.outside.specs.Content.{AppendsPart};
ghost use Rattle.outside.specs.Faults.{Rose, raised};

use crate::std_sink::write_piece;
use crate::{Failed, Link};
use std::io::{Read, Write};

/// A connection, or any other stream of std. It tells no bytes: contracts speak of its count of faults alone. Each error of the stream is a
/// fault, also an interrupted call, and so is a write that takes nothing. No failed call is made again.
#[derive(Drop)]
pub struct TcpLink<S: Read + Write + Drop> {
    stream: S,
    faults: u64,
    reads: u64,
}

impl<S: Read + Write + Drop> TcpLink<S> {
    /// Returns a link over `stream` that has counted no fault.
    pub fn new(stream: S) -> TcpLink<S>
        ensures { ⟦<TcpLink<S> as Link>⟧.faults result ≡ 0 }
    {
        TcpLink {
            stream,
            faults: 0,
            reads: 0,
        }
    }

    /// Returns the stream.
    pub(crate) fn into_stream(self) -> S {
        self.stream
    }

    /// Returns how many reads and puts have failed.
    pub fn faults(&self) -> u64
        ensures { result ≡ ⟦<TcpLink<S> as Link>⟧.faults self.now }
    {
        self.faults
    }
}

impl<S: Read + Write + Drop> Link for TcpLink<S> {
    ghost left = { λ _. None };

    ghost written = { λ _. None };

    ghost faults = { λ l. l.faults };

    ghost reads = { λ l. l.reads };

    fn read(&mut self, room: &mut [u8]) -> Result<usize, Failed>
        ensures fits { ReadsAtMost result room.new }
        ensures given { ReadConsumes (⟦<TcpLink<S> as Link>⟧.left self.old)
            (⟦<TcpLink<S> as Link>⟧.left self.new) result room.new }
        ensures same { ⟦<TcpLink<S> as Link>⟧.written self.new
            ≡ ⟦<TcpLink<S> as Link>⟧.written self.old }
        ensures never_falls { ⟦<TcpLink<S> as Link>⟧.faults self.old
            ≤ ⟦<TcpLink<S> as Link>⟧.faults self.new }
        ensures cause { OnErr result (Rose (⟦<TcpLink<S> as Link>⟧.faults self.old)
            (⟦<TcpLink<S> as Link>⟧.faults self.new)) }
        ensures none { OnOk result (⟦<TcpLink<S> as Link>⟧.faults self.new
            ≡ ⟦<TcpLink<S> as Link>⟧.faults self.old) }
        ensures one { ⟦<TcpLink<S> as Link>⟧.reads self.new
            ≡ raised (⟦<TcpLink<S> as Link>⟧.reads self.old) }

        // Each error counts one fault, and nothing else does.
        ensures counted { ⟦<TcpLink<S> as Link>⟧.faults self.new
            ≡ (if is_err result then raised (⟦<TcpLink<S> as Link>⟧.faults self.old)
            else ⟦<TcpLink<S> as Link>⟧.faults self.old) }
    {
        self.reads = self.reads.saturating_add(1);
        match self.stream.read(room) {
            Ok(count) => Ok(count),
            Err(_) => {
                self.faults = self.faults.saturating_add(1);
                Err(Failed)
            }
        }
    }

    fn put(&mut self, piece: &[u8]) -> Result<(), Failed>
        ensures part { AppendsPart (⟦<TcpLink<S> as Link>⟧.written self.old)
            (⟦<TcpLink<S> as Link>⟧.written self.new) piece.now }
        ensures whole { OnOk result (Appends (⟦<TcpLink<S> as Link>⟧.written self.old)
            (⟦<TcpLink<S> as Link>⟧.written self.new) piece.now) }
        ensures same { ⟦<TcpLink<S> as Link>⟧.left self.new
            ≡ ⟦<TcpLink<S> as Link>⟧.left self.old }
        ensures never_falls { ⟦<TcpLink<S> as Link>⟧.faults self.old
            ≤ ⟦<TcpLink<S> as Link>⟧.faults self.new }
        ensures cause { OnErr result (Rose (⟦<TcpLink<S> as Link>⟧.faults self.old)
            (⟦<TcpLink<S> as Link>⟧.faults self.new)) }
        ensures none { OnOk result (⟦<TcpLink<S> as Link>⟧.faults self.new
            ≡ ⟦<TcpLink<S> as Link>⟧.faults self.old) }
        ensures no_read { ⟦<TcpLink<S> as Link>⟧.reads self.new
            ≡ ⟦<TcpLink<S> as Link>⟧.reads self.old }

        // Each put that fails counts one fault, and no other put does.
        ensures counted { ⟦<TcpLink<S> as Link>⟧.faults self.new
            ≡ (if is_err result then raised (⟦<TcpLink<S> as Link>⟧.faults self.old)
            else ⟦<TcpLink<S> as Link>⟧.faults self.old) }
    {
        if write_piece(&mut self.stream, piece) {
            return Ok(());
        }
        self.faults = self.faults.saturating_add(1);
        Err(Failed)
    }
}
