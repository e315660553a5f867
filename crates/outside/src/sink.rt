//! A sink of bytes, as a trait. `MemSink` is one in memory, and `StdSink` one over a writer of std.
ghost use Rattle.std.specs.Prelude.{◌≡◌, ◌≤◌, List, ℕ, OnErr, OnOk, Option};
ghost use Rattle.std.specs.Io.KnownBytes.{Appends};
ghost use Rattle.outside.specs.Content.{AppendsPart};
ghost use Rattle.outside.specs.Faults.{Rose};

use crate::Failed;

/// Where bytes go.
pub trait Sink {
    /// The bytes that were written, if the sink can tell.
    ghost written: { Self → Option (List ℕ) };

    /// How many faults the sink has counted.
    ghost faults: { Self → ℕ };

    /// Appends the piece. `Ok`: all of it was appended, and no fault is counted. `Failed`: none, some or all of it was, and a fault
    /// is counted.
    fn put(&mut self, piece: &[u8]) -> Result<(), Failed>
        ensures part { AppendsPart (written self.old) (written self.new) piece.now }
        ensures whole { OnOk result (Appends (written self.old) (written self.new) piece.now) }
        ensures never_falls { faults self.old ≤ faults self.new }
        ensures cause { OnErr result (Rose (faults self.old) (faults self.new)) }
        ensures none { OnOk result (faults self.new ≡ faults self.old) };
}
