//! A link, which is a source and a sink in one, as a trait. `MemLink` is one in memory, and `TcpLink` one over a connection.
ghost use Rattle.std.specs.Prelude.{◌≡◌, ◌≤◌, List, ℕ, OnErr, OnOk, Option};
ghost use Rattle.std.specs.Io.{ReadsAtMost};
ghost use Rattle.std.specs.Io.KnownBytes.{Appends, ReadConsumes};
ghost use Rattle.outside.specs.Content.{AppendsPart};
ghost use Rattle.outside.specs.Faults.{Rose, raised};

use crate::Failed;

/// Where bytes come from and an answer goes to. Reads and puts have one count of faults.
pub trait Link {
    /// The bytes that are left to read, if the link can tell.
    ghost left: { Self → Option (List ℕ) };

    /// The bytes that were written, if the link can tell.
    ghost written: { Self → Option (List ℕ) };

    /// How many faults the link has counted.
    ghost faults: { Self → ℕ };

    /// How many reads the link has counted. The count stays at 2^64 - 1 once it is there.
    ghost reads: { Self → ℕ };

    /// Moves bytes from the front of what is left to the front of `room`, and returns how many. If `room` isn't empty, it returns 0
    /// only if nothing is left. A call that fails moves nothing and counts a fault; no other call counts one.
    fn read(&mut self, room: &mut [u8]) -> Result<usize, Failed>
        ensures fits { ReadsAtMost result room.new }
        ensures given { ReadConsumes (left self.old) (left self.new) result room.new }
        ensures same { written self.new ≡ written self.old }
        ensures never_falls { faults self.old ≤ faults self.new }
        ensures cause { OnErr result (Rose (faults self.old) (faults self.new)) }
        ensures none { OnOk result (faults self.new ≡ faults self.old) }
        ensures one { reads self.new ≡ raised (reads self.old) };

    /// Appends the piece. `Ok`: all of it was appended, and no fault is counted. `Failed`: none, some or all of it was, and a fault
    /// is counted.
    fn put(&mut self, piece: &[u8]) -> Result<(), Failed>
        ensures part { AppendsPart (written self.old) (written self.new) piece.now }
        ensures whole { OnOk result (Appends (written self.old) (written self.new) piece.now) }
        ensures same { left self.new ≡ left self.old }
        ensures never_falls { faults self.old ≤ faults self.new }
        ensures cause { OnErr result (Rose (faults self.old) (faults self.new)) }
        ensures none { OnOk result (faults self.new ≡ faults self.old) }
        ensures no_read { reads self.new ≡ reads self.old };
}
