//! A source of bytes, as a trait. `MemSource` is one in memory, and `StdSource` one over a reader of std.
ghost use Rattle.std.specs.Prelude.{◌≡◌, ◌≤◌, List, ℕ, OnErr, OnOk, Option};
ghost use Rattle.std.specs.Io.{ReadsAtMost};
ghost use Rattle.std.specs.Io.KnownBytes.{ReadConsumes};
ghost use Rattle.outside.specs.Faults.{Rose, raised};

use thiserror::Error;

/// A call on the outside failed, and its object counted the fault.
#[derive(Clone, Copy, Debug, PartialEq, Eq, Error)]
#[error("a call on the outside failed")]
pub struct Failed;

/// Where bytes come from.
pub trait Source {
    /// The bytes that are left, if the source can tell.
    ghost left: { Self → Option (List ℕ) };

    /// How many faults the source has counted.
    ghost faults: { Self → ℕ };

    /// How many reads the source has counted. The count stays at 2^64 - 1 once it is there.
    ghost reads: { Self → ℕ };

    /// Moves bytes from the front of what is left to the front of `room`, and returns how many. If `room` isn't empty, it returns 0
    /// only if nothing is left. A call that fails moves nothing and counts a fault; no other call counts one.
    fn read(&mut self, room: &mut [u8]) -> Result<usize, Failed>
        ensures fits { ReadsAtMost result room.new }
        ensures given { ReadConsumes (left self.old) (left self.new) result room.new }
        ensures never_falls { faults self.old ≤ faults self.new }
        ensures cause { OnErr result (Rose (faults self.old) (faults self.new)) }
        ensures none { OnOk result (faults self.new ≡ faults self.old) }
        ensures one { reads self.new ≡ raised (reads self.old) };
}
