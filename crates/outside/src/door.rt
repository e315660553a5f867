//! A door, which gives one link after the other and takes them back, as a trait. `MemDoor` is one in memory, and `TcpDoor` one over a port.
ghost use Rattle.std.specs.Prelude.{◌≡◌, ◌≤◌, ℕ, IfOk, IfSome, List, OnErr, OnOk, Option, Some, is_err, option_map};
ghost use Rattle.outside.specs.Faults.{Rose, called};
ghost use Rattle.outside.specs.Links.{Back, DoorCall, DoorLinks, IsOneOut, Listen, Next, after_back, after_next, first_of};

use crate::{Failed, Link};

/// Where links come from.
pub trait Door {
    /// What comes through the door.
    type Link: Link + Drop;

    /// The links that are still to come, how many were given, and those given back, if the door can tell.
    ghost links: { Self → Option (DoorLinks Self.Link) };

    /// How many faults the door has counted.
    ghost faults: { Self → ℕ };

    /// The port at which the door listens, if it does.
    ghost opened_at: { Self → Option ℕ };

    /// The calls that were made of the door, in their order, if it tells them.
    ghost calls: { Self → Option (List DoorCall) };

    /// Opens the door at `port`. A call that fails leaves the door as it was, and counts a fault; no other call counts one. No link is
    /// given or lost.
    fn listen(&mut self, port: u16) -> Result<(), Failed>
        ensures port { OnOk result (opened_at self.new ≡ Some port) }
        ensures shut { OnErr result (opened_at self.new ≡ opened_at self.old) }
        ensures same { links self.new ≡ links self.old }
        ensures call { calls self.new ≡ called (calls self.old) (Listen port (is_err result)) }
        ensures never_falls { faults self.old ≤ faults self.new }
        ensures cause { OnErr result (Rose (faults self.old) (faults self.new)) }
        ensures none { OnOk result (faults self.new ≡ faults self.old) };

    /// Gives the first link that is to come, or `None` only if no link is to come. A call that fails gives no link and counts a fault; no
    /// other call counts one.
    fn next(&mut self) -> Result<Option<Self::Link>, Failed>
        ensures first { IfOk result (λ link. IfSome (links self.old) (λ told. link ≡ first_of told.coming)) }
        ensures given { OnOk result (links self.new ≡ option_map after_next (links self.old)) }
        ensures same { OnErr result (links self.new ≡ links self.old) }
        ensures stays { opened_at self.new ≡ opened_at self.old }
        ensures call { calls self.new ≡ called (calls self.old) (Next (is_err result)) }
        ensures never_falls { faults self.old ≤ faults self.new }
        ensures cause { OnErr result (Rose (faults self.old) (faults self.new)) }
        ensures none { OnOk result (faults self.new ≡ faults self.old) };

    /// Takes a link back. If the door tells its links, one that was given must be out.
    fn back(&mut self, link: Self::Link)
        requires { IsOneOut (links self.old) }
        ensures last { links self.new ≡ option_map (λ told. after_back told link) (links self.old) }
        ensures stays { opened_at self.new ≡ opened_at self.old }
        ensures call { calls self.new ≡ called (calls self.old) Back }
        ensures none { faults self.new ≡ faults self.old };
}
