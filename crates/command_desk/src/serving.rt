//! Opens a door, attends the links that come through it, one after the other, and counts the visits.

ghost use Rattle.std.specs.Prelude.{◌≡◌, ◌+◌, ◌-◌, ◌<◌, ◌^◌, if◌then◌else◌, false, is_err, is_ok};
ghost use Rattle.office_http.specs.Visits.{kept, link_told};
ghost use Rattle.command_desk.specs.DeskTold.{NoMoreBack, door_told, ports};
ghost use Rattle.command_desk.specs.LinksRead.{LinksAreReadAsNeeded};
ghost use Rattle.command_desk.specs.Turns.{ServesAt, ServesDoor};

use crate::calling::Serve;
use crate::visiting::visit_next;
use command_shell::Resources;
use office_core::Keeper;
use office_http::LinkFault;
use outside::{Door, Failed, Watch};
use std::thread::Threads;

/// How many visits ended with a status, and how many with a fault of the link.
#[derive(Clone, Copy, Debug)]
pub(crate) struct Counts {
    pub served: usize,
    pub broken: usize,
}

/// Opens the door, and attends the links that come through it.
pub(crate) fn serve_door<R: Threads + Sync, W: Watch + Sync, K: Keeper, D: Door>(
    resources: &Resources<'_, R, W>,
    serve: Serve,
    keeper: &mut K,
    door: &mut D,
) -> Result<Counts, Failed>
    requires links { NoMoreBack (D.links door.old) }
    requires free { K.holds keeper.old ≡ false }
    ensures served { ServesAt serve.port serve.connections
        (door_told (λ link. link_told (D.Link.left link) (D.Link.written link) (D.Link.faults link))
        (D.links door.old) (D.links door.new) (D.faults door.old) (D.faults door.new))
        (ports (D.opened_at door.old) (D.opened_at door.new) (D.calls door.old) (D.calls door.new))
        (kept (K.tables keeper.old) (K.faults keeper.old) (K.course keeper.old)) (kept (K.tables keeper.new) (K.faults keeper.new) (K.course keeper.new)) result }
    ensures needed { LinksAreReadAsNeeded D.Link.left D.Link.reads (D.links door.old) (D.links door.new) }
    ensures place { (K.course keeper.new).place ≡ (K.course keeper.old).place }
    ensures free { K.holds keeper.new ≡ false }
{
    match door.listen(serve.port) {
        Ok(()) => serve_links(resources, serve.connections, keeper, door),
        Err(failed) => Err(failed),
    }
}

/// Attends the links that come through the door, up to `connections`.
fn serve_links<R: Threads + Sync, W: Watch + Sync, K: Keeper, D: Door>(
    resources: &Resources<'_, R, W>,
    connections: usize,
    keeper: &mut K,
    door: &mut D,
) -> Result<Counts, Failed>
    requires links { NoMoreBack (D.links door.old) }
    requires free { K.holds keeper.old ≡ false }
    ensures served { ServesDoor connections
        (door_told (λ link. link_told (D.Link.left link) (D.Link.written link) (D.Link.faults link))
        (D.links door.old) (D.links door.new) (D.faults door.old) (D.faults door.new)) (D.calls door.old) (D.calls door.new)
        (kept (K.tables keeper.old) (K.faults keeper.old) (K.course keeper.old)) (kept (K.tables keeper.new) (K.faults keeper.new) (K.course keeper.new)) result }
    ensures needed { LinksAreReadAsNeeded D.Link.left D.Link.reads (D.links door.old) (D.links door.new) }
    ensures port { D.opened_at door.new ≡ D.opened_at door.old }
    ensures place { (K.course keeper.new).place ≡ (K.course keeper.old).place }
    ensures free { K.holds keeper.new ≡ false }
{
    let mut counts = Counts {
        served: 0,
        broken: 0,
    };
    for _turn in 0..connections {
        match visit_next(resources, keeper, door) {
            Ok(Some(ended)) => counts.add(ended),
            Ok(None) => return Ok(counts),
            Err(failed) => return Err(failed),
        }
    }
    Ok(counts)
}

impl Counts {
    /// Counts a visit.
    fn add(&mut self, ended: Result<u16, LinkFault>)
        requires { self.old.served + self.old.broken < 2 ^ 64 - 1 }
        ensures served { self.new.served ≡ self.old.served + (if is_ok ended then 1 else 0) }
        ensures broken { self.new.broken ≡ self.old.broken + (if is_err ended then 1 else 0) }
    {
        match ended {
            Ok(_) => self.served += 1,
            Err(_) => self.broken += 1,
        }
    }
}
