//! One call of `serve`.

ghost use Rattle.std.specs.Prelude.{◌≡◌, Err, IfOk, None, OnOk, Some, false};
ghost use Rattle.command_shell.specs.Told.{Bytes, IsUntouched, object, told};
ghost use Rattle.command_shell.specs.Answers.{status_number};
ghost use Rattle.command_stores.specs.StoreTold.{MayBeAttached, keeper_told, store_told};
ghost use Rattle.office_core.specs.Keeping.{Attach, HasCause, with_call};
ghost use Rattle.office_http.specs.Visits.{link_told};
ghost use Rattle.command_desk.specs.DeskTold.{NoMoreBack, desk_told, door_told, ports};
ghost use Rattle.command_desk.specs.LinksRead.{LinksAreReadAsNeeded};
ghost use Rattle.command_desk.specs.ServeOutcomes.{SilentServeOutcome};
ghost use Rattle.command_desk.specs.Rooms.{IsRoom};

use crate::lines::{room_for_line, served_answer};
use crate::serving::serve_door;
use command_shell::{Resources, Status, door_fault, keeper_fault, tell, want_memory};
use command_stores::attach;
use office_core::{Keeper, KeeperStop};
use outside::{Door, Sink, Watch};
use std::alloc::Global;
use std::thread::Threads;

/// The arguments of `serve`.
#[derive(Clone, Copy, Debug)]
pub struct Serve {
    /// The port at which the door is opened.
    pub port: u16,
    /// How many links are attended at most.
    pub connections: usize,
}

/// Makes one call of `serve` over the store at `path`. Once the door is open, only replies to links need memory. The keeper keeps others from
/// the tables only while a link is attended, and no longer than until its reply is made.
pub fn call_serve<R: Threads + Sync, W: Watch + Sync, K: Keeper, D: Door, O: Sink, E: Sink>(
    resources: &Resources<'_, R, W>,
    serve: Serve,
    path: &str,
    keeper: &mut K,
    door: &mut D,
    out: &mut O,
    errs: &mut E,
) -> Status
    requires { NoMoreBack (D.links door.old) }
    ensures ends { (source : Bytes) → IsUntouched source → SilentServeOutcome path.now serve.port serve.connections (desk_told (store_told
        (told (status_number result) source
        (object (O.written out.old) (O.written out.new) (O.faults out.old) (O.faults out.new))
        (object (E.written errs.old) (E.written errs.new) (E.faults errs.old) (E.faults errs.new)))
        (keeper_told (object (K.tables keeper.old) (K.tables keeper.new) (K.faults keeper.old) (K.faults keeper.new)) (K.course keeper.old) (K.course keeper.new)))
        (door_told (λ link. link_told (D.Link.left link) (D.Link.written link) (D.Link.faults link))
        (D.links door.old) (D.links door.new) (D.faults door.old) (D.faults door.new))
        (ports (D.opened_at door.old) (D.opened_at door.new) (D.calls door.old) (D.calls door.new))) }
    ensures needed { LinksAreReadAsNeeded D.Link.left D.Link.reads (D.links door.old) (D.links door.new) }
    ensures free { K.holds keeper.new ≡ false }
{
    match open_store(resources.alloc, path, keeper) {
        Ok(room) => match serve_door(resources, serve, keeper, door) {
            Ok(counts) => tell(
                out,
                errs,
                &served_answer(room, counts.served, counts.broken),
            ),
            Err(_) => door_fault(errs),
        },
        Err(KeeperStop::Failed) => keeper_fault(errs),
        Err(KeeperStop::OutOfMemory) => want_memory(errs),
    }
}

/// Attaches the keeper, which then lets others at the tables, and returns the room for the line that is told at the end.
fn open_store<K: Keeper>(alloc: Global, path: &str, keeper: &mut K) -> Result<Vec<u8>, KeeperStop>
    ensures room { IfOk result IsRoom }
    ensures attached { OnOk result (K.course keeper.new ≡ with_call (K.course keeper.old) (Attach path.now None)) }
    ensures failed { result ≡ Err KeeperStop.Failed → K.course keeper.new ≡ with_call (K.course keeper.old) (Attach path.now (Some KeeperStop.Failed)) }
    ensures place { MayBeAttached path.now (keeper_told (object (K.tables keeper.old) (K.tables keeper.new) (K.faults keeper.old) (K.faults keeper.new)) (K.course keeper.old) (K.course keeper.new)) }
    ensures same { K.tables keeper.new ≡ K.tables keeper.old }
    ensures cause { HasCause (K.faults keeper.old) (K.faults keeper.new) result }
    ensures free { K.holds keeper.new ≡ false }
{
    attach(alloc, path, keeper)?;
    match room_for_line(alloc) {
        Ok(room) => Ok(room),
        Err(_) => Err(KeeperStop::OutOfMemory),
    }
}
