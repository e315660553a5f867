//! One link: the door gives it, the desk attends it, and it goes back.

ghost use Rattle.std.specs.Prelude.{◌≡◌, OnErr, OnOk, false, option_map};
ghost use Rattle.outside.specs.Faults.{Rose};
ghost use Rattle.office_http.specs.Visits.{kept, link_told};
ghost use Rattle.command_desk.specs.DeskTold.{NoMoreBack, seen_links};
ghost use Rattle.command_desk.specs.LinksRead.{LinksAreReadAsNeeded};
ghost use Rattle.command_desk.specs.Turns.{CallsInTurn, TakesTurn};

use command_shell::Resources;
use office_core::Keeper;
use office_http::{LinkFault, attend};
use outside::{Door, Failed, Watch};
use std::thread::Threads;

/// Attends the next link and gives it back. Returns how the visit ended, or None if no link is to come. While it waits for the link, the keeper
/// keeps nobody from the tables.
pub(crate) fn visit_next<R: Threads + Sync, W: Watch + Sync, K: Keeper, D: Door>(
    resources: &Resources<'_, R, W>,
    keeper: &mut K,
    door: &mut D,
) -> Result<Option<Result<u16, LinkFault>>, Failed>
    requires links { NoMoreBack (D.links door.old) }
    requires free { K.holds keeper.old ≡ false }
    ensures turn { TakesTurn
        (option_map (seen_links (λ link. link_told (D.Link.left link) (D.Link.written link) (D.Link.faults link))) (D.links door.old))
        (option_map (seen_links (λ link. link_told (D.Link.left link) (D.Link.written link) (D.Link.faults link))) (D.links door.new))
        (kept (K.tables keeper.old) (K.faults keeper.old) (K.course keeper.old)) (kept (K.tables keeper.new) (K.faults keeper.new) (K.course keeper.new)) result }
    ensures needed { LinksAreReadAsNeeded D.Link.left D.Link.reads (D.links door.old) (D.links door.new) }
    ensures back { NoMoreBack (D.links door.new) }
    ensures cause { OnErr result (Rose (D.faults door.old) (D.faults door.new)) }
    ensures none { OnOk result (D.faults door.new ≡ D.faults door.old) }
    ensures port { D.opened_at door.new ≡ D.opened_at door.old }
    ensures calls { CallsInTurn result (D.calls door.old) (D.calls door.new) }
    ensures place { (K.course keeper.new).place ≡ (K.course keeper.old).place }
    ensures free { K.holds keeper.new ≡ false }
{
    match door.next()? {
        Some(mut link) => {
            let ended = attend(
                resources.rt,
                resources.alloc,
                &mut link,
                keeper,
                resources.watch,
            );
            door.back(link);
            Ok(Some(ended))
        }
        None => Ok(None),
    }
}
