//! What digits draw from a bundle.

ghost use Rattle.std.specs.Prelude.{◌≡◌, IfOk, IsTrue, length, nat_lt};
ghost use Rattle.std.specs.List.{list_all};
ghost use Rattle.define_pools.specs.Lists.{includes_list};
ghost use Rattle.define_pools.specs.Lottery.{TotalAgrees};
ghost use Rattle.define_draws.specs.Lines.{member_ids};
ghost use Rattle.office_tables.specs.Drawn.{IsDrawnBy, IsDrawnFrom};

use crate::numbers::Tickets;
use bundle_text::Bundle;
use pool_model::{Name, Panel, Pool};
use sealed_draw::{Draw, DrawStop, draw};
use short_tickets::short_bundle;
use std::alloc::{AllocError, Global};

/// Returns the ticket and the panel that digits draw in a round with this bundle, or None exactly if they name no ticket. The draw is from
/// the bundle's lottery, shortened to `tickets` tickets if a number was kept with the seal.
pub fn drawn_by(
    alloc: Global,
    bundle: &Bundle,
    tickets: &Option<Tickets>,
    digits: &[u8],
) -> Result<Option<Draw>, AllocError>
    requires { TotalAgrees bundle.now.answer.lottery }
    ensures { IfOk result (λ drawn. IsDrawnBy bundle.now tickets.now digits.now drawn) }
{
    match tickets {
        None => drawn_from(alloc, bundle, digits),
        Some(tickets) => {
            let short = short_bundle(alloc, bundle, tickets.number())?;
            drawn_from(alloc, &short, digits)
        }
    }
}

/// Returns the ticket and the panel that digits draw from a bundle's lottery, or None exactly if they name no ticket.
fn drawn_from(alloc: Global, bundle: &Bundle, digits: &[u8]) -> Result<Option<Draw>, AllocError>
    requires { TotalAgrees bundle.now.answer.lottery }
    ensures { IfOk result (λ drawn. IsDrawnFrom bundle.now.answer.lottery (length bundle.now.pool.volunteers) digits.now drawn) }
{
    bundle.facts();
    // The kept seal and the given seal are both empty, so they agree, and the digits alone decide.
    match draw(alloc, bundle, "", "", digits) {
        Ok(drawn) => Ok(Some(drawn)),
        Err(DrawStop::OutOfMemory) => Err(AllocError),
        Err(_) => Ok(None),
    }
}

/// True if a volunteer of this id is in the panel.
pub fn is_member(pool: &Pool, panel: &Panel, id: &Name) -> bool
    requires { IsTrue (list_all (λ i. nat_lt i (length pool.now.volunteers)) panel.now) }
    ensures { result ≡ includes_list (member_ids pool.now panel.now) id.now }
{
    for i in panel.members() {
        if id.as_bytes() == pool.volunteers()[*i].id().as_bytes() {
            return true;
        }
    }
    false
}
