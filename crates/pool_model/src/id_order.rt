//! The order of ids in which most pools list their volunteers: shorter ids first, and ids of one length by their bytes. In a pool in this
//! order an id that follows the last one is new. `pools` uses it.

ghost use Rattle.std.specs.Prelude.{◌≡◌};
ghost use Rattle.define_pools.specs.Building.{ids};
ghost use Rattle.pool_model.specs.IdOrder.{precedes as comes_before, follows_last as comes_last};

use crate::parts::Volunteer;

/// True if the last volunteer's id precedes `id`, or there is no volunteer.
pub(crate) fn follows_last(volunteers: &[Volunteer], id: &[u8]) -> bool
    ensures { result ≡ comes_last (ids volunteers.now) id.now }
{
    match volunteers.last() {
        Some(last) => precedes(last.id().as_bytes(), id),
        None => true,
    }
}

fn precedes(id: &[u8], other: &[u8]) -> bool
    ensures { result ≡ comes_before id.now other.now }
{
    id.len() < other.len() || (id.len() == other.len() && id < other)
}
