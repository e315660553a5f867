//! Whether a list of volunteers is a selection: has everyone who is seated and no one who is gone.

ghost use Rattle.std.specs.Bool.{OnTrue};
ghost use Rattle.std.specs.Prelude.{◌≡◌, length, nat_lt, IsTrue};
ghost use Rattle.std.specs.List.{list_all};
ghost use Rattle.define_pools.specs.Lists.{includes};
ghost use Rattle.define_pools.specs.Pool.{keeps_standings};
ghost use Rattle.define_quotas.specs.Quotas.{is_selection as is_selection_of};

use pool_model::{Panel, Pool, Volunteer};

/// True if an increasing list of numbers is a selection of the pool.
pub(crate) fn is_selection(pool: &Pool, panel: &Panel) -> bool
    ensures is { result ≡ is_selection_of pool.now panel.now }
    ensures below { OnTrue result (IsTrue (list_all (λ i. nat_lt i (length pool.now.volunteers)) panel.now)) }
{
    let members = panel.members();
    are_below(members, pool.volunteers().len()) && keep_standings(pool.volunteers(), members)
}

/// True if each member's number is below `count`.
pub fn are_below(members: &[usize], count: usize) -> bool
    ensures { result ≡ list_all (λ i. nat_lt i count) members.now }
{
    members.iter().all(|i| *i < count)
}

/// True if the members include everyone who is seated and no one who is gone.
pub fn keep_standings(volunteers: &[Volunteer], members: &[usize]) -> bool
    ensures { result ≡ keeps_standings volunteers.now members.now }
{
    volunteers.iter().enumerate().all(|(i, volunteer)| volunteer
        .standing()
        .permits(is_member(members, i)))
}

fn is_member(members: &[usize], i: usize) -> bool
    ensures { result ≡ includes members.now i }
{
    members.iter().any(|member| *member == i)
}
