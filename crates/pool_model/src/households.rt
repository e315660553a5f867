//! Tests whether any volunteer has a household, and whether two volunteers share one. The versions of texts and the classes depend on it.

ghost use Rattle.std.specs.Prelude.{◌≡◌, is_some};
ghost use Rattle.std.specs.List.{list_any};
ghost use Rattle.define_pools.specs.Pool.{has_households as some_has, is_same_household as is_same, share_household as share};

use crate::parts::Volunteer;
use crate::pools::Pool;

/// True if some volunteer has a household.
pub fn has_households(pool: &Pool) -> bool
    ensures { result ≡ some_has pool.now }
{
    are_housed(pool.volunteers())
}

fn are_housed(volunteers: &[Volunteer]) -> bool
    ensures { result ≡ list_any (λ volunteer. is_some volunteer.household) volunteers.now }
{
    volunteers
        .iter()
        .any(|volunteer| volunteer.household().is_some())
}

/// True if volunteers `i` and `j` are of one household. If `i` is `j`, that is whether the volunteer has a household. False if `i` or `j`
/// is no volunteer's number.
pub fn share_household(volunteers: &[Volunteer], i: usize, j: usize) -> bool
    ensures { result ≡ share volunteers.now i j }
{
    match (volunteers.get(i), volunteers.get(j)) {
        (Some(one), Some(other)) => is_same_household(one, other),
        _ => false,
    }
}

fn is_same_household(one: &Volunteer, other: &Volunteer) -> bool
    ensures { result ≡ is_same one.now.household other.now.household }
{
    match (one.household(), other.household()) {
        (Some(name), Some(other)) => name.as_bytes() == other.as_bytes(),
        _ => false,
    }
}
