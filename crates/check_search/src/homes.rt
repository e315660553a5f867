//! Counters for households: how many members are taken of each. A helper of `tally`.

ghost use Rattle.std.specs.Prelude.{◌≡◌, ◌≤◌, length};
ghost use Rattle.define_searches.specs.Classes.{IsKnownHousehold};
ghost use Rattle.define_searches.specs.Homes.{AreFew, HasMoreAt, CanGiveAt, has_room};

// Adds `count` to the counter of a household, if there is one.
pub(crate) fn add_at(homes: &mut [usize], household: Option<usize>, count: usize)
    requires known { IsKnownHousehold (length homes.old) household }
    requires small { AreFew homes.old }
    requires count { count ≤ 4000 }
    ensures { HasMoreAt household count homes.old homes.new }
{
    if let Some(number) = household {
        homes[number] += count;
    }
}

// Subtracts `count` from the counter of a household, if there is one.
pub(crate) fn take_at(homes: &mut [usize], household: Option<usize>, count: usize)
    requires known { IsKnownHousehold (length homes.old) household }
    requires enough { CanGiveAt household count homes.old }
    ensures { HasMoreAt household count homes.new homes.old }
{
    if let Some(number) = household {
        homes[number] -= count;
    }
}

// True if at most one member of the household is taken after `count` more are taken, or if there is no household.
pub(crate) fn has_room(homes: &[usize], household: Option<usize>, count: usize) -> bool
    requires known { IsKnownHousehold (length homes.now) household }
    requires small { AreFew homes.now }
    requires count { count ≤ 4000 }
    ensures { result ≡ has_room homes.now household count }
{
    match household {
        None => true,
        Some(number) => homes[number] + count <= 1,
    }
}
