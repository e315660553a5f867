//! Counters for households: how many members are taken of each. A helper of `tally`.

ghost use Rattle.std.specs.Prelude.{◌≡◌, ◌≤◌, ◌<◌, ℕ, true, length};
ghost use Rattle.define_searches.specs.Classes.{IsKnownHousehold};
ghost use Rattle.define_searches.specs.Homes.{AreFew, HasMoreAt, CanGiveAt, has_room};

// Adds `count` to the counter of a household, if there is one.
pub(crate) fn add_at(homes: &mut [usize], household: Option<usize>, count: usize)
    requires known { IsKnownHousehold (length homes.old) household }
    requires small { AreFew homes.old }
    requires count { count ≤ 4000 }
    ensures { HasMoreAt household count homes.old homes.new }
{
    if let Some(number) = household {
        homes[number] += count;
    }
}

// Takes `count` from the counter of a household, if there is one.
pub(crate) fn take_at(homes: &mut [usize], household: Option<usize>, count: usize)
    requires known { IsKnownHousehold (length homes.old) household }
    requires enough { CanGiveAt household count homes.old }
    ensures { HasMoreAt household count homes.new homes.old }
{
    if let Some(number) = household {
        homes[number] -= count;
    }
}

// True if at most one member is taken of the household, or if there is no household.
pub(crate) fn has_one(homes: &[usize], household: Option<usize>) -> bool
    requires known { IsKnownHousehold (length homes.now) household }
    requires small { AreFew homes.now }
    ensures { result ≡ has_room homes.now household 0 }
{
    match household {
        None => true,
        Some(number) => homes[number] <= 1,
    }
}

// Returns `end`: of the counts below `until`, exactly those below `end` can be added to the members who are taken already so that at most
// one of the household is taken. Without a household, `end` is `until`.
pub(crate) fn room(homes: &[usize], household: Option<usize>, until: usize) -> usize
    requires { IsKnownHousehold (length homes.now) household }
    ensures inside { (count : ℕ) → count < result → (count < until) × (has_room homes.now household count ≡ true) }
    ensures until { result ≤ until }
    ensures outside { (count : ℕ) → count < until → has_room homes.now household count ≡ true → count < result }
{
    match household {
        None => until,
        Some(number) => until.min(2usize.saturating_sub(homes[number])),
    }
}
