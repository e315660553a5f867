//! Counts the members that a front takes, and those that later classes can give, without memory. A helper of `live`. The searches keep a
//! `Tally` instead.

ghost use Rattle.std.specs.Prelude.{◌≡◌, ◌≤◌, if◌then◌else◌, drop, length};
ghost use Rattle.define_searches.specs.Compositions.{is_of_household, taken_of};
ghost use Rattle.define_searches.specs.Fronts.{most_given};
ghost use Rattle.define_searches.specs.Front.{AreWithin};
ghost use Rattle.panel_search.specs.Groups.{HasCategory, is_in_group};

use alike::{Class, Classes};

/// Whom a count is of.
#[derive(Clone, Copy)]
pub(crate) enum Group {
    /// All members.
    Everybody,
    /// Those with a value, by the number of its category and its place there.
    WithValue(usize, usize),
    /// Those of a household, by its number.
    OfHousehold(usize),
}

impl Group {
    // Returns how many of `count` members of the class are in the group: all or none.
    fn share(self, class: &Class, count: usize) -> usize
        requires { HasCategory (length class.now.values) self }
        ensures { result ≡ (if is_in_group self class.now then count else 0) }
    {
        if self.has(class) { count } else { 0 }
    }

    // True if the members of the class are in the group.
    fn has(self, class: &Class) -> bool
        requires { HasCategory (length class.now.values) self }
        ensures { result ≡ is_in_group self class.now }
    {
        match self {
            Group::Everybody => true,
            Group::WithValue(category, value) => class.values()[category] == value,
            Group::OfHousehold(household) => is_of(class, household),
        }
    }
}

// True if the class has this household's number.
fn is_of(class: &Class, household: usize) -> bool
    ensures { result ≡ is_of_household household class.now.household }
{
    match class.household() {
        None => false,
        Some(number) => number == household,
    }
}

// Returns how many members of a group a front takes.
pub(crate) fn taken(classes: &Classes, front: &[usize], group: Group) -> usize
    requires group { HasCategory (length classes.now.bounds) group }
    requires within { length front.now ≤ length classes.now.classes }
    requires counts { AreWithin classes.now front.now }
    ensures { result ≡ taken_of (is_in_group group) classes.now.classes front.now }
{
    classes.facts();
    let mut taken = 0;
    for place in 0..front.len() {
        taken += group.share(classes.class_at(place), front[place]);
    }
    taken
}

// Returns how many members of a group the classes from `place` on can give at most.
pub(crate) fn given(classes: &Classes, place: usize, group: Group) -> usize
    requires group { HasCategory (length classes.now.bounds) group }
    requires place { place ≤ length classes.now.classes }
    ensures { result ≡ most_given (is_in_group group) (drop place classes.now.classes) }
{
    classes.facts();
    let mut given = 0;
    for i in place..classes.classes().len() {
        let class = classes.class_at(i);
        given += group.share(class, class.most());
    }
    given
}
