//! What a front takes, in all, of each value and of each household, and the most that the classes after it can give.

ghost use Rattle.std.specs.Prelude.{◌≡◌, ℕ, false, ◌+◌, ◌-◌, ◌*◌, ◌≤◌, ◌<◌, ◌++◌, ◌^◌, [], ◌∷◌, IfOk, true, nat_le, ◌&&◌, drop, length, slice_index_or};
ghost use Rattle.define_searches.specs.Front.{Gives};
ghost use Rattle.check_search.specs.Front.{Tracks};
ghost use Rattle.define_searches.specs.Tallies.{AreAtMost, HasBound};
ghost use Rattle.define_searches.specs.declared.Bounds.{Bounds};
ghost use Rattle.define_searches.specs.Compositions.{takes_one_a_household};
ghost use Rattle.define_searches.specs.Fronts.{is_reachable, size_reachable, taken_by, value_reachable, values_reachable};

use crate::groups::Classes;
use crate::homes;
use crate::tallies::{
    PLACES, add_to, all_within_reach, is_within_reach, number_needed, room_left, take_from,
    values_allow,
};
use std::alloc::{AllocError, Global};

/// How many members a front takes, in all (`taken`), of each value (`held`) and of each household (`homes`); and the most that later classes
/// can give, in all (`later_taken`) and of each value (`later`).
#[derive(Debug, Drop)]
pub struct Tally {
    taken: usize,
    held: Vec<usize>,
    later_taken: usize,
    later: Vec<usize>,
    homes: Vec<usize>,
}

impl Tally {
    /// Returns the tally of the empty front, with all classes still to come.
    pub fn new(alloc: Global, classes: &Classes) -> Result<Tally, AllocError>
        ensures { IfOk result (λ tally. Tracks classes.now [] classes.now.classes tally) }
    {
        classes.facts();
        let cells = PLACES * classes.bounds().len();
        let held = vec![in alloc; 0; cells]?;
        let mut later = vec![in alloc; 0; cells]?;
        let later_taken = add_all(&mut later, classes);
        let homes = vec![in alloc; 0; classes.volunteers()]?;
        Ok(Tally {
            taken: 0,
            held,
            later_taken,
            later,
            homes,
        })
    }

    /// Subtracts the class after the front from what later classes can give.
    pub fn begin_class(&mut self, classes: &Classes, front: &[usize])
        requires below { length front.now < length classes.now.classes }
        requires stands { Tracks classes.now front.now (drop (length front.now) classes.now.classes) self.old }
        ensures { Tracks classes.now front.now (drop (length front.now + 1) classes.now.classes) self.new }
    {
        let class = classes.class_at(front.len());
        take_from(&mut self.later, class.values(), class.most());
        self.later_taken -= class.most();
    }

    /// Adds the class after the front to what later classes can give, which undoes `begin_class`.
    pub fn end_class(&mut self, classes: &Classes, front: &[usize])
        requires below { length front.now < length classes.now.classes }
        requires stands { Tracks classes.now front.now (drop (length front.now + 1) classes.now.classes) self.old }
        ensures { Tracks classes.now front.now (drop (length front.now) classes.now.classes) self.new }
    {
        let class = classes.class_at(front.len());
        add_to(&mut self.later, class.values(), class.most());
        self.later_taken += class.most();
    }

    /// Adds `count` members of the next class to what the front takes.
    pub fn take(&mut self, classes: &Classes, front: &[usize], count: usize)
        requires below { length front.now < length classes.now.classes }
        requires small { taken_by classes.now front.now ≤ 4000 }
        requires few { count ≤ 4000 }
        requires stands { Tracks classes.now front.now (drop (length front.now + 1) classes.now.classes) self.old }
        ensures { Tracks classes.now (front.now ++ count ∷ []) (drop (length front.now + 1) classes.now.classes) self.new }
    {
        let class = classes.class_at(front.len());
        add_to(&mut self.held, class.values(), count);
        homes::add_at(&mut self.homes, class.household(), count);
        self.taken += count;
    }

    /// Subtracts `count` members of the next class from what the front takes, which undoes `take`.
    pub fn give_back(&mut self, classes: &Classes, front: &[usize], count: usize)
        requires below { length front.now < length classes.now.classes }
        requires stands { Tracks classes.now (front.now ++ count ∷ []) (drop (length front.now + 1) classes.now.classes) self.old }
        ensures { Tracks classes.now front.now (drop (length front.now + 1) classes.now.classes) self.new }
    {
        let class = classes.class_at(front.len());
        take_from(&mut self.held, class.values(), count);
        homes::take_at(&mut self.homes, class.household(), count);
        self.taken -= count;
    }

    // True if the front is reachable with `count` of the next class.
    pub(crate) fn allows(&self, classes: &Classes, front: &[usize], count: usize) -> bool
        requires below { length front.now < length classes.now.classes }
        requires live { is_reachable classes.now front.now ≡ true }
        requires few { count ≤ 4000 }
        requires stands { Tracks classes.now front.now (drop (length front.now + 1) classes.now.classes) self.now }
        ensures { result ≡ is_reachable classes.now (front.now ++ count ∷ []) }
    {
        let class = classes.class_at(front.len());
        self.counts_allow(classes, front, count)
            && homes::has_room(&self.homes, class.household(), count)
    }

    // True if the size and each value's bounds can still be met with `count` of the next class.
    fn counts_allow(&self, classes: &Classes, front: &[usize], count: usize) -> bool
        requires below { length front.now < length classes.now.classes }
        requires live { is_reachable classes.now front.now ≡ true }
        requires few { count ≤ 4000 }
        requires stands { Tracks classes.now front.now (drop (length front.now + 1) classes.now.classes) self.now }
        ensures { result ≡ (size_reachable classes.now (front.now ++ count ∷ []) && values_reachable classes.now (front.now ++ count ∷ [])) }
    {
        let class = classes.class_at(front.len());
        self.size_allows(classes.size(), count)
            && values_allow(
                classes.bounds(),
                &self.held,
                &self.later,
                class.values(),
                count,
            )
    }

    // Returns the greatest count of the next class, at most `most`, that the size and the upper bounds allow. With more, up to `most`, the
    // front isn't reachable.
    pub(crate) fn greatest_count(&self, classes: &Classes, front: &[usize], most: usize) -> usize
        requires below { length front.now < length classes.now.classes }
        requires stands { Tracks classes.now front.now (drop (length front.now + 1) classes.now.classes) self.now }
        ensures within { result ≤ most }
        ensures passed { (count : ℕ) → result < count → count ≤ most → is_reachable classes.now (front.now ++ count ∷ []) ≡ false }
    {
        let class = classes.class_at(front.len());
        let lack = classes.size().saturating_sub(self.taken);
        room_left(classes.bounds(), &self.held, class.values(), most.min(lack))
    }

    // Returns the least count of the next class, at least `least`, that the size and the lower bounds need. With fewer, down to `least`,
    // the front isn't reachable.
    pub(crate) fn least_count(&self, classes: &Classes, front: &[usize], least: usize) -> usize
        requires below { length front.now < length classes.now.classes }
        requires live { is_reachable classes.now front.now ≡ true }
        requires stands { Tracks classes.now front.now (drop (length front.now + 1) classes.now.classes) self.now }
        ensures within { least ≤ result }
        ensures lacking { (count : ℕ) → count < result → least ≤ count → is_reachable classes.now (front.now ++ count ∷ []) ≡ false }
    {
        let class = classes.class_at(front.len());
        let lack = classes.size().saturating_sub(self.taken + self.later_taken);
        number_needed(
            classes.bounds(),
            &self.held,
            &self.later,
            class.values(),
            least.max(lack),
        )
    }

    // True if the empty front is reachable.
    pub(crate) fn begins_alive(&self, classes: &Classes) -> bool
        requires { Tracks classes.now [] classes.now.classes self.now }
        ensures { result ≡ is_reachable classes.now [] }
    {
        classes.facts();
        self.size_allows(classes.size(), 0)
            && all_within_reach(classes.bounds(), &self.held, &self.later)
    }

    // Returns how many members the child with `count` of the next class lacks of the size.
    pub(crate) fn lack(&self, classes: &Classes, front: &[usize], count: usize) -> usize
        requires below { length front.now < length classes.now.classes }
        requires live { is_reachable classes.now (front.now ++ count ∷ []) ≡ true }
        requires stands { Tracks classes.now front.now (drop (length front.now + 1) classes.now.classes) self.now }
        ensures { result ≡ classes.now.size - taken_by classes.now (front.now ++ count ∷ []) }
    {
        classes.facts();
        classes.size() - (self.taken + count)
    }

    /// True if the front takes at most the size, and the later classes can give the rest.
    pub fn reaches_size(&self, classes: &Classes, front: &[usize]) -> bool
        requires few { taken_by classes.now front.now ≤ 4000 }
        requires stands { Tracks classes.now front.now (drop (length front.now) classes.now.classes) self.now }
        ensures { result ≡ size_reachable classes.now front.now }
    {
        classes.facts();
        self.size_allows(classes.size(), 0)
    }

    /// True if the front's count of a value is at most the upper bound, and can reach the lower bound.
    pub fn reaches_value(
        &self,
        classes: &Classes,
        front: &[usize],
        category: usize,
        value: usize,
    ) -> bool
        requires few { taken_by classes.now front.now ≤ 4000 }
        requires category { category < length classes.now.bounds }
        requires value { value < length (slice_index_or classes.now.bounds category []) }
        requires stands { Tracks classes.now front.now (drop (length front.now) classes.now.classes) self.now }
        ensures { (bound : Bounds) → HasBound classes.now.bounds category value bound → result ≡ value_reachable classes.now front.now category (value, bound) }
    {
        classes.facts();
        let place = PLACES * category + value;
        let bound = classes.bounds()[category].as_slice()[value];
        is_within_reach(bound, self.held[place], self.later[place])
    }

    /// True if the front takes at most one member of each household.
    pub fn takes_one_a_household(&self, classes: &Classes, front: &[usize]) -> bool
        requires few { taken_by classes.now front.now ≤ 4000 }
        requires stands { Tracks classes.now front.now (drop (length front.now) classes.now.classes) self.now }
        ensures { result ≡ takes_one_a_household classes.now.classes front.now }
    {
        for place in 0..classes.classes().len() {
            let class = classes.class_at(place);
            if !homes::has_room(&self.homes, class.household(), 0) {
                return false;
            }
        }
        true
    }

    /// Returns how many members the front lacks of the size, or 0 if it takes more.
    pub fn front_lack(&self, classes: &Classes, front: &[usize]) -> usize
        requires { Tracks classes.now front.now (drop (length front.now) classes.now.classes) self.now }
        ensures { result ≡ classes.now.size - taken_by classes.now front.now }
    {
        classes.size().saturating_sub(self.taken)
    }

    // True if, with `count` more, at most the size is taken and later classes can give the rest.
    fn size_allows(&self, size: usize, count: usize) -> bool
        requires { self.now.taken + count + self.now.later_taken < 2 ^ 64 }
        ensures { result ≡ (nat_le (self.now.taken + count) size && nat_le size (self.now.taken + count + self.now.later_taken)) }
    {
        let taken = self.taken + count;
        taken <= size && size <= taken + self.later_taken
    }
}

// Adds what each class can give of each value to the cells, which are 0. Returns how many members all classes can give.
fn add_all(later: &mut [usize], classes: &Classes) -> usize
    requires room { length later.old ≡ 50 * length classes.now.bounds }
    requires zero { AreAtMost 0 (length classes.now.bounds) later.old }
    ensures { Gives classes.now classes.now.classes result later.new }
{
    classes.facts();
    let mut later_taken = 0;
    for class in classes.classes() {
        add_to(later, class.values(), class.most());
        later_taken += class.most();
    }
    later_taken
}
