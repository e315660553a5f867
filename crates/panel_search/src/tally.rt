//! The tally of a front: how many members it takes, in all, of each value and of each household, and the most that the classes after it
//! give. The searches of `searching` and `pricing` keep one.

ghost use Rattle.std.specs.Prelude.{◌≡◌, ℕ, ◌+◌, ◌-◌, ◌*◌, ◌≤◌, ◌<◌, ◌++◌, ◌^◌, [], ◌∷◌, IfOk, true, nat_le, ◌&&◌, drop, length};
ghost use Rattle.define_searches.specs.Front.{Gives, AreWithin};
ghost use Rattle.panel_search.specs.Front.{Tracks};
ghost use Rattle.define_searches.specs.Tallies.{AreAtMost};
ghost use Rattle.define_searches.specs.Compositions.{takes_one_a_household};
ghost use Rattle.define_searches.specs.Fronts.{is_reachable, size_reachable, taken_by, values_reachable};

use crate::homes;
use crate::tallies::{PLACES, add_to, all_within_reach, take_from, values_range};
use alike::Classes;
use std::alloc::{AllocError, Global};

/// How many members a front takes and the most that later classes can give, in all and of each value; and how many members the front takes
/// of each household.
#[derive(Drop)]
pub(crate) struct Tally {
    taken: usize,
    held: Vec<usize>,
    later_taken: usize,
    later: Vec<usize>,
    homes: Vec<usize>,
}

impl Tally {
    // Returns the tally of the empty front, with all classes still to come.
    pub(crate) fn new(alloc: Global, classes: &Classes) -> Result<Tally, AllocError>
        ensures { IfOk result (λ tally. Tracks classes.now [] classes.now.classes tally) }
    {
        classes.facts();
        let cells = PLACES * classes.bounds().len();
        let held = vec![in alloc; 0; cells]?;
        let mut later = vec![in alloc; 0; cells]?;
        let later_taken = add_all(&mut later, classes);
        let homes = vec![in alloc; 0; classes.volunteers()]?;
        Ok(Tally {
            taken: 0,
            held,
            later_taken,
            later,
            homes,
        })
    }

    // Returns the tally of a front, with the classes after it still to come.
    pub(crate) fn at_front(
        alloc: Global,
        classes: &Classes,
        front: &[usize],
    ) -> Result<Tally, AllocError>
        requires within { length front.now ≤ length classes.now.classes }
        requires counts { AreWithin classes.now front.now }
        ensures { IfOk result (λ tally. Tracks classes.now front.now (drop (length front.now) classes.now.classes) tally) }
    {
        classes.facts();
        let mut tally = Tally::new(alloc, classes)?;
        for depth in 0..front.len() {
            let before = &front[..depth];
            tally.begin_class(classes, before);
            tally.take(classes, before, front[depth]);
        }
        Ok(tally)
    }

    // Takes the class after the front out of the classes that are still to come.
    pub(crate) fn begin_class(&mut self, classes: &Classes, front: &[usize])
        requires below { length front.now < length classes.now.classes }
        requires stands { Tracks classes.now front.now (drop (length front.now) classes.now.classes) self.old }
        ensures { Tracks classes.now front.now (drop (length front.now + 1) classes.now.classes) self.new }
    {
        let class = classes.class_at(front.len());
        take_from(&mut self.later, class.values(), class.most());
        self.later_taken -= class.most();
    }

    // Undoes `begin_class`: the class after the front is again one of those that are still to come.
    pub(crate) fn end_class(&mut self, classes: &Classes, front: &[usize])
        requires below { length front.now < length classes.now.classes }
        requires stands { Tracks classes.now front.now (drop (length front.now + 1) classes.now.classes) self.old }
        ensures { Tracks classes.now front.now (drop (length front.now) classes.now.classes) self.new }
    {
        let class = classes.class_at(front.len());
        add_to(&mut self.later, class.values(), class.most());
        self.later_taken += class.most();
    }

    // Lets the front take `count` of the next class.
    pub(crate) fn take(&mut self, classes: &Classes, front: &[usize], count: usize)
        requires below { length front.now < length classes.now.classes }
        requires small { taken_by classes.now front.now ≤ 4000 }
        requires few { count ≤ 4000 }
        requires stands { Tracks classes.now front.now (drop (length front.now + 1) classes.now.classes) self.old }
        ensures { Tracks classes.now (front.now ++ count ∷ []) (drop (length front.now + 1) classes.now.classes) self.new }
    {
        let class = classes.class_at(front.len());
        add_to(&mut self.held, class.values(), count);
        homes::add_at(&mut self.homes, class.household(), count);
        self.taken += count;
    }

    // Undoes `take`: subtracts `count` members of the next class from what the front takes.
    pub(crate) fn give_back(&mut self, classes: &Classes, front: &[usize], count: usize)
        requires below { length front.now < length classes.now.classes }
        requires stands { Tracks classes.now (front.now ++ count ∷ []) (drop (length front.now + 1) classes.now.classes) self.old }
        ensures { Tracks classes.now front.now (drop (length front.now + 1) classes.now.classes) self.new }
    {
        let class = classes.class_at(front.len());
        take_from(&mut self.held, class.values(), count);
        homes::take_at(&mut self.homes, class.household(), count);
        self.taken -= count;
    }

    // Returns `(low, end)`: of the counts of the next class in `from..until`, exactly those in `low..end` make reachable children of the
    // front.
    pub(crate) fn range(
        &self,
        classes: &Classes,
        front: &[usize],
        from: usize,
        until: usize,
    ) -> (usize, usize)
        requires below { length front.now < length classes.now.classes }
        requires live { is_reachable classes.now front.now ≡ true }
        requires stands { Tracks classes.now front.now (drop (length front.now + 1) classes.now.classes) self.now }
        ensures inside { (count : ℕ) → result.0 ≤ count → count < result.1 → (from ≤ count) × (count < until) × (is_reachable classes.now (front.now ++ count ∷ []) ≡ true) }
        ensures until { result.1 ≤ until }
        ensures outside { (count : ℕ) → from ≤ count → count < until → is_reachable classes.now (front.now ++ count ∷ []) ≡ true → (result.0 ≤ count) × (count < result.1) }
    {
        let class = classes.class_at(front.len());
        let size = classes.size();
        let low = from.max(size.saturating_sub(self.taken + self.later_taken));
        let end = until.min((size + 1).saturating_sub(self.taken));
        values_range(
            classes.bounds(),
            &self.held,
            &self.later,
            class.values(),
            low,
            homes::room(&self.homes, class.household(), end),
        )
    }

    // True if the front is reachable.
    pub(crate) fn is_alive(&self, classes: &Classes, front: &[usize]) -> bool
        requires small { taken_by classes.now front.now ≤ 4000 }
        requires stands { Tracks classes.now front.now (drop (length front.now) classes.now.classes) self.now }
        ensures { result ≡ is_reachable classes.now front.now }
    {
        self.counts_alive(classes, front) && self.homes_alive(classes, front)
    }

    // True if the size and each value's bounds can still be met.
    fn counts_alive(&self, classes: &Classes, front: &[usize]) -> bool
        requires small { taken_by classes.now front.now ≤ 4000 }
        requires stands { Tracks classes.now front.now (drop (length front.now) classes.now.classes) self.now }
        ensures { result ≡ (size_reachable classes.now front.now && values_reachable classes.now front.now) }
    {
        classes.facts();
        self.size_allows(classes.size())
            && all_within_reach(classes.bounds(), &self.held, &self.later)
    }

    // True if at most one is taken of each household.
    fn homes_alive(&self, classes: &Classes, front: &[usize]) -> bool
        requires small { taken_by classes.now front.now ≤ 4000 }
        requires stands { Tracks classes.now front.now (drop (length front.now) classes.now.classes) self.now }
        ensures { result ≡ takes_one_a_household classes.now.classes front.now }
    {
        classes.facts();
        for class in classes.classes() {
            if !homes::has_one(&self.homes, class.household()) {
                return false;
            }
        }
        true
    }

    // Returns how many members the front still lacks to reach the size.
    pub(crate) fn lack_here(&self, classes: &Classes, front: &[usize]) -> usize
        requires live { is_reachable classes.now front.now ≡ true }
        requires stands { Tracks classes.now front.now (drop (length front.now) classes.now.classes) self.now }
        ensures { result ≡ classes.now.size - taken_by classes.now front.now }
    {
        classes.facts();
        classes.size() - self.taken
    }

    // Returns how many members the front with `count` of the next class still lacks to reach the size.
    pub(crate) fn lack(&self, classes: &Classes, front: &[usize], count: usize) -> usize
        requires below { length front.now < length classes.now.classes }
        requires live { is_reachable classes.now (front.now ++ count ∷ []) ≡ true }
        requires stands { Tracks classes.now front.now (drop (length front.now + 1) classes.now.classes) self.now }
        ensures { result ≡ classes.now.size - taken_by classes.now (front.now ++ count ∷ []) }
    {
        classes.facts();
        classes.size() - (self.taken + count)
    }

    // True if at most `size` members are taken, and later classes can give the rest.
    fn size_allows(&self, size: usize) -> bool
        requires { self.now.taken + self.now.later_taken < 2 ^ 64 }
        ensures { result ≡ (nat_le self.now.taken size && nat_le size (self.now.taken + self.now.later_taken)) }
    {
        self.taken <= size && size <= self.taken + self.later_taken
    }
}

// Adds to `later`, which is all 0, the most that each class can give of each value. Returns the most that all classes together can give.
fn add_all(later: &mut [usize], classes: &Classes) -> usize
    requires room { length later.old ≡ 50 * length classes.now.bounds }
    requires zero { AreAtMost 0 (length classes.now.bounds) later.old }
    ensures { Gives classes.now classes.now.classes result later.new }
{
    classes.facts();
    let mut later_taken = 0;
    for class in classes.classes() {
        add_to(later, class.values(), class.most());
        later_taken += class.most();
    }
    later_taken
}
