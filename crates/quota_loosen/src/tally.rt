//! The tally of a front: how many members it takes, in all, of each value and of each household, and the most that the classes after it
//! give. The search of `searching` keeps one.

ghost use Rattle.std.specs.Prelude.{◌≡◌, ◌+◌, ◌*◌, ◌≤◌, ◌<◌, ◌++◌, ◌^◌, [], ◌∷◌, IfOk, nat_le, ◌&&◌, drop, length};
ghost use Rattle.define_quotas.specs.Costs.{sure_cost, widened};
ghost use Rattle.define_searches.specs.Compositions.{takes_one_a_household};
ghost use Rattle.define_searches.specs.Fronts.{size_reachable, taken_by, values_reachable};
ghost use Rattle.define_searches.specs.Front.{Gives};
ghost use Rattle.define_searches.specs.Tallies.{AreAtMost};
ghost use Rattle.quota_loosen.specs.Front.{Tracks};

use crate::homes;
use crate::tallies::{PLACES, add_to, hold_few, missed_by_all, take_from};
use alike::Classes;
use pool_model::MAX_BOUND;
use std::alloc::{AllocError, Global};

// How many members a front takes and the most that later classes can give, in all and of each value; and how many members the front takes
// of each household.
#[derive(Debug, Drop)]
pub(crate) struct Tally {
    taken: usize,
    held: Vec<usize>,
    later_taken: usize,
    later: Vec<usize>,
    homes: Vec<usize>,
}

impl Tally {
    // Returns the tally of the empty front, with all classes still to come.
    pub(crate) fn new(alloc: Global, classes: &Classes) -> Result<Tally, AllocError>
        ensures { IfOk result (λ tally. Tracks classes.now [] classes.now.classes tally) }
    {
        classes.facts();
        let cells = PLACES * classes.bounds().len();
        let held = vec![in alloc; 0; cells]?;
        let mut later = vec![in alloc; 0; cells]?;
        let later_taken = add_all(&mut later, classes);
        let homes = vec![in alloc; 0; classes.volunteers()]?;
        Ok(Tally {
            taken: 0,
            held,
            later_taken,
            later,
            homes,
        })
    }

    // Takes the class after the front out of the classes that are still to come.
    pub(crate) fn begin_class(&mut self, classes: &Classes, front: &[usize])
        requires below { length front.now < length classes.now.classes }
        requires stands { Tracks classes.now front.now (drop (length front.now) classes.now.classes) self.old }
        ensures { Tracks classes.now front.now (drop (length front.now + 1) classes.now.classes) self.new }
    {
        let class = classes.class_at(front.len());
        take_from(&mut self.later, class.values(), class.most());
        self.later_taken -= class.most();
    }

    // Undoes `begin_class`: the class after the front is again one of those that are still to come.
    pub(crate) fn end_class(&mut self, classes: &Classes, front: &[usize])
        requires below { length front.now < length classes.now.classes }
        requires stands { Tracks classes.now front.now (drop (length front.now + 1) classes.now.classes) self.old }
        ensures { Tracks classes.now front.now (drop (length front.now) classes.now.classes) self.new }
    {
        let class = classes.class_at(front.len());
        add_to(&mut self.later, class.values(), class.most());
        self.later_taken += class.most();
    }

    // Lets the front take `count` of the next class.
    pub(crate) fn take(&mut self, classes: &Classes, front: &[usize], count: usize)
        requires below { length front.now < length classes.now.classes }
        requires small { taken_by classes.now front.now ≤ 1000 }
        requires few { count ≤ 4000 }
        requires stands { Tracks classes.now front.now (drop (length front.now + 1) classes.now.classes) self.old }
        ensures { Tracks classes.now (front.now ++ count ∷ []) (drop (length front.now + 1) classes.now.classes) self.new }
    {
        let class = classes.class_at(front.len());
        add_to(&mut self.held, class.values(), count);
        homes::add_at(&mut self.homes, class.household(), count);
        self.taken += count;
    }

    // Lets the front give `count` of the next class back.
    pub(crate) fn give_back(&mut self, classes: &Classes, front: &[usize], count: usize)
        requires below { length front.now < length classes.now.classes }
        requires stands { Tracks classes.now (front.now ++ count ∷ []) (drop (length front.now + 1) classes.now.classes) self.old }
        ensures { Tracks classes.now front.now (drop (length front.now + 1) classes.now.classes) self.new }
    {
        let class = classes.class_at(front.len());
        take_from(&mut self.held, class.values(), count);
        homes::take_at(&mut self.homes, class.household(), count);
        self.taken -= count;
    }

    // True if the panel's size can still be reached, and isn't exceeded.
    pub(crate) fn size_in_reach(&self, classes: &Classes, front: &[usize]) -> bool
        requires small { taken_by classes.now front.now ≤ 5000 }
        requires stands { Tracks classes.now front.now (drop (length front.now) classes.now.classes) self.now }
        ensures { result ≡ size_reachable classes.now front.now }
    {
        classes.facts();
        self.size_allows(classes.size())
    }

    // True if at most 999 are taken of each value.
    pub(crate) fn values_alive(&self, classes: &Classes, front: &[usize]) -> bool
        requires stands { Tracks classes.now front.now (drop (length front.now) classes.now.classes) self.now }
        ensures { result ≡ values_reachable (widened classes.now) front.now }
    {
        classes.facts();
        self.taken <= MAX_BOUND || hold_few(classes.bounds(), &self.held)
    }

    // True if at most one is taken of each household.
    pub(crate) fn homes_alive(&self, classes: &Classes, front: &[usize]) -> bool
        requires small { taken_by classes.now front.now ≤ 5000 }
        requires stands { Tracks classes.now front.now (drop (length front.now) classes.now.classes) self.now }
        ensures { result ≡ takes_one_a_household classes.now.classes front.now }
    {
        classes.facts();
        for class in classes.classes() {
            if !homes::has_one(&self.homes, class.household()) {
                return false;
            }
        }
        true
    }

    // Returns the front's sure cost: all counts that begin with the front cost at least this.
    pub(crate) fn sure_cost(&self, classes: &Classes, front: &[usize]) -> usize
        requires small { taken_by classes.now front.now ≤ 5000 }
        requires stands { Tracks classes.now front.now (drop (length front.now) classes.now.classes) self.now }
        ensures { result ≡ sure_cost classes.now front.now }
    {
        classes.facts();
        missed_by_all(classes.bounds(), &self.held, &self.later)
    }

    // True if at most `size` members are taken, and later classes can give the rest.
    fn size_allows(&self, size: usize) -> bool
        requires { self.now.taken + self.now.later_taken < 2 ^ 64 }
        ensures { result ≡ (nat_le self.now.taken size && nat_le size (self.now.taken + self.now.later_taken)) }
    {
        self.taken <= size && size <= self.taken + self.later_taken
    }
}

// Adds to `later`, which is all 0, the most that each class can give of each value. Returns the most that all classes together can give.
fn add_all(later: &mut [usize], classes: &Classes) -> usize
    requires room { length later.old ≡ 50 * length classes.now.bounds }
    requires zero { AreAtMost 0 (length classes.now.bounds) later.old }
    ensures { Gives classes.now classes.now.classes result later.new }
{
    classes.facts();
    let mut later_taken = 0;
    for class in classes.classes() {
        add_to(later, class.values(), class.most());
        later_taken += class.most();
    }
    later_taken
}
