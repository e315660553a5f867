//! The search for the first composition that attains the earlier caps and weighs more than the cap, front by front: classes in their order,
//! the greatest count first.

ghost use Rattle.std.specs.Prelude.{◌≡◌, ◌≤◌, ◌<◌, ◌+◌, [], ◌∷◌, ◌++◌, true, false, ◌&&◌, length, take, drop, int_le, int_lt, IfOk, OnOk, OnErr};
ghost use Rattle.std.specs.List.{list_all};
ghost use Rattle.define_searches.specs.Answers.{AnswersWithin};
ghost use Rattle.check_search.specs.Answers.{Answers};
ghost use Rattle.check_search.specs.Steps.{Begins, Finds, StandsAt, Steps, child_above, children_above, counts_at};
ghost use Rattle.define_searches.specs.Front.{CanTake};
ghost use Rattle.check_search.specs.Terms.{AreTerms};
ghost use Rattle.check_search.specs.Weights.{Weighs, WeighEach};
ghost use Rattle.define_checks.specs.Visits.{above_search, enter_above};
ghost use Rattle.define_searches.specs.Compositions.{counts_down};
ghost use Rattle.define_searches.specs.Fronts.{is_live_above, is_reachable, optimistic};

use crate::composing::Composition;
use crate::tally::Tally;
use crate::terms::Terms;
use crate::weighing::{Weights, all_weights, child_attains, front_attains};
use std::alloc::{AllocError, Global};
use thiserror::Error;

/// Why a search found no answer.
#[derive(Debug, Drop, Error)]
pub enum CapStop {
    /// The search takes more visits than the budget allows.
    #[error("the budget of visits is spent")]
    Spent,
    /// No memory was left.
    #[error("out of memory")]
    OutOfMemory,
}

// Searches for a composition that attains the closed rows and weighs more than the right side of the row. Returns the first one, in order
// of classes with the greater count first, or None if there is none. Fails if the search needs more than `nodes` visits: each front that is
// entered counts as one visit, also the empty front. All memory is taken before the first visit.
pub(crate) fn first_above(
    alloc: Global,
    terms: &Terms,
    nodes: u64,
) -> Result<Option<Composition>, CapStop>
    requires { AreTerms terms.now }
    ensures { Answers (above_search terms.now.classes terms.now.closed.items terms.now.row) nodes result }
{
    let search = Search::new(alloc, terms, nodes)?;
    Ok(search.run(terms)?)
}

impl From<AllocError> for CapStop {
    ghost use Rattle.std.specs.Prelude.{◌≡◌};
    ghost use Rattle.check_search.specs.declared.searching.CapStop.TheVariants.{OutOfMemory};

    ghost from_gives = { λ _ e. e ≡ OutOfMemory };

    fn from(_error: AllocError) -> CapStop {
        CapStop::OutOfMemory
    }
}

impl From<BudgetSpent> for CapStop {
    ghost use Rattle.std.specs.Prelude.{◌≡◌};
    ghost use Rattle.check_search.specs.declared.searching.CapStop.TheVariants.{Spent};

    ghost from_gives = { λ _ e. e ≡ Spent };

    fn from(_spent: BudgetSpent) -> CapStop {
        CapStop::Spent
    }
}

// Says that no visit is left.
#[derive(Debug, Clone, Copy)]
pub(crate) struct BudgetSpent;

// The state of a search: `counts`, which has a place for each class and begins with the front; what the front takes; what it weighs in the
// row and in each closed row; and how many visits are left.
#[derive(Debug, Drop)]
struct Search {
    counts: Vec<usize>,
    tally: Tally,
    weights: Weights,
    closed: Vec<Weights>,
    left: u64,
}

impl Search {
    // Returns the search at the empty front, before any visit.
    fn new(alloc: Global, terms: &Terms, nodes: u64) -> Result<Search, AllocError>
        requires { AreTerms terms.now }
        ensures left { IfOk result (λ search. search.left ≡ nodes) }
        ensures begins { IfOk result (λ search. Begins terms.now.classes terms.now.closed.items terms.now.row search) }
    {
        let classes = &terms.classes;
        Ok(Search {
            counts: vec![in alloc; 0; classes.classes().len()]?,
            tally: Tally::new(alloc, classes)?,
            weights: Weights::of_nothing(alloc, classes, &terms.row)?,
            closed: all_weights(alloc, classes, &terms.closed)?,
            left: nodes,
        })
    }

    // Makes the whole search. `new` took all memory that it needs, so only the budget can stop it.
    fn run(mut self, terms: &Terms) -> Result<Option<Composition>, BudgetSpent>
        requires terms { AreTerms terms.now }
        requires begins { Begins terms.now.classes terms.now.closed.items terms.now.row self }
        ensures { AnswersWithin (above_search terms.now.classes terms.now.closed.items terms.now.row) self.left result }
    {
        if self.from_the_empty_front(terms)? {
            Ok(Some(Composition::new(self.counts)))
        } else {
            Ok(None)
        }
    }

    // Enters the empty front if it is live, else only counts the visit. True if a composition is found, which is then in `counts`.
    fn from_the_empty_front(&mut self, terms: &Terms) -> Result<bool, BudgetSpent>
        requires terms { AreTerms terms.now }
        requires begins { Begins terms.now.classes terms.now.closed.items terms.now.row self.old }
        ensures { Finds (above_search terms.now.classes terms.now.closed.items terms.now.row) self.old.left result self.new }
    {
        if self.is_live(terms) {
            self.enter(terms, 0)
        } else {
            self.spend()?;
            Ok(false)
        }
    }

    // True if the empty front is live.
    fn is_live(&self, terms: &Terms) -> bool
        requires terms { AreTerms terms.now }
        requires begins { Begins terms.now.classes terms.now.closed.items terms.now.row self.now }
        ensures { result ≡ is_live_above terms.now.classes terms.now.closed.items terms.now.row terms.now.row.b [] }
    {
        let classes = &terms.classes;
        if !self.tally.begins_alive(classes) {
            return false;
        }
        let lack = classes.size();
        let weight = self
            .weights
            .optimistic(&terms.sums, classes, &terms.row, &[], lack);
        let attains = front_attains(
            &self.closed,
            &terms.closed_sums,
            classes,
            &terms.closed,
            &[],
            lack,
        );
        attains && terms.row.side() < weight
    }

    // Counts a visit, or fails if none is left.
    fn spend(&mut self) -> Result<(), BudgetSpent>
        ensures ok { OnOk result (self.old ≡ record self.new { left = self.new.left + 1 }) }
        ensures err { OnErr result (self.old.left ≡ 0) }
    {
        if self.left == 0 {
            return Err(BudgetSpent);
        }
        self.left -= 1;
        Ok(())
    }

    // True if the child's optimistic weight in each closed row is at least the right side of that row, and in the row more than its right
    // side. The row is tried first, since it rules out the most children.
    fn weights_allow(&mut self, terms: &Terms, depth: usize, count: usize) -> bool
        requires terms { AreTerms terms.now }
        requires below { depth < length terms.now.classes.classes }
        requires live { is_reachable terms.now.classes (take depth self.old.counts.items ++ count ∷ []) ≡ true }
        requires can_take { CanTake terms.now.classes depth count }
        requires stands { StandsAt terms.now.classes terms.now.closed.items terms.now.row depth (drop (depth + 1) terms.now.classes.classes) self.old }
        ensures value { result ≡ (list_all (λ r. int_le r.b (optimistic terms.now.classes r (take depth self.old.counts.items ++ count ∷ []))) terms.now.closed.items
            && int_lt terms.now.row.b (optimistic terms.now.classes terms.now.row (take depth self.old.counts.items ++ count ∷ []))) }
        ensures stands { StandsAt terms.now.classes terms.now.closed.items terms.now.row depth (drop (depth + 1) terms.now.classes.classes) self.new }
        ensures counts { self.new.counts ≡ self.old.counts }
        ensures left { self.new.left ≡ self.old.left }
        ensures weights { result ≡ true → Weighs terms.now.classes terms.now.row (take depth self.old.counts.items ++ count ∷ []) self.new.weights }
        ensures closed { result ≡ true → WeighEach terms.now.classes terms.now.closed.items (take depth self.old.counts.items ++ count ∷ []) self.new.closed.items }
    {
        let classes = &terms.classes;
        let front = &self.counts[..depth];
        let lack = self.tally.lack(classes, front, count);
        let reached = self
            .weights
            .child(&terms.sums, classes, &terms.row, front, count, lack);
        terms.row.side() < reached
            && child_attains(
                &mut self.closed,
                &terms.closed_sums,
                classes,
                &terms.closed,
                front,
                count,
                lack,
            )
    }

    #[cycle(search)]
    // Enters a live front of the first `depth` classes. True if a composition is found below it, which is then in `counts`.
    fn enter(&mut self, terms: &Terms, depth: usize) -> Result<bool, BudgetSpent>
        requires terms { AreTerms terms.now }
        requires stands { StandsAt terms.now.classes terms.now.closed.items terms.now.row depth (drop depth terms.now.classes.classes) self.old }
        ensures { Steps terms.now.classes terms.now.closed.items terms.now.row depth (drop depth terms.now.classes.classes)
            (enter_above terms.now.classes terms.now.closed.items terms.now.row (drop depth terms.now.classes.classes) (take depth self.old.counts.items)) self.old result self.new }
    {
        let classes = &terms.classes;
        self.spend()?;
        if depth == classes.classes().len() {
            return Ok(true);
        }
        classes.facts();
        self.tally.begin_class(classes, &self.counts[..depth]);
        if self.go_on(terms, depth)? {
            return Ok(true);
        }
        self.tally.end_class(classes, &self.counts[..depth]);
        Ok(false)
    }

    #[cycle(search)]
    // Tries the children of the front, except those that the size or a bound rules out.
    fn go_on(&mut self, terms: &Terms, depth: usize) -> Result<bool, BudgetSpent>
        requires terms { AreTerms terms.now }
        requires below { depth < length terms.now.classes.classes }
        requires stands { StandsAt terms.now.classes terms.now.closed.items terms.now.row depth (drop (depth + 1) terms.now.classes.classes) self.old }
        ensures { Steps terms.now.classes terms.now.closed.items terms.now.row depth (drop (depth + 1) terms.now.classes.classes)
            (children_above terms.now.classes terms.now.closed.items terms.now.row (drop (depth + 1) terms.now.classes.classes) (take depth self.old.counts.items) (counts_at terms.now.classes depth))
            self.old result self.new }
    {
        let classes = &terms.classes;
        classes.facts();
        let class = &classes.classes()[depth];
        let front = &self.counts[..depth];
        let most = self.tally.greatest_count(classes, front, class.most());
        let least = self.tally.least_count(classes, front, class.least());
        if most < least {
            return Ok(false);
        }
        self.children(terms, depth, least, most - least)
    }

    #[cycle(search)]
    // Tries the children with counts of the next class from `least + above` down to `least`.
    fn children(
        &mut self,
        terms: &Terms,
        depth: usize,
        least: usize,
        above: usize,
    ) -> Result<bool, BudgetSpent>
        requires terms { AreTerms terms.now }
        requires below { depth < length terms.now.classes.classes }
        requires can_take { CanTake terms.now.classes depth (least + above) }
        requires few { least + above ≤ 4000 }
        requires stands { StandsAt terms.now.classes terms.now.closed.items terms.now.row depth (drop (depth + 1) terms.now.classes.classes) self.old }
        ensures { Steps terms.now.classes terms.now.closed.items terms.now.row depth (drop (depth + 1) terms.now.classes.classes)
            (children_above terms.now.classes terms.now.closed.items terms.now.row (drop (depth + 1) terms.now.classes.classes) (take depth self.old.counts.items) (counts_down least above))
            self.old result self.new }
    {
        if self.try_child(terms, depth, least + above)? {
            return Ok(true);
        }
        if above == 0 {
            return Ok(false);
        }
        self.children(terms, depth, least, above - 1)
    }

    #[cycle(search)]
    // Enters the child with `count` of the next class, if it is live.
    fn try_child(&mut self, terms: &Terms, depth: usize, count: usize) -> Result<bool, BudgetSpent>
        requires terms { AreTerms terms.now }
        requires below { depth < length terms.now.classes.classes }
        requires can_take { CanTake terms.now.classes depth count }
        requires count { count ≤ 4000 }
        requires stands { StandsAt terms.now.classes terms.now.closed.items terms.now.row depth (drop (depth + 1) terms.now.classes.classes) self.old }
        ensures { Steps terms.now.classes terms.now.closed.items terms.now.row depth (drop (depth + 1) terms.now.classes.classes)
            (child_above terms.now.classes terms.now.closed.items terms.now.row (drop (depth + 1) terms.now.classes.classes) (take depth self.old.counts.items ++ count ∷ []))
            self.old result self.new }
    {
        let classes = &terms.classes;
        classes.facts();
        if !self.tally.allows(classes, &self.counts[..depth], count) {
            return Ok(false);
        }
        if !self.weights_allow(terms, depth, count) {
            return Ok(false);
        }
        self.tally.take(classes, &self.counts[..depth], count);
        self.counts[depth] = count;
        if self.enter(terms, depth + 1)? {
            return Ok(true);
        }
        self.tally.give_back(classes, &self.counts[..depth], count);
        Ok(false)
    }
}
