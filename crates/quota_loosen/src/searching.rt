//! The search for the cheapest team, front by front: classes in their order, the greatest count first.

ghost use Rattle.std.specs.Prelude.{◌≡◌, ◌≤◌, ◌<◌, ◌+◌, [], ◌∷◌, ◌++◌, length, take, drop, IfOk, OnOk, OnErr, None, Some};
ghost use Rattle.define_quotas.specs.CostSearch.{cheapest_search, enter_cheapest, is_live_below, may_cost_less};
ghost use Rattle.define_searches.specs.Compositions.{counts_down};
ghost use Rattle.define_searches.specs.Fronts.{taken_by};
ghost use Rattle.quota_loosen.specs.Steps.{Answers, AnswersWithin, EndsWithin, IsKept, IsLeastCost, Moves, StandsAt, child_cheapest, children_cheapest, search_of};

use crate::tally::Tally;
use alike::{Classes, Composition};
use std::alloc::{AllocError, Global};
use thiserror::Error;

/// Why no least loosening was found.
#[derive(Debug, Drop, Error)]
pub enum LoosenStop {
    /// The search takes more visits than the budget allows.
    #[error("the budget of visits is spent")]
    Spent,
    /// No memory was left.
    #[error("out of memory")]
    OutOfMemory,
}

// Returns the counts of the cheapest team, and what they cost, or None if there is no team. Of equally cheap counts it returns the first:
// those with the greater count in the first class in which they differ. Fails with `Spent` if the search takes more than `nodes` visits.
// Each front that is entered counts one visit, also the empty front.
pub(crate) fn cheapest(
    alloc: Global,
    classes: &Classes,
    nodes: u64,
) -> Result<Option<(Composition, usize)>, LoosenStop>
    ensures { Answers classes.now (cheapest_search classes.now) nodes result }
{
    let search = Search::new(alloc, classes, nodes)?;
    Ok(search.run(classes)?)
}

impl From<AllocError> for LoosenStop {
    ghost use Rattle.std.specs.Prelude.{◌≡◌};
    ghost use Rattle.quota_loosen.specs.declared.searching.LoosenStop.TheVariants.{OutOfMemory};

    ghost from_gives = { λ _ e. e ≡ OutOfMemory };

    fn from(_error: AllocError) -> LoosenStop {
        LoosenStop::OutOfMemory
    }
}

impl From<BudgetSpent> for LoosenStop {
    ghost use Rattle.std.specs.Prelude.{◌≡◌};
    ghost use Rattle.quota_loosen.specs.declared.searching.LoosenStop.TheVariants.{Spent};

    ghost from_gives = { λ _ e. e ≡ Spent };

    fn from(_spent: BudgetSpent) -> LoosenStop {
        LoosenStop::Spent
    }
}

// The error of a search that needs more visits than its budget allows.
#[derive(Debug, Clone, Copy)]
pub(crate) struct BudgetSpent;

// Where a search is: the counts of the front's classes, with a place for each class; what the front takes; the counts that were kept last,
// and what they cost, if some were kept; the visits, and the budget of visits.
#[derive(Debug, Drop)]
struct Search {
    counts: Vec<usize>,
    tally: Tally,
    kept: Vec<usize>,
    least: Option<usize>,
    visits: u64,
    nodes: u64,
}

impl Search {
    fn new(alloc: Global, classes: &Classes, nodes: u64) -> Result<Search, AllocError>
        ensures nodes { IfOk result (λ search. search.nodes ≡ nodes) }
        ensures begun { IfOk result (λ search. search_of search ≡ record { visits = 0; kept = None }) }
        ensures stands { IfOk result (λ search. StandsAt classes.now 0 classes.now.classes search) }
    {
        Ok(Search {
            counts: vec![in alloc; 0; classes.classes().len()]?,
            tally: Tally::new(alloc, classes)?,
            kept: vec![in alloc; 0; classes.classes().len()]?,
            least: None,
            visits: 0,
            nodes,
        })
    }

    // Runs the whole search. It has its memory already, so it ends with what it kept, or with its budget spent.
    fn run(mut self, classes: &Classes) -> Result<Option<(Composition, usize)>, BudgetSpent>
        requires begun { search_of self ≡ record { visits = 0; kept = None } }
        requires stands { StandsAt classes.now 0 classes.now.classes self }
        ensures { AnswersWithin classes.now (cheapest_search classes.now) self.nodes result }
    {
        self.from_the_empty_front(classes)?;
        Ok(self.answer(classes))
    }

    // Returns what was kept, and what it costs.
    fn answer(self, classes: &Classes) -> Option<(Composition, usize)>
        requires { IsLeastCost classes.now self.least self.kept.items }
        ensures { IsKept classes.now (search_of self).kept result }
    {
        let _ = classes;
        match self.least {
            Some(least) => Some((Composition::new(self.kept), least)),
            None => None,
        }
    }

    // Enters the empty front if it is live, else only counts the visit.
    fn from_the_empty_front(&mut self, classes: &Classes) -> Result<(), BudgetSpent>
        requires begun { search_of self.old ≡ record { visits = 0; kept = None } }
        requires stands { StandsAt classes.now 0 classes.now.classes self.old }
        ensures { EndsWithin classes.now (cheapest_search classes.now) self.old.nodes result self.new }
    {
        if self.is_live(classes, 0) {
            self.enter(classes, 0)
        } else {
            self.spend()
        }
    }

    // True if the front of the first `depth` classes may lead to a team that costs less than the one that was kept.
    fn is_live(&self, classes: &Classes, depth: usize) -> bool
        requires small { taken_by classes.now (take depth self.now.counts.items) ≤ 5000 }
        requires stands { StandsAt classes.now depth (drop depth classes.now.classes) self.now }
        ensures { result ≡ is_live_below classes.now (search_of self.now).kept (take depth self.now.counts.items) }
    {
        let front = &self.counts[..depth];
        self.tally.size_in_reach(classes, front)
            && self.may_cost_less(classes, depth)
            && self.tally.values_alive(classes, front)
            && self.tally.homes_alive(classes, front)
    }

    // True if nothing is kept yet, or the sure cost of the front of the first `depth` classes is less than what the kept counts cost.
    fn may_cost_less(&self, classes: &Classes, depth: usize) -> bool
        requires small { taken_by classes.now (take depth self.now.counts.items) ≤ 5000 }
        requires stands { StandsAt classes.now depth (drop depth classes.now.classes) self.now }
        ensures { result ≡ may_cost_less classes.now (search_of self.now).kept (take depth self.now.counts.items) }
    {
        match self.least {
            Some(least) => self.tally.sure_cost(classes, &self.counts[..depth]) < least,
            None => true,
        }
    }

    // Counts a visit, if the budget allows one more.
    fn spend(&mut self) -> Result<(), BudgetSpent>
        requires { self.old.visits ≤ self.old.nodes }
        ensures ok { OnOk result (self.old.visits < self.old.nodes) }
        ensures err { OnErr result (self.old.visits ≡ self.old.nodes) }
        ensures visits { OnOk result (self.new ≡ record self.old { visits = self.old.visits + 1 }) }
    {
        if self.visits == self.nodes {
            return Err(BudgetSpent);
        }
        self.visits += 1;
        Ok(())
    }

    // Keeps the front of the first `depth` classes, which are all classes.
    fn keep(&mut self, classes: &Classes, depth: usize)
        requires whole { depth ≡ length classes.now.classes }
        requires small { taken_by classes.now (take depth self.old.counts.items) ≤ 1000 }
        requires stands { StandsAt classes.now depth (drop depth classes.now.classes) self.old }
        ensures kept { search_of self.new ≡ record { visits = self.old.visits; kept = Some (take depth self.old.counts.items) } }
        ensures counts { self.new.counts ≡ self.old.counts }
        ensures nodes { self.new.nodes ≡ self.old.nodes }
        ensures stands { StandsAt classes.now depth (drop depth classes.now.classes) self.new }
    {
        let least = self.tally.sure_cost(classes, &self.counts[..depth]);
        self.store(least);
    }

    // Keeps a copy of the counts, which cost `least`.
    fn store(&mut self, least: usize)
        requires { length self.old.kept.items ≡ length self.old.counts.items }
        ensures kept { self.new.kept.items ≡ self.old.counts.items }
        ensures least { self.new.least ≡ Some least }
        ensures counts { self.new.counts ≡ self.old.counts }
        ensures tally { self.new.tally ≡ self.old.tally }
        ensures visits { self.new.visits ≡ self.old.visits }
        ensures nodes { self.new.nodes ≡ self.old.nodes }
    {
        self.least = Some(least);
        self.kept.copy_from_slice(&self.counts);
    }

    #[cycle(search)]
    // Enters a front of the first `depth` classes.
    fn enter(&mut self, classes: &Classes, depth: usize) -> Result<(), BudgetSpent>
        requires few { self.old.visits ≤ self.old.nodes }
        requires small { taken_by classes.now (take depth self.old.counts.items) ≤ 1000 }
        requires stands { StandsAt classes.now depth (drop depth classes.now.classes) self.old }
        ensures { Moves classes.now depth (drop depth classes.now.classes)
            (enter_cheapest classes.now (drop depth classes.now.classes) (take depth self.old.counts.items) (search_of self.old))
            (take depth self.old.counts.items) self.old.nodes result self.new }
    {
        self.spend()?;
        if depth == classes.classes().len() {
            self.keep(classes, depth);
            return Ok(());
        }
        let class = classes.class_at(depth);
        self.tally.begin_class(classes, &self.counts[..depth]);
        self.children(classes, depth, class.least(), class.most() - class.least())?;
        self.tally.end_class(classes, &self.counts[..depth]);
        Ok(())
    }

    #[cycle(search)]
    // Tries the children of the front with counts of the next class from `least + more` down to `least`.
    fn children(
        &mut self,
        classes: &Classes,
        depth: usize,
        least: usize,
        more: usize,
    ) -> Result<(), BudgetSpent>
        requires few { self.old.visits ≤ self.old.nodes }
        requires below { depth < length classes.now.classes }
        requires counts { least + more ≤ 4000 }
        requires small { taken_by classes.now (take depth self.old.counts.items) ≤ 1000 }
        requires stands { StandsAt classes.now depth (drop (depth + 1) classes.now.classes) self.old }
        ensures { Moves classes.now depth (drop (depth + 1) classes.now.classes)
            (children_cheapest classes.now (drop (depth + 1) classes.now.classes) (take depth self.old.counts.items) (counts_down least more) (search_of self.old))
            (take depth self.old.counts.items) self.old.nodes result self.new }
    {
        self.try_child(classes, depth, least + more)?;
        if more == 0 {
            return Ok(());
        }
        self.children(classes, depth, least, more - 1)
    }

    #[cycle(search)]
    // Enters the child with `count` of the next class, if it is live.
    fn try_child(
        &mut self,
        classes: &Classes,
        depth: usize,
        count: usize,
    ) -> Result<(), BudgetSpent>
        requires few { self.old.visits ≤ self.old.nodes }
        requires below { depth < length classes.now.classes }
        requires count { count ≤ 4000 }
        requires small { taken_by classes.now (take depth self.old.counts.items) ≤ 1000 }
        requires stands { StandsAt classes.now depth (drop (depth + 1) classes.now.classes) self.old }
        ensures { Moves classes.now depth (drop (depth + 1) classes.now.classes)
            (child_cheapest classes.now (drop (depth + 1) classes.now.classes) (take depth self.old.counts.items ++ count ∷ []) (search_of self.old))
            (take depth self.old.counts.items) self.old.nodes result self.new }
    {
        self.tally.take(classes, &self.counts[..depth], count);
        self.counts[depth] = count;
        self.enter_live(classes, depth + 1)?;
        self.tally.give_back(classes, &self.counts[..depth], count);
        Ok(())
    }

    #[cycle(search)]
    // Enters the front of the first `depth` classes, if it is live.
    fn enter_live(&mut self, classes: &Classes, depth: usize) -> Result<(), BudgetSpent>
        requires few { self.old.visits ≤ self.old.nodes }
        requires small { taken_by classes.now (take depth self.old.counts.items) ≤ 5000 }
        requires stands { StandsAt classes.now depth (drop depth classes.now.classes) self.old }
        ensures { Moves classes.now depth (drop depth classes.now.classes)
            (child_cheapest classes.now (drop depth classes.now.classes) (take depth self.old.counts.items) (search_of self.old))
            (take depth self.old.counts.items) self.old.nodes result self.new }
    {
        classes.facts();
        if !self.is_live(classes, depth) {
            return Ok(());
        }
        self.enter(classes, depth)
    }
}
