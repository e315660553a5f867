//! The search for the first composition, front by front: classes in their order, the greatest count first.

ghost use Rattle.std.specs.Prelude.{◌≡◌, true, ◌≤◌, ◌<◌, ◌+◌, [], ◌∷◌, ◌++◌, length, take, drop, IfOk, OnOk, OnErr};
ghost use Rattle.define_searches.specs.Answers.{AnswersWithin};
ghost use Rattle.panel_search.specs.Answers.{Answers};
ghost use Rattle.define_searches.specs.Compositions.{first_composition};
ghost use Rattle.panel_search.specs.Front.{Tracks};
ghost use Rattle.panel_search.specs.Steps.{StandsAt, Steps, Finds, child_first, children_first, counts_below, LiveWithin};
ghost use Rattle.define_searches.specs.Fronts.{is_reachable};
ghost use Rattle.define_searches.specs.Visits.{enter_first, first_search};

use crate::tally::Tally;
use alike::{Classes, Composition};
use std::alloc::{AllocError, Global};
use thiserror::Error;

/// Why a search found no answer.
#[derive(Debug, Drop, Error)]
pub enum SearchStop {
    /// The search takes more visits than the budget allows.
    #[error("the budget of visits is spent")]
    Spent,
    /// No memory was left.
    #[error("out of memory")]
    OutOfMemory,
}

/// Returns the first composition of the classes, or None if there is none. Of two compositions, the one with the greater count in the first
/// class in which they differ comes first. Fails with `Spent` if the search takes more than `nodes` visits. Each front that is entered
/// counts one visit, also the empty front.
pub fn first(
    alloc: Global,
    classes: &Classes,
    nodes: u64,
) -> Result<Option<Composition>, SearchStop>
    ensures answers { Answers (first_search classes.now) nodes result }
    ensures first { IfOk result (λ found. found ≡ first_composition classes.now) }
{
    classes.facts();
    let search = Search::new(alloc, classes, nodes)?;
    Ok(search.run(classes)?)
}

impl From<AllocError> for SearchStop {
    ghost use Rattle.std.specs.Prelude.{◌≡◌};
    ghost use Rattle.panel_search.specs.declared.searching.SearchStop.TheVariants.{OutOfMemory};

    ghost from_gives = { λ _ e. e ≡ OutOfMemory };

    fn from(_error: AllocError) -> SearchStop {
        SearchStop::OutOfMemory
    }
}

impl From<BudgetSpent> for SearchStop {
    ghost use Rattle.std.specs.Prelude.{◌≡◌};
    ghost use Rattle.panel_search.specs.declared.searching.SearchStop.TheVariants.{Spent};

    ghost from_gives = { λ _ e. e ≡ Spent };

    fn from(_spent: BudgetSpent) -> SearchStop {
        SearchStop::Spent
    }
}

// The error of a search that needs more visits than its budget allows.
#[derive(Debug, Clone, Copy)]
pub(crate) struct BudgetSpent;

// Where a search is: the counts of the front's classes, with a place for each class; what the front takes; and how many visits are left.
#[derive(Drop)]
struct Search {
    counts: Vec<usize>,
    tally: Tally,
    left: u64,
}

impl Search {
    fn new(alloc: Global, classes: &Classes, nodes: u64) -> Result<Search, AllocError>
        ensures counts { IfOk result (λ search. length search.counts.items ≡ length classes.now.classes) }
        ensures left { IfOk result (λ search. search.left ≡ nodes) }
        ensures tally { IfOk result (λ search. Tracks classes.now [] classes.now.classes search.tally) }
    {
        Ok(Search {
            counts: vec![in alloc; 0; classes.classes().len()]?,
            tally: Tally::new(alloc, classes)?,
            left: nodes,
        })
    }

    // Runs the whole search. It has its memory already, so it ends with what it finds, or with its budget spent.
    fn run(mut self, classes: &Classes) -> Result<Option<Composition>, BudgetSpent>
        requires places { length self.counts.items ≡ length classes.now.classes }
        requires tally { Tracks classes.now [] classes.now.classes self.tally }
        ensures { AnswersWithin (first_search classes.now) self.left result }
    {
        if self.from_the_empty_front(classes)? {
            Ok(Some(Composition::new(self.counts)))
        } else {
            Ok(None)
        }
    }

    // Enters the empty front if it is reachable, else only counts a visit. True if it leads to a composition.
    fn from_the_empty_front(&mut self, classes: &Classes) -> Result<bool, BudgetSpent>
        requires places { length self.old.counts.items ≡ length classes.now.classes }
        requires tally { Tracks classes.now [] classes.now.classes self.old.tally }
        ensures { Finds (first_search classes.now) self.old.left result self.new }
    {
        if self.tally.is_alive(classes, &[]) {
            self.enter(classes, 0)
        } else {
            self.spend()?;
            Ok(false)
        }
    }

    // Counts a visit, if one is left.
    fn spend(&mut self) -> Result<(), BudgetSpent>
        ensures ok { OnOk result (self.old.left ≡ self.new.left + 1) }
        ensures err { OnErr result (self.old.left ≡ 0) }
        ensures counts { self.new.counts ≡ self.old.counts }
        ensures tally { self.new.tally ≡ self.old.tally }
    {
        if self.left == 0 {
            return Err(BudgetSpent);
        }
        self.left -= 1;
        Ok(())
    }

    #[cycle(search)]
    // Enters a reachable front of the first `depth` classes. True if it leads to a composition.
    fn enter(&mut self, classes: &Classes, depth: usize) -> Result<bool, BudgetSpent>
        requires { StandsAt classes.now depth (drop depth classes.now.classes) self.old }
        ensures { Steps classes.now depth (drop depth classes.now.classes)
            (enter_first classes.now (drop depth classes.now.classes) (take depth self.old.counts.items)) self.old result self.new }
    {
        self.spend()?;
        if depth == classes.classes().len() {
            return Ok(true);
        }
        classes.facts();
        let class = &classes.classes()[depth];
        self.tally.begin_class(classes, &self.counts[..depth]);
        let front = &self.counts[..depth];
        let (low, end) = self
            .tally
            .range(classes, front, class.least(), class.most() + 1);
        if self.children(classes, depth, low, end)? {
            return Ok(true);
        }
        self.tally.end_class(classes, &self.counts[..depth]);
        Ok(false)
    }

    #[cycle(search)]
    // Enters the children of the front with counts of the next class in `low..end`, the greatest first. All of them must be reachable. True
    // if one leads to a composition.
    fn children(
        &mut self,
        classes: &Classes,
        depth: usize,
        low: usize,
        end: usize,
    ) -> Result<bool, BudgetSpent>
        requires below { depth < length classes.now.classes }
        requires few { end ≤ 4001 }
        requires live { LiveWithin classes.now (take depth self.old.counts.items) low end }
        requires stands { StandsAt classes.now depth (drop (depth + 1) classes.now.classes) self.old }
        ensures { Steps classes.now depth (drop (depth + 1) classes.now.classes)
            (children_first classes.now (drop (depth + 1) classes.now.classes) (take depth self.old.counts.items) (counts_below low end))
            self.old result self.new }
    {
        if end <= low {
            return Ok(false);
        }
        if self.try_child(classes, depth, end - 1)? {
            return Ok(true);
        }
        self.children(classes, depth, low, end - 1)
    }

    #[cycle(search)]
    // Enters the child with `count` of the next class, which must be reachable. True if it leads to a composition.
    fn try_child(
        &mut self,
        classes: &Classes,
        depth: usize,
        count: usize,
    ) -> Result<bool, BudgetSpent>
        requires below { depth < length classes.now.classes }
        requires few { count ≤ 4000 }
        requires live { is_reachable classes.now (take depth self.old.counts.items ++ count ∷ []) ≡ true }
        requires stands { StandsAt classes.now depth (drop (depth + 1) classes.now.classes) self.old }
        ensures { Steps classes.now depth (drop (depth + 1) classes.now.classes)
            (child_first classes.now (drop (depth + 1) classes.now.classes) (take depth self.old.counts.items ++ count ∷ []))
            self.old result self.new }
    {
        classes.facts();
        self.tally.take(classes, &self.counts[..depth], count);
        self.counts[depth] = count;
        if self.enter(classes, depth + 1)? {
            return Ok(true);
        }
        self.tally.give_back(classes, &self.counts[..depth], count);
        Ok(false)
    }
}
