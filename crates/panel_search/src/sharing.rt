//! The search for the best composition below a front, by workers that share a word. It is the search of `pricing` but for two steps: it
//! loads the word before it tests a front, and raises the word when it keeps a composition. A helper of `priced`.

ghost use Rattle.std.specs.Prelude.{◌≡◌, ◌≤◌, ◌<◌, ◌+◌, ◌++◌, [], ◌∷◌, true, length, take, drop, ℕ, pos, ◌≤ℤ◌, ◌<ℤ◌, Some, OnOk, OnErr};
ghost use Rattle.panel_search.specs.Pricing.{BeginsAt, StandsAt, pricing_of, CanTakeWithin, children_best};
ghost use Rattle.panel_search.specs.Sharing.{AnswersShared, FrontsWithin, Goes, IsBounded, MayStand, Shared, Shares, begun_at, priced_of};
ghost use Rattle.panel_search.specs.Steps.{counts_below, LiveWithin};
ghost use Rattle.panel_search.specs.Terms.{AreTerms};
ghost use Rattle.define_searches.specs.Front.{AreWithin, CanTake};
ghost use Rattle.define_searches.specs.Classes.{IsSearchable};
ghost use Rattle.define_searches.specs.Fronts.{HaveEntries, is_live_above, is_reachable};
ghost use Rattle.define_searches.specs.Below.{IsFront, child_best};

use crate::pricing::{BestSearch, Terms};
use crate::searching::{BudgetSpent, SearchStop};
use crate::word::{Beaten, Scope};
use alike::Composition;
use std::alloc::Global;
use std::sync::atomic::AtomicIn;
use std::sync::atomic::Ordering::SeqCst;

// Searches below a front, with a floor of its own, and shares the word with others. `seen` is the greatest word that its worker has loaded.
pub(crate) fn search_sharing<S: Scope>(
    alloc: Global,
    terms: &Terms<'_>,
    word: &AtomicIn<Beaten<S>>,
    seen: &mut u64,
    front: &[usize],
    floor: i128,
    nodes: u64,
) -> Result<(Option<(Composition, i128)>, u64), SearchStop>
    requires terms { AreTerms terms.now }
    requires entries { HaveEntries terms.now.classes.now (terms.now.row.now ∷ terms.now.closed.now) }
    requires searchable { IsSearchable terms.now.classes.now }
    requires priced { S.priced ≡ priced_of terms.now }
    requires front { IsFront terms.now.classes.now front.now }
    requires counts { AreWithin terms.now.classes.now front.now }
    requires bounded { IsBounded S.priced floor 0 }
    requires stands { MayStand S.priced seen.old }
    ensures no_less { seen.old ≤ seen.new }
    ensures stands { MayStand S.priced seen.new }
    ensures answers { AnswersShared (priced_of terms.now) front.now floor nodes result seen.new }
{
    let raised = floor.max(i128::from(*seen));
    let mut search = SharingSearch {
        search: BestSearch::new(alloc, terms, front, raised, nodes)?,
        seen: *seen,
    };
    search.below(terms, word, front.len())?;
    *seen = search.seen;
    Ok(search.search.weighed_answer())
}

// Raises the word to the greatest that is below a weight, unless the word last loaded is as great. If another worker has raised it since,
// nothing is written.
fn tell<S: Scope>(word: &AtomicIn<Beaten<S>>, weight: i128, seen: u64)
    requires positive { pos 1 ≤ℤ weight }
    requires beaten { (n : ℕ) → pos n <ℤ weight → MayStand S.priced n }
{
    let below = u64::try_from(weight - 1).unwrap_or(u64::MAX);
    if below > seen {
        let _ = word.compare_exchange(seen, below, SeqCst, SeqCst);
    }
}

// A search, and the greatest word that its worker has loaded. The floor is at least this word.
#[derive(Drop)]
struct SharingSearch {
    search: BestSearch,
    seen: u64,
}

impl SharingSearch {
    // Enters the front of the first `depth` classes, if it is live.
    fn below<S: Scope>(
        &mut self,
        terms: &Terms<'_>,
        word: &AtomicIn<Beaten<S>>,
        depth: usize,
    ) -> Result<(), BudgetSpent>
        requires terms { AreTerms terms.now }
        requires entries { HaveEntries terms.now.classes.now (terms.now.row.now ∷ terms.now.closed.now) }
        requires searchable { IsSearchable terms.now.classes.now }
        requires priced { S.priced ≡ priced_of terms.now }
        requires bounded { IsBounded S.priced self.old.search.floor self.old.seen }
        requires few { self.old.search.visits ≤ self.old.search.nodes }
        requires begins { BeginsAt terms.now.classes.now terms.now.closed.now terms.now.row.now depth self.old.search }
        requires front { IsFront terms.now.classes.now (take depth self.old.search.counts.items) }
        ensures { Shared S.priced (child_best terms.now.classes.now terms.now.closed.now terms.now.row.now (drop depth terms.now.classes.now.classes) (take depth self.old.search.counts.items))
            self.old.search self.old.seen result self.new.search self.new.seen }
    {
        self.look(word);
        if self.search.is_live(terms, depth) {
            self.enter(terms, word, depth)?;
        }
        Ok(())
    }

    // Loads the word. If it is above the floor, it is the floor from now on, and what was kept is let go, since it is beaten.
    fn look<S: Scope>(&mut self, word: &AtomicIn<Beaten<S>>)
        requires { IsBounded S.priced self.old.search.floor self.old.seen }
        ensures shares { Shares S.priced (λ now. now) (pricing_of self.old.search) self.old.seen (pricing_of self.new.search) self.new.seen }
        ensures search { self.new.search ≡ record self.old.search { floor = self.new.search.floor; is_found = self.new.search.is_found } }
    {
        let loaded = word.load(SeqCst);
        if loaded > self.seen {
            self.seen = loaded;
            let bound = i128::from(loaded);
            if self.search.floor < bound {
                self.search.floor = bound;
                self.search.is_found = false;
            }
        }
    }

    #[cycle(sharing)]
    // Enters a live front of the first `depth` classes.
    fn enter<S: Scope>(
        &mut self,
        terms: &Terms<'_>,
        word: &AtomicIn<Beaten<S>>,
        depth: usize,
    ) -> Result<(), BudgetSpent>
        requires terms { AreTerms terms.now }
        requires entries { HaveEntries terms.now.classes.now (terms.now.row.now ∷ terms.now.closed.now) }
        requires searchable { IsSearchable terms.now.classes.now }
        requires priced { S.priced ≡ priced_of terms.now }
        requires bounded { IsBounded S.priced self.old.search.floor self.old.seen }
        requires few { self.old.search.visits ≤ self.old.search.nodes }
        requires live { is_live_above terms.now.classes.now terms.now.closed.now terms.now.row.now self.old.search.floor (take depth self.old.search.counts.items) ≡ true }
        requires front { IsFront terms.now.classes.now (take depth self.old.search.counts.items) }
        requires stands { StandsAt terms.now.classes.now terms.now.closed.now terms.now.row.now depth (drop depth terms.now.classes.now.classes) self.old.search }
        ensures { Goes terms.now.classes.now terms.now.closed.now terms.now.row.now depth (drop depth terms.now.classes.now.classes) S.priced
            (child_best terms.now.classes.now terms.now.closed.now terms.now.row.now (drop depth terms.now.classes.now.classes) (take depth self.old.search.counts.items))
            self.old.search self.old.seen result self.new.search self.new.seen }
    {
        let classes = terms.classes;
        self.search.spend()?;
        if depth == classes.classes().len() {
            self.search.keep(terms);
            tell(word, self.search.floor, self.seen);
            return Ok(());
        }
        classes.facts();
        let class = &classes.classes()[depth];
        self.search
            .tally
            .begin_class(classes, &self.search.counts[..depth]);
        let front = &self.search.counts[..depth];
        let (low, end) = self
            .search
            .tally
            .range(classes, front, class.least(), class.most() + 1);
        self.children(terms, word, depth, low, end)?;
        self.search
            .tally
            .end_class(classes, &self.search.counts[..depth]);
        Ok(())
    }

    #[cycle(sharing)]
    // Tries the children of the front with counts of the next class in `low..end`, the greatest first. Their size, values and households
    // must be within reach.
    fn children<S: Scope>(
        &mut self,
        terms: &Terms<'_>,
        word: &AtomicIn<Beaten<S>>,
        depth: usize,
        low: usize,
        end: usize,
    ) -> Result<(), BudgetSpent>
        requires terms { AreTerms terms.now }
        requires entries { HaveEntries terms.now.classes.now (terms.now.row.now ∷ terms.now.closed.now) }
        requires searchable { IsSearchable terms.now.classes.now }
        requires priced { S.priced ≡ priced_of terms.now }
        requires bounded { IsBounded S.priced self.old.search.floor self.old.seen }
        requires few { self.old.search.visits ≤ self.old.search.nodes }
        requires below { depth < length terms.now.classes.now.classes }
        requires can_take { CanTakeWithin terms.now.classes.now depth low end }
        requires end { end ≤ 4001 }
        requires live { LiveWithin terms.now.classes.now (take depth self.old.search.counts.items) low end }
        requires fronts { FrontsWithin terms.now.classes.now (take depth self.old.search.counts.items) low end }
        requires stands { StandsAt terms.now.classes.now terms.now.closed.now terms.now.row.now depth (drop (depth + 1) terms.now.classes.now.classes) self.old.search }
        ensures { Goes terms.now.classes.now terms.now.closed.now terms.now.row.now depth (drop (depth + 1) terms.now.classes.now.classes) S.priced
            (children_best terms.now.classes.now terms.now.closed.now terms.now.row.now (drop (depth + 1) terms.now.classes.now.classes) (take depth self.old.search.counts.items) (counts_below low end))
            self.old.search self.old.seen result self.new.search self.new.seen }
    {
        if end <= low {
            return Ok(());
        }
        self.try_child(terms, word, depth, end - 1)?;
        self.children(terms, word, depth, low, end - 1)
    }

    #[cycle(sharing)]
    // Enters the child with `count` of the next class, if it is live. Its size, values and households must be within reach.
    fn try_child<S: Scope>(
        &mut self,
        terms: &Terms<'_>,
        word: &AtomicIn<Beaten<S>>,
        depth: usize,
        count: usize,
    ) -> Result<(), BudgetSpent>
        requires terms { AreTerms terms.now }
        requires entries { HaveEntries terms.now.classes.now (terms.now.row.now ∷ terms.now.closed.now) }
        requires searchable { IsSearchable terms.now.classes.now }
        requires priced { S.priced ≡ priced_of terms.now }
        requires bounded { IsBounded S.priced self.old.search.floor self.old.seen }
        requires few { self.old.search.visits ≤ self.old.search.nodes }
        requires below { depth < length terms.now.classes.now.classes }
        requires can_take { CanTake terms.now.classes.now depth count }
        requires count { count ≤ 4000 }
        requires live { is_reachable terms.now.classes.now (take depth self.old.search.counts.items ++ count ∷ []) ≡ true }
        requires front { IsFront terms.now.classes.now (take depth self.old.search.counts.items ++ count ∷ []) }
        requires stands { StandsAt terms.now.classes.now terms.now.closed.now terms.now.row.now depth (drop (depth + 1) terms.now.classes.now.classes) self.old.search }
        ensures { Goes terms.now.classes.now terms.now.closed.now terms.now.row.now depth (drop (depth + 1) terms.now.classes.now.classes) S.priced
            (child_best terms.now.classes.now terms.now.closed.now terms.now.row.now (drop (depth + 1) terms.now.classes.now.classes) (take depth self.old.search.counts.items ++ count ∷ []))
            self.old.search self.old.seen result self.new.search self.new.seen }
    {
        let classes = terms.classes;
        classes.facts();
        self.look(word);
        if !self.search.weights_allow(terms, depth, count) {
            return Ok(());
        }
        self.search
            .tally
            .take(classes, &self.search.counts[..depth], count);
        self.search.counts[depth] = count;
        self.enter(terms, word, depth + 1)?;
        self.search
            .tally
            .give_back(classes, &self.search.counts[..depth], count);
        Ok(())
    }
}
