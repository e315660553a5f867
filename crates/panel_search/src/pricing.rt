//! The search for the best composition, front by front, with a floor that rises as compositions are kept. A helper of `pricer`, `priced`
//! and `dividing`.

ghost use Rattle.std.specs.Prelude.{◌≡◌, ◌≤◌, ◌<◌, ◌+◌, ◌++◌, [], ◌∷◌, true, false, ◌&&◌, length, take, drop, int_le, int_lt, Some, None, if◌then◌else◌, IfOk, OnOk, OnErr};
ghost use Rattle.std.specs.List.{list_all};
ghost use Rattle.panel_search.specs.Answers.{AnswersBest, AnswersBestWithin, AnswersWeighed, AnswersWeighedWithin, IsKept};
ghost use Rattle.panel_search.specs.Front.{Tracks};
ghost use Rattle.panel_search.specs.Pricing.{BeginsAt, StandsAt, Moves, EndsWithin, pricing_of, CanTakeWithin, children_best};
ghost use Rattle.define_searches.specs.Front.{CanTake, AreWithin};
ghost use Rattle.panel_search.specs.Pieces.{live_among, live_children};
ghost use Rattle.panel_search.specs.Steps.{counts_below, LiveWithin};
ghost use Rattle.panel_search.specs.Terms.{AreTerms};
ghost use Rattle.panel_search.specs.Weights.{Weighs, WeighEach};
ghost use Rattle.define_searches.specs.Compositions.{price, weight_in};
ghost use Rattle.define_searches.specs.Fronts.{HaveEntries, HaveReach, is_live_above, is_reachable, optimistic};
ghost use Rattle.define_searches.specs.Visits.{best_search, enter_best};
ghost use Rattle.define_searches.specs.Below.{child_best, search_from};

use crate::fronts::Front;
use crate::greatest::Sums;
use crate::searching::{BudgetSpent, SearchStop};
use crate::tally::Tally;
use crate::weighing::{Weights, all_weights, child_attains, front_attains};
use alike::{Classes, Composition};
use define_rows::Row;
use std::alloc::{AllocError, Global};

/// What a search for the best composition reads: the classes, the rows to attain and the one to price, each with its greatest sums. The
/// search changes none of it, so searches may read it side by side.
#[derive(Drop)]
pub(crate) struct Terms<'a> {
    pub(crate) classes: &'a Classes,
    pub(crate) closed: &'a [Row],
    pub(crate) closed_sums: &'a [Sums],
    pub(crate) row: &'a Row,
    pub(crate) sums: &'a Sums,
}

// Searches below a front, with a floor of its own: if the front isn't live above the floor, it makes no visit. The front has at most one
// count for each class, and each is at most its class's size.
pub(crate) fn search_from(
    alloc: Global,
    terms: &Terms<'_>,
    front: &[usize],
    floor: i128,
    nodes: u64,
) -> Result<(Option<Composition>, u64), SearchStop>
    requires terms { AreTerms terms.now }
    requires within { length front.now ≤ length terms.now.classes.now.classes }
    requires counts { AreWithin terms.now.classes.now front.now }
    ensures { AnswersBest (search_from terms.now.classes.now terms.now.closed.now terms.now.row.now front.now floor) nodes result }
{
    let search = BestSearch::new(alloc, terms, front, floor, nodes)?;
    Ok(search.run(terms, front.len())?)
}

// Searches like `search_from`, and also returns the weight of what it finds.
pub(crate) fn search_weighed(
    alloc: Global,
    terms: &Terms<'_>,
    front: &[usize],
    floor: i128,
    nodes: u64,
) -> Result<(Option<(Composition, i128)>, u64), SearchStop>
    requires terms { AreTerms terms.now }
    requires within { length front.now ≤ length terms.now.classes.now.classes }
    requires counts { AreWithin terms.now.classes.now front.now }
    ensures { AnswersWeighed (search_from terms.now.classes.now terms.now.closed.now terms.now.row.now front.now floor) nodes result }
{
    let search = BestSearch::new(alloc, terms, front, floor, nodes)?;
    Ok(search.run_weighed(terms, front.len())?)
}

// Searches from the empty front on, with a floor that begins at the priced row's right side. The empty front counts one visit even if it
// isn't live.
pub(crate) fn search_best(
    alloc: Global,
    terms: &Terms<'_>,
    nodes: u64,
) -> Result<(Option<Composition>, u64), SearchStop>
    requires { AreTerms terms.now }
    ensures { AnswersBest (best_search terms.now.classes.now terms.now.closed.now terms.now.row.now) nodes result }
{
    let (found, visits) = search_from(alloc, terms, &[], terms.row.side(), nodes)?;
    if visits > 0 {
        return Ok((found, visits));
    }
    if nodes == 0 {
        return Err(SearchStop::Spent);
    }
    Ok((None, 1))
}

// Returns `places` counts: first those of the front, then 0.
fn places_after(alloc: Global, front: &[usize], places: usize) -> Result<Vec<usize>, AllocError>
    requires { length front.now ≤ places }
    ensures places { IfOk result (λ counts. length counts.items ≡ places) }
    ensures front { IfOk result (λ counts. take (length front.now) counts.items ≡ front.now) }
{
    let mut counts = Vec::with_capacity(alloc, places)?;
    counts.extend_from_slice(front)?;
    counts.resize(places, 0)?;
    Ok(counts)
}

// Where a search for the best composition is: the counts of the front's classes, with a place for each class; what the front takes and
// weighs; the floor, and the composition that was kept last, if there is one; the visits, and the budget of visits.
#[derive(Drop)]
pub(crate) struct BestSearch {
    pub(crate) counts: Vec<usize>,
    pub(crate) tally: Tally,
    priced: Weights,
    closed: Vec<Weights>,
    pub(crate) floor: i128,
    pub(crate) is_found: bool,
    kept: Vec<usize>,
    visits: u64,
    nodes: u64,
}

impl BestSearch {
    // Returns a search at a front, before anything is entered.
    pub(crate) fn new(
        alloc: Global,
        terms: &Terms<'_>,
        front: &[usize],
        floor: i128,
        nodes: u64,
    ) -> Result<BestSearch, AllocError>
        requires terms { AreTerms terms.now }
        requires within { length front.now ≤ length terms.now.classes.now.classes }
        requires counts { AreWithin terms.now.classes.now front.now }
        ensures pricing { IfOk result (λ search. pricing_of search ≡ record { visits = 0; floor = floor; kept = None }) }
        ensures nodes { IfOk result (λ search. search.nodes ≡ nodes) }
        ensures front { IfOk result (λ search. take (length front.now) search.counts.items ≡ front.now) }
        ensures begins { IfOk result (λ search. BeginsAt terms.now.classes.now terms.now.closed.now terms.now.row.now (length front.now) search) }
    {
        Ok(BestSearch {
            counts: places_after(alloc, front, terms.classes.classes().len())?,
            tally: Tally::at_front(alloc, terms.classes, front)?,
            priced: Weights::new(alloc, terms.classes, terms.row, front)?,
            closed: all_weights(alloc, terms.classes, terms.closed, front)?,
            floor,
            is_found: false,
            kept: vec![in alloc; 0; terms.classes.classes().len()]?,
            visits: 0,
            nodes,
        })
    }

    // Runs the whole search. It has its memory already, so it ends with what it kept, or with its budget spent.
    fn run(
        mut self,
        terms: &Terms<'_>,
        depth: usize,
    ) -> Result<(Option<Composition>, u64), BudgetSpent>
        requires terms { AreTerms terms.now }
        requires pricing { pricing_of self ≡ record { visits = 0; floor = self.floor; kept = None } }
        requires begins { BeginsAt terms.now.classes.now terms.now.closed.now terms.now.row.now depth self }
        ensures { AnswersBestWithin (search_from terms.now.classes.now terms.now.closed.now terms.now.row.now (take depth self.counts.items) self.floor) self.nodes result }
    {
        self.below(terms, depth)?;
        Ok(self.answer())
    }

    // Runs the whole search, and also returns the weight of what it kept, which is the floor at the end.
    fn run_weighed(
        mut self,
        terms: &Terms<'_>,
        depth: usize,
    ) -> Result<(Option<(Composition, i128)>, u64), BudgetSpent>
        requires terms { AreTerms terms.now }
        requires pricing { pricing_of self ≡ record { visits = 0; floor = self.floor; kept = None } }
        requires begins { BeginsAt terms.now.classes.now terms.now.closed.now terms.now.row.now depth self }
        ensures { AnswersWeighedWithin (search_from terms.now.classes.now terms.now.closed.now terms.now.row.now (take depth self.counts.items) self.floor) self.nodes result }
    {
        self.below(terms, depth)?;
        Ok(self.weighed_answer())
    }

    // Returns what was kept, with the floor, and the visits.
    pub(crate) fn weighed_answer(self) -> (Option<(Composition, i128)>, u64)
        ensures found { IsKept (pricing_of self) result.0 }
        ensures visits { result.1 ≡ self.visits }
    {
        let floor = self.floor;
        let (found, visits) = self.answer();
        (found.map(|composition| (composition, floor)), visits)
    }

    // Returns what was kept, and the visits.
    fn answer(self) -> (Option<Composition>, u64)
        ensures found { result.0 ≡ (pricing_of self).kept }
        ensures visits { result.1 ≡ self.visits }
    {
        if self.is_found {
            (Some(Composition::new(self.kept)), self.visits)
        } else {
            (None, self.visits)
        }
    }

    // Enters the front of the first `depth` classes, if it is live.
    fn below(&mut self, terms: &Terms<'_>, depth: usize) -> Result<(), BudgetSpent>
        requires terms { AreTerms terms.now }
        requires pricing { pricing_of self.old ≡ record { visits = 0; floor = self.old.floor; kept = None } }
        requires begins { BeginsAt terms.now.classes.now terms.now.closed.now terms.now.row.now depth self.old }
        ensures { EndsWithin (search_from terms.now.classes.now terms.now.closed.now terms.now.row.now (take depth self.old.counts.items) self.old.floor) self.old.nodes result self.new }
    {
        if self.is_live(terms, depth) {
            self.enter(terms, depth)?;
        }
        Ok(())
    }

    // True if the front of the first `depth` classes is live above the floor.
    pub(crate) fn is_live(&self, terms: &Terms<'_>, depth: usize) -> bool
        requires terms { AreTerms terms.now }
        requires begins { BeginsAt terms.now.classes.now terms.now.closed.now terms.now.row.now depth self.now }
        ensures { result ≡ is_live_above terms.now.classes.now terms.now.closed.now terms.now.row.now self.now.floor (take depth self.now.counts.items) }
    {
        let classes = terms.classes;
        classes.facts();
        let front = &self.counts[..depth];
        if !self.tally.is_alive(classes, front) {
            return false;
        }
        let lack = self.tally.lack_here(classes, front);
        let weight = self
            .priced
            .optimistic(terms.sums, classes, terms.row, front, lack);
        let attains = front_attains(
            &self.closed,
            terms.closed_sums,
            classes,
            terms.closed,
            front,
            lack,
        );
        attains && self.floor < weight
    }

    // Counts a visit, if the budget allows one more.
    pub(crate) fn spend(&mut self) -> Result<(), BudgetSpent>
        requires { self.old.visits ≤ self.old.nodes }
        ensures ok { OnOk result (self.old.visits < self.old.nodes) }
        ensures err { OnErr result (self.old.visits ≡ self.old.nodes) }
        ensures visits { OnOk result (self.new ≡ record self.old { visits = self.old.visits + 1 }) }
    {
        if self.visits == self.nodes {
            return Err(BudgetSpent);
        }
        self.visits += 1;
        Ok(())
    }

    // Keeps the front, which is a composition; its weight is the floor from now on.
    pub(crate) fn keep(&mut self, terms: &Terms<'_>)
        requires kept_places { length self.old.kept.items ≡ length self.old.counts.items }
        requires places { length self.old.counts.items ≡ length terms.now.classes.now.classes }
        requires priced { Weighs terms.now.classes.now terms.now.row.now self.old.counts.items self.old.priced }
        ensures pricing { pricing_of self.new ≡ record { visits = self.old.visits; floor = weight_in terms.now.row.now.a self.old.counts.items; kept = Some self.old.counts.items } }
        ensures kept_places { length self.new.kept.items ≡ length self.new.counts.items }
        ensures counts { self.new.counts ≡ self.old.counts }
        ensures tally { self.new.tally ≡ self.old.tally }
        ensures priced { self.new.priced ≡ self.old.priced }
        ensures closed { self.new.closed ≡ self.old.closed }
        ensures nodes { self.new.nodes ≡ self.old.nodes }
    {
        self.kept.copy_from_slice(&self.counts);
        self.floor = self.priced.weight(terms.classes, terms.row, &self.counts);
        self.is_found = true;
    }

    // True if the child with `count` of the next class has an optimistic weight of at least the right side in each closed row, and above
    // the floor in the priced row. If so, the weights are then those of the child.
    pub(crate) fn weights_allow(&mut self, terms: &Terms<'_>, depth: usize, count: usize) -> bool
        requires terms { AreTerms terms.now }
        requires below { depth < length terms.now.classes.now.classes }
        requires live { is_reachable terms.now.classes.now (take depth self.old.counts.items ++ count ∷ []) ≡ true }
        requires can_take { CanTake terms.now.classes.now depth count }
        requires stands { StandsAt terms.now.classes.now terms.now.closed.now terms.now.row.now depth (drop (depth + 1) terms.now.classes.now.classes) self.old }
        ensures value { result ≡ (list_all (λ r. int_le r.b (optimistic terms.now.classes.now r (take depth self.old.counts.items ++ count ∷ []))) terms.now.closed.now
            && int_lt self.old.floor (optimistic terms.now.classes.now terms.now.row.now (take depth self.old.counts.items ++ count ∷ []))) }
        ensures stands { StandsAt terms.now.classes.now terms.now.closed.now terms.now.row.now depth (drop (depth + 1) terms.now.classes.now.classes) self.new }
        ensures pricing { pricing_of self.new ≡ pricing_of self.old }
        ensures counts { self.new.counts ≡ self.old.counts }
        ensures nodes { self.new.nodes ≡ self.old.nodes }
        ensures priced { result ≡ true → Weighs terms.now.classes.now terms.now.row.now (take depth self.old.counts.items ++ count ∷ []) self.new.priced }
        ensures closed { result ≡ true → WeighEach terms.now.classes.now terms.now.closed.now (take depth self.old.counts.items ++ count ∷ []) self.new.closed.items }
    {
        let classes = terms.classes;
        let lack = self.tally.lack(classes, &self.counts[..depth], count);
        let front = &self.counts[..depth];
        child_attains(
            &mut self.closed,
            terms.closed_sums,
            classes,
            terms.closed,
            front,
            count,
            lack,
        ) && self.floor
            < self
                .priced
                .child(terms.sums, classes, terms.row, front, count, lack)
    }

    // Takes the class after a reachable front out of the classes still to come. Returns `(low, end)`: exactly the counts in `low..end` of
    // this class keep size, values and households within reach.
    pub(crate) fn begin(&mut self, terms: &Terms<'_>, front: &Front) -> (usize, usize)
        requires below { length front.now < length terms.now.classes.now.classes }
        requires front { take (length front.now) self.old.counts.items ≡ front.now }
        requires live { is_reachable terms.now.classes.now front.now ≡ true }
        requires begins { BeginsAt terms.now.classes.now terms.now.closed.now terms.now.row.now (length front.now) self.old }
        ensures end { result.1 ≤ 4001 }
        ensures can_take { CanTakeWithin terms.now.classes.now (length front.now) result.0 result.1 }
        ensures live { LiveWithin terms.now.classes.now front.now result.0 result.1 }
        ensures all { live_among terms.now.classes.now terms.now.closed.now terms.now.row.now terms.now.row.now.b front.now (counts_below result.0 result.1)
            ≡ live_children terms.now.classes.now terms.now.closed.now terms.now.row.now front.now }
        ensures stands { StandsAt terms.now.classes.now terms.now.closed.now terms.now.row.now (length front.now) (drop (length front.now + 1) terms.now.classes.now.classes) self.new }
        ensures counts { self.new.counts ≡ self.old.counts }
        ensures floor { self.new.floor ≡ self.old.floor }
    {
        let classes = terms.classes;
        classes.facts();
        let class = &classes.classes()[front.counts().len()];
        self.tally.begin_class(classes, front.counts());
        self.tally
            .range(classes, front.counts(), class.least(), class.most() + 1)
    }

    // Appends the live children of `front` with counts of the next class in `low..end`, the greatest first. Their size, values and
    // households must be within reach.
    pub(crate) fn push_children(
        &mut self,
        alloc: Global,
        terms: &Terms<'_>,
        front: &Front,
        low: usize,
        end: usize,
        children: &mut Vec<Front>,
    ) -> Result<(), AllocError>
        requires terms { AreTerms terms.now }
        requires below { length front.now < length terms.now.classes.now.classes }
        requires can_take { CanTakeWithin terms.now.classes.now (length front.now) low end }
        requires live { LiveWithin terms.now.classes.now front.now low end }
        requires front { take (length front.now) self.old.counts.items ≡ front.now }
        requires stands { StandsAt terms.now.classes.now terms.now.closed.now terms.now.row.now (length front.now) (drop (length front.now + 1) terms.now.classes.now.classes) self.old }
        ensures { OnOk result (children.new.items ≡ children.old.items
            ++ live_among terms.now.classes.now terms.now.closed.now terms.now.row.now self.old.floor front.now (counts_below low end)) }
    {
        if end <= low {
            return Ok(());
        }
        self.push_child(alloc, terms, front, end - 1, children)?;
        self.push_children(alloc, terms, front, low, end - 1, children)
    }

    // Appends the child of `front` with `count` of the next class, if it is live. Its size, values and households must be within reach.
    fn push_child(
        &mut self,
        alloc: Global,
        terms: &Terms<'_>,
        front: &Front,
        count: usize,
        children: &mut Vec<Front>,
    ) -> Result<(), AllocError>
        requires terms { AreTerms terms.now }
        requires below { length front.now < length terms.now.classes.now.classes }
        requires can_take { CanTake terms.now.classes.now (length front.now) count }
        requires live { is_reachable terms.now.classes.now (front.now ++ count ∷ []) ≡ true }
        requires front { take (length front.now) self.old.counts.items ≡ front.now }
        requires stands { StandsAt terms.now.classes.now terms.now.closed.now terms.now.row.now (length front.now) (drop (length front.now + 1) terms.now.classes.now.classes) self.old }
        ensures children { OnOk result (children.new.items ≡ children.old.items
            ++ live_among terms.now.classes.now terms.now.closed.now terms.now.row.now self.old.floor front.now (count ∷ [])) }
        ensures stands { StandsAt terms.now.classes.now terms.now.closed.now terms.now.row.now (length front.now) (drop (length front.now + 1) terms.now.classes.now.classes) self.new }
        ensures counts { self.new.counts ≡ self.old.counts }
        ensures floor { self.new.floor ≡ self.old.floor }
    {
        if !self.weights_allow(terms, front.counts().len(), count) {
            return Ok(());
        }
        children.push(front.child(alloc, count)?)?;
        Ok(())
    }

    #[cycle(search)]
    // Enters a reachable front of the first `depth` classes.
    fn enter(&mut self, terms: &Terms<'_>, depth: usize) -> Result<(), BudgetSpent>
        requires terms { AreTerms terms.now }
        requires few { self.old.visits ≤ self.old.nodes }
        requires stands { StandsAt terms.now.classes.now terms.now.closed.now terms.now.row.now depth (drop depth terms.now.classes.now.classes) self.old }
        ensures { Moves terms.now.classes.now terms.now.closed.now terms.now.row.now depth (drop depth terms.now.classes.now.classes)
            (enter_best terms.now.classes.now terms.now.closed.now terms.now.row.now (drop depth terms.now.classes.now.classes) (take depth self.old.counts.items) (pricing_of self.old))
            (take depth self.old.counts.items) self.old.nodes result self.new }
    {
        let classes = terms.classes;
        self.spend()?;
        if depth == classes.classes().len() {
            self.keep(terms);
            return Ok(());
        }
        classes.facts();
        let class = &classes.classes()[depth];
        self.tally.begin_class(classes, &self.counts[..depth]);
        let front = &self.counts[..depth];
        let (low, end) = self
            .tally
            .range(classes, front, class.least(), class.most() + 1);
        self.children(terms, depth, low, end)?;
        self.tally.end_class(classes, &self.counts[..depth]);
        Ok(())
    }

    #[cycle(search)]
    // Tries the children of the front with counts of the next class in `low..end`, the greatest first. Their size, values and households
    // must be within reach.
    fn children(
        &mut self,
        terms: &Terms<'_>,
        depth: usize,
        low: usize,
        end: usize,
    ) -> Result<(), BudgetSpent>
        requires terms { AreTerms terms.now }
        requires few { self.old.visits ≤ self.old.nodes }
        requires below { depth < length terms.now.classes.now.classes }
        requires can_take { CanTakeWithin terms.now.classes.now depth low end }
        requires end { end ≤ 4001 }
        requires live { LiveWithin terms.now.classes.now (take depth self.old.counts.items) low end }
        requires stands { StandsAt terms.now.classes.now terms.now.closed.now terms.now.row.now depth (drop (depth + 1) terms.now.classes.now.classes) self.old }
        ensures { Moves terms.now.classes.now terms.now.closed.now terms.now.row.now depth (drop (depth + 1) terms.now.classes.now.classes)
            (children_best terms.now.classes.now terms.now.closed.now terms.now.row.now (drop (depth + 1) terms.now.classes.now.classes) (take depth self.old.counts.items) (counts_below low end) (pricing_of self.old))
            (take depth self.old.counts.items) self.old.nodes result self.new }
    {
        if end <= low {
            return Ok(());
        }
        self.try_child(terms, depth, end - 1)?;
        self.children(terms, depth, low, end - 1)
    }

    #[cycle(search)]
    // Enters the child with `count` of the next class, if it is live. Its size, values and households must be within reach.
    fn try_child(
        &mut self,
        terms: &Terms<'_>,
        depth: usize,
        count: usize,
    ) -> Result<(), BudgetSpent>
        requires terms { AreTerms terms.now }
        requires few { self.old.visits ≤ self.old.nodes }
        requires below { depth < length terms.now.classes.now.classes }
        requires can_take { CanTake terms.now.classes.now depth count }
        requires count { count ≤ 4000 }
        requires live { is_reachable terms.now.classes.now (take depth self.old.counts.items ++ count ∷ []) ≡ true }
        requires stands { StandsAt terms.now.classes.now terms.now.closed.now terms.now.row.now depth (drop (depth + 1) terms.now.classes.now.classes) self.old }
        ensures { Moves terms.now.classes.now terms.now.closed.now terms.now.row.now depth (drop (depth + 1) terms.now.classes.now.classes)
            (child_best terms.now.classes.now terms.now.closed.now terms.now.row.now (drop (depth + 1) terms.now.classes.now.classes) (take depth self.old.counts.items ++ count ∷ []) (pricing_of self.old))
            (take depth self.old.counts.items) self.old.nodes result self.new }
    {
        let classes = terms.classes;
        classes.facts();
        if !self.weights_allow(terms, depth, count) {
            return Ok(());
        }
        self.tally.take(classes, &self.counts[..depth], count);
        self.counts[depth] = count;
        self.enter(terms, depth + 1)?;
        self.tally.give_back(classes, &self.counts[..depth], count);
        Ok(())
    }
}
