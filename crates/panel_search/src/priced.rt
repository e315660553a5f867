//! A row that is priced over closed rows, with all that the searches of its pricing read. `pricing_pool` shares it among its workers.

ghost use Rattle.std.specs.Prelude.{◌≡◌, ◌≤◌, ◌∷◌, IfOk};
ghost use Rattle.define_searches.specs.Classes.{IsSearchable};
ghost use Rattle.define_searches.specs.Fronts.{HaveEntries};
ghost use Rattle.std.specs.List.{AllByRecursion};
ghost use Rattle.panel_search.specs.Answers.{AnswersBest, AnswersPieces, AnswersWeighed};
ghost use Rattle.panel_search.specs.Pricers.{ArePriced};
ghost use Rattle.panel_search.specs.Sharing.{AnswersShared, IsBounded, MayStand};
ghost use Rattle.panel_search.specs.Terms.{AreTerms};
ghost use Rattle.define_searches.specs.Below.{IsFront, best_below, search_from};
ghost use Rattle.define_searches.specs.Waves.{pieces};

use crate::dividing::pieces;
use crate::fronts::Front;
use crate::greatest::Sums;
use crate::pricing::{Terms, search_from, search_weighed};
use crate::searching::SearchStop;
use crate::sharing::search_sharing;
use crate::word::{Beaten, Scope};
use alike::{Classes, Composition};
use define_rows::Row;
use std::alloc::Global;
use std::marker::Model;
use std::sync::atomic::AtomicIn;

/// A row that is priced over closed rows, with the greatest sums of units that classes give in each of them. The searches of a pricing
/// change none of it, so they may read it side by side.
#[derive(Debug, Drop)]
pub struct PricedRow<'p> {
    classes: &'p Classes,
    closed: &'p [Row],
    closed_sums: &'p [Sums],
    row: &'p Row,
    sums: Sums,
}

impl<'p> Model for PricedRow<'p> {
    ghost use Rattle.panel_search.specs.Pricers.{Priced};

    ghost Value = { Priced };

    ghost use Rattle.panel_search.specs.Pricers.{ArePriced};

    ghost view = { λ p. record { classes = p.classes.now; closed = p.closed.now; row = p.row.now } };

    ghost invariant = { λ p. ArePriced p.classes.now p.closed.now p.row.now p.closed_sums.now p.sums };
}

impl<'p> PricedRow<'p> {
    // Returns `row`, whose greatest sums are `sums`, as a row that is priced over the closed rows, whose greatest sums are `closed_sums`.
    pub(crate) fn new(
        classes: &'p Classes,
        closed: &'p [Row],
        closed_sums: &'p [Sums],
        row: &'p Row,
        sums: Sums,
    ) -> PricedRow<'p>
        requires { ArePriced classes.now closed.now row.now closed_sums.now sums }
        ensures { result ≡ record { classes = classes.now; closed = closed.now; row = row.now } }
    {
        PricedRow {
            classes,
            closed,
            closed_sums,
            row,
            sums,
        }
    }

    /// Returns the classes that the rows are over.
    pub fn classes(&self) -> &'p Classes
        ensures { result.now ≡ self.now.classes }
    {
        self.classes
    }

    /// Returns the row that is priced.
    pub fn row(&self) -> &'p Row
        ensures { result.now ≡ self.now.row }
    {
        self.row
    }

    /// Does nothing; its contract says what holds: the classes can be searched, and each row has one entry per class.
    pub fn facts(&self)
        ensures searchable { IsSearchable self.now.classes }
        ensures entries { HaveEntries self.now.classes (self.now.row ∷ self.now.closed) }
    {
        self.classes.facts();
    }

    // Returns what the searches read.
    pub(crate) fn terms(&self) -> Terms<'_>
        ensures terms { AreTerms result }
        ensures classes { result.classes.now ≡ self.now.classes }
        ensures closed { result.closed.now ≡ self.now.closed }
        ensures row { result.row.now ≡ self.now.row }
    {
        Terms {
            classes: self.classes,
            closed: self.closed,
            closed_sums: self.closed_sums,
            row: self.row,
            sums: &self.sums,
        }
    }

    /// Returns the fronts of the pieces of the search in waves, in order, and the number of visits made to find them. Fails with `Spent` if
    /// the visits exceed `nodes`. If the empty front isn't live, there is no piece, and one visit. Each front has at most one count for
    /// each class, from the class's least to its most.
    pub fn pieces(&self, alloc: Global, nodes: u64) -> Result<(Vec<Front>, u64), SearchStop>
        ensures answers { AnswersPieces (pieces self.now.classes self.now.closed self.now.row) nodes result }
        ensures fronts { IfOk result (λ answer. AllByRecursion (IsFront self.now.classes) answer.0.items) }
    {
        self.classes.facts();
        pieces(alloc, &self.terms(), nodes)
    }

    /// Searches the compositions that begin with a front, weigh at least the right side in each closed row, and weigh more than the floor
    /// in the priced row. Returns the one of greatest weight in this row, the first of equals, or None if there is none; and the visits of
    /// the search. Fails with `Spent` if these are more than `nodes`. If the front isn't live above the floor, there is no visit. The front
    /// has at most one count for each class, from the class's least to its most. All memory is taken before the first visit.
    #[tactic(auto, using(crate::proofs::Kept::front_within))]
    pub fn best_from(
        &self,
        alloc: Global,
        front: &Front,
        floor: i128,
        nodes: u64,
    ) -> Result<(Option<Composition>, u64), SearchStop>
        requires { IsFront self.now.classes front.now }
        ensures answers { AnswersBest (search_from self.now.classes self.now.closed self.now.row front.now floor) nodes result }
        ensures best { IfOk result (λ answer. answer.0 ≡ best_below self.now.classes self.now.closed self.now.row front.now floor) }
    {
        self.classes.facts();
        search_from(alloc, &self.terms(), front.counts(), floor, nodes)
    }

    /// Searches like `best_from`, and also returns the weight that the found composition has in the row.
    #[tactic(auto, using(crate::proofs::Kept::front_within))]
    pub fn weighed_from(
        &self,
        alloc: Global,
        front: &Front,
        floor: i128,
        nodes: u64,
    ) -> Result<(Option<(Composition, i128)>, u64), SearchStop>
        requires { IsFront self.now.classes front.now }
        ensures { AnswersWeighed (search_from self.now.classes self.now.closed self.now.row front.now floor) nodes result }
    {
        self.classes.facts();
        search_weighed(alloc, &self.terms(), front.counts(), floor, nodes)
    }

    /// Searches like `weighed_from`, and shares `word` with other searches of this pricing. `seen` is the greatest word that the worker has
    /// loaded, and the search goes on from it. A front is live only if its optimistic weight exceeds it too. The floor is at least 0 and at
    /// least the row's right side. Fails with `Spent` only if the visits of `weighed_from` exceed `nodes`.
    #[tactic(auto, using(crate::proofs::Kept::front_within))]
    pub fn shared_from<S: Scope>(
        &self,
        alloc: Global,
        word: &AtomicIn<Beaten<S>>,
        seen: &mut u64,
        front: &Front,
        floor: i128,
        nodes: u64,
    ) -> Result<(Option<(Composition, i128)>, u64), SearchStop>
        requires priced { S.priced ≡ self.now }
        requires front { IsFront self.now.classes front.now }
        requires bounded { IsBounded self.now floor 0 }
        requires stands { MayStand self.now seen.old }
        ensures no_less { seen.old ≤ seen.new }
        ensures stands { MayStand self.now seen.new }
        ensures answers { AnswersShared self.now front.now floor nodes result seen.new }
    {
        self.classes.facts();
        search_sharing(
            alloc,
            &self.terms(),
            word,
            seen,
            front.counts(),
            floor,
            nodes,
        )
    }
}
