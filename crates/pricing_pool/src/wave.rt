//! One wave, as its workers see it.

ghost use Rattle.std.specs.Prelude.{◌≡◌, ◌≤◌, ◌<◌, [], length, slice_index_or};
ghost use Rattle.std.specs.List.{AllByRecursion};
ghost use Rattle.define_searches.specs.Below.{IsFront};
ghost use Rattle.panel_search.specs.Sharing.{AnswersShared, IsBounded, MayStand};

use crate::workers::{Outcome, Pieces};
use panel_search::{Beaten, Front, PricedRow, Scope};
use std::alloc::Global;
use std::marker::Model;
use std::sync::atomic::AtomicIn;

/// A wave: the fronts of its pieces, with the number of the first; the floor; and how many visits each piece may make.
#[derive(Drop)]
pub(crate) struct Wave<'a> {
    priced: &'a PricedRow<'a>,
    fronts: &'a [Front],
    first: u64,
    floor: i128,
    nodes: u64,
}

impl<'a> Model for Wave<'a> {
    ghost use Rattle.std.specs.Prelude.{◌≤◌, length};
    ghost use Rattle.std.specs.List.{AllByRecursion};
    ghost use Rattle.define_searches.specs.Below.{IsFront};
    ghost use Rattle.pricing_pool.specs.Outcomes.{Wave as Seen};

    ghost Value = { Seen };

    ghost view = { λ w. record { priced = w.priced.now; fronts = w.fronts.now; floor = w.floor; nodes = w.nodes } };

    ghost invariant = { λ w. (length w.fronts.now ≤ 16) × AllByRecursion (IsFront w.priced.now.classes) w.fronts.now };
}

impl<'a> Wave<'a> {
    /// Returns the wave of at most 16 pieces below these fronts; `first` is the number of the first piece.
    pub(crate) fn new(
        priced: &'a PricedRow<'a>,
        fronts: &'a [Front],
        first: u64,
        floor: i128,
        nodes: u64,
    ) -> Wave<'a>
        requires short { length fronts.now ≤ 16 }
        requires fronts { AllByRecursion (IsFront priced.now.classes) fronts.now }
        ensures { result ≡ record { priced = priced.now; fronts = fronts.now; floor = floor; nodes = nodes } }
    {
        Wave {
            priced,
            fronts,
            first,
            floor,
            nodes,
        }
    }

    /// Does nothing; its contract says what holds of the wave's fronts.
    pub(crate) fn facts(&self)
        ensures { AllByRecursion (IsFront self.now.priced.classes) self.now.fronts }
    {
        let _ = &self.fronts;
    }

    /// Searches the piece at `place`, and shares `word` with the other pieces. `seen` is the greatest word that the worker has loaded.
    pub(crate) fn shared<S: Scope>(
        &self,
        alloc: Global,
        word: &AtomicIn<Beaten<S>>,
        seen: &mut u64,
        place: usize,
    ) -> Outcome
        requires place { place < length self.now.fronts }
        requires priced { S.priced ≡ self.now.priced }
        requires bounded { IsBounded self.now.priced self.now.floor 0 }
        requires stands { MayStand self.now.priced seen.old }
        ensures stands { MayStand self.now.priced seen.new }
        ensures answers { AnswersShared self.now.priced (slice_index_or self.now.fronts place []) self.now.floor self.now.nodes result seen.new }
    {
        let fronts = self.fronts;
        let front = &fronts[place];
        self.priced
            .shared_from(alloc, word, seen, front, self.floor, self.nodes)
    }
}

impl Pieces for Wave<'_> {
    ghost use Rattle.std.specs.Prelude.{length};
    ghost use Rattle.pricing_pool.specs.Outcomes.{answers_alone};

    ghost answers = { answers_alone };

    ghost stands = { λ w n. Unit {0} };

    ghost places = { λ w. length w.fronts };

    fn count(&self) -> usize {
        self.fronts.len()
    }

    fn number(&self, place: usize) -> u64 {
        self.first.saturating_add(place as u64)
    }

    fn handed(&self) -> u64 {
        0
    }

    fn searched(&self, alloc: Global, place: usize, _word: &mut u64) -> Outcome {
        self.priced
            .weighed_from(alloc, &self.fronts[place], self.floor, self.nodes)
    }
}
