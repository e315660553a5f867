//! The outcome of the waves so far whose pieces share a word.

ghost use Rattle.std.specs.Prelude.{◌≡◌, ◌≤◌, ◌-◌, length, max, pos};
ghost use Rattle.std.specs.Int.{int_max};
ghost use Rattle.pricing_pool.specs.Outcomes.{AreOfAll};
ghost use Rattle.pricing_pool.specs.Sharing.{SharesOn, answers_shared};
ghost use Rattle.pricing_pool.specs.SoFar.{pricing_so_far};
ghost use Rattle.panel_search.specs.Sharing.{IsBounded};
ghost use Rattle.define_searches.specs.Classes.{IsSearchable};
ghost use Rattle.define_searches.specs.Fronts.{HaveEntries};
ghost use Rattle.define_searches.specs.Waves.{wave as wave_of};
ghost use Rattle.std.specs.Prelude.{◌∷◌};

use crate::shared_wave::SharedWave;
use crate::wave::Wave;
use crate::waves::{SoFar, outcome_of};
use crate::workers::{Pieces, Told, work_side_by_side};
use outside::Watch;
use panel_search::{Beaten, Scope, SearchStop};
use std::alloc::Global;
use std::sync::atomic::AtomicIn;
use std::thread::Threads;

/// The outcome of the waves so far, and the greatest word that a worker has loaded. The floor is at least this word; what was kept is let
/// go once the word shows that it is beaten.
#[derive(Drop)]
pub(crate) struct SharedSoFar {
    pub(crate) so_far: SoFar,
    pub(crate) word: u64,
}

impl SharedSoFar {
    /// Searches a wave with `workers` workers, and adds the outcomes of its pieces in their order.
    pub(crate) fn take_wave<S: Scope + Send + Sync, R: Threads + Sync, W: Watch + Sync>(
        &mut self,
        rt: &R,
        alloc: Global,
        watch: &W,
        word: &AtomicIn<Beaten<S>>,
        wave: &Wave<'_>,
        workers: usize,
        nodes: u64,
    ) -> Result<(), SearchStop>
        requires some_worker { 1 ≤ workers }
        requires few_workers { workers ≤ 64 }
        requires searchable { IsSearchable wave.now.priced.classes }
        requires entries { HaveEntries wave.now.priced.classes (wave.now.priced.row ∷ wave.now.priced.closed) }
        requires within { self.old.so_far.visits ≤ nodes }
        requires floor { wave.now.floor ≡ self.old.so_far.floor }
        requires budget { wave.now.nodes ≡ nodes - self.old.so_far.visits }
        requires priced { S.priced ≡ wave.now.priced }
        requires bounded { IsBounded wave.now.priced self.old.so_far.floor self.old.word }
        ensures { SharesOn wave.now.priced (λ now. wave_of wave.now.priced.classes wave.now.priced.closed wave.now.priced.row now wave.now.fronts) nodes
            (pricing_so_far self.old.so_far) self.old.word result (pricing_so_far self.new.so_far) self.new.word }
    {
        let sharing = SharedWave::new(wave, word, self.word);
        let outcomes = work_side_by_side(rt, alloc, watch, &sharing, workers, 0, workers)?;
        self.take_outcomes(&outcomes, wave, workers, nodes)
    }

    /// Adds the outcomes of a wave, in the order of its pieces.
    fn take_outcomes(
        &mut self,
        outcomes: &[Vec<Told>],
        wave: &Wave<'_>,
        workers: usize,
        nodes: u64,
    ) -> Result<(), SearchStop>
        requires some_worker { 1 ≤ workers }
        requires few_workers { workers ≤ 64 }
        requires searchable { IsSearchable wave.now.priced.classes }
        requires entries { HaveEntries wave.now.priced.classes (wave.now.priced.row ∷ wave.now.priced.closed) }
        requires within { self.old.so_far.visits ≤ nodes }
        requires floor { wave.now.floor ≡ self.old.so_far.floor }
        requires budget { wave.now.nodes ≡ nodes - self.old.so_far.visits }
        requires bounded { IsBounded wave.now.priced self.old.so_far.floor self.old.word }
        requires outcomes { AreOfAll (answers_shared wave.now) workers 0 workers (length wave.now.fronts) outcomes.now }
        ensures { SharesOn wave.now.priced (λ now. wave_of wave.now.priced.classes wave.now.priced.closed wave.now.priced.row now wave.now.fronts) nodes
            (pricing_so_far self.old.so_far) self.old.word result (pricing_so_far self.new.so_far) self.new.word }
    {
        wave.facts();
        for place in 0..wave.count() {
            let (outcome, word) = outcome_of(outcomes, workers, place);
            self.raise(*word);
            self.so_far.take(outcome, nodes)?;
        }
        Ok(())
    }

    /// Raises the word and the floor to `word`. What was kept is let go if the floor rises.
    fn raise(&mut self, word: u64)
        ensures word { self.new.word ≡ max self.old.word word }
        ensures visits { self.new.so_far.visits ≡ self.old.so_far.visits }
        ensures floor { self.new.so_far.floor ≡ int_max self.old.so_far.floor (pos word) }
        ensures kept { self.new.so_far.floor ≡ self.old.so_far.floor → self.new.so_far.kept ≡ self.old.so_far.kept }
    {
        self.word = self.word.max(word);
        let floor = i128::from(word);
        if self.so_far.floor < floor {
            self.so_far.floor = floor;
            self.so_far.kept = None;
        }
    }
}
