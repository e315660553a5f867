//! The outcome of the waves so far.

ghost use Rattle.std.specs.Prelude.{◌≡◌, ◌≤◌, ◌-◌, length, Err, OnOk, OnErr};
ghost use Rattle.std.specs.List.{AllByRecursion};
ghost use Rattle.pricing_pool.specs.Outcomes.{AreOfAll, HasAnswer, IsAnswer, answers_alone};
ghost use Rattle.pricing_pool.specs.SoFar.{CameTo, GoesOn, heavier, pricing_so_far};
ghost use Rattle.panel_search.specs.declared.searching.SearchStop.TheVariants.{OutOfMemory};
ghost use Rattle.define_searches.specs.Below.{IsFront};
ghost use Rattle.define_searches.specs.Waves.{wave as wave_of};

use crate::wave::Wave;
use crate::workers::{Outcome, Pieces, Told, work_side_by_side};
use alike::Composition;
use outside::Watch;
use panel_search::SearchStop;
use std::alloc::Global;
use std::thread::Threads;

/// The outcome of the waves so far: the visits; the floor; and the composition that was kept last, if there is one, whose weight is the
/// floor.
#[derive(Drop)]
pub(crate) struct SoFar {
    pub(crate) visits: u64,
    pub(crate) floor: i128,
    pub(crate) kept: Option<Composition>,
}

impl SoFar {
    /// Searches a wave with `workers` workers, and adds the outcomes of its pieces in their order. Fails with `Spent` if the visits exceed
    /// `nodes`.
    pub(crate) fn take_wave<R: Threads + Sync, W: Watch + Sync>(
        &mut self,
        rt: &R,
        alloc: Global,
        watch: &W,
        wave: &Wave<'_>,
        workers: usize,
        nodes: u64,
    ) -> Result<(), SearchStop>
        requires some_worker { 1 ≤ workers }
        requires few_workers { workers ≤ 64 }
        requires within { self.old.visits ≤ nodes }
        requires floor { wave.now.floor ≡ self.old.floor }
        requires budget { wave.now.nodes ≡ nodes - self.old.visits }
        ensures { GoesOn (wave_of wave.now.priced.classes wave.now.priced.closed wave.now.priced.row (pricing_so_far self.old) wave.now.fronts) nodes result (pricing_so_far self.new) }
    {
        let outcomes = work_side_by_side(rt, alloc, watch, wave, workers, 0, workers)?;
        self.take_outcomes(&outcomes, wave, workers, nodes)
    }

    /// Adds the outcomes of a wave, in the order of its pieces.
    fn take_outcomes(
        &mut self,
        outcomes: &[Vec<Told>],
        wave: &Wave<'_>,
        workers: usize,
        nodes: u64,
    ) -> Result<(), SearchStop>
        requires some_worker { 1 ≤ workers }
        requires few_workers { workers ≤ 64 }
        requires within { self.old.visits ≤ nodes }
        requires floor { wave.now.floor ≡ self.old.floor }
        requires budget { wave.now.nodes ≡ nodes - self.old.visits }
        requires outcomes { AreOfAll (answers_alone wave.now) workers 0 workers (length wave.now.fronts) outcomes.now }
        ensures { GoesOn (wave_of wave.now.priced.classes wave.now.priced.closed wave.now.priced.row (pricing_so_far self.old) wave.now.fronts) nodes result (pricing_so_far self.new) }
    {
        for place in 0..wave.count() {
            let (outcome, _) = outcome_of(outcomes, workers, place);
            self.take(outcome, nodes)?;
        }
        Ok(())
    }

    /// Adds the outcome of a piece. Fails if the piece failed, or with `Spent` if the visits would exceed `nodes`.
    pub(crate) fn take(&mut self, outcome: &Outcome, nodes: u64) -> Result<(), SearchStop>
        requires { self.old.visits ≤ nodes }
        ensures { CameTo outcome.now nodes result (pricing_so_far self.old) (pricing_so_far self.new) }
    {
        match outcome {
            Ok((found, visits)) => {
                if nodes - self.visits < *visits {
                    return Err(SearchStop::Spent);
                }
                self.visits += *visits;
                self.keep_heavier(found)
            }
            Err(SearchStop::Spent) => Err(SearchStop::Spent),
            Err(SearchStop::OutOfMemory) => Err(SearchStop::OutOfMemory),
        }
    }

    /// Keeps a composition that a piece found, if it weighs more than the floor. Its weight is then the floor.
    fn keep_heavier(&mut self, found: &Option<(Composition, i128)>) -> Result<(), SearchStop>
        ensures ok { OnOk result (pricing_so_far self.new ≡ heavier found.now (pricing_so_far self.old)) }
        ensures err { OnErr result (result ≡ Err OutOfMemory) }
    {
        if let Some((composition, weight)) = found
            && self.floor < *weight
        {
            self.kept = Some(composition.copy()?);
            self.floor = *weight;
        }
        Ok(())
    }
}

/// Returns what was told of the piece at place `place` of a wave that `workers` workers searched.
pub(crate) fn outcome_of<'o>(outcomes: &'o [Vec<Told>], workers: usize, place: usize) -> &'o Told
    requires some { 1 ≤ workers }
    requires all { HasAnswer outcomes.now workers place }
    ensures { IsAnswer outcomes.now workers place result.now }
{
    &outcomes[place % workers][place / workers]
}
