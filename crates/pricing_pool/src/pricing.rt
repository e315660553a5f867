//! A whole pricing, wave after wave.

ghost use Rattle.std.specs.Prelude.{◌≡◌, ◌≤◌, ◌<◌, ◌*◌, [], ◌∷◌, length, take, drop, fold, IfOk};
ghost use Rattle.std.specs.List.{AllByRecursion};
ghost use Rattle.panel_search.specs.Answers.{AnswersBest};
ghost use Rattle.pricing_pool.specs.SoFar.{GoesOn, pricing_so_far};
ghost use Rattle.define_searches.specs.Compositions.{price};
ghost use Rattle.define_searches.specs.Fronts.{HaveEntries, HaveReach};
ghost use Rattle.define_searches.specs.Below.{IsFront};
ghost use Rattle.define_searches.specs.Waves.{best_in_waves, wave as wave_of, waves};

use crate::wave::Wave;
use crate::waves::SoFar;
use alike::{Classes, Composition};
use outside::Watch;
use panel_search::{Front, PricedRow, Pricer, Row, SearchStop, pricer_of};
use std::alloc::Global;
use std::thread::Threads;

/// How many pieces each wave has, except the last one, which may have fewer.
pub(crate) const WAVE: usize = 16;

/// Searches the compositions that weigh at least the right side in each closed row, and more than its right side in `row`. Returns the one
/// of greatest weight in `row`, the first of equals, or None if there is none; and the visits of the search in waves. From 1 to 64 workers
/// search its pieces on threads, and the watch is told the number of each piece as it starts. Neither changes the answer.
///
/// Each of the rows has one entry per class and a reach below 2^127. The reach is the absolute value of the right side, plus that of each
/// entry times its class's size. Fails with `Spent` exactly if the visits exceed `nodes`, unless memory runs out, which is allowed at any
/// time.
pub fn best_by<R: Threads + Sync, W: Watch + Sync>(
    rt: &R,
    alloc: Global,
    workers: u32,
    watch: &W,
    classes: &Classes,
    closed: &[Row],
    row: &Row,
    nodes: u64,
) -> Result<(Option<Composition>, u64), SearchStop>
    requires some_worker { 1 ≤ workers }
    requires few_workers { workers ≤ 64 }
    requires entries { HaveEntries classes.now (row.now ∷ closed.now) }
    requires reaches { HaveReach classes.now (row.now ∷ closed.now) }
    ensures answers { AnswersBest (best_in_waves classes.now closed.now row.now) nodes result }
    ensures best { IfOk result (λ answer. answer.0 ≡ price classes.now closed.now row.now) }
{
    let pricer = pricer_of(alloc, classes, closed)?;
    price_by(rt, alloc, workers, watch, &pricer, row, nodes)
}

/// Searches as `best_by` does, with the classes and the closed rows of `pricer`.
pub fn price_by<R: Threads + Sync, W: Watch + Sync>(
    rt: &R,
    alloc: Global,
    workers: u32,
    watch: &W,
    pricer: &Pricer<'_>,
    row: &Row,
    nodes: u64,
) -> Result<(Option<Composition>, u64), SearchStop>
    requires some_worker { 1 ≤ workers }
    requires few_workers { workers ≤ 64 }
    requires entries { HaveEntries pricer.now.classes (row.now ∷ []) }
    requires reach { HaveReach pricer.now.classes (row.now ∷ []) }
    ensures answers { AnswersBest (best_in_waves pricer.now.classes pricer.now.closed row.now) nodes result }
    ensures best { IfOk result (λ answer. answer.0 ≡ price pricer.now.classes pricer.now.closed row.now) }
{
    let priced = pricer.priced(row)?;
    search_waves(rt, alloc, workers as usize, watch, &priced, nodes)
}

/// Searches in waves for the best composition in a row that is priced.
fn search_waves<R: Threads + Sync, W: Watch + Sync>(
    rt: &R,
    alloc: Global,
    workers: usize,
    watch: &W,
    priced: &PricedRow<'_>,
    nodes: u64,
) -> Result<(Option<Composition>, u64), SearchStop>
    requires some_worker { 1 ≤ workers }
    requires few_workers { workers ≤ 64 }
    ensures answers { AnswersBest (best_in_waves priced.now.classes priced.now.closed priced.now.row) nodes result }
    ensures best { IfOk result (λ answer. answer.0 ≡ price priced.now.classes priced.now.closed priced.now.row) }
{
    priced.facts();
    let (fronts, visits) = priced.pieces(alloc, nodes)?;
    let mut so_far = SoFar {
        visits,
        floor: priced.row().side(),
        kept: None,
    };
    take_waves(
        rt,
        alloc,
        watch,
        priced,
        &fronts,
        workers,
        nodes,
        &mut so_far,
    )?;
    Ok((so_far.kept, so_far.visits))
}

/// Searches the pieces of these fronts, wave after wave.
fn take_waves<R: Threads + Sync, W: Watch + Sync>(
    rt: &R,
    alloc: Global,
    watch: &W,
    priced: &PricedRow<'_>,
    fronts: &[Front],
    workers: usize,
    nodes: u64,
    so_far: &mut SoFar,
) -> Result<(), SearchStop>
    requires some_worker { 1 ≤ workers }
    requires few_workers { workers ≤ 64 }
    requires fronts { AllByRecursion (IsFront priced.now.classes) fronts.now }
    requires within { so_far.old.visits ≤ nodes }
    ensures { GoesOn (fold (wave_of priced.now.classes priced.now.closed priced.now.row) (pricing_so_far so_far.old) (waves fronts.now)) nodes result (pricing_so_far so_far.new) }
{
    for number in 0..fronts.len().div_ceil(WAVE) {
        take_wave_of(
            rt, alloc, watch, priced, fronts, number, workers, nodes, so_far,
        )?;
    }
    Ok(())
}

/// Searches wave `number`, counted from 0.
fn take_wave_of<R: Threads + Sync, W: Watch + Sync>(
    rt: &R,
    alloc: Global,
    watch: &W,
    priced: &PricedRow<'_>,
    fronts: &[Front],
    number: usize,
    workers: usize,
    nodes: u64,
    so_far: &mut SoFar,
) -> Result<(), SearchStop>
    requires some_worker { 1 ≤ workers }
    requires few_workers { workers ≤ 64 }
    requires there { 16 * number < length fronts.now }
    requires fronts { AllByRecursion (IsFront priced.now.classes) fronts.now }
    requires within { so_far.old.visits ≤ nodes }
    ensures { GoesOn (wave_of priced.now.classes priced.now.closed priced.now.row (pricing_so_far so_far.old) (take 16 (drop (16 * number) fronts.now))) nodes result (pricing_so_far so_far.new) }
{
    let start = WAVE * number;
    let part = part_from(fronts, start);
    let budget = nodes - so_far.visits;
    let wave = Wave::new(priced, part, start as u64, so_far.floor, budget);
    so_far.take_wave(rt, alloc, watch, &wave, workers.min(part.len()), nodes)
}

/// Returns the fronts of the wave whose first front is at place `start`.
pub(crate) fn part_from(fronts: &[Front], start: usize) -> &[Front]
    requires { start < length fronts.now }
    ensures part { result.now ≡ take 16 (drop start fronts.now) }
    ensures some { 1 ≤ length result.now }
    ensures short { length result.now ≤ 16 }
{
    let later = &fronts[start..];
    if WAVE < later.len() {
        &later[..WAVE]
    } else {
        later
    }
}
