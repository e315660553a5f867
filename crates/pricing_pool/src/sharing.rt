//! A whole pricing by workers that share a bound.

ghost use Rattle.std.specs.Prelude.{◌≡◌, ◌≤◌, ◌<◌, ◌*◌, [], ◌∷◌, length, take, drop, fold, pos, ◌≤ℤ◌};
ghost use Rattle.std.specs.List.{AllByRecursion};
ghost use Rattle.define_searches.specs.Compositions.{price};
ghost use Rattle.define_searches.specs.Fronts.{HaveEntries, HaveReach};
ghost use Rattle.define_searches.specs.Below.{IsFront};
ghost use Rattle.define_searches.specs.Waves.{best_in_waves, wave as wave_of, waves};
ghost use Rattle.panel_search.specs.Sharing.{IsBounded};
ghost use Rattle.pricing_pool.specs.Sharing.{AnswersSharing, SharesOn};
ghost use Rattle.pricing_pool.specs.SoFar.{pricing_so_far};

use crate::pricing::{WAVE, part_from};
use crate::shared_waves::SharedSoFar;
use crate::wave::Wave;
use crate::waves::SoFar;
use alike::{Classes, Composition};
use outside::Watch;
use panel_search::{Beaten, Front, PricedRow, Pricer, Row, Scope, SearchStop, pricer_of};
use std::alloc::Global;
use std::marker::Brand;
use std::sync::atomic::AtomicIn;
use std::thread::Threads;

/// Searches as `best_by` does, by workers that share a bound: a piece passes over fronts that can't weigh more than a composition that
/// another piece has found. The right side of `row` is at least 0. Returns the composition of `best_by`, and the visits, which depend on
/// how the threads run. They are at most those of `best_by`, and at most `nodes`.
///
/// Fails with `Spent` only if the visits of `best_by` exceed `nodes`. Memory may run out at any time.
pub fn best_sharing<R: Threads + Sync, W: Watch + Sync>(
    rt: &R,
    alloc: Global,
    workers: u32,
    watch: &W,
    classes: &Classes,
    closed: &[Row],
    row: &Row,
    nodes: u64,
) -> Result<(Option<Composition>, u64), SearchStop>
    requires some_worker { 1 ≤ workers }
    requires few_workers { workers ≤ 64 }
    requires entries { HaveEntries classes.now (row.now ∷ closed.now) }
    requires reaches { HaveReach classes.now (row.now ∷ closed.now) }
    requires positive { pos 0 ≤ℤ row.now.b }
    ensures { AnswersSharing (price classes.now closed.now row.now) (best_in_waves classes.now closed.now row.now).visits nodes result }
{
    let pricer = pricer_of(alloc, classes, closed)?;
    price_sharing(rt, alloc, workers, watch, &pricer, row, nodes)
}

/// Searches as `best_sharing` does, with the classes and the closed rows of `pricer`.
pub fn price_sharing<R: Threads + Sync, W: Watch + Sync>(
    rt: &R,
    alloc: Global,
    workers: u32,
    watch: &W,
    pricer: &Pricer<'_>,
    row: &Row,
    nodes: u64,
) -> Result<(Option<Composition>, u64), SearchStop>
    requires some_worker { 1 ≤ workers }
    requires few_workers { workers ≤ 64 }
    requires entries { HaveEntries pricer.now.classes (row.now ∷ []) }
    requires reach { HaveReach pricer.now.classes (row.now ∷ []) }
    requires positive { pos 0 ≤ℤ row.now.b }
    ensures { AnswersSharing (price pricer.now.classes pricer.now.closed row.now) (best_in_waves pricer.now.classes pricer.now.closed row.now).visits nodes result }
{
    let priced = pricer.priced(row)?;
    search_sharing::<Brand, R, W>(rt, alloc, workers as usize, watch, &priced, nodes)
}

/// Searches in waves for the best composition in a row that is priced, by workers that share a word.
fn search_sharing<S: Scope + Send + Sync, R: Threads + Sync, W: Watch + Sync>(
    rt: &R,
    alloc: Global,
    workers: usize,
    watch: &W,
    priced: &PricedRow<'_>,
    nodes: u64,
) -> Result<(Option<Composition>, u64), SearchStop>
    requires some_worker { 1 ≤ workers }
    requires few_workers { workers ≤ 64 }
    requires priced { S.priced ≡ priced.now }
    requires positive { pos 0 ≤ℤ priced.now.row.b }
    ensures { AnswersSharing (price priced.now.classes priced.now.closed priced.now.row) (best_in_waves priced.now.classes priced.now.closed priced.now.row).visits nodes result }
{
    priced.facts();
    let (fronts, visits) = priced.pieces(alloc, nodes)?;
    let word = AtomicIn::<Beaten<S>>::new(0);
    let mut shared = SharedSoFar {
        so_far: SoFar {
            visits,
            floor: priced.row().side(),
            kept: None,
        },
        word: 0,
    };
    take_waves(
        rt,
        alloc,
        watch,
        &word,
        priced,
        &fronts,
        workers,
        nodes,
        &mut shared,
    )?;
    Ok((shared.so_far.kept, shared.so_far.visits))
}

/// Searches the pieces of these fronts, wave after wave.
fn take_waves<S: Scope + Send + Sync, R: Threads + Sync, W: Watch + Sync>(
    rt: &R,
    alloc: Global,
    watch: &W,
    word: &AtomicIn<Beaten<S>>,
    priced: &PricedRow<'_>,
    fronts: &[Front],
    workers: usize,
    nodes: u64,
    shared: &mut SharedSoFar,
) -> Result<(), SearchStop>
    requires some_worker { 1 ≤ workers }
    requires few_workers { workers ≤ 64 }
    requires fronts { AllByRecursion (IsFront priced.now.classes) fronts.now }
    requires within { shared.old.so_far.visits ≤ nodes }
    requires priced { S.priced ≡ priced.now }
    requires bounded { IsBounded priced.now shared.old.so_far.floor shared.old.word }
    ensures { SharesOn priced.now (λ now. fold (wave_of priced.now.classes priced.now.closed priced.now.row) now (waves fronts.now)) nodes
        (pricing_so_far shared.old.so_far) shared.old.word result (pricing_so_far shared.new.so_far) shared.new.word }
{
    priced.facts();
    for number in 0..fronts.len().div_ceil(WAVE) {
        take_wave_of(
            rt, alloc, watch, word, priced, fronts, number, workers, nodes, shared,
        )?;
    }
    Ok(())
}

/// Searches wave `number`, counted from 0.
fn take_wave_of<S: Scope + Send + Sync, R: Threads + Sync, W: Watch + Sync>(
    rt: &R,
    alloc: Global,
    watch: &W,
    word: &AtomicIn<Beaten<S>>,
    priced: &PricedRow<'_>,
    fronts: &[Front],
    number: usize,
    workers: usize,
    nodes: u64,
    shared: &mut SharedSoFar,
) -> Result<(), SearchStop>
    requires some_worker { 1 ≤ workers }
    requires few_workers { workers ≤ 64 }
    requires there { 16 * number < length fronts.now }
    requires fronts { AllByRecursion (IsFront priced.now.classes) fronts.now }
    requires within { shared.old.so_far.visits ≤ nodes }
    requires priced { S.priced ≡ priced.now }
    requires bounded { IsBounded priced.now shared.old.so_far.floor shared.old.word }
    ensures { SharesOn priced.now (λ now. wave_of priced.now.classes priced.now.closed priced.now.row now (take 16 (drop (16 * number) fronts.now))) nodes
        (pricing_so_far shared.old.so_far) shared.old.word result (pricing_so_far shared.new.so_far) shared.new.word }
{
    priced.facts();
    let start = WAVE * number;
    let part = part_from(fronts, start);
    let budget = nodes - shared.so_far.visits;
    let wave = Wave::new(priced, part, start as u64, shared.so_far.floor, budget);
    let workers = workers.min(part.len());
    shared.take_wave(rt, alloc, watch, word, &wave, workers, nodes)
}
