//! The workers of a wave. Worker j of w searches the pieces whose place in the wave is j modulo w, one after the other. If the pieces share
//! a word, the worker keeps the greatest word that it has loaded, from piece to piece. Rattle drops a thread closure's `ensures` if the
//! closure captures a type with a lifetime, so this module is generic over `Pieces`.

ghost use Rattle.std.specs.Prelude.{ℕ, ◌≡◌, ◌≤◌, ◌<◌, ◌+◌, IfOk};
ghost use Rattle.std.specs.Thread.{IsSync};
ghost use Rattle.pricing_pool.specs.Outcomes.{AreOf, AreOfAll, AreTogether, Told as ToldOf};

use alike::Composition;
use outside::Watch;
use panel_search::SearchStop;
use std::alloc::{AllocError, Global};
use std::thread::{Threads, join};

/// What the search of a piece answers: the best composition below its front with its weight, and the visits.
pub(crate) type Outcome = Result<(Option<(Composition, i128)>, u64), SearchStop>;

/// What a worker tells of a piece: its outcome, and the greatest word that the worker has loaded by then.
pub(crate) type Told = (Outcome, u64);

/// The pieces of a wave, which may be searched side by side.
pub(crate) trait Pieces {
    /// What a worker may tell of the piece at a place.
    ghost answers: { Self → ℕ → ToldOf → Type 0 };

    /// The rule of the word that the pieces share.
    ghost stands: { Self → ℕ → Type 0 };

    /// How many pieces there are.
    ghost places: { Self → ℕ };

    fn count(&self) -> usize
        ensures value { result ≡ places self.now }
        ensures few { result ≤ 16 };

    /// Returns the number of the piece at `place`, among all pieces of the pricing.
    fn number(&self, place: usize) -> u64;

    /// Returns the word that each worker begins with.
    fn handed(&self) -> u64
        ensures { stands self.now result };

    /// Searches the piece at `place`. `word` is the greatest word that the worker has loaded.
    fn searched(&self, alloc: Global, place: usize, word: &mut u64) -> Outcome
        requires place { place < places self.now }
        requires stands { stands self.now word.old }
        ensures stands { stands self.now word.new }
        ensures answers { answers self.now place (result, word.new) };
}

/// Searches the pieces of worker `worker` of `workers`, and returns their outcomes in order.
fn work<P: Pieces, W: Watch>(
    alloc: Global,
    watch: &W,
    pieces: &P,
    workers: usize,
    worker: usize,
) -> Result<Vec<Told>, AllocError>
    requires some { 1 ≤ workers }
    requires few { workers ≤ 64 }
    requires one { worker ≤ 64 }
    ensures { IfOk result (λ outcomes. AreOf (P.answers pieces.now) workers worker (P.places pieces.now) outcomes.items) }
{
    let mut outcomes = Vec::new(alloc);
    let count = pieces.count();
    let mut word = pieces.handed();
    let mut place = worker;
    while place < count {
        watch.piece(pieces.number(place));
        let outcome = pieces.searched(alloc, place, &mut word);
        outcomes.push((outcome, word))?;
        place += workers;
    }
    Ok(outcomes)
}

/// Searches the pieces of `count` workers, from worker `from` on, side by side on threads. There are `workers` in all. Returns the
/// outcomes, a list for each worker.
pub(crate) fn work_side_by_side<R: Threads + Sync, P: Pieces + Sync, W: Watch + Sync>(
    rt: &R,
    alloc: Global,
    watch: &W,
    pieces: &P,
    workers: usize,
    from: usize,
    count: usize,
) -> Result<Vec<Vec<Told>>, AllocError>
    requires some { 1 ≤ count }
    requires within { from + count ≤ workers }
    requires few { workers ≤ 64 }
    ensures { IfOk result (λ all. AreOfAll (P.answers pieces.now) workers from count (P.places pieces.now) all.items) }
{
    if count == 1 {
        let mut one = Vec::new(alloc);
        one.push(work(alloc, watch, pieces, workers, from)?)?;
        return Ok(one);
    }
    let half = count / 2;
    let others = count - half;
    let middle = from + half;
    let (left, right) = join(
        rt,
        || -> Result<Vec<Vec<Told>>, AllocError>
            requires { IsSync R.row × IsSync P.row × IsSync W.row × (1 ≤ half) × (from + half ≤ workers) × (workers ≤ 64) }
            ensures { IfOk result (λ all. AreOfAll (P.answers pieces.entry.now) workers from half (P.places pieces.entry.now) all.items) }
        { work_side_by_side(rt, alloc, watch, pieces, workers, from, half) },
        || -> Result<Vec<Vec<Told>>, AllocError>
            requires { IsSync R.row × IsSync P.row × IsSync W.row × (1 ≤ others) × (middle + others ≤ workers) × (workers ≤ 64) }
            ensures { IfOk result (λ all. AreOfAll (P.answers pieces.entry.now) workers middle others (P.places pieces.entry.now) all.items) }
        { work_side_by_side(rt, alloc, watch, pieces, workers, middle, others) },
    );
    together(left, right)
}

/// Returns the lists of `left`, then those of `right`. Fails if one of the two failed.
fn together(
    left: Result<Vec<Vec<Told>>, AllocError>,
    right: Result<Vec<Vec<Told>>, AllocError>,
) -> Result<Vec<Vec<Told>>, AllocError>
    ensures { IfOk result (λ all. AreTogether left right all.items) }
{
    let mut all = left?;
    all.append(&mut right?)?;
    Ok(all)
}
