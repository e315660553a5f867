//! One wave whose pieces share a word, as its workers see it.

ghost use Rattle.std.specs.Prelude.{◌≡◌};
ghost use Rattle.panel_search.specs.Sharing.{IsBounded, MayStand};

use crate::wave::Wave;
use crate::workers::{Outcome, Pieces};
use panel_search::{Beaten, Scope};
use std::alloc::Global;
use std::marker::Model;
use std::sync::atomic::AtomicIn;

/// A wave, the word that its pieces share, and the greatest word that the workers of the waves before it have loaded.
#[derive(Drop)]
pub(crate) struct SharedWave<'a, S: Scope> {
    wave: &'a Wave<'a>,
    word: &'a AtomicIn<Beaten<S>>,
    handed: u64,
}

impl<'a, S: Scope> Model for SharedWave<'a, S> {
    ghost use Rattle.std.specs.Prelude.{◌≡◌};
    ghost use Rattle.panel_search.specs.Sharing.{IsBounded, MayStand};
    ghost use Rattle.pricing_pool.specs.Outcomes.{Wave as Seen};

    ghost Value = { Seen };

    ghost view = { λ w. w.wave.now };

    ghost invariant = { λ w. (S.priced ≡ w.wave.now.priced) × IsBounded w.wave.now.priced w.wave.now.floor 0 × MayStand w.wave.now.priced w.handed };
}

impl<'a, S: Scope> SharedWave<'a, S> {
    /// Returns `wave`, whose pieces share `word`, and whose workers begin with `handed`.
    pub(crate) fn new(
        wave: &'a Wave<'a>,
        word: &'a AtomicIn<Beaten<S>>,
        handed: u64,
    ) -> SharedWave<'a, S>
        requires priced { S.priced ≡ wave.now.priced }
        requires bounded { IsBounded wave.now.priced wave.now.floor 0 }
        requires stands { MayStand wave.now.priced handed }
        ensures { result ≡ wave.now }
    {
        SharedWave { wave, word, handed }
    }
}

impl<S: Scope> Pieces for SharedWave<'_, S> {
    ghost use Rattle.std.specs.Prelude.{length};
    ghost use Rattle.panel_search.specs.Sharing.{MayStand};
    ghost use Rattle.pricing_pool.specs.Sharing.{answers_shared};

    ghost answers = { answers_shared };

    ghost stands = { λ w n. MayStand w.priced n };

    ghost places = { λ w. length w.fronts };

    fn count(&self) -> usize {
        self.wave.count()
    }

    fn number(&self, place: usize) -> u64 {
        self.wave.number(place)
    }

    fn handed(&self) -> u64 {
        self.handed
    }

    fn searched(&self, alloc: Global, place: usize, word: &mut u64) -> Outcome {
        self.wave.shared(alloc, self.word, word, place)
    }
}
