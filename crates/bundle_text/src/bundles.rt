//! Bundles as values: a pool with its answer, whose numbers are in the ranges of a bundle.

ghost use Rattle.std.specs.Prelude.{◌≡◌, ◌↔◌, IfOk, IfSome, IsSome};
ghost use Rattle.define_bundles.specs.Ranges.{IsInRanges};
ghost use Rattle.define_bundles.specs.BundleText.{IsBundle};

use crate::ranges::is_in_ranges;
use pool_model::{Answer, Pool};
use std::alloc::AllocError;
use std::marker::Model;

/// A pool with its answer, whose numbers are in the ranges of a bundle: the total and the panels' weights are from 1 to 10^38; there is
/// at least one panel and at least one stage; a panel has at least one member, and each member is a volunteer of the pool; a stage has
/// one weight per volunteer, and a reach of at most 2^127 - 1.
#[derive(Debug, Drop)]
pub struct Bundle {
    pool: Pool,
    answer: Answer,
}

impl Model for Bundle {
    ghost use Rattle.define_bundles.specs.BundleText.{Bundle as Seen};
    ghost use Rattle.define_bundles.specs.Ranges.{IsInRanges};

    ghost Value = { Seen };

    ghost view = { λ b. record { pool = b.pool; answer = b.answer } };

    ghost invariant = { λ b. IsInRanges b.pool b.answer };
}

impl Bundle {
    /// Returns the bundle of this pool and answer, exactly if the answer's numbers are in the ranges.
    pub fn new(pool: Pool, answer: Answer) -> Option<Bundle>
        ensures value { IfSome result (λ bundle. bundle ≡ record { pool = pool; answer = answer }) }
        ensures exact { IsSome result ↔ IsInRanges pool answer }
    {
        if is_in_ranges(&pool, &answer) {
            Some(Bundle { pool, answer })
        } else {
            None
        }
    }

    /// Returns the pool.
    pub fn pool(&self) -> &Pool
        ensures { result.now ≡ self.now.pool }
    {
        &self.pool
    }

    /// Returns the answer.
    pub fn answer(&self) -> &Answer
        ensures value { result.now ≡ self.now.answer }
        ensures in_ranges { IsInRanges self.now.pool self.now.answer }
    {
        &self.answer
    }

    /// Does nothing; its contract says what holds of each bundle.
    pub fn facts(&self)
        ensures { IsBundle self.now }
    {
        self.pool.facts();
    }

    /// Returns an equal bundle.
    pub fn copy(&self) -> Result<Bundle, AllocError>
        ensures { IfOk result (λ copied. copied ≡ self.now) }
    {
        Ok(Bundle {
            pool: self.pool.copy()?,
            answer: self.answer.copy()?,
        })
    }
}
