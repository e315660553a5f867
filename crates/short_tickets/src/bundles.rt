//! Bundles whose lottery is shortened.

ghost use Rattle.std.specs.Prelude.{◌≡◌, ◌^◌, ◌≤ℤ◌, pos, unsigned_abs, IfOk};
ghost use Rattle.define_pools.specs.Lottery.{TotalAgrees};
ghost use Rattle.define_draws.specs.ShortBundle.{shortened_bundle};

use crate::shorten;
use bundle_text::Bundle;
use pool_model::Answer;
use std::alloc::{AllocError, Global};

/// Returns the bundle with its lottery shortened to `tickets` tickets, from 1 to 10^9. The weights of the bundle sum to its total. The
/// stages are the bundle's, and need not certify the shortened lottery.
pub fn short_bundle(alloc: Global, bundle: &Bundle, tickets: i128) -> Result<Bundle, AllocError>
    requires agrees { TotalAgrees bundle.now.answer.lottery }
    requires from { pos 1 ≤ℤ tickets }
    requires to { tickets ≤ℤ pos (10 ^ 9) }
    ensures short { IfOk result (λ short. short ≡ shortened_bundle bundle.now (unsigned_abs tickets)) }
    ensures agrees { IfOk result (λ short. TotalAgrees short.answer.lottery) }
{
    let lottery = shorten(alloc, bundle.answer().lottery(), tickets)?;
    let answer = Answer::new(lottery, bundle.answer().certificate().copy()?);
    match Bundle::new(bundle.pool().copy()?, answer) {
        Some(short) => Ok(short),
        None => unreachable!(),
    }
}
