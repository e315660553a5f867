//! The draw from a shortened lottery.

ghost use Rattle.std.specs.Prelude.{◌^◌, ◌≤ℤ◌, pos, unsigned_abs, IfOk};
ghost use Rattle.define_pools.specs.Lottery.{TotalAgrees};
ghost use Rattle.define_draws.specs.Short.{shortened};
ghost use Rattle.sealed_draw.specs.Answers.{DrawSays, IsOfRow};

use crate::bundles::short_bundle;
use bundle_text::Bundle;
use sealed_draw::{Draw, DrawStop, draw};
use std::alloc::Global;

/// Draws from the lottery of a bundle, shortened to `tickets` tickets, from 1 to 10^9. The weights of the bundle sum to its total. Returns
/// the panel whose range has the ticket that the digits name. Fails with `SealDiffers` unless the given seal is the kept one, capitals
/// aside; else with `BadDigit` or `MoreDigits` if the digits name no ticket. `kept` should be the seal of the bundle itself.
pub fn draw_short(
    alloc: Global,
    bundle: &Bundle,
    tickets: i128,
    kept: &str,
    given: &str,
    digits: &[u8],
) -> Result<Draw, DrawStop>
    requires agrees { TotalAgrees bundle.now.answer.lottery }
    requires from { pos 1 ≤ℤ tickets }
    requires to { tickets ≤ℤ pos (10 ^ 9) }
    ensures says { DrawSays (shortened bundle.now.answer.lottery (unsigned_abs tickets)) kept.now given.now digits.now result }
    ensures row { IfOk result (λ drawn. IsOfRow (shortened bundle.now.answer.lottery (unsigned_abs tickets)) (unsigned_abs drawn.ticket) drawn.panel) }
{
    let short = short_bundle(alloc, bundle, tickets)?;
    draw(alloc, &short, kept, given, digits)
}
