//! The draw: compares the given seal with the kept one, then returns the panel of the ticket that the digits name.

ghost use Rattle.std.specs.Prelude.{◌≡◌, ◌<◌, ◌≤ℤ◌, pos, sum, unsigned_abs, IfOk, IsTrue};
ghost use Rattle.define_pools.specs.Lottery.{TotalAgrees};
ghost use Rattle.define_bundles.specs.Ranges.{is_weight};
ghost use Rattle.define_draws.specs.Draw.{panel_at};
ghost use Rattle.define_draws.specs.Tickets.{row_of, weights_of};
ghost use Rattle.sealed_draw.specs.Answers.{DrawSays, IsOfRow};

use crate::drawn::{Draw, DrawStop};
use crate::sealing::is_seal;
use bundle_text::Bundle;
use pool_model::{Lottery, Panel};
use std::alloc::{AllocError, Global};
use tickets::{DiceStop, Named, name_ticket, pick, table};

/// Draws from the lottery of a bundle whose weights sum to its total. Returns the panel whose range has the ticket that the digits name.
/// Fails with `SealDiffers` if the given seal isn't the kept one, capitals aside. If it is, fails with `BadDigit` or `MoreDigits` if the
/// digits name no ticket.
pub fn draw(
    alloc: Global,
    bundle: &Bundle,
    kept: &str,
    given: &str,
    digits: &[u8],
) -> Result<Draw, DrawStop>
    requires { TotalAgrees bundle.now.answer.lottery }
    ensures says { DrawSays bundle.now.answer.lottery kept.now given.now digits.now result }
    ensures row { IfOk result (λ drawn. IsOfRow bundle.now.answer.lottery (unsigned_abs drawn.ticket) drawn.panel) }
{
    draw_from(alloc, bundle.answer().lottery(), kept, given, digits)
}

/// Draws from a lottery, as `draw` does from the lottery of a bundle.
fn draw_from(
    alloc: Global,
    lottery: &Lottery,
    kept: &str,
    given: &str,
    digits: &[u8],
) -> Result<Draw, DrawStop>
    requires agrees { TotalAgrees lottery.now }
    requires total { IsTrue (is_weight lottery.now.total) }
    ensures { DrawSays lottery.now kept.now given.now digits.now result }
{
    if !is_seal(alloc, kept, given)? {
        return Err(DrawStop::SealDiffers {
            given: String::from_str(alloc, given)?,
            kept: String::from_str(alloc, kept)?,
        });
    }
    match name_ticket(lottery.total(), digits) {
        Ok(named) => Ok(Draw {
            ticket: named.ticket,
            used: named.used,
            panel: panel_of(alloc, lottery, named.ticket)?,
        }),
        Err(DiceStop::BadDigit { place }) => Err(DrawStop::BadDigit { place }),
        Err(DiceStop::MoreDigits { read }) => Err(DrawStop::MoreDigits { read }),
    }
}

/// Returns the panel whose range has the ticket.
fn panel_of(alloc: Global, lottery: &Lottery, ticket: i128) -> Result<Panel, AllocError>
    requires agrees { TotalAgrees lottery.now }
    requires from { pos 0 ≤ℤ ticket }
    requires below { unsigned_abs ticket < sum (weights_of lottery.now) }
    ensures { IfOk result (λ panel. panel ≡ panel_at lottery.now (row_of (weights_of lottery.now) (unsigned_abs ticket))) }
{
    let row = pick(&table(alloc, lottery)?, ticket);
    lottery.rows()[row].panel().copy()
}
