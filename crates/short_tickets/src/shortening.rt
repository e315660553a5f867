//! Shortens a lottery.

ghost use Rattle.std.specs.Prelude.{◌≡◌, ◌≤◌, ◌^◌, ◌≤ℤ◌, pos, unsigned_abs, IfOk};
ghost use Rattle.define_pools.specs.Lottery.{TotalAgrees};
ghost use Rattle.define_draws.specs.Short.{shortened};

use crate::lines::line_for;
use crate::rows::{left_of, remainders_of, rows_with_tickets};
use pool_model::Lottery;
use std::alloc::{AllocError, Global};

/// Returns the lottery in a round number of tickets, from 1 to 10^9: each panel's tickets are its share, rounded down or up. The shares
/// that would lose most by rounding down are rounded up; of equal ones, the earlier ones. Panels without a ticket are left out. The weights
/// of the lottery are at least 1 and sum to its total, from 1 to 10^38.
pub fn shorten(alloc: Global, lottery: &Lottery, tickets: i128) -> Result<Lottery, AllocError>
    requires agrees { TotalAgrees lottery.now }
    requires some { 1 ≤ lottery.now.total }
    requires most { lottery.now.total ≤ 10 ^ 38 }
    requires from { pos 1 ≤ℤ tickets }
    requires to { tickets ≤ℤ pos (10 ^ 9) }
    ensures shortened { IfOk result (λ short. short ≡ shortened lottery.now (unsigned_abs tickets)) }
    ensures agrees { IfOk result (λ short. TotalAgrees short) }
{
    let rows = lottery.rows();
    let total = lottery.total().unsigned_abs();
    let count = tickets.unsigned_abs();
    let remainders = remainders_of(alloc, rows, total, count)?;
    let line = line_for(alloc, &remainders, left_of(rows, total, count))?;
    let kept = rows_with_tickets(alloc, rows, total, count, line)?;
    Ok(Lottery::new(tickets, kept))
}
