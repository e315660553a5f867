//! The rows of a lottery with their tickets.

ghost use Rattle.std.specs.Prelude.{◌≡◌, ◌≤◌, ◌+◌, ◌-◌, ◌^◌, ◌==◌, ◌||◌, ◌&&◌, ◌++◌, ◌∷◌, [], if◌then◌else◌, length, map, nat_lt, sum, IfOk, OnOk};
ghost use Rattle.define_draws.specs.Short.{remainder, rows_with_tickets as words_of_rows, tickets_by_weight, tickets_left};
ghost use Rattle.short_tickets.specs.Parts.{AreWithin, IsLineFor, weights_in};

use crate::lines::Line;
use crate::shares::{Share, share_of};
use pool_model::LotteryRow;
use std::alloc::{AllocError, Global};

/// Returns the remainder of each row's share.
pub(crate) fn remainders_of(
    alloc: Global,
    rows: &[LotteryRow],
    total: u128,
    tickets: u128,
) -> Result<Vec<u128>, AllocError>
    requires within { AreWithin total rows.now }
    requires some { 1 ≤ total }
    requires most { total ≤ 10 ^ 38 }
    requires tickets { tickets ≤ 10 ^ 9 }
    ensures { IfOk result (λ remainders. remainders.items ≡ map (remainder total tickets) (weights_in rows.now)) }
{
    let mut remainders = Vec::new(alloc);
    for row in rows {
        remainders.push(share_of(total, tickets, row).remainder)?;
    }
    Ok(remainders)
}

/// Returns how many tickets are left when each row has its share rounded down: at most as many as there are rows.
pub(crate) fn left_of(rows: &[LotteryRow], total: u128, tickets: u128) -> usize
    requires total { total ≡ sum (weights_in rows.now) }
    requires within { AreWithin total rows.now }
    requires some { 1 ≤ total }
    requires most { total ≤ 10 ^ 38 }
    requires tickets { tickets ≤ 10 ^ 9 }
    ensures left { result ≡ tickets_left total tickets (weights_in rows.now) }
    ensures few { result ≤ length rows.now }
{
    let mut left = tickets;
    for row in rows {
        left -= share_of(total, tickets, row).whole;
    }
    left as usize
}

/// Returns the rows that have a ticket, with their tickets as weights.
pub(crate) fn rows_with_tickets(
    alloc: Global,
    rows: &[LotteryRow],
    total: u128,
    tickets: u128,
    mut line: Line,
) -> Result<Vec<LotteryRow>, AllocError>
    requires within { AreWithin total rows.now }
    requires some { 1 ≤ total }
    requires most { total ≤ 10 ^ 38 }
    requires tickets { tickets ≤ 10 ^ 9 }
    requires line { IsLineFor (tickets_left total tickets (weights_in rows.now)) (map (remainder total tickets) (weights_in rows.now)) line }
    ensures { IfOk result (λ kept. kept.items ≡ words_of_rows rows.now (tickets_by_weight total tickets (weights_in rows.now))) }
{
    let mut kept = Vec::new(alloc);
    for row in rows {
        let count = tickets_by(share_of(total, tickets, row), &mut line);
        push_row(&mut kept, row, count)?;
    }
    Ok(kept)
}

/// Returns how many tickets the next row gets, which has this share.
fn tickets_by(share: Share, line: &mut Line) -> u128
    requires { share.whole ≤ 10 ^ 9 }
    ensures count { result ≡ share.whole + (if nat_lt line.old.remainder share.remainder || ((share.remainder == line.old.remainder) && nat_lt 0 line.old.ties) then 1 else 0) }
    ensures remainder { line.new.remainder ≡ line.old.remainder }
    ensures ties { line.new.ties ≡ line.old.ties - (if share.remainder == line.old.remainder then 1 else 0) }
{
    if line.gives(share.remainder) {
        share.whole + 1
    } else {
        share.whole
    }
}

/// Appends a row with this number of tickets as its weight, if it has any.
fn push_row(kept: &mut Vec<LotteryRow>, row: &LotteryRow, count: u128) -> Result<(), AllocError>
    requires { count ≤ 10 ^ 9 + 1 }
    ensures { OnOk result (kept.new.items ≡ (if count == 0 then kept.old.items else kept.old.items ++ record { panel = row.now.panel; weight = count } ∷ [])) }
{
    if count == 0 {
        return Ok(());
    }
    kept.push(LotteryRow::new(row.panel().copy()?, count as i128))?;
    Ok(())
}
