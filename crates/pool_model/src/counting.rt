//! The count of each volunteer: how much of a lottery's weight is on panels with the volunteer.

ghost use Rattle.std.specs.Prelude.{◌≡◌, ◌<◌, ℕ, map, length, pos, ◌+ℤ◌, IfOk, IsTrue, FitsSigned, if◌then◌else◌, slice_index_or};
ghost use Rattle.std.specs.Int.{w128};
ghost use Rattle.define_pools.specs.Lists.{is_increasing, includes};
ghost use Rattle.define_pools.specs.Lottery.{TotalAgrees, counts};

use crate::lotteries::Lottery;
use crate::pools::Pool;
use std::alloc::{AllocError, Global};

/// Returns each volunteer's count: the sum of the weights of the panels with this volunteer. The count is the volunteer's chance times
/// the total. Each weight is at least 1, and they sum to the total.
pub fn chances(alloc: Global, pool: &Pool, lottery: &Lottery) -> Result<Vec<i128>, AllocError>
    requires { TotalAgrees lottery.now }
    ensures { IfOk result (λ chances. chances.items ≡ map pos (counts pool.now lottery.now)) }
{
    let mut chances = vec![in alloc; 0; pool.volunteers().len()]?;
    for row in lottery.rows() {
        add_weight(&mut chances, row.panel().members(), row.weight());
    }
    Ok(chances)
}

/// Adds `weight` to the count of each of `members`.
fn add_weight(chances: &mut [i128], members: &[usize], weight: i128)
    requires increasing { IsTrue (is_increasing members.now) }
    requires room { (i : ℕ) → i < length chances.old → FitsSigned w128 (slice_index_or chances.old i (pos 0) +ℤ weight) }
    ensures { (i : ℕ) → i < length chances.old → slice_index_or chances.new i (pos 0)
        ≡ (if includes members.now i then slice_index_or chances.old i (pos 0) +ℤ weight else slice_index_or chances.old i (pos 0)) }
{
    for i in members {
        if *i < chances.len() {
            chances[*i] += weight;
        }
    }
}
