//! The reasons of the lottery itself: a listed panel that is no quota panel, a panel that is listed twice, and a total that isn't the sum
//! of the weights.

ghost use Rattle.std.specs.Prelude.{◌≡◌, [], IfOk, map, not, option_map};
ghost use Rattle.std.specs.List.{find};
ghost use Rattle.define_pools.specs.Pool.{is_quota_panel as is_quota};
ghost use Rattle.define_checks.specs.Reasons.{first_reason, first_repeated as first_again, lottery_reasons};
ghost use Rattle.check_reasons.specs.Households.{household_numbers as numbers_of};

use crate::quotas::{household_numbers, is_quota_panel};
use crate::verdicts::Verdict;
use pool_model::{Lottery, LotteryRow, Panel, Pool};
use std::alloc::{AllocError, Global};
use std::collections::BTreeSet;

/// Returns the verdict on the lottery itself: reason 1 if a listed panel is no quota panel; 2 if one equals an earlier one; and 3 if the
/// weights don't sum to the total.
pub fn lottery_verdict(alloc: Global, pool: &Pool, lottery: &Lottery) -> Result<Verdict, AllocError>
    ensures { IfOk result (λ verdict. verdict ≡ first_reason (lottery_reasons pool.now lottery.now)) }
{
    let households = household_numbers(alloc, pool.volunteers())?;
    if let Some(panel) = first_unfit(alloc, pool, &households, lottery.rows())? {
        return Verdict::refused(alloc, 0, 1, panel.members());
    }
    if let Some(panel) = first_repeated(alloc, lottery.rows())? {
        return Verdict::refused(alloc, 0, 2, panel.members());
    }
    if !lottery.weights_sum_to_total() {
        return Verdict::refused(alloc, 0, 3, &[]);
    }
    Ok(Verdict::valid())
}

/// Returns the first listed panel that is no quota panel, if there is one.
fn first_unfit<'a>(
    alloc: Global,
    pool: &Pool,
    households: &[usize],
    rows: &'a [LotteryRow],
) -> Result<Option<&'a Panel>, AllocError>
    requires { households.now ≡ numbers_of pool.now.volunteers }
    ensures { IfOk result (λ found. option_map (λ panel. panel.now) found ≡ find (λ panel. not (is_quota pool.now panel)) (map (λ row. row.panel) rows.now)) }
{
    for row in rows {
        let fits = is_quota_panel(alloc, pool, households, row.panel())?;
        if !fits {
            return Ok(Some(row.panel()));
        }
    }
    Ok(None)
}

/// Returns the first listed panel that equals an earlier one, if there is one.
fn first_repeated<'a>(
    alloc: Global,
    rows: &'a [LotteryRow],
) -> Result<Option<&'a Panel>, AllocError>
    ensures { IfOk result (λ found. option_map (λ panel. panel.now) found ≡ first_again [] (map (λ row. row.panel) rows.now)) }
{
    let mut earlier: BTreeSet<&[usize]> = BTreeSet::new(alloc);
    for row in rows {
        let panel = row.panel();
        let is_new = earlier.insert(panel.members())?;
        if !is_new {
            return Ok(Some(panel));
        }
    }
    Ok(None)
}
