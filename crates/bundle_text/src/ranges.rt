//! Tests whether the numbers of an answer are in the ranges of a bundle. `Bundle::new` calls `is_in_ranges`, and `lines` tests the numbers
//! of each line.

ghost use Rattle.std.specs.Prelude.{◌≡◌, ◌≤ℤ◌, ◌↔◌, ◌-◌, ◌^◌, pos, unsigned_abs, nat_lt, nat_le, length, IsTrue};
ghost use Rattle.std.specs.List.{list_all};
ghost use Rattle.define_bundles.specs.Ranges.{IsInRanges, is_weight as keeps_weight, is_row as keeps_row, is_stage as keeps_stage, reach};

use pool_model::{Answer, LotteryRow, Pool, Stage};

/// The greatest total and the greatest weight of a panel, 10^38.
pub(crate) const MAX_WEIGHT: i128 = 100_000_000_000_000_000_000_000_000_000_000_000_000;

const MAX_REACH: u128 = 170_141_183_460_469_231_731_687_303_715_884_105_727;

/// True if the answer's numbers are in the ranges of a bundle of this pool.
pub fn is_in_ranges(pool: &Pool, answer: &Answer) -> bool
    ensures { IsTrue result ↔ IsInRanges pool.now answer.now }
{
    let volunteers = pool.volunteers().len();
    let lottery = answer.lottery();
    let stages = answer.certificate().stages();
    is_weight(lottery.total())
        && !lottery.rows().is_empty()
        && are_rows(volunteers, lottery.rows())
        && !stages.is_empty()
        && are_stages(volunteers, stages)
}

/// True if the weight is from 1 to 10^38.
pub(crate) fn is_weight(weight: i128) -> bool
    requires { pos 0 ≤ℤ weight }
    ensures { result ≡ keeps_weight (unsigned_abs weight) }
{
    1 <= weight && weight <= MAX_WEIGHT
}

fn are_rows(volunteers: usize, rows: &[LotteryRow]) -> bool
    ensures { result ≡ list_all (keeps_row volunteers) rows.now }
{
    rows.iter().all(|row| is_row(volunteers, row))
}

pub(crate) fn is_row(volunteers: usize, row: &LotteryRow) -> bool
    ensures { result ≡ keeps_row volunteers row.now }
{
    let members = row.panel().members();
    is_weight(row.weight()) && !members.is_empty() && are_below(volunteers, members)
}

fn are_below(volunteers: usize, members: &[usize]) -> bool
    ensures { result ≡ list_all (λ i. nat_lt i volunteers) members.now }
{
    members.iter().all(|i| *i < volunteers)
}

fn are_stages(volunteers: usize, stages: &[Stage]) -> bool
    ensures { result ≡ list_all (keeps_stage volunteers) stages.now }
{
    stages.iter().all(|stage| is_stage(volunteers, stage))
}

pub(crate) fn is_stage(volunteers: usize, stage: &Stage) -> bool
    ensures { result ≡ keeps_stage volunteers stage.now }
{
    stage.weights().len() == volunteers && keeps_reach(stage)
}

/// True if the absolute values of the stage's numbers sum to at most 2^127 - 1.
fn keeps_reach(stage: &Stage) -> bool
    ensures { result ≡ nat_le (reach stage.now) (2 ^ 127 - 1) }
{
    let mut reach = stage.cap().unsigned_abs();
    for weight in stage.weights() {
        reach = reach.saturating_add(weight.unsigned_abs());
    }
    reach <= MAX_REACH
}
