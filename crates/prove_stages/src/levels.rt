//! Levels: a level is a chance that all unsettled columns have at least. Finds the greatest level that the weights and the cap of a stage
//! allow.

ghost use Rattle.std.specs.Prelude.{◌≡◌, ◌≤ℤ◌, ◌<ℤ◌, pos, length};

use crate::chances::Chances;
use crate::fractions::Chance;
use frac128::gcd;
use prove_limits::{Narrow, ProveStop, narrow_add, narrow_div, wide_add, wide_mul, wide_sub};
use prove_program::Program;

/// The sums of weights over settled and over unsettled columns.
#[derive(Clone, Copy)]
pub(crate) struct WeightSums {
    /// The sum over all members of settled columns: weight times chance, times the common denominator.
    pub(crate) settled: i128,
    /// The sum of the weights of all members of unsettled columns.
    pub(crate) unsettled: Narrow,
}

/// Returns the sums of weights, where each member of a column has the weight of the column. The contract leaves the sums open, since each
/// proof is verified before it is printed.
pub(crate) fn weight_sums(
    program: &Program,
    chances: &Chances,
    weights: &[Narrow],
) -> Result<WeightSums, ProveStop>
    requires weights { length weights.now ≡ length program.now.firsts }
{
    let mut settled = 0;
    let mut unsettled = 0;
    for column in 0..program.columns() {
        let weight = weights[column];
        if weight.is_zero() {
            continue;
        }
        let members = wide_mul(weight.wide(), program.size_of(column).wide())?;
        match chances.chance(column) {
            Some(chance) => {
                let scaled = chance.scaled(chances.common())?;
                settled = wide_add(settled, wide_mul(members, scaled.wide())?)?;
            }
            None => unsettled = wide_add(unsettled, members)?,
        }
    }
    Ok(WeightSums {
        settled,
        unsettled: narrow_add(unsettled, 0)?,
    })
}

impl WeightSums {
    /// Returns the level that a cap allows: the chance of all unsettled columns at which the weights sum to the cap. Stops if the unsettled
    /// weights do not sum to more than 0. The contract leaves the level open, since each proof is verified before it is printed.
    pub(crate) fn level(self, cap: Narrow, common: Narrow) -> Result<Chance, ProveStop> {
        let num = wide_sub(wide_mul(cap.wide(), common.wide())?, self.settled)?;
        let den = wide_mul(self.unsettled.wide(), common.wide())?;
        if den <= 0 {
            return Err(ProveStop::Lost);
        }
        let divisor = divisor_of(num, den);
        let (num, den) = (narrow_div(num, divisor)?, narrow_div(den, divisor)?);
        Chance::new(num, den).ok_or(ProveStop::Lost)
    }

    /// Returns the level that a cap allows, as `level` does. Stops if it is not below `last`.
    pub(crate) fn level_below(
        self,
        cap: Narrow,
        common: Narrow,
        last: Chance,
    ) -> Result<Chance, ProveStop> {
        let level = self.level(cap, common)?;
        if level.is_below(last) {
            Ok(level)
        } else {
            Err(ProveStop::Lost)
        }
    }
}

/// Returns the greatest common divisor of `x` and `y`, at least 1.
fn divisor_of(x: i128, y: i128) -> i128
    requires { pos 0 <ℤ y }
    ensures { pos 1 ≤ℤ result }
{
    gcd(x.checked_abs().unwrap_or(0), y).max(1)
}
