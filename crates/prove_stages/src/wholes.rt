//! Whole weights near fixed-point multipliers.

use frac128::gcd;
use prove_limits::{Narrow, ProveStop, narrow_add};
use prove_mixes::rounded;
use std::alloc::{AllocError, Global};

/// By rounded weights, a search asks for a composition that weighs at least this much more than those of the basis, since a smaller
/// difference may come from rounding.
const MARGIN: i128 = 100;

/// Returns the greatest absolute value, at least 1.
fn greatest(multipliers: &[i64]) -> i128 {
    let mut greatest: u64 = 1;
    for multiplier in multipliers {
        greatest = greatest.max(multiplier.unsigned_abs());
    }
    i128::from(greatest)
}

/// Returns weights for a search, rounded so that the greatest becomes `most`, and what a composition must weigh so that the level may rise.
/// `cost` is what the compositions of the basis weigh.
pub(crate) fn rounded_weights(
    alloc: Global,
    multipliers: &[i64],
    cost: i64,
    most: i128,
) -> Result<(Vec<i64>, Narrow), ProveStop> {
    let greatest = greatest(multipliers);
    let mut weights = Vec::new(alloc);
    for multiplier in multipliers {
        let own = rounded(i128::from(*multiplier).wrapping_mul(most), greatest);
        weights.push(i64::try_from(own).unwrap_or(0))?;
    }
    let base = rounded(i128::from(cost).wrapping_mul(most), greatest);
    Ok((weights, narrow_add(base.wrapping_add(MARGIN), 0)?))
}

/// Returns the least scale in `from..=most` at which all multipliers are near whole numbers, where the scale is what the greatest becomes;
/// and these whole numbers without their common divisor. Returns None if there is no such scale.
pub(crate) fn whole_weights(
    alloc: Global,
    multipliers: &[i64],
    from: i64,
    most: i64,
) -> Result<Option<(i64, Vec<i64>)>, AllocError> {
    let greatest = greatest(multipliers);
    for scale in from..=most {
        if are_whole(multipliers, scale, greatest) {
            let mut weights = Vec::new(alloc);
            let mut divisor = 0;
            'weights: for multiplier in multipliers {
                let own = rounded(
                    i128::from(*multiplier).wrapping_mul(i128::from(scale)),
                    greatest,
                );
                let own = i64::try_from(own).unwrap_or(0);
                divisor = gcd(divisor, i128::from(own.unsigned_abs()));
                weights.push(own)?;
            }
            for weight in weights.iter_mut() {
                let own = i128::from(*weight).checked_div(divisor).unwrap_or(0);
                *weight = i64::try_from(own).unwrap_or(0);
            }
            return Ok(Some((scale, weights)));
        }
    }
    Ok(None)
}

/// True if all multipliers, times a scale and divided by the greatest, are within 2^-18 of whole numbers.
fn are_whole(multipliers: &[i64], scale: i64, greatest: i128) -> bool {
    let slack = greatest >> 18;
    multipliers.iter().all(|multiplier| {
        let scaled = i128::from(*multiplier).wrapping_mul(i128::from(scale));
        let part = scaled.checked_rem_euclid(greatest).unwrap_or(0);
        part <= slack || part >= greatest.wrapping_sub(slack)
    })
}
