//! Makes a leaf of the multipliers with which a table refutes that some team misses the bounds by at most a given number of people in all.
//! This module promises nothing: `bounds` computes what a leaf shows.

use crate::bounds::Leaf;
use define_quotas::{Counted, Quota, Side, WeightedQuota};
use prove_limits::Narrow;
use prove_program::Program;
use std::alloc::{AllocError, Global};

/// The most quotas of values that a pool has: it has at most 20 categories of 50 values, and each value has two quotas.
const MOST_VALUE_QUOTAS: usize = 2000;

/// Returns the leaf of the multipliers of a program's rows. `counted` has whom each constraint counts, by its number.
pub(crate) fn leaf_of(
    alloc: Global,
    program: &Program,
    counted: &[Counted],
    multipliers: &[Narrow],
) -> Result<Leaf, AllocError> {
    let mut values = vec![in alloc; 0; MOST_VALUE_QUOTAS]?;
    let mut met = Vec::new(alloc);
    for (row, multiplier) in program.rows().iter().zip(multipliers) {
        if multiplier.is_zero() {
            continue;
        }
        let side = side_of(*multiplier);
        let weight = weight_of(*multiplier);
        match counted.get(row.number()) {
            Some(Counted::WithValue(_, _)) => put(&mut values, row.number(), side, weight),
            Some(counted) => {
                let quota = Quota {
                    counted: *counted,
                    side,
                };
                met.push(WeightedQuota { quota, weight })?;
            }
            None => {}
        }
    }
    Ok(Leaf { values, met })
}

/// Writes the weight of a value's quota. The constraints of values are numbered from 1 on, and each has two quotas.
fn put(values: &mut [usize], number: usize, side: Side, weight: usize) {
    if let Some(place) = place_of(number, side) {
        if let Some(own) = values.get_mut(place) {
            *own = weight;
        }
    }
}

fn place_of(number: usize, side: Side) -> Option<usize> {
    let first = number.checked_sub(1)?.checked_mul(2)?;
    match side {
        Side::AtLeast => Some(first),
        Side::AtMost => first.checked_add(1),
    }
}

/// Returns which bound of its constraint a multiplier is for: the lower one if it is below 0, else the upper one.
fn side_of(multiplier: Narrow) -> Side {
    if multiplier.get() < 0 {
        Side::AtLeast
    } else {
        Side::AtMost
    }
}

/// Returns the absolute value of a multiplier.
fn weight_of(multiplier: Narrow) -> usize {
    usize::try_from(multiplier.get().unsigned_abs()).unwrap_or(0)
}
