//! The multipliers by which a table refutes a node, in lowest terms. `proving` uses this, and `prove_stages` uses `in_lowest_terms`. The
//! contracts promise which stops the calls may return.

ghost use Rattle.std.specs.Prelude.{◌≤ℤ◌, pos, IfErr, IfOk};
ghost use Rattle.prove_branching.specs.Nodes.{IsLostOrMemory};

use crate::steps::Refutation;
use prove_limits::{Narrow, ProveStop};
use prove_table::common_divisor;
use std::alloc::{AllocError, Global};

/// Returns the rows other than the row of weights, in the order of their numbers.
pub(crate) fn rows_by_number(
    alloc: Global,
    numbers: &[usize],
    weight_row: Option<usize>,
) -> Result<Vec<usize>, AllocError> {
    let mut rows = Vec::new(alloc);
    for row in 0..numbers.len() {
        if weight_row != Some(row) {
            rows.push(row)?;
        }
    }
    rows.sort_by_key(|row| numbers.get(*row).copied().unwrap_or(0))?;
    Ok(rows)
}

/// Returns a table's refutation in lowest terms. The row of weights gives the scale, and each row of `rows` its multiplier, if not 0.
pub(crate) fn refutation_of(
    alloc: Global,
    refutation: &[Narrow],
    numbers: &[usize],
    rows: &[usize],
    weight_row: Option<usize>,
) -> Result<Refutation, ProveStop>
    ensures { IfErr result IsLostOrMemory }
{
    let mut pairs = Vec::new(alloc);
    for row in rows {
        let number = numbers.get(*row).copied().ok_or(ProveStop::Lost)?;
        pairs.push((number, factor_of(refutation, *row)))?;
    }
    in_lowest_terms(alloc, scale(refutation, weight_row), &pairs)
}

/// Divides a scale of at least 0, and the multipliers of numbered rows, by their greatest common divisor. Leaves out multipliers of 0. The
/// contract leaves the result open, since each proof is verified before it is printed.
pub fn in_lowest_terms(
    alloc: Global,
    scale: Narrow,
    pairs: &[(usize, Narrow)],
) -> Result<Refutation, ProveStop>
    ensures { IfErr result IsLostOrMemory }
{
    let divisor = divisor_of(alloc, scale, pairs)?;
    let mut multipliers = Vec::new(alloc);
    for (number, factor) in pairs {
        if !factor.is_zero() {
            multipliers.push((*number, factor.wide() / divisor))?;
        }
    }
    match u64::try_from(scale.abs().wide() / divisor) {
        Ok(scale) => Ok(Refutation { scale, multipliers }),
        Err(_) => Err(ProveStop::Lost),
    }
}

/// Returns the greatest common divisor of a scale and multipliers.
fn divisor_of(alloc: Global, scale: Narrow, pairs: &[(usize, Narrow)]) -> Result<i128, AllocError>
    ensures { IfOk result (λ divisor. pos 1 ≤ℤ divisor) }
{
    let mut numbers = Vec::new(alloc);
    numbers.push(scale)?;
    for (_, factor) in pairs {
        numbers.push(*factor)?;
    }
    Ok(common_divisor(&numbers))
}

/// Returns what the weights are multiplied by: minus the multiplier of the row of weights if this multiplier is below 0, else 0.
fn scale(refutation: &[Narrow], weight_row: Option<usize>) -> Narrow {
    match weight_row {
        Some(row) => (-factor_of(refutation, row)).max(Narrow::ZERO),
        None => Narrow::ZERO,
    }
}

/// Returns the multiplier of a row.
fn factor_of(refutation: &[Narrow], row: usize) -> Narrow {
    refutation.get(row).copied().unwrap_or(Narrow::ZERO)
}
