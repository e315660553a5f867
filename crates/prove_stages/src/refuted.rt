//! Turns multipliers that refute a program into weights, and a cap that no point passes.

ghost use Rattle.std.specs.Prelude.{◌≡◌, ◌+◌, ◌≤◌, length, IfOk};

use crate::chances::Chances;
use prove_limits::{Narrow, ProveStop, narrow_add, narrow_div, times, wide_add, wide_sub};
use prove_program::{Program, QuotaRow};
use prove_table::common_divisor;
use std::alloc::Global;

/// Weights by column, a cap that no point of the quotas passes, and the number that the weights were divided by.
#[derive(Drop)]
pub(crate) struct Shown {
    pub(crate) weights: Vec<Narrow>,
    pub(crate) cap: Narrow,
    pub(crate) scale: Narrow,
    // the cap is a multiple of the weights' common divisor, so that a panel may attain it
    pub(crate) is_tight: bool,
}

impl Shown {
    /// Returns these weights and this cap. They were not divided, and a panel may attain the cap.
    pub(crate) fn of_weights(weights: Vec<Narrow>, cap: Narrow) -> Shown
        ensures { result.weights ≡ weights }
    {
        Shown {
            weights,
            cap,
            scale: Narrow::ONE,
            is_tight: true,
        }
    }
}

/// Adds up the rows times their multipliers. The cap uses the rows' spans, and the columns' spans for unsettled columns that weigh less
/// than 0 or are seated.
pub(crate) fn shown_by(
    alloc: Global,
    program: &Program,
    chances: &Chances,
    multipliers: &[Narrow],
) -> Result<Shown, ProveStop>
    ensures { IfOk result (λ shown. length shown.weights.items ≡ length program.now.firsts) }
{
    let mut weights = vec![in alloc; Narrow::ZERO; program.columns()]?;
    let mut cap = 0;
    let rows = program.rows();
    for row in 0..rows.len().min(multipliers.len()) {
        cap = wide_add(cap, charge(&rows[row], multipliers[row]))?;
        add_row(&mut weights, &rows[row], multipliers[row])?;
    }
    let cap = charge_columns(program, chances, &mut weights, cap)?;
    lowest(weights, cap)
}

/// Returns the most that a row's sum times its multiplier can be within the row's span.
fn charge(row: &QuotaRow, multiplier: Narrow) -> i128 {
    let span = row.span();
    if multiplier.get() > 0 {
        times(multiplier, span.greatest())
    } else {
        times(multiplier, span.least())
    }
}

/// Adds a row, times its multiplier, to the weights.
fn add_row(weights: &mut [Narrow], row: &QuotaRow, multiplier: Narrow) -> Result<(), ProveStop>
    ensures { length weights.new ≡ length weights.old }
{
    let coefficients = row.coefficients();
    for column in 0..weights.len().min(coefficients.len()) {
        let amount = times(multiplier, coefficients[column]);
        weights[column] = narrow_add(weights[column].wide(), amount)?;
    }
    Ok(())
}

/// Sets the weight of each unsettled column that weighs less than 0 or is seated to 0, and subtracts the old weight, times the most members
/// that a panel may have of the column, from the cap. Returns the cap.
fn charge_columns(
    program: &Program,
    chances: &Chances,
    weights: &mut [Narrow],
    cap: i128,
) -> Result<i128, ProveStop>
    ensures { length weights.new ≡ length weights.old }
{
    let mut cap = cap;
    let spans = program.spans();
    for column in 0..weights.len().min(spans.len()) {
        let (weight, span) = (weights[column], spans[column]);
        let is_charged = weight.get() < 0 || !span.least().is_zero();
        if chances.chance(column).is_none() && is_charged {
            cap = wide_sub(cap, times(weight, span.greatest()))?;
            weights[column] = Narrow::ZERO;
        }
    }
    Ok(cap)
}

/// Divides the weights and the cap by the weights' greatest common divisor, if it divides the cap.
fn lowest(mut weights: Vec<Narrow>, cap: i128) -> Result<Shown, ProveStop>
    ensures { IfOk result (λ shown. length shown.weights.items ≡ length weights.items) }
{
    let divisor = common_divisor(&weights);
    let is_tight = cap % divisor == 0;
    let scale = if is_tight { divisor } else { 1 };
    for weight in weights.iter_mut() {
        *weight = narrow_div(weight.wide(), scale)?;
    }
    Ok(Shown {
        weights,
        cap: narrow_div(cap, scale)?,
        scale: narrow_add(scale, 0)?,
        is_tight,
    })
}
