//! The rows that each panel of a lottery satisfies: those of the quotas, and one for each stage. `prove_run` makes `PanelRows`, and uses
//! `weights_of`. The contracts promise how many rows and weights there are.

ghost use Rattle.std.specs.Prelude.{◌≡◌, ◌+◌, length, IfOk};

use prove_limits::{Narrow, ProveStop, Span, times, wide_add};
use prove_program::Program;
use prove_stages::ClassStage;
use std::alloc::Global;

/// A row over volunteers: its coefficients, the places of the coefficients that are not 0, and the span of its sums.
#[derive(Drop)]
pub(crate) struct PanelRow {
    pub(crate) coefficients: Vec<Narrow>,
    pub(crate) places: Vec<usize>,
    pub(crate) span: Span,
}

/// The rows that each panel of a lottery satisfies.
#[derive(Drop)]
pub struct PanelRows {
    pub(crate) rows: Vec<PanelRow>,
}

impl PanelRows {
    /// Returns the rows of the quotas over volunteers, and a row for each stage, by which each panel weighs exactly the cap.
    pub fn new(
        alloc: Global,
        program: &Program,
        classes: &Program,
        stages: &[ClassStage],
    ) -> Result<PanelRows, ProveStop>
        ensures { IfOk result (λ made. length made.rows.items ≡ length program.now.rows + length stages.now) }
    {
        let mut rows = Vec::new(alloc);
        for number in 0..program.rows().len() {
            let row = &program.rows()[number];
            let coefficients = Vec::from_slice(alloc, row.coefficients())?;
            rows.push(panel_row(alloc, coefficients, row.span())?)?;
        }
        for number in 0..stages.len() {
            let stage = &stages[number];
            let weights = weights_of(alloc, classes, &stage.weights)?;
            rows.push(panel_row(alloc, weights, Span::point(stage.cap))?)?;
        }
        Ok(PanelRows { rows })
    }
}

/// Returns each volunteer's weight, which is that of the volunteer's column.
pub fn weights_of(
    alloc: Global,
    classes: &Program,
    weights: &[Narrow],
) -> Result<Vec<Narrow>, ProveStop>
    ensures { IfOk result (λ own. length own.items ≡ length classes.now.column_numbers) }
{
    let mut own = Vec::new(alloc);
    for i in 0..classes.volunteers() {
        own.push(value_at(weights, classes.column_of(i)))?;
    }
    Ok(own)
}

/// Returns a row with the coefficients `coefficients` and the span `span`.
pub(crate) fn panel_row(
    alloc: Global,
    coefficients: Vec<Narrow>,
    span: Span,
) -> Result<PanelRow, ProveStop> {
    let mut places = Vec::new(alloc);
    for (i, coefficient) in coefficients.iter().enumerate() {
        if !coefficient.is_zero() {
            places.push(i)?;
        }
    }
    Ok(PanelRow {
        coefficients,
        places,
        span,
    })
}

impl PanelRow {
    /// Returns the sum of the coefficients times the volunteers' values.
    pub(crate) fn sum(&self, values: &[Narrow]) -> Result<i128, ProveStop> {
        let mut sum = 0;
        for place in &self.places {
            sum = wide_add(
                sum,
                times(
                    value_at(&self.coefficients, *place),
                    value_at(values, *place),
                ),
            )?;
        }
        Ok(sum)
    }
}

/// Returns the value at a place, or 0 past the end.
pub(crate) fn value_at(values: &[Narrow], place: usize) -> Narrow {
    values.get(place).copied().unwrap_or(Narrow::ZERO)
}
