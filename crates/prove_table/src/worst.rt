//! The values of basic variables, and the row whose variable leaves the basis because it is out of its span.

ghost use Rattle.std.specs.Prelude.{◌<◌, length, IfOk, IfErr, IfSome};
ghost use Rattle.prove_limits.specs.Stops.{IsWideOrMemory};

use crate::combining::product;
use crate::rows::TableRow;
use crate::spans::Spans;
use crate::variables::Variable;
use prove_limits::{Narrow, ProveStop, Span, times, wide_add, wide_mul, wide_sub};

// A row whose basic variable is out of its span, and by how much, times the denominator.
#[derive(Clone, Copy)]
pub(crate) struct Worst {
    pub(crate) row: usize,
    pub(crate) variable: Variable,
    pub(crate) need: i128,
    pub(crate) is_below: bool,
}

// How the leaving row and the entering slot are picked.
#[derive(Clone, Copy, PartialEq, Eq)]
pub(crate) enum Rule {
    // the row that is farthest out of its span, and the slot by ratios
    Farthest,
    // the row of the least variable that is out of its span, and the least candidate, so that no basis occurs twice
    Least,
}

// Returns the value of a row's basic variable times the denominator. `excesses` has a number for each place, and `sums` the sum of each row
// over the columns that are not basic.
fn row_value(
    row: &TableRow,
    excesses: &[Narrow],
    sums: &[i128],
    denominator: Narrow,
) -> Result<i128, ProveStop>
    ensures { IfErr result IsWideOrMemory }
{
    let moved = product(&row.entries, excesses)?;
    match row.basic {
        Variable::Row(number) => {
            let sum = sums.get(number.0).copied().unwrap_or(0);
            wide_add(moved, wide_mul(denominator.wide(), sum)?)
        }
        Variable::Column(_) => Ok(moved),
    }
}

// Returns by how much a value is out of its span, times the denominator, or a number of at most 0 if the value is inside. The flag is true
// if the value is below the span.
fn distance(value: i128, span: Span, denominator: Narrow) -> Result<(i128, bool), ProveStop>
    ensures { IfErr result IsWideOrMemory }
{
    let below = wide_sub(times(span.least(), denominator), value)?;
    let above = wide_sub(value, times(span.greatest(), denominator))?;
    Ok((below.max(above), below > 0))
}

// True if a row is picked rather than `so_far`, the row picked so far.
fn is_before(rule: Rule, variable: Variable, need: i128, so_far: &Option<Worst>) -> bool {
    match so_far {
        None => true,
        Some(worst) => match rule {
            Rule::Farthest => need > worst.need,
            Rule::Least => variable < worst.variable,
        },
    }
}

// Writes the value of each row, and picks a row whose variable is out of its span, if there is one.
pub(crate) fn find_worst(
    rows: &mut [TableRow],
    excesses: &[Narrow],
    sums: &[i128],
    spans: &Spans,
    denominator: Narrow,
    rule: Rule,
) -> Result<Option<Worst>, ProveStop>
    ensures row { IfOk result (λ found. IfSome found (λ worst. worst.row < length rows.new)) }
    ensures stops { IfErr result IsWideOrMemory }
{
    let mut found = None;
    for row in 0..rows.len() {
        let value = row_value(&rows[row], excesses, sums, denominator)?;
        rows[row].value = value;
        let variable = rows[row].basic;
        let (need, is_below) = distance(value, spans.of(variable), denominator)?;
        if need > 0 && is_before(rule, variable, need, &found) {
            found = Some(Worst {
                row,
                variable,
                need,
                is_below,
            });
        }
    }
    Ok(found)
}
