//! What a table has at one node of a search: no point, a whole one, or one where a column's span is split. `searching` and `proving` look
//! at nodes by `look`; the other functions are helpers.

ghost use Rattle.std.specs.Prelude.{◌≡◌, ◌<◌, ◌≤ℤ◌, pos, IfOk, IfErr, IfSome, length};
ghost use Rattle.prove_table.specs.Sizes.{SameSizes, Spends};
ghost use Rattle.prove_branching.specs.Nodes.{IsLostOrMemory, IsAtNode};
ghost use Rattle.prove_branching.specs.Searches.{IsWithin, SearchStops};

use prove_limits::{Budget, Narrow, ProveStop, Span};
use prove_table::Table;
use std::alloc::Global;

/// A column whose value lies between two whole numbers, the parts of its span below and above the value, and which part is nearer.
#[derive(Clone, Copy, Debug)]
pub(crate) struct Split {
    pub(crate) column: usize,
    pub(crate) below: Span,
    pub(crate) above: Span,
    pub(crate) is_above_nearer: bool,
}

/// What a table has at a node.
#[derive(Debug, Drop)]
pub(crate) enum AtNode {
    /// No point.
    Empty,
    /// A point of whole numbers.
    Whole(Vec<Narrow>),
    /// A point that is not whole, and where to split.
    Broken(Split),
}

/// Runs the table with `columns`, the columns' spans at a node, and returns what it has there. A whole point is tested against `root`, the
/// columns' spans at the root.
pub(crate) fn look(
    alloc: Global,
    table: &mut Table,
    root: &[Span],
    columns: &[Span],
    rows: &[Span],
    budget: &mut Budget,
) -> Result<AtNode, ProveStop>
    requires root { length root.now ≡ table.old.columns }
    requires columns { length columns.now ≡ table.old.columns }
    requires rows { length rows.now ≡ table.old.rows }
    ensures node { IfOk result (IsAtNode root.now) }
    ensures sizes { SameSizes table.old table.new }
    ensures spends { Spends budget.old budget.new }
    ensures stops { IfErr result (SearchStops table.new budget.new) }
{
    if !table.run(columns, rows, budget)? {
        return Ok(AtNode::Empty);
    }
    let values = table.point(alloc)?;
    let denominator = table.denominator();
    let node = node_at(alloc, root, columns, &values, denominator)?;
    Ok(node)
}

/// Returns the point if it is whole, else where to split. `values` are those of the point, times the denominator.
fn node_at(
    alloc: Global,
    root: &[Span],
    columns: &[Span],
    values: &[i128],
    denominator: Narrow,
) -> Result<AtNode, ProveStop>
    requires columns { length columns.now ≡ length root.now }
    requires values { length values.now ≡ length root.now }
    requires denominator { pos 1 ≤ℤ denominator }
    ensures node { IfOk result (IsAtNode root.now) }
    ensures stops { IfErr result IsLostOrMemory }
{
    match most_broken(values, denominator) {
        Some(column) => match split_at(column, values[column], denominator, columns[column]) {
            Some(split) => Ok(AtNode::Broken(split)),
            None => Err(ProveStop::Lost),
        },
        None => {
            let point = whole_point(alloc, root, values, denominator)?;
            Ok(AtNode::Whole(point))
        }
    }
}

/// Returns the first column whose value is farthest from a whole number, or None if all values are whole.
fn most_broken(values: &[i128], denominator: Narrow) -> Option<usize>
    requires { pos 1 ≤ℤ denominator }
    ensures { IfSome result (λ column. column < length values.now) }
{
    let mut farthest = 0;
    let mut found = None;
    for (column, value) in values.iter().enumerate() {
        let distance = distance(*value, denominator);
        if farthest < distance {
            farthest = distance;
            found = Some(column);
        }
    }
    found
}

/// Returns how far a value is from the nearest whole number, times the denominator.
fn distance(value: i128, denominator: Narrow) -> i128
    requires { pos 1 ≤ℤ denominator }
{
    let above = value.rem_euclid(denominator.wide());
    if 2 * above <= denominator.wide() {
        above
    } else {
        denominator.wide() - above
    }
}

/// Splits a span at a value that is not whole. Returns None if a part is empty or its end is not narrow.
fn split_at(column: usize, value: i128, denominator: Narrow, span: Span) -> Option<Split>
    requires { pos 1 ≤ℤ denominator }
    ensures { IfSome result (λ split. split.column ≡ column) }
{
    let floor = floor(value, denominator)?;
    let next = Narrow::new(floor.get() + 1)?;
    let below = Span::new(span.least(), floor)?;
    let above = Span::new(next, span.greatest())?;
    let is_above_nearer = denominator.wide() <= 2 * value.rem_euclid(denominator.wide());
    Some(Split {
        column,
        below,
        above,
        is_above_nearer,
    })
}

/// Returns the greatest whole number that is at most a value, or None if it is not narrow.
fn floor(value: i128, denominator: Narrow) -> Option<Narrow>
    requires { pos 1 ≤ℤ denominator }
{
    let floor = i64::try_from(value.div_euclid(denominator.wide())).ok()?;
    Narrow::new(floor)
}

/// Returns the values as whole numbers. Stops if a number does not lie in its span.
fn whole_point(
    alloc: Global,
    root: &[Span],
    values: &[i128],
    denominator: Narrow,
) -> Result<Vec<Narrow>, ProveStop>
    requires values { length values.now ≡ length root.now }
    requires denominator { pos 1 ≤ℤ denominator }
    ensures point { IfOk result (λ point. IsWithin root.now point.items) }
    ensures stops { IfErr result IsLostOrMemory }
{
    let mut point = Vec::new(alloc);
    for i in 0..root.len() {
        match within(root[i], floor(values[i], denominator)) {
            Some(number) => point.push(number)?,
            None => return Err(ProveStop::Lost),
        }
    }
    Ok(point)
}

/// Returns the number if it lies in a span.
fn within(span: Span, number: Option<Narrow>) -> Option<Narrow>
    ensures { IfSome result (λ number. (span.least ≤ℤ number) × (number ≤ℤ span.greatest)) }
{
    let number = number?;
    if span.least() <= number && number <= span.greatest() {
        Some(number)
    } else {
        None
    }
}
