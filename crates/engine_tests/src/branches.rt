//! Searches and trees of small programs. A reference program in another language made the expected results, lines and counts of nodes and
//! pivots.

use prove_branching::{Found, Step, prove_empty, search};
use prove_limits::{Budget, Narrow, Span};
use prove_table::Table;
use std::alloc::Global;
use std::process::Abort;
use std::test::Fail;

/// Returns a span for each pair.
fn spans(alloc: Global, ends: &[(i64, i64)]) -> Result<Vec<Span>, Fail> {
    let mut spans = Vec::new(alloc);
    for (least, greatest) in ends {
        let least = Narrow::new(*least).ok_or("wide")?;
        let greatest = Narrow::new(*greatest).ok_or("wide")?;
        spans.push(Span::new(least, greatest).ok_or("empty")?)?;
    }
    Ok(spans)
}

/// Returns a table of `columns` columns and these rows, with no goal.
fn table(rt: &impl Abort, alloc: Global, columns: usize, rows: &[&[i64]]) -> Result<Table, Fail> {
    let mut table = Table::new(alloc, columns)?;
    for row in rows {
        let mut coefficients = Vec::new(alloc);
        for coefficient in *row {
            coefficients.push(Narrow::new(*coefficient).ok_or("wide")?)?;
        }
        assert!(rt; coefficients.len() == table.columns());
        table.add_row(&coefficients)?;
    }
    table.aim(&[], 1)?;
    Ok(table)
}

/// Returns what a search finds, and how many nodes and pivots are left of 100 each. `allowed` are the spans of the rows.
fn found(
    rt: &impl Abort,
    alloc: Global,
    columns: &[(i64, i64)],
    rows: &[&[i64]],
    allowed: &[(i64, i64)],
    most: u64,
) -> Result<String, Fail> {
    let mut table = table(rt, alloc, columns.len(), rows)?;
    let (columns, allowed) = (spans(alloc, columns)?, spans(alloc, allowed)?);
    assert!(rt; columns.len() == table.columns());
    assert!(rt; allowed.len() == table.rows());
    let mut budget = Budget::new(100, 100);
    let mut text = match search(alloc, &mut table, &columns, &allowed, most, &mut budget) {
        Ok(Found::Nothing) => String::from_str(alloc, "nothing")?,
        Ok(Found::Doubt) => String::from_str(alloc, "doubt")?,
        Ok(Found::Point(point)) => {
            let mut text = String::from_str(alloc, "point")?;
            for number in &point {
                text.push_str(&format!(in alloc; " {}", number.get())?)?;
            }
            text
        }
        Err(stop) => format!(in alloc; "{stop}")?,
    };
    text.push_str(&format!(in alloc; ", {} {}", budget.nodes(), budget.pivots())?)?;
    Ok(text)
}

/// Spells steps: a split by its column, and a refutation by its scale and, for each multiplier, the number of the row and the factor.
fn spelled(alloc: Global, steps: &[Step]) -> Result<String, Fail> {
    let mut text = String::new(alloc);
    for step in steps {
        match step {
            Step::Split(column) => text.push_str(&format!(in alloc; "{column} ")?)?,
            Step::Refuted(refutation) => {
                text.push_str(&format!(in alloc; "[{}", refutation.scale)?)?;
                for (number, factor) in &refutation.multipliers {
                    text.push_str(&format!(in alloc; " {number}*{factor}")?)?;
                }
                text.push_str("] ")?;
            }
        }
    }
    Ok(text)
}

/// Returns the steps that show that a program has no point, found with at most `nodes` nodes, or why there are no steps. The rows have the
/// numbers 7, 3, 9 and 1.
fn tree(
    rt: &impl Abort,
    alloc: Global,
    columns: &[(i64, i64)],
    rows: &[&[i64]],
    allowed: &[(i64, i64)],
    weight_row: Option<usize>,
    nodes: u64,
) -> Result<String, Fail> {
    let mut table = table(rt, alloc, columns.len(), rows)?;
    let (columns, allowed) = (spans(alloc, columns)?, spans(alloc, allowed)?);
    let numbers = [7, 3, 9, 1]
        .as_slice()
        .get(..rows.len())
        .ok_or("more rows")?;
    assert!(rt; columns.len() == table.columns());
    assert!(rt; allowed.len() == table.rows());
    assert!(rt; numbers.len() == table.rows());
    if let Some(row) = weight_row {
        assert!(rt; row < table.rows());
    }
    let mut budget = Budget::new(100, nodes);
    match prove_empty(
        alloc,
        &mut table,
        &columns,
        &allowed,
        numbers,
        weight_row,
        &mut budget,
    ) {
        Ok(Some(steps)) => spelled(alloc, &steps),
        Ok(None) => Ok(String::from_str(alloc, "a point")?),
        Err(stop) => Ok(format!(in alloc; "{stop}")?),
    }
}

/// Spans of columns, or of rows.
type Ends = &'static [(i64, i64)];

/// The coefficients of rows.
type Rows = &'static [&'static [i64]];

const THREE: Ends = &[(0, 1), (0, 1), (0, 1)];

const FOUR: Ends = &[(0, 1), (0, 1), (0, 1), (0, 1)];

const APART: Ends = &[(0, 1), (0, 1), (0, 1), (2, 3)];

const BOXES: Ends = &[(0, 3), (-2, 2), (0, 1)];

const EXACT: Ends = &[(2, 2), (4, 5)];

const ODD: Rows = &[&[2, 2, 2]];

const PAIRS: Rows = &[&[1, 1, 0], &[0, 1, 1], &[1, 0, 1], &[1, 1, 1]];

const SUMS: Rows = &[&[1, 1, 1], &[2, -1, 3]];

const COINS: Rows = &[&[3, 5, 7, 11]];

/// The columns' spans, the rows, the rows' spans, the most nodes of the search, and what `found` returns.
const SEARCHES: &[(Ends, Rows, Ends, u64, &str)] = &[
    (THREE, ODD, &[(3, 3)], 0, "doubt, 99 100"),
    (THREE, ODD, &[(3, 3)], 1, "doubt, 98 99"),
    (THREE, ODD, &[(3, 3)], 100, "nothing, 89 96"),
    (THREE, PAIRS, APART, 1, "nothing, 99 97"),
    (BOXES, SUMS, EXACT, 100, "point 2 0 0, 99 98"),
    (FOUR, COINS, &[(13, 13)], 100, "nothing, 85 94"),
    (FOUR, COINS, &[(14, 14)], 100, "point 1 0 0 1, 98 98"),
];

/// The columns' spans, the rows, the rows' spans, the row of weights if there is one, the nodes of the budget, and what `tree` returns.
const TREES: &[(Ends, Rows, Ends, Option<usize>, u64, &str)] = &[
    (
        THREE,
        ODD,
        &[(3, 3)],
        None,
        11,
        "0 2 [0 7*-1] 1 [0 7*-1] [0 7*1] 1 2 [0 7*-1] [0 7*1] [0 7*1] ",
    ),
    (
        THREE,
        ODD,
        &[(3, 3)],
        Some(0),
        11,
        "0 2 [1] 1 [1] [0] 1 2 [1] [0] [0] ",
    ),
    (THREE, ODD, &[(3, 3)], None, 10, "a limit is spent"),
    (THREE, PAIRS, APART, None, 1, "[0 1*-2 3*1 7*1 9*1] "),
    (THREE, PAIRS, APART, Some(3), 1, "[2 3*1 7*1 9*1] "),
    (BOXES, SUMS, EXACT, None, 100, "a point"),
];

#[test]
fn searches_go_as_the_reference(rt: HostRuntime) -> Result<(), Fail> {
    let alloc = rt.alloc();
    for (columns, rows, allowed, most, want) in SEARCHES {
        let text = found(&rt, alloc, columns, rows, allowed, *most)?;
        assert_eq!(rt; text.as_str(), *want);
    }
    for (columns, rows, allowed, weight_row, nodes, want) in TREES {
        let text = tree(&rt, alloc, columns, rows, allowed, *weight_row, *nodes)?;
        assert_eq!(rt; text.as_str(), *want);
    }
    Ok(())
}
