//! The search for a tree that its count of nodes alone ends. A node that one row refutes is a leaf. Else a table looks for a point there.
//! Where the table fails, or where its multipliers pass the limits of a line, the node is split again: once every column is settled, one
//! row decides.

ghost use Rattle.prove_limits.specs.Budgets.{SpendsOn};

use crate::paths::SplitPath;
use prove_branching::{Refutation, Step, in_lowest_terms};
use prove_limits::{Budget, Limit, Narrow, ProveStop, Span, times, wide_add};
use prove_table::Table;
use std::alloc::{AllocError, Global};

/// The most pivots that a table makes at one node. Where it needs more, the node is split.
const NODE_PIVOTS: u64 = 20_000;

/// The greatest scale, and the greatest absolute value of a factor, in a line of a proof: 2^56.
const LINE_LIMIT: u64 = 72_057_594_037_927_936;

/// A row of a search: a coefficient for each column, and the span of the sums that it allows.
#[derive(Debug, Drop)]
pub(crate) struct SplitRow {
    pub(crate) coefficients: Vec<Narrow>,
    pub(crate) span: Span,
    /// The number of the row's constraint; None for the row of the weights.
    pub(crate) number: Option<usize>,
}

/// What a search does at a node.
enum AtSplit {
    /// The node has no point.
    Refuted(Refutation),
    /// This column is split.
    Split(usize),
    /// Each row allows a point of whole numbers.
    Point,
}

/// The search for a tree of steps which show that no point of whole numbers keeps the rows. The rows are in the order of their numbers, and
/// the row of the weights, if there is one, is the last.
#[derive(Drop)]
pub(crate) struct SplitSearch<'a> {
    alloc: Global,
    columns: &'a [Span],
    rows: Vec<SplitRow>,
    // what the search aims at: the weights, or nothing
    goal: Vec<i64>,
    // the table of the last node, unless it failed
    table: Option<Table>,
}

impl<'a> SplitSearch<'a> {
    /// Returns a search before its first node.
    pub(crate) fn new(
        alloc: Global,
        columns: &'a [Span],
        rows: Vec<SplitRow>,
        goal: Vec<i64>,
    ) -> SplitSearch<'a> {
        SplitSearch {
            alloc,
            columns,
            rows,
            goal,
            table: None,
        }
    }

    /// Returns a step for each node, or None if some node has a point. Stops only if no node is left in `trees`, or for want of memory.
    pub(crate) fn steps(&mut self, trees: &mut Budget) -> Result<Option<Vec<Step>>, ProveStop>
        ensures { SpendsOn trees.old trees.new }
    {
        let mut path = SplitPath::new(self.alloc, self.columns)?;
        let mut steps = Vec::new(self.alloc);
        'nodes: loop {
            trees.take_node()?;
            match self.at(path.spans())? {
                AtSplit::Point => return Ok(None),
                AtSplit::Split(column) => {
                    steps.push(Step::Split(column))?;
                    if !path.enter(column)? {
                        return Ok(None);
                    }
                }
                AtSplit::Refuted(refutation) => {
                    steps.push(Step::Refuted(refutation))?;
                    if !path.turn()? {
                        return Ok(Some(steps));
                    }
                }
            }
        }
    }

    /// Returns what the search does at the node where the columns have these spans.
    fn at(&mut self, spans: &[Span]) -> Result<AtSplit, AllocError> {
        if let Some(refutation) = self.by_one_row(spans)? {
            return Ok(AtSplit::Refuted(refutation));
        }
        match self.by_table(spans) {
            Ok(at) => Ok(at),
            Err(ProveStop::OutOfMemory) => Err(AllocError),
            Err(_) => {
                self.table = None;
                Ok(first_open(spans))
            }
        }
    }

    /// Returns the refutation by the first row that no point of these spans keeps, if there is one.
    fn by_one_row(&self, spans: &[Span]) -> Result<Option<Refutation>, AllocError> {
        for row in &self.rows {
            if let Some(factor) = broken(row, spans) {
                return Ok(Some(self.refuted_by(row, factor)?));
            }
        }
        Ok(None)
    }

    /// Returns the refutation by one row, which is multiplied by 1 or -1. The row of the weights has a scale in place of a multiplier.
    fn refuted_by(&self, row: &SplitRow, factor: i128) -> Result<Refutation, AllocError> {
        let mut multipliers = Vec::new(self.alloc);
        let mut scale = 1;
        if let Some(number) = row.number {
            scale = 0;
            multipliers.push((number, factor))?;
        }
        Ok(Refutation { scale, multipliers })
    }

    /// Returns what a table has at a node. Stops if the table fails, or if its multipliers pass the limits of a line.
    fn by_table(&mut self, spans: &[Span]) -> Result<AtSplit, ProveStop> {
        let mut table = match self.table.take() {
            Some(table) => table,
            None => self.new_table()?,
        };
        let mut rows = Vec::new(self.alloc);
        for row in &self.rows {
            rows.push(row.span)?;
        }
        if table.columns() != spans.len() || table.rows() != rows.len() {
            return Err(ProveStop::Lost);
        }
        let mut pivots = Budget::new(NODE_PIVOTS, 0);
        let at = if table.run(spans, &rows, &mut pivots)? {
            let values = table.point(self.alloc)?;
            match most_broken(&values, table.denominator(), spans) {
                Some(column) => AtSplit::Split(column),
                None => AtSplit::Point,
            }
        } else {
            AtSplit::Refuted(self.refutation_of(&table)?)
        };
        self.table = Some(table);
        Ok(at)
    }

    /// Returns a table of the rows.
    fn new_table(&self) -> Result<Table, ProveStop> {
        let mut table = Table::new(self.alloc, self.columns.len())?;
        for row in &self.rows {
            if row.coefficients.len() != table.columns() {
                return Err(ProveStop::Lost);
            }
            table.add_row(&row.coefficients)?;
        }
        table.aim(&self.goal, 1)?;
        Ok(table)
    }

    /// Returns the multipliers by which a table refutes its node, in lowest terms. Stops if one passes the limits of a line.
    fn refutation_of(&self, table: &Table) -> Result<Refutation, ProveStop> {
        let factors = table.refutation(self.alloc)?;
        let mut pairs = Vec::new(self.alloc);
        let mut scale = Narrow::ZERO;
        for (row, factor) in self.rows.iter().zip(&factors) {
            match row.number {
                Some(number) => pairs.push((number, *factor))?,
                None => scale = (-*factor).max(Narrow::ZERO),
            }
        }
        let refutation = in_lowest_terms(self.alloc, scale, &pairs)?;
        if is_line(&refutation) {
            Ok(refutation)
        } else {
            Err(ProveStop::Lost)
        }
    }
}

/// True if a line of a proof can have the numbers of a refutation.
pub(crate) fn is_line(refutation: &Refutation) -> bool {
    let limit = LINE_LIMIT as u128;
    let are_short = refutation
        .multipliers
        .iter()
        .all(|pair| pair.1.unsigned_abs() <= limit);
    refutation.scale <= LINE_LIMIT && are_short
}

/// Returns the factor by which a row refutes a node with these spans: -1 if each point falls short of the row's span, 1 if each passes it.
fn broken(row: &SplitRow, spans: &[Span]) -> Option<i128> {
    let (least, greatest) = reach(&row.coefficients, spans).ok()?;
    if greatest < row.span.least().wide() {
        return Some(-1);
    }
    if row.number.is_some() && row.span.greatest().wide() < least {
        return Some(1);
    }
    None
}

/// Returns the least and the greatest sum of the coefficients that a point of these spans can have.
fn reach(coefficients: &[Narrow], spans: &[Span]) -> Result<(i128, i128), ProveStop> {
    let mut least = 0;
    let mut greatest = 0;
    for (coefficient, span) in coefficients.iter().zip(spans) {
        let (low, high) = (
            times(*coefficient, span.least()),
            times(*coefficient, span.greatest()),
        );
        least = wide_add(least, low.min(high))?;
        greatest = wide_add(greatest, low.max(high))?;
    }
    Ok((least, greatest))
}

/// Splits the first column that is not settled. If each is, no row refutes the node, so its point keeps them all.
fn first_open(spans: &[Span]) -> AtSplit {
    for (column, span) in spans.iter().enumerate() {
        if !span.is_point() {
            return AtSplit::Split(column);
        }
    }
    AtSplit::Point
}

/// Returns the first unsettled column whose value is farthest from a whole number, or None if each of them is whole.
fn most_broken(values: &[i128], denominator: Narrow, spans: &[Span]) -> Option<usize> {
    let denominator = denominator.wide().max(1);
    let mut farthest = 0;
    let mut found = None;
    for (column, (value, span)) in values.iter().zip(spans).enumerate() {
        let above = value.rem_euclid(denominator);
        let distance = above.min(denominator - above);
        if !span.is_point() && farthest < distance {
            farthest = distance;
            found = Some(column);
        }
    }
    found
}
