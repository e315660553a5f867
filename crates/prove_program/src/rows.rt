//! The rows of a program: a demand becomes a row if some point of the columns' spans breaks it. `QuotaRow` is public; its calls say which
//! part of a row they return.

ghost use Rattle.std.specs.Prelude.{◌≡◌, ℕ, ◌≤◌, if◌then◌else◌, IfOk, map, length, pos, sum_by};
ghost use Rattle.std.specs.List.{All};
ghost use Rattle.define_proofs.specs.Constraints.{coefficient};
ghost use Rattle.prove_program.specs.Demands.{AreColumns, AreDemands, HasBounds, constraint_of, is_counted, shared_households};
ghost use Rattle.prove_program.specs.Programs.{can_break as breaks, row_of, rows_of};

use crate::columns::Column;
use crate::demands::{Counted, Demand, counts};
use pool_model::Pool;
use prove_limits::{Narrow, Span};
use std::alloc::{AllocError, Global};
use std::marker::Model;

/// A constraint that some point of the columns' spans breaks: its number, a coefficient of 0 or 1 for each column, and the span of the sums
/// that it allows.
#[derive(Debug, Drop)]
pub struct QuotaRow {
    number: usize,
    coefficients: Vec<Narrow>,
    span: Span,
}

impl Model for QuotaRow {
    ghost use Rattle.std.specs.Prelude.{◌≤◌};
    ghost use Rattle.prove_program.specs.Programs.{QuotaRow as Seen};

    ghost Value = { Seen };

    ghost view = { λ r. record { number = r.number; coefficients = r.coefficients.items; span = r.span } };

    ghost invariant = { λ r. r.number ≤ 5000 };
}

impl QuotaRow {
    fn new(number: usize, coefficients: Vec<Narrow>, span: Span) -> QuotaRow
        requires { number ≤ 5000 }
        ensures { result ≡ record { number = number; coefficients = coefficients.items; span = span } }
    {
        QuotaRow {
            number,
            coefficients,
            span,
        }
    }

    /// Returns the number of the constraint in a proof's first stage.
    pub fn number(&self) -> usize
        ensures value { result ≡ self.now.number }
        ensures within { result ≤ 5000 }
    {
        self.number
    }

    /// Returns the coefficients by column: 1 if the constraint counts the column's members, else 0.
    pub fn coefficients(&self) -> &[Narrow]
        ensures { result.now ≡ self.now.coefficients }
    {
        &self.coefficients
    }

    /// Returns the span of the sums that the constraint allows.
    pub fn span(&self) -> Span
        ensures { result ≡ self.now.span }
    {
        self.span
    }
}

/// Returns the rows of the demands that can be broken. All demands are numbered from 0, and a row has the number of its demand.
pub(crate) fn rows(
    alloc: Global,
    pool: &Pool,
    households: &[Option<usize>],
    columns: &[Column],
    demands: &[Demand],
) -> Result<Vec<QuotaRow>, AllocError>
    requires households { households.now ≡ shared_households pool.now }
    requires columns { AreColumns pool.now columns.now }
    requires demands { AreDemands demands.now }
    ensures { IfOk result (λ rows. rows.items ≡ rows_of columns.now (map (constraint_of pool.now) demands.now)) }
{
    let mut rows = Vec::new(alloc);
    for (number, demand) in demands.iter().enumerate() {
        if can_break(pool, households, columns, demand) {
            rows.push(row(alloc, pool, households, columns, number, demand)?)?;
        }
    }
    Ok(rows)
}

/// True if some point of the columns' spans breaks a demand.
fn can_break(pool: &Pool, households: &[Option<usize>], columns: &[Column], demand: &Demand) -> bool
    requires households { households.now ≡ shared_households pool.now }
    requires columns { AreColumns pool.now columns.now }
    ensures { (number : ℕ) → result ≡ breaks columns.now (number, constraint_of pool.now demand.now) }
{
    let (least, greatest) = reach(pool, households, columns, demand.counted);
    least < demand.lower || demand.upper < greatest
}

/// Returns the least and the greatest number of people whom a demand counts, over all points of the columns' spans.
fn reach(
    pool: &Pool,
    households: &[Option<usize>],
    columns: &[Column],
    counted: Counted,
) -> (usize, usize)
    requires households { households.now ≡ shared_households pool.now }
    requires columns { AreColumns pool.now columns.now }
    ensures least { result.0 ≡ sum_by (λ column. if is_counted pool.now counted column.first then column.least else 0) columns.now }
    ensures greatest { result.1 ≡ sum_by (λ column. if is_counted pool.now counted column.first then column.greatest else 0) columns.now }
{
    let (mut least, mut greatest) = (0, 0);
    for column in columns {
        if counts(pool, households, counted, column.first) {
            least += column.least;
            greatest += column.greatest;
        }
    }
    (least, greatest)
}

/// Returns the row of `demand`, whose number is `number`.
fn row(
    alloc: Global,
    pool: &Pool,
    households: &[Option<usize>],
    columns: &[Column],
    number: usize,
    demand: &Demand,
) -> Result<QuotaRow, AllocError>
    requires households { households.now ≡ shared_households pool.now }
    requires columns { AreColumns pool.now columns.now }
    requires number { number ≤ 5000 }
    requires bounds { HasBounds demand.now }
    ensures { IfOk result (λ row. row ≡ row_of columns.now (number, constraint_of pool.now demand.now)) }
{
    let coefficients = coefficients(alloc, pool, households, columns, demand)?;
    let allowed = span(demand.lower, demand.upper);
    Ok(QuotaRow::new(number, coefficients, allowed))
}

/// Returns the coefficient of each column.
fn coefficients(
    alloc: Global,
    pool: &Pool,
    households: &[Option<usize>],
    columns: &[Column],
    demand: &Demand,
) -> Result<Vec<Narrow>, AllocError>
    requires households { households.now ≡ shared_households pool.now }
    requires columns { AreColumns pool.now columns.now }
    ensures { IfOk result (λ values. values.items ≡ map (λ column. coefficient (constraint_of pool.now demand.now) column.first) columns.now) }
{
    let mut values = Vec::new(alloc);
    for column in columns {
        let is_counted = counts(pool, households, demand.counted, column.first);
        values.push(one_if(is_counted))?;
    }
    Ok(values)
}

fn one_if(holds: bool) -> Narrow
    ensures { result ≡ (if holds then pos 1 else pos 0) }
{
    if holds { Narrow::ONE } else { Narrow::ZERO }
}

/// Returns the span `least..=greatest`.
pub(crate) fn span(least: usize, greatest: usize) -> Span
    requires order { least ≤ greatest }
    requires few { greatest ≤ 4000 }
    ensures { result ≡ record { least = pos least; greatest = pos greatest } }
{
    match Span::new(narrow(least), narrow(greatest)) {
        Some(span) => span,
        None => unreachable!(),
    }
}

/// Returns a count as a narrow number.
pub(crate) fn narrow(count: usize) -> Narrow
    requires { count ≤ 4000 }
    ensures { result ≡ pos count }
{
    Narrow::from(count as u32)
}
