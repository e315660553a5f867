//! Programs: columns, their spans and rows, made of a pool.

ghost use Rattle.std.specs.Prelude.{◌≡◌, List, [], ◌<◌, ◌^◌, IfOk, map, length, slice_index, slice_index_or, pos, ◌≤ℤ◌};
ghost use Rattle.std.specs.List.{All};
ghost use Rattle.define_proofs.specs.Constraints.{constraint_at, constraints};
ghost use Rattle.define_pools.specs.Certificate.{Stage};
ghost use Rattle.define_pools.specs.Pool.{Pool as SeenPool};
ghost use Rattle.prove_program.specs.Demands.{AreColumns, IsColumn, NumberColumns, shared_households as households_of};
ghost use Rattle.prove_program.specs.Programs.{IsProgram, number_after, program_by_class, program_by_volunteer, program_over, quota_constraints, span_of};

use crate::columns::{Column, class_columns, everybody, numbers_of_classes, own_columns};
use crate::demands::{push_households, quota_demands, shared_households};
use crate::rows::{QuotaRow, narrow, rows, span};
use alike::classes;
use pool_model::Pool;
use prove_limits::{Narrow, Span};
use std::alloc::{AllocError, Global};
use std::marker::Model;

/// The quotas of a pool as a program of whole numbers: columns of volunteers, each with the span of how many of its members a panel may
/// have, and a row for each constraint that some point of these spans breaks, in the order of the constraints. Each volunteer is in one
/// column.
#[derive(Debug, Drop)]
pub struct Program {
    column_numbers: Vec<usize>,
    firsts: Vec<usize>,
    sizes: Vec<Narrow>,
    spans: Vec<Span>,
    rows: Vec<QuotaRow>,
    quotas: usize,
}

impl Model for Program {
    ghost use Rattle.prove_program.specs.Programs.{IsProgram, Program as Seen};

    ghost Value = { Seen };

    ghost view = { λ p. record {
      column_numbers = p.column_numbers.items;
      firsts = p.firsts.items;
      sizes = p.sizes.items;
      spans = p.spans.items;
      rows = p.rows.items;
      quotas = p.quotas;
    } };

    ghost invariant = { λ p. IsProgram (record {
      column_numbers = p.column_numbers.items;
      firsts = p.firsts.items;
      sizes = p.sizes.items;
      spans = p.spans.items;
      rows = p.rows.items;
      quotas = p.quotas;
    }) };
}

impl Program {
    /// Returns the program over classes of alike volunteers, in the order of their first members. Someone who shares a household is in a
    /// class alone.
    pub fn by_class(alloc: Global, pool: &Pool) -> Result<Program, AllocError>
        ensures { IfOk result (λ program. program ≡ program_by_class pool.now) }
    {
        pool.facts();
        let found = classes(alloc, pool)?;
        let numbers = numbers_of_classes(alloc, pool, &found)?;
        let households = shared_households(alloc, pool, &found, &numbers)?;
        let columns = class_columns(alloc, pool, &found)?;
        over(alloc, pool, &households, numbers, &columns)
    }

    /// Returns the program over single volunteers, in their order.
    pub fn by_volunteer(alloc: Global, pool: &Pool) -> Result<Program, AllocError>
        ensures { IfOk result (λ program. program ≡ program_by_volunteer pool.now) }
    {
        pool.facts();
        let found = classes(alloc, pool)?;
        let numbers = numbers_of_classes(alloc, pool, &found)?;
        let households = shared_households(alloc, pool, &found, &numbers)?;
        let columns = own_columns(alloc, pool)?;
        let everybody = everybody(alloc, pool)?;
        over(alloc, pool, &households, everybody, &columns)
    }

    /// Returns how many columns there are.
    pub fn columns(&self) -> usize
        ensures { result ≡ length self.now.firsts }
    {
        self.firsts.len()
    }

    /// Returns how many volunteers there are.
    pub fn volunteers(&self) -> usize
        ensures { result ≡ length self.now.column_numbers }
    {
        self.column_numbers.len()
    }

    /// Returns the number of a volunteer's column.
    pub fn column_of(&self, volunteer: usize) -> usize
        requires { volunteer < length self.now.column_numbers }
        ensures value { result ≡ slice_index self.now.column_numbers volunteer }
        ensures within { result < length self.now.firsts }
    {
        self.column_numbers[volunteer]
    }

    /// Returns the first member of a column.
    pub fn first_of(&self, column: usize) -> usize
        requires { column < length self.now.firsts }
        ensures value { result ≡ slice_index self.now.firsts column }
        ensures within { result < length self.now.column_numbers }
    {
        self.firsts[column]
    }

    /// Returns how many members a column has, from 1 to 4,000.
    pub fn size_of(&self, column: usize) -> Narrow
        requires { column < length self.now.firsts }
        ensures value { result ≡ slice_index_or self.now.sizes column (pos 0) }
        ensures has_member { pos 1 ≤ℤ result }
        ensures few { result ≤ℤ pos 4000 }
    {
        self.sizes[column]
    }

    /// Returns the span of each column: how many of its members a panel may have. A panel has all members of a seated column, and none of a
    /// gone one.
    pub fn spans(&self) -> &[Span]
        ensures value { result.now ≡ self.now.spans }
        ensures one_each { length result.now ≡ length self.now.firsts }
    {
        &self.spans
    }

    /// Returns the rows, in the order of their constraints.
    pub fn rows(&self) -> &[QuotaRow]
        ensures { result.now ≡ self.now.rows }
    {
        &self.rows
    }

    /// Returns the number that a row's constraint has in the tree of a stage that comes after `stages` other stages.
    pub fn number_after(&self, row: &QuotaRow, stages: usize) -> usize
        requires { stages < 2 ^ 63 }
        ensures value { result ≡ number_after self.now row.now stages }

        // In a program of a pool, the result is the number that the row's constraint has after these stages.
        ensures constraint { (pool : SeenPool) (earlier : List Stage) → self.now.quotas ≡ length (quota_constraints pool) → stages ≡ length earlier →
            constraint_at (constraints pool earlier) result ≡ constraint_at (constraints pool []) row.now.number }
    {
        if row.number() < self.quotas {
            row.number()
        } else {
            row.number() + stages
        }
    }

    /// Does nothing. Its contract says what holds of every program.
    pub fn facts(&self)
        ensures { IsProgram self.now }
    {
        let _ = &self.quotas;
    }
}

/// Returns the program over columns, with the number of each volunteer's column.
fn over(
    alloc: Global,
    pool: &Pool,
    households: &[Option<usize>],
    column_numbers: Vec<usize>,
    columns: &[Column],
) -> Result<Program, AllocError>
    requires households { households.now ≡ households_of pool.now }
    requires columns { AreColumns pool.now columns.now }
    requires numbers { NumberColumns pool.now column_numbers.items columns.now }
    ensures { IfOk result (λ program. program ≡ program_over pool.now column_numbers.items columns.now) }
{
    pool.facts();
    let mut demands = quota_demands(alloc, pool)?;
    let quotas = demands.len();
    push_households(&mut demands, pool, households)?;
    let rows = rows(alloc, pool, households, columns, &demands)?;
    let firsts = firsts(alloc, columns)?;
    let sizes = sizes(alloc, columns)?;
    let spans = spans(alloc, columns)?;
    Ok(Program {
        column_numbers,
        firsts,
        sizes,
        spans,
        rows,
        quotas,
    })
}

/// Returns the first member of each column.
fn firsts(alloc: Global, columns: &[Column]) -> Result<Vec<usize>, AllocError>
    ensures { IfOk result (λ firsts. firsts.items ≡ map (λ column. column.first) columns.now) }
{
    columns.iter().map(|column| column.first).collect(alloc)
}

/// Returns the size of each column.
fn sizes(alloc: Global, columns: &[Column]) -> Result<Vec<Narrow>, AllocError>
    requires { All IsColumn columns.now }
    ensures { IfOk result (λ sizes. sizes.items ≡ map (λ column. pos column.size) columns.now) }
{
    let mut sizes = Vec::new(alloc);
    for column in columns {
        sizes.push(narrow(column.size))?;
    }
    Ok(sizes)
}

/// Returns the span of each column.
fn spans(alloc: Global, columns: &[Column]) -> Result<Vec<Span>, AllocError>
    requires { All IsColumn columns.now }
    ensures { IfOk result (λ spans. spans.items ≡ map span_of columns.now) }
{
    let mut spans = Vec::new(alloc);
    for column in columns {
        spans.push(span(column.least, column.greatest))?;
    }
    Ok(spans)
}
