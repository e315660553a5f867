//! The table of a program, and the spans of its rows. The contracts promise how many rows and columns the table has, and how many spans
//! there are.

ghost use Rattle.std.specs.Prelude.{◌≡◌, length, IfOk};

use prove_limits::{Narrow, ProveStop, Span, narrow_mul};
use prove_program::Program;
use prove_table::Table;
use std::alloc::Global;

/// Returns a table with the program's columns and rows.
pub fn table_of(alloc: Global, program: &Program) -> Result<Table, ProveStop>
    ensures rows { IfOk result (λ table. table.rows ≡ length program.now.rows) }
    ensures columns { IfOk result (λ table. table.columns ≡ length program.now.firsts) }
{
    program.facts();
    let mut table = Table::new(alloc, program.columns())?;
    for row in 0..program.rows().len() {
        table.add_row(program.rows()[row].coefficients())?;
    }
    Ok(table)
}

/// Returns the rows' spans, times `multiple`.
pub fn row_spans(alloc: Global, program: &Program, multiple: Narrow) -> Result<Vec<Span>, ProveStop>
    ensures { IfOk result (λ spans. length spans.items ≡ length program.now.rows) }
{
    let mut spans = Vec::new(alloc);
    for row in 0..program.rows().len() {
        let span = program.rows()[row].span();
        let least = narrow_mul(span.least().wide(), multiple.wide())?;
        let greatest = narrow_mul(span.greatest().wide(), multiple.wide())?;
        spans.push(Span::new(least, greatest).ok_or(ProveStop::Lost)?)?;
    }
    Ok(spans)
}
