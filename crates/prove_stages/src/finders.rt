//! The search for compositions that weigh enough.

ghost use Rattle.std.specs.Prelude.{◌≡◌, ◌<◌, IfOk, IfSome, OnOk, length};
ghost use Rattle.prove_stages.specs.Shapes.{IsFinder};
ghost use Rattle.prove_limits.specs.Budgets.{SpendsOn};

use crate::searches::reach;
use crate::tables::{row_spans, table_of};
use prove_branching::{Found, search, search_weighing};
use prove_limits::{Budget, Narrow, ProveStop, Span};
use prove_program::Program;
use prove_table::Table;
use std::alloc::Global;

/// A search for compositions that meet the quotas and attain the caps of the closed stages.
#[derive(Drop)]
pub(crate) struct Finder<'a> {
    alloc: Global,
    program: &'a Program,
    table: Table,
    rows: Vec<Span>,
}

impl<'a> Finder<'a> {
    /// Returns a search with no closed stage.
    pub(crate) fn new(alloc: Global, program: &'a Program) -> Result<Finder<'a>, ProveStop>
        ensures { IfOk result (IsFinder (length program.entry.now.firsts)) }
    {
        let mut table = table_of(alloc, program)?;
        table.aim(&[], 1)?;
        let rows = row_spans(alloc, program, Narrow::ONE)?;
        Ok(Finder {
            alloc,
            program,
            table,
            rows,
        })
    }

    /// Returns a composition, if there is one.
    pub(crate) fn any(&mut self, budget: &mut Budget) -> Result<Option<Vec<Narrow>>, ProveStop>
        requires { IsFinder self.old.table.columns self.old }
        ensures finder { IsFinder self.old.table.columns self.new }
        ensures spends { SpendsOn budget.old budget.new }
        ensures counts { IfOk result (λ found. IfSome found (λ counts. length counts.items ≡ self.old.table.columns)) }
    {
        let spans = self.program.spans();
        let found = search(
            self.alloc,
            &mut self.table,
            spans,
            &self.rows,
            u64::MAX,
            budget,
        )?;
        point_of(found, self.program.columns())
    }

    /// Returns a composition that weighs at least `need`, if there is one.
    pub(crate) fn beating(
        &mut self,
        weights: &[Narrow],
        need: Narrow,
        budget: &mut Budget,
    ) -> Result<Option<Vec<Narrow>>, ProveStop>
        requires finder { IsFinder self.old.table.columns self.old }
        requires weights { length weights.now ≡ self.old.table.columns }
        ensures finder { OnOk result (IsFinder self.old.table.columns self.new) }
        ensures counts { IfOk result (λ found. IfSome found (λ counts. length counts.items ≡ self.old.table.columns)) }
        ensures spends { SpendsOn budget.old budget.new }
        ensures nodes { OnOk result (budget.new.nodes < budget.old.nodes) }
    {
        let span = Span::reaching(need, reach(self.program.spans(), weights)?);
        let found = search_weighing(
            self.alloc,
            &mut self.table,
            self.program.spans(),
            &self.rows,
            weights,
            span,
            u64::MAX,
            budget,
        )?;
        point_of(found, self.program.columns())
    }

    /// Closes a stage: later searches find only compositions that weigh exactly its cap.
    pub(crate) fn close(&mut self, weights: &[Narrow], cap: Narrow) -> Result<(), ProveStop>
        requires finder { IsFinder self.old.table.columns self.old }
        requires weights { length weights.now ≡ self.old.table.columns }
        ensures { OnOk result (IsFinder self.old.table.columns self.new) }
    {
        self.table.add_row(weights)?;
        self.rows.push(Span::point(cap))?;
        Ok(())
    }
}

/// Returns the point that was found, if there is one. Stops if it has not `columns` numbers, or if the search ended in doubt.
fn point_of(found: Found, columns: usize) -> Result<Option<Vec<Narrow>>, ProveStop>
    ensures { IfOk result (λ found. IfSome found (λ counts. length counts.items ≡ columns)) }
{
    match found {
        Found::Point(point) if point.len() == columns => Ok(Some(point)),
        Found::Nothing => Ok(None),
        Found::Point(_) | Found::Doubt => Err(ProveStop::Lost),
    }
}
