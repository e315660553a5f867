//! Searches over classes of alike volunteers for a selection that meets the kept bounds; and if there is none, over single volunteers for a
//! tree that shows this. Promise: nothing of the budget is given back.

ghost use Rattle.std.specs.Prelude.{◌≡◌, IfOk, length};
ghost use Rattle.prove_limits.specs.Budgets.{SpendsOn};
ghost use Rattle.quota_conflicts.specs.Searches.{IsSearch};

use crate::kept::{Kept, is_kept};
use crate::lines::{Line, lines_of_steps};
use define_quotas::Side;
use pool_model::{Panel, Pool};
use prove_branching::{Found, prove_empty, search};
use prove_limits::{Budget, Narrow, ProveStop, Span};
use prove_program::{Program, QuotaRow};
use prove_stages::table_of;
use prove_table::Table;
use std::alloc::{AllocError, Global};

/// The greatest number of a row's span if the row's upper bound isn't kept, and the pool has no more volunteers.
const MOST: u32 = 999;

/// A program of a pool with its table, for one search after another.
#[derive(Drop)]
pub(crate) struct Search {
    program: Program,
    table: Table,
}

/// What a search found.
#[derive(Debug, Drop)]
pub(crate) enum Tried {
    /// A selection that meets the kept bounds, if the table computed right.
    Met(Panel),
    /// A tree that shows that no selection meets the kept bounds, if the table computed right.
    Refuted(Vec<Line>),
    /// Neither was found, and the search may look at no further node.
    Doubt,
}

impl Search {
    /// Returns a search over the classes of a pool.
    pub(crate) fn by_class(alloc: Global, pool: &Pool) -> Result<Search, ProveStop>
        ensures { IfOk result IsSearch }
    {
        let program = Program::by_class(alloc, pool)?;
        let mut table = table_of(alloc, &program)?;
        table.aim(&[], 1)?;
        Ok(Search { program, table })
    }

    /// Returns a search over single volunteers of a pool.
    fn by_volunteer(alloc: Global, pool: &Pool) -> Result<Search, ProveStop>
        ensures { IfOk result IsSearch }
    {
        let program = Program::by_volunteer(alloc, pool)?;
        let mut table = table_of(alloc, &program)?;
        table.aim(&[], 1)?;
        Ok(Search { program, table })
    }

    /// Looks for a selection that meets the kept bounds, at no more than `most` nodes. If there is none, makes a tree that shows this; only
    /// the budget limits the nodes at which the tree is made.
    pub(crate) fn try_kept(
        &mut self,
        alloc: Global,
        pool: &Pool,
        kept: &[Kept],
        most: u64,
        budget: &mut Budget,
    ) -> Result<Tried, ProveStop>
        requires { IsSearch self.old }
        ensures search { IsSearch self.new }
        ensures spends { SpendsOn budget.old budget.new }
    {
        let rows = kept_spans(alloc, &self.program, kept)?;
        let spans = self.program.spans();
        match search(alloc, &mut self.table, spans, &rows, most, budget)? {
            Found::Point(point) => {
                let selection = selection_of(alloc, &self.program, &point)?;
                Ok(Tried::Met(selection))
            }
            Found::Nothing => {
                let lines = self.refutation(alloc, pool, kept, budget)?;
                Ok(Tried::Refuted(lines))
            }
            Found::Doubt => Ok(Tried::Doubt),
        }
    }

    /// Looks for a selection that meets the kept bounds, at no more than `most` nodes. Returns None if there is none, or if none was found
    /// at these nodes.
    pub(crate) fn selection(
        &mut self,
        alloc: Global,
        kept: &[Kept],
        most: u64,
        budget: &mut Budget,
    ) -> Result<Option<Panel>, ProveStop>
        requires { IsSearch self.old }
        ensures search { IsSearch self.new }
        ensures spends { SpendsOn budget.old budget.new }
    {
        let rows = kept_spans(alloc, &self.program, kept)?;
        let spans = self.program.spans();
        match search(alloc, &mut self.table, spans, &rows, most, budget)? {
            Found::Point(point) => {
                let selection = selection_of(alloc, &self.program, &point)?;
                Ok(Some(selection))
            }
            Found::Nothing | Found::Doubt => Ok(None),
        }
    }

    /// Returns the lines of a tree that shows that no selection meets the kept bounds: one leaf if the classes have no point, else the
    /// tree of a search over single volunteers.
    fn refutation(
        &mut self,
        alloc: Global,
        pool: &Pool,
        kept: &[Kept],
        budget: &mut Budget,
    ) -> Result<Vec<Line>, ProveStop>
        requires { IsSearch self.old }
        ensures search { IsSearch self.new }
        ensures spends { SpendsOn budget.old budget.new }
    {
        let lines = self.tree(alloc, kept, budget)?;
        if lines.len() <= 1 {
            return Ok(lines);
        }
        let mut single = Search::by_volunteer(alloc, pool)?;
        single.tree(alloc, kept, budget)
    }

    /// Returns the lines of the tree that shows that no whole point meets the kept bounds. Stops as lost if one meets them.
    fn tree(
        &mut self,
        alloc: Global,
        kept: &[Kept],
        budget: &mut Budget,
    ) -> Result<Vec<Line>, ProveStop>
        requires { IsSearch self.old }
        ensures search { IsSearch self.new }
        ensures spends { SpendsOn budget.old budget.new }
    {
        let rows = kept_spans(alloc, &self.program, kept)?;
        let numbers = numbers(alloc, &self.program)?;
        let spans = self.program.spans();
        let steps = prove_empty(alloc, &mut self.table, spans, &rows, &numbers, None, budget)?;
        let lines = lines_of_steps(alloc, steps.ok_or(ProveStop::Lost)?, kept)?;
        Ok(lines)
    }
}

/// Returns the spans of the rows. A span begins at 0 if the row's lower bound isn't kept. If its upper bound isn't kept, the span ends at
/// `MOST`, or in a larger pool at the number of volunteers.
fn kept_spans(alloc: Global, program: &Program, kept: &[Kept]) -> Result<Vec<Span>, AllocError>
    ensures { IfOk result (λ spans. length spans.items ≡ length program.now.rows) }
{
    let volunteers = u32::try_from(program.volunteers()).unwrap_or(MOST);
    let most = MOST.max(volunteers);
    let mut spans = Vec::new(alloc);
    for row in 0..program.rows().len() {
        spans.push(kept_span(&program.rows()[row], kept, most))?;
    }
    Ok(spans)
}

fn kept_span(row: &QuotaRow, kept: &[Kept], most: u32) -> Span {
    let least = if is_kept(kept, row.number(), Side::AtLeast) {
        row.span().least()
    } else {
        Narrow::ZERO
    };
    let greatest = if is_kept(kept, row.number(), Side::AtMost) {
        row.span().greatest()
    } else {
        Narrow::from(most)
    };
    Span::reaching(least, greatest)
}

/// Returns the numbers of the rows' constraints.
fn numbers(alloc: Global, program: &Program) -> Result<Vec<usize>, AllocError>
    ensures { IfOk result (λ numbers. length numbers.items ≡ length program.now.rows) }
{
    let mut numbers = Vec::new(alloc);
    for row in 0..program.rows().len() {
        numbers.push(program.rows()[row].number())?;
    }
    Ok(numbers)
}

/// Returns the selection that has the first members of each column, as many as the point says.
pub fn selection_of(
    alloc: Global,
    program: &Program,
    point: &[Narrow],
) -> Result<Panel, ProveStop> {
    program.facts();
    let mut left = Vec::new(alloc);
    for number in point {
        left.push(number.get())?;
    }
    let mut members = Vec::new(alloc);
    for volunteer in 0..program.volunteers() {
        if let Some(number) = left.get_mut(program.column_of(volunteer)) {
            if *number > 0 {
                *number -= 1;
                members.push(volunteer)?;
            }
        }
    }
    Panel::new(members).ok_or(ProveStop::Lost)
}
