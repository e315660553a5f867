//! The searches of `prove_branching` that show that there is no quota panel, or none above the cap of a stage. `trees` and `runs` use this.

ghost use Rattle.std.specs.Prelude.{◌≡◌, ◌+◌, ◌<◌, ◌^◌, IfOk, OnOk, length};
ghost use Rattle.prove_limits.specs.Budgets.{SpendsOn};
ghost use Rattle.prove_run.specs.Shapes.{IsCapSearch};

use crate::splits::{SplitRow, SplitSearch, is_line};
use prove_branching::{Found, Step, add_weights, prove_empty, reach_of, search_weighing};
use prove_limits::{Budget, Limit, Narrow, ProveStop, Span, narrow_add, times, wide_add};
use prove_program::Program;
use prove_stages::{row_spans, table_of};
use prove_table::Table;
use std::alloc::Global;
use std::mem;

/// Returns the steps of the search that shows that there is no quota panel. Stops if there is one.
pub(crate) fn tree_of_none(
    alloc: Global,
    program: &Program,
    budget: &mut Budget,
) -> Result<Vec<Step>, ProveStop>
    ensures { SpendsOn budget.old budget.new }
{
    let mut table = table_of(alloc, program)?;
    table.aim(&[], 1)?;
    let rows = row_spans(alloc, program, Narrow::ONE)?;
    let numbers = numbers_after(alloc, program, 0)?;
    let steps = prove_empty(
        alloc,
        &mut table,
        program.spans(),
        &rows,
        &numbers,
        None,
        budget,
    )?;
    steps.ok_or(ProveStop::Lost)
}

/// Returns the steps that show that there is no quota panel, by a search that splits where a table fails. Returns None if it meets a panel.
/// Stops only if no node is left in `trees`, or for want of memory or width.
pub(crate) fn split_tree_of_none(
    alloc: Global,
    program: &Program,
    trees: &mut Budget,
) -> Result<Option<Vec<Step>>, ProveStop>
    ensures { SpendsOn trees.old trees.new }
{
    let rows = split_rows(alloc, program, &[], 0, 0)?;
    SplitSearch::new(alloc, program.spans(), rows, Vec::new(alloc)).steps(trees)
}

/// Returns the rows of a search after the first `earlier` of the stages `closed`, in the order of their numbers: those of the program, and
/// one for each earlier stage. `quotas` constraints come before those of stages.
fn split_rows(
    alloc: Global,
    program: &Program,
    closed: &[CapRow],
    earlier: usize,
    quotas: usize,
) -> Result<Vec<SplitRow>, ProveStop>
    requires { earlier < 2 ^ 63 }
{
    let mut before = Vec::new(alloc);
    let mut after = Vec::new(alloc);
    for row in program.rows() {
        let number = program.number_after(row, earlier);
        let own = SplitRow {
            coefficients: Vec::from_slice(alloc, row.coefficients())?,
            span: row.span(),
            number: Some(number),
        };
        if number < quotas {
            before.push(own)?;
        } else {
            after.push(own)?;
        }
    }
    for (stage, own) in closed.iter().enumerate().take(earlier) {
        before.push(SplitRow {
            coefficients: Vec::from_slice(alloc, &own.weights)?,
            span: Span::point(own.cap),
            number: Some(quotas.saturating_add(stage)),
        })?;
    }
    before.append(&mut after)?;
    Ok(before)
}

/// Returns, for each row of the program, the number of its constraint at a stage after `stages` earlier ones.
fn numbers_after(alloc: Global, program: &Program, stages: usize) -> Result<Vec<usize>, ProveStop>
    requires { stages < 2 ^ 63 }
    ensures { IfOk result (λ numbers. length numbers.items ≡ length program.now.rows) }
{
    let mut numbers = Vec::new(alloc);
    for row in 0..program.rows().len() {
        numbers.push(program.number_after(&program.rows()[row], stages))?;
    }
    Ok(numbers)
}

/// A stage whose cap was searched for: a weight for each column, and the cap.
#[derive(Drop)]
struct CapRow {
    weights: Vec<Narrow>,
    cap: Narrow,
}

/// The searches for panels above the caps of stages, one stage after the other.
#[derive(Drop)]
pub(crate) struct CapSearch<'a> {
    alloc: Global,
    program: &'a Program,
    table: Table,
    rows: Vec<Span>,
    // the numbers of the constraints of the stages whose rows the table has
    stages: Vec<usize>,
    // how many constraints come before those of stages
    quotas: usize,
    // the stages searched so far
    closed: Vec<CapRow>,
}

impl<'a> CapSearch<'a> {
    /// Returns a search before the first stage. `quotas` constraints come before those of stages.
    pub(crate) fn new(
        alloc: Global,
        program: &'a Program,
        quotas: usize,
    ) -> Result<CapSearch<'a>, ProveStop>
        ensures { IfOk result IsCapSearch }
    {
        Ok(CapSearch {
            alloc,
            program,
            table: table_of(alloc, program)?,
            rows: row_spans(alloc, program, Narrow::ONE)?,
            stages: Vec::new(alloc),
            quotas,
            closed: Vec::new(alloc),
        })
    }

    /// Returns the steps that show the cap of the next stage, or None if a panel is above the cap. Later calls search among the panels that
    /// attain this cap too. If a number passes 2^62, searches once more with few rows.
    pub(crate) fn tree(
        &mut self,
        weights: &[Narrow],
        cap: Narrow,
        budget: &mut Budget,
    ) -> Result<Option<Vec<Step>>, ProveStop>
        requires { IsCapSearch self.old }
        ensures search { OnOk result (IsCapSearch self.new) }
        ensures spends { SpendsOn budget.old budget.new }
    {
        let earlier = self.closed.len();
        let found = self.steps(earlier, weights, cap, budget);
        self.closed.push(CapRow {
            weights: Vec::from_slice(self.alloc, weights)?,
            cap,
        })?;
        match found {
            Err(ProveStop::Wide(_) | ProveStop::BeyondWidth) => {
                self.begin_anew()?;
                self.tree_by_few_rows(earlier, weights, cap, budget)
            }
            found => found,
        }
    }

    /// Returns the steps that show the cap of the next stage as `tree` does. Where that stops before no node is left, or where a step passes
    /// the limits of a line, splits go on.
    pub(crate) fn tree_or_splits(
        &mut self,
        weights: &[Narrow],
        cap: Narrow,
        trees: &mut Budget,
    ) -> Result<Option<Vec<Step>>, ProveStop>
        requires { IsCapSearch self.old }
        ensures search { OnOk result (IsCapSearch self.new) }
        ensures spends { SpendsOn trees.old trees.new }
    {
        let earlier = self.closed.len();
        match self.tree(weights, cap, trees) {
            Ok(None) => return Ok(None),
            Ok(Some(steps)) if are_lines(&steps) => return Ok(Some(steps)),
            Err(ProveStop::OutOfMemory) => return Err(ProveStop::OutOfMemory),
            Err(ProveStop::Spent(Limit::Nodes)) => return Err(ProveStop::Spent(Limit::Nodes)),
            _ => {}
        }
        self.begin_anew()?;
        self.split_tree(earlier, weights, cap, trees)
    }

    /// Returns the steps that show the cap of the next stage, by a search that splits where a table fails. Later calls search among the
    /// panels that attain this cap too.
    pub(crate) fn next_split_tree(
        &mut self,
        weights: &[Narrow],
        cap: Narrow,
        trees: &mut Budget,
    ) -> Result<Option<Vec<Step>>, ProveStop>
        requires { IsCapSearch self.old }
        ensures search { OnOk result (IsCapSearch self.new) }
        ensures spends { SpendsOn trees.old trees.new }
    {
        let earlier = self.closed.len();
        self.closed.push(CapRow {
            weights: Vec::from_slice(self.alloc, weights)?,
            cap,
        })?;
        self.split_tree(earlier, weights, cap, trees)
    }

    /// Returns the steps that show a cap after the first `earlier` stages, by a search that splits where a table fails, or None if it meets a
    /// panel above the cap.
    fn split_tree(
        &self,
        earlier: usize,
        weights: &[Narrow],
        cap: Narrow,
        trees: &mut Budget,
    ) -> Result<Option<Vec<Step>>, ProveStop>
        requires { earlier < 2 ^ 63 }
        ensures { SpendsOn trees.old trees.new }
    {
        let mut rows = split_rows(self.alloc, self.program, &self.closed, earlier, self.quotas)?;
        rows.push(SplitRow {
            coefficients: Vec::from_slice(self.alloc, weights)?,
            span: span_above(weights, cap)?,
            number: None,
        })?;
        let mut goal = Vec::new(self.alloc);
        for weight in weights {
            goal.push(weight.get())?;
        }
        SplitSearch::new(self.alloc, self.program.spans(), rows, goal).steps(trees)
    }

    /// Returns the steps that show the cap of a stage after `earlier` earlier ones, within the rows of the table, or None if a panel within
    /// these rows is above the cap. The table gets the row of the stage.
    fn steps(
        &mut self,
        earlier: usize,
        weights: &[Narrow],
        cap: Narrow,
        budget: &mut Budget,
    ) -> Result<Option<Vec<Step>>, ProveStop>
        requires search { IsCapSearch self.old }
        requires earlier { earlier < 2 ^ 63 }
        ensures search { OnOk result (IsCapSearch self.new) }
        ensures spends { SpendsOn budget.old budget.new }
    {
        let mut numbers = numbers_after(self.alloc, self.program, earlier)?;
        let weight_row = self.rows.len();
        // the row of the weights has a number too, which is not used
        self.add_stage(earlier, weights, span_above(weights, cap)?)?;
        numbers.extend_from_slice(&self.stages)?;
        if numbers.len() != weight_row + 1 {
            return Err(ProveStop::Lost);
        }
        let steps = prove_empty(
            self.alloc,
            &mut self.table,
            self.program.spans(),
            &self.rows,
            &numbers,
            Some(weight_row),
            budget,
        )?;
        self.rows[weight_row] = Span::point(cap);
        Ok(steps)
    }

    /// Adds the row of a stage to the table.
    fn add_stage(&mut self, stage: usize, weights: &[Narrow], span: Span) -> Result<(), ProveStop>
        requires { IsCapSearch self.old }
        ensures search { OnOk result (IsCapSearch self.new) }
        ensures rows { OnOk result (length self.new.rows.items ≡ length self.old.rows.items + 1) }
    {
        if weights.len() != self.program.columns() {
            return Err(ProveStop::Lost);
        }
        add_weights(self.alloc, &mut self.table, weights)?;
        self.rows.push(span)?;
        self.stages.push(self.quotas.saturating_add(stage))?;
        Ok(())
    }

    /// Makes a new table with the rows of all stages searched so far, since one where a number passed 2^62 must not be used further.
    fn begin_anew(&mut self) -> Result<(), ProveStop>
        ensures { OnOk result (IsCapSearch self.new) }
    {
        let mut anew = CapSearch::new(self.alloc, self.program, self.quotas)?;
        'stages: for (stage, own) in self.closed.iter().enumerate() {
            anew.add_stage(stage, &own.weights, Span::point(own.cap))?;
        }
        mem::swap(&mut anew.closed, &mut self.closed);
        *self = anew;
        Ok(())
    }

    /// Returns the steps that show a cap. The rows of earlier stages are added only as they are needed: while a search finds a panel above
    /// the cap that doesn't weigh exactly the cap of an earlier stage, the row of the first such stage is added. Returns None if a panel
    /// that weighs exactly all earlier caps is above the cap.
    fn tree_by_few_rows(
        &self,
        earlier: usize,
        weights: &[Narrow],
        cap: Narrow,
        budget: &mut Budget,
    ) -> Result<Option<Vec<Step>>, ProveStop>
        requires { earlier < 2 ^ 63 }
        ensures { SpendsOn budget.old budget.new }
    {
        let mut few = CapSearch::new(self.alloc, self.program, self.quotas)?;
        if self.lend_needed(&mut few, earlier, weights, cap, budget)? {
            few.steps(earlier, weights, cap, budget)
        } else {
            Ok(None)
        }
    }

    /// Adds the rows of earlier stages to `few` until no panel is above a cap there. False if a panel that weighs exactly all earlier caps
    /// is above it.
    fn lend_needed(
        &self,
        few: &mut CapSearch<'_>,
        earlier: usize,
        weights: &[Narrow],
        cap: Narrow,
        budget: &mut Budget,
    ) -> Result<bool, ProveStop>
        requires { IsCapSearch few.old }
        ensures few { OnOk result (IsCapSearch few.new) }
        ensures spends { SpendsOn budget.old budget.new }
    {
        'stages: for _ in 0..=earlier {
            match few.panel_above(weights, cap, budget)? {
                Found::Point(panel) => match self.stage_missed(earlier, &panel)? {
                    Some(stage) => self.lend(stage, few)?,
                    None => return Ok(false),
                },
                Found::Nothing => return Ok(true),
                Found::Doubt => return Err(ProveStop::Lost),
            }
        }
        Err(ProveStop::Lost)
    }

    /// Searches for a panel above a cap within the rows of the table.
    fn panel_above(
        &mut self,
        weights: &[Narrow],
        cap: Narrow,
        budget: &mut Budget,
    ) -> Result<Found, ProveStop>
        requires { IsCapSearch self.old }
        ensures search { OnOk result (IsCapSearch self.new) }
        ensures spends { SpendsOn budget.old budget.new }
    {
        if weights.len() != self.program.columns() {
            return Err(ProveStop::Lost);
        }
        search_weighing(
            self.alloc,
            &mut self.table,
            self.program.spans(),
            &self.rows,
            weights,
            span_above(weights, cap)?,
            u64::MAX,
            budget,
        )
    }

    /// Returns the first of the `earlier` stages in which a panel doesn't weigh exactly the cap, or None if there is none.
    fn stage_missed(&self, earlier: usize, panel: &[Narrow]) -> Result<Option<usize>, ProveStop> {
        for (stage, own) in self.closed.iter().enumerate().take(earlier) {
            let mut weight = 0;
            for (one, value) in own.weights.iter().zip(panel) {
                weight = wide_add(weight, times(*one, *value))?;
            }
            if weight != own.cap.wide() {
                return Ok(Some(stage));
            }
        }
        Ok(None)
    }

    /// Adds the row of a stage searched so far to another search.
    fn lend(&self, stage: usize, few: &mut CapSearch<'_>) -> Result<(), ProveStop>
        requires { IsCapSearch few.old }
        ensures { OnOk result (IsCapSearch few.new) }
    {
        match self.closed.get(stage) {
            Some(own) => few.add_stage(stage, &own.weights, Span::point(own.cap)),
            None => Err(ProveStop::Lost),
        }
    }
}

/// True if a line of a proof can have each step's numbers.
fn are_lines(steps: &[Step]) -> bool {
    steps.iter().all(|step| match step {
        Step::Split(_) => true,
        Step::Refuted(refutation) => is_line(refutation),
    })
}

/// Returns the span of the weights above a cap that panels can have.
fn span_above(weights: &[Narrow], cap: Narrow) -> Result<Span, ProveStop> {
    Ok(Span::reaching(narrow_add(cap.wide(), 1)?, reach_of(weights)?))
}
