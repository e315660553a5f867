//! Searches for a team that misses the bounds of values by few people in all, or for leaves and trees that show that there is none.
//! Promises: nothing of the budget is given back, and a search for a team that doesn't stop spends at least one node.

ghost use Rattle.std.specs.Prelude.{◌≡◌, ◌<◌, length, IfOk, IfSome, OnOk, pos, ◌≤ℤ◌};
ghost use Rattle.prove_limits.specs.Budgets.{SpendsOn};
ghost use Rattle.loosening_by_proof.specs.Searches.{IsSearch};

use crate::bounds::Leaf;
use crate::covers::Node;
use crate::leaves::leaf_of;
use crate::programs::add_misses;
use define_quotas::Counted;
use pool_model::{Panel, Pool};
use prove_branching::{Found, search};
use prove_limits::{Budget, Narrow, ProveStop, Span};
use prove_program::Program;
use prove_stages::{row_spans, table_of};
use prove_table::Table;
use quota_conflicts::{counted_by_number, selection_of};
use std::alloc::Global;

/// A program of a pool with its table, in which values may miss their bounds, for one search after another.
#[derive(Drop)]
pub(crate) struct Search {
    program: Program,
    counted: Vec<Counted>,
    table: Table,
    columns: Vec<Span>,
    rows: Vec<Span>,
}

impl Search {
    /// Returns a search over the classes of a pool.
    pub(crate) fn by_class(alloc: Global, pool: &Pool) -> Result<Search, ProveStop>
        ensures { IfOk result IsSearch }
    {
        let program = Program::by_class(alloc, pool)?;
        Search::over(alloc, pool, program)
    }

    /// Returns a search over single volunteers of a pool.
    pub(crate) fn by_volunteer(alloc: Global, pool: &Pool) -> Result<Search, ProveStop>
        ensures { IfOk result IsSearch }
    {
        let program = Program::by_volunteer(alloc, pool)?;
        Search::over(alloc, pool, program)
    }

    fn over(alloc: Global, pool: &Pool, program: Program) -> Result<Search, ProveStop>
        ensures { IfOk result IsSearch }
    {
        let counted = counted_by_number(alloc, pool)?;
        let mut table = table_of(alloc, &program)?;
        let mut columns = Vec::from_slice(alloc, program.spans())?;
        let mut rows = row_spans(alloc, &program, Narrow::ONE)?;
        add_misses(
            alloc,
            &program,
            &counted,
            &mut table,
            &mut columns,
            &mut rows,
        )?;
        Ok(Search {
            program,
            counted,
            table,
            columns,
            rows,
        })
    }

    /// Sets the most that all misses may sum to.
    fn set_most(&mut self, most: usize)
        requires { IsSearch self.old }
        ensures { IsSearch self.new }
    {
        let most = Narrow::from(u32::try_from(most).unwrap_or(u32::MAX));
        let rows = self.rows.len();
        if rows > 0 {
            self.rows[rows - 1] = Span::reaching(Narrow::ZERO, most);
        }
    }

    /// Returns a leaf that shows that no point misses the bounds by at most `most` in all, or None if some point does.
    pub(crate) fn leaf_beyond(
        &mut self,
        alloc: Global,
        most: usize,
        budget: &mut Budget,
    ) -> Result<Option<Leaf>, ProveStop>
        requires { IsSearch self.old }
        ensures search { IsSearch self.new }
        ensures spends { SpendsOn budget.old budget.new }
    {
        self.set_most(most);
        if self.table.run(&self.columns, &self.rows, budget)? {
            return Ok(None);
        }
        let leaf = self.leaf(alloc)?;
        Ok(Some(leaf))
    }

    /// Returns the leaf that shows why the last run found no point.
    fn leaf(&self, alloc: Global) -> Result<Leaf, ProveStop> {
        let multipliers = self.table.refutation(alloc)?;
        let leaf = leaf_of(alloc, &self.program, &self.counted, &multipliers)?;
        Ok(leaf)
    }

    /// Looks for a team that misses the bounds by at most `most` in all. Returns None if the search finds none.
    pub(crate) fn team_within(
        &mut self,
        alloc: Global,
        most: usize,
        budget: &mut Budget,
    ) -> Result<Option<Panel>, ProveStop>
        requires { IsSearch self.old }
        ensures search { IsSearch self.new }
        ensures spends { SpendsOn budget.old budget.new }
        ensures looks { OnOk result (budget.new.nodes < budget.old.nodes) }
    {
        self.set_most(most);
        match search(
            alloc,
            &mut self.table,
            &self.columns,
            &self.rows,
            u64::MAX,
            budget,
        )? {
            Found::Point(point) => {
                let team = selection_of(alloc, &self.program, &point)?;
                Ok(Some(team))
            }
            Found::Nothing | Found::Doubt => Ok(None),
        }
    }

    /// Returns the nodes of a tree that shows that no team misses the bounds by at most `most` in all. Stops as lost if some team does. The
    /// columns must be single volunteers.
    pub(crate) fn tree(
        &mut self,
        alloc: Global,
        most: usize,
        budget: &mut Budget,
    ) -> Result<Vec<Node>, ProveStop>
        requires { IsSearch self.old }
        ensures search { IsSearch self.new }
        ensures spends { SpendsOn budget.old budget.new }
    {
        self.set_most(most);
        let mut nodes = Vec::new(alloc);
        self.grow(alloc, &mut nodes, budget)?;
        Ok(nodes)
    }

    /// Appends the nodes of the tree below the present spans. A column that is split has the span 0..=1.
    fn grow(
        &mut self,
        alloc: Global,
        nodes: &mut Vec<Node>,
        budget: &mut Budget,
    ) -> Result<(), ProveStop>
        requires { IsSearch self.old }
        ensures search { IsSearch self.new }
        ensures spends { SpendsOn budget.old budget.new }
    {
        budget.take_node()?;
        if !self.table.run(&self.columns, &self.rows, budget)? {
            let leaf = self.leaf(alloc)?;
            nodes.push(Node::Leaf(leaf))?;
            return Ok(());
        }
        let column = self.most_broken(alloc)?;
        nodes.push(Node::Split(column))?;
        self.set_column(column, Span::point(Narrow::ZERO));
        self.grow(alloc, nodes, budget)?;
        self.set_column(column, Span::point(Narrow::ONE));
        self.grow(alloc, nodes, budget)?;
        self.set_column(column, Span::reaching(Narrow::ZERO, Narrow::ONE));
        Ok(())
    }

    /// Sets the span of a column.
    fn set_column(&mut self, column: usize, span: Span)
        requires { IsSearch self.old }
        ensures { IsSearch self.new }
    {
        if column < self.columns.len() {
            self.columns[column] = span;
        }
    }

    /// Returns the column of volunteers whose value at the last run's point is farthest from a whole number. Stops as lost if all are
    /// whole.
    fn most_broken(&self, alloc: Global) -> Result<usize, ProveStop>
        requires { IsSearch self.now }
        ensures { IfOk result (λ column. column < length self.now.columns.items) }
    {
        let values = self.table.point(alloc)?;
        let volunteers = self.program.columns().min(self.columns.len());
        let denominator = self.table.denominator();
        let mut farthest = 0;
        let mut found = None;
        for column in 0..volunteers {
            let distance = distance(values.get(column).copied().unwrap_or(0), denominator);
            if farthest < distance {
                farthest = distance;
                found = Some(column);
            }
        }
        found.ok_or(ProveStop::Lost)
    }
}

/// Returns how far a value is from the nearest whole number, times the denominator.
fn distance(value: i128, denominator: Narrow) -> i128
    requires { pos 1 ≤ℤ denominator }
{
    let above = value.rem_euclid(denominator.wide());
    if 2 * above <= denominator.wide() {
        above
    } else {
        denominator.wide() - above
    }
}
