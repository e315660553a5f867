//! The search for compositions within spans of columns and rows, by an exact table. Promise: nothing of the budget is given back.

ghost use Rattle.prove_limits.specs.Budgets.{SpendsOn};

use prove_branching::{Found, search, search_weighing};
use prove_limits::{Budget, Narrow, ProveStop, Span, narrow_add, times, wide_add};
use prove_table::Table;
use std::alloc::Global;

/// A search for compositions: counts of columns within spans, whose sums by rows are within spans too.
#[derive(Drop)]
pub struct CompositionSearch {
    alloc: Global,
    table: Table,
    columns: Vec<Span>,
    rows: Vec<Span>,
    coefficients: Vec<Vec<Narrow>>,
}

impl CompositionSearch {
    /// Returns a search without rows. `columns` has the span of each column.
    pub fn new(alloc: Global, columns: &[Span]) -> Result<CompositionSearch, ProveStop> {
        Ok(CompositionSearch {
            alloc,
            table: Table::new(alloc, columns.len())?,
            columns: Vec::from_slice(alloc, columns)?,
            rows: Vec::new(alloc),
            coefficients: Vec::new(alloc),
        })
    }

    /// Adds a row with a coefficient for each column, and the span of its sums. Stops if there are not as many coefficients as columns.
    /// After any other stop the search must not be used further.
    pub fn add_row(&mut self, coefficients: &[Narrow], span: Span) -> Result<(), ProveStop> {
        if coefficients.len() != self.table.columns() {
            return Err(ProveStop::Lost);
        }
        self.table.add_row(coefficients)?;
        self.rows.push(span)?;
        self.coefficients
            .push(Vec::from_slice(self.alloc, coefficients)?)?;
        Ok(())
    }

    /// Makes a new table, since one where a number passed 2^62 must not be used further.
    fn begin_anew(&mut self) -> Result<(), ProveStop> {
        let mut table = Table::new(self.alloc, self.columns.len())?;
        for coefficients in &self.coefficients {
            if coefficients.len() != table.columns() {
                return Err(ProveStop::Lost);
            }
            table.add_row(coefficients)?;
        }
        self.table = table;
        Ok(())
    }

    /// Searches for a composition that weighs at least `need`. If a number passes 2^62, searches once more with a new table, and then with
    /// few rows. Each of these searches looks at no more than `most` nodes. If a number passes 2^62 in the last of them too, the call
    /// stops, but another search can still be made.
    pub fn beating(
        &mut self,
        weights: &[Narrow],
        need: Narrow,
        most: u64,
        budget: &mut Budget,
    ) -> Result<Found, ProveStop>
        ensures { SpendsOn budget.old budget.new }
    {
        'tries: for _ in 0..2 {
            match self.beating_once(weights, need, most, budget) {
                Err(ProveStop::Wide(_) | ProveStop::BeyondWidth) => self.begin_anew()?,
                found => return found,
            }
        }
        self.beating_by_few_rows(weights, need, most, budget)
    }

    /// Searches within the rows without a coefficient above 1 by absolute value, and within others as `beating_by` adds them.
    fn beating_by_few_rows(
        &self,
        weights: &[Narrow],
        need: Narrow,
        most: u64,
        budget: &mut Budget,
    ) -> Result<Found, ProveStop>
        ensures { SpendsOn budget.old budget.new }
    {
        let mut search = self.of_few_rows()?;
        self.beating_by(&mut search, weights, need, most, budget)
    }

    /// Searches by `search`, which has some of the rows. While the point found breaks another row, adds that row, and searches again.
    fn beating_by(
        &self,
        search: &mut CompositionSearch,
        weights: &[Narrow],
        need: Narrow,
        most: u64,
        budget: &mut Budget,
    ) -> Result<Found, ProveStop>
        ensures { SpendsOn budget.old budget.new }
    {
        'rows: for _ in 0..=self.rows.len() {
            let found = search.beating_once(weights, need, most, budget)?;
            if !self.extend(search, &found)? {
                return Ok(found);
            }
        }
        Ok(Found::Doubt)
    }

    /// Returns a search within the rows without a coefficient above 1 by absolute value.
    fn of_few_rows(&self) -> Result<CompositionSearch, ProveStop> {
        let mut search = CompositionSearch::new(self.alloc, &self.columns)?;
        for row in 0..self.coefficients.len().min(self.rows.len()) {
            let coefficients = &self.coefficients[row];
            if coefficients.iter().all(|own| own.abs() <= Narrow::ONE) {
                search.add_row(coefficients, self.rows[row])?;
            }
        }
        Ok(search)
    }

    /// Adds to `search` the first row that the point found breaks. False if it breaks none, or no point was found.
    fn extend(&self, search: &mut CompositionSearch, found: &Found) -> Result<bool, ProveStop> {
        let Found::Point(point) = found else {
            return Ok(false);
        };
        match self.broken_by(point)? {
            Some(row) if row < self.rows.len() && row < self.coefficients.len() => {
                search.add_row(&self.coefficients[row], self.rows[row])?;
                Ok(true)
            }
            _ => Ok(false),
        }
    }

    /// Returns the number of the first row that a point breaks, or None if it is within all.
    fn broken_by(&self, point: &[Narrow]) -> Result<Option<usize>, ProveStop> {
        for row in 0..self.coefficients.len().min(self.rows.len()) {
            let sum = sum_of(&self.coefficients[row], point)?;
            let span = self.rows[row];
            if sum < span.least().wide() || span.greatest().wide() < sum {
                return Ok(Some(row));
            }
        }
        Ok(None)
    }

    /// Searches for a composition that weighs at least `need`, with the present table.
    fn beating_once(
        &mut self,
        weights: &[Narrow],
        need: Narrow,
        most: u64,
        budget: &mut Budget,
    ) -> Result<Found, ProveStop>
        ensures { SpendsOn budget.old budget.new }
    {
        let span = Span::reaching(need, reach(&self.columns, weights)?);
        if self.columns.len() != self.table.columns()
            || self.rows.len() != self.table.rows()
            || weights.len() != self.table.columns()
        {
            return Err(ProveStop::Lost);
        }
        search_weighing(
            self.alloc,
            &mut self.table,
            &self.columns,
            &self.rows,
            weights,
            span,
            most,
            budget,
        )
    }

    /// Searches for any composition at no more than `most` nodes, and prefers those with a great sum of wishes. `wishes` has a number for
    /// each column, and missing ones are 0. After an error the search must not be used further.
    pub fn wished(
        &mut self,
        wishes: &[i64],
        most: u64,
        budget: &mut Budget,
    ) -> Result<Found, ProveStop>
        ensures { SpendsOn budget.old budget.new }
    {
        self.table.aim(wishes, 1)?;
        if self.columns.len() != self.table.columns() || self.rows.len() != self.table.rows() {
            return Err(ProveStop::Lost);
        }
        search(
            self.alloc,
            &mut self.table,
            &self.columns,
            &self.rows,
            most,
            budget,
        )
    }
}

/// Returns the most that a composition within the columns' spans weighs by the absolute values of the weights.
pub(crate) fn reach(columns: &[Span], weights: &[Narrow]) -> Result<Narrow, ProveStop> {
    let mut reach = 0;
    for column in 0..columns.len().min(weights.len()) {
        let greatest = columns[column].greatest();
        reach = wide_add(reach, times(weights[column].abs(), greatest))?;
    }
    narrow_add(reach, 0)
}

/// Returns the sum of a row's coefficients, each times the value of its column.
fn sum_of(coefficients: &[Narrow], point: &[Narrow]) -> Result<i128, ProveStop> {
    let mut sum = 0;
    for column in 0..coefficients.len().min(point.len()) {
        sum = wide_add(sum, times(coefficients[column], point[column]))?;
    }
    Ok(sum)
}
