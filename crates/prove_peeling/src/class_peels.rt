//! Peeling over classes, for large pools. Each composition takes of a class the whole number below its average count over the point, or one
//! more. So what is above these whole numbers is a point of parts from 0 to 1, and sets of classes are peeled off it as panels are of
//! volunteers. Then the compositions are spread over panels. A point may be a mix of other compositions alone: then nothing is found here.

ghost use Rattle.prove_limits.specs.Budgets.{SpendsOn};

use crate::free_classes::FreeClasses;
use crate::lotteries::{Peeled, WeightedPanel, class_sets};
use crate::remainders::Remainder;
use crate::rows::{PanelRow, PanelRows, panel_row};
use crate::spreads::Weighted;
use prove_limits::{Budget, ProveStop, Span, narrow_sub, wide_add, wide_mul};
use prove_program::Program;
use prove_stages::Chances;
use std::alloc::Global;

/// A point over classes: the whole number below each class's average count, and what is above it.
#[derive(Drop)]
struct ClassPoint<'a> {
    alloc: Global,
    free: FreeClasses<'a>,
    floors: Vec<i128>,
}

/// Makes a lottery over panels of a point by peeling sets of classes. Returns None if none is found.
pub(crate) fn panels_by_classes(
    alloc: Global,
    rows: &PanelRows,
    classes: &Program,
    chances: &Chances,
    budget: &mut Budget,
) -> Result<Option<Vec<WeightedPanel>>, ProveStop>
    ensures { SpendsOn budget.old budget.new }
{
    match panels_of(alloc, rows, classes, chances, budget) {
        Err(ProveStop::Wide(_) | ProveStop::BeyondWidth | ProveStop::Lost) => Ok(None),
        found => found,
    }
}

/// Does what `panels_by_classes` says, but stops if a number passes 2^62 or the peeling is lost.
fn panels_of(
    alloc: Global,
    rows: &PanelRows,
    classes: &Program,
    chances: &Chances,
    budget: &mut Budget,
) -> Result<Option<Vec<WeightedPanel>>, ProveStop>
    ensures { SpendsOn budget.old budget.new }
{
    let point = ClassPoint::new(alloc, classes, chances)?;
    let (remainder, size) = point.remainder()?;
    let own = point.rows(rows)?;
    match class_sets(alloc, &own, classes, chances, remainder, size, budget)? {
        Peeled::Found(sets) => Ok(Some(point.panels(&sets)?)),
        Peeled::Outside | Peeled::Doubt => Ok(None),
    }
}

impl<'a> ClassPoint<'a> {
    /// Returns the point of these chances.
    fn new(
        alloc: Global,
        classes: &'a Program,
        chances: &Chances,
    ) -> Result<ClassPoint<'a>, ProveStop> {
        let free = FreeClasses::new(alloc, classes, chances)?;
        let mut floors = Vec::new(alloc);
        for class in 0..free.parts.len() {
            let floor = free.amount(class).checked_div(free.total.wide());
            floors.push(floor.ok_or(ProveStop::Lost)?)?;
        }
        Ok(ClassPoint {
            alloc,
            free,
            floors,
        })
    }

    /// Returns the whole number below the average count of a class.
    fn floor(&self, class: usize) -> i128 {
        self.floors.get(class).copied().unwrap_or(0)
    }

    /// Returns what is above the whole numbers, times the total, as a remainder off which nothing was taken, and how many classes each set
    /// has: the average sum of these parts.
    fn remainder(&self) -> Result<(Remainder, usize), ProveStop> {
        let total = self.free.total;
        let mut parts = Vec::new(self.alloc);
        let mut sum = 0;
        for class in 0..self.floors.len() {
            let below = wide_mul(self.floor(class), total.wide())?;
            let part = narrow_sub(self.free.amount(class), below)?;
            sum = wide_add(sum, part.wide())?;
            parts.push(part)?;
        }
        let size = sum.checked_div(total.wide()).ok_or(ProveStop::Lost)?;
        let remainder = Remainder {
            parts,
            total,
            whole: total,
            taken: Vec::new(self.alloc),
        };
        Ok((remainder, usize::try_from(size).unwrap_or(0)))
    }

    /// Returns the rows that each set satisfies: those of panels over classes, less what the whole numbers sum to.
    fn rows(&self, rows: &PanelRows) -> Result<PanelRows, ProveStop> {
        let mut own = Vec::new(self.alloc);
        for row in &rows.rows {
            own.push(self.row(row)?)?;
        }
        Ok(PanelRows { rows: own })
    }

    /// Returns the row that each set satisfies for a row of panels.
    fn row(&self, row: &PanelRow) -> Result<PanelRow, ProveStop> {
        let coefficients = self.free.coefficients(row)?;
        let mut sum = 0;
        for class in 0..coefficients.len() {
            let own = wide_mul(coefficients[class].wide(), self.floor(class))?;
            sum = wide_add(sum, own)?;
        }
        let least = narrow_sub(row.span.least().wide(), sum)?;
        let greatest = narrow_sub(row.span.greatest().wide(), sum)?;
        let span = Span::new(least, greatest).ok_or(ProveStop::Lost)?;
        panel_row(self.alloc, coefficients, span)
    }

    /// Spreads the compositions of weighted sets over panels.
    fn panels(&self, sets: &[WeightedPanel]) -> Result<Vec<WeightedPanel>, ProveStop> {
        let mut whole = 0;
        let mut parts = Vec::new(self.alloc);
        for set in sets {
            whole = wide_add(whole, set.weight)?;
            let counts = self.counts(&set.members)?;
            parts.push(Weighted {
                weight: set.weight,
                counts,
            })?;
        }
        self.free.panels(whole, &parts)
    }

    /// Returns the count of each class in the composition of a set.
    fn counts(&self, set: &[usize]) -> Result<Vec<usize>, ProveStop> {
        let mut counts = Vec::new(self.alloc);
        for floor in &self.floors {
            counts.push(usize::try_from(*floor).unwrap_or(0))?;
        }
        for class in set {
            if let Some(count) = counts.get_mut(*class) {
                *count = count.saturating_add(1);
            }
        }
        Ok(counts)
    }
}
