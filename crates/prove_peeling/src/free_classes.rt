//! The classes of a point with their chances, and which of them are free: those with a chance between 0 and 1. A composition is a count for
//! each class; only the counts of free classes differ between the compositions of a mix.

use crate::lotteries::WeightedPanel;
use crate::rows::{PanelRow, value_at};
use crate::spreads::{ClassLeft, Weighted, spread};
use prove_branching::ceiling;
use prove_limits::{Narrow, ProveStop, Span, times, wide_add, wide_mul};
use prove_mixes::{fraction, rounded};
use prove_program::Program;
use prove_stages::Chances;
use std::alloc::{AllocError, Global};

/// The classes of a point, and which of them are free.
#[derive(Drop)]
pub(crate) struct FreeClasses<'a> {
    alloc: Global,
    classes: &'a Program,
    // the number of each free class
    pub(crate) numbers: Vec<usize>,
    // the chance of a member of each class, times the total
    pub(crate) parts: Vec<Narrow>,
    // a common multiple of the denominators of the chances, at least 1
    pub(crate) total: Narrow,
    // the span of each class's count in panels of the point's face
    pub(crate) spans: Vec<Span>,
}

/// Returns how many of these members are in each class.
pub(crate) fn counts_of(
    alloc: Global,
    classes: &Program,
    members: &[usize],
) -> Result<Vec<i64>, AllocError> {
    let mut counts = vec![in alloc; 0i64; classes.columns()]?;
    for member in members {
        if *member < classes.volunteers() {
            if let Some(count) = counts.get_mut(classes.column_of(*member)) {
                *count = 1i64.saturating_add(*count);
            }
        }
    }
    Ok(counts)
}

impl<'a> FreeClasses<'a> {
    /// Returns the classes of a point with these chances.
    pub(crate) fn new(
        alloc: Global,
        classes: &'a Program,
        chances: &Chances,
    ) -> Result<FreeClasses<'a>, ProveStop> {
        let total = chances.common();
        let mut numbers = Vec::new(alloc);
        let mut parts = Vec::new(alloc);
        let mut spans = Vec::new(alloc);
        for class in 0..classes.columns() {
            let chance = chances.chance(class).ok_or(ProveStop::Lost)?;
            let part = chance.scaled(total)?;
            parts.push(part)?;
            if part.get() <= 0 {
                spans.push(Span::point(Narrow::ZERO))?;
            } else if part.get() >= total.get() {
                spans.push(Span::point(classes.size_of(class)))?;
            } else {
                numbers.push(class)?;
                spans.push(classes.spans()[class])?;
            }
        }
        Ok(FreeClasses {
            alloc,
            classes,
            numbers,
            parts,
            total,
            spans,
        })
    }

    /// Returns how many members of a class a panel has on average, times the total.
    pub(crate) fn amount(&self, class: usize) -> i128 {
        if class < self.classes.columns() {
            times(value_at(&self.parts, class), self.classes.size_of(class))
        } else {
            0
        }
    }

    /// Returns the amount of each free class, and last the total.
    pub(crate) fn amounts(&self) -> Result<Vec<i128>, AllocError> {
        let mut amounts = Vec::new(self.alloc);
        for class in &self.numbers {
            amounts.push(self.amount(*class))?;
        }
        amounts.push(self.total.wide())?;
        Ok(amounts)
    }

    /// Returns the point in fixed point: the amounts divided by the total.
    pub(crate) fn point(&self) -> Result<Vec<i64>, AllocError> {
        let mut point = Vec::new(self.alloc);
        for amount in &self.amounts()? {
            point.push(fraction(*amount, self.total.wide()))?;
        }
        Ok(point)
    }

    /// Returns a row's coefficients by class. All members of a class have one coefficient.
    pub(crate) fn coefficients(&self, row: &PanelRow) -> Result<Vec<Narrow>, AllocError> {
        let mut coefficients = Vec::new(self.alloc);
        for class in 0..self.classes.columns() {
            let first = self.classes.first_of(class);
            coefficients.push(value_at(&row.coefficients, first))?;
        }
        Ok(coefficients)
    }

    /// Returns the counts of the free classes of a composition, given by its count for each class, or None if a count is not in its span.
    pub(crate) fn free_counts(&self, counts: &[i64]) -> Result<Option<Vec<i64>>, AllocError> {
        for class in 0..counts.len().min(self.spans.len()) {
            let (count, span) = (counts[class], self.spans[class]);
            if count < span.least().get() || span.greatest().get() < count {
                return Ok(None);
            }
        }
        let mut own = Vec::new(self.alloc);
        for class in &self.numbers {
            own.push(counts.get(*class).copied().unwrap_or(0))?;
        }
        Ok(Some(own))
    }

    /// Returns the count of each class in a composition, given by its counts of the free classes.
    pub(crate) fn all_counts(&self, counts: &[i64]) -> Result<Vec<i64>, AllocError> {
        let mut all = Vec::new(self.alloc);
        for span in &self.spans {
            all.push(span.least().get())?;
        }
        for place in 0..self.numbers.len().min(counts.len()) {
            if let Some(own) = all.get_mut(self.numbers[place]) {
                *own = counts[place];
            }
        }
        Ok(all)
    }

    /// Spreads compositions over panels, which weigh `whole` together. Each composition has a count for each class.
    pub(crate) fn panels(
        &self,
        whole: i128,
        parts: &[Weighted],
    ) -> Result<Vec<WeightedPanel>, ProveStop> {
        let mut classes = self.shares_left(whole, parts)?;
        let mut panels = Vec::new(self.alloc);
        for (weight, members) in spread(self.alloc, &mut classes, parts)? {
            panels.push(WeightedPanel { weight, members })?;
        }
        Ok(panels)
    }

    /// Returns the classes with the shares of their members.
    fn shares_left(&self, whole: i128, parts: &[Weighted]) -> Result<Vec<ClassLeft>, ProveStop> {
        let unit = whole.checked_div(self.total.wide()).ok_or(ProveStop::Lost)?;
        let mut members = Vec::new(self.alloc);
        for _ in 0..self.classes.columns() {
            members.push(Vec::new(self.alloc))?;
        }
        for volunteer in 0..self.classes.volunteers() {
            let class = self.classes.column_of(volunteer);
            if let Some(own) = members.get_mut(class) {
                own.push(volunteer)?;
            }
        }
        let mut left = Vec::new(self.alloc);
        for class in 0..members.len().min(self.parts.len()) {
            let share = wide_mul(self.parts[class].wide(), unit)?;
            let own = ClassLeft::new(self.alloc, &members[class], share, class, parts)?;
            left.push(own)?;
        }
        Ok(left)
    }

    /// Returns a weight for each class: minus the dual of its row, scaled so that the greatest absolute value becomes `most`, and rounded;
    /// 0 for classes that are not free.
    pub(crate) fn weights(&self, duals: &[i64], most: i128) -> Result<Vec<Narrow>, AllocError> {
        let mut greatest: i128 = 1;
        let places = duals.len().min(self.numbers.len());
        for place in 0..places {
            greatest = greatest.max(i128::from(duals[place].unsigned_abs()));
        }
        let mut weights = vec![in self.alloc; Narrow::ZERO; self.classes.columns()]?;
        for place in 0..places {
            let scaled = i128::from(duals[place]).wrapping_neg().wrapping_mul(most);
            if let Some(weight) = weights.get_mut(self.numbers[place]) {
                *weight = i64::try_from(rounded(scaled, greatest))
                    .ok()
                    .and_then(Narrow::new)
                    .unwrap_or(Narrow::ZERO);
            }
        }
        Ok(weights)
    }

    /// Returns the least whole number that is at least the weight of the point. In each mix of the point some composition weighs that much.
    pub(crate) fn need(&self, weights: &[Narrow]) -> Result<Narrow, ProveStop> {
        let mut sum = 0;
        for class in &self.numbers {
            let own = wide_mul(value_at(weights, *class).wide(), self.amount(*class))?;
            sum = wide_add(sum, own)?;
        }
        if self.total < Narrow::ONE {
            return Err(ProveStop::Lost);
        }
        ceiling(sum, self.total.wide())
    }
}
