//! The compositions that were found, and the exact table that looks for weights of them that give wanted chances.

ghost use Rattle.std.specs.Prelude.{IfOk, OnOk, length};
ghost use Rattle.prove_table.specs.Sizes.{Spends};
ghost use Rattle.prove_stages.specs.Shapes.{IsCompositionMix};

use prove_limits::{Budget, Narrow, ProveStop, Span, narrow_add, times, wide_add};
use prove_table::{PseudoRandom, Table};
use std::alloc::Global;

/// The greatest pseudo-random number in the goal of the table. Each composition has such a number there, which breaks ties.
const MOST_TIE_BREAK: u64 = 64;

/// A composition, and whether it weighs less than the cap of a closed stage; if so, the mix gives it no weight any more.
#[derive(Drop)]
struct Known {
    counts: Vec<Narrow>,
    is_lighter: bool,
}

/// The compositions that were found, and the table of their weights: a column for each composition, a row for each column of the program,
/// and a row for the total.
#[derive(Drop)]
pub(crate) struct CompositionMix {
    alloc: Global,
    table: Table,
    known: Vec<Known>,
    random: PseudoRandom,
}

impl CompositionMix {
    /// Returns a mix without compositions. A composition will have a count for each of `columns` columns.
    pub(crate) fn new(alloc: Global, columns: usize) -> Result<CompositionMix, ProveStop>
        ensures { IfOk result (IsCompositionMix columns) }
    {
        let mut table = Table::new(alloc, 0)?;
        while table.rows() < columns {
            table.add_row(&[])?;
        }
        table.add_row(&[])?;
        Ok(CompositionMix {
            alloc,
            table,
            known: Vec::new(alloc),
            random: PseudoRandom::new(1),
        })
    }

    /// True if a composition was added before.
    pub(crate) fn knows(&self, counts: &[Narrow]) -> bool {
        self.known
            .iter()
            .any(|known| known.counts.as_slice() == counts)
    }

    /// Adds a composition.
    pub(crate) fn join(&mut self, counts: Vec<Narrow>) -> Result<(), ProveStop>
        requires { IsCompositionMix (length counts.items) self.old }
        ensures { OnOk result (IsCompositionMix (length counts.items) self.new) }
    {
        let mut column = Vec::from_slice(self.alloc, &counts)?;
        column.push(Narrow::ONE)?;
        self.table
            .add_column(&column, -(self.random.next_up_to(MOST_TIE_BREAK) as i64))?;
        self.known.push(Known {
            counts,
            is_lighter: false,
        })?;
        Ok(())
    }

    /// True if compositions that attain the closed caps can have weights that sum to `total`, with sums of weighted counts within `spans`.
    pub(crate) fn has_point(
        &mut self,
        spans: &[Span],
        total: Narrow,
        budget: &mut Budget,
    ) -> Result<bool, ProveStop>
        requires { IsCompositionMix (length spans.now) self.old }
        ensures mix { IsCompositionMix (length spans.now) self.new }
        ensures spends { Spends budget.old budget.new }
    {
        let mut columns = Vec::new(self.alloc);
        for number in 0..self.known.len() {
            let most = if self.known[number].is_lighter {
                Narrow::ZERO
            } else {
                total
            };
            columns.push(Span::reaching(Narrow::ZERO, most))?;
        }
        let mut rows = Vec::from_slice(self.alloc, spans)?;
        rows.push(Span::point(total))?;
        self.table.run(&columns, &rows, budget)
    }

    /// Returns the multipliers of the table's rows by which its last run was refuted.
    pub(crate) fn multipliers(&self) -> Result<Vec<Narrow>, ProveStop> {
        self.table.refutation(self.alloc)
    }

    /// Returns the greatest weight of a known composition that attains the closed caps.
    pub(crate) fn most(&self, weights: &[Narrow]) -> Result<Narrow, ProveStop> {
        let mut most = None;
        for known in &self.known {
            if !known.is_lighter {
                let weight = weight_of(weights, &known.counts)?;
                most = Some(most.map_or(weight, |most: Narrow| most.max(weight)));
            }
        }
        most.ok_or(ProveStop::Lost)
    }

    /// Closes a stage: marks the known compositions that weigh less than its cap.
    pub(crate) fn close(&mut self, weights: &[Narrow], cap: Narrow) -> Result<(), ProveStop>
        requires { IsCompositionMix (length weights.now) self.old }
        ensures { IsCompositionMix (length weights.now) self.new }
    {
        for number in 0..self.known.len() {
            if weight_of(weights, &self.known[number].counts)? < cap {
                self.known[number].is_lighter = true;
            }
        }
        Ok(())
    }
}

/// Returns the weight of a composition: the sum of its counts times the weights of their columns.
pub(crate) fn weight_of(weights: &[Narrow], counts: &[Narrow]) -> Result<Narrow, ProveStop> {
    let mut sum = 0;
    for column in 0..weights.len().min(counts.len()) {
        sum = wide_add(sum, times(weights[column], counts[column]))?;
    }
    narrow_add(sum, 0)
}
