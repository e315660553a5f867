//! A point as a mix of compositions: a program in fixed point finds which compositions, searches find further ones or show that the point
//! is no mix, and whole weights are solved over a basis with a small determinant. Then the compositions are spread over panels.

ghost use Rattle.std.specs.Prelude.{OnOk};
ghost use Rattle.prove_limits.specs.Budgets.{SpendsOn};

use crate::free_classes::FreeClasses;
use crate::lotteries::WeightedPanel;
use crate::pricing::{ClassRow, are_met, class_rows, search_of};
use crate::rows::PanelRow;
use crate::spreads::Weighted;
use prove_branching::Found;
use prove_limits::{Budget, Narrow, ProveStop, wide_mul};
use prove_mixes::{Columns, Master, Solved, Whole, whole_weights};
use prove_program::Program;
use prove_stages::{Chances, CompositionSearch};
use std::alloc::{AllocError, Global};

/// What the greatest weight of a search is rounded to: 2^22 at first.
const COARSE: i128 = 4_194_304;

/// What it is rounded to if that is too coarse, 2^34.
const FINE: i128 = 17_179_869_184;

/// What it is rounded to if numbers pass 2^62, 2^15.
const ROUGH: i128 = 32_768;

/// How many compositions may be searched for at most.
const MOST_STEPS: u32 = 3000;

/// The most nodes at which each of these searches looks.
const MOST_NODES: u64 = 20_000;

/// The most times that compositions are put aside so that the least weight comes above 0.
const MOST_ASIDE: u32 = 80;

/// The least weight must be above this, 2^-30.
const LEAST_WEIGHT: i64 = 65_536;

/// The result for a point.
#[derive(Drop)]
pub(crate) enum Mixed {
    /// Panels with weights.
    Found(Vec<WeightedPanel>),
    /// The point is no mix of compositions.
    Outside,
    /// No mix was found, or the weights of the mix that was found could not be made whole.
    Doubt,
}

/// Whether a point is a mix of compositions.
#[derive(Clone, Copy, PartialEq, Eq)]
enum Place {
    Inside,
    Outside,
    Doubt,
}

/// The state of the search for a mix.
#[derive(Drop)]
struct ClassMix<'a> {
    alloc: Global,
    free: FreeClasses<'a>,
    search: CompositionSearch,
    columns: Columns,
    master: Master,
}

/// Looks for panels that make up a point. Some compositions are known from the start, each with a count for each class.
pub(crate) fn class_mix(
    alloc: Global,
    classes: &Program,
    chances: &Chances,
    rows: &[PanelRow],
    known: &[Vec<i64>],
    budget: &mut Budget,
) -> Result<Mixed, ProveStop>
    ensures { SpendsOn budget.old budget.new }
{
    let free = FreeClasses::new(alloc, classes, chances)?;
    let own = class_rows(alloc, &free, rows)?;
    let mut mix = ClassMix::new(alloc, free, &own, known)?;
    mix.find(budget)
}

/// Returns the known compositions that are on the face of the point.
fn known_columns(
    alloc: Global,
    free: &FreeClasses<'_>,
    rows: &[ClassRow],
    known: &[Vec<i64>],
) -> Result<Columns, ProveStop> {
    let mut columns = Columns::new(alloc);
    for counts in known {
        if let Some(own) = free.free_counts(counts)? {
            if are_met(rows, counts)? {
                let _is_new = columns.join(own)?;
            }
        }
    }
    Ok(columns)
}

/// Returns the program of the point of these classes.
fn master_of(alloc: Global, free: &FreeClasses<'_>) -> Result<Master, AllocError> {
    let point = free.point()?;
    Master::new(alloc, &point)
}

impl<'a> ClassMix<'a> {
    /// Returns the state before the first search.
    fn new(
        alloc: Global,
        free: FreeClasses<'a>,
        rows: &[ClassRow],
        known: &[Vec<i64>],
    ) -> Result<ClassMix<'a>, ProveStop> {
        let search = search_of(alloc, &free, rows)?;
        let columns = known_columns(alloc, &free, rows, known)?;
        let master = master_of(alloc, &free)?;
        Ok(ClassMix {
            alloc,
            free,
            search,
            columns,
            master,
        })
    }

    /// Looks for panels that make up the point.
    fn find(&mut self, budget: &mut Budget) -> Result<Mixed, ProveStop>
        ensures { SpendsOn budget.old budget.new }
    {
        match self.generate(budget)? {
            Place::Inside => self.whole(budget),
            Place::Outside => Ok(Mixed::Outside),
            Place::Doubt => Ok(Mixed::Doubt),
        }
    }

    /// Searches for compositions until the known ones make up the point, or none is left that could help.
    fn generate(&mut self, budget: &mut Budget) -> Result<Place, ProveStop>
        ensures { SpendsOn budget.old budget.new }
    {
        'steps: for _ in 0..MOST_STEPS {
            match self.master.solve(&self.columns, budget)? {
                Solved::Done => return Ok(Place::Inside),
                Solved::Trouble => return Ok(Place::Doubt),
                Solved::Short => {}
            }
            let found = match self.beat(COARSE, budget) {
                Ok(Place::Doubt) => self.beat(FINE, budget)?,
                Err(ProveStop::Wide(_) | ProveStop::BeyondWidth) => self.beat(ROUGH, budget)?,
                found => found?,
            };
            if found != Place::Inside {
                return Ok(found);
            }
        }
        Ok(Place::Doubt)
    }

    /// Searches for a composition that weighs at least as much as the point, by weights from the master's duals, and adds it. `greatest` is
    /// what the greatest weight is rounded to. Returns `Inside` if a new composition was added, and `Outside` if there is none of that
    /// weight: then the point is no mix.
    fn beat(&mut self, greatest: i128, budget: &mut Budget) -> Result<Place, ProveStop>
        ensures { SpendsOn budget.old budget.new }
    {
        let weights = self.free.weights(&self.master.duals, greatest)?;
        let need = self.free.need(&weights)?;
        Ok(
            match self.search.beating(&weights, need, MOST_NODES, budget)? {
                Found::Point(point) => {
                    if self.join(&point)? {
                        Place::Inside
                    } else {
                        Place::Doubt
                    }
                }
                Found::Nothing => Place::Outside,
                Found::Doubt => Place::Doubt,
            },
        )
    }

    /// Adds a composition that a search found, given by its count for each class. False if it is known, or if a count is not in its span.
    fn join(&mut self, point: &[Narrow]) -> Result<bool, ProveStop> {
        let mut counts = Vec::new(self.alloc);
        for value in point {
            counts.push(value.get())?;
        }
        match self.free.free_counts(&counts)? {
            Some(own) => Ok(self.columns.join(own)?),
            None => Ok(false),
        }
    }

    /// Looks for whole weights of the compositions, and spreads them over panels.
    fn whole(&mut self, budget: &mut Budget) -> Result<Mixed, ProveStop>
        ensures { SpendsOn budget.old budget.new }
    {
        let Some(least) = self.settle(budget)? else {
            return Ok(Mixed::Doubt);
        };
        let shares = self.master.shares(self.alloc, &self.columns)?;
        let amounts = self.free.amounts()?;
        match whole_weights(self.alloc, &self.columns, &shares, least, &amounts)? {
            Some(whole) => Ok(Mixed::Found(self.panels(&whole)?)),
            None => Ok(Mixed::Doubt),
        }
    }

    /// Puts aside compositions that no mix of the point has, until all others can have a weight above 0. Returns the least weight in fixed
    /// point, or None if it stays too small.
    fn settle(&mut self, budget: &mut Budget) -> Result<Option<i64>, ProveStop>
        ensures { SpendsOn budget.old budget.new }
    {
        'asides: for _ in 0..MOST_ASIDE {
            self.master.set_least(&self.columns);
            if self.master.solve(&self.columns, budget)? != Solved::Done {
                return Ok(None);
            }
            let least = self.master.least();
            if least > LEAST_WEIGHT {
                return Ok(Some(least));
            }
            if !self.master.put_aside(&mut self.columns) {
                return Ok(None);
            }
        }
        Ok(None)
    }

    /// Spreads the compositions over panels.
    fn panels(&self, whole: &Whole) -> Result<Vec<WeightedPanel>, ProveStop> {
        let mut parts = Vec::new(self.alloc);
        for column in 0..self.columns.list.len().min(whole.weights.len()) {
            let weight = whole.weights[column];
            if weight > 0 {
                let counts = self.sizes(&self.columns.list[column].counts)?;
                parts.push(Weighted { weight, counts })?;
            }
        }
        self.free.panels(whole.total, &parts)
    }

    /// Returns how many members each class has in a composition, given by its counts of the free classes.
    fn sizes(&self, counts: &[i64]) -> Result<Vec<usize>, AllocError> {
        let mut sizes = Vec::new(self.alloc);
        for count in &self.free.all_counts(counts)? {
            sizes.push(usize::try_from(*count).unwrap_or(0))?;
        }
        Ok(sizes)
    }
}
