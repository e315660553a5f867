//! Stages over compositions with the level as a variable: a program in fixed point makes the level as great as the known compositions
//! allow, and searches find further ones. The program's multipliers, made whole, are the weights of a stage; an exact search shows the cap.
//! Promise: nothing of the budget is given back.

ghost use Rattle.prove_limits.specs.Budgets.{SpendsOn};

use crate::chances::Chances;
use crate::class_stages::{ClassStage, everybody_left, one_if, settle};
use crate::columned::Columned;
use crate::fractions::Chance;
use crate::levels::weight_sums;
use crate::searches::CompositionSearch;
use crate::wholes::{rounded_weights, whole_weights};
use prove_branching::Found;
use prove_limits::{Budget, Narrow, ProveStop, Span, narrow_add, wide_mul};
use prove_mixes::{Columns, Master, Solved, UNIT, fraction};
use prove_program::Program;
use std::alloc::{AllocError, Global};
use std::mem;

/// How many steps a stage may have, each of which may add a composition, and how many stages there may be.
const MOST_STEPS: u32 = 5000;

/// What the greatest weight of a search is rounded to: 2^22, or 2^15 if numbers pass 2^62.
const ROUNDINGS: [i128; 2] = [4_194_304, 32_768];

/// The greatest scale of whole weights that is tried in each step, before a heavier composition is searched for. The scale is what the
/// greatest weight becomes.
const FIRST_SCALES: i64 = 1000;

/// The greatest scale that is tried once no heavier composition is found.
const MOST_SCALE: i64 = 20_000;

/// How many scales with whole weights one call tries at most.
const MOST_TRIES: u32 = 64;

/// How far the exact level may be from that of the fixed-point program, 2^-26.
const MOST_ERROR: u64 = 1_048_576;

/// How a step of the search for a stage ended.
#[derive(Clone, Copy, PartialEq, Eq)]
enum Step {
    /// The stage is closed.
    Closed,
    /// A further composition was found.
    Further,
    /// All columns that are left have the chance 1.
    AtOne,
    /// The step found neither weights that close the stage nor a further composition.
    Doubt,
}

/// The state of the search for stages.
#[derive(Drop)]
struct Quick<'a> {
    alloc: Global,
    program: &'a Program,
    search: CompositionSearch,
    // the free columns: those with a row in the fixed-point program
    free: Vec<usize>,
    columns: Columns,
    master: Master,
    // the entry of the level in each row of that program: minus the size of an unsettled free column, else 0
    entries: Vec<i64>,
    chances: Chances,
    stages: Vec<ClassStage>,
}

/// Finds the stages of a pool over its compositions, of which some are known: each has a count for each column. Unless it stops, `known`
/// then has the compositions that it used. Returns None in doubt.
pub(crate) fn quick_stages(
    alloc: Global,
    program: &Program,
    known: &mut Vec<Vec<i64>>,
    budget: &mut Budget,
) -> Result<Option<Columned>, ProveStop>
    ensures { SpendsOn budget.old budget.new }
{
    let mut search = class_search(alloc, program)?;
    match first_known(alloc, &mut search, known, budget)? {
        First::Known => from_known(alloc, program, search, known, budget),
        First::Nothing => Ok(Some(Columned::Empty)),
        First::Doubt => Ok(None),
    }
}

/// Whether a composition is known to begin with.
#[derive(Clone, Copy)]
enum First {
    Known,
    /// There is none.
    Nothing,
    Doubt,
}

/// Returns a search within the program's rows.
fn class_search(alloc: Global, program: &Program) -> Result<CompositionSearch, ProveStop> {
    let mut search = CompositionSearch::new(alloc, program.spans())?;
    for row in program.rows() {
        search.add_row(row.coefficients(), row.span())?;
    }
    Ok(search)
}

/// Searches for a composition if none is known.
fn first_known(
    alloc: Global,
    search: &mut CompositionSearch,
    known: &mut Vec<Vec<i64>>,
    budget: &mut Budget,
) -> Result<First, ProveStop>
    ensures { SpendsOn budget.old budget.new }
{
    if !known.is_empty() {
        return Ok(First::Known);
    }
    let found = search.wished(&[], u64::MAX, budget)?;
    joined(alloc, &found, known)
}

/// Adds the composition that was found, if one was.
fn joined(alloc: Global, found: &Found, known: &mut Vec<Vec<i64>>) -> Result<First, ProveStop> {
    match found {
        Found::Point(point) => {
            known.push(counts_of(alloc, point)?)?;
            Ok(First::Known)
        }
        Found::Nothing => Ok(First::Nothing),
        Found::Doubt => Ok(First::Doubt),
    }
}

/// Finds the stages from the known compositions on. Returns None in doubt.
fn from_known(
    alloc: Global,
    program: &Program,
    mut search: CompositionSearch,
    known: &mut Vec<Vec<i64>>,
    budget: &mut Budget,
) -> Result<Option<Columned>, ProveStop>
    ensures { SpendsOn budget.old budget.new }
{
    match cover(alloc, program, &mut search, known, budget)? {
        Some(unreached) => {
            let quick = begun(alloc, program, search, known, unreached)?;
            found_by(quick, known, budget)
        }
        None => Ok(None),
    }
}

/// Finds the stages from a state on, and notes the compositions that it used. Returns None in doubt.
fn found_by(
    mut quick: Quick<'_>,
    known: &mut Vec<Vec<i64>>,
    budget: &mut Budget,
) -> Result<Option<Columned>, ProveStop>
    ensures { SpendsOn budget.old budget.new }
{
    let is_settled = quick.stages(budget)?;
    quick.note(known)?;
    Ok(if is_settled {
        Some(quick.settled())
    } else {
        None
    })
}

/// Returns the state after the stage of the columns of which no panel has a member, or before any stage if there are none. Each of these
/// columns has the weight 1 in `unreached`.
fn begun<'a>(
    alloc: Global,
    program: &'a Program,
    mut search: CompositionSearch,
    known: &[Vec<i64>],
    unreached: Vec<Narrow>,
) -> Result<Quick<'a>, ProveStop> {
    let mut chances = Chances::unsettled(alloc, program.columns())?;
    let mut stages = Vec::new(alloc);
    if unreached.iter().any(|weight| !weight.is_zero()) {
        search.add_row(&unreached, Span::point(Narrow::ZERO))?;
        push_stage(
            &mut chances,
            &mut stages,
            unreached,
            Narrow::ZERO,
            Chance::ZERO,
        )?;
    }
    Quick::new(alloc, program, search, known, chances, stages)
}

/// Adds a stage, and settles its columns.
fn push_stage(
    chances: &mut Chances,
    stages: &mut Vec<ClassStage>,
    weights: Vec<Narrow>,
    cap: Narrow,
    chance: Chance,
) -> Result<(), ProveStop> {
    settle(chances, &weights, chance)?;
    stages.push(ClassStage {
        weights,
        cap,
        shown_by: None,
    })?;
    Ok(())
}

/// Adds compositions until each column of which a panel can have a member has one in some known composition. Returns a weight for each
/// column: 1 if no known composition has a member of it and it isn't seated, else 0. Returns None in doubt.
fn cover(
    alloc: Global,
    program: &Program,
    search: &mut CompositionSearch,
    known: &mut Vec<Vec<i64>>,
    budget: &mut Budget,
) -> Result<Option<Vec<Narrow>>, ProveStop>
    ensures { SpendsOn budget.old budget.new }
{
    let mut weights = uncovered(alloc, program, known)?;
    'searches: for _ in 0..program.columns() {
        match search.beating(&weights, Narrow::ONE, u64::MAX, budget)? {
            Found::Point(point) => {
                let counts = counts_of(alloc, &point)?;
                clear(&mut weights, &counts);
                known.push(counts)?;
            }
            Found::Nothing => return Ok(Some(weights)),
            Found::Doubt => return Ok(None),
        }
    }
    Ok(Some(weights))
}

/// Returns a weight for each column: 1 if no known composition has a member of it and it isn't seated, else 0.
fn uncovered(
    alloc: Global,
    program: &Program,
    known: &[Vec<i64>],
) -> Result<Vec<Narrow>, ProveStop> {
    let mut weights = Vec::new(alloc);
    for span in program.spans() {
        weights.push(one_if(span.least().is_zero()))?;
    }
    for counts in known {
        clear(&mut weights, counts);
    }
    Ok(weights)
}

/// Sets the weights of the columns of which a composition has members to 0.
fn clear(weights: &mut [Narrow], counts: &[i64]) {
    for column in 0..weights.len().min(counts.len()) {
        if counts[column] > 0 {
            weights[column] = Narrow::ZERO;
        }
    }
}

/// Returns the numbers of a point.
fn counts_of(alloc: Global, point: &[Narrow]) -> Result<Vec<i64>, ProveStop> {
    let mut counts = Vec::new(alloc);
    for count in point {
        counts.push(count.get())?;
    }
    Ok(counts)
}

/// The free columns, the entries of the level, and the point of the fixed-point program before the next stage.
#[derive(Drop)]
struct FreeColumns {
    numbers: Vec<usize>,
    entries: Vec<i64>,
    point: Vec<i64>,
}

impl FreeColumns {
    /// Returns the columns that are free before the next stage.
    fn of(alloc: Global, program: &Program, chances: &Chances) -> Result<FreeColumns, ProveStop> {
        let mut free = FreeColumns {
            numbers: Vec::new(alloc),
            entries: Vec::new(alloc),
            point: Vec::new(alloc),
        };
        for column in 0..program.columns() {
            if chances.chance(column).is_none() && !program.spans()[column].is_point() {
                free.push(column, program.size_of(column))?;
            }
        }
        free.entries.push(0)?;
        free.point.push(UNIT)?;
        Ok(free)
    }

    /// Adds a free column of `size` members.
    fn push(&mut self, column: usize, size: Narrow) -> Result<(), AllocError> {
        self.numbers.push(column)?;
        self.entries.push(-size.get())?;
        self.point.push(0)?;
        Ok(())
    }

    /// Returns the fixed-point program, in which the row of each free column is open.
    fn master(&self, alloc: Global) -> Result<Master, AllocError> {
        let mut master = Master::new(alloc, &self.point)?;
        for row in 0..self.numbers.len() {
            master.set_row(row, 0, true);
        }
        Ok(master)
    }
}

impl<'a> Quick<'a> {
    /// Returns the state before the next stage, with the known compositions as columns of the program.
    fn new(
        alloc: Global,
        program: &'a Program,
        search: CompositionSearch,
        known: &[Vec<i64>],
        chances: Chances,
        stages: Vec<ClassStage>,
    ) -> Result<Quick<'a>, ProveStop> {
        let free = FreeColumns::of(alloc, program, &chances)?;
        let master = free.master(alloc)?;
        let mut quick = Quick {
            alloc,
            program,
            search,
            free: free.numbers,
            columns: Columns::new(alloc),
            master,
            entries: free.entries,
            chances,
            stages,
        };
        quick.join_all(known)?;
        Ok(quick)
    }

    /// Adds the known compositions.
    fn join_all(&mut self, known: &[Vec<i64>]) -> Result<(), ProveStop> {
        for counts in known {
            let _is_new = self.join(counts)?;
        }
        Ok(())
    }

    /// Returns the stages and the chances, once all columns are settled.
    fn settled(self) -> Columned {
        Columned::Settled(self.stages, self.chances)
    }

    /// Adds a composition, given by its count for each column. False if one with the same counts of the free columns is known.
    fn join(&mut self, counts: &[i64]) -> Result<bool, ProveStop> {
        let mut own = Vec::new(self.alloc);
        for column in &self.free {
            own.push(counts.get(*column).copied().unwrap_or(0))?;
        }
        Ok(self.columns.join(own)?)
    }

    /// Replaces the known compositions by those of the program.
    fn note(&self, known: &mut Vec<Vec<i64>>) -> Result<(), ProveStop> {
        known.clear();
        for column in &self.columns.list {
            let mut counts = Vec::new(self.alloc);
            for span in self.program.spans() {
                counts.push(span.least().get())?;
            }
            write_counts(&mut counts, &self.free, &column.counts);
            known.push(counts)?;
        }
        Ok(())
    }

    /// Finds all stages. False in doubt.
    fn stages(&mut self, budget: &mut Budget) -> Result<bool, ProveStop>
        ensures { SpendsOn budget.old budget.new }
    {
        'stages: for _ in 0..MOST_STEPS {
            if !self.has_unsettled() {
                return self.close_last();
            }
            self.master.set_entries(&self.entries);
            match self.stage(budget)? {
                Step::Closed | Step::Further => {}
                Step::AtOne => return self.close_last(),
                Step::Doubt => return Ok(false),
            }
        }
        Ok(false)
    }

    /// Finds the next stage: searches for compositions until the level can't rise, and closes the stage.
    fn stage(&mut self, budget: &mut Budget) -> Result<Step, ProveStop>
        ensures { SpendsOn budget.old budget.new }
    {
        'steps: for _ in 0..MOST_STEPS {
            let step = self.step(budget)?;
            if step != Step::Further {
                return Ok(step);
            }
        }
        Ok(Step::Doubt)
    }

    /// Makes the level as great as the known compositions allow, and then closes the stage or searches for a further composition. A level
    /// of at least 1 - 2^-30 counts as 1.
    fn step(&mut self, budget: &mut Budget) -> Result<Step, ProveStop>
        ensures { SpendsOn budget.old budget.new }
    {
        if self.master.solve(&self.columns, budget)? != Solved::Done {
            return Ok(Step::Doubt);
        }
        let level = self.master.least();
        let is_at_one = level >= UNIT.saturating_sub(65_536);
        if !is_at_one {
            let step = self.close_by_scales(1, FIRST_SCALES, level, budget)?;
            if step != Step::Doubt {
                return Ok(step);
            }
        }
        match self.join_heavier(budget)? {
            Step::Closed if is_at_one => Ok(Step::AtOne),
            Step::Closed => self.close_any(level, budget),
            step => Ok(step),
        }
    }

    /// Searches for a heavier composition by rounded multipliers, and adds it. Here `Closed` doesn't mean that the stage is closed: it
    /// means that no new composition was found.
    fn join_heavier(&mut self, budget: &mut Budget) -> Result<Step, ProveStop>
        ensures { SpendsOn budget.old budget.new }
    {
        match self.heavier(budget)? {
            Found::Point(point) => self.join_point(&point, Step::Closed),
            Found::Nothing => Ok(Step::Closed),
            Found::Doubt => Ok(Step::Doubt),
        }
    }

    /// Adds the composition of a point. Returns `known` if one with the same counts of the free columns is known, else `Further`.
    fn join_point(&mut self, point: &[Narrow], known: Step) -> Result<Step, ProveStop> {
        let counts = counts_of(self.alloc, point)?;
        let is_new = self.join(&counts)?;
        Ok(if is_new { Step::Further } else { known })
    }

    /// True if a free column is unsettled.
    fn has_unsettled(&self) -> bool {
        self.free
            .iter()
            .any(|column| self.chances.chance(*column).is_none())
    }

    /// Adds the stage of all columns that are left, which have the chance 1, if there are some. Returns true.
    fn close_last(&mut self) -> Result<bool, ProveStop> {
        if !self.chances.are_settled() {
            let (weights, cap) = everybody_left(self.alloc, self.program, &self.chances)?;
            push_stage(
                &mut self.chances,
                &mut self.stages,
                weights,
                cap,
                Chance::ONE,
            )?;
        }
        Ok(true)
    }

    /// Searches for a heavier composition by rounded multipliers. If numbers pass 2^62 with all roundings, returns `Nothing`, since `close`
    /// makes a search of its own.
    fn heavier(&mut self, budget: &mut Budget) -> Result<Found, ProveStop>
        ensures { SpendsOn budget.old budget.new }
    {
        let multipliers = self.multipliers()?;
        'roundings: for greatest in ROUNDINGS {
            let (own, need) = rounded_weights(self.alloc, &multipliers, self.cost(), greatest)?;
            let weights = self.spread_weights(&own)?;
            match self.search.beating(&weights, need, u64::MAX, budget) {
                Err(ProveStop::Wide(_) | ProveStop::BeyondWidth) => {}
                found => return found,
            }
        }
        Ok(Found::Nothing)
    }

    /// Returns a weight for each free column in fixed point: the multiplier of its row, which is minus the dual. An unsettled column weighs
    /// at least 0.
    fn multipliers(&self) -> Result<Vec<i64>, ProveStop> {
        let mut multipliers = Vec::new(self.alloc);
        let duals = &self.master.duals;
        for place in 0..duals.len().min(self.free.len()) {
            let own = duals[place].saturating_neg();
            let is_settled = self.chances.chance(self.free[place]).is_some();
            multipliers.push(if is_settled { own } else { own.max(0) })?;
        }
        Ok(multipliers)
    }

    /// Returns what each composition of the basis weighs by the multipliers, in fixed point: the dual of the total's row.
    fn cost(&self) -> i64 {
        self.master.duals.last().copied().unwrap_or(0)
    }

    /// Returns the weight of each column, which is 0 if the column isn't free.
    fn spread_weights(&self, own: &[i64]) -> Result<Vec<Narrow>, ProveStop> {
        let mut weights = vec![in self.alloc; Narrow::ZERO; self.program.columns()]?;
        for place in 0..self.free.len().min(own.len()) {
            if let Some(weight) = weights.get_mut(self.free[place]) {
                *weight = Narrow::new(own[place]).ok_or(ProveStop::Lost)?;
            }
        }
        Ok(weights)
    }

    /// Tries to close a stage by whole weights at greater scales, and then by the exact duals.
    fn close_any(&mut self, level: i64, budget: &mut Budget) -> Result<Step, ProveStop>
        ensures { SpendsOn budget.old budget.new }
    {
        let from = FIRST_SCALES.saturating_add(1);
        let closing = self.close_by_scales(from, MOST_SCALE, level, budget)?;
        if closing != Step::Doubt {
            return Ok(closing);
        }
        match self.exact_weights()? {
            Some(own) => self.close(&own, level, budget),
            None => Ok(Step::Doubt),
        }
    }

    /// Tries to close a stage by whole weights at the scales `from..=most`. Ends as `close` does.
    fn close_by_scales(
        &mut self,
        from: i64,
        most: i64,
        level: i64,
        budget: &mut Budget,
    ) -> Result<Step, ProveStop>
        ensures { SpendsOn budget.old budget.new }
    {
        let multipliers = self.multipliers()?;
        let mut next = from;
        let mut last = Vec::new(self.alloc);
        'scales: for _ in 0..MOST_TRIES {
            let found = whole_weights(self.alloc, &multipliers, next, most)?;
            let Some((scale, own)) = found else {
                break;
            };
            next = scale.saturating_add(1);
            if own.as_slice() == last.as_slice() {
                continue;
            }
            let closing = self.close(&own, level, budget)?;
            if closing != Step::Doubt {
                return Ok(closing);
            }
            last = own;
        }
        Ok(Step::Doubt)
    }

    /// Returns the weights of the free columns from the exact duals, or None if these aren't found or a weight is below 0.
    fn exact_weights(&self) -> Result<Option<Vec<i64>>, ProveStop> {
        let Some(duals) = self.master.whole_duals(&self.columns)? else {
            return Ok(None);
        };
        let mut weights = Vec::new(self.alloc);
        for place in 0..duals.len().min(self.free.len()) {
            let own = duals[place].saturating_neg();
            if own < 0 && self.chances.chance(self.free[place]).is_none() {
                return Ok(None);
            }
            weights.push(own)?;
        }
        Ok(Some(weights))
    }

    /// Tries to close a stage with these weights of the free columns. Returns `Further` if a composition passes the cap, and `Doubt` if the
    /// weights don't give the level of the program.
    fn close(&mut self, own: &[i64], level: i64, budget: &mut Budget) -> Result<Step, ProveStop>
        ensures { SpendsOn budget.old budget.new }
    {
        let cap = self.heaviest(own)?;
        let weights = self.spread_weights(own)?;
        let Some(chance) = chance_near(self.program, &self.chances, &weights, cap, level)? else {
            return Ok(Step::Doubt);
        };
        match above(&mut self.search, &weights, cap, budget)? {
            Found::Point(point) => self.join_point(&point, Step::Doubt),
            Found::Nothing => {
                self.settle(own, weights, cap, chance)?;
                Ok(Step::Closed)
            }
            Found::Doubt => Ok(Step::Doubt),
        }
    }

    /// Returns the greatest weight of a known composition that attains the caps of all closed stages.
    fn heaviest(&self, own: &[i64]) -> Result<Narrow, ProveStop> {
        let mut most = None;
        for column in &self.columns.list {
            if !column.is_off {
                let weight = weight_of(own, &column.counts);
                most = Some(most.map_or(weight, |most: i128| most.max(weight)));
            }
        }
        narrow_add(most.ok_or(ProveStop::Lost)?, 0)
    }

    /// Closes a stage: settles the columns, puts the lighter compositions aside, and fixes the rows of the columns settled.
    fn settle(
        &mut self,
        own: &[i64],
        weights: Vec<Narrow>,
        cap: Narrow,
        chance: Chance,
    ) -> Result<(), ProveStop> {
        for column in self.columns.list.iter_mut() {
            if weight_of(own, &column.counts) < cap.wide() {
                column.is_off = true;
            }
        }
        self.fix_rows(own, chance)?;
        self.search.add_row(&weights, Span::point(cap))?;
        push_stage(&mut self.chances, &mut self.stages, weights, cap, chance)
    }

    /// Fixes the rows of the unsettled columns whose weight is above 0: each has the chance `chance`.
    fn fix_rows(&mut self, own: &[i64], chance: Chance) -> Result<(), ProveStop> {
        let free = self.free.as_slice();
        for row in 0..free.len().min(own.len()) {
            if own[row] > 0 && self.chances.chance(free[row]).is_none() {
                let size = match self.entries.get_mut(row) {
                    Some(entry) => mem::replace(entry, 0).saturating_neg(),
                    None => 0,
                };
                let amount = wide_mul(chance.num().wide(), i128::from(size))?;
                let fixed = fraction(amount, chance.den().wide());
                self.master.set_row(row, fixed, false);
            }
        }
        Ok(())
    }
}

/// Returns the chance that a stage of these weights and this cap gives its columns. Returns None if the chance is too far from the level of
/// the fixed-point program, or if the stage settles no column.
fn chance_near(
    program: &Program,
    chances: &Chances,
    weights: &[Narrow],
    cap: Narrow,
    level: i64,
) -> Result<Option<Chance>, ProveStop> {
    if weights.len() != program.columns() {
        return Err(ProveStop::Lost);
    }
    let sums = weight_sums(program, chances, weights)?;
    if sums.unsettled.get() <= 0 {
        return Ok(None);
    }
    let chance = sums.level(cap, chances.common())?;
    let exact = fraction(chance.num().wide(), chance.den().wide());
    let is_near = exact.saturating_sub(level).unsigned_abs() <= MOST_ERROR;
    Ok(is_near.then_some(chance))
}

/// Searches for a composition above a cap. Returns `Doubt` if numbers pass 2^62.
fn above(
    search: &mut CompositionSearch,
    weights: &[Narrow],
    cap: Narrow,
    budget: &mut Budget,
) -> Result<Found, ProveStop>
    ensures { SpendsOn budget.old budget.new }
{
    let need = narrow_add(cap.wide(), 1)?;
    match search.beating(weights, need, u64::MAX, budget) {
        Err(ProveStop::Wide(_) | ProveStop::BeyondWidth) => Ok(Found::Doubt),
        found => found,
    }
}

/// Returns the weight of a composition, by its counts of the free columns.
fn weight_of(own: &[i64], counts: &[i64]) -> i128 {
    let mut sum: i128 = 0;
    for place in 0..own.len().min(counts.len()) {
        sum = sum.wrapping_add(i128::from(own[place]).wrapping_mul(i128::from(counts[place])));
    }
    sum
}

/// Writes the counts of the free columns `free` into the counts of all columns.
fn write_counts(all: &mut [i64], free: &[usize], counts: &[i64]) {
    for place in 0..free.len().min(counts.len()) {
        if let Some(own) = all.get_mut(free[place]) {
            *own = counts[place];
        }
    }
}
