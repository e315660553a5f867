//! The lottery of a point: turns of peeling, and if these get stuck, tails and a mix of compositions. `prove_run` calls `lottery_of_point`
//! and `mix_of`. Promise: nothing of the budget is given back.

ghost use Rattle.std.specs.Prelude.{◌≡◌, length, IfOk, IfNone, OnOk};
ghost use Rattle.prove_peeling.specs.Shapes.{HasTable, IsPeelingRun};
ghost use Rattle.prove_limits.specs.Budgets.{SpendsOn};

use crate::class_mixes::{Mixed, class_mix};
use crate::class_peels::panels_by_classes;
use crate::free_classes::counts_of;
use crate::peels::{MOST_NODES, Turn, peel};
use crate::remainders::Remainder;
use crate::rows::PanelRows;
use crate::seen::SeenPanels;
use crate::tails::{Tail, TailLimits, tail_of};
use prove_limits::{Budget, Narrow, ProveStop, wide_mul};
use prove_program::Program;
use prove_stages::Chances;
use prove_table::Table;
use std::alloc::Global;

/// How many turns of peeling each round has. One more turn comes before the first round.
const TURNS: [u64; 4] = [11, 4, 57, 96];

/// How far pseudo-random numbers may shift a volunteer's wish, up or down, in all turns but the first.
const WILDNESS: u32 = 40;

/// The same, where sets of classes are peeled. With smaller shifts a table stays nearer to its last basis.
const CLASS_WILDNESS: u32 = 10;

/// A remainder is doubled only if its whole is below this number, 2^56.
const MOST_DOUBLED: i64 = 72_057_594_037_927_936;

/// The width of the tails of all rounds but the last: 2^46.
const TAIL_WIDTH: i64 = 70_368_744_177_664;

/// How many further panels a tail may search for.
const TAIL_STEPS: usize = 600;

/// The width of the short tails, which are tried before the others: 2^40.
const SHORT_WIDTH: i64 = 1_099_511_627_776;

/// How many further panels a short tail may search for.
const SHORT_STEPS: usize = 40;

/// The most nodes at which each search of a short tail looks.
const SHORT_NODES: u64 = 100;

/// How many short tails are tried at most. Before each but the first, panels are put back: 2, then 4, 8 and 16.
const SHORT_TAILS: u32 = 5;

/// How many of the other tails are tried at most in a round.
const TAILS: u32 = 63;

/// With more volunteers than this, sets of classes are peeled before panels of volunteers.
const MANY: usize = 400;

/// Before which turn the first round ends when sets of classes are peeled, and before which turn the second one.
const SHORT_ROUND: u64 = 12;

const SHORT_ROUNDS: u64 = 16;

/// How many of the other tails are tried at most when sets of classes are peeled.
const CLASS_TAILS: u32 = 6;

/// A panel with its weight.
#[derive(Debug, Drop)]
pub struct WeightedPanel {
    /// The panel's weight in the lottery.
    pub weight: i128,
    /// The numbers of its members, rising.
    pub members: Vec<usize>,
}

/// What was found for a point, by peeling or by a mix of compositions.
#[derive(Debug, Drop)]
pub enum Peeled {
    /// Panels with weights. A panel may come more than once.
    Found(Vec<WeightedPanel>),
    /// The point is no mix of panels.
    Outside,
    /// Neither a lottery was found nor that there is none.
    Doubt,
}

/// The state of a run that makes the lottery of a point.
#[derive(Drop)]
struct PeelingRun<'a> {
    alloc: Global,
    // how many columns the table has: one for each volunteer, or one for each class
    columns: usize,
    rows: &'a PanelRows,
    classes: &'a Program,
    chances: &'a Chances,
    table: Table,
    seen: SeenPanels,
    remainder: Remainder,
    best: Option<Remainder>,
}

/// Makes a lottery over panels of `size` members that satisfy the rows, in which each volunteer has the chance of their column. If it finds
/// none, adds the compositions of the panels seen to `known`, each with a count for each class. With more than `MANY` volunteers, sets of
/// classes are peeled first, as `class_peels` says. The contract says nothing of the lottery, since each proof is verified before it is
/// printed. Stops if `program` has not as many columns as `classes` has volunteers, or if a class has no chance.
pub fn lottery_of_point(
    alloc: Global,
    program: &Program,
    rows: &PanelRows,
    classes: &Program,
    chances: &Chances,
    size: usize,
    known: &mut Vec<Vec<i64>>,
    budget: &mut Budget,
) -> Result<Peeled, ProveStop>
    ensures { SpendsOn budget.old budget.new }
{
    if classes.volunteers() > MANY {
        if let Some(panels) = panels_by_classes(alloc, rows, classes, chances, budget)? {
            return Ok(Peeled::Found(panels));
        }
    }
    lottery_by_volunteers(alloc, program, rows, classes, chances, size, known, budget)
}

/// Makes the lottery of a point as `lottery_of_point` says, by peeling panels of volunteers.
fn lottery_by_volunteers(
    alloc: Global,
    program: &Program,
    rows: &PanelRows,
    classes: &Program,
    chances: &Chances,
    size: usize,
    known: &mut Vec<Vec<i64>>,
    budget: &mut Budget,
) -> Result<Peeled, ProveStop>
    ensures { SpendsOn budget.old budget.new }
{
    let remainder = remainder_of(alloc, classes, chances)?;
    if remainder.parts.len() != program.columns() {
        return Err(ProveStop::Lost);
    }
    let mut run = PeelingRun {
        alloc,
        columns: program.columns(),
        rows,
        classes,
        chances,
        table: loaded(alloc, program.columns(), rows)?,
        seen: SeenPanels::new(alloc, size),
        remainder,
        best: None,
    };
    let found = run.lottery(budget)?;
    if !matches!(found, Peeled::Found(_)) {
        note(alloc, classes, &run.seen, known)?;
    }
    Ok(found)
}

/// Peels sets of classes off a remainder, which has a part for each class. Each set has `size` classes. Tries fewer turns and tails than
/// for volunteers, and no mix of compositions. Stops if a row has not one coefficient for each part.
pub(crate) fn class_sets(
    alloc: Global,
    rows: &PanelRows,
    classes: &Program,
    chances: &Chances,
    remainder: Remainder,
    size: usize,
    budget: &mut Budget,
) -> Result<Peeled, ProveStop>
    ensures { SpendsOn budget.old budget.new }
{
    let columns = remainder.parts.len();
    let mut run = PeelingRun {
        alloc,
        columns,
        rows,
        classes,
        chances,
        table: loaded(alloc, columns, rows)?,
        seen: SeenPanels::new(alloc, size),
        remainder,
        best: None,
    };
    run.short_lottery(budget)
}

/// Makes the lottery of a point as a mix of compositions, without peeling. Some compositions are known: each has a count for each class.
/// Returns `Doubt` if a number passes 2^62 or the mix is lost, and stops only if the budget is spent or memory runs out.
pub fn mix_of(
    alloc: Global,
    rows: &PanelRows,
    classes: &Program,
    chances: &Chances,
    known: &[Vec<i64>],
    budget: &mut Budget,
) -> Result<Peeled, ProveStop>
    ensures { SpendsOn budget.old budget.new }
{
    match class_mix(alloc, classes, chances, &rows.rows, known, budget) {
        Ok(Mixed::Found(panels)) => Ok(Peeled::Found(panels)),
        Ok(Mixed::Outside) => Ok(Peeled::Outside),
        Ok(Mixed::Doubt) => Ok(Peeled::Doubt),
        Err(ProveStop::Wide(_) | ProveStop::BeyondWidth | ProveStop::Lost) => Ok(Peeled::Doubt),
        Err(stop) => Err(stop),
    }
}

/// Adds the compositions of the panels seen.
fn note(
    alloc: Global,
    classes: &Program,
    seen: &SeenPanels,
    known: &mut Vec<Vec<i64>>,
) -> Result<(), ProveStop> {
    for number in 0..seen.panels().len() {
        known.push(counts_of(alloc, classes, seen.members(number))?)?;
    }
    Ok(())
}

/// Returns the limits of the tails of a round.
fn tail_limits(is_last: bool) -> TailLimits {
    TailLimits {
        width: if is_last {
            Narrow::GREATEST
        } else {
            width_of(TAIL_WIDTH)
        },
        steps: TAIL_STEPS,
        nodes: MOST_NODES,
    }
}

/// Returns the limits of short tails.
fn short_limits() -> TailLimits {
    TailLimits {
        width: width_of(SHORT_WIDTH),
        steps: SHORT_STEPS,
        nodes: SHORT_NODES,
    }
}

/// Returns a number as a width, or the greatest width if the number is too great for one.
fn width_of(number: i64) -> Narrow {
    match Narrow::new(number) {
        Some(width) => width,
        None => Narrow::GREATEST,
    }
}

/// Returns a table with this many columns and the rows `rows`.
fn loaded(alloc: Global, columns: usize, rows: &PanelRows) -> Result<Table, ProveStop>
    ensures columns { IfOk result (λ table. table.columns ≡ columns) }
    ensures rows { IfOk result (λ table. table.rows ≡ length rows.now.rows.items) }
{
    let mut table = Table::new(alloc, columns)?;
    for row in 0..rows.rows.len() {
        let coefficients = &rows.rows[row].coefficients;
        if coefficients.len() != columns {
            return Err(ProveStop::Lost);
        }
        table.add_row(coefficients)?;
    }
    Ok(table)
}

/// Returns the remainder before any panel is taken off: each volunteer's part is the chance times the common denominator, the total.
fn remainder_of(
    alloc: Global,
    classes: &Program,
    chances: &Chances,
) -> Result<Remainder, ProveStop> {
    let total = chances.common();
    let mut parts = Vec::new(alloc);
    for i in 0..classes.volunteers() {
        let chance = chances.chance(classes.column_of(i)).ok_or(ProveStop::Lost)?;
        parts.push(chance.scaled(total)?)?;
    }
    Ok(Remainder {
        parts,
        total,
        whole: total,
        taken: Vec::new(alloc),
    })
}

/// True if the tails stopped because a number passed their width or 2^62.
fn is_too_wide(found: &Result<Peeled, ProveStop>) -> bool {
    matches!(found, Err(ProveStop::Wide(_) | ProveStop::BeyondWidth))
}

impl PeelingRun<'_> {
    /// Makes the lottery: one turn without pseudo-random shifts, then rounds of turns. After the first round short tails are tried; after the
    /// second a mix of compositions and then the other tails; after each further one these tails. A third or fourth round comes only if a
    /// number passed the width of the tails or 2^62.
    fn lottery(&mut self, budget: &mut Budget) -> Result<Peeled, ProveStop>
        requires run { IsPeelingRun self.old }
        requires table { HasTable self.old }
        ensures { SpendsOn budget.old budget.new }
    {
        if self.peel(0, 0, budget)? {
            return self.found(&[], Narrow::ONE);
        }
        let mut next: u64 = 1;
        for round in 0..TURNS.len() {
            let end = next.saturating_add(TURNS[round]);
            if self.turns(next, end, WILDNESS, budget)? {
                return self.found(&[], Narrow::ONE);
            }
            next = end;
            let is_last = round + 1 == TURNS.len();
            self.go_to_best()?;
            if round == 0 {
                if let Some(found) = self.short_tails(budget)? {
                    return Ok(found);
                }
                continue;
            }
            if round == 1 {
                if let Some(found) = self.class_mix(budget)? {
                    return Ok(found);
                }
            }
            let found = self.tails(tail_limits(is_last), TAILS, budget);
            if is_last || !is_too_wide(&found) {
                return found;
            }
            self.begin_anew()?;
        }
        Ok(Peeled::Doubt)
    }

    /// Makes the lottery by one turn without pseudo-random shifts and two rounds of turns, with short tails after the first and a few other
    /// tails after the second.
    fn short_lottery(&mut self, budget: &mut Budget) -> Result<Peeled, ProveStop>
        requires run { IsPeelingRun self.old }
        requires table { HasTable self.old }
        ensures { SpendsOn budget.old budget.new }
    {
        if self.peel(0, 0, budget)? || self.turns(1, SHORT_ROUND, CLASS_WILDNESS, budget)? {
            return self.found(&[], Narrow::ONE);
        }
        self.go_to_best()?;
        if let Some(found) = self.short_tails(budget)? {
            return Ok(found);
        }
        if self.turns(SHORT_ROUND, SHORT_ROUNDS, CLASS_WILDNESS, budget)? {
            return self.found(&[], Narrow::ONE);
        }
        self.go_to_best()?;
        self.tails(tail_limits(false), CLASS_TAILS, budget)
    }

    /// Peels in turns `first..end`, in which pseudo-random numbers shift each wish by at most `wildness`. True if nothing is left after one of
    /// them.
    fn turns(
        &mut self,
        first: u64,
        end: u64,
        wildness: u32,
        budget: &mut Budget,
    ) -> Result<bool, ProveStop>
        requires run { IsPeelingRun self.old }
        requires table { HasTable self.old }
        ensures run { IsPeelingRun self.new }
        ensures table { HasTable self.new }
        ensures spends { SpendsOn budget.old budget.new }
    {
        for turn in first..end {
            self.begin_turn(turn)?;
            if self.peel(turn, wildness, budget)? {
                return Ok(true);
            }
        }
        Ok(false)
    }

    /// Peels in one turn. True if nothing is left.
    fn peel(&mut self, number: u64, wildness: u32, budget: &mut Budget) -> Result<bool, ProveStop>
        requires run { IsPeelingRun self.old }
        requires table { HasTable self.old }
        ensures run { IsPeelingRun self.new }
        ensures table { HasTable self.new }
        ensures spends { SpendsOn budget.old budget.new }
    {
        let turn = Turn { number, wildness };
        peel(
            self.alloc,
            &mut self.table,
            &self.rows.rows,
            &mut self.seen,
            &mut self.remainder,
            turn,
            budget,
        )
    }

    /// Prepares a turn: keeps the remainder or returns to the best one, puts some panels back, and in every fourth turn doubles the
    /// remainder.
    fn begin_turn(&mut self, turn: u64) -> Result<(), ProveStop>
        requires run { IsPeelingRun self.old }
        requires table { HasTable self.old }
        ensures run { IsPeelingRun self.new }
        ensures table { HasTable self.new }
    {
        self.keep_or_return()?;
        self.put_back(2 + 2 * (turn % 8) + turn / 8 % 8 * 4)?;
        if turn % 4 != 0 {
            return Ok(());
        }
        self.double()
    }

    /// Keeps the remainder as the best one if less is left in it than in the best one so far, else returns to the best one.
    fn keep_or_return(&mut self) -> Result<(), ProveStop>
        requires run { IsPeelingRun self.old }
        requires table { HasTable self.old }
        ensures run { IsPeelingRun self.new }
        ensures table { HasTable self.new }
    {
        let is_better = match &self.best {
            Some(best) => self.remainder.is_less_than(best),
            None => true,
        };
        if !is_better {
            return self.return_to_best();
        }
        self.best = Some(self.remainder.copy(self.alloc)?);
        Ok(())
    }

    /// Puts back the last `count` panels taken.
    fn put_back(&mut self, count: u64) -> Result<(), ProveStop>
        requires run { IsPeelingRun self.old }
        requires table { HasTable self.old }
        ensures run { IsPeelingRun self.new }
        ensures table { HasTable self.new }
    {
        self.remainder.put_back(&self.seen, count)
    }

    /// Doubles the remainder, or does nothing if its `whole` is at least `MOST_DOUBLED`.
    fn double(&mut self) -> Result<(), ProveStop>
        requires run { IsPeelingRun self.old }
        requires table { HasTable self.old }
        ensures run { IsPeelingRun self.new }
        ensures table { HasTable self.new }
    {
        if self.remainder.whole.get() >= MOST_DOUBLED {
            return Ok(());
        }
        self.remainder.double()
    }

    /// Returns to the best remainder if less is left in it, else keeps the present one as the best.
    fn go_to_best(&mut self) -> Result<(), ProveStop>
        requires run { IsPeelingRun self.old }
        requires table { HasTable self.old }
        ensures run { IsPeelingRun self.new }
        ensures table { HasTable self.new }
    {
        let is_worse = match &self.best {
            Some(best) => best.is_less_than(&self.remainder),
            None => false,
        };
        if is_worse {
            return self.return_to_best();
        }
        self.best = Some(self.remainder.copy(self.alloc)?);
        Ok(())
    }

    /// Returns to the best remainder, if there is one.
    fn return_to_best(&mut self) -> Result<(), ProveStop>
        requires run { IsPeelingRun self.old }
        requires table { HasTable self.old }
        ensures run { IsPeelingRun self.new }
        ensures table { HasTable self.new }
    {
        if let Some(best) = &self.best {
            self.remainder = best.copy(self.alloc)?;
        }
        Ok(())
    }

    /// Makes a new table, since one that stopped in a change of basis must not be used further; and returns to the best remainder.
    fn begin_anew(&mut self) -> Result<(), ProveStop>
        requires { IsPeelingRun self.old }
        ensures run { IsPeelingRun self.new }
        ensures table { OnOk result (HasTable self.new) }
    {
        self.table = loaded(self.alloc, self.columns, self.rows)?;
        self.return_to_best()
    }

    /// Tries short tails, and returns what they found. If they ended in doubt, or a number passed their width or 2^62, begins anew with the
    /// best remainder and returns None.
    fn short_tails(&mut self, budget: &mut Budget) -> Result<Option<Peeled>, ProveStop>
        requires run { IsPeelingRun self.old }
        requires table { HasTable self.old }
        ensures run { IsPeelingRun self.new }
        ensures table { IfOk result (λ found. IfNone found (HasTable self.new)) }
        ensures spends { SpendsOn budget.old budget.new }
    {
        match self.tails(short_limits(), SHORT_TAILS, budget) {
            Ok(Peeled::Doubt) | Err(ProveStop::Wide(_) | ProveStop::BeyondWidth) => {
                self.begin_anew()?;
                Ok(None)
            }
            Ok(found) => Ok(Some(found)),
            Err(stop) => Err(stop),
        }
    }

    /// Looks for a mix of compositions. Returns None if that ended in doubt.
    fn class_mix(&mut self, budget: &mut Budget) -> Result<Option<Peeled>, ProveStop>
        requires run { IsPeelingRun self.old }
        requires table { HasTable self.old }
        ensures run { IsPeelingRun self.new }
        ensures table { HasTable self.new }
        ensures spends { SpendsOn budget.old budget.new }
    {
        let mut known = Vec::new(self.alloc);
        note(self.alloc, self.classes, &self.seen, &mut known)?;
        match mix_of(
            self.alloc,
            self.rows,
            self.classes,
            self.chances,
            &known,
            budget,
        )? {
            Peeled::Doubt => Ok(None),
            found => Ok(Some(found)),
        }
    }

    /// Tries tails, at most `most` times. If the remainder is no mix of panels, or a tail ends in doubt, puts back 2 panels, then 4, 8 and
    /// so on, and tries again. Once no panel is left to put back, returns `Outside` or `Doubt`. After `most` times, returns `Doubt`.
    fn tails(
        &mut self,
        limits: TailLimits,
        most: u32,
        budget: &mut Budget,
    ) -> Result<Peeled, ProveStop>
        requires run { IsPeelingRun self.old }
        requires table { HasTable self.old }
        ensures run { IsPeelingRun self.new }
        ensures spends { SpendsOn budget.old budget.new }
    {
        let mut count: u64 = 1;
        'doublings: for _ in 0..most {
            let tail = tail_of(
                self.alloc,
                &mut self.table,
                &self.rows.rows,
                &mut self.seen,
                &self.remainder,
                &limits,
                budget,
            )?;
            match tail {
                Tail::Inside(weights, denominator) => return self.found(&weights, denominator),
                Tail::Outside if self.remainder.taken.is_empty() => return Ok(Peeled::Outside),
                Tail::Doubt if self.remainder.taken.is_empty() => return Ok(Peeled::Doubt),
                _ => {}
            }
            count = count.saturating_mul(2);
            self.put_back(count)?;
        }
        Ok(Peeled::Doubt)
    }

    /// Returns the panels that were taken off, with their weights times `denominator`, and those of the tail. `denominator` is that of the
    /// tail's weights.
    fn found(&self, tail: &[(i128, usize)], denominator: Narrow) -> Result<Peeled, ProveStop> {
        let mut panels = Vec::new(self.alloc);
        for taken in &self.remainder.taken {
            let weight = wide_mul(taken.weight.wide(), denominator.wide())?;
            panels.push(self.weighted(weight, taken.panel)?)?;
        }
        for (weight, panel) in tail {
            panels.push(self.weighted(*weight, *panel)?)?;
        }
        Ok(Peeled::Found(panels))
    }

    /// Returns the seen panel of number `panel`, with a weight.
    fn weighted(&self, weight: i128, panel: usize) -> Result<WeightedPanel, ProveStop> {
        let members = Vec::from_slice(self.alloc, self.seen.members(panel))?;
        Ok(WeightedPanel { weight, members })
    }
}
