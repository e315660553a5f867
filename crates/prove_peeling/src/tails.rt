//! The exact tail: a table looks for weights of the panels seen that make up a remainder. If there are none, the multipliers that refute
//! the table say which further panel to search for.

ghost use Rattle.std.specs.Prelude.{◌≡◌, length, IfOk, OnOk};
ghost use Rattle.prove_table.specs.Sizes.{SameSizes, Spends};
ghost use Rattle.prove_peeling.specs.Shapes.{IsPanelMix};
ghost use Rattle.prove_limits.specs.Budgets.{SpendsOn};

use crate::faces::Face;
use crate::remainders::Remainder;
use crate::rows::{PanelRow, value_at};
use crate::seen::SeenPanels;
use prove_branching::{Found, ceiling, reach_of, search_weighing};
use prove_limits::{Budget, Narrow, ProveStop, Span, times, wide_sub};
use prove_table::{PseudoRandom, Table};
use std::alloc::Global;

/// How far a tail may go.
#[derive(Clone, Copy)]
pub(crate) struct TailLimits {
    /// The greatest absolute value that an entry of the tail's table may have.
    pub(crate) width: Narrow,
    /// How many further panels the tail may search for.
    pub(crate) steps: usize,
    /// The most nodes at which each of these searches looks.
    pub(crate) nodes: u64,
}

/// The greatest pseudo-random number that is a panel's part of the goal. These parts break ties between panels.
const MOST_TIE_BREAK: u64 = 64;

/// The result of a tail.
#[derive(Drop)]
pub(crate) enum Tail {
    /// The weight and the number of each panel that makes up the remainder, and the denominator of the weights.
    Inside(Vec<(i128, usize)>, Narrow),
    /// The remainder is no mix of panels.
    Outside,
    /// A search ended in doubt, or the tail searched for too many panels.
    Doubt,
}

/// The table of a tail: a column for each panel of the face, a row for each volunteer whose span in the face is from 0 to 1, and a row for
/// the total. `moving` has the numbers of the volunteers with a row, and `panels` those of the panels.
#[derive(Drop)]
struct PanelMix {
    table: Table,
    moving: Vec<usize>,
    panels: Vec<usize>,
    random: PseudoRandom,
    columns: Vec<Span>,
    rows: Vec<Span>,
}

/// Looks for weights of panels that make up a remainder exactly. Stops if an entry of the tail's table passes `limits.width`.
pub(crate) fn tail_of(
    alloc: Global,
    table: &mut Table,
    rows: &[PanelRow],
    seen: &mut SeenPanels,
    remainder: &Remainder,
    limits: &TailLimits,
    budget: &mut Budget,
) -> Result<Tail, ProveStop>
    requires columns { length remainder.now.parts.items ≡ table.old.columns }
    requires rows { length rows.now ≡ table.old.rows }
    ensures sizes { OnOk result (SameSizes table.old table.new) }
    ensures spends { SpendsOn budget.old budget.new }
{
    let face = Face::of(alloc, remainder, rows)?;
    let mut mix = PanelMix::new(alloc, remainder, &face, limits.width)?;
    let numbers = panels_of(alloc, seen, rows, &face)?;
    mix.join_all(alloc, seen, &numbers, remainder.total)?;
    tail_by(
        alloc, table, seen, remainder, limits, &face, &mut mix, budget,
    )
}

/// Looks for weights of the mix's panels that make up a remainder. While there are none, searches for a further panel of the face.
fn tail_by(
    alloc: Global,
    table: &mut Table,
    seen: &mut SeenPanels,
    remainder: &Remainder,
    limits: &TailLimits,
    face: &Face,
    mix: &mut PanelMix,
    budget: &mut Budget,
) -> Result<Tail, ProveStop>
    requires parts { length remainder.now.parts.items ≡ table.old.columns }
    requires columns { length face.now.columns.items ≡ table.old.columns }
    requires rows { length face.now.rows.items ≡ table.old.rows }
    requires mix { IsPanelMix mix.old }
    ensures sizes { OnOk result (SameSizes table.old table.new) }
    ensures spends { SpendsOn budget.old budget.new }
{
    'steps: for _ in 0..limits.steps {
        if mix.has_point(budget)? {
            return mix.weights(alloc);
        }
        let (wishes, need) = mix.wanted(alloc, remainder)?;
        match beat(alloc, table, face, &wishes, need, limits.nodes, budget)? {
            Found::Point(point) => mix.join_further(alloc, seen, &point, remainder.total)?,
            Found::Nothing => return Ok(Tail::Outside),
            Found::Doubt => return Ok(Tail::Doubt),
        }
    }
    Ok(Tail::Doubt)
}

/// Returns the numbers of the seen panels that are within a face, sorted by their members.
fn panels_of(
    alloc: Global,
    seen: &SeenPanels,
    rows: &[PanelRow],
    face: &Face,
) -> Result<Vec<usize>, ProveStop> {
    let mut numbers = Vec::new(alloc);
    for (number, members) in seen.panels().iter().enumerate() {
        let point = point_of(alloc, members, face.columns.len())?;
        if face.has(rows, &point)? {
            numbers.push(number)?;
        }
    }
    numbers.sort_unstable_by(|a, b| seen.members(*a).cmp(seen.members(*b)));
    Ok(numbers)
}

/// Returns a point with the value 1 for each member, and 0 for each other volunteer.
fn point_of(alloc: Global, members: &[usize], volunteers: usize) -> Result<Vec<Narrow>, ProveStop> {
    let mut point = vec![in alloc; Narrow::ZERO; volunteers]?;
    for member in members {
        if let Some(value) = point.get_mut(*member) {
            *value = Narrow::ONE;
        }
    }
    Ok(point)
}

/// Searches for a panel of the face whose wishes sum to at least `need`, at no more than `most` nodes.
fn beat(
    alloc: Global,
    table: &mut Table,
    face: &Face,
    wishes: &[Narrow],
    need: Narrow,
    most: u64,
    budget: &mut Budget,
) -> Result<Found, ProveStop>
    requires wishes { length wishes.now ≡ table.old.columns }
    requires columns { length face.now.columns.items ≡ table.old.columns }
    requires rows { length face.now.rows.items ≡ table.old.rows }
    ensures sizes { OnOk result (SameSizes table.old table.new) }
    ensures spends { SpendsOn budget.old budget.new }
{
    let span = Span::reaching(need, reach_of(wishes)?);
    search_weighing(
        alloc,
        table,
        &face.columns,
        &face.rows,
        wishes,
        span,
        most,
        budget,
    )
}

impl PanelMix {
    /// Returns the tail of a remainder, with its rows and without panels.
    fn new(
        alloc: Global,
        remainder: &Remainder,
        face: &Face,
        width: Narrow,
    ) -> Result<PanelMix, ProveStop>
        requires { length face.now.columns.items ≡ length remainder.now.parts.items }
        ensures { IfOk result IsPanelMix }
    {
        let mut moving = Vec::new(alloc);
        let mut rows = Vec::new(alloc);
        for i in 0..face.columns.len() {
            if !face.columns[i].is_point() {
                moving.push(i)?;
                rows.push(Span::point(remainder.parts[i]))?;
            }
        }
        rows.push(Span::point(remainder.total))?;
        let mut table = Table::new(alloc, 0)?;
        table.set_width(width);
        'rows: for _ in 0..rows.len() {
            table.add_row(&[])?;
        }
        Ok(PanelMix {
            table,
            moving,
            panels: Vec::new(alloc),
            random: PseudoRandom::new(1),
            columns: Vec::new(alloc),
            rows,
        })
    }

    /// Adds a column for the seen panel of number `number`.
    fn join(
        &mut self,
        alloc: Global,
        seen: &SeenPanels,
        number: usize,
        total: Narrow,
    ) -> Result<(), ProveStop>
        requires { IsPanelMix self.old }
        ensures { OnOk result (IsPanelMix self.new) }
    {
        let members = seen.members(number);
        let mut column = Vec::new(alloc);
        for i in 0..self.moving.len() {
            column.push(one_if(members.contains(&self.moving[i])))?;
        }
        column.push(Narrow::ONE)?;
        self.table
            .add_column(&column, -(self.random.next_up_to(MOST_TIE_BREAK) as i64))?;
        self.columns.push(Span::reaching(Narrow::ZERO, total))?;
        self.panels.push(number)?;
        Ok(())
    }

    /// Adds a column for each of the seen panels of these numbers.
    fn join_all(
        &mut self,
        alloc: Global,
        seen: &SeenPanels,
        numbers: &[usize],
        total: Narrow,
    ) -> Result<(), ProveStop>
        requires { IsPanelMix self.old }
        ensures { OnOk result (IsPanelMix self.new) }
    {
        for number in numbers {
            self.join(alloc, seen, *number, total)?;
        }
        Ok(())
    }

    /// Adds a column for a panel that a search found. Stops if the tail has one for it.
    fn join_further(
        &mut self,
        alloc: Global,
        seen: &mut SeenPanels,
        point: &[Narrow],
        total: Narrow,
    ) -> Result<(), ProveStop>
        requires { IsPanelMix self.old }
        ensures { OnOk result (IsPanelMix self.new) }
    {
        let number = seen.see(point)?;
        if self.panels.contains(&number) {
            return Err(ProveStop::Lost);
        }
        self.join(alloc, seen, number, total)
    }

    /// True if some weights of the panels make up the remainder.
    fn has_point(&mut self, budget: &mut Budget) -> Result<bool, ProveStop>
        requires { IsPanelMix self.old }
        ensures mix { IsPanelMix self.new }
        ensures spends { Spends budget.old budget.new }
    {
        self.table.run(&self.columns, &self.rows, budget)
    }

    /// Returns the panels whose weights in the table's point are not 0, with these weights.
    fn weights(&self, alloc: Global) -> Result<Tail, ProveStop> {
        let values = self.table.point(alloc)?;
        let mut weights = Vec::new(alloc);
        for column in 0..values.len().min(self.panels.len()) {
            if values[column] != 0 {
                weights.push((values[column], self.panels[column]))?;
            }
        }
        Ok(Tail::Inside(weights, self.table.denominator()))
    }

    /// Returns a wish for each volunteer, which is minus the multiplier of their row, or 0 if they have no row; and a sum of wishes that at
    /// least one panel of each mix that makes up the remainder reaches: the average sum in the remainder, rounded up.
    fn wanted(
        &self,
        alloc: Global,
        remainder: &Remainder,
    ) -> Result<(Vec<Narrow>, Narrow), ProveStop>
        ensures { IfOk result (λ wanted. length wanted.0.items ≡ length remainder.now.parts.items) }
    {
        let mut wishes = vec![in alloc; Narrow::ZERO; remainder.parts.len()]?;
        let multipliers = self.table.refutation(alloc)?;
        let mut sum = 0;
        for row in 0..self.moving.len().min(multipliers.len()) {
            let (volunteer, multiplier) = (self.moving[row], multipliers[row]);
            if let Some(wish) = wishes.get_mut(volunteer) {
                *wish = -multiplier;
            }
            let part = value_at(&remainder.parts, volunteer);
            sum = wide_sub(sum, times(multiplier, part))?;
        }
        if remainder.total < Narrow::ONE {
            return Err(ProveStop::Lost);
        }
        Ok((wishes, ceiling(sum, remainder.total.wide())?))
    }
}

/// Returns 1 if a condition holds, else 0.
fn one_if(holds: bool) -> Narrow {
    if holds { Narrow::ONE } else { Narrow::ZERO }
}
