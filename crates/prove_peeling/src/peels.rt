//! Peeling: panels are taken off a remainder, one after the other, until nothing is left or no further panel is found. Each is taken off
//! with the greatest weight after which the remainder still satisfies the rows on average.

ghost use Rattle.std.specs.Prelude.{◌≡◌, length};
ghost use Rattle.prove_table.specs.Sizes.{SameSizes};
ghost use Rattle.prove_limits.specs.Budgets.{SpendsOn};

use crate::faces::Face;
use crate::odds::log;
use crate::remainders::Remainder;
use crate::rows::PanelRow;
use crate::seen::SeenPanels;
use prove_branching::{Found, search};
use prove_limits::{Budget, Narrow, ProveStop, Span, narrow_add, narrow_sub, times, wide_sub};
use prove_table::{PseudoRandom, Table};
use std::alloc::Global;

/// How many nodes a search for a panel may look at in the first turn, and in a tail.
pub(crate) const MOST_NODES: u64 = 2000;

/// How many nodes a search for a panel may look at in each further turn.
const NEXT_NODES: u64 = 50;

/// A turn of peeling: its number, which seeds its pseudo-random numbers, and how far these may shift wishes.
#[derive(Clone, Copy)]
pub(crate) struct Turn {
    pub(crate) number: u64,
    // how far pseudo-random numbers may shift each wish, up or down
    pub(crate) wildness: u32,
}

/// Takes panels off a remainder until nothing is left or no further panel is found. Returns true if nothing is left.
pub(crate) fn peel(
    alloc: Global,
    table: &mut Table,
    rows: &[PanelRow],
    seen: &mut SeenPanels,
    remainder: &mut Remainder,
    turn: Turn,
    budget: &mut Budget,
) -> Result<bool, ProveStop>
    requires columns { length remainder.old.parts.items ≡ table.old.columns }
    requires rows { length rows.now ≡ table.old.rows }
    ensures sizes { SameSizes table.old table.new }
    ensures spends { SpendsOn budget.old budget.new }
    ensures parts { length remainder.new.parts.items ≡ length remainder.old.parts.items }
{
    let mut random = PseudoRandom::new(turn.number.wrapping_mul(7919).wrapping_add(1));
    'panels: while remainder.total.get() > 0 {
        let face = Face::of(alloc, remainder, rows)?;
        let wishes = wishes_of(alloc, remainder, &face, turn, &mut random)?;
        table.aim(&wishes, remainder.total.get().unsigned_abs() % 1024)?;
        let most = if turn.number == 0 {
            MOST_NODES
        } else {
            NEXT_NODES
        };
        let found = search(alloc, table, &face.columns, &face.rows, most, budget)?;
        let Found::Point(point) = found else {
            return Ok(false);
        };
        let weight = greatest_weight(remainder, &face, rows, &point)?;
        if weight.get() <= 0 {
            return Ok(false);
        }
        let panel = seen.see(&point)?;
        remainder.take(seen, panel, weight)?;
    }
    Ok(true)
}

/// Returns a wish for each volunteer; a search prefers panels with a great sum of wishes. The wish grows with the volunteer's part of the
/// remainder, but is 0 if the face puts the volunteer on all panels or on none. A pseudo-random number shifts it by at most the turn's
/// wildness.
fn wishes_of(
    alloc: Global,
    remainder: &Remainder,
    face: &Face,
    turn: Turn,
    random: &mut PseudoRandom,
) -> Result<Vec<i64>, ProveStop> {
    let mut wishes = Vec::new(alloc);
    for column in 0..remainder.parts.len().min(face.columns.len()) {
        let part = remainder.parts[column];
        let mut wish = 0;
        if !face.columns[column].is_point() {
            let others = narrow_sub(remainder.total.wide(), part.wide())?;
            wish = log(part).saturating_sub(log(others));
        }
        if turn.wildness > 0 {
            wish = wish.saturating_add(random.next_within(turn.wildness));
        }
        wishes.push(wish)?;
    }
    Ok(wishes)
}

/// Returns the greatest weight by which a panel can be taken off: each part stays from 0 to the total that is left, and the remainder
/// satisfies the rows on average.
fn greatest_weight(
    remainder: &Remainder,
    face: &Face,
    rows: &[PanelRow],
    point: &[Narrow],
) -> Result<Narrow, ProveStop> {
    let total = remainder.total;
    let mut weight = total.wide();
    for column in 0..remainder.parts.len().min(point.len()) {
        let part = remainder.parts[column].wide();
        let left = if point[column].is_zero() {
            wide_sub(total.wide(), part)?
        } else {
            part
        };
        weight = weight.min(left);
    }
    for row in 0..rows.len().min(face.rows.len()).min(face.sums.len()) {
        let own = rows[row].sum(point)?;
        weight = weight.min(row_weight(own, face.rows[row], face.sums[row], total)?);
    }
    narrow_add(weight, 0)
}

/// Returns the greatest weight by which a panel can be taken off so that the remainder satisfies one row on average. `own` is the panel's
/// sum in this row, and `sum` the remainder's.
fn row_weight(own: i128, span: Span, sum: i128, total: Narrow) -> Result<i128, ProveStop> {
    let (least, greatest) = (span.least(), span.greatest());
    let mut weight = total.wide();
    if own > least.wide() {
        let above = wide_sub(sum, times(least, total))?;
        weight = weight.min(quotient(above, wide_sub(own, least.wide())?)?);
    }
    if own < greatest.wide() {
        let below = wide_sub(times(greatest, total), sum)?;
        weight = weight.min(quotient(below, wide_sub(greatest.wide(), own)?)?);
    }
    Ok(weight)
}

/// Returns `x / y`, rounded towards 0. Stops if `y` is 0.
fn quotient(x: i128, y: i128) -> Result<i128, ProveStop> {
    x.checked_div(y).ok_or(ProveStop::Lost)
}
