//! Spreads compositions with fractions over panels, so that all members of a class have the same chance.

ghost use Rattle.std.specs.Prelude.{◌≡◌, ◌*◌, ◌/◌, ◌<◌, ◌≤◌, ℕ, Bool, ◌+◌, ◌++◌, length, map, slice_index_or, All, IfOk, OnOk, SomeIff};
ghost use Rattle.std.specs.Int.{◌∣◌};
ghost use Rattle.std.specs.List.{fold, flat_map};
ghost use Rattle.alike.specs.Spreads.{IsSpread, IsTotal};
ghost use Rattle.alike.specs.Steps.{IsTotalOf, arc_row};
ghost use Rattle.frac128.specs.Divisors.{lcm_of};
ghost use Rattle.define_pools.specs.Lottery.{IsLottery};
ghost use Rattle.define_pools.specs.Pool.{Pool};
ghost use Rattle.define_searches.specs.Classes.{MakesClasses, classes_by};
ghost use Rattle.define_runs.specs.Spreading.{AreParts, HasEvenChances, arcs, cuts as cuts_of, dial, greatest_total, rows_of, spread, total_from};

use crate::arcs::panel_at;
use crate::dials::{GREATEST_TOTAL, common_multiple, cuts, partly_taken, places};
use crate::groups::Classes;
use define_rows::Composition;
use frac128::Frac;
use pool_model::{Lottery, LotteryRow};
use std::alloc::{AllocError, Global};
use thiserror::Error;

/// Why compositions could not be spread.
#[derive(Debug, Drop, Error)]
pub enum SpreadStop {
    /// The lottery's total passes 10^38 at this composition.
    #[error("the total {total} passes 10^38 at composition {place}, of denominator {den}")]
    TotalPasses {
        /// The number of the composition, from 0.
        place: usize,
        /// The common total of the compositions before this one, from 1 to 10^38; 1 if this is the first.
        total: i128,
        /// The denominator of the composition's fraction, at least 1.
        den: i128,
    },
    /// No memory was left.
    #[error("out of memory")]
    OutOfMemory,
}

impl From<AllocError> for SpreadStop {
    ghost use Rattle.std.specs.Prelude.{◌≡◌};
    ghost use Rattle.alike.specs.declared.spreading.SpreadStop.TheVariants.{OutOfMemory};

    ghost from_gives = { λ _ e. e ≡ OutOfMemory };

    fn from(_error: AllocError) -> SpreadStop {
        SpreadStop::OutOfMemory
    }
}

/// Returns the lottery over the panels of `parts`, which are different compositions with positive fractions that sum to 1. The panels of a
/// composition together weigh its fraction of the total, and all members of a class have the same chance. The total is the least common
/// multiple, over the compositions, of the denominator times the dial's length.
pub fn spread(
    alloc: Global,
    classes: &Classes,
    parts: &[(Composition, Frac)],
) -> Result<Lottery, SpreadStop>
    requires { AreParts classes.now parts.now }
    ensures spread { IsSpread result (spread classes.now parts.now) }
    ensures lottery { (pool : Pool) (alike : ℕ → ℕ → Bool) → MakesClasses pool alike → classes.now ≡ classes_by alike pool → IfOk result (λ lottery. IsLottery pool lottery) }
    ensures even { IfOk result (λ lottery. HasEvenChances classes.now parts.now lottery) }
{
    classes.facts();
    classes.part();
    let total = common_total(alloc, classes, parts)?;
    let rows = all_rows(alloc, classes, parts, total)?;
    Ok(Lottery::new(total as i128, rows))
}

// Returns the least common multiple, over the compositions, of the denominator times the dial's length.
fn common_total(
    alloc: Global,
    classes: &Classes,
    parts: &[(Composition, Frac)],
) -> Result<u128, SpreadStop>
    ensures { IsTotal result (total_from classes.now 0 1 parts.now) }
{
    let mut total = 1;
    for (place, (composition, fraction)) in parts.iter().enumerate() {
        let sizes = partly_taken(alloc, classes.classes(), composition.counts())?;
        let den = fraction.den();
        match next_total(total, den.unsigned_abs(), &sizes) {
            Some(next) => total = next,
            None => {
                return Err(SpreadStop::TotalPasses {
                    place,
                    total: total as i128,
                    den,
                });
            }
        }
    }
    Ok(total)
}

// Returns the least common multiple of `total` and `den` times the length of the dial for `sizes`. `None` if it is above 10^38.
fn next_total(total: u128, den: u128, sizes: &[usize]) -> Option<u128>
    requires total { (0 < total) × (total ≤ greatest_total) }
    requires den { 0 < den }
    requires sizes { All (λ size. 0 < size) sizes.now }
    ensures { let next = lcm_of total (den * fold lcm_of 1 sizes.now) in SomeIff result (next ≤ greatest_total) next }
{
    let places = places(sizes)?;
    if den > GREATEST_TOTAL / places {
        return None;
    }
    common_multiple(total, den * places)
}

// Returns the rows of all compositions, one composition after the other.
fn all_rows(
    alloc: Global,
    classes: &Classes,
    parts: &[(Composition, Frac)],
    total: u128,
) -> Result<Vec<LotteryRow>, AllocError>
    requires { All (IsTotalOf classes.now total) parts.now }
    ensures { IfOk result (λ rows. rows.items ≡ flat_map (rows_of classes.now total) parts.now) }
{
    let mut rows = Vec::new(alloc);
    for (composition, fraction) in parts {
        push_rows(
            &mut rows,
            alloc,
            classes,
            composition.counts(),
            *fraction,
            total,
        )?;
    }
    Ok(rows)
}

// Adds the rows of a composition: a panel for each arc of its dial. An arc's weight is the composition's weight, times the arc's length,
// over the dial's length.
fn push_rows(
    rows: &mut Vec<LotteryRow>,
    alloc: Global,
    classes: &Classes,
    counts: &[usize],
    fraction: Frac,
    total: u128,
) -> Result<(), AllocError>
    requires { IsTotalOf classes.now total (counts.now, fraction) }
    ensures { OnOk result (rows.new.items ≡ rows.old.items ++ rows_of classes.now total (counts.now, fraction)) }
{
    let sizes = partly_taken(alloc, classes.classes(), counts)?;
    let Some(places) = places(&sizes) else {
        unreachable!();
    };
    let weight = place_weight(fraction, total, places);
    let cuts = cuts(alloc, &sizes, places)?;
    push_arcs(rows, alloc, classes, counts, &cuts, places, weight)
}

// Returns the weight of one place of a dial of `places` places: the fraction of the total, divided by `places`.
fn place_weight(fraction: Frac, total: u128, places: u128) -> u128
    requires total { (0 < total) × (total ≤ greatest_total) }
    requires places { 0 < places }
    requires multiple { fraction.den * places ∣ total }
    requires holds_part { fraction.num * (total / fraction.den) ≤ total }
    ensures value { result ≡ fraction.num * (total / (fraction.den * places)) }
    ensures within { places * result ≤ total }
{
    let (num, den) = (fraction.num().unsigned_abs(), fraction.den().unsigned_abs());
    num * (total / (den * places))
}

// Adds a row for each arc: its panel, and its length times the weight of one place.
fn push_arcs(
    rows: &mut Vec<LotteryRow>,
    alloc: Global,
    classes: &Classes,
    counts: &[usize],
    cuts: &[u128],
    places: u128,
    place_weight: u128,
) -> Result<(), AllocError>
    requires cuts { cuts.now ≡ cuts_of classes.now counts.now }
    requires places { places ≡ dial classes.now counts.now }
    requires weight { places * place_weight ≤ greatest_total }
    ensures { OnOk result (rows.new.items ≡ rows.old.items ++ map (arc_row classes.now counts.now place_weight) (arcs classes.now counts.now)) }
{
    for (number, at) in cuts.iter().enumerate() {
        let panel = panel_at(alloc, classes, counts, places, *at)?;
        let weight = (next_cut(cuts, number, places) - *at) * place_weight;
        rows.push(LotteryRow::new(panel, weight as i128))?;
    }
    Ok(())
}

// Returns the cut after cut `number`, or `end` if it is the last one.
fn next_cut(cuts: &[u128], number: usize, end: u128) -> u128
    requires { number < length cuts.now }
    ensures { result ≡ slice_index_or cuts.now (number + 1) end }
{
    match cuts.get(number + 1) {
        Some(next) => *next,
        None => end,
    }
}
