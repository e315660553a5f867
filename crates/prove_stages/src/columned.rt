//! Stages over compositions, by column generation: if the known compositions don't give a level, the multipliers of their table are the
//! weights for the search for a further composition. `prove_run` calls `column_stages_from` if it finds no lottery with the relaxation's
//! chances. Promise: nothing of the budget is given back.

ghost use Rattle.std.specs.Prelude.{◌≡◌, ◌<◌, IfOk, OnOk, length};
ghost use Rattle.prove_table.specs.Sizes.{Spends};
ghost use Rattle.prove_stages.specs.Shapes.{IsFinder, IsCompositionMix};
ghost use Rattle.prove_limits.specs.Budgets.{SpendsOn};

use crate::chances::Chances;
use crate::class_stages::{ClassStage, everybody_left, settle};
use crate::finders::Finder;
use crate::fractions::Chance;
use crate::levels::{WeightSums, weight_sums};
use crate::mixes::{CompositionMix, weight_of};
use crate::quick::quick_stages;
use prove_branching::ceiling;
use prove_limits::{Budget, Narrow, ProveStop, narrow_add, wide_add, wide_mul};
use prove_program::Program;
use prove_table::divide_by_common;
use std::alloc::Global;

/// What was found over the compositions of a pool.
#[derive(Debug, Drop)]
pub enum Columned {
    /// There is no composition, so there is no quota panel.
    Empty,
    /// The stages, and each column's chance.
    Settled(Vec<ClassStage>, Chances),
}

/// Finds the stages of a pool over its compositions, by `quick` from the known ones on, and in doubt by `column_stages`. A known
/// composition has a count for each column. If `quick` ends without an error, `known` has the compositions that it used, else perhaps some
/// new ones. The contract leaves the stages open, since each proof is verified before it is printed.
pub fn column_stages_from(
    alloc: Global,
    program: &Program,
    known: &mut Vec<Vec<i64>>,
    budget: &mut Budget,
) -> Result<Columned, ProveStop>
    ensures { SpendsOn budget.old budget.new }
{
    match quick_stages(alloc, program, known, budget) {
        Ok(Some(found)) => Ok(found),
        Ok(None) | Err(ProveStop::Wide(_) | ProveStop::BeyondWidth | ProveStop::Lost) => {
            column_stages(alloc, program, budget)
        }
        Err(stop) => Err(stop),
    }
}

/// Finds the stages of a pool over its compositions, by the exact table alone. The contract leaves the stages open, since each proof is
/// verified before it is printed.
pub fn column_stages(
    alloc: Global,
    program: &Program,
    budget: &mut Budget,
) -> Result<Columned, ProveStop>
    ensures { SpendsOn budget.old budget.new }
{
    let mut finder = Finder::new(alloc, program)?;
    match finder.any(budget)? {
        Some(first) => stages_from(alloc, program, first, &mut finder, budget),
        None => Ok(Columned::Empty),
    }
}

/// Finds the stages of a pool from a first composition on.
fn stages_from(
    alloc: Global,
    program: &Program,
    first: Vec<Narrow>,
    finder: &mut Finder<'_>,
    budget: &mut Budget,
) -> Result<Columned, ProveStop>
    requires first { length first.items ≡ length program.now.firsts }
    requires finder { IsFinder (length program.now.firsts) finder.old }
    ensures { SpendsOn budget.old budget.new }
{
    let mut mix = CompositionMix::new(alloc, program.columns())?;
    mix.join(first)?;
    all_stages(alloc, program, &mut mix, finder, budget)
}

/// Finds the stages of a pool, one after the other, by the mix and the searches.
fn all_stages(
    alloc: Global,
    program: &Program,
    mix: &mut CompositionMix,
    finder: &mut Finder<'_>,
    budget: &mut Budget,
) -> Result<Columned, ProveStop>
    requires mix { IsCompositionMix (length program.now.firsts) mix.old }
    requires finder { IsFinder (length program.now.firsts) finder.old }
    ensures { SpendsOn budget.old budget.new }
{
    let mut chances = Chances::unsettled(alloc, program.columns())?;
    let mut stages = Vec::new(alloc);
    // each stage settles some column
    for _ in 0..=program.columns() {
        if chances.are_settled() {
            return Ok(Columned::Settled(stages, chances));
        }
        stages.push(closed_stage(alloc, program, &mut chances, mix, finder, budget)?)?;
    }
    Err(ProveStop::Lost)
}

/// Finds the next stage, and closes it: settles its columns, and keeps the mix and the searches at its cap.
fn closed_stage(
    alloc: Global,
    program: &Program,
    chances: &mut Chances,
    mix: &mut CompositionMix,
    finder: &mut Finder<'_>,
    budget: &mut Budget,
) -> Result<ClassStage, ProveStop>
    requires mix { IsCompositionMix (length program.now.firsts) mix.old }
    requires finder { IsFinder (length program.now.firsts) finder.old }
    ensures mix { OnOk result (IsCompositionMix (length program.now.firsts) mix.new) }
    ensures finder { OnOk result (IsFinder (length program.now.firsts) finder.new) }
    ensures spends { SpendsOn budget.old budget.new }
{
    let (stage, chance) = stage(alloc, program, chances, mix, finder, budget)?;
    settle(chances, &stage.weights, chance)?;
    mix.close(&stage.weights, stage.cap)?;
    finder.close(&stage.weights, stage.cap)?;
    Ok(stage)
}

/// Finds the next stage, and the chance of the columns that it settles: the level falls, or compositions join, until the known
/// compositions give the level to every unsettled column.
fn stage(
    alloc: Global,
    program: &Program,
    chances: &Chances,
    mix: &mut CompositionMix,
    finder: &mut Finder<'_>,
    budget: &mut Budget,
) -> Result<(ClassStage, Chance), ProveStop>
    requires mix { IsCompositionMix (length program.now.firsts) mix.old }
    requires finder { IsFinder (length program.now.firsts) finder.old }
    ensures mix { OnOk result (IsCompositionMix (length program.now.firsts) mix.new) }
    ensures finder { OnOk result (IsFinder (length program.now.firsts) finder.new) }
    ensures spends { SpendsOn budget.old budget.new }
    ensures weights { IfOk result (λ found. length found.0.weights.items ≡ length program.now.firsts) }
{
    let mut level = Chance::ONE;
    let mut last = None;
    'levels: while !gives(alloc, program, chances, mix, level, budget)? {
        let weights = weights_of(alloc, program, chances, &mix.multipliers()?)?;
        let own = weight_sums(program, chances, &weights)?;
        let need = need(own, level, chances.common())?;
        if has_joined(mix, finder, &weights, need, budget)? {
            continue;
        }
        let cap = raised_cap(mix, finder, &weights, budget)?;
        level = own.level_below(cap, chances.common(), level)?;
        last = Some((weights, cap));
    }
    let (weights, cap) = match last {
        Some(found) => found,
        None => everybody_left(alloc, program, chances)?,
    };
    let stage = ClassStage {
        weights,
        cap,
        shown_by: None,
    };
    Ok((stage, level))
}

/// True if the known compositions give every unsettled column a chance of at least `level`.
fn gives(
    alloc: Global,
    program: &Program,
    chances: &Chances,
    mix: &mut CompositionMix,
    level: Chance,
    budget: &mut Budget,
) -> Result<bool, ProveStop>
    requires { IsCompositionMix (length program.now.firsts) mix.old }
    ensures mix { OnOk result (IsCompositionMix (length program.now.firsts) mix.new) }
    ensures spends { Spends budget.old budget.new }
{
    let total = chances.common_with(level)?;
    let spans = chances.column_spans(alloc, program, level, total, true)?;
    mix.has_point(&spans, total, budget)
}

/// Searches for a composition that weighs at least `need`. True if one was found; then it joins the mix.
fn has_joined(
    mix: &mut CompositionMix,
    finder: &mut Finder<'_>,
    weights: &[Narrow],
    need: Narrow,
    budget: &mut Budget,
) -> Result<bool, ProveStop>
    requires mix { IsCompositionMix (length weights.now) mix.old }
    requires finder { IsFinder (length weights.now) finder.old }
    ensures mix { OnOk result (IsCompositionMix (length weights.now) mix.new) }
    ensures finder { OnOk result (IsFinder (length weights.now) finder.new) }
    ensures spends { SpendsOn budget.old budget.new }
    ensures nodes { OnOk result (budget.new.nodes < budget.old.nodes) }
{
    let Some(counts) = finder.beating(weights, need, budget)? else {
        return Ok(false);
    };
    if mix.knows(&counts) {
        return Err(ProveStop::Lost);
    }
    mix.join(counts)?;
    Ok(true)
}

/// Returns the greatest weight of any composition that attains the closed caps. Each heavier composition that is found joins the mix.
fn raised_cap(
    mix: &mut CompositionMix,
    finder: &mut Finder<'_>,
    weights: &[Narrow],
    budget: &mut Budget,
) -> Result<Narrow, ProveStop>
    requires mix { IsCompositionMix (length weights.now) mix.old }
    requires finder { IsFinder (length weights.now) finder.old }
    ensures mix { OnOk result (IsCompositionMix (length weights.now) mix.new) }
    ensures finder { OnOk result (IsFinder (length weights.now) finder.new) }
    ensures spends { SpendsOn budget.old budget.new }
    ensures nodes { OnOk result (budget.new.nodes < budget.old.nodes) }
{
    let mut cap = mix.most(weights)?;
    loop {
        let need = narrow_add(cap.wide(), 1)?;
        let Some(counts) = finder.beating(weights, need, budget)? else {
            return Ok(cap);
        };
        cap = weight_of(weights, &counts)?;
        if !mix.knows(&counts) {
            mix.join(counts)?;
        }
    }
}

/// Returns a weight for each column: minus the multiplier of the column's row. The weights are in lowest terms. An unsettled column weighs
/// 0 if it is seated or its weight would be below 0.
fn weights_of(
    alloc: Global,
    program: &Program,
    chances: &Chances,
    multipliers: &[Narrow],
) -> Result<Vec<Narrow>, ProveStop>
    ensures { IfOk result (λ weights. length weights.items ≡ length program.now.firsts) }
{
    let mut weights = Vec::new(alloc);
    for column in 0..program.columns() {
        let own = multipliers.get(column).copied().unwrap_or(Narrow::ZERO);
        let is_kept = program.spans()[column].least().is_zero() && own.get() < 0;
        let is_weighed = chances.chance(column).is_some() || is_kept;
        weights.push(if is_weighed { -own } else { Narrow::ZERO })?;
    }
    divide_by_common(&mut weights);
    Ok(weights)
}

/// Returns the least whole weight that is at least the average weight of a panel if all unsettled columns have the chance `level`.
fn need(own: WeightSums, level: Chance, common: Narrow) -> Result<Narrow, ProveStop> {
    let settled = wide_mul(own.settled, level.den().wide())?;
    let unsettled = wide_mul(
        wide_mul(level.num().wide(), own.unsettled.wide())?,
        common.wide(),
    )?;
    let sum = wide_add(settled, unsettled)?;
    let divisor = wide_mul(common.wide(), level.den().wide())?;
    if divisor < 1 {
        return Err(ProveStop::Lost);
    }
    ceiling(sum, divisor)
}
