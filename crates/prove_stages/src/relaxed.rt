//! Stages by the relaxation of the quotas: points take the place of panels, so that quotas are met on average. Promise: nothing of the
//! budget is given back.

ghost use Rattle.std.specs.Prelude.{◌≡◌, ◌<◌, ◌^◌, length, IfOk, IfSome};
ghost use Rattle.prove_table.specs.Sizes.{SameSizes, Spends};
ghost use Rattle.prove_limits.specs.Budgets.{SpendsOn};

use crate::chances::Chances;
use crate::class_stages::{ClassStage, everybody_left, one_if, settle};
use crate::fractions::Chance;
use crate::levels::weight_sums;
use crate::refuted::{Shown, shown_by};
use crate::tables::{row_spans, table_of};
use prove_branching::in_lowest_terms;
use prove_limits::{Budget, Narrow, ProveStop};
use prove_program::Program;
use prove_table::Table;
use std::alloc::Global;

/// What the relaxation found for a pool.
#[derive(Debug, Drop)]
pub enum Relaxed {
    /// No point meets the quotas, so there is no quota panel.
    Empty,
    /// The stages, each column's chance, and whether each cap is a multiple of its weights' common divisor, so that panels may attain it.
    Settled(Vec<ClassStage>, Chances, bool),
}

/// Finds the stages of a pool by the relaxation of its quotas. The contract leaves the stages open, since each proof is verified before it
/// is printed.
pub fn relaxed_stages(
    alloc: Global,
    program: &Program,
    budget: &mut Budget,
) -> Result<Relaxed, ProveStop>
    ensures { SpendsOn budget.old budget.new }
{
    let mut table = table_of(alloc, program)?;
    table.aim(&[], 1)?;
    let rows = row_spans(alloc, program, Narrow::ONE)?;
    if !table.run(program.spans(), &rows, budget)? {
        return Ok(Relaxed::Empty);
    }
    settled(alloc, program, &mut table, budget)
}

/// Finds the stages of a table's program, which some point meets.
fn settled(
    alloc: Global,
    program: &Program,
    table: &mut Table,
    budget: &mut Budget,
) -> Result<Relaxed, ProveStop>
    requires rows { table.old.rows ≡ length program.now.rows }
    requires columns { table.old.columns ≡ length program.now.firsts }
    ensures { SpendsOn budget.old budget.new }
{
    let mut chances = Chances::unsettled(alloc, program.columns())?;
    let mut stages = Vec::new(alloc);
    let mut is_tight = true;
    // each stage settles some column
    for earlier in 0..=program.columns() {
        if chances.are_settled() {
            return Ok(Relaxed::Settled(stages, chances, is_tight));
        }
        let found = stage(alloc, program, &chances, table, earlier, budget)?;
        is_tight = is_tight && found.is_tight;
        settle(&mut chances, &found.stage.weights, found.chance)?;
        stages.push(found.stage)?;
    }
    Err(ProveStop::Lost)
}

/// A stage, the chance of the columns that it settles, and whether its cap is a multiple of its weights' common divisor.
#[derive(Drop)]
struct FoundStage {
    stage: ClassStage,
    chance: Chance,
    is_tight: bool,
}

/// Finds the stage after `earlier` earlier ones: the level falls until some point gives it to every unsettled column. But if no panel may
/// have a member of some unsettled columns, the stage settles these columns at 0.
fn stage(
    alloc: Global,
    program: &Program,
    chances: &Chances,
    table: &mut Table,
    earlier: usize,
    budget: &mut Budget,
) -> Result<FoundStage, ProveStop>
    requires rows { table.old.rows ≡ length program.now.rows }
    requires columns { table.old.columns ≡ length program.now.firsts }
    requires few { earlier < 2 ^ 63 }
    ensures sizes { SameSizes table.old table.new }
    ensures spends { SpendsOn budget.old budget.new }
    ensures one_each { IfOk result (λ found. length found.stage.weights.items ≡ length program.now.firsts) }
{
    if let Some(weights) = gone_weights(alloc, program, chances)? {
        let shown = Shown::of_weights(weights, Narrow::ZERO);
        return found_by(alloc, program, shown, Chance::ZERO, &[], earlier);
    }
    falling_stage(alloc, program, chances, table, earlier, budget)
}

/// Finds the stage after `earlier` earlier ones, of a level that falls until some point gives it to every unsettled column.
fn falling_stage(
    alloc: Global,
    program: &Program,
    chances: &Chances,
    table: &mut Table,
    earlier: usize,
    budget: &mut Budget,
) -> Result<FoundStage, ProveStop>
    requires rows { table.old.rows ≡ length program.now.rows }
    requires columns { table.old.columns ≡ length program.now.firsts }
    requires few { earlier < 2 ^ 63 }
    ensures sizes { SameSizes table.old table.new }
    ensures spends { SpendsOn budget.old budget.new }
    ensures one_each { IfOk result (λ found. length found.stage.weights.items ≡ length program.now.firsts) }
{
    let mut level = Chance::ONE;
    let mut last = None;
    'levels: while !has_point(alloc, program, chances, table, level, budget)? {
        budget.take_node()?;
        let multipliers = table.refutation(alloc)?;
        let shown = shown_by(alloc, program, chances, &multipliers)?;
        let sums = weight_sums(program, chances, &shown.weights)?;
        level = sums.level_below(shown.cap, chances.common(), level)?;
        last = Some((shown, multipliers));
    }
    match last {
        Some((shown, multipliers)) => found_by(alloc, program, shown, level, &multipliers, earlier),
        None => stage_of_all(alloc, program, chances, earlier),
    }
}

/// Returns the stage after `earlier` earlier ones in which all unsettled columns get the chance 1.
fn stage_of_all(
    alloc: Global,
    program: &Program,
    chances: &Chances,
    earlier: usize,
) -> Result<FoundStage, ProveStop>
    requires { earlier < 2 ^ 63 }
    ensures { IfOk result (λ found. length found.stage.weights.items ≡ length program.now.firsts) }
{
    let (weights, cap) = everybody_left(alloc, program, chances)?;
    let shown = Shown::of_weights(weights, cap);
    found_by(alloc, program, shown, Chance::ONE, &[], earlier)
}

/// True if some point meets the quotas and gives settled columns their chances and all others at least `level`.
fn has_point(
    alloc: Global,
    program: &Program,
    chances: &Chances,
    table: &mut Table,
    level: Chance,
    budget: &mut Budget,
) -> Result<bool, ProveStop>
    requires rows { table.old.rows ≡ length program.now.rows }
    requires columns { table.old.columns ≡ length program.now.firsts }
    ensures sizes { SameSizes table.old table.new }
    ensures spends { Spends budget.old budget.new }
{
    let multiple = chances.common_with(level)?;
    let columns = chances.column_spans(alloc, program, level, multiple, false)?;
    let rows = row_spans(alloc, program, multiple)?;
    table.run(&columns, &rows, budget)
}

/// Returns weights: 1 for each unsettled column of which no panel may have a member, and 0 for the others. Returns None if there is no such
/// column.
fn gone_weights(
    alloc: Global,
    program: &Program,
    chances: &Chances,
) -> Result<Option<Vec<Narrow>>, ProveStop>
    ensures { IfOk result (λ found. IfSome found (λ weights. length weights.items ≡ length program.now.firsts)) }
{
    let mut weights = Vec::new(alloc);
    let mut is_some = false;
    for column in 0..program.columns() {
        let is_gone = program.spans()[column].greatest().is_zero();
        let is_settling = is_gone && chances.chance(column).is_none();
        is_some = is_some || is_settling;
        weights.push(one_if(is_settling))?;
    }
    Ok(is_some.then_some(weights))
}

/// Returns the stage after `earlier` earlier ones, with a refutation made of `multipliers` of the rows.
fn found_by(
    alloc: Global,
    program: &Program,
    shown: Shown,
    chance: Chance,
    multipliers: &[Narrow],
    earlier: usize,
) -> Result<FoundStage, ProveStop>
    requires { earlier < 2 ^ 63 }
    ensures { IfOk result (λ found. length found.stage.weights.items ≡ length shown.weights.items) }
{
    let mut pairs = Vec::new(alloc);
    let rows = program.rows();
    for row in 0..rows.len().min(multipliers.len()) {
        let multiplier = multipliers[row];
        if !multiplier.is_zero() {
            pairs.push((program.number_after(&rows[row], earlier), multiplier))?;
        }
    }
    let refutation = in_lowest_terms(alloc, shown.scale, &pairs)?;
    Ok(FoundStage {
        stage: ClassStage {
            weights: shown.weights,
            cap: shown.cap,
            shown_by: Some(refutation),
        },
        chance,
        is_tight: shown.is_tight,
    })
}
