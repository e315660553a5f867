//! The answer of a run: a lottery with its stages. Equal panels are merged, and the weights are divided by their greatest common divisor.
//! `runs` uses this.

use frac128::gcd;
use pool_model::{Answer, Certificate, Lottery, LotteryRow, Panel, Stage};
use prove_limits::{ProveStop, wide_add};
use prove_peeling::{WeightedPanel, weights_of};
use prove_program::Program;
use prove_stages::ClassStage;
use std::alloc::Global;

/// Returns the lottery of `panels`, with its stages.
pub(crate) fn answer_of(
    alloc: Global,
    classes: &Program,
    stages: &[ClassStage],
    panels: &[WeightedPanel],
) -> Result<Answer, ProveStop> {
    let mut own = Vec::new(alloc);
    for stage in stages {
        own.push(stage_of(alloc, classes, stage)?)?;
    }
    let lottery = lottery_of(alloc, panels)?;
    Ok(Answer::new(lottery, Certificate::new(own)))
}

/// Returns a stage in which each volunteer has the weight of their column.
fn stage_of(alloc: Global, classes: &Program, stage: &ClassStage) -> Result<Stage, ProveStop> {
    let mut weights = Vec::new(alloc);
    for weight in &weights_of(alloc, classes, &stage.weights)? {
        weights.push(weight.wide())?;
    }
    Ok(Stage::new(weights, stage.cap.wide()))
}

/// Returns the lottery of `panels`: equal panels are merged, and the weights have no common divisor above 1.
fn lottery_of(alloc: Global, panels: &[WeightedPanel]) -> Result<Lottery, ProveStop> {
    let merged = merged(alloc, panels)?;
    let mut divisor = 0;
    for own in &merged {
        divisor = gcd(divisor, own.weight.max(0));
    }
    let mut total = 0;
    let mut rows = Vec::new(alloc);
    for own in merged {
        let weight = own.weight.checked_div(divisor).ok_or(ProveStop::Lost)?;
        if weight < 0 {
            return Err(ProveStop::Lost);
        }
        total = wide_add(total, weight)?;
        let panel = Panel::new(own.members).ok_or(ProveStop::Lost)?;
        rows.push(LotteryRow::new(panel, weight))?;
    }
    if total < 0 {
        return Err(ProveStop::Lost);
    }
    Ok(Lottery::new(total, rows))
}

/// Returns the panels with equal ones merged: each panel once, with the sum of its weights.
fn merged(alloc: Global, panels: &[WeightedPanel]) -> Result<Vec<WeightedPanel>, ProveStop> {
    let mut merged: Vec<WeightedPanel> = Vec::new(alloc);
    for own in panels {
        match merged.iter_mut().find(|known| known.members == own.members) {
            Some(known) => known.weight = wide_add(known.weight, own.weight)?,
            None => merged.push(WeightedPanel {
                weight: own.weight,
                members: own.members.clone()?,
            })?,
        }
    }
    Ok(merged)
}
