//! The trees of a proof, whose lines are made of the steps of a search or of a refutation.

ghost use Rattle.std.specs.Prelude.{OnOk};
ghost use Rattle.prove_limits.specs.Budgets.{SpendsOn};
ghost use Rattle.prove_run.specs.Shapes.{IsCapSearch};

use crate::caps::CapSearch;
use crate::programs::Programs;
use pool_model::Stage;
use proof_text::{Leaf, Multiplier, TreeLine, TreeLines};
use prove_branching::{Refutation, Step};
use prove_limits::{Budget, Narrow, ProveStop, narrow_add};
use prove_peeling::weights_of;
use prove_program::Program;
use prove_stages::ClassStage;
use std::alloc::{AllocError, Global};

/// Returns a tree for each stage: one leaf if the stage has a refutation that shows its cap, else the tree of a search for a panel above
/// the cap.
pub(crate) fn stage_trees(
    alloc: Global,
    programs: &Programs,
    quotas: usize,
    stages: Vec<ClassStage>,
    budget: &mut Budget,
) -> Result<Vec<TreeLines>, ProveStop>
    ensures { SpendsOn budget.old budget.new }
{
    let mut search = CapSearch::new(alloc, &programs.by_volunteer, quotas)?;
    trees_by(alloc, &programs.by_class, &mut search, stages, budget)
}

/// Returns a tree for each stage, by `search` where the stage has no refutation.
fn trees_by(
    alloc: Global,
    classes: &Program,
    search: &mut CapSearch<'_>,
    stages: Vec<ClassStage>,
    budget: &mut Budget,
) -> Result<Vec<TreeLines>, ProveStop>
    requires { IsCapSearch search.old }
    ensures { SpendsOn budget.old budget.new }
{
    let mut trees = Vec::new(alloc);
    for stage in stages {
        trees.push(stage_tree(alloc, classes, search, stage, budget)?)?;
    }
    Ok(trees)
}

/// Returns the tree of the next stage.
fn stage_tree(
    alloc: Global,
    classes: &Program,
    search: &mut CapSearch<'_>,
    stage: ClassStage,
    budget: &mut Budget,
) -> Result<TreeLines, ProveStop>
    requires { IsCapSearch search.old }
    ensures search { OnOk result (IsCapSearch search.new) }
    ensures spends { SpendsOn budget.old budget.new }
{
    let ClassStage {
        weights,
        cap,
        shown_by,
    } = stage;
    match shown_by {
        Some(refutation) => Ok(tree_of_refutation(alloc, refutation)?),
        None => {
            let weights = weights_of(alloc, classes, &weights)?;
            let steps = search.tree(&weights, cap, budget)?;
            Ok(tree_of_steps(alloc, steps.ok_or(ProveStop::Lost)?)?)
        }
    }
}

/// Returns a tree of one leaf, with the multipliers of a refutation.
fn tree_of_refutation(alloc: Global, refutation: Refutation) -> Result<TreeLines, AllocError> {
    let mut lines = TreeLines::new(Vec::new(alloc));
    lines.add_line(leaf_line(alloc, refutation)?)?;
    Ok(lines)
}

/// Returns the tree of a search's steps. Their rows are numbers of constraints, and their columns are volunteers.
pub(crate) fn tree_of_steps(alloc: Global, steps: Vec<Step>) -> Result<TreeLines, AllocError> {
    let mut lines = TreeLines::new(Vec::new(alloc));
    for step in steps {
        let line = match step {
            Step::Split(column) => TreeLine::split(column),
            Step::Refuted(refutation) => leaf_line(alloc, refutation)?,
        };
        lines.add_line(line)?;
    }
    Ok(lines)
}

/// Returns the line of a leaf with the multipliers of a refutation.
fn leaf_line(alloc: Global, refutation: Refutation) -> Result<TreeLine, AllocError> {
    let mut multipliers = Vec::new(alloc);
    for (number, factor) in refutation.multipliers {
        multipliers.push(Multiplier::new(number, factor))?;
    }
    Ok(TreeLine::leaf(Leaf::new(refutation.scale, multipliers)))
}

/// How the trees of a bundle are searched.
#[derive(Clone, Copy, Debug, PartialEq, Eq)]
pub enum TreesBy {
    /// By one table for all nodes of a stage, and by splits where it fails.
    Tables,
    /// By splits wherever the table of a node fails.
    Splits,
}

/// Returns a tree for each stage of a certificate, by a search for a panel above its cap. Returns None if some panel is above the cap of a
/// stage.
pub(crate) fn searched_trees(
    alloc: Global,
    mut search: CapSearch<'_>,
    stages: &[Stage],
    by: TreesBy,
    trees: &mut Budget,
) -> Result<Option<Vec<TreeLines>>, ProveStop>
    requires { IsCapSearch search }
    ensures { SpendsOn trees.old trees.new }
{
    trees_if_all(alloc, &mut search, stages, by, trees)
}

/// Returns a tree for each stage by a search, or None if some panel is above the cap of a stage.
fn trees_if_all(
    alloc: Global,
    search: &mut CapSearch<'_>,
    stages: &[Stage],
    by: TreesBy,
    trees: &mut Budget,
) -> Result<Option<Vec<TreeLines>>, ProveStop>
    requires { IsCapSearch search.old }
    ensures { SpendsOn trees.old trees.new }
{
    let mut found = Vec::new(alloc);
    for stage in stages {
        match searched_tree(alloc, search, stage, by, trees)? {
            Some(steps) => found.push(tree_of_steps(alloc, steps)?)?,
            None => return Ok(None),
        }
    }
    Ok(Some(found))
}

/// Returns the steps that show the cap of the next stage, or None if a panel is above it.
fn searched_tree(
    alloc: Global,
    search: &mut CapSearch<'_>,
    stage: &Stage,
    by: TreesBy,
    trees: &mut Budget,
) -> Result<Option<Vec<Step>>, ProveStop>
    requires { IsCapSearch search.old }
    ensures search { OnOk result (IsCapSearch search.new) }
    ensures spends { SpendsOn trees.old trees.new }
{
    let weights = narrow_weights(alloc, stage)?;
    let cap = narrow_add(stage.cap(), 0)?;
    match by {
        TreesBy::Tables => search.tree_or_splits(&weights, cap, trees),
        TreesBy::Splits => search.next_split_tree(&weights, cap, trees),
    }
}

/// Returns the weights of a stage. Stops if the absolute value of one is above 2^62.
fn narrow_weights(alloc: Global, stage: &Stage) -> Result<Vec<Narrow>, ProveStop> {
    let mut weights = Vec::new(alloc);
    for weight in stage.weights() {
        weights.push(narrow_add(*weight, 0)?)?;
    }
    Ok(weights)
}
