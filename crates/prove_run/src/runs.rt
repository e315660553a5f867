//! The whole run: stages, a lottery of their point, and trees. The three public calls are the crate's promises; the other functions are
//! helpers.

ghost use Rattle.std.specs.Prelude.{IfOk};
ghost use Rattle.prove_limits.specs.Budgets.{SpendsOn};
ghost use Rattle.prove_run.specs.Made.{IsMadeOf, IsOfBundleIfAny, IsOfPoolIfAny};

use crate::answers::answer_of;
use crate::caps::{CapSearch, split_tree_of_none, tree_of_none};
use crate::programs::Programs;
use crate::trees::{TreesBy, searched_trees, stage_trees, tree_of_steps};
use bundle_text::Bundle;
use pool_model::Pool;
use proof_text::{Proof, TreeLines};
use prove_limits::{Budget, ProveStop};
use prove_peeling::{PanelRows, Peeled, WeightedPanel, lottery_of_point, mix_of};
use prove_program::Program;
use prove_stages::{Chances, ClassStage, Columned, Relaxed, column_stages_from, relaxed_stages};
use std::alloc::{AllocError, Global};

/// What a run makes of a pool.
#[derive(Debug, Drop)]
pub enum RunMade {
    /// A proof, which need not be valid.
    Proof(Proof),
    /// A lottery with its stages, whose trees weren't found. Nothing says that it is leximin greatest.
    Lottery(Bundle),
    /// Nothing.
    Nothing,
}

/// Makes a proof of a lottery over a pool's quota panels, or that there is no quota panel, within a budget. `check_proofs` decides whether
/// the proof is valid. Makes a lottery alone if its trees aren't found, and nothing if the budget is spent before, or if the run can't go on.
///
/// # Errors
///
/// Want of memory.
pub fn make_proof(alloc: Global, pool: &Pool, budget: &mut Budget) -> Result<RunMade, AllocError>
    ensures about { IfOk result (IsMadeOf pool.now) }
    ensures spends { SpendsOn budget.old budget.new }
{
    match made(alloc, pool, budget) {
        Ok(made) => Ok(made),
        Err(ProveStop::OutOfMemory) => Err(AllocError),
        Err(_) => Ok(RunMade::Nothing),
    }
}

/// Makes a proof of a bundle's lottery and stages, with the trees that a search finds at the nodes of `trees`. Returns None if it finds
/// none: a quota panel is above the cap of a stage, no node is left, or the search can't go on.
///
/// # Errors
///
/// Want of memory.
pub fn prove_bundle(
    alloc: Global,
    bundle: &Bundle,
    by: TreesBy,
    trees: &mut Budget,
) -> Result<Option<Proof>, AllocError>
    ensures about { IfOk result (IsOfBundleIfAny bundle.now) }
    ensures spends { SpendsOn trees.old trees.new }
{
    match searched(alloc, bundle, by, trees) {
        Ok(found) => Ok(found),
        Err(ProveStop::OutOfMemory) => Err(AllocError),
        Err(_) => Ok(None),
    }
}

/// Makes a proof that a pool has no quota panel, by a search at the nodes of `trees`. Returns None if it finds none.
///
/// # Errors
///
/// Want of memory.
pub fn prove_none(
    alloc: Global,
    pool: &Pool,
    trees: &mut Budget,
) -> Result<Option<Proof>, AllocError>
    ensures about { IfOk result (IsOfPoolIfAny pool.now) }
    ensures spends { SpendsOn trees.old trees.new }
{
    match searched_none(alloc, pool, trees) {
        Ok(found) => Ok(found),
        Err(ProveStop::OutOfMemory) => Err(AllocError),
        Err(_) => Ok(None),
    }
}

/// Makes a proof of a pool: first by the relaxation; if no panel can attain some cap of it, or no lottery of its point is found, by
/// compositions.
fn made(alloc: Global, pool: &Pool, budget: &mut Budget) -> Result<RunMade, ProveStop>
    ensures about { IfOk result (IsMadeOf pool.now) }
    ensures spends { SpendsOn budget.old budget.new }
{
    let programs = Programs {
        by_class: Program::by_class(alloc, pool)?,
        by_volunteer: Program::by_volunteer(alloc, pool)?,
    };
    match relaxed_stages(alloc, &programs.by_class, budget)? {
        Relaxed::Empty => of_no_panel(alloc, pool, &programs, budget),
        Relaxed::Settled(stages, chances, is_tight) => {
            let mut known = Vec::new(alloc);
            if is_tight {
                let rows = PanelRows::new(alloc, &programs.by_volunteer, &programs.by_class, &[])?;
                let found = lottery_of_chances(
                    alloc, pool, &programs, &rows, &chances, &mut known, budget,
                )?;
                if let Peeled::Found(panels) = found {
                    return of_lottery(alloc, pool, &programs, stages, &panels, budget);
                }
            }
            by_compositions(alloc, pool, &programs, &mut known, budget)
        }
    }
}

/// Makes a proof of a pool by compositions.
fn by_compositions(
    alloc: Global,
    pool: &Pool,
    programs: &Programs,
    known: &mut Vec<Vec<i64>>,
    budget: &mut Budget,
) -> Result<RunMade, ProveStop>
    ensures about { IfOk result (IsMadeOf pool.now) }
    ensures spends { SpendsOn budget.old budget.new }
{
    match column_stages_from(alloc, &programs.by_class, known, budget)? {
        Columned::Empty => of_no_panel(alloc, pool, programs, budget),
        Columned::Settled(stages, chances) => {
            let rows = PanelRows::new(alloc, &programs.by_volunteer, &programs.by_class, &stages)?;
            let classes = &programs.by_class;
            let mixed = mix_of(alloc, &rows, classes, &chances, known, budget)?;
            if let Peeled::Found(panels) = mixed {
                return of_lottery(alloc, pool, programs, stages, &panels, budget);
            }
            match lottery_of_chances(alloc, pool, programs, &rows, &chances, known, budget)? {
                Peeled::Found(panels) => {
                    of_lottery(alloc, pool, programs, stages, &panels, budget)
                }
                _ => Ok(RunMade::Nothing),
            }
        }
    }
}

/// Makes a lottery over panels that satisfy the rows, in which each volunteer has the chance of their column. If it finds none, adds the
/// compositions of the panels that it saw to `known`.
fn lottery_of_chances(
    alloc: Global,
    pool: &Pool,
    programs: &Programs,
    rows: &PanelRows,
    chances: &Chances,
    known: &mut Vec<Vec<i64>>,
    budget: &mut Budget,
) -> Result<Peeled, ProveStop>
    ensures { SpendsOn budget.old budget.new }
{
    let (single, classes) = (&programs.by_volunteer, &programs.by_class);
    lottery_of_point(
        alloc,
        single,
        rows,
        classes,
        chances,
        pool.size(),
        known,
        budget,
    )
}

/// Makes the proof of a lottery with its stages.
fn of_lottery(
    alloc: Global,
    pool: &Pool,
    programs: &Programs,
    stages: Vec<ClassStage>,
    panels: &[WeightedPanel],
    budget: &mut Budget,
) -> Result<RunMade, ProveStop>
    ensures about { IfOk result (IsMadeOf pool.now) }
    ensures spends { SpendsOn budget.old budget.new }
{
    let answer = answer_of(alloc, &programs.by_class, &stages, panels)?;
    let bundle = Bundle::new(pool.copy()?, answer).ok_or(ProveStop::Lost)?;
    match stage_trees(alloc, programs, quotas_of(pool), stages, budget) {
        Ok(trees) => made_of(bundle, trees),
        Err(ProveStop::OutOfMemory) => Err(ProveStop::OutOfMemory),
        Err(_) => Ok(RunMade::Lottery(bundle)),
    }
}

/// Returns the proof of a bundle by these trees.
fn made_of(bundle: Bundle, trees: Vec<TreeLines>) -> Result<RunMade, ProveStop>
    ensures { IfOk result (IsMadeOf bundle.pool) }
{
    let proof = Proof::of_lottery(bundle, trees).ok_or(ProveStop::Lost)?;
    Ok(RunMade::Proof(proof))
}

/// Makes the proof that there is no quota panel.
fn of_no_panel(
    alloc: Global,
    pool: &Pool,
    programs: &Programs,
    budget: &mut Budget,
) -> Result<RunMade, ProveStop>
    ensures about { IfOk result (IsMadeOf pool.now) }
    ensures spends { SpendsOn budget.old budget.new }
{
    let steps = tree_of_none(alloc, &programs.by_volunteer, budget)?;
    let lines = tree_of_steps(alloc, steps)?;
    let proof = Proof::of_no_panel(pool.copy()?, lines).ok_or(ProveStop::Lost)?;
    Ok(RunMade::Proof(proof))
}

/// Searches for a proof that there is no quota panel.
fn searched_none(alloc: Global, pool: &Pool, trees: &mut Budget) -> Result<Option<Proof>, ProveStop>
    ensures about { IfOk result (IsOfPoolIfAny pool.now) }
    ensures spends { SpendsOn trees.old trees.new }
{
    let program = Program::by_volunteer(alloc, pool)?;
    match split_tree_of_none(alloc, &program, trees)? {
        Some(steps) => {
            let lines = tree_of_steps(alloc, steps)?;
            Ok(Proof::of_no_panel(pool.copy()?, lines))
        }
        None => Ok(None),
    }
}

/// Searches for a proof of a bundle.
fn searched(
    alloc: Global,
    bundle: &Bundle,
    by: TreesBy,
    trees: &mut Budget,
) -> Result<Option<Proof>, ProveStop>
    ensures about { IfOk result (IsOfBundleIfAny bundle.now) }
    ensures spends { SpendsOn trees.old trees.new }
{
    let program = Program::by_volunteer(alloc, bundle.pool())?;
    let search = CapSearch::new(alloc, &program, quotas_of(bundle.pool()))?;
    let stages = bundle.answer().certificate().stages();
    match searched_trees(alloc, search, stages, by, trees)? {
        Some(found) => Ok(Proof::of_lottery(bundle.copy()?, found)),
        None => Ok(None),
    }
}

/// Returns how many constraints come before those of stages: one for the size, and one for each value.
fn quotas_of(pool: &Pool) -> usize {
    let mut quotas: usize = 1;
    for category in pool.categories() {
        quotas = quotas.saturating_add(category.values().len());
    }
    quotas
}
