//! The command `why`: quotas of a pool that can't be met together, or a quota panel.

ghost use Rattle.std.specs.Prelude.{◌≡◌, ◌≢◌, IfOk};
ghost use Rattle.define_pools.specs.Pool.{Pool as SeenPool};
ghost use Rattle.command_meanings.specs.Panel.{PanelMeans, stated_visits};
ghost use Rattle.command_shell.specs.Answers.{IsRight, Saying, saying, status_of};
ghost use Rattle.command_quotas.specs.PoolsAndProofs.{pool_in, pool_of};
ghost use Rattle.command_meanings.specs.Why.{WhyMeans};
ghost use Rattle.proof_text.specs.Parts.{seen};
ghost use Rattle.quota_conflicts.specs.Answers.{IsExplanation};

use crate::about::PoolOrProof;
use crate::panels::panel_text;
use command_pools::{first_panel_within, visits_spent};
use command_shell::{Answer, Command, Meaning, Printed};
use panel_search::SearchStop;
use pool_model::Pool;
use proof_text::{Parts, TreeLine};
use prove_limits::{Budget, ProveStop};
use quota_conflicts::{Explanation, all_together, conflict_text, why};
use std::alloc::{AllocError, Global};

/// The most visits of the search that decides if the engine has no answer: those of `panel` without `--nodes`.
const STATED_VISITS: u64 = 50_000_000;

/// `why`: quotas of a pool that can't be met together, or a quota panel, by the engine under a budget, and else by the search of `panel`.
#[derive(Clone, Copy, Debug)]
pub struct Why {
    /// The most pivots of the engine, from 0 to 1,000,000,000.
    pub pivots: u64,
    /// The most nodes of the engine, from 0 to 1,000,000,000,000.
    pub nodes: u64,
}

/// Where `panel` with 50,000,000 visits has status 0 or 1, `why` has status 0.
pub fn why_answers_where_panel_does()
    ensures { (pool : SeenPool) (answer other : Saying) → IsRight (WhyMeans pool) answer → IsRight (PanelMeans stated_visits pool) other →
        status_of other ≢ 5 → status_of answer ≡ 0 }
{}

impl Meaning for Why {
    type About = PoolOrProof;

    ghost use Rattle.command_shell.specs.Answers.{IsRight};
    ghost use Rattle.command_quotas.specs.PoolsAndProofs.{pool_in};
    ghost use Rattle.command_meanings.specs.Why.{WhyMeans};

    ghost means = { λ command about. IsRight (WhyMeans (pool_in about)) };
}

impl Command for Why {
    fn answer(
        &self,
        alloc: Global,
        about: &PoolOrProof,
        _text: &[u8],
    ) -> Result<Answer, AllocError> {
        explained(alloc, Budget::new(self.pivots, self.nodes), about)
    }
}

/// Returns what `why` answers, if the engine may spend `budget`.
fn explained(alloc: Global, budget: Budget, about: &PoolOrProof) -> Result<Answer, AllocError>
    ensures { IfOk result (λ answer. IsRight (WhyMeans (pool_in about.now)) (saying answer)) }
{
    match about {
        PoolOrProof::Pool(pool) => explained_by(alloc, budget, pool, &[]),
        PoolOrProof::Proof(proof) => explained_of(alloc, budget, proof.parts()),
    }
}

/// Returns what `why` answers about the pool of a proof of these parts. If it is a proof that there is no quota panel, the engine begins
/// with its tree.
fn explained_of(alloc: Global, budget: Budget, parts: &Parts) -> Result<Answer, AllocError>
    ensures { IfOk result (λ answer. IsRight (WhyMeans (pool_of (seen parts.now))) (saying answer)) }
{
    match parts {
        Parts::Lottery(bundle, _) => explained_by(alloc, budget, bundle.pool(), &[]),
        Parts::NoPanel(pool, tree) => explained_by(alloc, budget, pool, tree.lines()),
    }
}

/// Returns what `why` answers about a pool, if the engine begins with `tree`, which may be empty.
fn explained_by(
    alloc: Global,
    mut budget: Budget,
    pool: &Pool,
    tree: &[TreeLine],
) -> Result<Answer, AllocError>
    ensures { IfOk result (λ answer. IsRight (WhyMeans pool.now) (saying answer)) }
{
    match why(alloc, pool, tree, &mut budget) {
        Ok(explanation) => told(alloc, pool, &explanation),
        Err(ProveStop::OutOfMemory) => Err(AllocError),
        Err(_) => searched(alloc, pool),
    }
}

/// Returns what `why` answers about a pool if the engine has no answer: the panel that `panel` finds, all quotas if there is none, or that
/// this search is spent.
fn searched(alloc: Global, pool: &Pool) -> Result<Answer, AllocError>
    ensures { IfOk result (λ answer. IsRight (WhyMeans pool.now) (saying answer)) }
{
    match first_panel_within(alloc, STATED_VISITS, pool) {
        Ok(Some(panel)) => told(alloc, pool, &Explanation::Panel(panel)),
        Ok(None) => {
            let conflict = all_together(alloc, pool)?;
            told(alloc, pool, &Explanation::Conflict(conflict))
        }
        Err(SearchStop::Spent) => visits_spent(alloc, STATED_VISITS),
        Err(SearchStop::OutOfMemory) => Err(AllocError),
    }
}

/// Returns the answer with the words of an explanation.
fn told(alloc: Global, pool: &Pool, explanation: &Explanation) -> Result<Answer, AllocError>
    requires { IsExplanation pool.now explanation.now }
    ensures { IfOk result (λ answer. IsRight (WhyMeans pool.now) (saying answer)) }
{
    match explanation {
        Explanation::Panel(panel) => Ok(Answer::Prints {
            printed: Printed::Done,
            text: panel_text(alloc, pool, panel)?,
        }),
        Explanation::Conflict(conflict) => Ok(Answer::Prints {
            printed: Printed::Done,
            text: conflict_text(alloc, pool, conflict)?,
        }),
    }
}
