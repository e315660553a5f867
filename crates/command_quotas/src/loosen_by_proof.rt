//! The command `loosen-by-proof`.

ghost use Rattle.std.specs.Prelude.{◌≡◌, ◌≢◌, ℕ, IfOk, IsTrue, List};
ghost use Rattle.define_quotas.specs.Loosenings.{IsLeast, Loosening};
ghost use Rattle.define_quotas.specs.Teams.{is_team};
ghost use Rattle.define_pools.specs.Pool.{Pool as SeenPool};
ghost use Rattle.command_meanings.specs.Panel.{stated_visits};
ghost use Rattle.command_shell.specs.Answers.{IsRight, Saying, saying, status_of};
ghost use Rattle.command_meanings.specs.Loosening.{IsLeastLoosening, LoosenMeans};
ghost use Rattle.command_meanings.specs.LoosenByProof.{LoosenByProofMeans};
ghost use Rattle.loosening_by_proof.specs.Answers.{IsLeastForTeam};

use crate::lines::loosening_text;
use crate::loosen::answered as answered_by_search;
use command_shell::{Answer, Command, Meaning, Printed, no_panel};
use define_quotas::costs::least_totals_are_equal;
use loosening_by_proof::loosen_by_proof;
use pool_model::Pool;
use prove_limits::{Budget, ProveStop};
use quota_loosen::Loosened;
use std::alloc::{AllocError, Global};

/// The most visits of the search that decides if the engine has no answer: those of `loosen` without `--nodes`.
const STATED_VISITS: u64 = 50_000_000;

/// `loosen-by-proof`: a least loosening of a pool's quotas, by integer programs under a budget, and else by the search of `loosen`.
#[derive(Clone, Copy, Debug)]
pub struct LoosenByProof {
    /// The most pivots of the engine, from 0 to 1,000,000,000.
    pub pivots: u64,
    /// The most nodes of the engine, from 0 to 1,000,000,000,000.
    pub nodes: u64,
}

/// Each least loosening has the same total as the one that `loosen` finds.
pub fn loosen_totals_are_equal()
    ensures { (pool : SeenPool) (one other : Loosening) → IsLeastLoosening pool one → IsLeast pool other → one.total ≡ other.total }
{
    least_totals_are_equal();
}

/// Where `loosen` with 50,000,000 visits has status 0 or 1, `loosen-by-proof` has the same status.
pub fn loosen_by_proof_answers_where_loosen_does()
    ensures { (pool : SeenPool) (answer other : Saying) → IsRight (LoosenByProofMeans pool) answer → IsRight (LoosenMeans stated_visits pool) other →
        status_of other ≢ 5 → status_of answer ≡ status_of other }
{}

impl Meaning for LoosenByProof {
    type About = Pool;

    ghost use Rattle.command_shell.specs.Answers.{IsRight};
    ghost use Rattle.command_meanings.specs.LoosenByProof.{LoosenByProofMeans};

    ghost means = { λ command pool. IsRight (LoosenByProofMeans pool) };
}

impl Command for LoosenByProof {
    fn answer(&self, alloc: Global, pool: &Pool, _text: &[u8]) -> Result<Answer, AllocError> {
        answered(alloc, Budget::new(self.pivots, self.nodes), pool)
    }
}

/// Returns what `loosen-by-proof` answers, if the engine may spend `budget`.
fn answered(alloc: Global, mut budget: Budget, pool: &Pool) -> Result<Answer, AllocError>
    ensures { IfOk result (λ answer. IsRight (LoosenByProofMeans pool.now) (saying answer)) }
{
    match loosen_by_proof(alloc, pool, &mut budget) {
        Ok(Some(loosened)) => told(alloc, pool, &loosened),
        Ok(None) => none_told(alloc, pool),
        Err(ProveStop::OutOfMemory) => Err(AllocError),
        Err(_) => searched(alloc, pool),
    }
}

/// Returns what `loosen-by-proof` answers if the engine has no answer: what `loosen` answers.
fn searched(alloc: Global, pool: &Pool) -> Result<Answer, AllocError>
    ensures { IfOk result (λ answer. IsRight (LoosenByProofMeans pool.now) (saying answer)) }
{
    answered_by_search(alloc, STATED_VISITS, pool)
}

/// Returns the answer with the lines of a least loosening.
fn told(alloc: Global, pool: &Pool, loosened: &Loosened) -> Result<Answer, AllocError>
    requires { IsLeastForTeam pool.now loosened.now }
    ensures { IfOk result (λ answer. IsRight (LoosenByProofMeans pool.now) (saying answer)) }
{
    Ok(Answer::Prints {
        printed: Printed::Done,
        text: loosening_text(alloc, pool, loosened)?,
    })
}

/// Returns the answer that there is no team.
fn none_told(alloc: Global, pool: &Pool) -> Result<Answer, AllocError>
    requires { (team : List ℕ) → IsTrue (is_team pool.now team) → ⊥ }
    ensures { IfOk result (λ answer. IsRight (LoosenByProofMeans pool.now) (saying answer)) }
{
    pool.facts();
    no_panel(alloc)
}
