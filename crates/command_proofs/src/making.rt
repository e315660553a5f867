//! Makes a proof of a pool by a run under a budget, and verifies it. `proving` prints it; `command_stores` keeps it for a round.

ghost use Rattle.std.specs.Prelude.{◌≡◌, IfOk};
ghost use Rattle.define_pools.specs.Pool.{Pool as SeenPool};
ghost use Rattle.prove_limits.specs.Budgets.{SpendsOn};
ghost use Rattle.prove_run.specs.Made.{IsOfPool};
ghost use Rattle.command_proofs.specs.Proved.{MakesOf};

use bundle_text::Bundle;
use check_proofs::verify;
use pool_model::Pool;
use proof_text::Proof;
use prove_limits::Budget;
use prove_run::{RunMade, make_proof};
use std::alloc::{AllocError, Global};

/// What a run made of a pool.
#[derive(Debug, Drop)]
pub enum Made {
    /// A valid proof of the pool.
    Valid(Proof),
    /// A lottery with its stages, but no trees.
    Lottery(Bundle),
    /// No lottery.
    Nothing,
}

/// Makes a proof of `pool` by a run under `budget`, and verifies it. Afterwards `budget` is what the run left of it.
///
/// # Errors
///
/// Want of memory alone.
pub fn proof_within(alloc: Global, budget: &mut Budget, pool: &Pool) -> Result<Made, AllocError>
    ensures makes { IfOk result (MakesOf pool.now) }
    ensures spends { SpendsOn budget.old budget.new }
{
    match make_proof(alloc, pool, budget)? {
        RunMade::Proof(proof) => verified(alloc, proof),
        RunMade::Lottery(bundle) => Ok(Made::Lottery(bundle)),
        RunMade::Nothing => Ok(Made::Nothing),
    }
}

/// Returns the proof if it is valid, else nothing.
fn verified(alloc: Global, proof: Proof) -> Result<Made, AllocError>
    ensures { IfOk result (λ made. (pool : SeenPool) → IsOfPool pool proof → MakesOf pool made) }
{
    let verdict = verify(alloc, &proof)?;
    match verdict.refusal() {
        None => Ok(Made::Valid(proof)),
        Some(_) => Ok(Made::Nothing),
    }
}
