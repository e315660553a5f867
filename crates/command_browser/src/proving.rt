//! `prove` without its run of `lottery`, and so without threads. `selection` has the call.

ghost use Rattle.std.specs.Prelude.{◌≡◌, IfOk};
ghost use Rattle.command_shell.specs.Answers.{Stops, saying};
ghost use Rattle.command_shell.specs.declared.status.Cause.TheVariants as cause;
ghost use Rattle.command_browser.specs.Proving.{ProvesAlone, no_proof_line};

use command_meanings::evidence_of_taken_nodes;
use command_proofs::prove_alone;
use command_shell::{Answer, Cause, Command, Meaning};
use pool_model::Pool;
use prove_limits::Budget;
use std::alloc::{AllocError, Global};

const NO_PROOF_LINE: &[u8] = b"spent\tengine\n";

/// `prove` about a pool, by its engine and the trees of its lottery alone.
#[derive(Clone, Copy, Debug)]
pub(crate) struct ProveAlone {
    /// The most pivots of the engine.
    pub(crate) pivots: u64,
    /// The most nodes of the engine, and the most nodes of trees.
    pub(crate) nodes: u64,
}

impl Meaning for ProveAlone {
    type About = Pool;

    ghost use Rattle.command_browser.specs.Proving.{ProvesAlone};

    ghost means = { λ command pool. ProvesAlone command.nodes pool };
}

impl Command for ProveAlone {
    fn answer(&self, alloc: Global, pool: &Pool, _text: &[u8]) -> Result<Answer, AllocError> {
        proved(alloc, self, pool)
    }
}

/// Returns what `prove` answers about a pool if that needs no run of `lottery`, or the line that it needs one. Pivots don't end a search for
/// trees.
fn proved(alloc: Global, command: &ProveAlone, pool: &Pool) -> Result<Answer, AllocError>
    ensures { IfOk result (λ answer. ProvesAlone command.now.nodes pool.now (saying answer)) }
{
    let mut budget = Budget::new(command.pivots, command.nodes);
    let mut trees = Budget::new(u64::MAX, command.nodes);
    let answered = prove_alone(alloc, &mut budget, &mut trees, pool)?;
    evidence_of_taken_nodes(&trees);
    match answered {
        Some(answer) => Ok(answer),
        None => no_proof(alloc),
    }
}

/// Returns the answer that the engine makes no proof.
fn no_proof(alloc: Global) -> Result<Answer, AllocError>
    ensures { IfOk result (λ answer. saying answer ≡ Stops cause.Spent no_proof_line) }
{
    Ok(Answer::Stops {
        cause: Cause::Spent,
        line: Vec::from_slice(alloc, NO_PROOF_LINE)?,
    })
}
