//! Settles a bundle: trees for its stages, and if none are found the searches of `check`. `proving` asks it about a given bundle, and about
//! one that was found for a given pool.

ghost use Rattle.std.specs.Prelude.{◌≡◌, IfOk, Ok, None};
ghost use Rattle.command_meanings.specs.Prove.{beyond_line, check_visits, first_beyond as first_stage_beyond};
ghost use Rattle.command_proofs.specs.Proved.{IsSettled, IsToldOf, ShowsValid, TellsCertified, ending, is_done as tells_done, proof_said};
ghost use Rattle.command_shell.specs.Answers.{Prints, saying};
ghost use Rattle.command_shell.specs.declared.status.Printed.TheVariants.{Refused};
ghost use Rattle.define_checks.specs.Reasons.{Valid};
ghost use Rattle.define_checks.specs.Visits.{check_answer};
ghost use Rattle.prove_limits.specs.Budgets.{SpendsOn};
ghost use Rattle.proof_text.specs.Parts.{seen};

use crate::beyond::first_beyond;
use crate::proving_lines::spent;
use bundle_text::Bundle;
use check_proofs::{Verdict, verify};
use command_bundles::{check_bundle, verdict_answer};
use command_shell::{Answer, Printed};
use proof_text::{Parts, Proof, write_proof};
use prove_limits::Budget;
use prove_run::{TreesBy, prove_bundle};
use std::alloc::{AllocError, Global};

/// The visits of each search of a check.
const CHECK_VISITS: u64 = 50_000_000;

/// The reason for which a stage's numbers pass what the lines of a proof hold.
const BEYOND: u8 = 13;

/// How a bundle is settled.
#[derive(Drop)]
pub(crate) enum Settled {
    /// By this answer, whether the bundle was given or found.
    Told(Answer),
    /// By a check, which refuses the certificate or is spent: this is its answer.
    Checked(Answer),
}

/// Settles a bundle, at the nodes of `trees`.
pub(crate) fn settle(
    alloc: Global,
    trees: &mut Budget,
    bundle: &Bundle,
) -> Result<Settled, AllocError>
    ensures right { IfOk result (IsSettled trees.new bundle.now) }
    ensures visits { SpendsOn trees.old trees.new }
{
    match proved_by(alloc, bundle, TreesBy::Tables, trees)? {
        Some(answer) => Ok(Settled::Told(answer)),
        None => by_check(alloc, trees, bundle),
    }
}

/// Settles a bundle by a check, since no trees were found. If the certificate holds, looks on for trees.
fn by_check(alloc: Global, trees: &mut Budget, bundle: &Bundle) -> Result<Settled, AllocError>
    ensures right { IfOk result (IsSettled trees.new bundle.now) }
    ensures visits { SpendsOn trees.old trees.new }
{
    let answer = check_bundle(alloc, CHECK_VISITS, bundle)?;
    if is_done(&answer) {
        Ok(Settled::Told(certified(alloc, trees, bundle)?))
    } else {
        Ok(Settled::Checked(answer))
    }
}

/// True if an answer has status 0.
fn is_done(answer: &Answer) -> bool
    ensures { result ≡ tells_done (saying answer.now) }
{
    match answer {
        Answer::Prints {
            printed: Printed::Done,
            ..
        } => true,
        _ => false,
    }
}

/// Returns the answer for a bundle whose certificate holds: the first stage whose numbers no proof can have, or a proof if trees are found.
fn certified(alloc: Global, trees: &mut Budget, bundle: &Bundle) -> Result<Answer, AllocError>
    requires { check_answer bundle.now.pool bundle.now.answer check_visits ≡ Ok Valid }
    ensures right { IfOk result (TellsCertified trees.new bundle.now) }
    ensures visits { SpendsOn trees.old trees.new }
{
    match first_beyond(bundle.answer().certificate().stages()) {
        Some(stage) => beyond_answer(alloc, stage),
        None => proved_or_spent(alloc, trees, bundle),
    }
}

/// Returns the answer for the first stage whose numbers no proof can have.
fn beyond_answer(alloc: Global, stage: usize) -> Result<Answer, AllocError>
    ensures { IfOk result (λ answer. saying answer ≡ Prints Refused (beyond_line stage)) }
{
    let verdict = Verdict::refused(alloc, stage, BEYOND, &[])?;
    verdict_answer(alloc, &verdict)
}

/// Returns the proof of a bundle whose certificate holds, or that no node of `trees` is left. The search goes on until then, by splits alone;
/// each attempt takes a node.
fn proved_or_spent(alloc: Global, trees: &mut Budget, bundle: &Bundle) -> Result<Answer, AllocError>
    requires valid { check_answer bundle.now.pool bundle.now.answer check_visits ≡ Ok Valid }
    requires within { first_stage_beyond bundle.now.answer.stages ≡ None }
    ensures right { IfOk result (TellsCertified trees.new bundle.now) }
    ensures visits { SpendsOn trees.old trees.new }
{
    'attempts: while trees.take_node().is_ok() {
        if let Some(answer) = proved_by(alloc, bundle, TreesBy::Splits, trees)? {
            return Ok(answer);
        }
    }
    spent(alloc, b"trees", trees.most_nodes())
}

/// Returns the text of a valid proof of a bundle, if a search finds one at the nodes of `trees`.
fn proved_by(
    alloc: Global,
    bundle: &Bundle,
    by: TreesBy,
    trees: &mut Budget,
) -> Result<Option<Answer>, AllocError>
    ensures right { IfOk result (IsToldOf bundle.now) }
    ensures visits { SpendsOn trees.old trees.new }
{
    match prove_bundle(alloc, bundle, by, trees)? {
        Some(proof) => if_valid(alloc, &proof),
        None => Ok(None),
    }
}

/// Returns the text of a proof, if it is valid.
pub(crate) fn if_valid(alloc: Global, proof: &Proof) -> Result<Option<Answer>, AllocError>
    ensures { IfOk result (ShowsValid proof.now) }
{
    proof.facts();
    let verdict = verify(alloc, proof)?;
    if verdict.is_valid() {
        Ok(Some(proof_answer(alloc, proof)?))
    } else {
        Ok(None)
    }
}

/// Returns the answer with the text of a proof.
pub(crate) fn proof_answer(alloc: Global, proof: &Proof) -> Result<Answer, AllocError>
    ensures { IfOk result (λ answer. saying answer ≡ proof_said proof.now) }
{
    Ok(Answer::Prints {
        printed: ending_of(proof.parts()),
        text: write_proof(alloc, proof)?,
    })
}

/// Returns how the command ends with a valid proof of these parts.
fn ending_of(parts: &Parts) -> Printed
    ensures { result ≡ ending (seen parts.now) }
{
    match parts {
        Parts::Lottery(_, _) => Printed::Done,
        Parts::NoPanel(_, _) => Printed::NoPanel,
    }
}
