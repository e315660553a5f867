//! The bundle that the input of `page` holds.

ghost use Rattle.std.specs.Prelude.{◌≡◌, option_map};
ghost use Rattle.command_shell.specs.BundlesOrProofs.{bundle_in as words_of_bundle_in, bundle_of_proof};
ghost use Rattle.proof_text.specs.Parts.{seen};

use bundle_text::Bundle;
use command_shell::BundleOrProof;
use proof_text::Parts;

/// Returns the bundle, or the bundle that the proof holds. A proof that there is no quota panel holds none.
pub(crate) fn bundle_in(input: &BundleOrProof) -> Option<&Bundle>
    ensures { option_map (λ bundle. bundle.now) result ≡ words_of_bundle_in input.now }
{
    match input {
        BundleOrProof::Bundle(bundle) => Some(bundle),
        BundleOrProof::Proof(proof) => bundle_of(proof.parts()),
    }
}

/// Returns the bundle of a proof of these parts, if it holds one.
fn bundle_of(parts: &Parts) -> Option<&Bundle>
    ensures { option_map (λ bundle. bundle.now) result ≡ bundle_of_proof (seen parts.now) }
{
    match parts {
        Parts::Lottery(bundle, _) => Some(bundle),
        Parts::NoPanel(_, _) => None,
    }
}
