//! A bundle or a proof as the input of a command.

use crate::subject::Subject;
use bundle_text::Bundle;
use proof_text::Proof;
use std::alloc::Global;
use text_lines::TextStop;

/// A text that begins with this word is read as a proof.
pub const PROOF: &[u8] = b"proof";

/// A bundle, or a proof. A text that begins with `proof` is read as a proof, and any other as a bundle.
#[derive(Drop)]
pub enum BundleOrProof {
    /// A bundle.
    Bundle(Bundle),
    /// A proof.
    Proof(Proof),
}

impl Subject for BundleOrProof {
    ghost use Rattle.command_shell.specs.BundlesOrProofs.{bundle_or_proof_format};

    ghost format = { bundle_or_proof_format };

    fn read(alloc: Global, bytes: &[u8]) -> Result<BundleOrProof, TextStop> {
        if bytes.starts_with(PROOF) {
            Ok(BundleOrProof::Proof(Proof::read(alloc, bytes)?))
        } else {
            Ok(BundleOrProof::Bundle(Bundle::read(alloc, bytes)?))
        }
    }
}
