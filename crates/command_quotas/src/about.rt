//! What `why` reads: a pool, or a proof over one. The readers of `command_shell` read them.

use command_shell::{PROOF, Subject};
use pool_model::Pool;
use proof_text::Proof;
use std::alloc::Global;
use text_lines::TextStop;

/// A pool, or a proof over one. A text that begins with `proof` is read as a proof, and any other as a pool.
#[derive(Drop)]
pub enum PoolOrProof {
    /// A pool.
    Pool(Pool),
    /// A proof.
    Proof(Proof),
}

impl Subject for PoolOrProof {
    ghost use Rattle.command_quotas.specs.PoolsAndProofs.{pool_or_proof_format};

    ghost format = { pool_or_proof_format };

    fn read(alloc: Global, bytes: &[u8]) -> Result<PoolOrProof, TextStop> {
        if bytes.starts_with(PROOF) {
            Ok(PoolOrProof::Proof(Proof::read(alloc, bytes)?))
        } else {
            Ok(PoolOrProof::Pool(Pool::read(alloc, bytes)?))
        }
    }
}
