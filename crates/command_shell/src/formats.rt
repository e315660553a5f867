//! The formats of texts that commands read: pools, bundles, proofs, and texts that may be of a pool or of a bundle. `pool_text`,
//! `bundle_text` and `proof_text` read them.

use crate::subject::Subject;
use bundle_text::{Bundle, ReadBundle, read_bundle};
use pool_model::Pool;
use pool_text::{ReadPool, read_pool};
use proof_text::{Proof, read_proof};
use std::alloc::Global;
use text_lines::{TextFault, TextStop};

/// A text that begins with this word is read as a bundle.
pub const BUNDLE: &[u8] = b"bundle";

impl Subject for Pool {
    ghost use Rattle.command_shell.specs.Formats.{pool_format};

    ghost format = { pool_format };

    fn read(alloc: Global, bytes: &[u8]) -> Result<Pool, TextStop> {
        match read_pool(alloc, bytes) {
            Ok(pool) => Ok(pool),
            Err(ReadPool::Fault(fault)) => Err(TextStop::Fault(TextFault {
                line: fault.line,
                kind: fault.kind,
            })),
            Err(ReadPool::OutOfMemory) => Err(TextStop::OutOfMemory),
        }
    }
}

impl Subject for Bundle {
    ghost use Rattle.command_shell.specs.Formats.{bundle_format};

    ghost format = { bundle_format };

    fn read(alloc: Global, bytes: &[u8]) -> Result<Bundle, TextStop> {
        match read_bundle(alloc, bytes) {
            Ok(bundle) => Ok(bundle),
            Err(ReadBundle::Fault(fault)) => Err(TextStop::Fault(TextFault {
                line: fault.line,
                kind: fault.kind,
            })),
            Err(ReadBundle::OutOfMemory) => Err(TextStop::OutOfMemory),
        }
    }
}

impl Subject for Proof {
    ghost use Rattle.command_shell.specs.Formats.{proof_format};

    ghost format = { proof_format };

    fn read(alloc: Global, bytes: &[u8]) -> Result<Proof, TextStop> {
        read_proof(alloc, bytes)
    }
}

/// A pool, or a bundle over one. A text that begins with `bundle` is read as a bundle, and any other as a pool.
#[derive(Drop)]
pub enum PoolOrBundle {
    /// A pool.
    Pool(Pool),
    /// A bundle.
    Bundle(Bundle),
}

impl Subject for PoolOrBundle {
    ghost use Rattle.command_shell.specs.Formats.{pool_or_bundle_format};

    ghost format = { pool_or_bundle_format };

    fn read(alloc: Global, bytes: &[u8]) -> Result<PoolOrBundle, TextStop> {
        if bytes.starts_with(BUNDLE) {
            Ok(PoolOrBundle::Bundle(Bundle::read(alloc, bytes)?))
        } else {
            Ok(PoolOrBundle::Pool(Pool::read(alloc, bytes)?))
        }
    }
}
