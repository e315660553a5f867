//! Makes and compares seals.

ghost use Rattle.std.specs.Prelude.{◌≡◌, IfOk, length, string_bytes};
ghost use Rattle.define_draws.specs.Seal.{is_seal as words_of_is_seal, seal_of};

use sha2::{Digest, Sha256};
use std::alloc::{AllocError, Global};

/// Returns the seal of some bytes: their SHA-256 digest in 64 lower case hexadecimal digits.
pub fn seal(alloc: Global, bytes: &[u8]) -> Result<String, AllocError>
    ensures text { IfOk result (λ text. string_bytes text ≡ seal_of bytes.now) }
    ensures digits { IfOk result (λ text. length (string_bytes text) ≡ 64) }
{
    let digest: [u8; 32] = Sha256::digest(bytes);
    hex::encode(alloc, digest)
}

/// True if the seal that was given, with its upper case letters made lower case, is the one that is kept.
pub(crate) fn is_seal(alloc: Global, kept: &str, given: &str) -> Result<bool, AllocError>
    ensures { IfOk result (λ same. same ≡ words_of_is_seal kept.now given.now) }
{
    let mut small = Vec::from_slice(alloc, given.as_bytes())?;
    small.make_ascii_lowercase();
    Ok(small.as_slice() == kept.as_bytes())
}
