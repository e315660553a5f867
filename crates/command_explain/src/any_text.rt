//! Any bytes as the input of a command: whether they are a right text, or where they first go wrong.

ghost use Rattle.std.specs.Prelude.{◌≡◌, ℕ, List, IfOk};
ghost use Rattle.command_explain.specs.AnyTexts.{IsRightOrFaulty, looked_as, looked_at};

use bundle_text::Bundle;
use command_bundles::GivenCover;
use command_shell::{BUNDLE, PROOF, Subject};
use define_bundles::{bundle_or_fault, pool_or_fault};
use define_covers::texts::cover_or_fault;
use define_proofs::proof_or_fault;
use pool_model::Pool;
use proof_text::Proof;
use std::alloc::{AllocError, Global};
use text_lines::{TextFault, TextStop};

/// A text that begins with this word is read as a cover.
const COVER: &[u8] = b"cover";

/// Whether some bytes are a text of the program.
#[derive(Clone, Copy, Debug)]
pub enum AnyText {
    /// The bytes are the text of a pool, a bundle, a proof or a cover.
    Right,
    /// The bytes are no such text, and this is their first fault.
    Faulty(TextFault),
}

/// Any bytes either are a right text, or are no text and have a first fault.
pub fn right_or_faulty()
    ensures { (bytes : List ℕ) → IsRightOrFaulty bytes (looked_at bytes) }
{
    pool_or_fault();
    bundle_or_fault();
    proof_or_fault();
    cover_or_fault();
}

impl Subject for AnyText {
    ghost use Rattle.command_explain.specs.AnyTexts.{any_format};

    ghost format = { any_format };

    fn read(alloc: Global, bytes: &[u8]) -> Result<AnyText, TextStop> {
        right_or_faulty();
        match look_at(alloc, bytes) {
            Ok(text) => Ok(text),
            Err(AllocError) => Err(TextStop::OutOfMemory),
        }
    }
}

/// Reads the bytes in the format that the word at their beginning names.
fn look_at(alloc: Global, bytes: &[u8]) -> Result<AnyText, AllocError>
    ensures { IfOk result (λ text. text ≡ looked_at bytes.now) }
{
    if bytes.starts_with(BUNDLE) {
        look_as::<Bundle>(alloc, bytes)
    } else if bytes.starts_with(PROOF) {
        look_as::<Proof>(alloc, bytes)
    } else if bytes.starts_with(COVER) {
        look_as::<GivenCover>(alloc, bytes)
    } else {
        look_as::<Pool>(alloc, bytes)
    }
}

/// Reads the bytes in one format.
fn look_as<S: Subject>(alloc: Global, bytes: &[u8]) -> Result<AnyText, AllocError>
    ensures { IfOk result (λ text. text ≡ looked_as (S.format.read bytes.now)) }
{
    match S::read(alloc, bytes) {
        Ok(_) => Ok(AnyText::Right),
        Err(TextStop::Fault(fault)) => Ok(AnyText::Faulty(fault)),
        Err(TextStop::OutOfMemory) => Err(AllocError),
    }
}
