//! What the text of a cover has in common with that of a proof: the line that begins a tree, the kind of fault at an end within a bundle,
//! the stop in a line, and the writing of a bundle.

ghost use Rattle.std.specs.Prelude.{◌≡◌, ◌++◌, ◌∷◌, [], bytes_eq, OnOk};
ghost use Rattle.std.specs.Fmt.{decimal};
ghost use Rattle.define_lines.specs.Lines.{line_of, text_of};
ghost use Rattle.define_bundles.specs.BundleReading.{missing_kind as missing_within};
ghost use Rattle.bundle_text.specs.Progress.{seen as bundle_seen};
ghost use Rattle.define_proofs.specs.ProofText.{bundle_lines, tree_line};
ghost use Rattle.cover_text.specs.Stopped.{stopped};

use bundle_text::{Bundle, Progress as BundleProgress, write_bundle};
use itoa::Buffer;
use pool_model::BuildStop;
use pool_text::Progress as PoolProgress;
use std::alloc::{AllocError, Global};
use text_lines::{TextFault, TextStop, push_line};

/// The kind of fault if a text ends before the end of the pool's lines.
const MISSING_END: u8 = 12;

/// The kind of fault if a text ends in the bundle's lines after the pool's end.
const MISSING_DONE: u8 = 17;

/// How the first line of a tree begins.
const TREE: &[u8] = b"tree\t";

/// True if the line begins tree `number`.
pub(crate) fn begins_tree(number: usize, line: &[u8]) -> bool
    ensures { result ≡ bytes_eq line.now (tree_line number) }
{
    match line.strip_prefix(TREE) {
        Some(field) => is_spelled(number, field),
        None => false,
    }
}

/// True if the field is the digits of the number.
fn is_spelled(number: usize, field: &[u8]) -> bool
    ensures { result ≡ bytes_eq (decimal number) field.now }
{
    let mut digits = Buffer::new();
    digits.format(number).as_bytes() == field
}

/// Returns the error for a stop in line `line`, counted from 1.
pub(crate) fn stop_at(line: usize, stop: BuildStop) -> TextStop
    ensures { result ≡ stopped line stop }
{
    match stop {
        BuildStop::Kind(kind) => TextStop::Fault(TextFault { line, kind }),
        BuildStop::OutOfMemory => TextStop::OutOfMemory,
    }
}

/// Returns the kind of fault if a text ends in a bundle's lines: 12 in the pool's lines, else 17.
pub(crate) fn missing_in_bundle(progress: &BundleProgress) -> u8
    ensures { result ≡ missing_within (bundle_seen progress.now) }
{
    match progress {
        BundleProgress::InPool(_, PoolProgress::Ended(_)) => MISSING_DONE,
        BundleProgress::InPool(_, _) => MISSING_END,
        _ => MISSING_DONE,
    }
}

/// Appends the lines of a bundle.
pub(crate) fn push_bundle(
    alloc: Global,
    text: &mut Vec<u8>,
    bundle: &Bundle,
) -> Result<(), AllocError>
    ensures { OnOk result (text.new.items ≡ text.old.items ++ text_of (bundle_lines bundle.now.pool bundle.now.answer)) }
{
    let bytes = write_bundle(alloc, bundle.pool(), bundle.answer())?;
    text.extend_from_slice(&bytes)
}

/// Appends a line of a word and a number.
pub(crate) fn push_number_line(
    text: &mut Vec<u8>,
    word: &[u8],
    number: usize,
) -> Result<(), AllocError>
    ensures { OnOk result (text.new.items ≡ text.old.items ++ text_of (line_of (word.now ∷ decimal number ∷ []) ∷ [])) }
{
    let mut digits = Buffer::new();
    push_line(text, word, &[digits.format(number).as_bytes()])
}
