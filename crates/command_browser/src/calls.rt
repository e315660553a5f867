//! The exported calls. The page lends `room` for the text. The result is the text's length, or 0 for want of memory. The text is put into
//! `room` only if it fits.

ghost use Rattle.std.specs.Prelude.{IsUtf8, None};
ghost use Rattle.command_shell.specs.Formats.{bundle_format, proof_format};
ghost use Rattle.command_meanings.specs.CheckCover.{CheckCoverMeans};
ghost use Rattle.command_bundles.specs.CoverFormat.{cover_format};
ghost use Rattle.command_meanings.specs.Draw.{DrawMeans};
ghost use Rattle.command_meanings.specs.ItsBundle.{BundleMeans};
ghost use Rattle.command_meanings.specs.Seal.{SealMeans};
ghost use Rattle.command_meanings.specs.Verify.{VerifyMeans};
ghost use Rattle.command_shell.specs.BundlesOrProofs.{bundle_or_proof_format};
ghost use Rattle.command_meanings.specs.Page.{DrawnPageMeans, PageMeans};
ghost use Rattle.command_meanings.specs.Question.{QuestionMeans};
ghost use Rattle.command_questions.specs.Questions.{question_text};
ghost use Rattle.command_questions.specs.declared.questions.Question.TheVariants.{Chances};
ghost use Rattle.command_browser.specs.Told.{TextOf, Told, WithWords};

use crate::room::tell;
use crate::texts::{text_of, text_of_draw, text_of_drawn_page};
use command_bundles::{CheckCover, Seal};
use command_proofs::{ItsBundle, Verify};
use command_questions::{Page, Question};
use std::alloc::Global;

/// Puts into `room` the text that `verify` answers about a proof.
#[unsafe(no_mangle)]
pub extern "C" fn tell_verify(alloc: Global, proof: &[u8], room: &mut [u8]) -> usize
    ensures { Told (TextOf proof_format VerifyMeans proof.now) room.old room.new result }
{
    tell(text_of(alloc, &Verify, proof), room)
}

/// Puts into `room` the text that `check-cover` answers about a cover.
#[unsafe(no_mangle)]
pub extern "C" fn tell_check_cover(alloc: Global, cover: &[u8], room: &mut [u8]) -> usize
    ensures { Told (TextOf cover_format CheckCoverMeans cover.now) room.old room.new result }
{
    tell(text_of(alloc, &CheckCover, cover), room)
}

/// Puts into `room` the text that `bundle` answers about a proof: the text of its bundle, or the line that it has no lottery.
#[unsafe(no_mangle)]
pub extern "C" fn tell_bundle(alloc: Global, proof: &[u8], room: &mut [u8]) -> usize
    ensures { Told (TextOf proof_format BundleMeans proof.now) room.old room.new result }
{
    tell(text_of(alloc, &ItsBundle, proof), room)
}

/// Puts into `room` the text that `seal` answers about a bundle.
#[unsafe(no_mangle)]
pub extern "C" fn tell_seal(alloc: Global, bundle: &[u8], room: &mut [u8]) -> usize
    ensures { Told (TextOf bundle_format SealMeans bundle.now) room.old room.new result }
{
    tell(text_of(alloc, &Seal, bundle), room)
}

/// Puts into `room` the text that `draw` answers about a bundle for this seal and these digits, or the line for words that aren't UTF-8.
#[unsafe(no_mangle)]
pub extern "C" fn tell_draw(
    alloc: Global,
    bundle: &[u8],
    seal: &[u8],
    digits: &[u8],
    room: &mut [u8],
) -> usize
    ensures { Told (WithWords (IsUtf8 seal.now × IsUtf8 digits.now) (TextOf bundle_format (DrawMeans seal.now digits.now) bundle.now))
        room.old room.new result }
{
    tell(text_of_draw(alloc, bundle, seal, digits), room)
}

/// Puts into `room` the text that `chances` answers about a bundle.
#[unsafe(no_mangle)]
pub extern "C" fn tell_chances(alloc: Global, bundle: &[u8], room: &mut [u8]) -> usize
    ensures { Told (TextOf bundle_format (QuestionMeans (question_text Chances)) bundle.now) room.old room.new result }
{
    tell(text_of(alloc, &Question::Chances, bundle), room)
}

/// Puts into `room` the text that `page` answers about a bundle or a proof: a whole HTML page, or why there is none.
#[unsafe(no_mangle)]
pub extern "C" fn tell_page(alloc: Global, input: &[u8], room: &mut [u8]) -> usize
    ensures { Told (TextOf bundle_or_proof_format PageMeans input.now) room.old room.new result }
{
    tell(text_of(alloc, &Page, input), room)
}

/// Puts into `room` the text that `page --drawn` answers about a bundle or a proof for these digits, or the line for words that aren't
/// UTF-8.
#[unsafe(no_mangle)]
pub extern "C" fn tell_drawn_page(
    alloc: Global,
    input: &[u8],
    digits: &[u8],
    room: &mut [u8],
) -> usize
    ensures { Told (WithWords (IsUtf8 digits.now) (TextOf bundle_or_proof_format (DrawnPageMeans None digits.now) input.now))
        room.old room.new result }
{
    tell(text_of_drawn_page(alloc, input, digits), room)
}
