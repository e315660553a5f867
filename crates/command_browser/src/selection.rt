//! The exported calls for a page that makes a selection: the pool of the first round, the lottery of a pool, what to do if there is no
//! panel, the draw in a round number of tickets, and the pool of the next round. They are as the calls of `calls`, but of an empty text
//! nothing is put, and the result is 0. No command answers with an empty text; that isn't proved.

ghost use Rattle.std.specs.Prelude.{IsUtf8, Some};
ghost use Rattle.command_shell.specs.Answers.{IsRight};
ghost use Rattle.command_shell.specs.BundlesOrProofs.{bundle_or_proof_format};
ghost use Rattle.command_shell.specs.Formats.{bundle_format, pool_format};
ghost use Rattle.command_explain.specs.AnyTexts.{any_format, fault_in};
ghost use Rattle.command_meanings.specs.Explain.{Explains};
ghost use Rattle.command_meanings.specs.LoosenByProof.{LoosenByProofMeans};
ghost use Rattle.command_meanings.specs.Page.{DrawnPageMeans};
ghost use Rattle.command_meanings.specs.Question.{QuestionMeans};
ghost use Rattle.command_meanings.specs.ShortDraw.{ShortDrawMeans};
ghost use Rattle.command_meanings.specs.Why.{WhyMeans};
ghost use Rattle.command_questions.specs.Questions.{question_text};
ghost use Rattle.command_questions.specs.declared.questions.Question.TheVariants as question;
ghost use Rattle.command_questions.specs.declared.short.InTickets.TheVariants.{Dice, Panels, Ranges};
ghost use Rattle.command_quotas.specs.PoolsAndProofs.{pool_in, pool_or_proof_format};
ghost use Rattle.command_browser.specs.FirstPools.{TellsFirstPool};
ghost use Rattle.command_browser.specs.NextPools.{IsNextPool};
ghost use Rattle.command_browser.specs.Proving.{ProvesAlone};
ghost use Rattle.command_browser.specs.Told.{TextAbout, TextOf, Told, WithTickets, WithWords};

use crate::first_pools::text_of_first_pool;
use crate::next_pools::NextPool;
use crate::proving::ProveAlone;
use crate::room::tell_if_any;
use crate::texts::{text_in_tickets, text_of, text_of_short_draw, text_of_short_drawn_page};
use command_explain::Explain;
use command_questions::{InTickets, Question};
use command_quotas::{LoosenByProof, Why};
use std::alloc::Global;

/// Puts into `room` the text of the pool of round 1 after this charter, these rules and this register were imported into an empty office;
/// or the line of the first of these files that is faulty, or the line that an import is refused.
#[unsafe(no_mangle)]
pub extern "C" fn tell_first_pool(
    alloc: Global,
    charter: &[u8],
    rules: &[u8],
    register: &[u8],
    room: &mut [u8],
) -> usize
    ensures { Told (TellsFirstPool charter.now rules.now register.now) room.old room.new result }
{
    tell_if_any(text_of_first_pool(alloc, charter, rules, register), room)
}

/// Puts into `room` the text that `prove` answers about a pool within these limits without its run of `lottery`, or the line that it would
/// need that run.
#[unsafe(no_mangle)]
pub extern "C" fn tell_prove(
    alloc: Global,
    pivots: u64,
    nodes: u64,
    pool: &[u8],
    room: &mut [u8],
) -> usize
    ensures { Told (TextAbout pool_format (ProvesAlone nodes) pool.now) room.old room.new result }
{
    tell_if_any(text_of(alloc, &ProveAlone { pivots, nodes }, pool), room)
}

/// Puts into `room` the text that `why` answers about a pool or a proof, if its engine has these limits.
#[unsafe(no_mangle)]
pub extern "C" fn tell_why(
    alloc: Global,
    pivots: u64,
    nodes: u64,
    input: &[u8],
    room: &mut [u8],
) -> usize
    ensures { Told (TextAbout pool_or_proof_format (λ about. IsRight (WhyMeans (pool_in about))) input.now) room.old room.new result }
{
    tell_if_any(text_of(alloc, &Why { pivots, nodes }, input), room)
}

/// Puts into `room` the text that `loosen-by-proof` answers about a pool, if its engine has these limits.
#[unsafe(no_mangle)]
pub extern "C" fn tell_loosen_by_proof(
    alloc: Global,
    pivots: u64,
    nodes: u64,
    pool: &[u8],
    room: &mut [u8],
) -> usize
    ensures { Told (TextAbout pool_format (λ pool. IsRight (LoosenByProofMeans pool)) pool.now) room.old room.new result }
{
    tell_if_any(text_of(alloc, &LoosenByProof { pivots, nodes }, pool), room)
}

/// Puts into `room` the text that `explain` answers about any bytes.
#[unsafe(no_mangle)]
pub extern "C" fn tell_explain(alloc: Global, text: &[u8], room: &mut [u8]) -> usize
    ensures { Told (TextAbout any_format (λ text. Explains (fault_in text)) text.now) room.old room.new result }
{
    tell_if_any(text_of(alloc, &Explain, text), room)
}

/// Puts into `room` the text that `dice` answers about a bundle.
#[unsafe(no_mangle)]
pub extern "C" fn tell_dice(alloc: Global, bundle: &[u8], room: &mut [u8]) -> usize
    ensures { Told (TextOf bundle_format (QuestionMeans (question_text question.Dice)) bundle.now) room.old room.new result }
{
    tell_if_any(text_of(alloc, &Question::Dice, bundle), room)
}

/// Puts into `room` the text that `tickets` answers about a bundle.
#[unsafe(no_mangle)]
pub extern "C" fn tell_tickets(alloc: Global, bundle: &[u8], room: &mut [u8]) -> usize
    ensures { Told (TextOf bundle_format (QuestionMeans (question_text question.Tickets)) bundle.now) room.old room.new result }
{
    tell_if_any(text_of(alloc, &Question::Tickets, bundle), room)
}

/// Puts into `room` the text that `short` answers about a bundle for this number of tickets, or the line that the number is out of range.
#[unsafe(no_mangle)]
pub extern "C" fn tell_short(alloc: Global, tickets: u64, bundle: &[u8], room: &mut [u8]) -> usize
    ensures { Told (WithTickets tickets (TextOf bundle_format (QuestionMeans (question_text (question.InTickets tickets Panels))) bundle.now))
        room.old room.new result }
{
    tell_if_any(
        text_in_tickets(alloc, tickets, InTickets::Panels, bundle),
        room,
    )
}

/// Puts into `room` the text that `dice --tickets` answers about a bundle for this number of tickets, or the line that the number is out of
/// range.
#[unsafe(no_mangle)]
pub extern "C" fn tell_short_dice(
    alloc: Global,
    tickets: u64,
    bundle: &[u8],
    room: &mut [u8],
) -> usize
    ensures { Told (WithTickets tickets (TextOf bundle_format (QuestionMeans (question_text (question.InTickets tickets Dice))) bundle.now))
        room.old room.new result }
{
    tell_if_any(
        text_in_tickets(alloc, tickets, InTickets::Dice, bundle),
        room,
    )
}

/// Puts into `room` the text that `tickets --tickets` answers about a bundle for this number of tickets, or the line that the number is
/// out of range.
#[unsafe(no_mangle)]
pub extern "C" fn tell_short_tickets(
    alloc: Global,
    tickets: u64,
    bundle: &[u8],
    room: &mut [u8],
) -> usize
    ensures { Told (WithTickets tickets (TextOf bundle_format (QuestionMeans (question_text (question.InTickets tickets Ranges))) bundle.now))
        room.old room.new result }
{
    tell_if_any(
        text_in_tickets(alloc, tickets, InTickets::Ranges, bundle),
        room,
    )
}

/// Puts into `room` the text that `short-draw` answers about a bundle for this number of tickets, this seal and these digits; or the line
/// that the number is out of range, or the one for words that aren't UTF-8.
#[unsafe(no_mangle)]
pub extern "C" fn tell_short_draw(
    alloc: Global,
    tickets: u64,
    bundle: &[u8],
    seal: &[u8],
    digits: &[u8],
    room: &mut [u8],
) -> usize
    ensures { Told (WithTickets tickets (WithWords (IsUtf8 seal.now × IsUtf8 digits.now)
        (TextOf bundle_format (ShortDrawMeans tickets seal.now digits.now) bundle.now))) room.old room.new result }
{
    tell_if_any(
        text_of_short_draw(alloc, tickets, bundle, seal, digits),
        room,
    )
}

/// Puts into `room` the text that `page --drawn --tickets` answers about a bundle or a proof for this number of tickets and these digits; or
/// the line that the number is out of range, or the one for words that aren't UTF-8.
#[unsafe(no_mangle)]
pub extern "C" fn tell_short_drawn_page(
    alloc: Global,
    tickets: u64,
    input: &[u8],
    digits: &[u8],
    room: &mut [u8],
) -> usize
    ensures { Told (WithTickets tickets (WithWords (IsUtf8 digits.now)
        (TextOf bundle_or_proof_format (DrawnPageMeans (Some tickets) digits.now) input.now))) room.old room.new result }
{
    tell_if_any(
        text_of_short_drawn_page(alloc, tickets, input, digits),
        room,
    )
}

/// Puts into `room` the text of the pool of the next round, if `pool` is that of a round whose panel was drawn. `marks` has a byte for each
/// volunteer: 0 if not in the panel, 1 for a member who comes, 2 for a member who can't.
#[unsafe(no_mangle)]
pub extern "C" fn tell_next_pool(alloc: Global, pool: &[u8], marks: &[u8], room: &mut [u8]) -> usize
    ensures { Told (TextAbout pool_format (IsNextPool marks.now) pool.now) room.old room.new result }
{
    tell_if_any(text_of(alloc, &NextPool { marks }, pool), room)
}
