//! The texts that commands answer about some bytes: those that the shell's `call` prints if its source holds these bytes.

ghost use Rattle.std.specs.Prelude.{◌≡◌, IfOk, IsUtf8, None, Some};
ghost use Rattle.command_shell.specs.Answers.{bytes_of, saying};
ghost use Rattle.command_shell.specs.Formats.{bundle_format};
ghost use Rattle.command_meanings.specs.Draw.{DrawMeans};
ghost use Rattle.command_meanings.specs.Question.{QuestionMeans};
ghost use Rattle.command_meanings.specs.ShortDraw.{ShortDrawMeans};
ghost use Rattle.command_questions.specs.Questions.{question_text};
ghost use Rattle.command_questions.specs.declared.questions.Question.TheVariants as question;
ghost use Rattle.command_shell.specs.BundlesOrProofs.{bundle_or_proof_format};
ghost use Rattle.command_meanings.specs.Page.{DrawnPageMeans};
ghost use Rattle.command_browser.specs.Told.{TextAbout, TextOf, WithTickets, WithWords};

use command_bundles::{Draw, ShortDraw};
use command_questions::{DrawnPage, InTickets, Question};
use command_shell::{Answer, Command, answer_about};
use short_tickets::TicketCount;
use std::alloc::{AllocError, Global};
use std::str;

/// The most bytes that an input may have.
const INPUT_LIMIT: usize = 16_777_216;

const TOO_LONG_LINE: &[u8] = b"input\t0\t10\n";

const WORDS_NOT_UTF8_LINE: &[u8] = b"error: invalid UTF-8 was detected in one or more arguments\n";

const TICKETS_LINE: &[u8] = b"error: the number of tickets is from 1 to 1000000000\n";

/// Returns the text that `draw` answers about a bundle for this seal and these digits, or the line for words that aren't UTF-8.
pub(crate) fn text_of_draw(
    alloc: Global,
    bundle: &[u8],
    seal: &[u8],
    digits: &[u8],
) -> Result<Vec<u8>, AllocError>
    ensures { IfOk result (λ text. WithWords (IsUtf8 seal.now × IsUtf8 digits.now)
        (TextOf bundle_format (DrawMeans seal.now digits.now) bundle.now) text.items) }
{
    match (str::from_utf8(seal), str::from_utf8(digits)) {
        (Ok(seal), Ok(digits)) => text_of(alloc, &Draw { seal, digits }, bundle),
        _ => Vec::from_slice(alloc, WORDS_NOT_UTF8_LINE),
    }
}

/// Returns the text that `page --drawn` answers about a bundle or a proof for these digits, or the line for words that aren't UTF-8.
pub(crate) fn text_of_drawn_page(
    alloc: Global,
    input: &[u8],
    digits: &[u8],
) -> Result<Vec<u8>, AllocError>
    ensures { IfOk result (λ text. WithWords (IsUtf8 digits.now)
        (TextOf bundle_or_proof_format (DrawnPageMeans None digits.now) input.now) text.items) }
{
    match str::from_utf8(digits) {
        Ok(digits) => text_of(
            alloc,
            &DrawnPage {
                tickets: None,
                digits,
            },
            input,
        ),
        Err(_) => Vec::from_slice(alloc, WORDS_NOT_UTF8_LINE),
    }
}

/// Returns the text of a bundle in this number of tickets, or the line that the number is out of range.
pub(crate) fn text_in_tickets(
    alloc: Global,
    tickets: u64,
    answer: InTickets,
    bundle: &[u8],
) -> Result<Vec<u8>, AllocError>
    ensures { IfOk result (λ text. WithTickets tickets
        (TextOf bundle_format (QuestionMeans (question_text (question.InTickets tickets answer))) bundle.now) text.items) }
{
    match TicketCount::new(tickets) {
        Some(tickets) => text_of(alloc, &Question::InTickets { tickets, answer }, bundle),
        None => Vec::from_slice(alloc, TICKETS_LINE),
    }
}

/// Returns the text that `short-draw` answers about a bundle for this number of tickets, this seal and these digits; or the line that the
/// number is out of range, or the one for words that aren't UTF-8.
pub(crate) fn text_of_short_draw(
    alloc: Global,
    tickets: u64,
    bundle: &[u8],
    seal: &[u8],
    digits: &[u8],
) -> Result<Vec<u8>, AllocError>
    ensures { IfOk result (λ text. WithTickets tickets (WithWords (IsUtf8 seal.now × IsUtf8 digits.now)
        (TextOf bundle_format (ShortDrawMeans tickets seal.now digits.now) bundle.now)) text.items) }
{
    match TicketCount::new(tickets) {
        Some(tickets) => text_drawn_in(alloc, tickets, bundle, seal, digits),
        None => Vec::from_slice(alloc, TICKETS_LINE),
    }
}

/// Returns the text that `short-draw` answers about a bundle for this seal and these digits, or the line for words that aren't UTF-8.
fn text_drawn_in(
    alloc: Global,
    tickets: TicketCount,
    bundle: &[u8],
    seal: &[u8],
    digits: &[u8],
) -> Result<Vec<u8>, AllocError>
    ensures { IfOk result (λ text. WithWords (IsUtf8 seal.now × IsUtf8 digits.now)
        (TextOf bundle_format (ShortDrawMeans tickets seal.now digits.now) bundle.now) text.items) }
{
    match (str::from_utf8(seal), str::from_utf8(digits)) {
        (Ok(seal), Ok(digits)) => text_of(
            alloc,
            &ShortDraw {
                tickets,
                seal,
                digits,
            },
            bundle,
        ),
        _ => Vec::from_slice(alloc, WORDS_NOT_UTF8_LINE),
    }
}

/// Returns the text that `page --drawn --tickets` answers about a bundle or a proof for this number of tickets and these digits; or the line
/// that the number is out of range, or the one for words that aren't UTF-8.
pub(crate) fn text_of_short_drawn_page(
    alloc: Global,
    tickets: u64,
    input: &[u8],
    digits: &[u8],
) -> Result<Vec<u8>, AllocError>
    ensures { IfOk result (λ text. WithTickets tickets (WithWords (IsUtf8 digits.now)
        (TextOf bundle_or_proof_format (DrawnPageMeans (Some tickets) digits.now) input.now)) text.items) }
{
    match TicketCount::new(tickets) {
        Some(tickets) => page_drawn_in(alloc, tickets, input, digits),
        None => Vec::from_slice(alloc, TICKETS_LINE),
    }
}

/// Returns the text that `page --drawn --tickets` answers about a bundle or a proof for these digits, or the line for words that aren't UTF-8.
fn page_drawn_in(
    alloc: Global,
    tickets: TicketCount,
    input: &[u8],
    digits: &[u8],
) -> Result<Vec<u8>, AllocError>
    ensures { IfOk result (λ text. WithWords (IsUtf8 digits.now)
        (TextOf bundle_or_proof_format (DrawnPageMeans (Some tickets) digits.now) input.now) text.items) }
{
    match str::from_utf8(digits) {
        Ok(digits) => text_of(
            alloc,
            &DrawnPage {
                tickets: Some(tickets),
                digits,
            },
            input,
        ),
        Err(_) => Vec::from_slice(alloc, WORDS_NOT_UTF8_LINE),
    }
}

/// Returns the text that `command` answers about `bytes`.
pub(crate) fn text_of<C: Command>(
    alloc: Global,
    command: &C,
    bytes: &[u8],
) -> Result<Vec<u8>, AllocError>
    ensures { IfOk result (λ text. TextAbout C.About.format (C.means command.now) bytes.now text.items) }
{
    if INPUT_LIMIT < bytes.len() {
        return Vec::from_slice(alloc, TOO_LONG_LINE);
    }
    let answer = answer_about(alloc, command, bytes)?;
    Ok(text_in(answer))
}

/// Returns the text or the line of an answer.
fn text_in(answer: Answer) -> Vec<u8>
    ensures { result.items ≡ bytes_of (saying answer) }
{
    match answer {
        Answer::Prints { printed: _, text } => text,
        Answer::Stops { cause: _, line } => line,
    }
}
