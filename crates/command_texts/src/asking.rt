//! The command that reads one text, with its arguments, as the words of a call give it.

ghost use Rattle.std.specs.Prelude.{◌≡◌, codes};
ghost use Rattle.command_texts.specs.TextAsked.{
  draw_asked as words_of_draw,
  drawn_page_from as words_of_drawn_page,
  in_tickets_asked as words_of_in_tickets,
  loosen_by_proof_asked as words_of_loosen_by_proof,
  page_from as words_of_page,
  prove_in as words_of_prove,
  question_asked as words_of_question,
  short_draw_asked as words_of_short_draw,
  text_asked as words_of_text,
  tickets_in,
  why_asked as words_of_why,
};

use crate::commands::TextCommand;
use command_bundles::{Check, CheckCover, ItsCover, Seal};
use command_explain::Explain;
use command_pools::FirstPanel;
use command_proofs::{ItsBundle, Prove, Verify};
use command_questions::{InTickets, Page, Question};
use command_quotas::{Loosen, LoosenByProof, Why};
use command_words::{CommandName, Given, Word};
use short_tickets::TicketCount;

/// Returns the command that reads one text, with the values that the words give. Returns None if the words ask for a command of another
/// kind, if a value is missing or out of its range, or if options don't go together. A store that the words name is passed over.
pub fn text_asked<'a>(given: &Given<'a>) -> Option<TextCommand<'a>>
    ensures { result ≡ words_of_text given.now }
{
    match given.command() {
        CommandName::Verify => Some(TextCommand::Verify(Verify)),
        CommandName::Bundle => Some(TextCommand::Bundle(ItsBundle)),
        CommandName::Seal => Some(TextCommand::Seal(Seal)),
        CommandName::Draw => draw_of(given),
        CommandName::Dice => question_of(given, Question::Dice, InTickets::Dice),
        CommandName::Tickets => question_of(given, Question::Tickets, InTickets::Ranges),
        CommandName::Short => {
            let tickets = tickets_of(given)?;
            Some(in_tickets(tickets, InTickets::Panels))
        }
        CommandName::ShortDraw => short_draw_of(given),
        CommandName::Chances => Some(TextCommand::Question(Question::Chances)),
        CommandName::Explain => Some(TextCommand::Explain(Explain)),
        CommandName::Panel => {
            let nodes = given.number("nodes")?;
            Some(TextCommand::Panel(FirstPanel { nodes }))
        }
        CommandName::Loosen => {
            let nodes = given.number("nodes")?;
            Some(TextCommand::Loosen(Loosen { nodes }))
        }
        CommandName::Why => why_of(given),
        CommandName::LoosenByProof => loosen_by_proof_of(given),
        CommandName::Page => page_from(given.text("drawn"), given.number("tickets")),
        CommandName::Check => {
            let nodes = given.number("nodes")?;
            Some(TextCommand::Check(Check { nodes }))
        }
        CommandName::Cover => {
            let nodes = given.number("nodes")?;
            Some(TextCommand::Cover(ItsCover { nodes }))
        }
        CommandName::CheckCover => Some(TextCommand::CheckCover(CheckCover)),
        _ => None,
    }
}

/// Returns the budget of `prove`, or None if the words don't give one.
pub fn prove_in(given: &Given<'_>) -> Option<Prove>
    ensures { result ≡ words_of_prove given.now }
{
    let pivots = given.number("pivots")?;
    let nodes = given.number("nodes")?;
    Some(Prove { pivots, nodes })
}

fn draw_of<'a>(given: &Given<'a>) -> Option<TextCommand<'a>>
    ensures { result ≡ words_of_draw given.now }
{
    let seal = given.text("seal")?;
    let digits = given.text("digits")?;
    Some(TextCommand::Draw { seal, digits })
}

/// Returns the question about a bundle that the words ask: `short` in a number of tickets if they give one, and else `whole`. Returns None
/// if the number of tickets isn't from 1 to 10^9.
fn question_of<'a>(given: &Given<'a>, whole: Question, short: InTickets) -> Option<TextCommand<'a>>
    ensures { result ≡ words_of_question whole short given.now }
{
    match given.number("tickets") {
        Some(number) => {
            let tickets = TicketCount::new(number)?;
            Some(in_tickets(tickets, short))
        }
        None => Some(TextCommand::Question(whole)),
    }
}

fn in_tickets<'a>(tickets: TicketCount, answer: InTickets) -> TextCommand<'a>
    ensures { result ≡ words_of_in_tickets answer tickets }
{
    TextCommand::Question(Question::InTickets { tickets, answer })
}

fn short_draw_of<'a>(given: &Given<'a>) -> Option<TextCommand<'a>>
    ensures { result ≡ words_of_short_draw given.now }
{
    let tickets = tickets_of(given)?;
    let seal = given.text("seal")?;
    let digits = given.text("digits")?;
    Some(TextCommand::ShortDraw {
        tickets,
        seal,
        digits,
    })
}

/// Returns the number of tickets, or None if the words don't give a number from 1 to 10^9.
fn tickets_of(given: &Given<'_>) -> Option<TicketCount>
    ensures { result ≡ tickets_in given.now }
{
    TicketCount::new(given.number("tickets")?)
}

/// Returns the page about a bundle, with the panel that the digits draw if there are any. A number of tickets needs digits.
fn page_from<'a>(drawn: Option<Word<'a>>, tickets: Option<u64>) -> Option<TextCommand<'a>>
    ensures { result ≡ words_of_page drawn.entry tickets }
{
    match drawn {
        Some(digits) => drawn_page_from(digits, tickets),
        None => match tickets {
            Some(_) => None,
            None => Some(TextCommand::Page(Page)),
        },
    }
}

fn drawn_page_from<'a>(digits: Word<'a>, tickets: Option<u64>) -> Option<TextCommand<'a>>
    ensures { result ≡ words_of_drawn_page digits.entry tickets }
{
    match tickets {
        Some(number) => {
            let tickets = Some(TicketCount::new(number)?);
            Some(TextCommand::DrawnPage { tickets, digits })
        }
        None => Some(TextCommand::DrawnPage {
            tickets: None,
            digits,
        }),
    }
}

fn why_of<'a>(given: &Given<'a>) -> Option<TextCommand<'a>>
    ensures { result ≡ words_of_why given.now }
{
    let pivots = given.number("pivots")?;
    let nodes = given.number("nodes")?;
    Some(TextCommand::Why(Why { pivots, nodes }))
}

fn loosen_by_proof_of<'a>(given: &Given<'a>) -> Option<TextCommand<'a>>
    ensures { result ≡ words_of_loosen_by_proof given.now }
{
    let pivots = given.number("pivots")?;
    let nodes = given.number("nodes")?;
    Some(TextCommand::LoosenByProof(LoosenByProof { pivots, nodes }))
}
