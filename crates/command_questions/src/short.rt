//! The answers about a bundle in a round number of tickets, `Question::InTickets`.

ghost use Rattle.std.specs.Prelude.{◌≡◌, ◌++◌, ◌∷◌, [], map, IfOk, OnOk};
ghost use Rattle.define_bundles.specs.BundleText.{panel_line};
ghost use Rattle.define_lines.specs.Lines.{text_of};
ghost use Rattle.define_pools.specs.Lottery.{TotalAgrees};
ghost use Rattle.define_draws.specs.ShortBundle.{shortened_bundle};
ghost use Rattle.command_questions.specs.Short.{lines_in_tickets, short_lines};

use crate::dice::{dice_text, push_number};
use crate::ranges::tickets_text;
use bundle_text::Bundle;
use pool_model::LotteryRow;
use short_tickets::{TicketCount, short_bundle};
use std::alloc::{AllocError, Global};
use text_lines::{end_line, push_numbers, push_signed};

/// What is printed about a bundle in a round number of tickets.
#[derive(Clone, Copy, Debug)]
pub enum InTickets {
    /// `short`: the tickets of each panel.
    Panels,
    /// `dice --tickets`: how many ten-sided dice are thrown at once, and which part of the throws is thrown again.
    Dice,
    /// `tickets --tickets`: which tickets draw which panel.
    Ranges,
}

/// Returns the text about a bundle in this number of tickets.
pub(crate) fn text_in_tickets(
    alloc: Global,
    bundle: &Bundle,
    tickets: TicketCount,
    answer: InTickets,
) -> Result<Vec<u8>, AllocError>
    requires { TotalAgrees bundle.now.answer.lottery }
    ensures { IfOk result (λ text. text.items ≡ text_of (lines_in_tickets answer (shortened_bundle bundle.now tickets))) }
{
    let short = short_bundle(alloc, bundle, tickets.number())?;
    match answer {
        InTickets::Panels => short_text(alloc, &short),
        InTickets::Dice => dice_text(alloc, &short),
        InTickets::Ranges => tickets_text(alloc, &short),
    }
}

/// Returns how many tickets there are, and a line for each panel with its tickets.
fn short_text(alloc: Global, bundle: &Bundle) -> Result<Vec<u8>, AllocError>
    ensures { IfOk result (λ text. text.items ≡ text_of (short_lines bundle.now)) }
{
    let lottery = bundle.answer().lottery();
    let mut text = Vec::new(alloc);
    push_number(&mut text, b"tickets", lottery.total().unsigned_abs())?;
    push_panels(&mut text, lottery.rows())?;
    Ok(text)
}

/// Appends a line for each row.
fn push_panels(text: &mut Vec<u8>, rows: &[LotteryRow]) -> Result<(), AllocError>
    ensures { OnOk result (text.new.items ≡ text.old.items ++ text_of (map panel_line rows.now)) }
{
    for row in rows {
        push_panel(text, row)?;
    }
    Ok(())
}

/// Appends a row's line: its tickets, and the numbers of the panel's members.
fn push_panel(text: &mut Vec<u8>, row: &LotteryRow) -> Result<(), AllocError>
    ensures { OnOk result (text.new.items ≡ text.old.items ++ text_of (panel_line row.now ∷ [])) }
{
    text.extend_from_slice(b"panel")?;
    push_signed(text, row.weight())?;
    push_numbers(text, row.panel().members())?;
    end_line(text)
}
