//! The answer to `Question::Tickets`.

ghost use Rattle.std.specs.Prelude.{◌≡◌, ◌+◌, ◌≤◌, ◌^◌, ◌++◌, ◌∷◌, [], length, map, nat_lt, IfOk, IsTrue, OnOk};
ghost use Rattle.std.specs.Fmt.{decimal};
ghost use Rattle.std.specs.List.{list_all};
ghost use Rattle.define_bundles.specs.Ranges.{is_row};
ghost use Rattle.define_lines.specs.Lines.{tabbed, text_of};
ghost use Rattle.define_pools.specs.Lottery.{TotalAgrees};
ghost use Rattle.define_pools.specs.Pool.{volunteer};
ghost use Rattle.command_questions.specs.Tickets.{range_text, row_line, row_lines, ticket_lines};

use bundle_text::Bundle;
use itoa::Buffer;
use pool_model::{Lottery, LotteryRow, Volunteer};
use std::alloc::{AllocError, Global};
use text_lines::{end_line, push_field, push_number};

/// Returns a line for each row of the lottery: its tickets, the panel's number, and the ids of its members.
pub(crate) fn tickets_text(alloc: Global, bundle: &Bundle) -> Result<Vec<u8>, AllocError>
    requires { TotalAgrees bundle.now.answer.lottery }
    ensures { IfOk result (λ text. text.items ≡ text_of (ticket_lines bundle.now)) }
{
    let mut text = Vec::new(alloc);
    push_rows(
        &mut text,
        bundle.pool().volunteers(),
        bundle.answer().lottery(),
    )?;
    Ok(text)
}

/// Appends a line for each row of a lottery.
fn push_rows(
    text: &mut Vec<u8>,
    volunteers: &[Volunteer],
    lottery: &Lottery,
) -> Result<(), AllocError>
    requires agrees { TotalAgrees lottery.now }
    requires total { lottery.now.total ≤ 10 ^ 38 }
    requires rows { IsTrue (list_all (is_row (length volunteers.now)) lottery.now.rows) }
    ensures { OnOk result (text.new.items ≡ text.old.items ++ text_of (row_lines volunteers.now lottery.now)) }
{
    let mut first = 0;
    for (place, row) in lottery.rows().iter().enumerate() {
        let weight = row.weight().unsigned_abs();
        push_row(text, volunteers, first, place + 1, row)?;
        first += weight;
    }
    Ok(())
}

/// Appends the line of a row, whose first ticket is `first`. `number` is the panel's number.
fn push_row(
    text: &mut Vec<u8>,
    volunteers: &[Volunteer],
    first: u128,
    number: usize,
    row: &LotteryRow,
) -> Result<(), AllocError>
    requires tickets { first + row.now.weight ≤ 10 ^ 38 }
    requires members { IsTrue (list_all (λ i. nat_lt i (length volunteers.now)) row.now.panel) }
    requires some { 1 ≤ row.now.weight }
    ensures { OnOk result (text.new.items ≡ text.old.items ++ text_of (row_line volunteers.now first number row.now ∷ [])) }
{
    push_range(text, first, row.weight().unsigned_abs())?;
    push_number(text, number)?;
    push_members(text, volunteers, row.panel().members())?;
    end_line(text)
}

/// Appends the first and the last ticket of a range, or its only ticket.
fn push_range(text: &mut Vec<u8>, first: u128, weight: u128) -> Result<(), AllocError>
    requires some { 1 ≤ weight }
    requires tickets { first + weight ≤ 10 ^ 38 }
    ensures { OnOk result (text.new.items ≡ text.old.items ++ range_text first weight) }
{
    push_decimal(text, first)?;
    if weight == 1 {
        return Ok(());
    }
    text.push(b'-')?;
    push_decimal(text, first + weight - 1)
}

/// Appends the digits of a number.
fn push_decimal(text: &mut Vec<u8>, number: u128) -> Result<(), AllocError>
    ensures { OnOk result (text.new.items ≡ text.old.items ++ decimal number) }
{
    let mut digits = Buffer::new();
    text.extend_from_slice(digits.format(number).as_bytes())
}

/// Appends the ids of a panel's members, each after a TAB.
fn push_members(
    text: &mut Vec<u8>,
    volunteers: &[Volunteer],
    members: &[usize],
) -> Result<(), AllocError>
    requires { IsTrue (list_all (λ i. nat_lt i (length volunteers.now)) members.now) }
    ensures { OnOk result (text.new.items ≡ text.old.items ++ tabbed (map (λ i. (volunteer volunteers.now i).id) members.now)) }
{
    for number in members {
        push_field(text, volunteers[*number].id().as_bytes())?;
    }
    Ok(())
}
