//! The answer to `Question::Dice`.

ghost use Rattle.std.specs.Prelude.{◌≡◌, ◌≤◌, ◌^◌, ◌++◌, ◌∷◌, [], IfOk, OnOk};
ghost use Rattle.define_draws.specs.Dice.{group_size as size_of_groups};
ghost use Rattle.define_lines.specs.Lines.{text_of};
ghost use Rattle.define_made_pools.specs.Summary.{number_line};
ghost use Rattle.command_questions.specs.Dice.{dice_lines, lines_for_tickets, refused_line};

use bundle_page::{fixed_point, fraction_text, power_of_ten};
use bundle_text::Bundle;
use itoa::Buffer;
use std::alloc::{AllocError, Global};
use text_lines::push_line;

/// Returns how many digits a group has, how many tickets there are, and which part of the groups isn't accepted.
pub(crate) fn dice_text(alloc: Global, bundle: &Bundle) -> Result<Vec<u8>, AllocError>
    ensures { IfOk result (λ text. text.items ≡ text_of (dice_lines bundle.now)) }
{
    text_for(alloc, bundle.answer().lottery().total().unsigned_abs())
}

/// Returns the text for a number of tickets, from 1 to 10^38.
fn text_for(alloc: Global, total: u128) -> Result<Vec<u8>, AllocError>
    requires some { 1 ≤ total }
    requires most { total ≤ 10 ^ 38 }
    ensures { IfOk result (λ text. text.items ≡ text_of (lines_for_tickets total)) }
{
    let size = group_size(total);
    let mut text = Vec::new(alloc);
    push_number(&mut text, b"digits", size as u128)?;
    push_number(&mut text, b"tickets", total)?;
    push_refused(alloc, &mut text, total, size)?;
    Ok(text)
}

/// Returns how many digits a group has.
fn group_size(total: u128) -> usize
    requires some { 1 ≤ total }
    requires most { total ≤ 10 ^ 38 }
    ensures size { result ≡ size_of_groups total }
    ensures few { result ≤ 38 }
{
    let mut size = 1;
    while power_of_ten(size) < total {
        size += 1;
    }
    size
}

/// Appends the line of a word and a number.
pub(crate) fn push_number(text: &mut Vec<u8>, word: &[u8], number: u128) -> Result<(), AllocError>
    ensures { OnOk result (text.new.items ≡ text.old.items ++ text_of (number_line word.now number ∷ [])) }
{
    let mut digits = Buffer::new();
    push_line(text, word, &[digits.format(number).as_bytes()])
}

/// Appends which part of the groups isn't accepted. `size` is how many digits a group has.
fn push_refused(
    alloc: Global,
    text: &mut Vec<u8>,
    total: u128,
    size: usize,
) -> Result<(), AllocError>
    requires some { 1 ≤ total }
    requires size { size ≡ size_of_groups total }
    requires few { size ≤ 38 }
    ensures { OnOk result (text.new.items ≡ text.old.items ++ text_of (refused_line total ∷ [])) }
{
    let groups = power_of_ten(size);
    let refused = groups - total * (groups / total);
    let part = fraction_text(alloc, refused, groups)?;
    let exact = fixed_point(alloc, size, refused)?;
    push_line(text, b"refused", &[part.as_bytes(), exact.as_slice()])
}
