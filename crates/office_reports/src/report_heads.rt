//! The lines that each report begins with, and those of the lottery and of the draw. A helper of `reports`.

ghost use Rattle.std.specs.Prelude.{◌≡◌, ◌≤ℤ◌, ◌++◌, ◌∷◌, [], length, map, pos, unsigned_abs, OnOk};
ghost use Rattle.define_lines.specs.Lines.{text_of};
ghost use Rattle.define_bundles.specs.BundleText.{total_line};
ghost use Rattle.define_draws.specs.Lines.{member_ids};
ghost use Rattle.define_made_pools.specs.Summary.{number_line};
ghost use Rattle.define_offices.specs.Report.{draw_lines, head_lines, lottery_lines, member_line};
ghost use Rattle.office_reports.specs.Groups.{AreBelow};

use define_offices::Phase;
use itoa::Buffer;
use office_tables::phase_name;
use pool_model::{Lottery, Name, Panel, Pool};
use sealed_draw::push_ticket;
use std::alloc::AllocError;
use text_lines::{end_line, push_line, push_signed};

/// Appends the lines that each report begins with.
pub(crate) fn push_head(
    text: &mut Vec<u8>,
    number: usize,
    title: &Name,
    phase: Phase,
    pool: &Pool,
) -> Result<(), AllocError>
    ensures { OnOk result (text.new.items ≡ text.old.items ++ text_of (head_lines number title.now phase pool.now)) }
{
    push_number_line(text, b"report", number)?;
    push_line(text, b"title", &[title.as_bytes()])?;
    push_line(text, b"phase", &[phase_name(phase).as_bytes()])?;
    push_number_line(text, b"size", pool.size())?;
    push_number_line(text, b"volunteers", pool.volunteers().len())
}

/// Appends the line of a word and a number.
pub(crate) fn push_number_line(
    text: &mut Vec<u8>,
    word: &[u8],
    number: usize,
) -> Result<(), AllocError>
    ensures { OnOk result (text.new.items ≡ text.old.items ++ text_of (number_line word.now number ∷ [])) }
{
    let mut digits = Buffer::new();
    push_line(text, word, &[digits.format(number).as_bytes()])
}

/// Appends how many panels a lottery has, and its total.
pub(crate) fn push_lottery(text: &mut Vec<u8>, lottery: &Lottery) -> Result<(), AllocError>
    ensures { OnOk result (text.new.items ≡ text.old.items ++ text_of (lottery_lines lottery.now)) }
{
    push_number_line(text, b"panels", lottery.rows().len())?;
    push_total(text, lottery)
}

fn push_total(text: &mut Vec<u8>, lottery: &Lottery) -> Result<(), AllocError>
    ensures { OnOk result (text.new.items ≡ text.old.items ++ text_of (total_line lottery.now.total ∷ [])) }
{
    text.extend_from_slice(b"total")?;
    push_signed(text, lottery.total())?;
    end_line(text)
}

/// Appends the digits of the dice, the ticket with how many digits were read, and the members of the panel.
pub(crate) fn push_draw(
    text: &mut Vec<u8>,
    pool: &Pool,
    digits: &[u8],
    ticket: i128,
    used: usize,
    panel: &Panel,
) -> Result<(), AllocError>
    requires ticket { pos 0 ≤ℤ ticket }
    requires panel { AreBelow (length pool.now.volunteers) panel.now }
    ensures { OnOk result (text.new.items ≡ text.old.items
        ++ text_of (draw_lines pool.now digits.now (record { ticket = unsigned_abs ticket; used = used; panel = panel.now }))) }
{
    push_line(text, b"digits", &[digits])?;
    push_ticket(text, ticket, used)?;
    push_members(text, pool, panel)
}

/// Appends a line for each member of a panel.
fn push_members(text: &mut Vec<u8>, pool: &Pool, panel: &Panel) -> Result<(), AllocError>
    requires { AreBelow (length pool.now.volunteers) panel.now }
    ensures { OnOk result (text.new.items ≡ text.old.items ++ text_of (map member_line (member_ids pool.now panel.now))) }
{
    for number in panel.members() {
        push_line(
            text,
            b"member",
            &[pool.volunteers()[*number].id().as_bytes()],
        )?;
    }
    Ok(())
}
