//! The part of the page about a draw: the digits and the ticket that they name, the members of its panel, and for each value how many of
//! them have it, beside its bounds.

ghost use Rattle.std.specs.Prelude.{◌≡◌, ◌++◌, ◌∷◌, [], map, slice_index, IfOk, OnOk};
ghost use Rattle.define_lines.specs.Lines.{text_of};
ghost use Rattle.define_pools.specs.Pool.{members_with as words_of_members, volunteer};
ghost use Rattle.bundle_page.specs.Markup.{escaped as words_of_escaped};
ghost use Rattle.bundle_page.specs.Drawn.{check_words, draw_words, drawn_category_lines, drawn_line, drawn_value_lines, member_line, seen_draw};
ghost use Rattle.bundle_page.specs.Page.{drawn_part as words_of_part};

use crate::markup::{escaped, fill};
use crate::shares::value_at;
use crate::templates::{
    CHECK, CHECK_SHORT, DRAWN, DRAWN_TABLE, DRAWN_VALUE, END_OF_DRAWN, MEMBER, MEMBERS,
};
use bundle_text::Bundle;
use itoa::Buffer;
use pool_model::{BoundedValue, Category, Name, Pool, Volunteer};
use sealed_draw::Draw;
use std::alloc::{AllocError, Global};

/// Returns the part about the draw of these digits from a bundle with this seal, in `tickets` tickets.
pub fn drawn_part(
    alloc: Global,
    bundle: &Bundle,
    seal: &[u8],
    digits: &[u8],
    tickets: u128,
    drawn: &Draw,
) -> Result<Vec<u8>, AllocError>
    ensures { IfOk result (λ text. text.items ≡ words_of_part bundle.now seal.now digits.now tickets (seen_draw drawn.now)) }
{
    let mut text = Vec::new(alloc);
    push_draw_words(&mut text, seal, digits, tickets, drawn)?;
    push_check_words(&mut text, bundle, tickets)?;
    fill(&mut text, MEMBERS, &[])?;
    push_members(
        alloc,
        &mut text,
        bundle.pool().volunteers(),
        drawn.panel.members(),
    )?;
    fill(&mut text, DRAWN_TABLE, &[])?;
    push_drawn_categories(alloc, &mut text, bundle.pool(), drawn.panel.members())?;
    fill(&mut text, END_OF_DRAWN, &[])?;
    Ok(text)
}

/// Appends the draw in words.
fn push_draw_words(
    text: &mut Vec<u8>,
    seal: &[u8],
    digits: &[u8],
    tickets: u128,
    drawn: &Draw,
) -> Result<(), AllocError>
    ensures { OnOk result (text.new.items ≡ text.old.items ++ text_of (draw_words seal.now digits.now tickets (seen_draw drawn.now) ∷ [])) }
{
    let (mut all, mut used, mut ticket) = (Buffer::new(), Buffer::new(), Buffer::new());
    fill(
        text,
        DRAWN,
        &[
            digits,
            all.format(tickets).as_bytes(),
            used.format(drawn.used).as_bytes(),
            ticket.format(drawn.ticket.unsigned_abs()).as_bytes(),
            seal,
        ],
    )
}

/// Appends how to check a draw from a bundle in `tickets` tickets.
fn push_check_words(text: &mut Vec<u8>, bundle: &Bundle, tickets: u128) -> Result<(), AllocError>
    ensures { OnOk result (text.new.items ≡ text.old.items ++ text_of (check_words bundle.now.answer.lottery.total tickets ∷ [])) }
{
    let total = bundle.answer().lottery().total().unsigned_abs();
    if tickets == total {
        return fill(text, CHECK, &[]);
    }
    let mut number = Buffer::new();
    fill(text, CHECK_SHORT, &[number.format(total).as_bytes()])
}

/// Appends a line for each member.
fn push_members(
    alloc: Global,
    text: &mut Vec<u8>,
    volunteers: &[Volunteer],
    panel: &[usize],
) -> Result<(), AllocError>
    ensures { OnOk result (text.new.items ≡ text.old.items ++ text_of (map (member_line volunteers.now) panel.now)) }
{
    for number in panel {
        push_member(alloc, text, volunteers, *number)?;
    }
    Ok(())
}

/// Appends the line of the member with this number.
fn push_member(
    alloc: Global,
    text: &mut Vec<u8>,
    volunteers: &[Volunteer],
    number: usize,
) -> Result<(), AllocError>
    ensures { OnOk result (text.new.items ≡ text.old.items ++ text_of (member_line volunteers.now number ∷ [])) }
{
    let id = escaped_id(alloc, volunteers, number)?;
    fill(text, MEMBER, &[id.as_slice()])
}

/// Returns the id of the volunteer with this number, escaped, or an empty text if there is no such volunteer.
fn escaped_id(alloc: Global, volunteers: &[Volunteer], number: usize) -> Result<Vec<u8>, AllocError>
    ensures { IfOk result (λ text. text.items ≡ words_of_escaped (volunteer volunteers.now number).id) }
{
    match volunteers.get(number) {
        Some(volunteer) => escaped(alloc, volunteer.id().as_bytes()),
        None => Ok(Vec::new(alloc)),
    }
}

/// Appends the rows of each category's values.
fn push_drawn_categories(
    alloc: Global,
    text: &mut Vec<u8>,
    pool: &Pool,
    panel: &[usize],
) -> Result<(), AllocError>
    ensures { OnOk result (text.new.items ≡ text.old.items ++ text_of (drawn_category_lines pool.now panel.now)) }
{
    for (place, category) in pool.categories().iter().enumerate() {
        push_drawn_values(alloc, text, pool.volunteers(), panel, place, category)?;
    }
    Ok(())
}

/// Appends the rows of the values of the category at `place`.
fn push_drawn_values(
    alloc: Global,
    text: &mut Vec<u8>,
    volunteers: &[Volunteer],
    panel: &[usize],
    place: usize,
    category: &Category,
) -> Result<(), AllocError>
    ensures { OnOk result (text.new.items ≡ text.old.items ++ text_of (drawn_value_lines volunteers.now panel.now place category.now)) }
{
    for (value_place, value) in category.values().iter().enumerate() {
        let members = members_with(volunteers, panel, place, value_place);
        push_drawn_value(alloc, text, category.name(), value, members)?;
    }
    Ok(())
}

/// Appends the row of a value; `members` is how many members of the drawn panel have it.
fn push_drawn_value(
    alloc: Global,
    text: &mut Vec<u8>,
    category: &Name,
    value: &BoundedValue,
    members: usize,
) -> Result<(), AllocError>
    ensures { OnOk result (text.new.items ≡ text.old.items ++ text_of (drawn_line category.now value.now members ∷ [])) }
{
    let category = escaped(alloc, category.as_bytes())?;
    let name = escaped(alloc, value.name().as_bytes())?;
    let (mut number, mut lower, mut upper) = (Buffer::new(), Buffer::new(), Buffer::new());
    fill(
        text,
        DRAWN_VALUE,
        &[
            category.as_slice(),
            name.as_slice(),
            number.format(members).as_bytes(),
            lower.format(value.lower()).as_bytes(),
            upper.format(value.upper()).as_bytes(),
        ],
    )
}

/// Returns how many members have the value at `value_place` of the category at `place`.
fn members_with(
    volunteers: &[Volunteer],
    panel: &[usize],
    place: usize,
    value_place: usize,
) -> usize
    ensures { result ≡ words_of_members volunteers.now panel.now place value_place }
{
    panel
        .iter()
        .filter(|number| value_of(volunteers, **number, place) == value_place)
        .count()
}

/// Returns the place of a volunteer's value in the category at `place`, or 0 if there is no volunteer with this number or no such category.
fn value_of(volunteers: &[Volunteer], number: usize, place: usize) -> usize
    ensures { result ≡ slice_index (volunteer volunteers.now number).values place }
{
    match volunteers.get(number) {
        Some(volunteer) => value_at(volunteer, place),
        None => 0,
    }
}
