//! Writes the page: its head, the words below the heading, the part about a draw if there is one, and the parts of the other modules.

ghost use Rattle.std.specs.Prelude.{◌≡◌, ◌≤◌, ◌^◌, ◌++◌, ◌∷◌, [], length, slice_index, EachIndex, IfOk, OnOk};
ghost use Rattle.define_lines.specs.Lines.{text_of};
ghost use Rattle.define_pools.specs.Lottery.{TotalAgrees};
ghost use Rattle.bundle_page.specs.Drawn.{seen_draw};
ghost use Rattle.bundle_page.specs.Page.{
  drawn_page_text,
  head_with,
  lead,
  lower_lines,
  page_text,
  page_with as words_of_page,
  plain_head as words_of_plain_head,
  round_head as words_of_round_head,
  text_of_counts,
};

use crate::categories::push_categories;
use crate::counts_of;
use crate::curve::{push_chances, push_curve};
use crate::drawn::drawn_part;
use crate::markup::{escaped, fill, filled};
use crate::sizes::{Sizes, sizes_of};
use crate::templates::{
    CLOSING, HEAD, LEAD, PLAIN_HEADING, PLAIN_TITLE, QUOTAS, ROUND_HEADING, TABLE,
};
use bundle_text::Bundle;
use itoa::Buffer;
use pool_model::Pool;
use sealed_draw::Draw;
use std::alloc::{AllocError, Global};

/// Returns the page about a bundle with this seal.
pub fn write_page(alloc: Global, bundle: &Bundle, seal: &[u8]) -> Result<Vec<u8>, AllocError>
    requires { TotalAgrees bundle.now.answer.lottery }
    ensures { IfOk result (λ text. text.items ≡ page_text bundle.now seal.now) }
{
    let head = plain_head(alloc, sizes_of(bundle.pool()))?;
    page_with(alloc, &head, bundle, seal, &[])
}

/// Returns the page about a bundle with this seal, and about the draw of these digits from it, in `tickets` tickets.
pub fn write_drawn_page(
    alloc: Global,
    bundle: &Bundle,
    seal: &[u8],
    digits: &[u8],
    tickets: u128,
    drawn: &Draw,
) -> Result<Vec<u8>, AllocError>
    requires { TotalAgrees bundle.now.answer.lottery }
    ensures { IfOk result (λ text. text.items ≡ drawn_page_text bundle.now seal.now digits.now tickets (seen_draw drawn.now)) }
{
    let head = plain_head(alloc, sizes_of(bundle.pool()))?;
    let part = drawn_part(alloc, bundle, seal, digits, tickets, drawn)?;
    page_with(alloc, &head, bundle, seal, &part)
}

/// Returns the head of a page that names no round.
fn plain_head(alloc: Global, sizes: Sizes) -> Result<Vec<u8>, AllocError>
    ensures { IfOk result (λ text. text.items ≡ words_of_plain_head sizes) }
{
    let (mut seats, mut volunteers) = (Buffer::new(), Buffer::new());
    let seats = seats.format(sizes.seats).as_bytes();
    let volunteers = volunteers.format(sizes.volunteers).as_bytes();
    let title = filled(alloc, PLAIN_TITLE, &[seats, volunteers])?;
    head(alloc, &title, PLAIN_HEADING)
}

/// Returns the head of the page of a round: the title of its assembly, and its number.
pub fn round_head(alloc: Global, title: &[u8], number: usize) -> Result<Vec<u8>, AllocError>
    ensures { IfOk result (λ text. text.items ≡ words_of_round_head title.now number) }
{
    let mut digits = Buffer::new();
    let title = escaped(alloc, title)?;
    let number = digits.format(number).as_bytes();
    let heading = filled(alloc, ROUND_HEADING, &[title.as_slice(), number])?;
    head(alloc, &heading, &heading)
}

/// Returns a head of this title and this heading, in HTML.
fn head(alloc: Global, title: &[u8], heading: &[u8]) -> Result<Vec<u8>, AllocError>
    ensures { IfOk result (λ text. text.items ≡ head_with title.now heading.now) }
{
    let mut text = Vec::new(alloc);
    fill(&mut text, HEAD, &[title, heading])?;
    Ok(text)
}

/// Returns the page about a bundle with this seal, with this head, and with this part about a draw, which may be empty.
pub fn page_with(
    alloc: Global,
    head: &[u8],
    bundle: &Bundle,
    seal: &[u8],
    drawn: &[u8],
) -> Result<Vec<u8>, AllocError>
    requires { TotalAgrees bundle.now.answer.lottery }
    ensures { IfOk result (λ text. text.items ≡ words_of_page head.now bundle.now seal.now drawn.now) }
{
    bundle.facts();
    let lottery = bundle.answer().lottery();
    let counts = counts_of(alloc, bundle.pool(), lottery)?;
    page_of_counts(
        alloc,
        head,
        bundle.pool(),
        &counts,
        lottery.total().unsigned_abs(),
        lottery.rows().len(),
        seal,
        drawn,
    )
}

/// Returns the page, made from the counts of the volunteers: `counts` has each volunteer's count.
fn page_of_counts(
    alloc: Global,
    head: &[u8],
    pool: &Pool,
    counts: &[u128],
    total: u128,
    panels: usize,
    seal: &[u8],
    drawn: &[u8],
) -> Result<Vec<u8>, AllocError>
    requires each { length counts.now ≡ length pool.now.volunteers }
    requires few { length pool.now.volunteers ≤ 4000 }
    requires within { EachIndex counts.now (λ i. slice_index counts.now i ≤ total) }
    requires some { 1 ≤ total }
    requires most { total ≤ 10 ^ 38 }
    ensures { IfOk result (λ text. text.items ≡ text_of_counts head.now pool.now counts.now total panels seal.now drawn.now) }
{
    let mut text = Vec::from_slice(alloc, head)?;
    push_lead(&mut text, sizes_of(pool), panels, total)?;
    text.extend_from_slice(drawn)?;
    push_lower(alloc, &mut text, pool, counts, total, seal)?;
    Ok(text)
}

/// Appends the words below the heading.
fn push_lead(text: &mut Vec<u8>, sizes: Sizes, panels: usize, total: u128) -> Result<(), AllocError>
    ensures { OnOk result (text.new.items ≡ text.old.items ++ text_of (lead sizes panels total ∷ [])) }
{
    let (mut volunteers, mut seats) = (Buffer::new(), Buffer::new());
    let (mut rows, mut tickets) = (Buffer::new(), Buffer::new());
    fill(
        text,
        LEAD,
        &[
            volunteers.format(sizes.volunteers).as_bytes(),
            seats.format(sizes.seats).as_bytes(),
            rows.format(panels).as_bytes(),
            tickets.format(total).as_bytes(),
        ],
    )
}

/// Appends the rest of the page, from the categories to the last line.
fn push_lower(
    alloc: Global,
    text: &mut Vec<u8>,
    pool: &Pool,
    counts: &[u128],
    total: u128,
    seal: &[u8],
) -> Result<(), AllocError>
    requires each { length counts.now ≡ length pool.now.volunteers }
    requires few { length pool.now.volunteers ≤ 4000 }
    requires within { EachIndex counts.now (λ i. slice_index counts.now i ≤ total) }
    requires some { 1 ≤ total }
    requires most { total ≤ 10 ^ 38 }
    ensures { OnOk result (text.new.items ≡ text.old.items ++ text_of (lower_lines pool.now counts.now total seal.now)) }
{
    fill(text, QUOTAS, &[])?;
    push_categories(alloc, text, pool, counts, total)?;
    push_curve(alloc, text, counts, total, sizes_of(pool))?;
    fill(text, TABLE, &[])?;
    push_chances(alloc, text, pool.volunteers(), counts, total)?;
    fill(text, CLOSING, &[seal])
}
