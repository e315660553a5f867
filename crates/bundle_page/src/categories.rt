//! The part of the page about the categories: for each value its numbers, and bars of them.

ghost use Rattle.std.specs.Prelude.{◌≡◌, ◌≤◌, ◌^◌, ◌++◌, ◌∷◌, [], length, slice_index, EachIndex, OnOk};
ghost use Rattle.define_lines.specs.Lines.{text_of};
ghost use Rattle.bundle_page.specs.Page.{category_lines, category_parts, numbers_part, shapes_part, value_lines, value_parts, words_part};

use crate::fixed_point;
use crate::markup::{escaped, fill};
use crate::shares::{Share, share_of};
use crate::sizes::{Sizes, sizes_of};
use crate::templates::{CATEGORY, END_OF_CATEGORY, NUMBERS, SHAPES, WORDS};
use itoa::Buffer;
use pool_model::{Category, Name, Pool};
use std::alloc::{AllocError, Global};

/// Appends the part of each category.
pub(crate) fn push_categories(
    alloc: Global,
    text: &mut Vec<u8>,
    pool: &Pool,
    counts: &[u128],
    total: u128,
) -> Result<(), AllocError>
    requires each { length counts.now ≡ length pool.now.volunteers }
    requires few { length pool.now.volunteers ≤ 4000 }
    requires within { EachIndex counts.now (λ i. slice_index counts.now i ≤ total) }
    requires some { 1 ≤ total }
    requires most { total ≤ 10 ^ 38 }
    ensures { OnOk result (text.new.items ≡ text.old.items ++ text_of (category_lines pool.now counts.now total)) }
{
    for (place, category) in pool.categories().iter().enumerate() {
        push_category(alloc, text, pool, counts, total, place, category)?;
    }
    Ok(())
}

/// Appends the part of the category at `place`.
fn push_category(
    alloc: Global,
    text: &mut Vec<u8>,
    pool: &Pool,
    counts: &[u128],
    total: u128,
    place: usize,
    category: &Category,
) -> Result<(), AllocError>
    requires each { length counts.now ≡ length pool.now.volunteers }
    requires few { length pool.now.volunteers ≤ 4000 }
    requires within { EachIndex counts.now (λ i. slice_index counts.now i ≤ total) }
    requires some { 1 ≤ total }
    requires most { total ≤ 10 ^ 38 }
    ensures { OnOk result (text.new.items ≡ text.old.items ++ text_of (category_parts pool.now counts.now total place category.now)) }
{
    let name = escaped(alloc, category.name().as_bytes())?;
    fill(text, CATEGORY, &[name.as_slice()])?;
    push_values(alloc, text, pool, counts, total, place, category)?;
    fill(text, END_OF_CATEGORY, &[])
}

/// Appends the part of each value of the category at `place`.
fn push_values(
    alloc: Global,
    text: &mut Vec<u8>,
    pool: &Pool,
    counts: &[u128],
    total: u128,
    place: usize,
    category: &Category,
) -> Result<(), AllocError>
    requires each { length counts.now ≡ length pool.now.volunteers }
    requires few { length pool.now.volunteers ≤ 4000 }
    requires within { EachIndex counts.now (λ i. slice_index counts.now i ≤ total) }
    requires some { 1 ≤ total }
    requires most { total ≤ 10 ^ 38 }
    ensures { OnOk result (text.new.items ≡ text.old.items ++ text_of (value_lines pool.now counts.now total place category.now)) }
{
    let sizes = sizes_of(pool);
    for (value_place, value) in category.values().iter().enumerate() {
        let share = share_of(pool.volunteers(), counts, total, place, value_place, value);
        push_value(alloc, text, value.name(), share, sizes)?;
    }
    Ok(())
}

/// Appends the part of a value with these numbers.
fn push_value(
    alloc: Global,
    text: &mut Vec<u8>,
    name: &Name,
    share: Share,
    sizes: Sizes,
) -> Result<(), AllocError>
    requires { share.expected ≤ 40010000 }
    ensures { OnOk result (text.new.items ≡ text.old.items ++ text_of (value_parts name.now share sizes)) }
{
    let name = escaped(alloc, name.as_bytes())?;
    let expected = fixed_point(alloc, 4, share.expected)?;
    push_numbers(text, &name, &expected, share)?;
    push_words(text, &name, &expected, share, sizes)?;
    push_shapes(text, share, sizes)
}

/// Appends the numbers of a value. The name is escaped.
fn push_numbers(
    text: &mut Vec<u8>,
    name: &[u8],
    expected: &[u8],
    share: Share,
) -> Result<(), AllocError>
    ensures { OnOk result (text.new.items ≡ text.old.items ++ text_of (numbers_part name.now expected.now share ∷ [])) }
{
    let (mut volunteers, mut lower, mut upper) = (Buffer::new(), Buffer::new(), Buffer::new());
    fill(
        text,
        NUMBERS,
        &[
            name,
            volunteers.format(share.volunteers).as_bytes(),
            lower.format(share.lower).as_bytes(),
            upper.format(share.upper).as_bytes(),
            expected,
        ],
    )
}

/// Appends what the picture of a value shows, in words. The name is escaped.
fn push_words(
    text: &mut Vec<u8>,
    name: &[u8],
    expected: &[u8],
    share: Share,
    sizes: Sizes,
) -> Result<(), AllocError>
    ensures { OnOk result (text.new.items ≡ text.old.items ++ text_of (words_part name.now expected.now share sizes ∷ [])) }
{
    let (mut width, mut all, mut seats) = (Buffer::new(), Buffer::new(), Buffer::new());
    let (mut volunteers, mut lower, mut upper) = (Buffer::new(), Buffer::new(), Buffer::new());
    fill(
        text,
        WORDS,
        &[
            width
                .format(sizes.present() as u128 * sizes.seats as u128)
                .as_bytes(),
            name,
            volunteers.format(share.volunteers).as_bytes(),
            all.format(sizes.present()).as_bytes(),
            lower.format(share.lower).as_bytes(),
            upper.format(share.upper).as_bytes(),
            seats.format(sizes.seats).as_bytes(),
            expected,
        ],
    )
}

/// Appends the bars of the picture of a value. A volunteer is as wide as there are seats, and a seat as wide as there are volunteers who
/// aren't gone, so that all of these are as wide as all seats.
fn push_shapes(text: &mut Vec<u8>, share: Share, sizes: Sizes) -> Result<(), AllocError>
    requires { share.expected ≤ 40010000 }
    ensures { OnOk result (text.new.items ≡ text.old.items ++ text_of (shapes_part share sizes ∷ [])) }
{
    let (volunteer, seat) = (sizes.seats as u128, sizes.present() as u128);
    let (mut pool, mut from) = (Buffer::new(), Buffer::new());
    let (mut width, mut expected) = (Buffer::new(), Buffer::new());
    fill(
        text,
        SHAPES,
        &[
            pool.format(share.volunteers as u128 * volunteer).as_bytes(),
            from.format(share.lower as u128 * seat).as_bytes(),
            width
                .format(share.upper.saturating_sub(share.lower) as u128 * seat)
                .as_bytes(),
            expected.format(share.expected * seat / 10_000).as_bytes(),
        ],
    )
}
