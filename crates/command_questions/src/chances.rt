//! The answer to `Question::Chances`.

ghost use Rattle.std.specs.Prelude.{◌≡◌, ◌==◌, ◌+◌, ◌*◌, ◌<◌, ◌≤◌, ◌^◌, ◌++◌, ◌∷◌, [], count_by, length, slice_index, EachIndex, IfOk, OnOk};
ghost use Rattle.define_lines.specs.Lines.{text_of};
ghost use Rattle.define_pools.specs.Lottery.{TotalAgrees};
ghost use Rattle.command_questions.specs.Chances.{chance_line, chance_lines, end_lines, lines_of_chances, lines_of_counts, number_line_of, number_with as words_of_number, sum_line, sum_lines, value_lines};

use crate::dice::push_number;
use bundle_page::{
    Sum, counts_of, fixed_point, fraction_text, greatest, least, sum_text, sum_with,
    ten_thousandths,
};
use bundle_text::Bundle;
use itoa::Buffer;
use pool_model::{BoundedValue, Category, Name, Pool, Volunteer};
use std::alloc::{AllocError, Global};
use text_lines::push_line;

/// Returns each volunteer's chance, the sum of the chances for each value, and the least and the greatest chance.
pub(crate) fn chances_text(alloc: Global, bundle: &Bundle) -> Result<Vec<u8>, AllocError>
    requires { TotalAgrees bundle.now.answer.lottery }
    ensures { IfOk result (λ text. text.items ≡ text_of (lines_of_chances bundle.now)) }
{
    bundle.facts();
    let lottery = bundle.answer().lottery();
    let counts = counts_of(alloc, bundle.pool(), lottery)?;
    text_of_counts(
        alloc,
        bundle.pool(),
        &counts,
        lottery.total().unsigned_abs(),
    )
}

/// Returns the text, made from the counts of the volunteers: `counts` has each volunteer's count.
fn text_of_counts(
    alloc: Global,
    pool: &Pool,
    counts: &[u128],
    total: u128,
) -> Result<Vec<u8>, AllocError>
    requires each { length counts.now ≡ length pool.now.volunteers }
    requires few { length pool.now.volunteers ≤ 4000 }
    requires within { EachIndex counts.now (λ i. slice_index counts.now i ≤ total) }
    requires some { 1 ≤ total }
    requires most { total ≤ 10 ^ 38 }
    ensures { IfOk result (λ text. text.items ≡ text_of (lines_of_counts pool.now counts.now total)) }
{
    let mut text = Vec::new(alloc);
    push_chances(alloc, &mut text, pool.volunteers(), counts, total)?;
    push_sums(alloc, &mut text, pool, counts, total)?;
    push_ends(alloc, &mut text, counts, total)?;
    Ok(text)
}

/// Appends each volunteer's chance.
fn push_chances(
    alloc: Global,
    text: &mut Vec<u8>,
    volunteers: &[Volunteer],
    counts: &[u128],
    total: u128,
) -> Result<(), AllocError>
    requires each { length counts.now ≡ length volunteers.now }
    requires within { EachIndex counts.now (λ i. slice_index counts.now i ≤ total) }
    requires some { 1 ≤ total }
    requires most { total ≤ 10 ^ 38 }
    ensures { OnOk result (text.new.items ≡ text.old.items ++ text_of (chance_lines volunteers.now counts.now total)) }
{
    for (i, volunteer) in volunteers.iter().enumerate() {
        push_chance(alloc, text, volunteer.id(), counts[i], total)?;
    }
    Ok(())
}

/// Appends a volunteer's chance, in lowest terms and rounded.
fn push_chance(
    alloc: Global,
    text: &mut Vec<u8>,
    id: &Name,
    count: u128,
    total: u128,
) -> Result<(), AllocError>
    requires within { count ≤ total }
    requires some { 1 ≤ total }
    requires most { total ≤ 10 ^ 38 }
    ensures { OnOk result (text.new.items ≡ text.old.items ++ text_of (chance_line id.now count total ∷ [])) }
{
    let chance = fraction_text(alloc, count, total)?;
    let rounded = fixed_point(alloc, 4, ten_thousandths(count, total))?;
    push_line(
        text,
        b"chance",
        &[id.as_bytes(), chance.as_bytes(), rounded.as_slice()],
    )
}

/// Appends the sum of the chances for each value.
fn push_sums(
    alloc: Global,
    text: &mut Vec<u8>,
    pool: &Pool,
    counts: &[u128],
    total: u128,
) -> Result<(), AllocError>
    requires each { length counts.now ≡ length pool.now.volunteers }
    requires few { length pool.now.volunteers ≤ 4000 }
    requires within { EachIndex counts.now (λ i. slice_index counts.now i ≤ total) }
    requires some { 1 ≤ total }
    requires most { total ≤ 10 ^ 38 }
    ensures { OnOk result (text.new.items ≡ text.old.items ++ text_of (sum_lines pool.now counts.now total)) }
{
    for (place, category) in pool.categories().iter().enumerate() {
        push_values(
            alloc,
            text,
            pool.volunteers(),
            counts,
            total,
            place,
            category,
        )?;
    }
    Ok(())
}

/// Appends the sums for the values of the category at `place`.
fn push_values(
    alloc: Global,
    text: &mut Vec<u8>,
    volunteers: &[Volunteer],
    counts: &[u128],
    total: u128,
    place: usize,
    category: &Category,
) -> Result<(), AllocError>
    requires each { length counts.now ≡ length volunteers.now }
    requires few { length volunteers.now ≤ 4000 }
    requires within { EachIndex counts.now (λ i. slice_index counts.now i ≤ total) }
    requires some { 1 ≤ total }
    requires most { total ≤ 10 ^ 38 }
    ensures { OnOk result (text.new.items ≡ text.old.items ++ text_of (value_lines volunteers.now counts.now total place category.now)) }
{
    for (value_place, value) in category.values().iter().enumerate() {
        let sum = sum_with(volunteers, counts, total, place, value_place);
        push_sum(alloc, text, category.name(), value, sum, total)?;
    }
    Ok(())
}

/// Appends the line of a value with this sum.
fn push_sum(
    alloc: Global,
    text: &mut Vec<u8>,
    category: &Name,
    value: &BoundedValue,
    sum: Sum,
    total: u128,
) -> Result<(), AllocError>
    requires rest { sum.rest < total }
    requires few { sum.whole ≤ 4000 }
    requires most { total ≤ 10 ^ 38 }
    ensures { OnOk result (text.new.items ≡ text.old.items
        ++ text_of (sum_line category.now value.now (sum.whole * total + sum.rest) total ∷ [])) }
{
    let chance = sum_text(alloc, sum, total)?;
    let (mut lower, mut upper) = (Buffer::new(), Buffer::new());
    push_line(
        text,
        b"sum",
        &[
            category.as_bytes(),
            value.name().as_bytes(),
            lower.format(value.lower()).as_bytes(),
            upper.format(value.upper()).as_bytes(),
            chance.as_slice(),
        ],
    )
}

/// Appends how many are certain to be chosen, how many never are, and the least and the greatest chance.
fn push_ends(
    alloc: Global,
    text: &mut Vec<u8>,
    counts: &[u128],
    total: u128,
) -> Result<(), AllocError>
    requires within { EachIndex counts.now (λ i. slice_index counts.now i ≤ total) }
    requires some { 1 ≤ total }
    requires most { total ≤ 10 ^ 38 }
    ensures { OnOk result (text.new.items ≡ text.old.items ++ text_of (end_lines counts.now total)) }
{
    push_number(text, b"certain", number_with(counts, total) as u128)?;
    push_number(text, b"never", number_with(counts, 0) as u128)?;
    push_number_of(alloc, text, b"least", counts, total, least(counts, total))?;
    push_number_of(
        alloc,
        text,
        b"greatest",
        counts,
        total,
        greatest(counts, total),
    )
}

/// Appends a word, the chance for this count, and how many have it.
fn push_number_of(
    alloc: Global,
    text: &mut Vec<u8>,
    word: &[u8],
    counts: &[u128],
    total: u128,
    count: u128,
) -> Result<(), AllocError>
    requires within { count ≤ total }
    requires some { 1 ≤ total }
    requires most { total ≤ 10 ^ 38 }
    ensures { OnOk result (text.new.items ≡ text.old.items ++ text_of (number_line_of word.now counts.now total count ∷ [])) }
{
    let chance = fraction_text(alloc, count, total)?;
    let mut digits = Buffer::new();
    push_line(
        text,
        word,
        &[
            chance.as_bytes(),
            digits.format(number_with(counts, count)).as_bytes(),
        ],
    )
}

/// Returns how many have this count.
fn number_with(counts: &[u128], count: u128) -> usize
    ensures { result ≡ words_of_number counts.now count }
{
    counts.iter().filter(|other| **other == count).count()
}
