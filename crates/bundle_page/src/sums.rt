//! Sums of chances. A sum of counts over a total may pass 128 bits, so a sum is kept as a whole number and a rest, and its text is written
//! in two parts.

ghost use Rattle.std.specs.Prelude.{◌≡◌, ◌+◌, ◌*◌, ◌<◌, ◌≤◌, ◌^◌, length, slice_index, EachIndex, IfOk};
ghost use Rattle.std.specs.Fmt.{decimal};
ghost use Rattle.frac128.specs.Fractions.{fraction_text, lowest_of};
ghost use Rattle.bundle_page.specs.Decimals.{ten_thousandths as value_of_ten_thousandths};
ghost use Rattle.bundle_page.specs.Sums.{count_with};

use crate::decimals::{power_of_ten, push_last_digits, ten_thousandths};
use frac128::lowest;
use itoa::Buffer;
use pool_model::Volunteer;
use std::alloc::{AllocError, Global};

/// The sum of some counts: `whole` times the total, plus `rest`, which is less than the total.
#[derive(Clone, Copy, Debug)]
pub struct Sum {
    pub whole: u128,
    pub rest: u128,
}

/// Returns the sum of the counts of those who have the value `value_place` of the category `place`.
pub fn sum_with(
    volunteers: &[Volunteer],
    counts: &[u128],
    total: u128,
    place: usize,
    value_place: usize,
) -> Sum
    requires each { length counts.now ≡ length volunteers.now }
    requires few { length volunteers.now ≤ 4000 }
    requires within { EachIndex counts.now (λ i. slice_index counts.now i ≤ total) }
    requires some { 1 ≤ total }
    requires most { total ≤ 10 ^ 38 }
    ensures value { result.whole * total + result.rest ≡ count_with volunteers.now counts.now place value_place }
    ensures rest { result.rest < total }
    ensures few { result.whole ≤ 4000 }
{
    let mut sum = Sum { whole: 0, rest: 0 };
    for (i, volunteer) in volunteers.iter().enumerate() {
        if value_at(volunteer, place) == value_place {
            sum = with_count(sum, counts[i], total);
        }
    }
    sum
}

/// Returns the place of a volunteer's value in the category at `place`, or 0 if there is no such category.
fn value_at(volunteer: &Volunteer, place: usize) -> usize
    ensures { result ≡ slice_index volunteer.now.values place }
{
    volunteer.values().get(place).copied().unwrap_or(0)
}

/// Returns the sum with `count` added.
fn with_count(sum: Sum, count: u128, total: u128) -> Sum
    requires rest { sum.rest < total }
    requires few { sum.whole < 4000 }
    requires within { count ≤ total }
    requires most { total ≤ 10 ^ 38 }
    ensures value { result.whole * total + result.rest ≡ sum.whole * total + sum.rest + count }
    ensures rest { result.rest < total }
    ensures few { result.whole ≤ sum.whole + 1 }
{
    let rest = sum.rest + count;
    if rest < total {
        Sum {
            whole: sum.whole,
            rest,
        }
    } else {
        Sum {
            whole: sum.whole + 1,
            rest: rest - total,
        }
    }
}

/// Returns a sum of chances in ten-thousandths, rounded to the nearest number, and up from a half.
pub fn rounded_sum(sum: Sum, total: u128) -> u128
    requires rest { sum.rest < total }
    requires few { sum.whole ≤ 4000 }
    requires most { total ≤ 10 ^ 38 }
    ensures value { result ≡ value_of_ten_thousandths (sum.whole * total + sum.rest) total }
    ensures few { result ≤ 40010000 }
{
    sum.whole * 10_000 + ten_thousandths(sum.rest, total)
}

/// Returns the text of a sum of chances, in lowest terms.
pub fn sum_text(alloc: Global, sum: Sum, total: u128) -> Result<Vec<u8>, AllocError>
    requires rest { sum.rest < total }
    requires few { sum.whole ≤ 4000 }
    requires most { total ≤ 10 ^ 38 }
    ensures { IfOk result (λ text. text.items ≡ fraction_text (lowest_of (sum.whole * total + sum.rest) total)) }
{
    lowest_text(alloc, sum, total)
}

/// Returns the text that `sum_text` returns. It brings the rest to lowest terms, and adds the whole number.
fn lowest_text(alloc: Global, sum: Sum, total: u128) -> Result<Vec<u8>, AllocError>
    requires rest { sum.rest < total }
    requires few { sum.whole ≤ 4000 }
    requires most { total ≤ 10 ^ 38 }
    ensures { IfOk result (λ text. text.items ≡ fraction_text (record {
      num = sum.whole * (lowest_of sum.rest total).den + (lowest_of sum.rest total).num;
      den = (lowest_of sum.rest total).den;
    })) }
{
    let part = lowest(sum.rest as i128, total as i128);
    fraction_of(
        alloc,
        sum.whole,
        part.num().unsigned_abs(),
        part.den().unsigned_abs(),
    )
}

/// Returns the text of `whole + num / den` as one fraction.
fn fraction_of(alloc: Global, whole: u128, num: u128, den: u128) -> Result<Vec<u8>, AllocError>
    requires few { whole ≤ 4000 }
    requires num { num ≤ 10 ^ 38 }
    requires den { den ≤ 10 ^ 38 }
    ensures { IfOk result (λ text. text.items ≡ fraction_text (record { num = whole * den + num; den = den })) }
{
    let mut digits = Buffer::new();
    let mut text = numerator(alloc, whole, num, den)?;
    text.push(b'/')?;
    text.extend_from_slice(digits.format(den).as_bytes())?;
    Ok(text)
}

/// Returns the digits of `whole * den + num`. The number may pass 128 bits, so its last 19 digits are computed apart from the others.
fn numerator(alloc: Global, whole: u128, num: u128, den: u128) -> Result<Vec<u8>, AllocError>
    requires few { whole ≤ 4000 }
    requires num { num ≤ 10 ^ 38 }
    requires den { den ≤ 10 ^ 38 }
    ensures { IfOk result (λ text. text.items ≡ decimal (whole * den + num)) }
{
    let base = power_of_ten(19);
    let low = whole * (den % base) + num % base;
    let high = whole * (den / base) + num / base + low / base;
    wide_decimal(alloc, high, low % base)
}

/// Returns the digits of `high * 10^19 + low`.
fn wide_decimal(alloc: Global, high: u128, low: u128) -> Result<Vec<u8>, AllocError>
    requires low { low < 10 ^ 19 }
    requires high { high ≤ 10 ^ 30 }
    ensures { IfOk result (λ text. text.items ≡ decimal (high * 10 ^ 19 + low)) }
{
    let mut digits = Buffer::new();
    if high == 0 {
        return Vec::from_slice(alloc, digits.format(low).as_bytes());
    }
    let mut text = Vec::from_slice(alloc, digits.format(high).as_bytes())?;
    push_last_digits(&mut text, 19, low)?;
    Ok(text)
}
