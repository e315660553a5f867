//! Fractions and decimals as texts, and rounding to ten-thousandths.

ghost use Rattle.std.specs.Prelude.{◌≡◌, ◌<◌, ◌≤◌, ◌+◌, ◌*◌, ◌/◌, ◌%◌, ◌^◌, ◌↔◌, ◌++◌, string_bytes, IfOk, IsTrue, OnOk};
ghost use Rattle.std.specs.Ordering.{nat_cmp};
ghost use Rattle.frac128.specs.Fractions.{fraction_text as words_of_fraction, lowest_of};
ghost use Rattle.bundle_page.specs.Decimals.{fixed_point as words_of_fixed_point, last_digits, ten_thousandths as value_of_ten_thousandths};

use frac128::{compare, lowest};
use itoa::Buffer;
use std::alloc::{AllocError, Global};
use std::cmp::Ordering;

/// Returns the text of `num / den` in lowest terms. `num` is below 2^127, and `den` is from 1 to 2^127 - 1.
pub fn fraction_text(alloc: Global, num: u128, den: u128) -> Result<String, AllocError>
    requires num { num < 2 ^ 127 }
    requires some { 1 ≤ den }
    requires den { den < 2 ^ 127 }
    ensures { IfOk result (λ text. string_bytes text ≡ words_of_fraction (lowest_of num den)) }
{
    format!(in alloc; "{}", lowest(num as i128, den as i128))
}

/// Returns the text of `number / 10^places`, with `places` digits after the point. There are at most 38 places.
pub fn fixed_point(alloc: Global, places: usize, number: u128) -> Result<Vec<u8>, AllocError>
    requires { places ≤ 38 }
    ensures { IfOk result (λ text. text.items ≡ words_of_fixed_point places number) }
{
    let mut digits = Buffer::new();
    let mut text = Vec::from_slice(
        alloc,
        digits.format(number / power_of_ten(places)).as_bytes(),
    )?;
    text.push(b'.')?;
    push_last_digits(&mut text, places, number)?;
    Ok(text)
}

/// Appends the last `count` digits of a number.
pub(crate) fn push_last_digits(
    text: &mut Vec<u8>,
    count: usize,
    number: u128,
) -> Result<(), AllocError>
    requires { count ≤ 38 }
    ensures { OnOk result (text.new.items ≡ text.old.items ++ last_digits count number) }
{
    for place in 0..count {
        text.push(digit_at(number, count - 1 - place))?;
    }
    Ok(())
}

/// Returns the digit of a number at a place; the last digit is at place 0.
fn digit_at(number: u128, place: usize) -> u8
    requires { place ≤ 38 }
    ensures { result ≡ 48 + number / 10 ^ place % 10 }
{
    b'0' + (number / power_of_ten(place) % 10) as u8
}

/// Returns `10^exponent`. The exponent is at most 38.
pub fn power_of_ten(exponent: usize) -> u128
    requires { exponent ≤ 38 }
    ensures value { result ≡ 10 ^ exponent }
    ensures some { 1 ≤ result }
    ensures few { result ≤ 10 ^ 38 }
{
    10u128.pow(exponent as u32)
}

/// Returns `part / whole` in ten-thousandths, rounded to the nearest number, and up from a half. The part is at most the whole.
pub fn ten_thousandths(part: u128, whole: u128) -> u128
    requires within { part ≤ whole }
    requires some { 1 ≤ whole }
    requires few { whole < 2 ^ 127 }
    ensures value { result ≡ value_of_ten_thousandths part whole }
    ensures few { result ≤ 10000 }
{
    let mut low = 0;
    let mut high = 10_001;
    while low + 1 < high {
        let middle = (low + high) / 2;
        if is_reached(middle, part, whole) {
            low = middle;
        } else {
            high = middle;
        }
    }
    low
}

/// True if `part / whole`, rounded, has at least `count` ten-thousandths: that is, if `part / whole` is at least `count - 1/2` of them.
fn is_reached(count: u128, part: u128, whole: u128) -> bool
    requires from { 1 ≤ count }
    requires to { count ≤ 10001 }
    requires within { part ≤ whole }
    requires some { 1 ≤ whole }
    requires few { whole < 2 ^ 127 }
    ensures { IsTrue result ↔ (2 * (count * whole) ≤ 2 * 10000 * part + whole) }
{
    match compared(2 * count - 1, 20_000, part, whole) {
        Ordering::Greater => false,
        _ => true,
    }
}

/// Compares `an / ad` with `bn / bd`. All are below 2^127, and the denominators are at least 1.
fn compared(an: u128, ad: u128, bn: u128, bd: u128) -> Ordering
    requires an { an < 2 ^ 127 }
    requires ad { (1 ≤ ad) × (ad < 2 ^ 127) }
    requires bn { bn < 2 ^ 127 }
    requires bd { (1 ≤ bd) × (bd < 2 ^ 127) }
    ensures { result ≡ nat_cmp (an * bd) (bn * ad) }
{
    compare(an as i128, ad as i128, bn as i128, bd as i128)
}
