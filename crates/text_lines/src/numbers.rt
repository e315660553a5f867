//! Reads fields as numbers in their one spelling: digits without a leading zero, with `-` before them if the number is below 0.

ghost use Rattle.std.specs.Prelude.{◌≡◌, ◌-◌, ◌^◌, bytes_eq};
ghost use Rattle.std.specs.Fmt.{decimal, signed_decimal};
ghost use Rattle.define_lines.specs.Numbers.{number_up_to, signed_up_to};

use itoa::Buffer;
use std::str;

/// Returns the number from 0 to `limit` that the field spells, or None if it spells none.
pub fn number_up_to(limit: usize, field: &[u8]) -> Option<usize>
    ensures { result ≡ number_up_to limit field.now }
{
    let Ok(text) = str::from_utf8(field) else {
        return None;
    };
    let Ok(number) = text.parse::<usize>() else {
        return None;
    };
    if number <= limit && is_spelled(number, field) {
        Some(number)
    } else {
        None
    }
}

/// True if the field is the decimal digits of `number`.
fn is_spelled(number: usize, field: &[u8]) -> bool
    ensures { result ≡ bytes_eq (decimal number) field.now }
{
    let mut digits = Buffer::new();
    digits.format(number).as_bytes() == field
}

/// Returns the whole number that the field spells, from -(2^127 - 1) to 2^127 - 1, or None if it spells none.
pub fn signed_number(field: &[u8]) -> Option<i128>
    ensures { result ≡ signed_up_to (2 ^ 127 - 1) field.now }
{
    let Ok(text) = str::from_utf8(field) else {
        return None;
    };
    let Ok(number) = text.parse::<i128>() else {
        return None;
    };
    if i128::MIN < number && is_spelled_signed(number, field) {
        Some(number)
    } else {
        None
    }
}

/// True if the field is the decimal digits of `number`, with `-` before them if it is below 0.
fn is_spelled_signed(number: i128, field: &[u8]) -> bool
    ensures { result ≡ bytes_eq (signed_decimal number) field.now }
{
    let mut digits = Buffer::new();
    digits.format(number).as_bytes() == field
}
