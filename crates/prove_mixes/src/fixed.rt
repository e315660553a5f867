//! Fixed-point numbers: whole numbers of units of 2^-46, below 2^17 by absolute value. They are advice only: what is printed is computed
//! exactly and verified. Products and quotients are rounded, and one that doesn't fit 64 bits becomes 2^63 - 1 units, or minus that.

/// How many binary digits are after the point.
pub(crate) const DIGITS: u32 = 46;

/// The number 1: 2^46 units.
pub const UNIT: i64 = 70_368_744_177_664;

/// Half a unit, added to a product before its further digits are cut off. So products are rounded to the nearest unit.
const HALF: i128 = 35_184_372_088_832;

/// Returns a number in 64 bits. One that doesn't fit becomes 2^63 - 1, or minus that.
#[inline(always)]
pub(crate) fn fit(number: i128) -> i64 {
    match i64::try_from(number) {
        Ok(small) => small,
        Err(_) => { if number < 0 { -i64::MAX } else { i64::MAX } }
    }
}

/// Returns the product of two fixed-point numbers, rounded to the nearest unit.
#[inline(always)]
pub(crate) fn product(x: i64, y: i64) -> i64 {
    let exact = i128::from(x).wrapping_mul(i128::from(y));
    fit(exact.wrapping_add(HALF) >> DIGITS)
}

/// Returns the quotient of two fixed-point numbers, rounded towards 0, or 0 if the divisor is 0.
pub(crate) fn quotient(x: i64, y: i64) -> i64 {
    let scaled = i128::from(x).wrapping_mul(i128::from(UNIT));
    fit(scaled.checked_div(i128::from(y)).unwrap_or(0))
}

/// Returns the quotient of two whole numbers in units of 2^-46, rounded towards 0, or 0 if the divisor `y` is 0. A quotient that doesn't
/// fit, from about 2^17 on, becomes 2^63 - 1 units, or minus that. If `x` is 2^81 or more by absolute value, the result means nothing.
pub fn fraction(x: i128, y: i128) -> i64 {
    let scaled = x.wrapping_mul(i128::from(UNIT));
    fit(scaled.checked_div(y).unwrap_or(0))
}

/// Returns the quotient of two whole numbers, rounded to the nearest whole number, halves upwards, or 0 if the divisor `y` is 0. If
/// `y` is below 0, or one of the two is 2^125 or more by absolute value, the result means nothing.
pub fn rounded(x: i128, y: i128) -> i128 {
    let numerator = x.wrapping_mul(2).wrapping_add(y);
    numerator.checked_div_euclid(y.wrapping_mul(2)).unwrap_or(0)
}

/// Returns the sum of numbers of `list`, each times a count. `entries` has the indices of these numbers, with the counts.
#[inline(always)]
pub(crate) fn weighed(entries: &[(usize, i64)], list: &[i64]) -> i128 {
    let mut sum: i128 = 0;
    for (place, count) in entries {
        let value = list.get(*place).copied().unwrap_or(0);
        sum = sum.wrapping_add(i128::from(value).wrapping_mul(i128::from(*count)));
    }
    sum
}

/// Returns the sum of the products of two lists of one length.
#[inline(always)]
pub(crate) fn dot(xs: &[i64], ys: &[i64]) -> i128 {
    let mut sum: i128 = 0;
    for place in 0..xs.len().min(ys.len()) {
        sum = sum.wrapping_add(i128::from(xs[place]).wrapping_mul(i128::from(ys[place])));
    }
    sum
}
