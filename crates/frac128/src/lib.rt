//! Exact fractions in 128 bits: greatest common divisors, least common multiples, lowest terms and comparison. No call allocates memory.
//!
//! Promises: `gcd`, `lcm`, `compare`, `lowest` and `Frac`, each by its meaning over whole numbers of any size. The functions without `pub`
//! are helpers.
#![tactic(auto)]

ghost use Rattle.std.specs.Prelude.{◌≡◌, ◌≤ℤ◌, ◌<ℤ◌, pos, unsigned_abs, Some, SomeIff, max, ◌*◌, ◌^◌, ◌<◌, ◌≤◌};
ghost use Rattle.std.specs.Ordering.{nat_cmp};
ghost use Rattle.frac128.specs.Divisors.{gcd_of, lcm_of, IsGreatestCommonDivisor, IsLeastCommonMultiple};
ghost use Rattle.frac128.specs.Fractions.{Fraction, IsLowest, lowest_of, fraction_text};

use std::cmp::Ordering;
use std::fmt;
use std::marker::Model;

/// Returns the greatest common divisor of `x` and `y`, both at least 0. That of 0 and 0 is 0.
pub fn gcd(x: i128, y: i128) -> i128
    requires x { pos 0 ≤ℤ x }
    requires y { pos 0 ≤ℤ y }
    ensures value { result ≡ pos (gcd_of (unsigned_abs x) (unsigned_abs y)) }
    ensures greatest { IsGreatestCommonDivisor (unsigned_abs x) (unsigned_abs y) (unsigned_abs result) }
{
    common_divisor(x.unsigned_abs(), y.unsigned_abs()) as i128
}

// Returns the greatest common divisor, by Euclid's algorithm. After the first turn `larger` is the larger number. Each remainder is less
// than half of it, so two turns at least halve it: numbers below 2^127 take at most 255 turns.
fn common_divisor(x: u128, y: u128) -> u128
    ensures value { result ≡ gcd_of x y }
    ensures small { result ≤ max x y }
{
    let (mut larger, mut smaller) = (x, y);
    while smaller != 0 {
        (larger, smaller) = (smaller, larger % smaller);
    }
    larger
}

/// Returns the least common multiple of `x` and `y` if it is at most `limit`, and `None` exactly if it is above `limit`, however large
/// it is. All three are at least 1.
pub fn lcm(x: i128, y: i128, limit: i128) -> Option<i128>
    requires x { pos 0 <ℤ x }
    requires y { pos 0 <ℤ y }
    requires limit { pos 0 <ℤ limit }
    ensures value { let least = lcm_of (unsigned_abs x) (unsigned_abs y) in
        SomeIff result (least ≤ unsigned_abs limit) (pos least) }
    ensures least { let least = lcm_of (unsigned_abs x) (unsigned_abs y) in
        IsLeastCommonMultiple (unsigned_abs x) (unsigned_abs y) least }
{
    let multiple = common_multiple(x.unsigned_abs(), y.unsigned_abs(), limit.unsigned_abs())?;
    Some(multiple as i128)
}

// Returns the least common multiple of `x` and `y`, or `None` if it is above `limit`. A division tests this before the product is
// formed.
fn common_multiple(x: u128, y: u128, limit: u128) -> Option<u128>
    requires { 0 < x }
    ensures { SomeIff result (lcm_of x y ≤ limit) (lcm_of x y) }
{
    let factor = x / common_divisor(x, y);
    if y <= limit / factor {
        Some(factor * y)
    } else {
        None
    }
}

/// Compares the fraction `an / ad` with `bn / bd`, exactly. `an` and `bn` are at least 0, `ad` and `bd` at least 1. No product is formed,
/// so the result is right for all numbers in these ranges, however large.
pub fn compare(an: i128, ad: i128, bn: i128, bd: i128) -> Ordering
    requires an { pos 0 ≤ℤ an }
    requires ad { pos 0 <ℤ ad }
    requires bn { pos 0 ≤ℤ bn }
    requires bd { pos 0 <ℤ bd }
    ensures { result ≡
        nat_cmp (unsigned_abs an * unsigned_abs bd) (unsigned_abs bn * unsigned_abs ad) }
{
    compare_quotients(
        an.unsigned_abs(),
        ad.unsigned_abs(),
        bn.unsigned_abs(),
        bd.unsigned_abs(),
    )
}

// Compares `an / ad` with `bn / bd` by Euclid's algorithm on both. If the quotients differ, they decide. Else the result is that of
// comparing the fractions of divisor over remainder, the other way round. Two turns at least halve each divisor, so divisors below 2^127
// take at most 255 turns.
fn compare_quotients(mut an: u128, mut ad: u128, mut bn: u128, mut bd: u128) -> Ordering
    requires ad { 0 < ad }
    requires bd { 0 < bd }
    ensures { result ≡ nat_cmp (an * bd) (bn * ad) }
{
    loop {
        let (a_quotient, b_quotient) = (an / ad, bn / bd);
        if a_quotient != b_quotient {
            return a_quotient.cmp(&b_quotient);
        }
        let (a_rest, b_rest) = (an % ad, bn % bd);
        if a_rest == 0 || b_rest == 0 {
            return a_rest.cmp(&b_rest);
        }
        (an, ad, bn, bd) = (bd, b_rest, ad, a_rest);
    }
}

/// A fraction of whole numbers in lowest terms: the numerator is at least 0, the denominator at least 1, and nothing above 1 divides both.
/// Prints as `num/den`.
#[derive(Clone, Copy, Debug, PartialEq, Eq)]
pub struct Frac {
    num: u128,
    den: u128,
}

impl Model for Frac {
    ghost Value = { Fraction };

    ghost view = { λ f. record { num = f.num; den = f.den } };

    ghost invariant = { λ f. (f.num < 2 ^ 127) × (f.den < 2 ^ 127) × IsLowest f.num f.den };

    ghost inverse = { λ f. record { num = f.num; den = f.den } };
}

impl Frac {
    /// Returns the numerator, at least 0.
    pub fn num(&self) -> i128
        ensures value { result ≡ pos self.now.num }
        ensures lowest { IsLowest self.now.num self.now.den }
    {
        self.num as i128
    }

    /// Returns the denominator, at least 1.
    pub fn den(&self) -> i128
        ensures value { result ≡ pos self.now.den }
        ensures lowest { IsLowest self.now.num self.now.den }
    {
        self.den as i128
    }
}

impl fmt::Display for Frac {
    ghost output = { λ f. Some (fraction_text f) };

    fn fmt<W: fmt::Write>(&self, f: &mut fmt::Formatter<W>) -> fmt::Result {
        write!(f, "{}/{}", self.num, self.den)
    }
}

/// Returns the fraction `num / den` in lowest terms, for a `num` of at least 0 and a `den` of at least 1.
pub fn lowest(num: i128, den: i128) -> Frac
    requires num { pos 0 ≤ℤ num }
    requires den { pos 0 <ℤ den }
    ensures value { result ≡ lowest_of (unsigned_abs num) (unsigned_abs den) }
    ensures same { unsigned_abs num * result.den ≡ result.num * unsigned_abs den }
    ensures lowest { IsLowest result.num result.den }
{
    let (num, den) = (num.unsigned_abs(), den.unsigned_abs());
    let divisor = common_divisor(num, den);
    Frac {
        num: num / divisor,
        den: den / divisor,
    }
}
