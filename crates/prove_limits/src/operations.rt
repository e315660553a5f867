//! Exact operations on whole numbers that stop if the result is too wide.

ghost use Rattle.std.specs.Prelude.{◌≡◌, ◌≤◌, ◌^◌, pos, ◌*ℤ◌, ◌≢◌, unsigned_abs, IfOk, IfErr, SomeIff, FitsSigned};
ghost use Rattle.std.specs.Int.{w128};
ghost use Rattle.prove_limits.specs.Operations.{outcome, IsNarrow};
ghost use Rattle.prove_limits.specs.Stops.{IsWideOrMemory};
ghost use Rattle.prove_limits.specs.Widths.{narrowed, IsWidened};

use crate::narrow::Narrow;
use crate::passes::{Op, Pass};
use crate::stops::ProveStop;

/// Returns the product of two narrow numbers. It always fits 128 bits.
#[inline(always)]
pub fn times(x: Narrow, y: Narrow) -> i128
    ensures value { result ≡ x *ℤ y }
    ensures small { unsigned_abs result ≤ 2 ^ 124 }
{
    x.wide() * y.wide()
}

// Returns the result of an operation as a narrow number, or the stop that names the operation. `made` is None if the result does not fit
// 128 bits.
#[inline]
fn narrowed(op: Op, x: i128, y: i128, made: Option<i128>) -> Result<Narrow, ProveStop>
    requires { SomeIff made (FitsSigned w128 (outcome op x y)) (outcome op x y) }
    ensures value { result ≡ narrowed op x y }
    ensures narrow { IfOk result IsNarrow }
    ensures stops { IfErr result IsWideOrMemory }
{
    match made.and_then(narrow_of) {
        Some(number) => Ok(number),
        None => Err(ProveStop::Wide(Pass::new(op, x, y))),
    }
}

/// Returns the sum. Stops exactly if its absolute value is above 2^62.
pub fn narrow_add(x: i128, y: i128) -> Result<Narrow, ProveStop>
    ensures value { result ≡ narrowed Op.Add x y }
    ensures narrow { IfOk result IsNarrow }
    ensures stops { IfErr result IsWideOrMemory }
{
    narrowed(Op::Add, x, y, x.checked_add(y))
}

/// Returns `x - y`. Stops exactly if its absolute value is above 2^62.
pub fn narrow_sub(x: i128, y: i128) -> Result<Narrow, ProveStop>
    ensures value { result ≡ narrowed Op.Sub x y }
    ensures narrow { IfOk result IsNarrow }
    ensures stops { IfErr result IsWideOrMemory }
{
    narrowed(Op::Sub, x, y, x.checked_sub(y))
}

/// Returns the product. Stops exactly if its absolute value is above 2^62.
pub fn narrow_mul(x: i128, y: i128) -> Result<Narrow, ProveStop>
    ensures value { result ≡ narrowed Op.Mul x y }
    ensures narrow { IfOk result IsNarrow }
    ensures stops { IfErr result IsWideOrMemory }
{
    narrowed(Op::Mul, x, y, x.checked_mul(y))
}

/// Returns `x / y`, rounded towards 0. Stops exactly if its absolute value is above 2^62.
pub fn narrow_div(x: i128, y: i128) -> Result<Narrow, ProveStop>
    requires { y ≢ pos 0 }
    ensures value { result ≡ narrowed Op.Div x y }
    ensures narrow { IfOk result IsNarrow }
    ensures stops { IfErr result IsWideOrMemory }
{
    narrowed(Op::Div, x, y, x.checked_div(y))
}

// Returns the result of an operation, or the stop that names the operation. `made` is None if the result does not fit 128 bits.
#[inline]
fn widened(op: Op, x: i128, y: i128, made: Option<i128>) -> Result<i128, ProveStop>
    requires { SomeIff made (FitsSigned w128 (outcome op x y)) (outcome op x y) }
    ensures value { IsWidened op x y result }
    ensures stops { IfErr result IsWideOrMemory }
{
    match made {
        Some(number) => Ok(number),
        None => Err(ProveStop::Wide(Pass::new(op, x, y))),
    }
}

/// Returns the sum. Stops exactly if it does not fit 128 bits.
pub fn wide_add(x: i128, y: i128) -> Result<i128, ProveStop>
    ensures value { IsWidened Op.Add x y result }
    ensures stops { IfErr result IsWideOrMemory }
{
    widened(Op::Add, x, y, x.checked_add(y))
}

/// Returns `x - y`. Stops exactly if it does not fit 128 bits.
pub fn wide_sub(x: i128, y: i128) -> Result<i128, ProveStop>
    ensures value { IsWidened Op.Sub x y result }
    ensures stops { IfErr result IsWideOrMemory }
{
    widened(Op::Sub, x, y, x.checked_sub(y))
}

/// Returns the product. Stops exactly if it does not fit 128 bits.
pub fn wide_mul(x: i128, y: i128) -> Result<i128, ProveStop>
    ensures value { IsWidened Op.Mul x y result }
    ensures stops { IfErr result IsWideOrMemory }
{
    widened(Op::Mul, x, y, x.checked_mul(y))
}

// Returns the number as a narrow one, or None if it is too wide.
#[inline]
fn narrow_of(number: i128) -> Option<Narrow>
    ensures { SomeIff result (unsigned_abs number ≤ 2 ^ 62) number }
{
    match i64::try_from(number) {
        Ok(value) => Narrow::new(value),
        Err(_) => None,
    }
}
