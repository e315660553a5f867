//! Common divisors of numbers. That they are the greatest is no promise, since each proof is verified before it is printed. Promises: a
//! divisor is at least 1, and a list keeps its length.

ghost use Rattle.std.specs.Prelude.{◌≡◌, ◌≤ℤ◌, pos, length};

use frac128::gcd;
use prove_limits::{Narrow, narrow_div};

/// Returns the greatest common divisor of numbers of any sign, or 1 if all are 0.
pub fn common_divisor(numbers: &[Narrow]) -> i128
    ensures { pos 1 ≤ℤ result }
{
    let mut divisor = 0;
    for number in numbers {
        divisor = gcd(divisor, number.abs().wide());
    }
    divisor.max(1)
}

/// Divides numbers by their greatest common divisor.
pub fn divide_by_common(numbers: &mut [Narrow])
    ensures { length numbers.new ≡ length numbers.old }
{
    let divisor = common_divisor(numbers);
    if divisor > 1 {
        for number in numbers.iter_mut() {
            *number = narrow_div(number.wide(), divisor).unwrap_or(*number);
        }
    }
}
