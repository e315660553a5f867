//! Chances as fractions of narrow numbers. Promises: each call is exact.

ghost use Rattle.std.specs.Prelude.{◌≡◌, ◌↔◌, IsTrue, ◌≤ℤ◌, ◌<ℤ◌, ◌*ℤ◌, int_div, pos, IfErr, SomeIff};
ghost use Rattle.prove_limits.specs.Stops.{IsWideOrMemory};
ghost use Rattle.prove_limits.specs.Widths.{narrowed};

use prove_limits::{Narrow, Op, ProveStop, narrow_mul, times};
use std::marker::Model;

/// A chance as a fraction with a denominator of at least 1.
#[derive(Clone, Copy, Debug, PartialEq, Eq)]
pub struct Chance {
    num: Narrow,
    den: Narrow,
}

impl Model for Chance {
    ghost use Rattle.std.specs.Prelude.{pos, ◌≤ℤ◌};
    ghost use Rattle.prove_stages.specs.Chances.{Chance as Seen};

    ghost Value = { Seen };

    ghost view = { λ s. record { num = s.num; den = s.den } };

    ghost invariant = { λ s. pos 1 ≤ℤ s.den };

    ghost inverse = { λ f. record { num = f.num; den = f.den } };
}

impl Chance {
    /// The chance 0.
    pub(crate) const ZERO: Chance = Chance {
        num: Narrow::ZERO,
        den: Narrow::ONE,
    };

    /// The chance 1.
    pub(crate) const ONE: Chance = Chance {
        num: Narrow::ONE,
        den: Narrow::ONE,
    };

    /// Returns the fraction, or None exactly if the denominator is below 1.
    pub(crate) fn new(num: Narrow, den: Narrow) -> Option<Chance>
        ensures { SomeIff result (pos 1 ≤ℤ den) (record { num = num; den = den }) }
    {
        if den.get() >= 1 {
            Some(Chance { num, den })
        } else {
            None
        }
    }

    /// Returns the numerator.
    pub fn num(self) -> Narrow
        ensures { result ≡ self.num }
    {
        self.num
    }

    /// Returns the denominator.
    pub fn den(self) -> Narrow
        ensures value { result ≡ self.den }
        ensures positive { pos 1 ≤ℤ result }
    {
        self.den
    }

    /// Returns the fraction times `multiple`, which should be a multiple of its denominator.
    pub fn scaled(self, multiple: Narrow) -> Result<Narrow, ProveStop>
        ensures value { result ≡ narrowed Op.Mul self.num (int_div multiple self.den) }
        ensures stops { IfErr result IsWideOrMemory }
    {
        narrow_mul(self.num.wide(), quotient(multiple, self.den))
    }

    /// True if this chance is less than another one.
    pub(crate) fn is_below(self, other: Chance) -> bool
        ensures { IsTrue result ↔ ((self.num *ℤ other.den) <ℤ (other.num *ℤ self.den)) }
    {
        times(self.num, other.den) < times(other.num, self.den)
    }
}

/// Returns a quotient, rounded towards 0.
fn quotient(number: Narrow, divisor: Narrow) -> i128
    requires { pos 1 ≤ℤ divisor }
    ensures { result ≡ int_div number divisor }
{
    number.wide() / divisor.wide()
}
