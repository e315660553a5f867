//! Narrow numbers: whole numbers of at most 2^62 by absolute value. The product of two narrow numbers fits 128 bits, and so does the
//! difference of two of these products, so neither needs a test.

ghost use Rattle.std.specs.Prelude.{◌≡◌, ◌≤◌, ◌↔◌, IsTrue, pos, neg_ℤ, unsigned_abs, SomeIff};
ghost use Rattle.prove_limits.specs.Operations.{IsNarrow};

use std::marker::Model;
use std::ops::Neg;

/// A whole number of at most 2^62 by absolute value.
#[derive(Clone, Copy, Debug, PartialEq, Eq, PartialOrd, Ord)]
pub struct Narrow {
    value: i64,
}

impl Model for Narrow {
    ghost use Rattle.std.specs.Prelude.{ℤ};
    ghost use Rattle.prove_limits.specs.Operations.{IsNarrow};

    ghost Value = { ℤ };

    ghost view = { λ n. n.value };

    ghost invariant = { λ n. IsNarrow n.value };

    ghost inverse = { λ z. record { value = z } };
}

impl Narrow {
    /// The number 0.
    pub const ZERO: Narrow = Narrow { value: 0 };

    /// The number 1.
    pub const ONE: Narrow = Narrow { value: 1 };

    /// The greatest absolute value.
    pub const MOST: i64 = 4611686018427387904;

    /// The greatest number, 2^62.
    pub const GREATEST: Narrow = Narrow {
        value: 4611686018427387904,
    };

    /// Returns the number, or None exactly if its absolute value is above 2^62.
    #[inline]
    pub fn new(value: i64) -> Option<Narrow>
        ensures { SomeIff result (IsNarrow value) value }
    {
        if -Narrow::MOST <= value && value <= Narrow::MOST {
            Some(Narrow { value })
        } else {
            None
        }
    }

    /// Returns the number, or None exactly if its absolute value is above that of `most`.
    #[inline(always)]
    pub fn within(value: i64, most: Narrow) -> Option<Narrow>
        ensures { SomeIff result (unsigned_abs value ≤ unsigned_abs most) value }
    {
        if value.unsigned_abs() <= most.value.unsigned_abs() {
            Some(Narrow { value })
        } else {
            None
        }
    }

    /// Returns the number in 64 bits.
    #[inline(always)]
    pub fn get(self) -> i64
        ensures value { result ≡ self }
        ensures narrow { IsNarrow result }
    {
        self.value
    }

    /// Returns the number in 128 bits.
    #[inline(always)]
    pub fn wide(self) -> i128
        ensures value { result ≡ self }
        ensures narrow { IsNarrow result }
    {
        self.value as i128
    }

    /// True if the number is 0.
    #[inline(always)]
    pub fn is_zero(self) -> bool
        ensures { IsTrue result ↔ (self ≡ pos 0) }
    {
        self.value == 0
    }

    /// Returns the absolute value.
    #[inline]
    pub fn abs(self) -> Narrow
        ensures { result ≡ pos (unsigned_abs self) }
    {
        if self.value < 0 { -self } else { self }
    }
}

impl Neg for Narrow {
    type Output = Narrow;

    ghost neg_gives = { λ z minus. minus ≡ neg_ℤ z };

    #[inline]
    fn neg(self) -> Narrow {
        Narrow { value: -self.value }
    }
}

impl From<u32> for Narrow {
    ghost from_gives = { λ n z. z ≡ pos n };

    fn from(number: u32) -> Narrow {
        Narrow {
            value: number as i64,
        }
    }
}
