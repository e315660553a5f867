//! Spans of whole numbers, which are never empty.

ghost use Rattle.std.specs.Prelude.{◌≡◌, ◌↔◌, IsTrue, ◌≤ℤ◌, ◌<ℤ◌, SomeIff};
ghost use Rattle.std.specs.Int.{int_max};

use crate::narrow::Narrow;
use std::marker::Model;

/// The whole numbers from `least` to `greatest`, both included.
#[derive(Clone, Copy, Debug, PartialEq, Eq)]
pub struct Span {
    least: Narrow,
    greatest: Narrow,
}

impl Model for Span {
    ghost use Rattle.std.specs.Prelude.{◌≤ℤ◌};
    ghost use Rattle.prove_limits.specs.Spans.{Ends};

    ghost Value = { Ends };

    ghost view = { λ s. record { least = s.least; greatest = s.greatest } };

    ghost invariant = { λ s. s.least ≤ℤ s.greatest };

    ghost inverse = { λ s. record { least = s.least; greatest = s.greatest } };
}

impl Span {
    /// Returns `least..=greatest`, or None exactly if `least` is above `greatest`.
    pub fn new(least: Narrow, greatest: Narrow) -> Option<Span>
        ensures { SomeIff result (least ≤ℤ greatest) (record { least = least; greatest = greatest }) }
    {
        if least.get() <= greatest.get() {
            Some(Span { least, greatest })
        } else {
            None
        }
    }

    /// Returns the span of one number.
    pub fn point(number: Narrow) -> Span
        ensures { result ≡ record { least = number; greatest = number } }
    {
        Span {
            least: number,
            greatest: number,
        }
    }

    /// Returns `least..=greatest`, or `least` alone if it is above `greatest`.
    pub fn reaching(least: Narrow, greatest: Narrow) -> Span
        ensures { result ≡ record { least = least; greatest = int_max least greatest } }
    {
        if least.get() <= greatest.get() {
            Span { least, greatest }
        } else {
            Span::point(least)
        }
    }

    /// Returns the least number.
    #[inline(always)]
    pub fn least(self) -> Narrow
        ensures value { result ≡ self.least }
        ensures ordered { self.least ≤ℤ self.greatest }
    {
        self.least
    }

    /// Returns the greatest number.
    #[inline(always)]
    pub fn greatest(self) -> Narrow
        ensures value { result ≡ self.greatest }
        ensures ordered { self.least ≤ℤ self.greatest }
    {
        self.greatest
    }

    /// True if the span has one number.
    #[inline]
    pub fn is_point(self) -> bool
        ensures { IsTrue result ↔ (self.least ≡ self.greatest) }
    {
        self.least.get() == self.greatest.get()
    }
}
