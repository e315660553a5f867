//! The limits of a run and the number of its workers, each in its range, and the ranges as constants. The run takes them, and the program's
//! words have the same ranges.

ghost use Rattle.std.specs.Prelude.{◌≡◌, ◌≤◌, ◌&&◌, nat_le, if◌then◌else◌, Some, None};
ghost use Rattle.define_runs.specs.Keeps.{AreLimits};

use std::marker::Model;

/// The least width in bits: with fewer, a table could have no number except 0.
pub const LEAST_BITS: u32 = 1;

/// The greatest width in bits: signed numbers of 128 bits have 127 bits besides the sign.
pub const MOST_BITS: u32 = 127;

/// The most pivots that a run may be allowed.
pub const MOST_PIVOTS: u64 = 1_000_000_000;

/// The most visits that a search may be allowed.
pub const MOST_NODES: u64 = 1_000_000_000_000;

/// The fewest workers: one, who works alone.
pub const LEAST_WORKERS: u32 = 1;

/// The most workers.
pub const MOST_WORKERS: u32 = 64;

/// The limits of a run: the width of its numbers, from 1 to 127 bits; how many pivots it may make, at most 1,000,000,000; and how many
/// visits each of its searches may make, at most 1,000,000,000,000, which calls and the program's words name `nodes`.
#[derive(Clone, Copy, Debug)]
pub struct Limits {
    bits: u32,
    pivots: u64,
    nodes: u64,
}

impl Model for Limits {
    ghost use Rattle.std.specs.Prelude.{◌≤◌};
    ghost use Rattle.define_runs.specs.Run.{Limits as Seen};
    ghost use Rattle.define_runs.specs.Keeps.{AreLimits};

    ghost Value = { Seen };

    ghost view = { λ l. record { bits = l.bits; pivots = l.pivots; nodes = l.nodes } };

    ghost invariant = { λ l. AreLimits (record { bits = l.bits; pivots = l.pivots; nodes = l.nodes }) × (l.nodes ≤ 1000000000000) };

    ghost inverse = { λ l. record { bits = l.bits; pivots = l.pivots; nodes = l.nodes } };
}

impl Limits {
    /// Returns the limits with these numbers, or None exactly if a number is out of its range.
    pub fn new(bits: u32, pivots: u64, nodes: u64) -> Option<Limits>
        ensures { result ≡ (if nat_le 1 bits && nat_le bits 127 && nat_le pivots 1000000000 && nat_le nodes 1000000000000
            then Some (record { bits = bits; pivots = pivots; nodes = nodes }) else None) }
    {
        if LEAST_BITS <= bits && bits <= MOST_BITS && pivots <= MOST_PIVOTS && nodes <= MOST_NODES {
            Some(Limits {
                bits,
                pivots,
                nodes,
            })
        } else {
            None
        }
    }

    /// Returns the width in bits.
    pub fn bits(self) -> u32
        ensures value { result ≡ self.bits }
        ensures ranges { AreLimits self }
    {
        self.bits
    }

    /// Returns how many pivots the run may make.
    pub fn pivots(self) -> u64
        ensures value { result ≡ self.pivots }
        ensures ranges { AreLimits self }
    {
        self.pivots
    }

    /// Returns how many visits each of its searches may make.
    pub fn nodes(self) -> u64
        ensures value { result ≡ self.nodes }
        ensures few { self.nodes ≤ 1000000000000 }
        ensures ranges { AreLimits self }
    {
        self.nodes
    }
}

/// How many workers price in a run, from 1 to 64. No answer depends on it.
#[derive(Clone, Copy, Debug)]
pub struct Workers {
    number: u32,
}

impl Model for Workers {
    ghost use Rattle.std.specs.Prelude.{ℕ, ◌≤◌};

    ghost Value = { ℕ };

    ghost view = { λ w. w.number };

    ghost invariant = { λ w. (1 ≤ w.number) × (w.number ≤ 64) };

    ghost inverse = { λ n. record { number = n } };
}

impl Workers {
    /// Returns `number` as a number of workers, or None exactly if it is not from 1 to 64.
    pub fn new(number: u32) -> Option<Workers>
        ensures { result ≡ (if nat_le 1 number && nat_le number 64 then Some number else None) }
    {
        if LEAST_WORKERS <= number && number <= MOST_WORKERS {
            Some(Workers { number })
        } else {
            None
        }
    }

    /// Returns the number of workers.
    pub fn number(self) -> u32
        ensures value { result ≡ self }
        ensures some { 1 ≤ self }
        ensures few { self ≤ 64 }
    {
        self.number
    }
}
