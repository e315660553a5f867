//! Leaves: a scale, and multipliers of constraints. Contracts see the records of `define_proofs`. `trees`, `ranges` and the crates above
//! use them.

ghost use Rattle.std.specs.Prelude.{◌≡◌};

use std::marker::Model;

/// A constraint's number, and the factor that multiplies the constraint.
#[derive(Debug, Drop)]
pub struct Multiplier {
    number: usize,
    factor: i128,
}

impl Model for Multiplier {
    ghost use Rattle.define_proofs.specs.Leaves.{Multiplier as Seen};

    ghost Value = { Seen };

    ghost view = { λ m. record { number = m.number; factor = m.factor } };
}

impl Multiplier {
    /// Returns the multiplier of constraint `number` with `factor`.
    pub fn new(number: usize, factor: i128) -> Multiplier
        ensures { result ≡ record { number = number; factor = factor } }
    {
        Multiplier { number, factor }
    }

    /// Returns the number of the constraint, counted from 0.
    pub fn number(&self) -> usize
        ensures { result ≡ self.now.number }
    {
        self.number
    }

    /// Returns the factor, which may be negative.
    pub fn factor(&self) -> i128
        ensures { result ≡ self.now.factor }
    {
        self.factor
    }
}

/// A scale, which multiplies the stage's weights, and multipliers of constraints.
#[derive(Debug, Drop)]
pub struct Leaf {
    scale: u64,
    multipliers: Vec<Multiplier>,
}

impl Model for Leaf {
    ghost use Rattle.define_proofs.specs.Leaves.{Leaf as Seen};

    ghost Value = { Seen };

    ghost view = { λ l. record { scale = l.scale; multipliers = l.multipliers.items } };
}

impl Leaf {
    /// Returns the leaf of this scale and these multipliers, which need not be in their ranges.
    pub fn new(scale: u64, multipliers: Vec<Multiplier>) -> Leaf
        ensures { result ≡ record { scale = scale; multipliers = multipliers.items } }
    {
        Leaf { scale, multipliers }
    }

    /// Returns the scale, which multiplies the weights of the stage.
    pub fn scale(&self) -> u64
        ensures { result ≡ self.now.scale }
    {
        self.scale
    }

    /// Returns the multipliers, in order.
    pub fn multipliers(&self) -> &[Multiplier]
        ensures { result.now ≡ self.now.multipliers }
    {
        &self.multipliers
    }
}
