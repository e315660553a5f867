//! An operation that passes 2^62, as a stop names it: the operation and its two numbers.

ghost use Rattle.std.specs.Prelude.{◌≡◌};
ghost use Rattle.prove_limits.specs.Operations.{Passes};

use std::marker::Model;

/// An operation on two whole numbers.
#[derive(Clone, Copy, Debug, PartialEq, Eq)]
pub enum Op {
    /// The product.
    Mul,
    /// The sum.
    Add,
    /// The first number less the second.
    Sub,
    /// The first number divided by the second, rounded towards 0. The second is not 0.
    Div,
}

/// An operation on two whole numbers whose exact result has an absolute value above 2^62.
#[derive(Clone, Copy, Debug, PartialEq, Eq)]
pub struct Pass {
    op: Op,
    x: i128,
    y: i128,
}

impl Model for Pass {
    ghost use Rattle.prove_limits.specs.Operations.{Operation, Passes};

    ghost Value = { Operation };

    ghost view = { λ p. record { op = p.op; x = p.x; y = p.y } };

    ghost invariant = { λ p. Passes (record { op = p.op; x = p.x; y = p.y }) };

    ghost inverse = { λ p. record { op = p.op; x = p.x; y = p.y } };
}

impl Pass {
    // Makes the record of an operation on `x` and `y` that passes 2^62.
    pub(crate) fn new(op: Op, x: i128, y: i128) -> Pass
        requires { Passes (record { op = op; x = x; y = y }) }
        ensures { result ≡ record { op = op; x = x; y = y } }
    {
        Pass { op, x, y }
    }

    /// Returns the operation.
    pub fn op(self) -> Op
        ensures value { result ≡ self.op }
        ensures passes { Passes self }
    {
        self.op
    }

    /// Returns the first number.
    pub fn x(self) -> i128
        ensures value { result ≡ self.x }
        ensures passes { Passes self }
    {
        self.x
    }

    /// Returns the second number.
    pub fn y(self) -> i128
        ensures value { result ≡ self.y }
        ensures passes { Passes self }
    {
        self.y
    }
}
