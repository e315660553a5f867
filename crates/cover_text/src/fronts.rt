//! Fronts with their causes, and lists of them. `ranges`, `covers` and the crates above use them.

ghost use Rattle.std.specs.Prelude.{◌≡◌, ◌++◌, ◌∷◌, [], OnOk, OnErr};
ghost use Rattle.cover_text.specs.Causes.{seen_cause};

use std::alloc::AllocError;
use std::marker::Model;

/// Why a front isn't live.
#[derive(Debug, Clone, Copy, PartialEq, Eq)]
pub enum Cause {
    /// The front takes too many members, or can't reach the size.
    Size,
    /// The front can't keep the bounds of the value with this number, counted from 1 over all categories.
    Value(usize),
    /// The front takes two members of a household.
    Household,
    /// The front can't attain the cap of the earlier stage with this number, counted from 1.
    Closed(usize),
    /// The front can't exceed the stage's cap.
    Cap,
}

/// A line of a tree: a front, which is a list of counts for the first classes, and its cause.
#[derive(Debug, Drop)]
pub struct FrontLine {
    front: Vec<usize>,
    cause: Cause,
}

impl Model for FrontLine {
    ghost use Rattle.define_covers.specs.Covers.{FrontLine as Seen};
    ghost use Rattle.cover_text.specs.Causes.{seen_cause};

    ghost Value = { Seen };

    ghost view = { λ l. record { front = l.front.items; cause = seen_cause l.cause } };
}

impl FrontLine {
    /// Returns the line of this front and cause, which need not be in their ranges.
    pub fn new(front: Vec<usize>, cause: Cause) -> FrontLine
        ensures { result ≡ record { front = front.items; cause = seen_cause cause } }
    {
        FrontLine { front, cause }
    }

    /// Returns the front's counts.
    pub fn front(&self) -> &[usize]
        ensures { result.now ≡ self.now.front }
    {
        &self.front
    }

    /// Returns the front's cause.
    pub fn cause(&self) -> Cause
        ensures { seen_cause result ≡ self.now.cause }
    {
        self.cause
    }
}

/// The lines of a tree. They need not be those of a whole tree.
#[derive(Debug, Drop)]
pub struct Fronts {
    lines: Vec<FrontLine>,
}

impl Model for Fronts {
    ghost use Rattle.std.specs.Prelude.{List};
    ghost use Rattle.define_covers.specs.Covers.{FrontLine as Seen};

    ghost Value = { List Seen };

    ghost view = { λ t. t.lines.items };
}

impl Fronts {
    /// Returns the list of these lines.
    pub fn new(lines: Vec<FrontLine>) -> Fronts
        ensures { result ≡ lines.items }
    {
        Fronts { lines }
    }

    /// Appends a line.
    pub fn add_line(&mut self, line: FrontLine) -> Result<(), AllocError>
        ensures ok { OnOk result (self.new ≡ self.old ++ line ∷ []) }
        ensures err { OnErr result (self.new ≡ self.old) }
    {
        self.lines.push(line)?;
        Ok(())
    }

    /// Returns the lines, in order.
    pub fn lines(&self) -> &[FrontLine]
        ensures { result.now ≡ self.now }
    {
        &self.lines
    }
}
