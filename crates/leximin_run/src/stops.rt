//! The answers of a run, and why it stops.

use define_legs::Leg;
use define_runs::RunSizes;
use exact_table::{Pass, Table};
use pool_model::Answer;
use std::alloc::AllocError;

/// Where a run was when it stopped.
#[derive(Drop)]
pub enum At {
    /// There was no table yet.
    Opening,
    /// The table at which it stopped.
    Table(Table),
}

/// The result of a run.
#[derive(Debug, Drop)]
pub enum Solved {
    /// A lottery, with its certificate.
    Found(Answer),
    /// The pool has no quota panel.
    NoPanel,
}

/// The result of a run, with the sizes of its last table.
#[derive(Debug, Drop)]
pub enum SolvedSized {
    /// A lottery, with its certificate; and the classes, columns and pivots of the run.
    Found(Answer, RunSizes),
    /// The pool has no quota panel.
    NoPanel,
}

/// The result of a run, with its legs.
#[derive(Debug, Drop)]
pub enum SolvedTraced {
    /// A lottery, with its certificate; and the legs of the run.
    Found(Answer, Vec<Leg>),
    /// The pool has no quota panel.
    NoPanel,
}

/// The result of a run, with the sizes of its last table and its legs.
#[derive(Drop)]
pub(crate) enum Outcome {
    /// A lottery, with its certificate.
    Found(Answer, RunSizes, Vec<Leg>),
    /// The pool has no quota panel.
    NoPanel,
}

/// Why a run stopped without an answer.
#[derive(Drop)]
pub enum Stop {
    /// An operation passes the width.
    TooWide(At, Pass),
    /// The lottery's total passes 10^38. Holds where the run was; the number, counted from 0, of the composition whose fraction makes the
    /// total pass; the total before this composition; and the denominator of its fraction.
    TotalPasses(At, usize, i128, i128),
    /// The next step is a pivot, and the budget of pivots is spent.
    PivotsSpent(At),
    /// A search needs more visits than its budget.
    NodesSpent(At),
    /// No memory was left.
    OutOfMemory,
}

impl From<AllocError> for Stop {
    ghost use Rattle.std.specs.Prelude.{◌≡◌};
    ghost use Rattle.leximin_run.specs.declared.stops.Stop.TheVariants.{OutOfMemory};

    ghost from_gives = { λ _ e. e ≡ OutOfMemory };

    fn from(_error: AllocError) -> Stop {
        Stop::OutOfMemory
    }
}
