//! The stated run, by which `lottery` finds a lottery: the opening search, then stage by stage pivots, pricing and closing, and how the run
//! ends. At the end compositions with fractions are spread over panels (`spreads`). Runs whose workers share a bound are in `sharing`. The
//! definitions are in `specs/`.
//!
//! The functions without a body are the promises: laws over the definitions, and worked examples. Those that matter most of spreading are
//! `spread_is_lottery` and `spread_has_even_chances`.
#![tactic(auto)]

pub mod sharing;
pub mod spreads;

ghost use Rattle.std.specs.Prelude.{◌≡◌, None, Some, pos};
ghost use Rattle.define_pools.specs.Pool.{Pool};
ghost use Rattle.define_pools.specs.WorkedExamples.{four};
ghost use Rattle.define_rows.specs.declared.Op.TheVariants.{Add};
ghost use Rattle.define_rows.specs.WorkedRun.{ended, entered, widened};
ghost use Rattle.define_runs.specs.OtherLimits.{AnswerOrNoPanel, BudgetsKeepEnding, LimitsKeepAnswer, LimitsKeepNoPanel, OneAnswerOverLimits, OneEndingOverBudgets};
ghost use Rattle.define_runs.specs.Run.{Ending, Limits as Seen, NoPanel, Found, TooWide, PivotsSpent, NodesSpent, RunEnds, RunFinds};
ghost use Rattle.define_runs.specs.Keeps.{ReachedIsKept, PricedMayBeAdded, PricedIsChosen, PartsSpread};
ghost use Rattle.define_runs.specs.Work.{EachEnds, EachRunEnds, StepLeavesLess};
ghost use Rattle.define_runs.specs.WorkedRuns.{limits, halves, pairs};
ghost use Rattle.define_searches.specs.WorkedSearches.{either};

mod ranges;
mod sizes;

pub use ranges::{
    LEAST_BITS, LEAST_WORKERS, Limits, MOST_BITS, MOST_NODES, MOST_PIVOTS, MOST_WORKERS, Workers,
};
pub use sizes::RunSizes;

/// A run has one ending under its limits. Under the same width and other budgets of pivots and visits it has the same ending, unless a
/// budget is spent in one of the two runs. If two runs over one pool each end with an answer or with `NoPanel`, they have the same result,
/// whatever their widths and budgets.
pub fn one_ending()
    ensures limits { (pool : Pool) (limits : Seen) (first second : Ending) → RunEnds pool limits first → RunEnds pool limits second → first ≡ second }
    ensures budgets { OneEndingOverBudgets }
    ensures answers { OneAnswerOverLimits }
    ensures no_panel { AnswerOrNoPanel }
{}

/// A run that didn't spend a budget has the same ending with greater budgets. If each limit is at least as great, the width included, a run
/// that found an answer finds the same one, and a run that found that there is no quota panel finds this again.
pub fn greater_limits_keep_endings()
    ensures budgets { BudgetsKeepEnding }
    ensures answers { LimitsKeepAnswer }
    ensures no_panel { LimitsKeepNoPanel }
{}

/// Each step of a run leaves less of the run to do. So, under limits in their ranges, each run over classes within the limits of a pool
/// ends, and so does each run over a pool.
pub fn each_run_ends()
    ensures less { StepLeavesLess }
    ensures classes { EachEnds }
    ensures pool { EachRunEnds }
{}

/// Each table of a run is in order (`IsInOrder` of `define_rows`), its columns are compositions, and its closed rows were priced out: no
/// composition that attains the rows closed earlier weighs more in a closed row than its right side.
pub fn reached_is_kept()
    ensures { ReachedIsKept }
{}

/// A composition that pricing finds isn't a column of the table yet, and may become one.
pub fn priced_may_be_added()
    ensures { PricedMayBeAdded }
{}

/// After a composition that pricing found has become a column, a pivot is chosen.
pub fn priced_is_chosen()
    ensures { PricedIsChosen }
{}

/// The columns of positive value are different compositions, whose values are positive fractions that sum to one.
pub fn parts_can_be_spread()
    ensures { PartsSpread }
{}

/// Runs over small pools. One seat for one of two volunteers needs a width of 2 bits, two pivots, and searches of at most 3 visits.
pub fn worked_runs()
    ensures found { RunEnds either (limits 2 2 3) (Found ended halves) }
    ensures too_wide { RunEnds either (limits 1 2 3) (TooWide None (record { row = 1; op = Add; x = pos 1; y = pos 1 })) }
    ensures one_pivot { RunEnds either (limits 2 1 3) (PivotsSpent widened) }
    ensures no_pivot { RunEnds either (limits 2 0 3) (PivotsSpent entered) }
    ensures few_nodes { RunEnds either (limits 2 2 2) (NodesSpent None) }
    ensures four { RunFinds four (limits 127 4 100) pairs }
{}
