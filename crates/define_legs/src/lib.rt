//! The legs of a run, and the text that tells them. A leg is the time from the entering of a stage, or the adding of a column, to the next
//! such step or to the closing of the stage. The definitions are in `specs/`. The module `pivots` has the laws of Bland's rule, which ends;
//! and `laws` those of the legs, each of which has fewer pivots than there are sets of variables that could be basic in it.
//!
//! The functions without a body are the promises: laws over the definitions, and worked examples.
#![tactic(auto)]

pub mod laws;
pub mod pivots;

ghost use Rattle.std.specs.Prelude.{◌≡◌, [], ◌∷◌, codes};
ghost use Rattle.define_legs.specs.LegTexts.{legs_text};
ghost use Rattle.define_legs.specs.Legs.{pivot_limit, traced};
ghost use Rattle.define_rows.specs.WorkedRun.{ended};
ghost use Rattle.define_runs.specs.Run.{Ended, Found, run_limits};
ghost use Rattle.define_runs.specs.WorkedRuns.{limits, halves};
ghost use Rattle.define_searches.specs.Classes.{classes_of};
ghost use Rattle.define_searches.specs.WorkedSearches.{either};

/// A leg of a run.
#[derive(Clone, Copy, Debug, PartialEq, Eq)]
pub struct Leg {
    /// How many stages had been entered.
    pub stages: usize,
    /// How many columns the table had.
    pub columns: usize,
    /// How many pivots were made.
    pub pivots: u64,
}

/// The run over one seat and two volunteers has two legs of one pivot each. In the first 4 sets of variables could be basic, and in the
/// second, with a column more, 10.
pub fn worked_legs()
    ensures legs { traced (classes_of either) (run_limits (limits 2 2 3)) 8 ≡ record {
      next = Ended (Found ended halves);
      legs = record { stages = 1; columns = 1; pivots = 1 } ∷ record { stages = 1; columns = 2; pivots = 1 } ∷ [];
    } }
    ensures limit { pivot_limit 2 (record { stages = 1; columns = 1; pivots = 1 } ∷ record { stages = 1; columns = 2; pivots = 1 } ∷ []) ≡ 14 }
    ensures text { legs_text 2 (record { stages = 1; columns = 1; pivots = 1 } ∷ record { stages = 1; columns = 2; pivots = 1 } ∷ [])
        ≡ codes "leg\t1\t1\t1\t4\nleg\t1\t2\t1\t10\nbound\t14\n" }
{}
