//! Laws of the stated run, that of `lottery`: what its endings show about the pool.
//!
//! The functions have no body. Their contracts are the laws, and the promises of this crate.
#![tactic(auto)]

ghost use Rattle.define_pools.specs.Certificate.{Certifies};
ghost use Rattle.define_pools.specs.WorkedExamples.{four};
ghost use Rattle.define_runs.specs.WorkedRuns.{pairs};
ghost use Rattle.laws_of_runs.specs.Levels.{LevelsMakeStages};
ghost use Rattle.laws_of_runs.specs.Laws.{FoundIsCertified, FoundIsGreatest, FoundIsInRanges, FoundIsLottery, FoundIsWithin, NoPanelIsWithin, NoPanelWhereNone, NoneEndsSo};

use define_runs::worked_runs;

/// A run ends with `NoPanel` exactly if the pool has no quota panel and the opening search is within its budget.
pub fn no_panel_where_none()
    ensures none { NoPanelWhereNone }
    ensures within { NoPanelIsWithin }
    ensures ends { NoneEndsSo }
{}

/// The lottery that a run finds is a lottery over the pool's quota panels, of a total of at most 10^38.
pub fn found_is_lottery()
    ensures lottery { FoundIsLottery }
    ensures within { FoundIsWithin }
{}

/// Stages hold of a lottery if each satisfies the conditions that aren't on counts (`StageStands`), and each volunteer's chance is the sum
/// of the levels of the stages at which the volunteer was unsettled (`CountsAreLevels`).
pub fn levels_make_stages()
    ensures { LevelsMakeStages }
{}

/// The stages that a run finds with a lottery certify this lottery.
pub fn found_is_certified()
    ensures { FoundIsCertified }
{}

/// The lottery that a run finds is leximin greatest: no lottery over the pool's quota panels is above it.
pub fn found_is_greatest()
    ensures { FoundIsGreatest }
{}

/// The numbers of the answer that a run finds are in the ranges that they have in the text of a bundle.
pub fn found_is_in_ranges()
    ensures { FoundIsInRanges }
{}

/// The lottery that the run finds for two women and two men is certified by the two stages that it finds.
pub fn worked_certificate()
    ensures { Certifies four pairs.lottery pairs.stages }
{
    worked_runs();
}
