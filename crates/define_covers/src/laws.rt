//! Laws of covers: a valid cover shows that the caps of its certificate hold, so that its lottery is leximin greatest.
//!
//! The functions have no body. Their contracts are the laws, and the promises of this crate.
ghost use Rattle.define_covers.specs.CoversHold.{CapsAreLeft, LiveWhereNoCause, TreesCoverCaps, ValidIsCertified, ValidWhereCovered};
ghost use Rattle.define_covers.specs.CoverSteps.{BeginsWithLottery, GoesOnByStages};
ghost use Rattle.define_covers.specs.Made.{CoversWhereSearched, InRangesWhereSearched, SameValueCount, SearchedOnce, TreesCoverWhereSearched, TreesSearchedOnce};
ghost use Rattle.define_covers.specs.Laws.{LiveWhereNoneFirst, NoneAboveWhereCovered, ValidIsGreatest, ValidWhereChecked};

/// A front is live exactly if no cause applies to it. So if the lines of a tree have no fault, a search at the stage finds nothing above the
/// cap.
pub fn covered_fronts()
    ensures live { LiveWhereNoCause }
    ensures first { LiveWhereNoneFirst }
    ensures none_above { NoneAboveWhereCovered }
{}

/// A certificate holds exactly if it meets all but its caps, and the caps hold. If each stage has a tree that covers it, the caps hold.
pub fn covered_caps()
    ensures left { CapsAreLeft }
    ensures hold { TreesCoverCaps }
{}

/// The lines of a search that finds nothing cover what a search would enter, stage by stage, and a cover's text can spell them.
pub fn searched_trees()
    ensures lines { CoversWhereSearched }
    ensures trees { TreesCoverWhereSearched }
    ensures values { SameValueCount }
    ensures in_ranges { InRangesWhereSearched }
{}

/// A search that finds nothing has one list of lines, and stages have one list of trees.
pub fn made_once()
    ensures lines { SearchedOnce }
    ensures trees { TreesSearchedOnce }
{}

/// For each bundle, a cover is valid exactly if the certificate meets all but its caps, and each stage has a tree that covers it. It is
/// valid if a check finds the certificate valid and the trees cover the stages.
pub fn valid_covers()
    ensures covered { ValidWhereCovered }
    ensures checked { ValidWhereChecked }
{}

/// The certificate of a valid cover holds, and its lottery is leximin greatest.
pub fn valid_is_greatest()
    ensures certified { ValidIsCertified }
    ensures greatest { ValidIsGreatest }
{}

/// A check of a cover tries the reasons in their order: those of the lottery, then stage by stage those before the cap, that of the tree,
/// and that of the listed panels.
pub fn check_goes_by_stages()
    ensures begins { BeginsWithLottery }
    ensures goes_on { GoesOnByStages }
{}
