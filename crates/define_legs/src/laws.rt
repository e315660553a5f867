//! Laws of the legs of a run: each has fewer pivots than there are sets of variables that could be basic in it. So a run whose budget of
//! pivots is at least the sum of these numbers never spends it: Bland's rule ends by itself.
//!
//! The functions have no body. Their contracts are the laws, and the promises of this crate.
ghost use Rattle.define_legs.specs.Laws.{EachEndingHasLegs, LegsAreApart, LegsEndTheRun, LegsHaveFewPivots, LegsHavePivots, OneListOfLegs, SpendsBelowLimit, TracesTheRun};

/// The legs are counted along the run, so each run that ends has one list of legs.
pub fn runs_have_legs()
    ensures run { TracesTheRun }
    ensures each { EachEndingHasLegs }
    ensures ends { LegsEndTheRun }
    ensures one { OneListOfLegs }
{}

/// The pivots of the legs sum to those of the table. Each leg has fewer than there are sets of variables that could be basic in it. No two
/// legs are of the same numbers of stages and columns.
pub fn legs_have_few_pivots()
    ensures sum { LegsHavePivots }
    ensures few { LegsHaveFewPivots }
    ensures apart { LegsAreApart }
{}

/// A budget of pivots is never spent if it is at least the sum, over the legs in which the run makes a pivot or has one due, of the numbers
/// of sets of variables that could be basic in them.
pub fn spent_pivots_are_few()
    ensures { SpendsBelowLimit }
{}
