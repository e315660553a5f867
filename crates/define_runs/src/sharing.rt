//! Runs whose workers share a bound: how they may end. The definitions are in `specs/`.
//!
//! The functions have no body. Their contracts are the laws, and the promises of this crate.
ghost use Rattle.define_runs.specs.Laws.{ApartIsAllowed, EachUnboundedEnds, EndingsStay, OneEndingBesidesSpent, OneUnboundedEnding, SharingKeepsEnding};

/// The run whose pricings have no bound on their visits has exactly one ending. A run in which no pricing spends its budget has the same.
pub fn one_unbounded_ending()
    ensures one { OneUnboundedEnding }
    ensures each { EachUnboundedEnds }
    ensures same { EndingsStay }
{}

/// If no pricing spends its budget, the run whose workers share a bound ends as the run whose workers share nothing. If workers share a
/// bound, no two runs have different endings, unless a pricing spends its budget in one of them. The ending without sharing is always
/// among those that may come with it.
pub fn sharing_keeps_endings()
    ensures apart { SharingKeepsEnding }
    ensures one { OneEndingBesidesSpent }
    ensures allowed { ApartIsAllowed }
{}
