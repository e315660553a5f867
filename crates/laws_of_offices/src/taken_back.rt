//! A change that is taken back leaves the tables as they were.
ghost use Rattle.laws_of_offices.specs.TakenBack.{BoundsAreSpent, DropThenUndrop, DropsGoBack, NextThenReopen, RoundsGoBack};

/// A dropout that is taken back leaves the tables as they were, if it changed them. It can be taken back at once unless the volunteer
/// withdrew.
pub fn dropouts_go_back()
    ensures changes { DropsGoBack }
    ensures commands { DropThenUndrop }
{}

/// A round that is begun and taken away leaves the tables as they were, except that the bounds that were set for the round before are gone.
/// No round's pool is another without them. The round can be taken away at once.
pub fn rounds_go_back()
    ensures changes { RoundsGoBack }
    ensures commands { NextThenReopen }
    ensures spent { BoundsAreSpent }
{}
