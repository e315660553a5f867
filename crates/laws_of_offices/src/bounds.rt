//! What stays of a round: its bundle, the categories of its pool with their bounds, the number of tickets that was kept with its seal, and
//! its draw.
ghost use Rattle.laws_of_offices.specs.Bounds.{BoundsGoOn, BoundsLast, BoundsStay, BundlesHavePools, BundlesStay, DrawsStay, TicketsStay};

/// A round that has a bundle has the same bundle after any commands. If the facts of `IsTables` hold of tables, the pool of a round that
/// has a bundle is the pool of the bundle. So neither changes any more.
pub fn bundles_stay()
    ensures stay { BundlesStay }
    ensures pools { BundlesHavePools }
{}

/// The pool of a round keeps its categories and their bounds through all commands but three: other rules, which are for round 1; bounds for
/// this round; and the command that takes this round away. So bounds that were set are those of the round's pool, open or answered. When
/// the next round begins, its pool has the categories and bounds of the pool of the round before.
pub fn bounds_stay()
    ensures stay { BoundsStay }
    ensures last { BoundsLast }
    ensures go_on { BoundsGoOn }
{}

/// The number of tickets that was kept with a seal stays with it, after any commands, and so does the fact that none was kept. A round that
/// is drawn stays drawn from the same bundle and tickets by the same digits, so its panel stays.
pub fn draws_stay()
    ensures tickets { TicketsStay }
    ensures draws { DrawsStay }
{}
