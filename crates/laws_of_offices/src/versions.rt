//! A store becomes one of version 3 only where it must.
ghost use Rattle.laws_of_offices.specs.Versions.{ChangesDecideVersions, OthersAreThird};

/// If a store of version 2 can't keep the change that comes with a command's reply, it can't keep the tables after this change either: a
/// charter with another number of rows than 400, a number of tickets with a seal, and bounds are all still there after it. So such a store
/// can keep the tables after a change exactly if it can keep the tables before and the change.
pub fn others_are_third()
    ensures third { OthersAreThird }
    ensures exactly { ChangesDecideVersions }
{}
