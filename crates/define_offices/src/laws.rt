//! Laws over the office of `define_offices`: what every step keeps, what is true of all tables that a list of commands leaves, and what a
//! command does when it is given again. The functions have no body: their contracts are the laws, and each is a promise.
ghost use Rattle.define_offices.specs.Laws.{BoundedPoolsArePools, BoundsHold, ChangesChange, CommandsHaveOutcomes, FoldsAreGreatest, FoldsAreTables, FoldsGrow, PoolsArePools, StepsAreFunctions, StepsKeepCertified, StepsKeepTables, TriesAreDraws};
ghost use Rattle.define_offices.specs.Repeats.{BoundsAgain, CharterAgain, RepeatsChangeNothing, ReopenAgain, RulesAgain, SparedRepeatsChangeNothing, UndropAgain};
ghost use Rattle.define_offices.specs.Versions.{ChangesKeepSecond};

/// If the facts of `IsTables` hold of tables, the pool of each of their rounds satisfies `IsPool`.
pub fn pools_are_pools()
    ensures { PoolsArePools }
{}

/// A pool with other bounds of the same categories and values satisfies `IsPool`, if these bounds may be rules.
pub fn bounded_pools_are_pools()
    ensures { BoundedPoolsArePools }
{}

/// If the facts of `IsTables` hold of tables, each command within its limits has exactly one outcome over them.
pub fn steps_are_functions()
    ensures some { CommandsHaveOutcomes }
    ensures one { StepsAreFunctions }
{}

/// If the facts of `IsTables` hold of tables, they hold of the tables after a command that is within its limits.
pub fn steps_keep_tables()
    ensures { StepsKeepTables }
{}

/// If the facts of `IsTables` hold of tables and all their bundles are certified, all bundles are certified after a command that is within
/// its limits.
pub fn steps_keep_certified()
    ensures { StepsKeepCertified }
{}

/// The facts of `IsTables` hold of all tables that a list of commands leaves if each command is within its limits.
pub fn folds_are_tables()
    ensures { FoldsAreTables }
{}

/// In all tables that a list of commands leaves, each bundle's lottery is leximin greatest over its pool, if each command is within its
/// limits.
pub fn folds_are_greatest()
    ensures { FoldsAreGreatest }
{}

/// A charter, rules or bounds given again at once change nothing. Any other command that made a change, and takes no change back, changes
/// nothing when it is given again later, and has the same reply as before, except that an import counts all its rows as repeated. This is
/// so after any commands that take no change back; and after any commands at all, as long as none took this change back.
pub fn repeats_change_nothing()
    ensures charter { CharterAgain }
    ensures rules { RulesAgain }
    ensures bounds { BoundsAgain }
    ensures others { RepeatsChangeNothing }
    ensures spared { SparedRepeatsChangeNothing }
{}

/// If a dropout is taken back, or a round is taken away, the same command given again at once is refused.
pub fn refused_again()
    ensures undrop { UndropAgain }
    ensures reopen { ReopenAgain }
{}

/// If a list of commands leaves some tables, and one more command leads from these tables to others, the list with this command at its end
/// leaves those others.
pub fn folds_grow()
    ensures { FoldsGrow }
{}

/// If the reply to a command within its limits comes with a change, this change alters the tables, provided that the facts of `IsTables`
/// hold of them.
pub fn changes_change()
    ensures { ChangesChange }
{}

/// If a store of version 2 can keep tables and a change of them, it can keep the tables after this change.
pub fn changes_keep_second()
    ensures { ChangesKeepSecond }
{}

/// If bounds for a round get a reply, the pool of the round has these bounds.
pub fn bounds_hold()
    ensures { BoundsHold }
{}

/// A draw that is tried has the outcome of the draw, without its change.
pub fn tries_are_draws()
    ensures { TriesAreDraws }
{}
