//! Bland's rule ends: laws of the pivots that it chooses. A chain is a list of tables, each made from the one before by the chosen pivot,
//! as a run makes them between two of its other steps. In a chain no set of basic variables comes twice. So it has fewer pivots than there
//! are such sets.
//!
//! The functions have no body, or call others for their laws. Their contracts are the laws, and the promises of this crate.
ghost use Rattle.std.specs.Prelude.{◌≡◌, [], ◌∷◌};
ghost use Rattle.define_rows.specs.WorkedRun.{entered, once, widened, twice};
ghost use Rattle.define_legs.specs.Chains.{IsChain, NoBasisTwice, bases_of, ChainsAreShort, PivotsAreFew};

use define_rows::{worked_run, worked_run_is_in_order};

/// No two tables of a chain have the same set of basic variables. The tables may be any in order (`IsInOrder` of `define_rows`), with a
/// stage open: they need not be those of a run.
pub fn no_basis_twice()
    ensures { NoBasisTwice }
{}

/// A chain has at most as many tables as there are sets of as many variables of its first table as that has rows.
pub fn chains_are_short()
    ensures { ChainsAreShort }
{}

/// The chosen pivots that follow one another from a table in order, with a stage open, are fewer than the sets of as many of its
/// variables as it has rows.
pub fn pivots_are_few()
    ensures { PivotsAreFew }
{}

/// The worked run of `define_rows` has two chains of one pivot each. In the first 4 sets of variables could be basic, and in the second,
/// with a column more, 10.
pub fn worked_chains()
    ensures first { IsChain (entered ∷ once ∷ []) }
    ensures second { IsChain (widened ∷ twice ∷ []) }
    ensures four { bases_of entered ≡ 4 }
    ensures ten { bases_of widened ≡ 10 }
{
    worked_run();
    worked_run_is_in_order();
}
