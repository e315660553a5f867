//! The word that the searches of one pricing share.

ghost use Rattle.std.specs.Prelude.{[], pos};
ghost use Rattle.panel_search.specs.Pricers.{Priced};
ghost use Rattle.panel_search.specs.Sharing.{MayStand};

use std::marker::{Brand, PhantomData};
use std::sync::atomic::Rule;

/// The pricing whose searches share a word.
pub trait Scope {
    /// The classes, the rows to attain and the row that is priced.
    ghost priced: { Priced };
}

impl Scope for Brand {
    ghost priced = { record { classes = record { size = 0; bounds = []; classes = [] }; closed = []; row = record { b = pos 0; a = [] } } };
}

/// The rule of the word: it is 0, or below the weight of some composition that attains the closed rows and weighs more than the right side.
pub struct Beaten<S: Scope>(PhantomData<S>);

impl<S: Scope> Rule for Beaten<S> {
    ghost invariant = { λ n. MayStand S.priced n };
}
