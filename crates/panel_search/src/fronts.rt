//! Fronts as values: counts for the first classes.

ghost use Rattle.std.specs.Prelude.{◌≡◌, ◌++◌, [], ◌∷◌, IfOk};

use std::alloc::{AllocError, Global};
use std::marker::Model;

/// How many members are taken of each of the first classes, in the order of the classes.
#[derive(Debug, Drop)]
pub struct Front {
    counts: Vec<usize>,
}

impl Model for Front {
    ghost use Rattle.std.specs.Prelude.{List, ℕ};

    ghost Value = { List ℕ };

    ghost view = { λ f. f.counts.items };
}

impl Front {
    /// Returns the front that takes `counts[i]` of class `i`.
    pub fn new(counts: Vec<usize>) -> Front
        ensures { result ≡ counts.items }
    {
        Front { counts }
    }

    /// Returns the count of each of its classes.
    pub fn counts(&self) -> &[usize]
        ensures { result.now ≡ self.now }
    {
        &self.counts
    }

    // Returns the front that continues this one with `count` of the next class.
    pub(crate) fn child(&self, alloc: Global, count: usize) -> Result<Front, AllocError>
        ensures { IfOk result (λ child. child ≡ self.now ++ count ∷ []) }
    {
        let mut counts = Vec::with_capacity(alloc, self.counts.len() + 1)?;
        counts.extend_from_slice(&self.counts)?;
        counts.push(count)?;
        Ok(Front { counts })
    }
}
