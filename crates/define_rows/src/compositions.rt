//! Compositions as values: how many members of each class are taken. `panel_search` finds them, `exact_table` keeps them as its columns,
//! `alike` spreads them.

ghost use Rattle.std.specs.Prelude.{◌≡◌, IfOk};

use std::alloc::AllocError;
use std::marker::Model;

/// How many members of each class are taken: a count for each class, in class order.
#[derive(Debug, Drop)]
pub struct Composition {
    counts: Vec<usize>,
}

impl Model for Composition {
    ghost use Rattle.std.specs.Prelude.{List, ℕ};

    ghost Value = { List ℕ };

    ghost view = { λ c. c.counts.items };
}

impl Composition {
    /// Returns the composition of these counts, one for each class in class order.
    pub fn new(counts: Vec<usize>) -> Composition
        ensures { result ≡ counts.items }
    {
        Composition { counts }
    }

    /// Returns the count of each class, in class order.
    pub fn counts(&self) -> &[usize]
        ensures { result.now ≡ self.now }
    {
        &self.counts
    }

    /// Returns an equal composition. Fails if memory runs out.
    pub fn copy(&self) -> Result<Composition, AllocError>
        ensures { IfOk result (λ copied. copied ≡ self.now) }
    {
        Ok(Composition {
            counts: self.counts.clone()?,
        })
    }
}
