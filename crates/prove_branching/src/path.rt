//! The node at which a search is in its tree: the columns' spans there, and the columns that were split on the way. `searching` and
//! `proving` go from node to node by `enter` and `turn`.

ghost use Rattle.std.specs.Prelude.{◌≡◌, ◌<◌, IfOk, length};

use prove_limits::Span;
use std::alloc::{AllocError, Global};
use std::marker::Model;

/// A column that was split: its span before, its span in the second child, and whether the search is in that child.
#[derive(Clone, Copy, Debug)]
struct Branch {
    column: usize,
    whole: Span,
    second: Span,
    is_second: bool,
}

/// The spans of a node, and the splits that lead there. Contracts see it as the number of columns.
#[derive(Debug, Drop)]
pub(crate) struct SearchPath {
    spans: Vec<Span>,
    branches: Vec<Branch>,
}

impl Model for SearchPath {
    ghost use Rattle.std.specs.Prelude.{ℕ, ◌<◌, vec_len};
    ghost use Rattle.std.specs.List.{All};

    ghost Value = { ℕ };

    ghost view = { λ p. vec_len p.spans };

    ghost invariant = { λ p. All (λ branch. branch.column < vec_len p.spans) p.branches.items };
}

impl SearchPath {
    /// Returns the path of the root, where the columns have these spans.
    pub(crate) fn new(alloc: Global, columns: &[Span]) -> Result<SearchPath, AllocError>
        ensures { IfOk result (λ path. path ≡ length columns.now) }
    {
        let spans = Vec::from_slice(alloc, columns)?;
        Ok(SearchPath {
            spans,
            branches: Vec::new(alloc),
        })
    }

    /// Returns the columns' spans at the node.
    pub(crate) fn spans(&self) -> &[Span]
        ensures { length result.now ≡ self.now }
    {
        &self.spans
    }

    /// Splits a column, and goes to the first child, where it has the span `first`.
    pub(crate) fn enter(
        &mut self,
        column: usize,
        first: Span,
        second: Span,
    ) -> Result<(), AllocError>
        requires { column < self.old }
        ensures { self.new ≡ self.old }
    {
        let whole = self.spans[column];
        self.branches.push(Branch {
            column,
            whole,
            second,
            is_second: false,
        })?;
        self.spans[column] = first;
        Ok(())
    }

    /// Goes back to the latest split whose second child was not entered, and enters it. False if there is none: the search is over.
    pub(crate) fn turn(&mut self) -> Result<bool, AllocError>
        ensures { self.new ≡ self.old }
    {
        'back: while let Some(branch) = self.branches.pop() {
            self.spans[branch.column] = branch.whole;
            if !branch.is_second {
                self.spans[branch.column] = branch.second;
                self.branches.push(Branch {
                    is_second: true,
                    ..branch
                })?;
                return Ok(true);
            }
        }
        Ok(false)
    }
}
