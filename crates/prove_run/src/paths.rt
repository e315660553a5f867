//! The node at which the search of `splits` is in its tree: the columns' spans there, and the columns that were split on the way.

use prove_limits::{Narrow, Span};
use std::alloc::{AllocError, Global};

/// A column that was split: its span before, its span in the second child, and whether the search is in that child.
#[derive(Clone, Copy, Debug)]
struct Branch {
    column: usize,
    whole: Span,
    second: Span,
    is_second: bool,
}

/// The spans of a node, and the splits that lead there.
#[derive(Debug, Drop)]
pub(crate) struct SplitPath {
    spans: Vec<Span>,
    branches: Vec<Branch>,
}

impl SplitPath {
    /// Returns the path of the root, where the columns have these spans.
    pub(crate) fn new(alloc: Global, columns: &[Span]) -> Result<SplitPath, AllocError> {
        Ok(SplitPath {
            spans: Vec::from_slice(alloc, columns)?,
            branches: Vec::new(alloc),
        })
    }

    /// Returns the columns' spans at the node.
    pub(crate) fn spans(&self) -> &[Span] {
        &self.spans
    }

    /// Splits off a column's least number, and goes to the child where the column has it. False if the column is settled.
    pub(crate) fn enter(&mut self, column: usize) -> Result<bool, AllocError> {
        let Some(span) = self.spans.get_mut(column) else {
            return Ok(false);
        };
        let whole = *span;
        let Some(second) = later_part(whole) else {
            return Ok(false);
        };
        *span = Span::point(whole.least());
        self.branches.push(Branch {
            column,
            whole,
            second,
            is_second: false,
        })?;
        Ok(true)
    }

    /// Goes back to the latest split whose second child was not entered, and enters it. False if there is none: the search is over.
    pub(crate) fn turn(&mut self) -> Result<bool, AllocError> {
        'back: while let Some(branch) = self.branches.pop() {
            if let Some(own) = self.spans.get_mut(branch.column) {
                *own = if branch.is_second {
                    branch.whole
                } else {
                    branch.second
                };
            }
            if !branch.is_second {
                self.branches.push(Branch {
                    is_second: true,
                    ..branch
                })?;
                return Ok(true);
            }
        }
        Ok(false)
    }
}

/// Returns the span without its least number, or None if it has no other.
fn later_part(span: Span) -> Option<Span> {
    let next = Narrow::new(span.least().get() + 1)?;
    Span::new(next, span.greatest())
}
