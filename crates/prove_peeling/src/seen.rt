//! The panels that searches found so far.

use prove_limits::{Narrow, ProveStop};
use std::alloc::{AllocError, Global};

/// Panels of one size, each once, in the order in which they were found: the numbers of their members, rising.
#[derive(Drop)]
pub(crate) struct SeenPanels {
    alloc: Global,
    size: usize,
    panels: Vec<Vec<usize>>,
}

impl SeenPanels {
    /// Returns a collection with no panel yet, for panels of `size` members.
    pub(crate) fn new(alloc: Global, size: usize) -> SeenPanels {
        SeenPanels {
            alloc,
            size,
            panels: Vec::new(alloc),
        }
    }

    /// Returns all panels.
    pub(crate) fn panels(&self) -> &[Vec<usize>] {
        &self.panels
    }

    /// Returns the members of panel `number`, or none if there is no such panel.
    pub(crate) fn members(&self, number: usize) -> &[usize] {
        match self.panels.get(number) {
            Some(members) => members,
            None => &[],
        }
    }

    /// Adds the panel of a point, if it is new, and returns its number. Stops if a value of the point is neither 0 nor 1, or if not exactly
    /// `size` of them are 1.
    pub(crate) fn see(&mut self, point: &[Narrow]) -> Result<usize, ProveStop> {
        let mut members = Vec::new(self.alloc);
        for (i, value) in point.iter().enumerate() {
            match value.get() {
                0 => {}
                1 => members.push(i)?,
                _ => return Err(ProveStop::Lost),
            }
        }
        if members.len() != self.size {
            return Err(ProveStop::Lost);
        }
        let known = self
            .panels
            .iter()
            .position(|panel| panel.as_slice() == members.as_slice());
        if let Some(number) = known {
            return Ok(number);
        }
        let number = self.panels.len();
        self.panels.push(members)?;
        Ok(number)
    }
}
