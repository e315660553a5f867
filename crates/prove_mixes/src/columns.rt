//! The compositions of a mix, as columns of its program. The program has a row for each free class of alike volunteers, which are those
//! that the caller gave a row, and a last row for the total.

use std::alloc::{AllocError, Global};

/// A composition as a column of the program.
#[derive(Debug, Drop)]
pub struct Column {
    /// How many members a panel has of each free class.
    pub counts: Vec<i64>,
    /// The entries that are not 0, each with its row, by rising rows: the counts that are not 0, and 1 in the last row.
    pub entries: Vec<(usize, i64)>,
    /// True if the column is put aside: mixes must give it the weight 0.
    pub is_off: bool,
}

/// The compositions known so far, each once.
#[derive(Debug, Drop)]
pub struct Columns {
    alloc: Global,
    /// The columns in the order in which they joined. A column's number is its index here.
    pub list: Vec<Column>,
}

impl Columns {
    /// Returns an empty list.
    pub fn new(alloc: Global) -> Columns {
        Columns {
            alloc,
            list: Vec::new(alloc),
        }
    }

    /// Adds a composition, given by its count for each free class, at least 0; all compositions of a list have equally many counts. False
    /// if the composition is known: then nothing changes. Fails only if memory runs out, and then adds nothing.
    pub fn join(&mut self, counts: Vec<i64>) -> Result<bool, AllocError> {
        let is_known = self
            .list
            .iter()
            .any(|known| known.counts.as_slice() == counts.as_slice());
        if is_known {
            return Ok(false);
        }
        let mut entries = Vec::new(self.alloc);
        for (place, count) in counts.iter().enumerate() {
            if *count != 0 {
                entries.push((place, *count))?;
            }
        }
        entries.push((counts.len(), 1))?;
        self.list.push(Column {
            counts,
            entries,
            is_off: false,
        })?;
        Ok(true)
    }
}
