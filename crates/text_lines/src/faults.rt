//! Where a text first goes wrong, and why no text was read: for readers without types of their own for this. Contracts compare the fault
//! with that of `define_lines`, field by field.

use thiserror::Error;

/// Where a text first goes wrong: its first faulty line, and the lowest kind of fault in this line. The reader says what its kinds mean.
#[derive(Clone, Copy, Debug, PartialEq, Eq)]
pub struct TextFault {
    /// The number of the line, counted from 1; 0 for the whole text.
    pub line: usize,
    /// The lowest kind of fault in the line.
    pub kind: u8,
}

/// Why a reader of a text returned no value.
#[derive(Debug, Drop, Error)]
pub enum TextStop {
    /// The bytes are no text of the form that the reader reads.
    #[error("line {}: kind {}", .0.line, .0.kind)]
    Fault(TextFault),
    /// No memory was left.
    #[error("out of memory")]
    OutOfMemory,
}
