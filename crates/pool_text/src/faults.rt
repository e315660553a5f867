//! Faults of a pool's text, and why no pool was read.

use thiserror::Error;

/// The first fault of a pool's text.
#[derive(Clone, Copy, Debug, PartialEq, Eq)]
pub struct PoolFault {
    /// The first faulty line, counted from 1.
    pub line: usize,
    /// The lowest kind of fault in it:
    /// - 1 the line isn't allowed there, as a household line in version 1, the end or a standing line in version 2 before any household
    ///   line, or one of the three in version 3 while there are at most 400 volunteers and panels have at most 200 members; or anything
    ///   follows the end
    /// - 2 the second line isn't a size from 1 to 200, in version 3 to 1,000
    /// - 3 an earlier category has this name
    /// - 4 an earlier value of the category has this name
    /// - 5 a bound isn't a number from 0 to 999, or the lower is above the upper
    /// - 6 a field at the place of a category is none of its values
    /// - 7 there isn't exactly one field for each category
    /// - 8 an earlier volunteer has this id
    /// - 9 no volunteer with the id of this household or standing line comes after the volunteer of the last line of the same sort
    /// - 10 a new name or id, or a household's name, isn't 1 to 200 bytes, or has a byte below 32 or the byte 127; or this is a category
    ///   after the 20th, a value after the 50th of its category or a volunteer after the 400th, in version 3 after the 4,000th
    /// - 11 the line isn't UTF-8
    /// - 12 the lines run out before the end
    pub kind: u8,
}

/// Why no pool was read.
#[derive(Debug, Drop, Error)]
pub enum ReadPool {
    /// The bytes are not the text of a pool.
    #[error("fault {0:?}")]
    Fault(PoolFault),
    /// No memory was left.
    #[error("out of memory")]
    OutOfMemory,
}
