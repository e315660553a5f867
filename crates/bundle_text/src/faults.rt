//! The first fault of a bundle's text, and why no bundle was read.

use thiserror::Error;

/// Where a bundle's text first goes wrong.
#[derive(Clone, Copy, Debug, PartialEq, Eq)]
pub struct BundleFault {
    /// The first faulty line, counted from 1.
    pub line: usize,
    /// The lowest kind of fault in it:
    /// - 1 to 12 within the pool's text, the kinds of `PoolFault`; 1 also if the pool's version isn't that of the bundle
    /// - 13 the first line isn't that of a bundle of version 1, 2 or 3
    /// - 14 the line after the pool isn't a total from 1 to 10^38
    /// - 15 after the total or a panel line, the line is no right panel line and, if it follows a panel line, doesn't begin with `stage`
    /// - 16 after a stage line, the line is neither a right stage line nor `done`; or after a panel line it begins with `stage` and
    ///   isn't right
    /// - 17 the lines run out outside the pool's text, or anything follows `done`
    pub kind: u8,
}

/// Why no bundle was read.
#[derive(Debug, Drop, Error)]
pub enum ReadBundle {
    /// The bytes are not the text of a bundle.
    #[error("fault {0:?}")]
    Fault(BundleFault),
    /// No memory was left.
    #[error("out of memory")]
    OutOfMemory,
}
