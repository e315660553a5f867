//! The sizes of a run's last table. The run counts them, and the summary prints them.

/// The sizes of a run's last table: the classes, the columns, and the pivots that were made.
#[derive(Clone, Copy, Debug)]
pub struct RunSizes {
    /// How many classes of alike volunteers the pool has.
    pub classes: usize,
    /// How many columns the last table has, each a composition that was found.
    pub columns: usize,
    /// How many pivots were made in all.
    pub pivots: u64,
}
