//! The two programs of a pool. `runs` makes them; `runs` and `trees` read them.

use prove_program::Program;

/// The programs of a pool, over classes of alike volunteers and over single volunteers.
#[derive(Debug, Drop)]
pub(crate) struct Programs {
    pub(crate) by_class: Program,
    pub(crate) by_volunteer: Program,
}
