//! A small pool with its classes, and which rows a search may be asked about. `pricing` and `refusals` use this.

ghost use Rattle.std.specs.Prelude.{◌≡◌, [], ◌∷◌, true};
ghost use Rattle.define_searches.specs.Fronts.{HaveEntries, HaveReach};

use alike::{Classes, classes};
use panel_search::Row;
use pool_text::read_pool;
use std::alloc::Global;
use std::test::Fail;

/// A pool in which two are chosen of four volunteers, each of whom has a value of their own.
pub(crate) const APART: &[u8] = b"pool\t1\nsize\t2\ncategory\tvalue\n\
value\tp\t0\t1\nvalue\tq\t0\t1\nvalue\tr\t0\t1\nvalue\ts\t0\t1\n\
volunteer\ta\tp\nvolunteer\tb\tq\nvolunteer\tc\tr\nvolunteer\td\ts\nend\n";

const GREATEST: i128 = 1_000_000_000;

// True if the row has one entry for each class, and no number above 1,000,000,000 by absolute value.
pub(crate) fn is_small(classes: &Classes, row: &Row) -> bool
    ensures entries { result ≡ true → HaveEntries classes.now (row.now ∷ []) }
    ensures reach { result ≡ true → HaveReach classes.now (row.now ∷ []) }
{
    classes.facts();
    let side = row.side();
    if row.entries().len() != classes.classes().len() || side < -GREATEST || GREATEST < side {
        return false;
    }
    for entry in row.entries() {
        if *entry < -GREATEST || GREATEST < *entry {
            return false;
        }
    }
    true
}

/// Reads a pool, and returns its classes.
pub(crate) fn classes_of(alloc: Global, text: &[u8]) -> Result<Classes, Fail> {
    Ok(classes(alloc, &read_pool(alloc, text)?)?)
}
