//! Pricings of a small pool by workers that share a bound, beside pricings by workers that share none.

use crate::small_classes::{APART, classes_of, is_small};
use outside::NoWatch;
use panel_search::Row;
use pricing_pool::{best_by, best_sharing};
use std::test::Fail;

/// The entries of a row, the number of workers, the visits of `best_by`, and those of `best_sharing`. In the last row, 13 fronts lead to
/// six pieces. The second one weighs 5, the most, and no worker that knows it enters the four after it.
const PRICED: &[([i128; 4], u32, u64, u64)] = &[
    ([0, 0, 1, 0], 1, 12, 12),
    ([0, 0, 1, 0], 2, 12, 12),
    ([0, 0, 1, 0], 3, 12, 12),
    ([0, 0, 1, 0], 4, 12, 12),
    ([0, 0, 1, 0], 5, 12, 12),
    ([0, 0, 1, 0], 6, 12, 12),
    ([0, 0, 1, 0], 7, 12, 12),
    ([3, 1, 2, 1], 1, 19, 15),
];

#[test]
fn workers_that_share_a_bound_find_the_same(rt: HostRuntime) -> Result<(), Fail> {
    let alloc = rt.alloc();
    let all = classes_of(alloc, APART)?;
    for case in PRICED {
        let (entries, workers, due, visits) = *case;
        let row = Row::new(0, Vec::from_slice(alloc, &entries)?);
        assert!(rt; is_small(&all, &row));
        assert!(rt; 1 <= workers && workers <= 64);
        let (_, alone) = best_by(&rt, alloc, workers, &NoWatch, &all, &[], &row, due)?;
        let (found, shared) = best_sharing(&rt, alloc, workers, &NoWatch, &all, &[], &row, due)?;
        let found = found.ok_or("no composition")?;
        assert_eq!(rt; found.counts(), [1, 0, 1, 0].as_slice());
        assert_eq!(rt; (alone, shared), (due, visits));
    }
    Ok(())
}
