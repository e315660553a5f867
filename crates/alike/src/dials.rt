//! The dial of a composition: the sizes of the classes that are taken in part, the number of places of the dial, and where it is cut. A
//! helper of spreading.

ghost use Rattle.std.specs.Prelude.{◌≡◌, ◌<◌, ◌≤◌, ◌∷◌, ◌++◌, All, IfOk, OnOk, SomeIff};
ghost use Rattle.std.specs.Int.{◌∣◌};
ghost use Rattle.std.specs.List.{fold, flat_map};
ghost use Rattle.frac128.specs.Divisors.{lcm_of};
ghost use Rattle.define_pools.specs.Lists.{rising};
ghost use Rattle.define_runs.specs.Spreading.{greatest_total, is_partly_taken, marks, once_each, partly_taken};

use crate::groups::Class;
use frac128::lcm;
use std::alloc::{AllocError, Global};

/// The greatest total of a lottery, 10^38. No dial of a lottery has more places.
pub(crate) const GREATEST_TOTAL: u128 = 100000000000000000000000000000000000000;

/// True if the class is taken in part: some of its members are taken, and not all.
pub(crate) fn is_partly_taken(class: &Class, count: usize) -> bool
    ensures { result ≡ is_partly_taken class.now count }
{
    0 < count && count < class.size()
}

/// Returns the sizes of the classes that are taken in part.
pub(crate) fn partly_taken(
    alloc: Global,
    groups: &[Class],
    counts: &[usize],
) -> Result<Vec<usize>, AllocError>
    ensures { IfOk result (λ sizes. sizes.items ≡ partly_taken groups.now counts.now) }
{
    let mut sizes = Vec::new(alloc);
    for (class, count) in groups.iter().zip(counts) {
        if is_partly_taken(class, *count) {
            sizes.push(class.size())?;
        }
    }
    Ok(sizes)
}

/// Returns the number of places of the dial for classes of these sizes: their least common multiple. `None` if that is above 10^38.
pub(crate) fn places(sizes: &[usize]) -> Option<u128>
    requires { All (λ size. 0 < size) sizes.now }
    ensures { SomeIff result (fold lcm_of 1 sizes.now ≤ greatest_total) (fold lcm_of 1 sizes.now) }
{
    let mut places = 1;
    for size in sizes {
        places = common_multiple(places, *size as u128)?;
    }
    Some(places)
}

/// Returns the least common multiple of `x` and `y`, or `None` if it is above 10^38.
pub(crate) fn common_multiple(x: u128, y: u128) -> Option<u128>
    requires x { (0 < x) × (x ≤ greatest_total) }
    requires y { (0 < y) × (y ≤ greatest_total) }
    ensures { SomeIff result (lcm_of x y ≤ greatest_total) (lcm_of x y) }
{
    let multiple = lcm(x as i128, y as i128, GREATEST_TOTAL as i128)?;
    Some(multiple.unsigned_abs())
}

/// Returns where a dial is cut: at 0 and at the marks of each class that is taken in part, in rising order and each once. A class's marks
/// divide the dial into as many equal parts as the class has members.
pub(crate) fn cuts(alloc: Global, sizes: &[usize], places: u128) -> Result<Vec<u128>, AllocError>
    requires places { 0 < places }
    requires sizes { All (λ size. (0 < size) × (size ∣ places)) sizes.now }
    ensures { IfOk result (λ cuts. cuts.items ≡ once_each (rising (0 ∷ flat_map (marks places) sizes.now))) }
{
    let mut cuts = vec![in alloc; 0]?;
    for size in sizes {
        push_marks(&mut cuts, *size as u128, places)?;
    }
    cuts.sort()?;
    cuts.dedup();
    Ok(cuts)
}

// Adds the marks of a class of `size` members.
fn push_marks(cuts: &mut Vec<u128>, size: u128, places: u128) -> Result<(), AllocError>
    requires size { (0 < size) × (size ∣ places) }
    ensures { OnOk result (cuts.new.items ≡ cuts.old.items ++ marks places size) }
{
    let step = places / size;
    for number in 0..size {
        cuts.push(number * step)?;
    }
    Ok(())
}
