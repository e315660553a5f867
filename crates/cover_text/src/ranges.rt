//! The ranges of the numbers in a front's line.

ghost use Rattle.std.specs.Prelude.{◌≡◌, nat_le};
ghost use Rattle.std.specs.List.{list_all};
ghost use Rattle.define_covers.specs.CoverRanges.{is_cause as keeps_cause, is_front_line as keeps_line, is_numbered as numbered, most_count, value_count as values_of};
ghost use Rattle.define_covers.specs.CoverText.{keep_ranges};
ghost use Rattle.cover_text.specs.Causes.{seen_cause};

use crate::fronts::{Cause, FrontLine, Fronts};
use pool_model::{Limits, Pool};

/// Returns how many values all categories of the pool have.
pub fn value_count(pool: &Pool) -> usize
    ensures { result ≡ values_of pool.now }
{
    pool.facts();
    let categories = pool.categories();
    let mut count = 0;
    for category in categories {
        count += category.values().len();
    }
    count
}

/// True if the number of the cause's value is that of a value of the pool, the number of its earlier stage is below `stage`, the front has
/// at most one count per volunteer, and each count is at most the limit of the pool's volunteers.
pub fn is_front_line(pool: &Pool, stage: usize, line: &FrontLine) -> bool
    ensures { result ≡ keeps_line pool.now stage line.now }
{
    is_cause(pool, stage, line.cause())
        && line.front().len() <= pool.volunteers().len()
        && are_counts(pool.volunteers().len(), line.front())
}

/// True if the number of the cause is in its range.
fn is_cause(pool: &Pool, stage: usize, cause: Cause) -> bool
    ensures { result ≡ keeps_cause pool.now stage (seen_cause cause) }
{
    match cause {
        Cause::Value(number) => is_numbered(value_count(pool), number),
        Cause::Closed(number) => is_numbered(stage.saturating_sub(1), number),
        Cause::Size | Cause::Household | Cause::Cap => true,
    }
}

/// True if the number is from 1 to `last`.
fn is_numbered(last: usize, number: usize) -> bool
    ensures { result ≡ numbered last number }
{
    0 < number && number <= last
}

/// True if each count is at most the limit of volunteers of a pool with this many.
fn are_counts(volunteers: usize, counts: &[usize]) -> bool
    ensures { result ≡ list_all (λ c. nat_le c (most_count volunteers)) counts.now }
{
    let most = Limits::of(volunteers).volunteers();
    counts.iter().all(|count| *count <= most)
}

/// True if all lines of all trees are in their ranges, each for the stage of its tree.
pub(crate) fn are_trees(pool: &Pool, trees: &[Fronts]) -> bool
    ensures { result ≡ keep_ranges pool.now 0 trees.now }
{
    for (i, tree) in trees.iter().enumerate() {
        if !is_tree(pool, i + 1, tree.lines()) {
            return false;
        }
    }
    true
}

/// True if all lines are in their ranges, in the tree of stage `stage`.
fn is_tree(pool: &Pool, stage: usize, lines: &[FrontLine]) -> bool
    ensures { result ≡ list_all (keeps_line pool.now stage) lines.now }
{
    lines.iter().all(|line| is_front_line(pool, stage, line))
}
