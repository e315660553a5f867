//! Marks of classes: a settled class's mark is the number of the stage at whose close it was settled. A helper of `frame`.

ghost use Rattle.std.specs.Prelude.{◌≡◌, ◌==◌, ◌&&◌, if◌then◌else◌, count_by, length, replicate, IfOk, pos, int_lt};
ghost use Rattle.exact_table.specs.Marks.{never, settled_of, settled_marks};

use std::alloc::{AllocError, Global};

// The mark of a class that is not settled.
pub(crate) const NEVER: usize = usize::MAX;

// Returns the marks of `classes` classes, none of them settled.
pub(crate) fn none_settled(alloc: Global, classes: usize) -> Result<Vec<usize>, AllocError>
    ensures { IfOk result (λ marks. marks.items ≡ replicate classes never) }
{
    vec![in alloc; NEVER; classes]
}

// Returns how many classes are settled.
pub(crate) fn settled_count(settled_at: &[usize]) -> usize
    ensures { result ≡ count_by (λ s. s) (settled_of settled_at.now) }
{
    settled_at.iter().filter(|at| **at < NEVER).count()
}

// Returns a class's mark after stage `stage` closes, given its entry in the stage's row and its mark before.
fn mark_after(stage: usize, entry: i128, at: usize) -> usize
    ensures { result ≡ (if at == never && int_lt (pos 0) entry then stage else at) }
{
    if at == NEVER && entry > 0 { stage } else { at }
}

// Marks the unsettled classes of positive entry with the number of the stage.
pub(crate) fn settle(stage: usize, entries: &[i128], settled_at: &mut [usize])
    requires { length entries.now ≡ length settled_at.old }
    ensures { settled_at.new ≡ settled_marks stage entries.now settled_at.old }
{
    for class in 0..settled_at.len() {
        settled_at[class] = mark_after(stage, entries[class], settled_at[class]);
    }
}
