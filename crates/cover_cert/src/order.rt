//! The order of the fronts of a tree: which front comes next.

ghost use Rattle.std.specs.Prelude.{◌≡◌, ◌≤◌, ◌<◌, ◌-◌, ◌++◌, [], ◌∷◌, IfOk, MatchOption, Some, None, length, option_map, slice_index, take};
ghost use Rattle.define_covers.specs.FrontOrder.{continues as continues_from, filled as filled_from, turned as turned_at};

use check_search::Class;
use std::alloc::{AllocError, Global};

/// True if the front begins with `beginning`, and each class after it gives as many members as it can.
pub(crate) fn continues(
    alloc: Global,
    classes: &[Class],
    beginning: &[usize],
    front: &[usize],
) -> Result<bool, AllocError>
    requires { length beginning.now ≤ length classes.now }
    ensures { IfOk result (λ answer. answer ≡ continues_from classes.now beginning.now front.now) }
{
    let filled = filled(alloc, classes, beginning)?;
    let end = front.len().min(filled.len());
    Ok(beginning.len() <= front.len() && front == &filled[..end])
}

/// Returns a count for each class: those of `beginning`, and for the classes after it as many members as each can give.
fn filled(alloc: Global, classes: &[Class], beginning: &[usize]) -> Result<Vec<usize>, AllocError>
    requires { length beginning.now ≤ length classes.now }
    ensures { IfOk result (λ counts. counts.items ≡ filled_from classes.now beginning.now) }
{
    let mut counts = Vec::from_slice(alloc, beginning)?;
    for class in &classes[beginning.len()..] {
        counts.push(class.most())?;
    }
    Ok(counts)
}

/// Returns how the front after this one begins: with the counts up to the last one that is above the least of its class, which is one lower
/// there. None if each count is the least.
pub(crate) fn turned(
    alloc: Global,
    classes: &[Class],
    front: &[usize],
) -> Result<Option<Vec<usize>>, AllocError>
    requires { length front.now ≤ length classes.now }
    ensures { IfOk result (λ next. option_map (λ counts. counts.items) next ≡ turned_at classes.now front.now) }
{
    match last_above(classes, front) {
        None => Ok(None),
        Some(place) => {
            let mut next = Vec::from_slice(alloc, &front[..place])?;
            next.push(front[place] - 1)?;
            Ok(Some(next))
        }
    }
}

/// Returns the last place with a count above the least of its class.
fn last_above(classes: &[Class], front: &[usize]) -> Option<usize>
    requires { length front.now ≤ length classes.now }
    ensures { MatchOption result (turned_at classes.now front.now ≡ None) (λ place. (place < length front.now) × (0 < slice_index front.now place)
        × (turned_at classes.now front.now ≡ Some (take place front.now ++ (slice_index front.now place - 1) ∷ []))) }
{
    for done in 0..front.len() {
        let place = front.len() - 1 - done;
        if classes[place].least() < front[place] {
            return Some(place);
        }
    }
    None
}
