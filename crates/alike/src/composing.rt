//! The first panel of a composition.

ghost use Rattle.std.specs.Prelude.{◌≡◌, IfOk, filter};
ghost use Rattle.std.specs.List.{range_with_len};
ghost use Rattle.define_searches.specs.Compositions.{first_panel, is_taken as is_taken_of};

use crate::groups::{Class, Classes};
use define_rows::Composition;
use pool_model::Panel;
use std::alloc::{AllocError, Global};

/// Returns the panel of the first members of each class, as many as the composition takes of the class. For a composition of these classes
/// it is a quota panel.
pub fn first_panel(
    alloc: Global,
    classes: &Classes,
    composition: &Composition,
) -> Result<Panel, AllocError>
    ensures { IfOk result (λ panel. panel ≡ first_panel classes.now composition.now) }
{
    let members = first_members(
        alloc,
        classes.classes(),
        composition.counts(),
        classes.volunteers(),
    )?;
    match Panel::new(members) {
        Some(panel) => Ok(panel),
        None => unreachable!(),
    }
}

/// Returns the volunteers below `volunteers` whom `counts` takes, in rising order.
fn first_members(
    alloc: Global,
    groups: &[Class],
    counts: &[usize],
    volunteers: usize,
) -> Result<Vec<usize>, AllocError>
    ensures { IfOk result (λ members. members.items ≡ filter (is_taken_of groups.now counts.now) (range_with_len 0 volunteers)) }
{
    (0..volunteers)
        .filter(|i| is_taken(groups, counts, *i))
        .collect(alloc)
}

/// True if the volunteer is among the members that `counts` takes of some class, which are its first ones.
fn is_taken(groups: &[Class], counts: &[usize], volunteer: usize) -> bool
    ensures { result ≡ is_taken_of groups.now counts.now volunteer }
{
    groups.iter().zip(counts).any(|(class, count)| class.first_members(*count).contains(&volunteer))
}
