//! Compositions, and the first panel of one.

ghost use Rattle.std.specs.Prelude.{◌≡◌, IfOk, filter};
ghost use Rattle.std.specs.List.{range_with_len};
ghost use Rattle.define_searches.specs.Compositions.{first_panel, is_taken as is_taken_of};

use crate::groups::{Class, Classes};
use pool_model::Panel;
use std::alloc::{AllocError, Global};
use std::marker::Model;

// How many members of each class are taken: a count for each class, in class order.
#[derive(Debug, Drop)]
pub(crate) struct Composition {
    counts: Vec<usize>,
}

impl Model for Composition {
    ghost use Rattle.std.specs.Prelude.{List, ℕ};

    ghost Value = { List ℕ };

    ghost view = { λ c. c.counts.items };
}

impl Composition {
    pub(crate) fn new(counts: Vec<usize>) -> Composition
        ensures { result ≡ counts.items }
    {
        Composition { counts }
    }

    pub(crate) fn counts(&self) -> &[usize]
        ensures { result.now ≡ self.now }
    {
        &self.counts
    }
}

// Returns the panel with the first members of each class, as many as the composition takes. If the counts are a composition of the classes,
// it is a quota panel.
pub(crate) fn first_panel(
    alloc: Global,
    classes: &Classes,
    composition: &Composition,
) -> Result<Panel, AllocError>
    ensures { IfOk result (λ panel. panel ≡ first_panel classes.now composition.now) }
{
    let members = first_members(
        alloc,
        classes.classes(),
        composition.counts(),
        classes.volunteers(),
    )?;
    match Panel::new(members) {
        Some(panel) => Ok(panel),
        None => unreachable!(),
    }
}

// Returns the volunteers below `volunteers` who are taken, in rising order.
fn first_members(
    alloc: Global,
    groups: &[Class],
    counts: &[usize],
    volunteers: usize,
) -> Result<Vec<usize>, AllocError>
    ensures { IfOk result (λ members. members.items ≡ filter (is_taken_of groups.now counts.now) (range_with_len 0 volunteers)) }
{
    (0..volunteers)
        .filter(|i| is_taken(groups, counts, *i))
        .collect(alloc)
}

// True if the volunteer is taken: among the first members of a class, as many as `counts` has for the class.
fn is_taken(groups: &[Class], counts: &[usize], volunteer: usize) -> bool
    ensures { result ≡ is_taken_of groups.now counts.now volunteer }
{
    groups.iter().zip(counts).any(|(class, count)| class.first_members(*count).contains(&volunteer))
}
