//! The number of each volunteer's class. With these numbers, the run turns the weights of classes into the weights of volunteers.

ghost use Rattle.std.specs.Prelude.{◌≡◌, IfOk, map};
ghost use Rattle.std.specs.List.{range_with_len};
ghost use Rattle.define_searches.specs.Classes.{class_number as class_number_of, volunteer_count};

use crate::groups::{Class, Classes};
use std::alloc::{AllocError, Global};

/// Returns for each volunteer the number of their class, counted from 0.
pub fn class_numbers(alloc: Global, classes: &Classes) -> Result<Vec<usize>, AllocError>
    ensures { IfOk result (λ numbers. numbers.items ≡ map (class_number_of classes.now.classes) (range_with_len 0 (volunteer_count classes.now))) }
{
    let volunteers = classes.volunteers();
    numbers_up_to(alloc, classes.classes(), volunteers)
}

fn numbers_up_to(
    alloc: Global,
    groups: &[Class],
    volunteers: usize,
) -> Result<Vec<usize>, AllocError>
    ensures { IfOk result (λ numbers. numbers.items ≡ map (class_number_of groups.now) (range_with_len 0 volunteers)) }
{
    (0..volunteers)
        .map(|i| class_number(groups, i))
        .collect(alloc)
}

// Returns the number of the volunteer's class, or the number of classes if the volunteer is in none.
fn class_number(groups: &[Class], volunteer: usize) -> usize
    ensures { result ≡ class_number_of groups.now volunteer }
{
    let number = groups
        .iter()
        .position(|class| class.members().contains(&volunteer));
    number.unwrap_or(groups.len())
}
