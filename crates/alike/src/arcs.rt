//! The panel of an arc of a dial. The window of a class is the members whom it gives to the panel, as many as the composition takes. At
//! each of the class's marks the window moves on by one member. `spreading` uses this.

ghost use Rattle.std.specs.Prelude.{◌≡◌, ◌*◌, ◌/◌, ◌<◌, ◌≤◌, ℕ, false, filter, map, length, slice_index_or, All, IfOk, IsTrue};
ghost use Rattle.std.specs.Int.{◌∣◌};
ghost use Rattle.std.specs.List.{range_with_len};
ghost use Rattle.alike.specs.Steps.{AreMarked};
ghost use Rattle.define_pools.specs.Lists.{includes};
ghost use Rattle.define_searches.specs.Classes.{PartVolunteers, volunteer_count};
ghost use Rattle.define_runs.specs.Spreading.{dial, is_given, is_partly_taken, panel_at, turned};

use crate::dials::is_partly_taken;
use crate::groups::{Class, Classes};
use pool_model::Panel;
use std::alloc::{AllocError, Global};

/// Returns the panel of the arc that begins at place `at` of a dial of `places` places.
pub(crate) fn panel_at(
    alloc: Global,
    classes: &Classes,
    counts: &[usize],
    places: u128,
    at: u128,
) -> Result<Panel, AllocError>
    requires places { places ≡ dial classes.now counts.now }
    requires at { at < places }
    ensures { IfOk result (λ panel. panel ≡ panel_at classes.now counts.now at) }
{
    let given = given(alloc, classes, counts, places, at)?;
    match Panel::new(numbers(alloc, &given)?) {
        Some(panel) => Ok(panel),
        None => unreachable!(),
    }
}

// Returns for each volunteer whether they are on the panel of the arc that begins at `at`.
fn given(
    alloc: Global,
    classes: &Classes,
    counts: &[usize],
    places: u128,
    at: u128,
) -> Result<Vec<bool>, AllocError>
    requires places { places ≡ dial classes.now counts.now }
    requires at { at < places }
    ensures { IfOk result (λ given. given.items
        ≡ map (is_given places at classes.now.classes counts.now) (range_with_len 0 (volunteer_count classes.now))) }
{
    let mut given = vec![in alloc; false; classes.volunteers()]?;
    mark_given(&mut given, classes, counts, places, at);
    Ok(given)
}

// Marks the volunteers whom the classes give on the arc that begins at `at`.
fn mark_given(given: &mut [bool], classes: &Classes, counts: &[usize], places: u128, at: u128)
    requires given { length given.old ≡ volunteer_count classes.now }
    requires parts { PartVolunteers classes.now }
    requires places { places ≡ dial classes.now counts.now }
    requires at { at < places }
    ensures { AreMarked given.old given.new (is_given places at classes.now.classes counts.now) }
{
    for (class, count) in classes.classes().iter().zip(counts) {
        let start = window_start(class, *count, places, at);
        mark_window(given, class.members(), start, *count);
    }
}

// Returns the place in the class's members at which its window begins on the arc at `at`. Returns 0 if all members are taken, or none,
// since then every start gives the same members.
fn window_start(class: &Class, count: usize, places: u128, at: u128) -> usize
    requires places { IsTrue (is_partly_taken class.now count) → length class.now.members ∣ places }
    requires at { at < places }
    ensures within { result ≤ length class.now.members }
    ensures same { (i : ℕ) → includes (turned result count class.now.members) i
        ≡ includes (turned (at * length class.now.members / places) count class.now.members) i }
{
    if is_partly_taken(class, count) {
        turns(class.size(), places, at)
    } else {
        0
    }
}

// Returns how often the window of a class of `size` members has moved on by one member when the dial is at `at`. It moves after each
// `places / size` places.
fn turns(size: usize, places: u128, at: u128) -> usize
    requires size { (0 < size) × (size ∣ places) }
    requires at { at < places }
    ensures value { result ≡ at * size / places }
    ensures within { result < size }
{
    (at / (places / size as u128)) as usize
}

// Marks `count` members, beginning with the one at place `start`. After the last member it goes on with the first.
fn mark_window(given: &mut [bool], members: &[usize], start: usize, count: usize)
    requires start { start ≤ length members.now }
    requires members { All (λ i. i < length given.old) members.now }
    ensures { AreMarked given.old given.new (includes (turned start count members.now)) }
{
    let (before, after) = members.split_at(start);
    let first = count.min(after.len());
    mark(given, &after[..first]);
    mark(given, &before[..before.len().min(count - first)]);
}

// Marks the numbers in `members`.
fn mark(given: &mut [bool], members: &[usize])
    requires { All (λ i. i < length given.old) members.now }
    ensures { AreMarked given.old given.new (includes members.now) }
{
    for member in members {
        given[*member] = true;
    }
}

// Returns the numbers that are marked, in rising order.
fn numbers(alloc: Global, given: &[bool]) -> Result<Vec<usize>, AllocError>
    ensures { IfOk result (λ numbers. numbers.items ≡ filter (λ i. slice_index_or given.now i false) (range_with_len 0 (length given.now))) }
{
    let mut numbers = Vec::new(alloc);
    for (number, is_given) in given.iter().enumerate() {
        if *is_given {
            numbers.push(number)?;
        }
    }
    Ok(numbers)
}
