//! What remains of a point after panels were taken off it.

ghost use Rattle.std.specs.Prelude.{◌≡◌, length, IfOk};

use crate::seen::SeenPanels;
use prove_limits::{Narrow, ProveStop, narrow_add, narrow_sub, times};
use std::alloc::{AllocError, Global};

/// A panel that was taken off, by its number among the panels seen, and how often.
#[derive(Clone, Copy)]
pub(crate) struct Taken {
    pub(crate) weight: Narrow,
    pub(crate) panel: usize,
}

/// What remains of a point: each volunteer's part, and the total; and the panels that were taken off.
#[derive(Drop)]
pub(crate) struct Remainder {
    pub(crate) parts: Vec<Narrow>,
    pub(crate) total: Narrow,
    // the total before any panel was taken off
    pub(crate) whole: Narrow,
    pub(crate) taken: Vec<Taken>,
}

impl Remainder {
    /// Returns a copy of the remainder.
    pub(crate) fn copy(&self, alloc: Global) -> Result<Remainder, AllocError>
        ensures { IfOk result (λ copied. length copied.parts.items ≡ length self.now.parts.items) }
    {
        Ok(Remainder {
            parts: Vec::from_slice(alloc, &self.parts)?,
            total: self.total,
            whole: self.whole,
            taken: Vec::from_slice(alloc, &self.taken)?,
        })
    }

    /// Takes a panel off, `weight` times.
    pub(crate) fn take(
        &mut self,
        seen: &SeenPanels,
        panel: usize,
        weight: Narrow,
    ) -> Result<(), ProveStop>
        ensures { length self.new.parts.items ≡ length self.old.parts.items }
    {
        take_from(&mut self.parts, seen.members(panel), weight)?;
        self.total = narrow_sub(self.total.wide(), weight.wide())?;
        self.taken.push(Taken { weight, panel })?;
        Ok(())
    }

    /// Puts back the last `count` panels taken, or all if there are fewer.
    pub(crate) fn put_back(&mut self, seen: &SeenPanels, count: u64) -> Result<(), ProveStop>
        ensures { length self.new.parts.items ≡ length self.old.parts.items }
    {
        for _ in 0..count {
            let Some(taken) = self.taken.pop() else {
                return Ok(());
            };
            add_to(&mut self.parts, seen.members(taken.panel), taken.weight)?;
            self.total = narrow_add(self.total.wide(), taken.weight.wide())?;
        }
        Ok(())
    }

    /// Doubles the parts, the totals and the weights of the panels taken off, so that all fractions stay the same.
    pub(crate) fn double(&mut self) -> Result<(), ProveStop>
        ensures { length self.new.parts.items ≡ length self.old.parts.items }
    {
        double_parts(&mut self.parts)?;
        double_weights(&mut self.taken)?;
        self.total = doubled(self.total)?;
        self.whole = doubled(self.whole)?;
        Ok(())
    }

    /// True if the part of its whole that is left in this remainder is less than the part that is left in `other`.
    pub(crate) fn is_less_than(&self, other: &Remainder) -> bool {
        times(self.total, other.whole) < times(other.total, self.whole)
    }
}

/// Subtracts `weight` from the part of each member.
fn take_from(parts: &mut [Narrow], members: &[usize], weight: Narrow) -> Result<(), ProveStop>
    ensures { length parts.new ≡ length parts.old }
{
    for member in members {
        if let Some(part) = parts.get_mut(*member) {
            *part = narrow_sub(part.wide(), weight.wide())?;
        }
    }
    Ok(())
}

/// Adds `weight` to the part of each member.
fn add_to(parts: &mut [Narrow], members: &[usize], weight: Narrow) -> Result<(), ProveStop>
    ensures { length parts.new ≡ length parts.old }
{
    for member in members {
        if let Some(part) = parts.get_mut(*member) {
            *part = narrow_add(part.wide(), weight.wide())?;
        }
    }
    Ok(())
}

/// Doubles each part.
fn double_parts(parts: &mut [Narrow]) -> Result<(), ProveStop>
    ensures { length parts.new ≡ length parts.old }
{
    for part in parts.iter_mut() {
        *part = doubled(*part)?;
    }
    Ok(())
}

/// Doubles each weight.
fn double_weights(panels: &mut [Taken]) -> Result<(), ProveStop> {
    for taken in panels.iter_mut() {
        taken.weight = doubled(taken.weight)?;
    }
    Ok(())
}

/// Returns twice a number.
fn doubled(number: Narrow) -> Result<Narrow, ProveStop> {
    narrow_add(number.wide(), number.wide())
}
