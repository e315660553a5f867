//! The candidates of a row whose variable is out of its span: the slots whose variables can move it back. One of them enters the basis.

ghost use Rattle.std.specs.Prelude.{◌≢◌, pos, IfErr};
ghost use Rattle.prove_limits.specs.Stops.{IsWideOrMemory};

use crate::rows::entry_at;
use crate::slots::Slot;
use crate::spans::Spans;
use crate::variables::Variable;
use crate::worst::{Rule, Worst};
use prove_limits::{Narrow, ProveStop, Span, times, wide_mul, wide_sub};

// A slot whose variable can move the row's variable towards its span, with the row's entry there, which is not 0.
#[derive(Clone, Copy)]
pub(crate) struct Candidate {
    pub(crate) slot: usize,
    pub(crate) variable: Variable,
    pub(crate) entry: Narrow,
    ratio: u128,
    ghost is_entry: { entry ≢ pos 0 },
}

// Returns the goal's entry divided by the row's, without signs, in units of 2^-60.
fn ratio(goal: Narrow, entry: Narrow) -> u128
    requires { entry ≢ pos 0 }
{
    (goal.get().unsigned_abs() as u128 * (1 << 60)) / entry.get().unsigned_abs() as u128
}

// Returns the slot as a candidate if its variable, moved off the end of `span` where it is, moves the row's variable towards the row's
// span. Returns None if it doesn't, if the row's entry in the slot is 0, or if `span` is a point.
fn helping(
    slot: usize,
    at: Slot,
    entry: Narrow,
    goal: Narrow,
    span: Span,
    is_below: bool,
) -> Option<Candidate> {
    if entry.is_zero() || span.is_point() {
        return None;
    }
    if (entry.get() > 0) != (is_below != at.is_at_greatest) {
        return None;
    }
    Some(Candidate {
        slot,
        variable: at.variable,
        entry,
        ratio: ratio(goal, entry),
    })
}

// Lists all candidates of a row. `is_below` says whether the row's variable is below its span.
pub(crate) fn gather(
    entries: &[Narrow],
    slots: &[Slot],
    goal: &[Narrow],
    spans: &Spans,
    is_below: bool,
    candidates: &mut Vec<Candidate>,
) -> Result<(), ProveStop>
    ensures { IfErr result IsWideOrMemory }
{
    candidates.clear();
    for slot in 0..slots.len() {
        let at = slots[slot];
        let found = helping(
            slot,
            at,
            entry_at(entries, slot),
            entry_at(goal, slot),
            spans.of(at.variable),
            is_below,
        );
        if let Some(found) = found {
            candidates.push(found)?;
        }
    }
    Ok(())
}

// Returns the candidate of the least variable.
fn least(candidates: &[Candidate]) -> Option<Candidate> {
    let mut found: Option<Candidate> = None;
    for candidate in candidates {
        let is_less = match &found {
            None => true,
            Some(so_far) => candidate.variable < so_far.variable,
        };
        if is_less {
            found = Some(*candidate);
        }
    }
    found
}

// Returns how far the row's variable is still out of its span, times the denominator, once a candidate's variable has moved from one end
// of `span`, its own span, to the other.
fn need_after(need: i128, candidate: &Candidate, span: Span) -> Result<i128, ProveStop>
    ensures { IfErr result IsWideOrMemory }
{
    let gap = span.greatest().wide() - span.least().wide();
    wide_sub(need, wide_mul(candidate.entry.abs().wide(), gap)?)
}

// Moves the candidates, in order, to the other ends of their spans, until one would bring the row's variable back into its span. Returns
// that candidate, or None if none of them does.
fn pass(
    candidates: &[Candidate],
    slots: &mut [Slot],
    spans: &Spans,
    worst: Worst,
) -> Result<Option<Candidate>, ProveStop>
    ensures { IfErr result IsWideOrMemory }
{
    let mut need = worst.need;
    for candidate in candidates {
        need = need_after(need, candidate, spans.of(candidate.variable))?;
        if need <= 0 {
            return Ok(Some(*candidate));
        }
        if let Some(slot) = slots.get_mut(candidate.slot) {
            slot.is_at_greatest = !slot.is_at_greatest;
        }
    }
    Ok(None)
}

// Returns the candidate that enters the basis, by `rule`. None means that the candidates can't bring the row's variable back into its span,
// so no point keeps this span.
pub(crate) fn choose(
    candidates: &mut Vec<Candidate>,
    slots: &mut [Slot],
    spans: &Spans,
    worst: Worst,
    rule: Rule,
) -> Result<Option<Candidate>, ProveStop>
    ensures { IfErr result IsWideOrMemory }
{
    match rule {
        Rule::Least => Ok(least(candidates)),
        Rule::Farthest => {
            candidates.sort_unstable_by_key(|c| (c.ratio, c.entry.abs(), c.variable));
            pass(candidates, slots, spans, worst)
        }
    }
}
