//! Slots: one for each variable that is not basic. Each such variable is at one end of its span.

ghost use Rattle.std.specs.Prelude.{◌≤◌, length};

use crate::pseudo_random::PseudoRandom;
use crate::spans::Spans;
use crate::variables::Variable;
use prove_limits::{Narrow, narrow_mul};

// The greatest pseudo-random number in a fresh goal, where each is multiplied by the denominator.
const MOST_PART: u64 = 1024;

// A variable that is not basic, and the end of its span that it is at.
#[derive(Clone, Copy)]
pub(crate) struct Slot {
    pub(crate) variable: Variable,
    pub(crate) is_at_greatest: bool,
}

// Makes a pseudo-random goal that keeps each slot at its end. If the denominator is so great that an entry might pass 2^62, the goal is 0.
pub(crate) fn refresh(goal: &mut [Narrow], slots: &[Slot], denominator: Narrow, seed: u64)
    requires { length slots.now ≤ length goal.old }
{
    let is_wide = denominator.get() > Narrow::MOST / MOST_PART as i64;
    let mut random = PseudoRandom::new(seed);
    for slot in 0..slots.len() {
        let part = random.next_up_to(MOST_PART) as i128;
        let sign = if slots[slot].is_at_greatest {
            part
        } else {
            -part
        };
        goal[slot] = if is_wide {
            Narrow::ZERO
        } else {
            narrow_mul(denominator.wide(), sign).unwrap_or(Narrow::ZERO)
        };
    }
}

// True if the goal's entry asks for the greatest number of a slot's span. An entry of 0 leaves the slot at its end.
fn end_asked(goal: Narrow, is_at_greatest: bool) -> bool {
    if goal.get() > 0 {
        true
    } else if goal.get() < 0 {
        false
    } else {
        is_at_greatest
    }
}

// Puts each slot at the end of its span that the goal asks for, and writes its value.
pub(crate) fn settle(slots: &mut [Slot], goal: &[Narrow], values: &mut [Narrow], spans: &Spans)
    requires goal { length slots.old ≤ length goal.now }
    requires values { length slots.old ≤ length values.old }
{
    for slot in 0..slots.len() {
        let is_at_greatest = end_asked(goal[slot], slots[slot].is_at_greatest);
        let span = spans.of(slots[slot].variable);
        slots[slot].is_at_greatest = is_at_greatest;
        values[slot] = if is_at_greatest {
            span.greatest()
        } else {
            span.least()
        };
    }
}
