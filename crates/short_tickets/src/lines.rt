//! Which rows get a ticket that is left: those whose remainder is above a line, and the earliest on it.

ghost use Rattle.std.specs.Prelude.{◌≡◌, ◌≤◌, ◌-◌, ◌==◌, ◌||◌, ◌&&◌, nat_lt, if◌then◌else◌, count_by, length, IfOk};
ghost use Rattle.short_tickets.specs.Parts.{IsLineFor};

use std::alloc::{AllocError, Global};

/// Which rows get one of the tickets that are left: each row with a remainder above `remainder`, and the next `ties` rows whose remainder
/// is `remainder`.
#[derive(Clone, Copy, Debug)]
pub(crate) struct Line {
    /// The remainder.
    pub remainder: u128,
    /// How many rows with this remainder get a ticket.
    pub ties: usize,
}

impl Line {
    /// True if the next row, with this remainder, gets a ticket. If its remainder is that of the line, one of `ties` is
    /// used up, if any is left.
    pub(crate) fn gives(&mut self, remainder: u128) -> bool
        ensures given { result ≡ (nat_lt self.old.remainder remainder || ((remainder == self.old.remainder) && nat_lt 0 self.old.ties)) }
        ensures remainder { self.new.remainder ≡ self.old.remainder }
        ensures ties { self.new.ties ≡ self.old.ties - (if remainder == self.old.remainder then 1 else 0) }
    {
        if remainder != self.remainder {
            return remainder > self.remainder;
        }
        if self.ties == 0 {
            return false;
        }
        self.ties -= 1;
        true
    }
}

/// Returns the line for `left` tickets, at most as many as there are rows.
pub(crate) fn line_for(alloc: Global, remainders: &[u128], left: usize) -> Result<Line, AllocError>
    requires some { 1 ≤ length remainders.now }
    requires left { left ≤ length remainders.now }
    ensures { IfOk result (λ line. IsLineFor left remainders.now line) }
{
    let mut sorted = Vec::from_slice(alloc, remainders)?;
    sorted.sort()?;
    let remainder = sorted[sorted.len() - left.max(1)];
    let above = count_above(remainders, remainder);
    Ok(Line {
        remainder,
        ties: left - above,
    })
}

/// Returns how many remainders are above `line`.
fn count_above(remainders: &[u128], line: u128) -> usize
    ensures { result ≡ count_by (λ other. nat_lt line other) remainders.now }
{
    remainders.iter().filter(|other| line < **other).count()
}
