//! Numbers of tickets that a lottery is shortened to.

ghost use Rattle.std.specs.Prelude.{◌≡◌, ◌^◌, ◌≤ℤ◌, ◌&&◌, nat_le, pos, if◌then◌else◌, Some, None};

use std::marker::Model;

/// The most tickets.
const MOST_TICKETS: u32 = 1_000_000_000;

/// A number of tickets, from 1 to 10^9.
#[derive(Clone, Copy, Debug)]
pub struct TicketCount {
    number: u32,
}

impl Model for TicketCount {
    ghost use Rattle.std.specs.Prelude.{ℕ, ◌≤◌};

    ghost Value = { ℕ };

    ghost view = { λ it. it.number };

    ghost invariant = { λ it. (1 ≤ it.number) × (it.number ≤ 1000000000) };

    ghost inverse = { λ number. record { number = number } };
}

impl TicketCount {
    /// Returns `number` as a number of tickets, or None if it is not from 1 to 10^9.
    pub fn new(number: u64) -> Option<TicketCount>
        ensures { result ≡ (if nat_le 1 number && nat_le number 1000000000 then Some number else None) }
    {
        let number = u32::try_from(number).ok()?;
        if 1 <= number && number <= MOST_TICKETS {
            Some(TicketCount { number })
        } else {
            None
        }
    }

    /// Returns the number.
    pub fn number(self) -> i128
        ensures value { result ≡ pos self }
        ensures from { pos 1 ≤ℤ result }
        ensures to { result ≤ℤ pos (10 ^ 9) }
    {
        self.number as i128
    }
}
