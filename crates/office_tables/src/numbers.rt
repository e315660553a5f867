//! Numbers in a range: a round number of tickets, and the number of a round after the first.

ghost use Rattle.std.specs.Prelude.{◌≡◌, ◌^◌, ◌≤ℤ◌, nat_le, pos, if◌then◌else◌, IsTrue, Some, None};
ghost use Rattle.define_offices.specs.Facts.{are_tickets};

use std::marker::Model;

/// The greatest number of tickets that may be kept with a seal.
const MAX_TICKETS: u32 = 1_000_000_000;

/// A round number of tickets, from 1 to 1,000,000,000.
#[derive(Debug, Drop)]
pub struct Tickets {
    count: u32,
}

impl Model for Tickets {
    ghost use Rattle.std.specs.Prelude.{ℕ, IsTrue, Some};
    ghost use Rattle.define_offices.specs.Facts.{are_tickets};

    ghost Value = { ℕ };

    ghost view = { λ t. t.count };

    ghost invariant = { λ t. IsTrue (are_tickets (Some t.count)) };
}

impl Tickets {
    /// Returns this number of tickets, or None exactly if it is out of its range.
    pub fn new(count: u32) -> Option<Tickets>
        ensures { result ≡ (if are_tickets (Some count) then Some count else None) }
    {
        if 1 <= count && count <= MAX_TICKETS {
            Some(Tickets { count })
        } else {
            None
        }
    }

    /// Returns the number.
    pub fn count(&self) -> u32
        ensures value { result ≡ self.now }
        ensures range { IsTrue (are_tickets (Some self.now)) }
    {
        self.count
    }

    /// Returns the number as a signed one.
    pub fn number(&self) -> i128
        ensures value { result ≡ pos self.now }
        ensures from { pos 1 ≤ℤ result }
        ensures to { result ≤ℤ pos (10 ^ 9) }
    {
        self.count as i128
    }

    /// Returns an equal number.
    fn copy(&self) -> Tickets
        ensures { result ≡ self.now }
    {
        Tickets { count: self.count }
    }
}

/// Returns an equal number of tickets, or None if there is none.
pub fn copied_tickets(tickets: &Option<Tickets>) -> Option<Tickets>
    ensures { result ≡ tickets.now }
{
    match tickets {
        Some(tickets) => Some(tickets.copy()),
        None => None,
    }
}

/// Does nothing; its contract says that a number of tickets is always in its range.
pub fn tickets_facts(tickets: &Option<Tickets>)
    ensures { IsTrue (are_tickets tickets.now) }
{
    if let Some(tickets) = tickets {
        let _count = tickets.count();
    }
}

/// The number of a round after the first: at least 2.
#[derive(Debug, Drop)]
pub struct LaterRound {
    number: usize,
}

impl Model for LaterRound {
    ghost use Rattle.std.specs.Prelude.{ℕ, nat_le, IsTrue};

    ghost Value = { ℕ };

    ghost view = { λ r. r.number };

    ghost invariant = { λ r. IsTrue (nat_le 2 r.number) };
}

impl LaterRound {
    /// Returns the round of this number, or None exactly if the number is below 2.
    pub fn new(number: usize) -> Option<LaterRound>
        ensures { result ≡ (if nat_le 2 number then Some number else None) }
    {
        if 2 <= number {
            Some(LaterRound { number })
        } else {
            None
        }
    }

    /// Returns the number.
    pub fn number(&self) -> usize
        ensures value { result ≡ self.now }
        ensures range { IsTrue (nat_le 2 self.now) }
    {
        self.number
    }

    /// Returns an equal number.
    pub fn copy(&self) -> LaterRound
        ensures { result ≡ self.now }
    {
        LaterRound {
            number: self.number,
        }
    }
}
