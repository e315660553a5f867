//! A public draw: the tickets of a lottery's rows, which ticket the digits of dice name, seals, and what is drawn; and a lottery in a round
//! number of tickets, so that fewer dice are needed (`short`). The definitions are in `specs/`.
//!
//! The functions have no body: their contracts are laws over the definitions, and worked examples. The promises that matter most are
//! `dice_are_fair` and, of a shortened lottery, `no_list_is_nearer`.
#![tactic(auto)]

pub mod short;

ghost use Rattle.std.specs.Prelude.{◌≡◌, ◌↔◌, ◌≤◌, ◌<◌, ◌+◌, ◌*◌, ◌^◌, ℕ, List, [], ◌∷◌, codes, filter, length, map, slice_index, sum, IsTrue, Ok, Err, pos};
ghost use Rattle.std.specs.Char.{to_ascii_lowercase};
ghost use Rattle.std.specs.List.{range_with_len};
ghost use Rattle.define_pools.specs.Lottery.{Lottery, TotalAgrees};
ghost use Rattle.define_draws.specs.Dice.{group_size, is_accepted, name_ticket, names_row, groups_per_ticket, ticket_of};
ghost use Rattle.define_draws.specs.Draw.{Drawn, draw, panel_at};
ghost use Rattle.define_draws.specs.Tickets.{HoldsTicket, first_ticket, row_of, weights_of};

use thiserror::Error;

/// The ticket that some digits name.
#[derive(Clone, Copy, Debug, PartialEq, Eq)]
pub struct Named {
    /// The ticket, from 0 to the total less 1.
    pub ticket: i128,
    /// How many digits were read, up to the end of the group that names the ticket.
    pub used: usize,
}

/// Why digits name no ticket.
#[derive(Clone, Copy, Debug, PartialEq, Eq, Error)]
pub enum DiceStop {
    /// A byte isn't one of the digits `0` to `9`.
    #[error("byte {place} is no digit")]
    BadDigit {
        /// The place of the first such byte, from 1.
        place: usize,
    },
    /// No group of the digits is accepted: more dice must be thrown.
    #[error("no group of the {read} digits is accepted")]
    MoreDigits {
        /// How many digits were given.
        read: usize,
    },
}

/// If `TotalAgrees` holds of a lottery, its weights sum to its total.
pub fn weights_sum()
    ensures { (lottery : Lottery) → TotalAgrees lottery → lottery.total ≡ sum (weights_of lottery) }
{}

/// Each ticket below the sum of the weights is in the range of one row, and of no other.
pub fn each_ticket_has_one_row()
    ensures holds { (weights : List ℕ) (ticket : ℕ) → ticket < sum weights → HoldsTicket weights (row_of weights ticket) ticket }
    ensures only { (weights : List ℕ) (row ticket : ℕ) → HoldsTicket weights row ticket → row ≡ row_of weights ticket }
{}

/// A group has the least number of digits, at least 1, for which there are at least as many groups as tickets.
pub fn group_size_is_least()
    ensures some { (total : ℕ) → 1 ≤ group_size total }
    ensures enough { (total : ℕ) → total ≤ 10 ^ group_size total }
    ensures least { (total size : ℕ) → 1 ≤ size → total ≤ 10 ^ size → group_size total ≤ size }
{}

/// An accepted group names a ticket below the total.
pub fn accepted_groups_name_tickets()
    ensures { (total group : ℕ) → 1 ≤ total → IsTrue (is_accepted total group) → ticket_of total group < total }
{}

/// Fair dice give each row exactly its fraction. The accepted groups that name a row's tickets are consecutive numbers: they begin at
/// `groups_per_ticket` times the row's first ticket, and their number is `groups_per_ticket` times the row's weight. Dice can show each of
/// these numbers: it has no more digits than a group. `groups_per_ticket` is at least 1, and the same for all rows.
pub fn dice_are_fair()
    ensures exactly { (weights : List ℕ) (row group : ℕ) → row < length weights → 1 ≤ sum weights →
        IsTrue (names_row weights row group) ↔ ((groups_per_ticket (sum weights) * first_ticket weights row ≤ group) × (group < groups_per_ticket (sum weights) * (first_ticket weights row + slice_index weights row))) }
    ensures groups { (weights : List ℕ) (row : ℕ) → row < length weights → 1 ≤ sum weights →
        groups_per_ticket (sum weights) * (first_ticket weights row + slice_index weights row) ≤ 10 ^ group_size (sum weights) }
    ensures some { (total : ℕ) → 1 ≤ total → 1 ≤ groups_per_ticket total }
    ensures count { (weights : List ℕ) (row : ℕ) → row < length weights → 1 ≤ sum weights →
        length (filter (names_row weights row) (range_with_len 0 (10 ^ group_size (sum weights)))) ≡ groups_per_ticket (sum weights) * slice_index weights row }
{}

/// If a lottery's total is at least 1 and its weights sum to it, a draw returns the panel of the row whose range has the ticket. It returns
/// a panel only if the seal that was given, with its capitals made small, is the one that is kept.
pub fn draws_the_row_of_the_ticket()
    ensures row { (lottery : Lottery) (kept given digits : List ℕ) (drawn : Drawn) → TotalAgrees lottery → 1 ≤ lottery.total → draw lottery kept given digits ≡ Ok drawn →
        (row : ℕ) × (HoldsTicket (weights_of lottery) row drawn.ticket × (drawn.panel ≡ panel_at lottery row)) }
    ensures seal { (lottery : Lottery) (kept given digits : List ℕ) (drawn : Drawn) → draw lottery kept given digits ≡ Ok drawn → map to_ascii_lowercase given ≡ kept }
{}

/// Which tickets some digits name, or why they name none, for totals from 1 to 10^38; and the rows of the tickets of a small lottery.
/// Computed on the definitions.
pub fn worked_draws()
    ensures three { name_ticket 3 (codes "97") ≡ Ok (record { ticket = pos 2; used = 2 }) }
    ensures refused { name_ticket 3 (codes "9") ≡ Err (DiceStop.MoreDigits 1) }
    ensures eleven { name_ticket 11 (codes "99") ≡ Err (DiceStop.MoreDigits 2) }
    ensures one { name_ticket 1 (codes "7") ≡ Ok (record { ticket = pos 0; used = 1 }) }
    ensures letter { name_ticket 1 (codes "1x") ≡ Err (DiceStop.BadDigit 2) }
    ensures nothing { name_ticket 7 [] ≡ Err (DiceStop.MoreDigits 0) }
    ensures greatest { name_ticket (10 ^ 38) (codes "120000000000000000000000000000000000039") ≡ Ok (record { ticket = pos 12000000000000000000000000000000000003; used = 38 }) }
    ensures rows { map (row_of (1 ∷ 2 ∷ 1 ∷ [])) (range_with_len 0 4) ≡ 0 ∷ 1 ∷ 1 ∷ 2 ∷ [] }
{}
