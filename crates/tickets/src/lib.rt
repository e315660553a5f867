//! The tickets of a lottery: a table that finds the row of a ticket by binary search, and a call that reads which ticket the digits of dice
//! name.
//!
//! Promises: `table`, `pick` and `name_ticket` return exactly what the definitions say.
#![tactic(auto)]

mod dice;
mod ranges;

pub use define_draws::{DiceStop, Named};
pub use dice::name_ticket;
pub use ranges::{TicketTable, pick, table};
