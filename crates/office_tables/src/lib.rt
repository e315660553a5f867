//! The tables of an office as values: charter, rules, rows of the register and rounds, and how a change changes them. Contracts see them as
//! the tables of `define_offices`, of which `IsTables` holds at every moment.
//!
//! Promises: `tables_of` returns tables exactly if `IsTables` holds of its parts, and `apply` returns exactly the changed tables.
#![tactic(auto)]

mod changes;
mod charters;
mod checking;
mod drawn;
mod kept_rounds;
mod names;
mod numbers;
mod phases;
mod rows;
mod tables;

pub use changes::{Change, apply};
pub use charters::{Charter, Rules};
pub use checking::{fits_rules, most_rows};
pub use define_offices::{Part, Phase};
pub use drawn::{drawn_by, is_member};
pub use kept_rounds::Round;
pub use numbers::{LaterRound, Tickets, copied_tickets, tickets_facts};
pub use phases::phase_name;
pub use rows::{Entry, Given, Rows};
pub use tables::{Parts, Tables, tables_of};
