//! The outcome of each command of an office that needs neither the stated run nor a proof: imports, seals, draws, dropouts, next rounds,
//! withdrawals and showing a round. Each outcome is a reply with at most one change of the tables, or a refusal. The pool of a round is
//! made in `pools`.
//!
//! Promises: each public function for a command returns exactly the outcome that `define_offices` defines, or that memory ran out.
#![tactic(auto)]

mod drawn;
mod draws;
mod imports;
mod lines;
mod named;
mod nexts;
pub mod pools;
mod registering;
mod replies;
mod stops;
mod withdrawing;

pub use crate::pools::round_named;
pub use draws::{draw_round, drop_member, seal_round, try_draw, undrop_member};
pub use imports::{set_bounds, set_charter, set_rules};
pub use lines::line;
pub use named::no_round;
pub use nexts::{next_round, reopen_round, show_round};
pub use registering::register;
pub use replies::{Refusal, Reply};
pub use stops::OfficeStop;
pub use withdrawing::{withdraw, withdraw_id};
