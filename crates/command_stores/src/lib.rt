//! The shell of commands over a store. `call_step` makes one call of any command of the office: it attaches the keeper, loads the tables,
//! lets `act_over` decide and store, and tells the answer. `call_import` does so for a command that is read from a file, `call_prove_round`
//! for a proof that it makes of a round's pool, and `call_text` prints a text that is made of the tables.
//!
//! Promises: `call_step`, `call_import`, `call_prove_round`, `call_text`, and the laws that a command and an import have at most one
//! answer.
#![tactic(auto)]

mod calling;
mod imports;
mod laws;
mod pages;
mod proving;
mod refusals;
mod steps;
mod texts;

pub use calling::attach;
pub use imports::call_import;
pub use laws::{imports_answer_once, steps_answer_once};
pub use proving::{ProveRound, call_prove_round};
pub use steps::call_step;
pub use texts::call_text;
