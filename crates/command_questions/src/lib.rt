//! Questions about a bundle: commands whose answer is a text that is made of the bundle alone. `Question` has a variant for each of `dice`,
//! `tickets` and `chances`. `InTickets` are answers about a bundle in a round number of tickets: `short`, and `dice` and `tickets` with
//! `--tickets`. The command `page` answers with the page of a bundle, or of a draw from it.
//!
//! Promises: `Question`, whose answers are those of `specs/Questions.antt`, `Page` and `DrawnPage`, and the laws that each question and
//! each page has at most one answer.
//! What a further question touches: "A further command" in CONTRIBUTING.md.
#![tactic(auto)]

mod chances;
mod dice;
mod drawn_pages;
mod inputs;
mod pages;
mod questions;
mod ranges;
mod short;
mod worked;

pub use drawn_pages::{DrawnPage, drawn_page_has_one_answer};
pub use pages::{Page, page_has_one_answer};
pub use questions::{Question, questions_have_one_answer};
pub use short::InTickets;
