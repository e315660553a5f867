//! A public draw from a bundle: the seal of its text, and the panel of the ticket that the digits of dice name, drawn only under the seal
//! that is kept.
//!
//! Promises: `seal`, `draw` and `total_agrees`. The module `lines` serves those that print a draw.
#![tactic(auto)]

mod agreeing;
mod drawing;
mod drawn;
mod lines;
mod sealing;

pub use agreeing::total_agrees;
pub use drawing::draw;
pub use drawn::{Draw, DrawStop};
pub use lines::{drawn_lines, push_ticket};
pub use sealing::seal;
