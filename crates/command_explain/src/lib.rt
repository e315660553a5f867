//! The command `explain`, which reads anything: it says in words what a right text holds, or what is wrong with any other file.
//!
//! Promises: `Explain` answers as Explain of `command_meanings` says. The status and the line `input` are exact: they are those of the
//! commands that read texts of this form. No contract says what the words are.
#![tactic(auto)]

mod any_text;
mod explain;

pub use any_text::{AnyText, right_or_faulty};
pub use explain::Explain;
