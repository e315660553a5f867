//! The words of a call of the program, read by `clap`: which command they ask for, with the values of its options.
//!
//! The commands are a table (`table.rt`), and a command's words are one entry of it. Building the program for `clap` (`program.rt`),
//! reading the values of a command's options (`values.rt`) and the rule that says what words give (`specs/Words.antt`) are proved once for
//! every table.
//!
//! Promises: `read_words` and the calls of `Given` and `Word`.
#![tactic(auto)]

mod given;
mod help;
mod program;
mod reading;
mod table;
mod values;
mod version;
mod words;
mod worked;

pub use given::{Given, Value, Word};
pub use reading::{WordsStop, read_words};
pub use words::CommandName;
pub use worked::words_are_worked;
