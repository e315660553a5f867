//! The top call of the program. `office` reads the words and makes one call of the command that they ask for, over a source, two sinks, a
//! keeper and a door. `asked` has the list of all commands with their arguments.
//!
//! Promises: the contract of `office` says for each list of words what each status means (`specs/Office.antt`), and what follows from it,
//! on one page (`specs/Headline.antt`). `promises` has the laws by which it follows, and those that speak of several calls.
#![tactic(auto)]

mod asked;
mod promises;
mod steps;
mod top_call;
mod unread;

pub use asked::{Asked, read_asked};
pub use promises::{
    calls_are_recorded, headline, repeats_change_nothing, several_calls, volunteers_are_isolated,
    workers_change_nothing,
};
pub use steps::{Step, command_of};
pub use top_call::office;
pub use unread::no_words;
