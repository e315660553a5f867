//! The commands that read one text and start no threads, as one list, and one function that answers any of them from the bytes of its
//! input.
//!
//! Promises: `answer_text` answers as `specs/TextMeans.antt` says, which names for each command its format and its meaning; `call` of the
//! shell tells that answer for a `TextCommand`.
#![tactic(auto)]

mod answering;
mod asking;
mod commands;

pub use answering::answer_text;
pub use asking::{prove_in, text_asked};
pub use commands::TextCommand;
