//! The shell that all commands of the program share. A command is a function from its arguments and the value of its input to an answer; it
//! never sees `out` or `errs`. `answer_about` reads that value from bytes and asks the command. `call` reads the source, asks for the
//! answer about its bytes and writes it; its contract is proved for every meaning of a command. `call_answered_by` does the same with a
//! closure that answers, because methods of traits can't start threads.
//!
//! Promises: `call`, `call_answered_by`, `call_silent`, `refuse_words`, `want_memory`. The rest serves the commands.
#![tactic(auto)]

mod answer;
mod bundle_or_proof;
mod calling;
mod command;
mod formats;
mod lines;
mod reading;
mod status;
mod subject;
mod telling;

pub use answer::Answer;
pub use bundle_or_proof::{BundleOrProof, PROOF};
pub use calling::{answer_about, call, call_answered_by, call_silent};
pub use command::{Answering, Command, Meaning, Resources};
pub use formats::{BUNDLE, PoolOrBundle};
pub use lines::{WRONG_TOTAL, input_line, no_panel};
pub use reading::{read_input, refuse_input};
pub use status::{Cause, Printed, Status};
pub use subject::{Nothing, Subject};
pub use telling::{door_fault, keeper_fault, refuse_words, tell, want_memory};
