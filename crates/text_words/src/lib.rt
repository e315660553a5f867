//! Says in plain words what a file is: what a right pool, bundle, proof or cover holds; else, for each faulty line of such a text, what is
//! there and what may be there; or what any other file is, and what to do.
//!
//! Promises: `words_about` ends for all bytes. No contract promises what its words are; `tests/explain` shows them. The exact readers give
//! it the first fault. It finds what is wrong after that by a reading of its own, which goes on after a fault: `forms` is the table of all
//! lines, and `reading` takes lines by it.
#![tactic(auto)]

mod checking;
mod explaining;
mod files;
mod forms;
mod reading;
mod rows;
mod showing;
mod summaries;

pub use explaining::words_about;
