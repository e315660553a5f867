//! Covers as values, and their text: a cover is read from it, or answered with its first fault, and written as it. `define_covers` defines
//! both.
//!
//! Promises: `Cover` and its ranges; `read_cover` returns exactly the cover that the bytes spell or their first fault, and `write_cover`
//! returns the cover's text. All other functions are helpers.
#![tactic(auto)]

mod covers;
mod fronts;
mod lines;
mod progress;
mod ranges;
mod reading;
mod shared;
mod writing;

pub use covers::Cover;
pub use fronts::{Cause, FrontLine, Fronts};
pub use ranges::{is_front_line, value_count};
pub use reading::read_cover;
pub use text_lines::{TextFault as CoverFault, TextStop as ReadCover};
pub use writing::write_cover;
