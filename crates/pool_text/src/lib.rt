//! Reads and writes the text of a pool, as a city writes it. Bytes that are no pool's text are refused with their first fault.
//!
//! Promises: `read_pool` and `write_pool`. `Progress`, `after` and the functions of versions serve the readers and writers of texts that
//! contain a pool; `push_panel` serves those that name a panel's members.
#![tactic(auto)]

mod entries;
mod faults;
mod panel_lines;
mod progress;
mod reading;
mod versions;
mod writing;

pub use faults::{PoolFault, ReadPool};
pub use panel_lines::push_panel;
pub use progress::{Progress, after};
pub use reading::read_pool;
pub use versions::{version_line, version_of, version_word};
pub use writing::write_pool;
