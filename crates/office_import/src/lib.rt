//! Reads the files that an office imports: a charter in TOML, rules and a register in CSV. A file with a fault is refused with its first
//! faulty record and the lowest kind of fault there.
//!
//! Promises: `read_charter`, `read_rules` and `read_register` return exactly the value or the first fault of the definitions, or that
//! memory ran out.
#![tactic(auto)]

mod charters;
mod drafts;
mod names;
mod records;
mod registers;
mod rules;
mod stops;

pub use charters::read_charter;
pub use registers::read_register;
pub use rules::read_rules;
pub use stops::{ImportFault, ImportStop};
