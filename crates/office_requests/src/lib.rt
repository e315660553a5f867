//! Requests to the desk, as they are read from a link: what the bytes of a connection ask for. At most 8,192 bytes are kept.
//!
//! Promises: `read_asking`.
#![tactic(auto)]

mod askings;
mod ends;
mod fields;
mod fronts;
mod heads;
mod reading;
mod requests;

pub use askings::{Asking, RequestStop};
pub use reading::read_asking;
pub use requests::{Key, Request};
