//! The desk of an office: what it sends for a request over the tables that a keeper keeps, byte for byte. A request for a page is answered
//! from the tables, and a withdrawal is stored.
//!
//! Promises: `answer`, `unwell`, and the laws `desk_is_isolated` and `public_pages_are_public`.
#![tactic(auto)]

mod answers;
mod bodies;
mod chances;
mod laws;
mod own_page;
mod public_pages;
mod published;
mod refusals;
mod replies;
mod routes;
mod seat_page;
mod serving;
mod withdrawing;

pub use answers::Answer;
pub use laws::{desk_is_isolated, public_pages_are_public};
pub use serving::{answer, unwell};
