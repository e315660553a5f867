//! The desk over HTTP: one connection. `attend` reads what is asked over a link, has the desk answer it over the tables of a keeper, and
//! writes the reply.
//!
//! Promises: `attend`.
#![tactic(auto)]

mod attending;

pub use attending::{LinkFault, attend};
