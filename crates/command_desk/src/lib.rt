//! The command `serve`, which opens the desk of an office: it attends the links that a door gives, one after the other, over the tables of
//! a store, and then tells how many it served. To attend a link is to read a request from it and to write the reply.
//!
//! Promises: `call_serve`, and the law that the two numbers of its line sum to the number of links that were attended.
#![tactic(auto)]

mod calling;
mod laws;
mod lines;
mod serving;
mod visiting;

pub use calling::{Serve, call_serve};
pub use laws::each_is_counted;
