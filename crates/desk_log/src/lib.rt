//! The log of a desk: a door over a port of this machine that tells a sink at which port it listens, and each visit. Nothing of it is told
//! of who asked: a line has the route and the status.
//!
//! Promises: the lines of the log are those of `specs/LogLines.antt`.
#![tactic(auto)]

mod door;
mod lines;
mod link;

pub use door::LoggedDoor;
pub use link::LoggedLink;
