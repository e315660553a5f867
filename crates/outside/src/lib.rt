//! The traits through which the program meets the world. A source of bytes, a sink of bytes, a link, which is both, and a door, which gives
//! links, each count their faults. They are in memory for tests; over std's readers and writers; and over a port of this machine. A watch
//! is told when pieces of work start. The proofs of `command_office` use its definitions too.
//!
//! Promises: the contracts of `Source`, `Sink`, `Link` and `Door`, which each implementation keeps, and `read_all`. The definitions in
//! `specs/` say what a call does to the bytes, to the links of a door and to the count of faults.
#![tactic(auto)]

mod calls;
mod door;
mod link;
mod mem_door;
mod mem_link;
mod mem_sink;
mod mem_source;
mod reading;
mod sink;
mod source;
mod std_sink;
mod std_source;
mod tcp_door;
mod tcp_link;
mod watch;

pub use calls::CallPlan;
pub use door::Door;
pub use link::Link;
pub use mem_door::MemDoor;
pub use mem_link::MemLink;
pub use mem_sink::MemSink;
pub use mem_source::MemSource;
pub use reading::{ReadStop, read_all};
pub use sink::Sink;
pub use source::{Failed, Source};
pub use std_sink::StdSink;
pub use std_source::StdSource;
pub use tcp_door::TcpDoor;
pub use tcp_link::TcpLink;
pub use watch::{NoWatch, Watch};
