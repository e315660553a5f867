//! The office as a small machine: commands over its tables. `decide` returns the outcome of a command over tables. `act` loads the tables
//! from a keeper, decides, and stores the change; `act_over` does so over tables that were loaded before.
//!
//! Promises: `decide` returns an outcome of the command by the definitions; `act` and `act_over` change a keeper's tables by that outcome;
//! and the contracts of the trait `Keeper`.
#![tactic(auto)]

mod acting;
mod commands;
mod deciding;
mod keeper;
mod solving;
mod stops;

pub use acting::{act, act_over};
pub use commands::Command;
pub use deciding::decide;
pub use keeper::{Keeper, KeeperStop};
pub use office_steps::pools::{PoolStop, pool_of};
pub use office_steps::{OfficeStop, Refusal, Reply};
pub use office_tables::{
    Change, Charter, Entry, Given, Part, Parts, Phase, Round, Rows, Rules, Tables, apply, tables_of,
};
pub use stops::{ActStop, DecideStop};
