//! The commands about a pool: `panel`, `lottery`, also with its flag `--share`, `legs` and `make`. Each is a struct of its arguments that
//! answers about a pool; what its answers mean is defined in `command_meanings`.
//!
//! Promises: the commands, `call_lottery`, `call_shared_lottery`, `call_legs`, `call_make`, `Volunteers::new`; `run_lottery` and
//! `lottery_limits`, which `prove` uses; `stop_answer`, which commands over a store use too; and `first_panel_within` and `visits_spent`,
//! which `why` uses too.
#![tactic(auto)]

mod legs;
mod lines;
mod lottery;
mod make;
mod panel;
mod sharing;

pub use legs::{Legs, call_legs};
pub use lottery::{Lottery, LotteryRun, call_lottery, lottery_limits, run_lottery, stop_answer};
pub use make::{Make, Volunteers, call_make};
pub use panel::{FirstPanel, first_panel_within, visits_spent};
pub use sharing::{SharedLottery, call_shared_lottery};
