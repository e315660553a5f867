//! Pools of volunteers with their quotas, panels, lotteries and certificates, as values. Contracts see them as the records of
//! `define_pools`.
//!
//! Promises: a `Pool` is always within its limits. Each step of building it adds its part, or is refused with a kind and changes nothing.
//! `fits` is true exactly for the quota panels, and `chances` returns exactly each volunteer's count. The module `names` and the functions
//! without `pub` are helpers.
#![tactic(auto)]

mod building;
mod certificates;
mod counting;
mod households;
mod id_order;
mod lotteries;
mod names;
mod panels;
mod parts;
mod pools;
mod quotas;

pub use building::BuildStop;
pub use certificates::{Answer, Certificate, Stage, panel_weight};
pub use counting::chances;
pub use define_pools::{Limits, Standing};
pub use households::{has_households, share_household};
pub use lotteries::{Lottery, LotteryRow};
pub use names::{are_named, keeps_name_limits, places_named};
pub use panels::Panel;
pub use parts::{Bound, BoundedValue, Category, Name, Volunteer, copied_name};
pub use pools::{MAX_BOUND, Pool, copied_categories, copied_volunteers, household_kind};
pub use quotas::fits;
