//! Shortens a lottery to a round number of tickets, so that a hall can draw with fewer dice; and draws from a bundle in so many tickets.
//!
//! Promises: `shorten` returns exactly what the definition says, and so do the draws and counts over a bundle. The laws of `define_draws`
//! say how near a shortened lottery is to the lottery.
#![tactic(auto)]

mod bundles;
mod counts;
mod drawing;
mod lines;
mod rows;
mod shares;
mod shortening;

pub use bundles::short_bundle;
pub use counts::TicketCount;
pub use drawing::draw_short;
pub use shortening::shorten;
