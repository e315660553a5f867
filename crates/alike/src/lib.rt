//! Classes of volunteers who are alike, the first panel of a composition, and the lottery that spreads compositions over panels. Contracts
//! see them as the records and lists of `define_searches` and `define_runs`.
//!
//! Promises: `classes`, `class_numbers`, `first_panel` and `spread` return exactly what the definitions say. The contracts of `facts` and
//! `class_at` say what holds of each `Classes`. The modules `arcs` and `dials` are helpers.
#![tactic(auto)]

mod arcs;
mod composing;
mod dials;
mod grouping;
mod groups;
mod numbers;
mod spreading;

pub use composing::first_panel;
pub use define_rows::Composition;
pub use define_searches::Bounds;
pub use grouping::classes;
pub use groups::{Class, Classes, ValueBounds};
pub use numbers::class_numbers;
pub use spreading::{SpreadStop, spread};
