//! The commands about a bundle that judge it or draw from it: `seal`, `draw`, `short-draw` and `check`, `cover` and `check-cover`. Each is
//! a struct of its arguments that answers about its input; `command_meanings` defines which answers are right.
//!
//! Promises: the six commands; `check_bundle`, which `command_proofs` asks too; and the answers for a verdict, for spent visits, and for
//! valid and refused certificates, which other commands print too.
#![tactic(auto)]

mod check;
mod check_cover;
mod draw;
mod given_cover;
mod its_cover;
mod lines;
mod seal;
mod short_draw;

pub use check::{Check, check_bundle, check_stop_answer, verdict_answer};
pub use check_cover::{CheckCover, check_cover_has_one_answer};
pub use draw::Draw;
pub use given_cover::GivenCover;
pub use its_cover::{ItsCover, cover_has_one_answer};
pub use lines::{refused_line, valid_line};
pub use seal::Seal;
pub use short_draw::{ShortDraw, short_draw_has_one_answer};
