//! The page about a bundle: one HTML file, without a script and without anything from elsewhere, that shows the volunteers and the seats of
//! each value, all chances, the seal, and a draw if there was one. And the numbers that it shares with the command `chances`: each
//! volunteer's chance, with its decimals.
//!
//! Promises: `write_page`, `write_drawn_page`, `page_with`, `round_head` and `drawn_part` return exactly the texts of `specs/Page.antt`:
//! the fixed texts of `templates`, with the numbers and the names in their places. In names, the bytes that HTML uses as markup are
//! escaped. The numbers are exactly those of the definitions.
#![tactic(auto)]

mod categories;
mod counts;
mod curve;
mod decimals;
mod drawn;
mod markup;
mod shares;
mod sizes;
mod sums;
mod templates;
mod writing;

pub use counts::{counts_of, greatest, least};
pub use decimals::{fixed_point, fraction_text, power_of_ten, ten_thousandths};
pub use drawn::drawn_part;
pub use sums::{Sum, rounded_sum, sum_text, sum_with};
pub use writing::{page_with, round_head, write_drawn_page, write_page};
