//! Why a pool has no quota panel: quotas that can't be met together, as few as can be found; or a quota panel.
//!
//! Promises: what `why` returns is checked by this crate itself, by adding and comparing whole numbers (`misses`, `covers`). So whatever
//! the search did, the quotas of a conflict can't be met together, and a panel is a quota panel. `conflict_text` writes exactly the text of
//! a conflict. Which of several conflicts is found is no promise. `asked` and `given` are exactly the sums of the definitions if they fit.
//! All that is promised of `counted_by_number` and `selection_of`, which serve searches, is that they are safe.
#![tactic(auto)]

mod answers;
mod checks;
mod covers;
mod kept;
mod lines;
mod misses;
mod needs;
mod quotas;
mod searches;
mod selections;
mod shrinking;
mod texts;
mod together;

pub use answers::{Explanation, reported, why};
pub use checks::Conflict;
pub use covers::{standings, with_standing};
pub use define_quotas::{Counted, Quota, Side};
pub use kept::counted_by_number;
pub use misses::{asked, given, greatest_weight, times_below};
pub use searches::selection_of;
pub use selections::{are_below, keep_standings};
pub use texts::conflict_text;
pub use together::all_together;
