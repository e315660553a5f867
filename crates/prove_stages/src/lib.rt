//! The stages of a pool, found in two ways. The relaxation (`relaxed`) uses points instead of panels: a stage comes from a refuted program,
//! whose multipliers are a leaf that shows the cap. If the relaxation's point is no mix of panels, column generation finds stages over
//! compositions, first in fixed point (`quick`), and in doubt exactly (`columned`); trees show their caps. `CompositionSearch` (`searches`)
//! finds single compositions.
//!
//! Promises: each call is safe and ends, gives nothing of the budget back, and `Chances` has exactly the chances that were settled. The
//! stages themselves are no promise: `check_proofs` tests each proof.
#![tactic(auto)]

mod chances;
mod class_stages;
mod columned;
mod finders;
mod fractions;
mod levels;
mod mixes;
mod quick;
mod refuted;
mod relaxed;
mod searches;
mod tables;
mod wholes;

pub use chances::Chances;
pub use class_stages::ClassStage;
pub use columned::{Columned, column_stages, column_stages_from};
pub use fractions::Chance;
pub use relaxed::{Relaxed, relaxed_stages};
pub use searches::CompositionSearch;
pub use tables::{row_spans, table_of};
