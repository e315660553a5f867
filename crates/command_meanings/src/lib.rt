//! What the commands answer: which text or line is right at which status. Each command has a file in `specs/`, which says it status by
//! status; so has `lottery` with its flag `--share` (Sharing), and so have all questions about a bundle (Question), all commands of the
//! office and texts about a round (Steps), all imports (Imports), and `prove` over a store (ProvedRounds). `serve` prints no answer of its
//! own: what a call of it does is said in `command_desk`.
//!
//! Promises: the laws in `laws.rt`, and `evidence_of_taken_nodes`, without which `prove` can't answer that no trees are found.
#![tactic(auto)]

mod laws;
mod office;
mod taking;

pub use laws::{
    bundle_has_one_answer, check_has_one_answer, draw_has_one_answer, legs_has_one_answer,
    lottery_has_one_answer, make_has_one_answer, panel_has_one_answer, seal_has_one_answer,
    sharing_answers_as_lottery, verify_has_one_answer,
};
pub use office::{Import, RoundText, StoreText};
pub use taking::evidence_of_taken_nodes;
