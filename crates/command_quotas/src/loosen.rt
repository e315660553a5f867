//! The command `loosen`.

ghost use Rattle.std.specs.Prelude.{ℕ, IfOk};
ghost use Rattle.define_pools.specs.Pool.{Pool};
ghost use Rattle.command_shell.specs.Answers.{HasOneAnswer, IsRight, saying};
ghost use Rattle.command_meanings.specs.Loosening.{LoosenMeans};

use crate::lines::{loosening_text, nodes_spent_line};
use command_shell::{Answer, Cause, Command, Meaning, Printed, no_panel};
use define_quotas::loosenings::{cheapest_is_least, least_loosening_is_least};
use define_searches::alike_make_classes;
use pool_model::Pool;
use quota_loosen::{LoosenStop, loosen};
use std::alloc::{AllocError, Global};

/// `loosen`: the least loosening of a pool's quotas.
#[derive(Clone, Copy, Debug)]
pub struct Loosen {
    /// The most visits that the search may make, from 0 to 1,000,000,000,000.
    pub nodes: u64,
}

/// `loosen` has at most one right answer about a pool.
pub fn loosen_has_one_answer()
    ensures { (nodes : ℕ) (pool : Pool) → HasOneAnswer (LoosenMeans nodes pool) }
{}

impl Meaning for Loosen {
    type About = Pool;

    ghost use Rattle.command_shell.specs.Answers.{IsTheAnswer};
    ghost use Rattle.command_meanings.specs.Loosening.{LoosenMeans};

    ghost means = { λ command pool. IsTheAnswer (LoosenMeans command.nodes pool) };
}

impl Command for Loosen {
    fn answer(&self, alloc: Global, pool: &Pool, _text: &[u8]) -> Result<Answer, AllocError> {
        loosen_has_one_answer();
        answered(alloc, self.nodes, pool)
    }
}

/// Returns what `loosen` answers about `pool`. `loosen-by-proof` uses it too.
pub(crate) fn answered(alloc: Global, nodes: u64, pool: &Pool) -> Result<Answer, AllocError>
    ensures { IfOk result (λ answer. IsRight (LoosenMeans nodes pool.now) (saying answer)) }
{
    alike_make_classes();
    cheapest_is_least();
    least_loosening_is_least();
    pool.facts();
    match loosen(alloc, pool, nodes) {
        Ok(Some(loosened)) => Ok(Answer::Prints {
            printed: Printed::Done,
            text: loosening_text(alloc, pool, &loosened)?,
        }),
        Ok(None) => no_panel(alloc),
        Err(LoosenStop::Spent) => Ok(Answer::Stops {
            cause: Cause::Spent,
            line: nodes_spent_line(alloc, nodes)?,
        }),
        Err(LoosenStop::OutOfMemory) => Err(AllocError),
    }
}
