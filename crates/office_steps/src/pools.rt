//! The pool of each round of an office: from the charter, the rules and the register, or from the round before.
//!
//! Promise: `pool_of` returns exactly the pool of the definitions, or exactly why there is none.
mod drawn;
mod registered;

ghost use Rattle.std.specs.Prelude.{◌≡◌, ◌<◌, length, Some, IfOk, option_map};
ghost use Rattle.define_offices.specs.Pools.{open_pool as pool_while_open, pool_of as pool_of_round, with_bounds as pool_with};
ghost use Rattle.define_offices.specs.Tables.{named_round};
ghost use Rattle.office_steps.specs.Told.{TellsPool};

use crate::imports::same_shape;
use crate::pools::drawn::later_pool;
use crate::pools::registered::first_pool;
use define_offices::laws::bounded_pools_are_pools;
use office_tables::{Charter, Part, Round, Rules, Tables};
use pool_model::{Pool, Volunteer, copied_categories};
use std::alloc::{AllocError, Global};
use thiserror::Error;

/// Why a round has no pool.
#[derive(Clone, Copy, Debug, PartialEq, Eq, Error)]
pub enum PoolStop {
    /// There is no round of this number.
    #[error("there is no such round; the last is {last}")]
    NoRound {
        /// The number of the last round.
        last: usize,
    },
    /// A part is missing: the charter or the rules.
    #[error("a part is missing: {what:?}")]
    Incomplete {
        /// The part.
        what: Part,
    },
    /// No memory was left.
    #[error("out of memory")]
    OutOfMemory,
}

impl From<AllocError> for PoolStop {
    ghost use Rattle.std.specs.Prelude.{◌≡◌};
    ghost use Rattle.office_steps.specs.declared.pools.PoolStop.TheVariants.{OutOfMemory};

    ghost from_gives = { λ _ e. e ≡ OutOfMemory };

    fn from(_error: AllocError) -> PoolStop {
        PoolStop::OutOfMemory
    }
}

/// Returns the pool of a round. While round 1 is open, its pool has the charter's size, the categories of the rules, and the rows of the
/// register as volunteers: gone if they withdrew, else open. While a later round is open, its pool is what the draw and the dropouts of the
/// round before leave, and whoever is open there but withdrew is gone; if other bounds were set for it, it has these. Once a round is
/// solved, its pool is that of its bundle. Fails if there is no round of this number, else if there is no charter, else if there are no
/// rules. Running out of memory is allowed at any time.
pub fn pool_of(alloc: Global, tables: &Tables, round: usize) -> Result<Pool, PoolStop>
    ensures { TellsPool (pool_of_round tables.now round) result }
{
    let Some(kept) = round_named(tables, round) else {
        let last = tables.rounds().len();
        return Err(PoolStop::NoRound { last });
    };
    let Some(charter) = tables.charter() else {
        return Err(PoolStop::Incomplete {
            what: Part::Charter,
        });
    };
    let Some(rules) = tables.rules() else {
        return Err(PoolStop::Incomplete { what: Part::Rules });
    };
    match kept.bundle() {
        Some(bundle) => Ok(bundle.pool().copy()?),
        None => Ok(open_pool(alloc, tables, charter, rules, round - 1)?),
    }
}

/// Returns the round of a number, counted from 1, if there is one.
pub fn round_named(tables: &Tables, number: usize) -> Option<&Round>
    ensures { option_map (λ round. round.now) result ≡ named_round tables.now.rounds number }
{
    if number == 0 {
        None
    } else {
        tables.rounds().get(number - 1)
    }
}

/// Returns the pool of the open round at `place`, counted from 0.
fn open_pool(
    alloc: Global,
    tables: &Tables,
    charter: &Charter,
    rules: &Rules,
    place: usize,
) -> Result<Pool, AllocError>
    requires charter { tables.now.charter ≡ Some charter.now }
    requires rules { tables.now.rules ≡ Some rules.now }
    requires place { place < length tables.now.rounds }
    ensures { IfOk result (λ pool. pool ≡ pool_while_open charter.now rules.now tables.now place) }
{
    tables.facts();
    if place == 0 {
        first_pool(alloc, charter, rules, tables.register())
    } else {
        let pool = later_pool(alloc, tables.register(), &tables.rounds()[place - 1])?;
        with_bounds(alloc, pool, tables.bounds())
    }
}

/// Returns the pool with other bounds, if some are given that have its categories and values; else the pool.
fn with_bounds(alloc: Global, pool: Pool, bounds: &Option<Rules>) -> Result<Pool, AllocError>
    ensures { IfOk result (λ next. next ≡ pool_with bounds.now pool) }
{
    match bounds {
        Some(bounds) => rebounded(alloc, pool, bounds),
        None => Ok(pool),
    }
}

/// Returns the pool with these bounds, if they have its categories and values; else the pool.
fn rebounded(alloc: Global, pool: Pool, bounds: &Rules) -> Result<Pool, AllocError>
    ensures { IfOk result (λ next. next ≡ pool_with (Some bounds.now) pool) }
{
    if !same_shape(pool.categories(), bounds.categories()) {
        return Ok(pool);
    }
    pool.facts();
    bounded_pools_are_pools();
    let categories = copied_categories(alloc, bounds.categories())?;
    let volunteers = copied_volunteers(alloc, pool.volunteers())?;
    Ok(Pool::from_parts(pool.size(), categories, volunteers))
}

/// Returns equal volunteers.
fn copied_volunteers(alloc: Global, volunteers: &[Volunteer]) -> Result<Vec<Volunteer>, AllocError>
    ensures { IfOk result (λ copies. copies.items ≡ volunteers.now) }
{
    let mut copies = Vec::new(alloc);
    for volunteer in volunteers {
        copies.push(volunteer.copy()?)?;
    }
    Ok(copies)
}
