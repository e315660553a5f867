//! The pool of the next round, after a panel was drawn and some of its members dropped out, and pools after withdrawals.
//!
//! Promises: `next_pool` returns exactly the next pool of the definitions, or the first dropout who isn't in the panel; `pool_after`
//! returns the same pool, whoever the dropouts are; `withdraw` changes exactly the standings of the open volunteers who have withdrawn.
#![tactic(auto)]

ghost use Rattle.std.specs.Prelude.{◌≡◌, List, map, slice_index_or, false, if◌then◌else◌, IfOk};
ghost use Rattle.define_pools.specs.Lists.{includes};
ghost use Rattle.define_offices.specs.Tables.{Entry};
ghost use Rattle.define_offices.specs.Pools.{after_withdrawals, next_pool as pool_next, next_standing as standing_next, not_seated as first_not_seated, restood_pool};
ghost use Rattle.rounds.specs.Next.{TellsNext, standing_marked};

use pool_model::{Panel, Pool, Standing};
use std::alloc::AllocError;
use thiserror::Error;

/// Why there is no next pool.
#[derive(Clone, Copy, Debug, PartialEq, Eq, Error)]
pub enum NextStop {
    /// A volunteer who is to drop out isn't in the panel.
    #[error("volunteer {number} isn't in the panel")]
    NotSeated {
        /// The first such volunteer's number.
        number: usize,
    },
    /// No memory was left.
    #[error("out of memory")]
    OutOfMemory,
}

impl From<AllocError> for NextStop {
    ghost use Rattle.std.specs.Prelude.{◌≡◌};
    ghost use Rattle.rounds.specs.declared.NextStop.TheVariants.{OutOfMemory};

    ghost from_gives = { λ _ e. e ≡ OutOfMemory };

    fn from(_error: AllocError) -> NextStop {
        NextStop::OutOfMemory
    }
}

/// Returns the pool after `panel` was drawn from this pool and the volunteers with the numbers `drops` dropped out. Who was gone stays
/// gone, the dropouts are gone, the panel's other members are seated, and all others are open; nothing else changes. Stops with the first
/// dropout who isn't in the panel. It may run out of memory at any time.
pub fn next_pool(pool: &Pool, panel: &Panel, drops: &[usize]) -> Result<Pool, NextStop>
    ensures { TellsNext pool.now panel.now drops.now result }
{
    match not_seated(panel.members(), drops) {
        Some(number) => Err(NextStop::NotSeated { number }),
        None => Ok(pool_after(pool, panel, drops)?),
    }
}

/// Returns the pool of `next_pool`, even if a dropout isn't in the panel.
pub fn pool_after(pool: &Pool, panel: &Panel, drops: &[usize]) -> Result<Pool, AllocError>
    ensures { IfOk result (λ next. next ≡ pool_next pool.now panel.now drops.now) }
{
    let mut next = pool.copy()?;
    for (number, volunteer) in pool.volunteers().iter().enumerate() {
        let standing = next_standing(panel.members(), drops, number, volunteer.standing());
        next.set_standing(number, standing);
    }
    Ok(next)
}

/// Sets the standing of each open volunteer who has withdrawn to gone, and changes nothing else. `withdrawn` has, for each row of the
/// register in order, whether its volunteer has withdrawn. A volunteer past the last row counts as not withdrawn.
pub fn withdraw(pool: &mut Pool, withdrawn: &[bool])
    ensures { (register : List Entry) → map (λ entry. entry.withdrawn) register ≡ withdrawn.now → pool.new ≡ restood_pool (after_withdrawals register) pool.old }
{
    for number in 0..pool.volunteers().len() {
        let standing = pool.volunteers()[number].standing();
        pool.set_standing(number, standing_marked(withdrawn, number, standing));
    }
}

/// Returns the first dropout who isn't in the panel, if there is one.
fn not_seated(panel: &[usize], drops: &[usize]) -> Option<usize>
    ensures { result ≡ first_not_seated panel.now drops.now }
{
    drops.iter().copied().find(|number| !panel.contains(number))
}

/// Returns the standing of a volunteer in the next round.
fn next_standing(panel: &[usize], drops: &[usize], number: usize, standing: Standing) -> Standing
    ensures { result ≡ standing_next panel.now drops.now number standing }
{
    match standing {
        Standing::Gone => Standing::Gone,
        _ if drops.contains(&number) => Standing::Gone,
        _ if panel.contains(&number) => Standing::Seated,
        _ => Standing::Open,
    }
}

/// Returns the standing of a volunteer after the withdrawals.
fn standing_marked(withdrawn: &[bool], number: usize, standing: Standing) -> Standing
    ensures { result ≡ standing_marked withdrawn.now number standing }
{
    match standing {
        Standing::Open if is_marked(withdrawn, number) => Standing::Gone,
        _ => standing,
    }
}

/// True if there is a mark with this number, and it is true.
fn is_marked(marks: &[bool], number: usize) -> bool
    ensures { result ≡ slice_index_or marks.now number false }
{
    match marks.get(number) {
        Some(mark) => *mark,
        None => false,
    }
}
