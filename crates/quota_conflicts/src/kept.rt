//! The bounds that a search keeps, as numbered constraints with a side, and whom the constraints of a pool count. The numbers are those of
//! a proof's first stage: 0 the size, then the values, then the shared households. No contract promises that the bounds are a conflict:
//! `checks` finds that out.

use define_quotas::{Counted, Quota, Side};
use pool_model::{Category, Pool, share_household};
use std::alloc::{AllocError, Global};

/// The number of the size's constraint.
pub(crate) const SIZE: usize = 0;

/// A bound: the number of a constraint, and which of its two sides is meant.
#[derive(Clone, Copy, Debug)]
pub(crate) struct Kept {
    pub(crate) number: usize,
    pub(crate) side: Side,
}

/// Returns whom each constraint counts, in the order of their numbers.
pub fn counted_by_number(alloc: Global, pool: &Pool) -> Result<Vec<Counted>, AllocError> {
    let mut counted = Vec::new(alloc);
    counted.push(Counted::Everybody)?;
    for (place, category) in pool.categories().iter().enumerate() {
        push_values(&mut counted, place, category)?;
    }
    for member in 0..pool.volunteers().len() {
        if is_first_member(pool, member) {
            counted.push(Counted::OfHousehold(member))?;
        }
    }
    Ok(counted)
}

fn push_values(
    counted: &mut Vec<Counted>,
    place: usize,
    category: &Category,
) -> Result<(), AllocError> {
    for value in 0..category.values().len() {
        counted.push(Counted::WithValue(place, value))?;
    }
    Ok(())
}

/// True if the volunteer is the first member of a household of two or more.
fn is_first_member(pool: &Pool, member: usize) -> bool {
    let volunteers = pool.volunteers();
    let mut is_shared = false;
    for other in 0..volunteers.len() {
        if other != member && share_household(volunteers, member, other) {
            if other < member {
                return false;
            }
            is_shared = true;
        }
    }
    is_shared
}

/// Returns the quotas of the kept bounds. Leaves out bounds whose number is that of no constraint.
pub(crate) fn quotas_of(
    alloc: Global,
    counted: &[Counted],
    kept: &[Kept],
) -> Result<Vec<Quota>, AllocError> {
    let mut quotas = Vec::new(alloc);
    for own in kept {
        if let Some(counted) = counted.get(own.number) {
            quotas.push(Quota {
                counted: *counted,
                side: own.side,
            })?;
        }
    }
    Ok(quotas)
}

/// True if the bound of constraint `number` on this side is among the kept bounds.
pub(crate) fn is_kept(kept: &[Kept], number: usize, side: Side) -> bool {
    kept.iter().any(|own| own.number == number && is_least(own.side) == is_least(side))
}

/// Returns the kept bounds without the one at a place.
pub(crate) fn without(alloc: Global, kept: &[Kept], place: usize) -> Result<Vec<Kept>, AllocError> {
    let mut others = Vec::new(alloc);
    for (k, own) in kept.iter().enumerate() {
        if k != place {
            others.push(*own)?;
        }
    }
    Ok(others)
}

pub(crate) fn is_least(side: Side) -> bool {
    match side {
        Side::AtLeast => true,
        Side::AtMost => false,
    }
}
