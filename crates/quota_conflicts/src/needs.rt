//! Whether each quota of a conflict is needed. A witness that a quota is needed is a selection that meets all other quotas, and has the
//! panel's size if no quota is of the size. `checks` uses `each_needed`.

ghost use Rattle.std.specs.Bool.{OnTrue};
ghost use Rattle.std.specs.Prelude.{◌≡◌, ◌<◌, ◌==◌, ◌||◌, IfOk, IsTrue, length};
ghost use Rattle.std.specs.List.{remove};
ghost use Rattle.define_quotas.specs.Quotas.{EachNeeded, IsNeeded, is_everybody, is_selection as is_selection_of, meets as meets_of, names_size};

use crate::quotas::meets;
use crate::selections::is_selection;
use define_quotas::{Counted, Quota};
use pool_model::{Panel, Pool};
use std::alloc::{AllocError, Global};

/// True if for each quota one of the witnesses shows that it is needed.
pub(crate) fn each_needed(
    alloc: Global,
    pool: &Pool,
    quotas: &[Quota],
    witnesses: &[Panel],
) -> Result<bool, AllocError>
    ensures { IfOk result (λ is. OnTrue is (EachNeeded pool.now quotas.now)) }
{
    for place in 0..quotas.len() {
        if !is_needed(alloc, pool, quotas, place, witnesses)? {
            return Ok(false);
        }
    }
    Ok(true)
}

/// True if one of the witnesses is a selection that meets all quotas other than the one at this place, and has the panel's size if no quota
/// is of the size.
fn is_needed(
    alloc: Global,
    pool: &Pool,
    quotas: &[Quota],
    place: usize,
    witnesses: &[Panel],
) -> Result<bool, AllocError>
    requires { place < length quotas.now }
    ensures { IfOk result (λ is. OnTrue is (IsNeeded pool.now quotas.now place)) }
{
    let mut others = Vec::from_slice(alloc, quotas)?;
    let _ = others.remove(place);
    for witness in witnesses {
        if is_witness(pool, witness, &others) && has_size(pool, witness, quotas) {
            return Ok(true);
        }
    }
    Ok(false)
}

/// True if the panel is a selection that meets the quotas.
fn is_witness(pool: &Pool, panel: &Panel, quotas: &[Quota]) -> bool
    ensures selects { OnTrue result (IsTrue (is_selection_of pool.now panel.now)) }
    ensures meets { OnTrue result (IsTrue (meets_of pool.now panel.now quotas.now)) }
{
    is_selection(pool, panel) && meets(pool, panel.members(), quotas)
}

/// True if one of the quotas is of the size, or the panel has the size.
fn has_size(pool: &Pool, panel: &Panel, quotas: &[Quota]) -> bool
    ensures { OnTrue result (IsTrue (names_size quotas.now || length panel.now == pool.now.size)) }
{
    names_the_size(quotas) || panel.members().len() == pool.size()
}

/// True if one of the quotas is of the size.
fn names_the_size(quotas: &[Quota]) -> bool
    ensures { result ≡ names_size quotas.now }
{
    quotas.iter().any(|quota| counts_everybody(quota.counted))
}

fn counts_everybody(counted: Counted) -> bool
    ensures { result ≡ is_everybody counted }
{
    match counted {
        Counted::Everybody => true,
        Counted::WithValue(_, _) | Counted::OfHousehold(_) => false,
    }
}
