//! The quotas of all values of a pool with weights, in the order of `value_quotas` of `define_quotas`.

ghost use Rattle.std.specs.Prelude.{◌≡◌, ◌++◌, [], ◌∷◌, IfOk, OnOk};
ghost use Rattle.define_quotas.specs.LeastMisses.{quotas_of};
ghost use Rattle.define_quotas.specs.AllQuotas.{quotas_of_category, quotas_of_value, value_quotas};

use define_quotas::{Counted, Quota, Side, WeightedQuota};
use pool_model::{Category, Pool};
use std::alloc::{AllocError, Global};

/// Returns the quotas of all values with these weights: two for each value, for its least and its greatest number. If there are too few
/// weights, the others are 0.
pub(crate) fn weighted_values(
    alloc: Global,
    pool: &Pool,
    weights: &[usize],
) -> Result<Vec<WeightedQuota>, AllocError>
    ensures { IfOk result (λ weighted. quotas_of weighted.items ≡ value_quotas pool.now) }
{
    let mut weighted = Vec::new(alloc);
    for (place, category) in pool.categories().iter().enumerate() {
        push_category(&mut weighted, place, category, weights)?;
    }
    Ok(weighted)
}

/// Appends the quotas of the values of the category at `place`.
fn push_category(
    weighted: &mut Vec<WeightedQuota>,
    place: usize,
    category: &Category,
    weights: &[usize],
) -> Result<(), AllocError>
    ensures { OnOk result (quotas_of weighted.new.items ≡ quotas_of weighted.old.items ++ quotas_of_category (place, category.now)) }
{
    for value in 0..category.values().len() {
        push_value(weighted, place, value, weights)?;
    }
    Ok(())
}

/// Appends the two quotas of a value.
fn push_value(
    weighted: &mut Vec<WeightedQuota>,
    category: usize,
    value: usize,
    weights: &[usize],
) -> Result<(), AllocError>
    ensures { OnOk result (quotas_of weighted.new.items ≡ quotas_of weighted.old.items ++ quotas_of_value category value) }
{
    let counted = Counted::WithValue(category, value);
    push_quota(weighted, counted, Side::AtLeast, weights)?;
    push_quota(weighted, counted, Side::AtMost, weights)
}

/// Appends a quota with the next weight.
fn push_quota(
    weighted: &mut Vec<WeightedQuota>,
    counted: Counted,
    side: Side,
    weights: &[usize],
) -> Result<(), AllocError>
    ensures { OnOk result (quotas_of weighted.new.items ≡ quotas_of weighted.old.items ++ record { counted = counted; side = side } ∷ []) }
{
    let weight = weights.get(weighted.len()).copied().unwrap_or(0);
    weighted.push(WeightedQuota {
        quota: Quota { counted, side },
        weight,
    })?;
    Ok(())
}
