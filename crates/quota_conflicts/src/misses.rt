//! What weighted quotas ask for and what can be given, and so by how many people each selection misses them at least. Whole numbers of at
//! least 0 are multiplied, added and compared. If a sum doesn't fit its type, the result is None. `covers` and `checks` use `least_miss`.

ghost use Rattle.std.specs.Prelude.{◌≡◌, ◌≤◌, ◌<◌, ◌-◌, ◌*◌, ◌/◌, ℕ, length, nat_le, IfSome, IsTrue};
ghost use Rattle.std.specs.List.{list_all};
ghost use Rattle.define_quotas.specs.LeastMisses.{asked as asked_of, given as given_of, given_by as given_by_one, is_side as is_same_side, quotas_of, taken_by_standing as taken_by_one, weighed_bound as weighed_bound_of, weighed_bounds as weighed_bounds_of, weights_for as weights_for_one};
ghost use Rattle.define_quotas.specs.Quotas.{MissAt};

use crate::quotas::{bound, counts};
use define_quotas::{Side, WeightedQuota, asking_more_misses};
use pool_model::{Pool, Standing};

/// Returns a number of people by which each selection that keeps the standings misses the quotas at least: what is asked less what can be
/// given, over the greatest weight, rounded up. Returns None if what is asked is at most what can be given, or if a sum doesn't fit.
pub(crate) fn least_miss(
    pool: &Pool,
    weighted: &[WeightedQuota],
    standings: &[Standing],
) -> Option<usize>
    requires { length standings.now ≡ length pool.now.volunteers }
    ensures misses { IfSome result (MissAt pool.now (quotas_of weighted.now) standings.now) }
    ensures some { IfSome result (λ least. 1 ≤ least) }
{
    asking_more_misses();
    let asked = asked(pool, weighted, standings)?;
    let given = given(pool, weighted, standings)?;
    if asked <= given {
        return None;
    }
    let greatest = greatest_weight(weighted);
    Some(times_below(asked - given, greatest) + 1)
}

/// Returns the greatest number `times` with `greatest * times < more`.
pub fn times_below(more: usize, greatest: usize) -> usize
    requires some { 1 ≤ more }
    requires greatest { 1 ≤ greatest }
    ensures exact { result ≡ (more - 1) / greatest }
    ensures less { greatest * result < more }
    ensures few { result < more }
{
    (more - 1) / greatest
}

/// Returns the greatest weight, or 1 if all weights are 0: the least number of at least 1 that no weight is above.
pub fn greatest_weight(weighted: &[WeightedQuota]) -> usize
    ensures light { IsTrue (list_all (λ it. nat_le it.weight result) weighted.now) }
    ensures some { 1 ≤ result }
    ensures least { (bound : ℕ) → 1 ≤ bound → IsTrue (list_all (λ it. nat_le it.weight bound) weighted.now) → result ≤ bound }
{
    let mut greatest = 1;
    for it in weighted {
        greatest = greatest.max(it.weight);
    }
    greatest
}

/// Returns what is asked of a selection that keeps the standings: the least numbers, each times its quota's weight, and for each seated
/// volunteer the weights of the quotas with greatest numbers that count this volunteer. Returns None if the sum doesn't fit.
pub fn asked(pool: &Pool, weighted: &[WeightedQuota], standings: &[Standing]) -> Option<usize>
    requires { length standings.now ≡ length pool.now.volunteers }
    ensures { IfSome result (λ sum. sum ≡ asked_of pool.now weighted.now standings.now) }
{
    let mut taken: usize = 0;
    for (i, standing) in standings.iter().enumerate() {
        let most = weights_for(pool, Side::AtMost, weighted, i)?;
        taken = taken.checked_add(taken_by_standing(*standing, most))?;
    }
    weighed_bounds(pool, Side::AtLeast, weighted)?.checked_add(taken)
}

/// Returns the most that a selection that keeps the standings can give: the greatest numbers, each times its quota's weight, and for each
/// volunteer what `given_by` returns. Returns None if the sum doesn't fit `usize`.
pub fn given(pool: &Pool, weighted: &[WeightedQuota], standings: &[Standing]) -> Option<usize>
    requires { length standings.now ≡ length pool.now.volunteers }
    ensures { IfSome result (λ sum. sum ≡ given_of pool.now weighted.now standings.now) }
{
    let mut all: usize = 0;
    for (i, standing) in standings.iter().enumerate() {
        let least = weights_for(pool, Side::AtLeast, weighted, i)?;
        let most = weights_for(pool, Side::AtMost, weighted, i)?;
        all = all.checked_add(given_by(*standing, least, most))?;
    }
    weighed_bounds(pool, Side::AtMost, weighted)?.checked_add(all)
}

/// Returns what a volunteer takes from every selection: `most` if the volunteer is seated, else 0. `most` is the sum of the weights of the
/// `AtMost` quotas that count the volunteer.
fn taken_by_standing(standing: Standing, most: usize) -> usize
    ensures { result ≡ taken_by_one standing most }
{
    match standing {
        Standing::Seated => most,
        Standing::Open | Standing::Gone => 0,
    }
}

/// Returns the most that a volunteer gives to a selection: `least` less `most`, but at least 0, if the volunteer is open; `least` if
/// seated; 0 if gone. `least` and `most` are the sums of the weights of the `AtLeast` and of the `AtMost` quotas that count the volunteer.
fn given_by(standing: Standing, least: usize, most: usize) -> usize
    ensures { result ≡ given_by_one standing least most }
{
    match standing {
        Standing::Open => least.saturating_sub(most),
        Standing::Seated => least,
        Standing::Gone => 0,
    }
}

/// Returns the sum of the bounds of a side's quotas, each times its weight.
fn weighed_bounds(pool: &Pool, side: Side, weighted: &[WeightedQuota]) -> Option<usize>
    ensures { IfSome result (λ sum. sum ≡ weighed_bounds_of pool.now side weighted.now) }
{
    let mut sum: usize = 0;
    for it in weighted {
        sum = sum.checked_add(weighed_bound(pool, side, it)?)?;
    }
    Some(sum)
}

/// Returns a quota's bound times its weight, or 0 if the quota isn't of this side.
fn weighed_bound(pool: &Pool, side: Side, it: &WeightedQuota) -> Option<usize>
    ensures { IfSome result (λ product. product ≡ weighed_bound_of pool.now side it.now) }
{
    if is_side(side, it.quota.side) {
        it.weight.checked_mul(bound(pool, it.quota))
    } else {
        Some(0)
    }
}

/// Returns the sum of the weights of the quotas of a side that count volunteer `i`.
fn weights_for(pool: &Pool, side: Side, weighted: &[WeightedQuota], i: usize) -> Option<usize>
    requires { i < length pool.now.volunteers }
    ensures { IfSome result (λ sum. sum ≡ weights_for_one pool.now side weighted.now i) }
{
    let mut sum: usize = 0;
    for it in weighted {
        if is_side(side, it.quota.side) && counts(pool, it.quota.counted, i) {
            sum = sum.checked_add(it.weight)?;
        }
    }
    Some(sum)
}

fn is_side(side: Side, other: Side) -> bool
    ensures { result ≡ is_same_side side other }
{
    match (side, other) {
        (Side::AtLeast, Side::AtLeast) | (Side::AtMost, Side::AtMost) => true,
        _ => false,
    }
}
