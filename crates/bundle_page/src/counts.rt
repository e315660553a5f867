//! Each volunteer's count, and the least and the greatest count.

ghost use Rattle.std.specs.Prelude.{◌≡◌, ◌≤◌, length, slice_index, EachIndex, IfOk};
ghost use Rattle.define_made_pools.specs.Summary.{greatest as words_of_greatest, least as words_of_least};
ghost use Rattle.define_pools.specs.Lottery.{TotalAgrees, counts as counts_in};

use pool_model::{Lottery, Pool, chances};
use std::alloc::{AllocError, Global};

/// Returns each volunteer's count. Each count is at most the total.
pub fn counts_of(alloc: Global, pool: &Pool, lottery: &Lottery) -> Result<Vec<u128>, AllocError>
    requires { TotalAgrees lottery.now }
    ensures value { IfOk result (λ counts. counts.items ≡ counts_in pool.now lottery.now) }
    ensures each { IfOk result (λ counts. length counts.items ≡ length pool.now.volunteers) }
    ensures within { IfOk result (λ counts. EachIndex counts.items (λ i. slice_index counts.items i ≤ lottery.now.total)) }
{
    unsigned_counts(alloc, pool, lottery)
}

/// Returns each volunteer's count.
fn unsigned_counts(alloc: Global, pool: &Pool, lottery: &Lottery) -> Result<Vec<u128>, AllocError>
    requires { TotalAgrees lottery.now }
    ensures { IfOk result (λ counts. counts.items ≡ counts_in pool.now lottery.now) }
{
    let counts = chances(alloc, pool, lottery)?;
    counts
        .iter()
        .map(|count| count.unsigned_abs())
        .collect(alloc)
}

/// Returns the least count, or 0 if there is none. Each count is at most the total.
pub fn least(counts: &[u128], total: u128) -> u128
    requires within { EachIndex counts.now (λ i. slice_index counts.now i ≤ total) }
    ensures value { result ≡ words_of_least counts.now }
    ensures within { result ≤ total }
{
    counts.iter().copied().min().unwrap_or(0)
}

/// Returns the greatest count, or 0 if there is none. Each count is at most the total.
pub fn greatest(counts: &[u128], total: u128) -> u128
    requires within { EachIndex counts.now (λ i. slice_index counts.now i ≤ total) }
    ensures value { result ≡ words_of_greatest counts.now }
    ensures within { result ≤ total }
{
    counts.iter().copied().max().unwrap_or(0)
}
