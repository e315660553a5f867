//! Quotas that can't be met together: conflicts, which show it; least loosenings, which are the bounds moved by as little as possible
//! (`loosenings`); and lower bounds on what they cost (`costs`). The definitions are in `specs/`.
//!
//! The functions have no body: their contracts are laws over the definitions, and worked examples. The promises that matter most are
//! `conflict_leaves_no_panel` and `cheapest_by_bound`.
#![tactic(auto)]

pub mod costs;
pub mod loosenings;

ghost use Rattle.std.specs.Prelude.{◌≡◌, ◌<◌, ◌≤◌, ◌+◌, ◌*◌, [], ◌∷◌, ℕ, drop, take, true, length, nat_le, IsTrue, List, slice_set};
ghost use Rattle.std.specs.List.{list_all};
ghost use Rattle.define_pools.specs.declared.Standing.{Standing as SeenStanding};
ghost use Rattle.define_pools.specs.declared.Standing.TheVariants.{Gone, Seated};
ghost use Rattle.define_pools.specs.Pool.{Pool, panels};
ghost use Rattle.define_pools.specs.WorkedExamples.{couple};
ghost use Rattle.define_proofs.specs.Leaves.{standings};
ghost use Rattle.define_quotas.specs.AllQuotas.{all_together};
ghost use Rattle.define_quotas.specs.Conflicts.{IsConflict};
ghost use Rattle.define_quotas.specs.ConflictText.{conflict_text};
ghost use Rattle.define_quotas.specs.LeastMisses.{asked, given, quotas_of};
ghost use Rattle.define_quotas.specs.OnlyQuotas.{only};
ghost use Rattle.define_quotas.specs.Quotas.{MissAt, MissBy, is_quota_of, meets};
ghost use Rattle.define_quotas.specs.WorkedConflicts.{couple_conflict, couple_text, couple_weighted};

/// Whom a quota counts.
#[derive(Clone, Copy, Debug, PartialEq, Eq)]
pub enum Counted {
    /// Everybody: the quota is of the size.
    Everybody,
    /// Those who have value `.1` of category `.0`, by their places.
    WithValue(usize, usize),
    /// Those of the household of this volunteer.
    OfHousehold(usize),
}

/// Which of the two bounds a quota is.
#[derive(Clone, Copy, Debug, PartialEq, Eq)]
pub enum Side {
    /// The least number of a panel's members whom the quota counts.
    AtLeast,
    /// The greatest number of a panel's members whom the quota counts.
    AtMost,
}

/// A quota of a pool: one of the two bounds on the number of a panel's members whom it counts.
#[derive(Clone, Copy, Debug, PartialEq, Eq)]
pub struct Quota {
    pub counted: Counted,
    pub side: Side,
}

/// A quota with a weight, by which its misses are multiplied.
#[derive(Clone, Copy, Debug, PartialEq, Eq)]
pub struct WeightedQuota {
    pub quota: Quota,
    pub weight: usize,
}

/// If each selection misses some quotas of a pool by at least 1, then the pool with only these quotas has no quota panel, and neither has
/// the pool itself.
pub fn conflict_leaves_no_panel()
    ensures only { (pool : Pool) (quotas : List Quota) (least : ℕ) → IsTrue (list_all (is_quota_of pool) quotas) → MissBy pool quotas least → 1 ≤ least →
        panels (only pool quotas) ≡ [] }
    ensures whole { (pool : Pool) (quotas : List Quota) (least : ℕ) → IsTrue (list_all (is_quota_of pool) quotas) → MissBy pool quotas least → 1 ≤ least →
        panels pool ≡ [] }
{}

/// If a pool has no quota panel, all its quotas together are a conflict.
pub fn all_quotas_conflict()
    ensures { (pool : Pool) → panels pool ≡ [] → IsConflict pool (all_together pool) }
{}

/// Take selections that keep the standings `all`, and quotas with weights of at most `greatest`. If the quotas ask for more than can be
/// given, and by more than `greatest` times `misses`, then each of the selections misses them by at least `misses + 1`.
pub fn asking_more_misses()
    ensures { (pool : Pool) (weighted : List WeightedQuota) (all : List SeenStanding) (greatest misses : ℕ) →
        IsTrue (list_all (λ it. nat_le it.weight greatest) weighted) → given pool weighted all + greatest * misses < asked pool weighted all →
        MissAt pool (quotas_of weighted) all (misses + 1) }
{}

/// Consider the standings `all` with volunteer `i` gone, and with this volunteer seated. If all selections that keep either of these miss
/// the quotas by at least `least`, so do all selections that keep `all`.
pub fn both_parts_miss()
    ensures { (pool : Pool) (quotas : List Quota) (all : List SeenStanding) (i least : ℕ) → MissAt pool quotas (slice_set all i Gone) least →
        MissAt pool quotas (slice_set all i Seated) least → MissAt pool quotas all least }
{}

/// A woman and a man of one household can't both have the two seats. The quotas of the size and of the household ask for 2, and 1 can be
/// given. A selection of one of the two meets the household's quota, and a selection of both meets the size's.
pub fn worked_conflict()
    ensures asked { asked couple couple_weighted (standings couple) ≡ 2 }
    ensures given { given couple couple_weighted (standings couple) ≡ 1 }
    ensures text { conflict_text couple couple_conflict ≡ couple_text }
    ensures one { meets couple (0 ∷ []) (quotas_of (drop 1 couple_weighted)) ≡ true }
    ensures both { meets couple (0 ∷ 1 ∷ []) (quotas_of (take 1 couple_weighted)) ≡ true }
{}
