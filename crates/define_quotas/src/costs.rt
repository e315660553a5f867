//! Lower bounds on what teams cost, by weights of quotas and by splits on volunteers. By these bounds, a team that any search found can be
//! shown to be a cheapest one, and the loosening for this team to be least. The definitions are in `specs/`.
//!
//! The functions have no body: their contracts are laws over the definitions. The promise that matters most is `cheapest_by_bound`.
ghost use Rattle.std.specs.Prelude.{◌≡◌, ◌+◌, ◌*◌, ◌<◌, ◌++◌, ℕ, nat_le, IsTrue, List, Option, Some, None, slice_set};
ghost use Rattle.std.specs.List.{list_all};
ghost use Rattle.define_pools.specs.declared.Standing.{Standing};
ghost use Rattle.define_pools.specs.declared.Standing.TheVariants.{Gone, Seated};
ghost use Rattle.define_pools.specs.Pool.{IsPool, Pool};
ghost use Rattle.define_proofs.specs.Leaves.{standings};
ghost use Rattle.define_quotas.specs.declared.WeightedQuota.{WeightedQuota};
ghost use Rattle.define_quotas.specs.LeastMisses.{asked, given, quotas_of};
ghost use Rattle.define_quotas.specs.AllQuotas.{value_quotas};
ghost use Rattle.define_quotas.specs.CostBounds.{CostsAt, is_met_by_teams};
ghost use Rattle.define_quotas.specs.Loosenings.{IsLeast, Loosening, loosening_for};
ghost use Rattle.define_quotas.specs.Teams.{is_team, team_cost};

/// Take teams that keep the standings `all`; the quotas of all values, with weights of at most `greatest`; and further quotas that each
/// team meets. If together the quotas ask for more than can be given, by more than `greatest` times `cost`, each of these teams costs at
/// least `cost + 1`. If the further quotas alone ask for more than can be given, no team keeps the standings. No team costs less than 0.
pub fn asking_more_costs()
    ensures more { (pool : Pool) (values met : List WeightedQuota) (all : List Standing) (greatest cost : ℕ) → quotas_of values ≡ value_quotas pool →
        IsTrue (list_all (λ it. nat_le it.weight greatest) values) → IsTrue (list_all (λ it. is_met_by_teams it.quota.counted) met) →
        given pool (values ++ met) all + greatest * cost < asked pool (values ++ met) all → CostsAt pool all (Some (cost + 1)) }
    ensures none { (pool : Pool) (met : List WeightedQuota) (all : List Standing) → IsTrue (list_all (λ it. is_met_by_teams it.quota.counted) met) →
        given pool met all < asked pool met all → CostsAt pool all None }
    ensures nothing { (pool : Pool) (all : List Standing) → CostsAt pool all (Some 0) }
{}

/// Consider the standings `all` with volunteer `i` gone, and with this volunteer seated. If all teams that keep either of these cost at
/// least `least`, so do all teams that keep `all`.
pub fn both_parts_cost()
    ensures { (pool : Pool) (all : List Standing) (i : ℕ) (least : Option ℕ) → CostsAt pool (slice_set all i Gone) least →
        CostsAt pool (slice_set all i Seated) least → CostsAt pool all least }
{}

/// If no team costs less than `team`, the loosening for `team` is least. If no team keeps the pool's standings, there is no team.
pub fn cheapest_by_bound()
    ensures least { (pool : Pool) (team : List ℕ) → IsPool pool → IsTrue (is_team pool team) → CostsAt pool (standings pool) (Some (team_cost pool team)) →
        IsLeast pool (loosening_for pool team) }
    ensures none { (pool : Pool) → CostsAt pool (standings pool) None → (team : List ℕ) → IsTrue (is_team pool team) → ⊥ }
{}

/// All least loosenings of a pool have the same total, whichever search found them.
pub fn least_totals_are_equal()
    ensures { (pool : Pool) (one other : Loosening) → IsLeast pool one → IsLeast pool other → one.total ≡ other.total }
{}
