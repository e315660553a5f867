//! Least loosenings of quotas: teams, which are panels that need only meet the widest bounds; what a team costs; the pool with its bounds moved so
//! that a team is a quota panel; and the search for the cheapest team with the visits that it counts. The definitions are in `specs/`.
//!
//! The functions have no body: their contracts are laws over the definitions, and worked examples. Each law is a promise. The laws hold for
//! every test of who is alike that makes classes.
ghost use Rattle.std.specs.Prelude.{◌≡◌, ◌↔◌, ℕ, Bool, List, [], ◌∷◌, None, Some, IsTrue};
ghost use Rattle.define_pools.specs.Pool.{Pool, IsPool, panels, is_quota_panel};
ghost use Rattle.define_pools.specs.WorkedExamples.{couple, four, nobody};
ghost use Rattle.define_searches.specs.Classes.{Classes, IsSearchable, MakesClasses, classes_by, classes_of};
ghost use Rattle.define_searches.specs.Compositions.{first_panel};
ghost use Rattle.define_quotas.specs.Costs.{cheapest_team};
ghost use Rattle.define_quotas.specs.CostSearch.{cheapest_search};
ghost use Rattle.define_quotas.specs.Loosenings.{IsCheapest, IsLeast, Loosening, least_loosening};
ghost use Rattle.define_quotas.specs.Teams.{DifferInBounds, bounds_moved, is_team, loosened, team_cost};
ghost use Rattle.define_quotas.specs.WorkedLoosenings.{one_woman};

/// The search finds the cheapest counts of a team, the first of these if several cost the same, and nothing if there is no team.
pub fn search_finds_cheapest()
    ensures { (all : Classes) → IsSearchable all → (cheapest_search all).kept ≡ cheapest_team all }
{}

/// The first members of each class, as many as the cheapest counts say, are a team. No team costs less, and of the teams that cost the same
/// none has an earlier composition. There are no cheapest counts exactly if there is no team.
pub fn cheapest_is_least()
    ensures found { (pool : Pool) (alike : ℕ → ℕ → Bool) (counts : List ℕ) → MakesClasses pool alike → cheapest_team (classes_by alike pool) ≡ Some counts →
        IsCheapest pool alike counts (first_panel (classes_by alike pool) counts) }
    ensures none { (pool : Pool) (alike : ℕ → ℕ → Bool) → MakesClasses pool alike →
        cheapest_team (classes_by alike pool) ≡ None ↔ ((team : List ℕ) → IsTrue (is_team pool team) → ⊥) }
{}

/// The pool that is loosened for a team differs from the given pool in bounds alone, which are moved by the team's cost in all. The team is
/// a quota panel of the loosened pool. If the given pool is within the limits of a pool, so is the loosened one.
pub fn loosened_pool_has_team()
    ensures bounds { (pool : Pool) (team : List ℕ) → DifferInBounds pool (loosened pool team) }
    ensures moved { (pool : Pool) (team : List ℕ) → bounds_moved pool.categories (loosened pool team).categories ≡ team_cost pool team }
    ensures panel { (pool : Pool) (team : List ℕ) → IsTrue (is_team pool team) → IsTrue (is_quota_panel (loosened pool team) team) }
    ensures limits { (pool : Pool) (team : List ℕ) → IsPool pool → IsTrue (is_team pool team) → IsPool (loosened pool team) }
{}

/// The least loosening moves bounds alone, by its total in all, and its panel is a quota panel of its pool. No pool that differs from the
/// given one in bounds alone and has a quota panel differs by less. The total is 0 exactly if the given pool has a quota panel. There is no
/// least loosening exactly if there is no team.
pub fn least_loosening_is_least()
    ensures least { (pool : Pool) (loosening : Loosening) → IsPool pool → least_loosening pool ≡ Some loosening → IsLeast pool loosening }
    ensures none { (pool : Pool) → least_loosening pool ≡ None ↔ ((team : List ℕ) → IsTrue (is_team pool team) → ⊥) }
{}

/// The searches over small pools: two women and two men, of whom one woman and one man are to be chosen; one woman and two men, of whom two
/// women are to be chosen; nobody; and a panel of two from one household.
pub fn worked_cost_searches()
    ensures four { cheapest_search (classes_of four) ≡ record { visits = 5; kept = Some (1 ∷ 1 ∷ []) } }
    ensures one_woman { cheapest_search (classes_of (one_woman 2 2)) ≡ record { visits = 3; kept = Some (1 ∷ 1 ∷ []) } }
    ensures nobody { cheapest_search (classes_of nobody) ≡ record { visits = 1; kept = None } }
    ensures couple { cheapest_search (classes_of couple) ≡ record { visits = 2; kept = None } }
{}

/// The least loosenings of small pools.
pub fn worked_loosenings()
    ensures four { least_loosening four ≡ Some (record { total = 0; pool = four; panel = 0 ∷ 2 ∷ [] }) }
    ensures one_woman { least_loosening (one_woman 2 2) ≡ Some (record { total = 1; pool = one_woman 1 2; panel = 0 ∷ 1 ∷ [] }) }
    ensures nobody { least_loosening nobody ≡ None }
    ensures couple { least_loosening couple ≡ None }
{}
