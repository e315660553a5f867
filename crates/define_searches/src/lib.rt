//! Classes of alike volunteers, compositions, fronts and when a front is live, and the searches with the visits that they count; and the
//! search in pieces, which run in waves (`waves`). The definitions are in `specs/`, and in `proofs/` also the laws of what a search counts
//! at a front: members of each value and household, and weights in rows.
//!
//! The functions have no body: their contracts are laws over the definitions, and worked examples. Each law is a promise. The laws hold for
//! every test of who is alike that makes classes, so also for a finer test, such as a check's, which compares weights too.
#![tactic(auto)]

pub mod waves;

ghost use Rattle.std.specs.Prelude.{◌≡◌, ◌↔◌, ℕ, Bool, List, [], ◌∷◌, map, length, nat_lt, Contains, MatchOption, None, Some, IsTrue, pos};
ghost use Rattle.std.specs.List.{AllByRecursion, list_all};
ghost use Rattle.define_pools.specs.Certificate.{Stage, is_capped};
ghost use Rattle.define_pools.specs.Lists.{is_increasing};
ghost use Rattle.define_pools.specs.Pool.{Pool, IsPool, panels, is_quota_panel};
ghost use Rattle.define_pools.specs.WorkedExamples.{couple, four, family, crossed, nobody};
ghost use Rattle.define_rows.specs.Row.{Row};
ghost use Rattle.define_searches.specs.Best.{IsBest, Qualifies};
ghost use Rattle.define_searches.specs.Classes.{Classes, IsSearchable, KeepsLimits, MakesClasses, PartVolunteers, are_alike, classes_by, classes_of, volunteer_count};
ghost use Rattle.define_searches.specs.Compositions.{composition_of, compositions, first_composition, first_panel, price};
ghost use Rattle.define_searches.specs.Fronts.{HaveEntries};
ghost use Rattle.define_searches.specs.Stages.{WeighAlike, row_of};
ghost use Rattle.define_searches.specs.Visits.{first_search, best_search};
ghost use Rattle.define_searches.specs.WorkedSearches.{either, apart, row};

/// How many members of a panel may have a value: from `lower` to `upper`, both included.
#[derive(Clone, Copy, Debug, PartialEq, Eq)]
pub struct Bounds {
    /// The least number of members.
    pub lower: usize,
    /// The greatest number of members.
    pub upper: usize,
}

/// The test `are_alike` makes classes: their members have equal values and equal standing, and someone who shares a household is in a class
/// alone.
pub fn alike_make_classes()
    ensures { (pool : Pool) → MakesClasses pool (are_alike pool) }
{}

/// The classes of each pool can be searched.
pub fn classes_are_searchable()
    ensures { (pool : Pool) (alike : ℕ → ℕ → Bool) → IsSearchable (classes_by alike pool) }
{}

/// The classes of each pool keep the limits of `KeepsLimits`, among them: a panel of at most 1,000 members; at most 20 categories, each of at
/// most 50 values; at most 4,000 classes, with at most 4,000 members in all.
pub fn classes_keep_limits()
    ensures { (pool : Pool) (alike : ℕ → ℕ → Bool) → IsPool pool → MakesClasses pool alike → KeepsLimits (classes_by alike pool) }
{}

/// Each volunteer of a pool is in exactly one of its classes.
pub fn classes_part_volunteers()
    ensures part { (pool : Pool) (alike : ℕ → ℕ → Bool) → MakesClasses pool alike → PartVolunteers (classes_by alike pool) }
    ensures count { (pool : Pool) (alike : ℕ → ℕ → Bool) → MakesClasses pool alike → volunteer_count (classes_by alike pool) ≡ length pool.volunteers }
{}

/// If the classes of a pool have no composition, the pool has no quota panel.
pub fn no_composition()
    ensures { (pool : Pool) (alike : ℕ → ℕ → Bool) → MakesClasses pool alike → compositions (classes_by alike pool) ≡ [] → panels pool ≡ [] }
{}

/// For each composition, the first members of each class, as many as the composition takes, are a quota panel.
pub fn first_members_fit()
    ensures { (pool : Pool) (alike : ℕ → ℕ → Bool) → MakesClasses pool alike →
        AllByRecursion (λ counts. IsTrue (is_quota_panel pool (first_panel (classes_by alike pool) counts))) (compositions (classes_by alike pool)) }
{}

/// For each composition, the panel of the first members of each class has this composition.
pub fn first_members_compose()
    ensures { (pool : Pool) (alike : ℕ → ℕ → Bool) → MakesClasses pool alike →
        AllByRecursion (λ counts. composition_of (classes_by alike pool) (first_panel (classes_by alike pool) counts) ≡ counts) (compositions (classes_by alike pool)) }
{}

/// An increasing list of volunteers is a quota panel if the numbers of its members by class are a composition.
pub fn composed_panels_fit()
    ensures { (pool : Pool) (alike : ℕ → ℕ → Bool) (counts panel : List ℕ) → MakesClasses pool alike → Contains (compositions (classes_by alike pool)) counts →
        IsTrue (is_increasing panel) → IsTrue (list_all (λ i. nat_lt i (length pool.volunteers)) panel) →
        composition_of (classes_by alike pool) panel ≡ counts → IsTrue (is_quota_panel pool panel) }
{}

/// For any counts, the panel of the first members of each class is in rising order.
pub fn first_members_rise()
    ensures { (all : Classes) (counts : List ℕ) → IsTrue (is_increasing (first_panel all counts)) }
{}

/// The search for the first composition finds the first of all compositions, and nothing if there is none.
pub fn first_search_is_first()
    ensures { (all : Classes) → IsSearchable all → (first_search all).found ≡ first_composition all }
{}

/// The search over a pool's classes finds nothing exactly if the pool has no quota panel. If it finds a composition, the panel of the first
/// members that this composition takes is a quota panel.
pub fn first_search_decides()
    ensures answer { (pool : Pool) (alike : ℕ → ℕ → Bool) → MakesClasses pool alike → MatchOption (first_search (classes_by alike pool)).found
        (panels pool ≡ []) (λ counts. IsTrue (is_quota_panel pool (first_panel (classes_by alike pool) counts))) }
    ensures none { (pool : Pool) (alike : ℕ → ℕ → Bool) → MakesClasses pool alike → (first_search (classes_by alike pool)).found ≡ None ↔ panels pool ≡ [] }
{}

/// The price is the best composition. It attains the closed rows, and weighs more in the row than the row's right side. Of all compositions
/// that do both, none weighs more, and none that comes before the price weighs as much. There is no price exactly if no composition does
/// both.
pub fn price_is_best()
    ensures best { (all : Classes) (closed : List Row) (priced : Row) (counts : List ℕ) → price all closed priced ≡ Some counts → IsBest all closed priced counts }
    ensures none { (all : Classes) (closed : List Row) (priced : Row) → price all closed priced ≡ None ↔ ((counts : List ℕ) → Qualifies all closed priced counts → ⊥) }
{}

/// The search for the best composition finds the price: of the compositions that attain the closed rows, the first of greatest weight
/// above the row's right side, and nothing if there is none.
pub fn best_search_is_price()
    ensures { (all : Classes) (closed : List Row) (priced : Row) → IsSearchable all → HaveEntries all (priced ∷ closed) →
        (best_search all closed priced).kept ≡ price all closed priced }
{}

/// If pricing over the classes of a pool finds nothing, and each stage gives the same weight to volunteers who are alike, no quota panel
/// that attains the earlier caps weighs more than the cap.
pub fn nothing_to_price()
    ensures { (pool : Pool) (alike : ℕ → ℕ → Bool) (earlier : List Stage) (stage : Stage) → MakesClasses pool alike → WeighAlike alike (length pool.volunteers) (stage ∷ earlier) →
        price (classes_by alike pool) (map (row_of alike pool) earlier) (row_of alike pool stage) ≡ None → IsTrue (is_capped pool earlier stage) }
{}

/// Searches for the first composition over small pools, some of which have none: what they find, and their visits.
pub fn worked_first_searches()
    ensures four { first_search (classes_of four) ≡ record { visits = 3; found = Some (1 ∷ 1 ∷ []) } }
    ensures four_panel { first_panel (classes_of four) (1 ∷ 1 ∷ []) ≡ 0 ∷ 2 ∷ [] }
    ensures either { first_search (classes_of either) ≡ record { visits = 3; found = Some (1 ∷ 0 ∷ []) } }
    ensures family { first_composition (classes_of family) ≡ Some (1 ∷ 0 ∷ 0 ∷ 1 ∷ []) }
    ensures couple { first_composition (classes_of couple) ≡ None }
    ensures crossed { first_search (classes_of crossed) ≡ record { visits = 2; found = None } }
    ensures nobody { first_search (classes_of nobody) ≡ record { visits = 1; found = None } }
{}

/// Searches over small pools for the composition of greatest weight in a row: what they find, and their visits.
pub fn worked_best_searches()
    ensures apart { best_search (classes_of apart) [] (row (pos 0) (pos 0 ∷ pos 0 ∷ pos 1 ∷ pos 0 ∷ []))
        ≡ record { visits = 5; floor = pos 1; kept = Some (1 ∷ 0 ∷ 1 ∷ 0 ∷ []) } }
    ensures apart_price { price (classes_of apart) [] (row (pos 0) (pos 0 ∷ pos 0 ∷ pos 1 ∷ pos 0 ∷ [])) ≡ Some (1 ∷ 0 ∷ 1 ∷ 0 ∷ []) }
    ensures either { best_search (classes_of either) [] (row (pos 0) (pos 0 ∷ pos 1 ∷ []))
        ≡ record { visits = 3; floor = pos 1; kept = Some (0 ∷ 1 ∷ []) } }
    ensures either_again { best_search (classes_of either) [] (row (pos 1) (pos 1 ∷ pos 1 ∷ []))
        ≡ record { visits = 1; floor = pos 1; kept = None } }
{}
