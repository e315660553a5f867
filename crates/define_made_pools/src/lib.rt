//! Pools that are made from a number, and the summary of a run: the generator of numbers, the made pool, and the lines of the summary. The
//! definitions are in `specs/`. The functions have no body: their contracts are laws over the definitions, which are promises, and worked
//! examples.
#![tactic(auto)]

ghost use Rattle.std.specs.Prelude.{◌≡◌, ◌≤◌, ◌<◌, ◌-◌, ◌^◌, [], ◌∷◌, ℕ, List, All, Contains, IsTrue, codes, length, map, take};
ghost use Rattle.std.specs.List.{range_with_len};
ghost use Rattle.define_pools.specs.Pool.{IsPool, is_quota_panel, panels};
ghost use Rattle.define_pools.specs.WorkedExamples.{after_dropout, bounded, category, person};
ghost use Rattle.define_lines.specs.Lines.{text_of};
ghost use Rattle.define_made_pools.specs.Generator.{number};
ghost use Rattle.define_made_pools.specs.MadePools.{made_pool, made_size, made_values};
ghost use Rattle.define_made_pools.specs.Summary.{least, greatest, summary_lines};
ghost use Rattle.define_made_pools.specs.WorkedExamples.{single_answer, single_summary, dropout_answer, dropout_summary};

/// The made pool of any seed and of 1 to 400 volunteers is a pool.
pub fn made_pool_is_pool()
    ensures { (seed n : ℕ) → 1 ≤ n → n ≤ 400 → IsPool (made_pool seed n) }
{}

/// The first `made_size` volunteers of a made pool of 1 to 400 volunteers are a quota panel.
pub fn first_volunteers_are_a_panel()
    ensures { (seed n : ℕ) → 1 ≤ n → n ≤ 400 → IsTrue (is_quota_panel (made_pool seed n) (range_with_len 0 (made_size n))) }
{}

/// The first `made_size` volunteers are in the list of the quota panels of a made pool of 1 to 400 volunteers.
pub fn made_pool_has_a_panel()
    ensures { (seed n : ℕ) → 1 ≤ n → n ≤ 400 → Contains (panels (made_pool seed n)) (range_with_len 0 (made_size n)) }
{}

/// Each number of the generator is below 2^31.
pub fn numbers_have_31_bits()
    ensures { (seed place : ℕ) → number seed place < 2 ^ 31 }
{}

/// The least and the greatest number of a list are in it, unless it is empty, and no number of the list is less than the least or greater
/// than the greatest.
pub fn least_and_greatest()
    ensures least { (xs : List ℕ) → 1 ≤ length xs → Contains xs (least xs) }
    ensures none_less { (xs : List ℕ) → All (λ x. least xs ≤ x) xs }
    ensures greatest { (xs : List ℕ) → 1 ≤ length xs → Contains xs (greatest xs) }
    ensures none_greater { (xs : List ℕ) → All (λ x. x ≤ greatest xs) xs }
{}

/// The first numbers of seeds 0, 7 and 2^63 - 1.
pub fn first_numbers()
    ensures zero { map (number 0) (0 ∷ 1 ∷ 2 ∷ 3 ∷ []) ≡ 167951807 ∷ 218396424 ∷ 1299921937 ∷ 861605236 ∷ [] }
    ensures seven { map (number 7) (0 ∷ 1 ∷ 2 ∷ 3 ∷ []) ≡ 1059165278 ∷ 2052263231 ∷ 1946856753 ∷ 585718673 ∷ [] }
    ensures greatest { map (number (2 ^ 63 - 1)) (0 ∷ 1 ∷ 2 ∷ 3 ∷ []) ≡ 500810664 ∷ 416590519 ∷ 133760853 ∷ 1974759426 ∷ [] }
{}

/// The made pool of seed 0 and one volunteer, a young man from the country; the sizes of panels for six numbers of volunteers; for seed 7,
/// the values of the first three volunteers, and the bounds of all values in the pool of 20 volunteers.
pub fn made_pools()
    ensures single { made_pool 0 1 ≡ record {
      size = 1;
      categories =
          category (codes "gender") (bounded (codes "female") 0 1 ∷ bounded (codes "male") 0 2 ∷ []) ∷
          category (codes "age") (bounded (codes "young") 0 2 ∷ bounded (codes "middle") 0 1 ∷ bounded (codes "old") 0 1 ∷ []) ∷
          category (codes "area") (bounded (codes "town") 0 1 ∷ bounded (codes "country") 0 2 ∷ []) ∷ [];
      volunteers = person (codes "v1") (1 ∷ 0 ∷ 1 ∷ []) ∷ [];
    } }
    ensures sizes { map made_size (1 ∷ 9 ∷ 10 ∷ 19 ∷ 20 ∷ 400 ∷ []) ≡ 1 ∷ 1 ∷ 1 ∷ 1 ∷ 2 ∷ 40 ∷ [] }
    ensures values { map (made_values 7) (0 ∷ 1 ∷ 2 ∷ []) ≡ (0 ∷ 2 ∷ 1 ∷ []) ∷ (1 ∷ 1 ∷ 1 ∷ []) ∷ (0 ∷ 0 ∷ 1 ∷ []) ∷ [] }
    ensures bounds { (made_pool 7 20).categories ≡
        category (codes "gender") (bounded (codes "female") 0 2 ∷ bounded (codes "male") 0 2 ∷ []) ∷
        category (codes "age") (bounded (codes "young") 0 1 ∷ bounded (codes "middle") 0 2 ∷ bounded (codes "old") 0 2 ∷ []) ∷
        category (codes "area") (bounded (codes "town") 0 1 ∷ bounded (codes "country") 1 3 ∷ []) ∷ [] }
{}

/// Summaries, without the line of the seal: of the made pool of seed 0 with one volunteer, and of a pool after a dropout, in which two of
/// four volunteers have no chance.
pub fn summaries()
    ensures single { text_of (take 10 (summary_lines (made_pool 0 1) single_answer (record { classes = 1; columns = 1; pivots = 1 }))) ≡ single_summary }
    ensures dropout { text_of (take 10 (summary_lines after_dropout dropout_answer (record { classes = 4; columns = 1; pivots = 12 }))) ≡ dropout_summary }
{}
