//! Spreading: compositions with fractions become panels with weights, so that all members of a class have the same chance. The definitions
//! are in `specs/`.
//!
//! The functions have no body: their contracts are laws over the definitions, and worked examples. The promises that matter most are
//! `spread_is_lottery` and `spread_has_even_chances`.
ghost use Rattle.std.specs.Prelude.{◌≡◌, ◌≤◌, ◌<◌, ℕ, Bool, List, [], ◌∷◌, length, map, Ok};
ghost use Rattle.frac128.specs.Fractions.{Fraction};
ghost use Rattle.define_pools.specs.Lottery.{Lottery, IsLottery};
ghost use Rattle.define_pools.specs.Pool.{Pool};
ghost use Rattle.define_searches.specs.Classes.{Classes, KeepsLimits, MakesClasses, PartVolunteers, classes_by, classes_of};
ghost use Rattle.define_searches.specs.Compositions.{compositions};
ghost use Rattle.define_runs.specs.Spreading.{AreParts, AreShares, HasEvenChances, IsCommonTotal, greatest_total, with_fraction, arcs, rows_of, spread, total_from};
ghost use Rattle.define_runs.specs.WorkedSpreads.{one_of_three, three_and_two, over};

/// Shares of a whole, as fractions in lowest terms, are positive fractions that sum to one.
pub fn shares_are_parts()
    ensures { (all : Classes) (whole : ℕ) (shares : List (List ℕ × ℕ)) → AreShares all whole shares → AreParts all (map (with_fraction whole) shares) }
{}

/// If no part makes the total pass 10^38, the total is a multiple of each denominator times the length of its part's dial.
pub fn total_is_common()
    ensures { (all : Classes) (parts : List (List ℕ × Fraction)) (total : ℕ) → AreParts all parts → total_from all 0 1 parts ≡ Ok total →
        IsCommonTotal all parts total }
{}

/// Spreading over the classes of a pool gives a lottery over the pool's quota panels. Its total is at most 10^38.
pub fn spread_is_lottery()
    ensures lottery { (pool : Pool) (alike : ℕ → ℕ → Bool) (parts : List (List ℕ × Fraction)) (lottery : Lottery) → MakesClasses pool alike →
        AreParts (classes_by alike pool) parts → spread (classes_by alike pool) parts ≡ Ok lottery → IsLottery pool lottery }
    ensures within { (all : Classes) (parts : List (List ℕ × Fraction)) (lottery : Lottery) → AreParts all parts → spread all parts ≡ Ok lottery →
        lottery.total ≤ greatest_total }
{}

/// All members of a class have the same chance: each member's count times the class's size is the expected number of members of the class
/// on a panel, times the total. This holds for any classes with each volunteer in exactly one of them, and so for the classes of a pool.
pub fn spread_has_even_chances()
    ensures classes { (all : Classes) (parts : List (List ℕ × Fraction)) (lottery : Lottery) → KeepsLimits all → PartVolunteers all →
        AreParts all parts → spread all parts ≡ Ok lottery → HasEvenChances all parts lottery }
    ensures pool { (pool : Pool) (alike : ℕ → ℕ → Bool) (parts : List (List ℕ × Fraction)) (lottery : Lottery) → MakesClasses pool alike →
        AreParts (classes_by alike pool) parts → spread (classes_by alike pool) parts ≡ Ok lottery → HasEvenChances (classes_by alike pool) parts lottery }
{}

/// If the pool has a volunteer, each composition is spread over at least one panel, and over at most as many as there are volunteers.
pub fn few_panels()
    ensures { (pool : Pool) (alike : ℕ → ℕ → Bool) (total : ℕ) (part : List ℕ × Fraction) → MakesClasses pool alike → 0 < length pool.volunteers →
        (0 < length (rows_of (classes_by alike pool) total part)) × (length (rows_of (classes_by alike pool) total part) ≤ length pool.volunteers) }
{}

/// One member of a class of three and one of a class of two: the dial has six places, cut at 0, 2, 3 and 4.
pub fn worked_spread()
    ensures arcs { arcs three_and_two (1 ∷ 1 ∷ []) ≡ (0, 2) ∷ (2, 1) ∷ (3, 1) ∷ (4, 2) ∷ [] }
    ensures lottery { spread three_and_two ((1 ∷ 1 ∷ [], over 1 1) ∷ []) ≡ Ok (record {
      total = 6;
      rows =
          record { panel = 0 ∷ 3 ∷ []; weight = 2 } ∷ record { panel = 1 ∷ 3 ∷ []; weight = 1 } ∷
          record { panel = 1 ∷ 4 ∷ []; weight = 1 } ∷ record { panel = 2 ∷ 4 ∷ []; weight = 2 } ∷ [];
    }) }
{}

/// One seat for three volunteers of different values: the three compositions take one volunteer each.
pub fn worked_compositions()
    ensures { compositions (classes_of one_of_three) ≡ (1 ∷ 0 ∷ 0 ∷ []) ∷ (0 ∷ 1 ∷ 0 ∷ []) ∷ (0 ∷ 0 ∷ 1 ∷ []) ∷ [] }
{}
