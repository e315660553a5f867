//! Lotteries that are spread up to the greatest total, lotteries whose total would exceed it, and fractions that are close to each other.

ghost use Rattle.std.specs.Prelude.{◌≡◌, ◌<◌, [], ◌∷◌, ◌+◌, ◌-◌, ◌*◌, ◌^◌, Ok, Err};
ghost use Rattle.frac128.specs.Divisors.{lcm_of};
ghost use Rattle.define_pools.specs.WorkedExamples.{row};
ghost use Rattle.define_searches.specs.Classes.{classes_of};
ghost use Rattle.define_runs.specs.Spreading.{spread};
ghost use Rattle.define_runs.specs.WorkedSpreads.{one_of_three, pair_and_one, over};

/// One seat for three volunteers of different values: the composition with the first has the fraction 1/10^38, the one with the second has
/// the rest, and the total is 10^38. With 10^38 + 1 as the denominator, the total passes 10^38 at the first part. If the first volunteer is
/// one of two alike, the dial has two places, and the total passes 10^38 with the denominator 10^38 too.
pub fn widest_spreads()
    ensures greatest { spread (classes_of one_of_three) ((1 ∷ 0 ∷ 0 ∷ [], over 1 (10 ^ 38)) ∷ (0 ∷ 1 ∷ 0 ∷ [], over (10 ^ 38 - 1) (10 ^ 38)) ∷ []) ≡
        Ok (record { total = 10 ^ 38; rows = row (0 ∷ []) 1 ∷ row (1 ∷ []) (10 ^ 38 - 1) ∷ [] }) }
    ensures passed { spread (classes_of one_of_three) ((1 ∷ 0 ∷ 0 ∷ [], over 1 (10 ^ 38 + 1)) ∷ (0 ∷ 1 ∷ 0 ∷ [], over (10 ^ 38) (10 ^ 38 + 1)) ∷ []) ≡
        Err (record { place = 0; total = 1; den = 10 ^ 38 + 1 }) }
    ensures dial { spread (classes_of pair_and_one) ((1 ∷ 0 ∷ [], over 1 (10 ^ 38)) ∷ (0 ∷ 1 ∷ [], over (10 ^ 38 - 1) (10 ^ 38)) ∷ []) ≡
        Err (record { place = 0; total = 1; den = 10 ^ 38 }) }
{}

/// (10^38 - 1)/10^38 is less than 10^38/(10^38 + 1), by the products across. And 12 is the least common multiple of 4 and 6.
pub fn close_fractions()
    ensures less { (10 ^ 38 - 1) * (10 ^ 38 + 1) < 10 ^ 38 * 10 ^ 38 }
    ensures multiple { lcm_of 4 6 ≡ 12 }
{}
