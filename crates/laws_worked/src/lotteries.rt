//! Pairs of lotteries, one above the other, and lists that are no lottery.

ghost use Rattle.std.specs.Prelude.{◌≡◌, [], ◌∷◌, IsTrue, IsFalse, true, false};
ghost use Rattle.define_pools.specs.Lottery.{IsLottery, LeximinGreatest, counts, is_above};
ghost use Rattle.define_pools.specs.WorkedExamples.{four, four_lottery, after_dropout, row};
ghost use Rattle.laws_worked.specs.Pools.{barred, barred_lottery, barred_single, drawn, four_single, three_and_two, three_and_two_lottery, uneven_lottery};

/// For two women and two men, a lottery of one panel has the least chance 0, and a lottery of two panels has the least chance 1/2, which
/// decides.
pub fn decided_at_the_lowest()
    ensures lottery { IsLottery four four_single }
    ensures counts { counts four four_single ≡ 1 ∷ 0 ∷ 1 ∷ 0 ∷ [] }
    ensures above { is_above four four_lottery four_single ≡ true }
    ensures below { is_above four four_single four_lottery ≡ false }
    ensures not_greatest { ¬ LeximinGreatest four four_single }
{}

/// One of three volunteers can be on no panel, so the least chance is 0 in each lottery, and the second least decides.
pub fn decided_at_the_second()
    ensures lottery { IsLottery barred barred_single }
    ensures counts { counts barred barred_single ≡ 0 ∷ 1 ∷ 0 ∷ [] }
    ensures above { is_above barred barred_lottery barred_single ≡ true }
    ensures below { is_above barred barred_single barred_lottery ≡ false }
    ensures not_greatest { ¬ LeximinGreatest barred barred_single }
{}

/// In two lotteries of different totals, a, b and c have the chance 1/3. The fourth least chance decides. No lottery is above itself.
pub fn decided_at_the_fourth()
    ensures lottery { IsLottery three_and_two uneven_lottery }
    ensures counts { counts three_and_two uneven_lottery ≡ 1 ∷ 1 ∷ 1 ∷ 2 ∷ 1 ∷ [] }
    ensures above { is_above three_and_two three_and_two_lottery uneven_lottery ≡ true }
    ensures below { is_above three_and_two uneven_lottery three_and_two_lottery ≡ false }
    ensures itself { is_above three_and_two uneven_lottery uneven_lottery ≡ false }
    ensures not_greatest { ¬ LeximinGreatest three_and_two uneven_lottery }
{}

/// Lists that are no lottery because of their rows or their total: no row at all, a panel twice, a weight of 0, and totals that aren't the
/// sum of the weights.
pub fn weights_that_refuse()
    ensures empty { ¬ IsLottery four (drawn 0 []) }
    ensures repeated { ¬ IsLottery four (drawn 2 (row (0 ∷ 2 ∷ []) 1 ∷ row (0 ∷ 2 ∷ []) 1 ∷ [])) }
    ensures no_weight { ¬ IsLottery four (drawn 1 (row (0 ∷ 2 ∷ []) 1 ∷ row (1 ∷ 3 ∷ []) 0 ∷ [])) }
    ensures total_too_low { ¬ IsLottery four (drawn 1 (row (0 ∷ 2 ∷ []) 1 ∷ row (1 ∷ 3 ∷ []) 1 ∷ [])) }
    ensures total_too_high { ¬ IsLottery four (drawn 3 (row (0 ∷ 2 ∷ []) 1 ∷ row (1 ∷ 3 ∷ []) 1 ∷ [])) }
{}

/// Lists that are no lottery because of a panel: one of two women, of one member, with one member twice, with members out of order, with a
/// number that no volunteer has, with the volunteer who is gone, and without the volunteer who is seated.
pub fn panels_that_refuse()
    ensures two_women { ¬ IsLottery four (drawn 1 (row (0 ∷ 1 ∷ []) 1 ∷ [])) }
    ensures too_few { ¬ IsLottery four (drawn 1 (row (0 ∷ []) 1 ∷ [])) }
    ensures twice { ¬ IsLottery four (drawn 1 (row (0 ∷ 2 ∷ 2 ∷ []) 1 ∷ [])) }
    ensures out_of_order { ¬ IsLottery four (drawn 1 (row (2 ∷ 0 ∷ []) 1 ∷ [])) }
    ensures nobody { ¬ IsLottery four (drawn 1 (row (0 ∷ 4 ∷ []) 1 ∷ [])) }
    ensures gone { ¬ IsLottery after_dropout (drawn 1 (row (0 ∷ 2 ∷ []) 1 ∷ [])) }
    ensures without_seated { ¬ IsLottery after_dropout (drawn 1 (row (1 ∷ 3 ∷ []) 1 ∷ [])) }
{}
