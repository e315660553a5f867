//! Pools with their quota panels, a lottery, its counts and its certificate.

ghost use Rattle.std.specs.Prelude.{◌≡◌, [], ◌∷◌, map, pos};
ghost use Rattle.define_pools.specs.Pool.{IsPool, panels};
ghost use Rattle.define_pools.specs.Lottery.{IsLottery, counts};
ghost use Rattle.define_pools.specs.Certificate.{Certifies, panel_weight};
ghost use Rattle.define_pools.specs.WorkedExamples.{four, four_lottery, four_stages, after_dropout, dropout_lottery, dropout_stages, family, family_lottery, family_stages, couple, crossed, nobody};
ghost use Rattle.laws_worked.specs.Pools.{barred, barred_lottery, barred_stages, short, pair, pair_lottery, pair_stages, one_woman, one_woman_lottery, one_woman_stages, three_and_two, three_and_two_lottery, three_and_two_stages, apart, apart_lottery, apart_stages};

/// Two women and two men, one of each to be chosen.
pub fn four_volunteers()
    ensures pool { IsPool four }
    ensures panels { panels four ≡ (0 ∷ 2 ∷ []) ∷ (0 ∷ 3 ∷ []) ∷ (1 ∷ 2 ∷ []) ∷ (1 ∷ 3 ∷ []) ∷ [] }
    ensures lottery { IsLottery four four_lottery }
    ensures counts { counts four four_lottery ≡ 1 ∷ 1 ∷ 1 ∷ 1 ∷ [] }
    ensures certified { Certifies four four_lottery four_stages }
{}

/// Two women and two men after a dropout: a woman is gone and a man keeps the seat, so one panel is left.
pub fn four_after_dropout()
    ensures pool { IsPool after_dropout }
    ensures panels { panels after_dropout ≡ (1 ∷ 2 ∷ []) ∷ [] }
    ensures lottery { IsLottery after_dropout dropout_lottery }
    ensures counts { counts after_dropout dropout_lottery ≡ 0 ∷ 1 ∷ 1 ∷ 0 ∷ [] }
    ensures certified { Certifies after_dropout dropout_lottery dropout_stages }
{}

/// Two women and two men, of whom one woman and one man are of one household: no panel has both. And two seats for a couple of one
/// household: there is no panel.
pub fn four_with_a_family()
    ensures pool { IsPool family }
    ensures panels { panels family ≡ (0 ∷ 3 ∷ []) ∷ (1 ∷ 2 ∷ []) ∷ (1 ∷ 3 ∷ []) ∷ [] }
    ensures lottery { IsLottery family family_lottery }
    ensures counts { counts family family_lottery ≡ 1 ∷ 1 ∷ 1 ∷ 1 ∷ [] }
    ensures certified { Certifies family family_lottery family_stages }
    ensures couple { panels couple ≡ [] }
{}

/// One seat and three volunteers, one of whom can be on no panel.
pub fn barred_volunteer()
    ensures pool { IsPool barred }
    ensures panels { panels barred ≡ (1 ∷ []) ∷ (2 ∷ []) ∷ [] }
    ensures lottery { IsLottery barred barred_lottery }
    ensures counts { counts barred barred_lottery ≡ 0 ∷ 1 ∷ 1 ∷ [] }
    ensures certified { Certifies barred barred_lottery barred_stages }
{}

/// Two seats for two volunteers: one panel.
pub fn pair_of_volunteers()
    ensures pool { IsPool pair }
    ensures panels { panels pair ≡ (0 ∷ 1 ∷ []) ∷ [] }
    ensures lottery { IsLottery pair pair_lottery }
    ensures counts { counts pair pair_lottery ≡ 1 ∷ 1 ∷ [] }
    ensures certified { Certifies pair pair_lottery pair_stages }
{}

/// One woman, who is on each panel, and three men, each with the chance 1/3. The last stage has weights below 0 for men who are settled,
/// and the cap 2.
pub fn woman_and_three_men()
    ensures pool { IsPool one_woman }
    ensures panels { panels one_woman ≡ (0 ∷ 1 ∷ []) ∷ (0 ∷ 2 ∷ []) ∷ (0 ∷ 3 ∷ []) ∷ [] }
    ensures lottery { IsLottery one_woman one_woman_lottery }
    ensures counts { counts one_woman one_woman_lottery ≡ 3 ∷ 1 ∷ 1 ∷ 1 ∷ [] }
    ensures certified { Certifies one_woman one_woman_lottery one_woman_stages }
{}

/// Two seats: one for three volunteers, who have the chance 1/3 each, and one for two others, who have 1/2 each.
pub fn three_and_two_volunteers()
    ensures pool { IsPool three_and_two }
    ensures panels { panels three_and_two ≡ (0 ∷ 3 ∷ []) ∷ (0 ∷ 4 ∷ []) ∷ (1 ∷ 3 ∷ []) ∷ (1 ∷ 4 ∷ []) ∷ (2 ∷ 3 ∷ []) ∷ (2 ∷ 4 ∷ []) ∷ [] }
    ensures lottery { IsLottery three_and_two three_and_two_lottery }
    ensures counts { counts three_and_two three_and_two_lottery ≡ 2 ∷ 2 ∷ 2 ∷ 3 ∷ 3 ∷ [] }
    ensures certified { Certifies three_and_two three_and_two_lottery three_and_two_stages }
{}

/// The cap of a stage bounds only the panels that attain the earlier caps: here the panel of a and b weighs less than the first cap, and
/// more than the second.
pub fn panels_below_an_earlier_cap()
    ensures pool { IsPool apart }
    ensures panels { panels apart ≡ (0 ∷ 1 ∷ []) ∷ (0 ∷ 2 ∷ []) ∷ (0 ∷ 3 ∷ []) ∷ (1 ∷ 2 ∷ []) ∷ [] }
    ensures lottery { IsLottery apart apart_lottery }
    ensures counts { counts apart apart_lottery ≡ 1 ∷ 1 ∷ 1 ∷ 1 ∷ [] }
    ensures weights { map (λ stage. map (panel_weight stage) (panels apart)) apart_stages ≡
        (pos 1 ∷ pos 1 ∷ pos 2 ∷ pos 2 ∷ []) ∷ (pos 1 ∷ pos 1 ∷ pos 0 ∷ pos 0 ∷ []) ∷ [] }
    ensures certified { Certifies apart apart_lottery apart_stages }
{}

/// Pools with no quota panel: one with too few volunteers of a value; one with one seat and two values that are needed, which no single
/// volunteer has; one with no volunteer.
pub fn pools_without_panel()
    ensures short { IsPool short }
    ensures short_panels { panels short ≡ [] }
    ensures crossed { IsPool crossed }
    ensures crossed_panels { panels crossed ≡ [] }
    ensures nobody { IsPool nobody }
    ensures nobody_panels { panels nobody ≡ [] }
{}
