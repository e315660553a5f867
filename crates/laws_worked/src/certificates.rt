//! Certificates that don't hold, each for one cause alone.

ghost use Rattle.std.specs.Prelude.{[], ◌∷◌, pos, negsuc};
ghost use Rattle.define_pools.specs.Certificate.{Certifies};
ghost use Rattle.define_pools.specs.WorkedExamples.{four, four_lottery, four_stages, row, stage};
ghost use Rattle.laws_worked.specs.Pools.{drawn, one_woman, one_woman_lottery};

/// Certificates that don't hold because of a stage's weights: there are too few, though the missing ones would be 0; there are too many; a
/// volunteer who is unsettled has one below 0; or none is above 0.
pub fn weights_that_refuse()
    ensures too_few { ¬ Certifies four four_lottery (stage (pos 1) (pos 1 ∷ pos 1 ∷ pos 0 ∷ []) ∷ stage (pos 0) (negsuc 0 ∷ negsuc 0 ∷ pos 1 ∷ pos 1 ∷ []) ∷ []) }
    ensures too_many { ¬ Certifies four four_lottery (stage (pos 1) (pos 1 ∷ pos 1 ∷ pos 0 ∷ pos 0 ∷ pos 5 ∷ []) ∷ stage (pos 0) (negsuc 0 ∷ negsuc 0 ∷ pos 1 ∷ pos 1 ∷ []) ∷ []) }
    ensures negative { ¬ Certifies four four_lottery (stage (pos 0) (pos 1 ∷ pos 1 ∷ negsuc 0 ∷ negsuc 0 ∷ []) ∷ stage (pos 0) (negsuc 0 ∷ negsuc 0 ∷ pos 1 ∷ pos 1 ∷ []) ∷ []) }
    ensures none_positive { ¬ Certifies four four_lottery (stage (pos 0) (pos 0 ∷ pos 0 ∷ pos 0 ∷ pos 0 ∷ []) ∷ four_stages) }
{}

/// Certificates that don't hold because of counts: volunteers with weights above 0 have different counts; somebody who is unsettled has a
/// lower count than those with weights above 0.
pub fn counts_that_refuse()
    ensures different { ¬ Certifies one_woman one_woman_lottery (stage (pos 2) (pos 1 ∷ pos 1 ∷ pos 1 ∷ pos 1 ∷ []) ∷ []) }
    ensures not_the_least { ¬ Certifies one_woman one_woman_lottery (stage (pos 1) (pos 1 ∷ pos 0 ∷ pos 0 ∷ pos 0 ∷ []) ∷ stage (pos 1) (pos 0 ∷ pos 1 ∷ pos 1 ∷ pos 1 ∷ []) ∷ []) }
{}

/// Certificates that don't hold because of a cap: a quota panel that isn't listed weighs more than the cap; a listed panel weighs less than
/// the cap.
pub fn caps_that_refuse()
    ensures passed { ¬ Certifies four four_lottery (stage (pos 1) (pos 1 ∷ pos 0 ∷ pos 0 ∷ pos 1 ∷ []) ∷ stage (pos 0) (negsuc 0 ∷ pos 1 ∷ pos 1 ∷ negsuc 0 ∷ []) ∷ []) }
    ensures not_reached { ¬ Certifies four four_lottery (stage (pos 2) (pos 1 ∷ pos 0 ∷ pos 1 ∷ pos 0 ∷ []) ∷ stage (pos 2) (pos 1 ∷ pos 1 ∷ pos 1 ∷ pos 1 ∷ []) ∷ []) }
{}

/// Certificates that don't hold although each of their stages does: there is no stage; the stages leave somebody unsettled; the total isn't
/// the sum of the weights, so that there is no lottery.
pub fn ends_that_refuse()
    ensures no_stage { ¬ Certifies four four_lottery [] }
    ensures somebody_left { ¬ Certifies four four_lottery (stage (pos 1) (pos 1 ∷ pos 1 ∷ pos 0 ∷ pos 0 ∷ []) ∷ []) }
    ensures no_lottery { ¬ Certifies four (drawn 3 (row (0 ∷ 2 ∷ []) 1 ∷ row (1 ∷ 3 ∷ []) 1 ∷ [])) four_stages }
{}
