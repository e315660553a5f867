//! Covers: for each stage of a certificate a list of fronts, each with a cause for which no search need go on there; and the verdict on
//! them. The definitions are in `specs/`. The text of a cover and its first fault are in `texts`, what a valid cover shows in `laws`, and
//! what a refusal shows in `refused`.
//!
//! The functions have no body: their contracts are laws over the definitions, and worked examples.
#![tactic(auto)]

pub mod laws;
pub mod refused;
pub mod texts;

ghost use Rattle.std.specs.Prelude.{drop, ◌≡◌, ◌++◌, [], ◌∷◌};
ghost use Rattle.define_checks.specs.Reasons.{Valid};
ghost use Rattle.define_checks.specs.WorkedChecks.{below_zero, high_cap, one_stage, refused, two_women};
ghost use Rattle.define_pools.specs.WorkedExamples.{family, four};
ghost use Rattle.define_covers.specs.CoverVerdict.{verdict};
ghost use Rattle.define_covers.specs.Covers.{ByCap, ByClosed, ByHousehold, BySize, ByValue};
ghost use Rattle.define_covers.specs.WorkedCovers.{at, causes_at, covered, early_end, either_cover, first_stage, four_cover, longer_fronts, second_stage, women_fronts, wrong_cause};

/// Valid covers: of two women and two men, with fronts of one class or of both; and of one seat for one of two volunteers.
pub fn valid_covers()
    ensures four { verdict (four_cover (women_fronts ∷ women_fronts ∷ [])) ≡ Valid }
    ensures longer { verdict (four_cover (women_fronts ∷ longer_fronts ∷ [])) ≡ Valid }
    ensures either { verdict either_cover ≡ Valid }
{}

/// Trees that aren't in order: without the last line, so that line 22, which begins the next tree, comes too early; without a line; with a
/// line after the end; without the second of three lines; with a first line that leaves out the greatest count; and with a front of three
/// counts over two classes. The first tree begins with line 20 of the text.
pub fn order_refused()
    ensures early { verdict (four_cover (early_end ∷ women_fronts ∷ [])) ≡ refused 1 11 (22 ∷ []) }
    ensures no_line { verdict (four_cover (women_fronts ∷ [] ∷ [])) ≡ refused 2 11 (24 ∷ []) }
    ensures late { verdict (four_cover ((women_fronts ++ at (ByValue 1) (0 ∷ []) ∷ []) ∷ women_fronts ∷ [])) ≡ refused 1 11 (23 ∷ []) }
    ensures passed_over { verdict (four_cover ((at (ByValue 1) (2 ∷ []) ∷ at (ByValue 1) (0 ∷ []) ∷ []) ∷ women_fronts ∷ [])) ≡ refused 1 11 (21 ∷ []) }
    ensures not_greatest { verdict (four_cover (drop 1 women_fronts ∷ women_fronts ∷ [])) ≡ refused 1 11 (20 ∷ []) }
    ensures too_long { verdict (four_cover ((at (ByValue 1) (2 ∷ 2 ∷ 0 ∷ []) ∷ []) ∷ women_fronts ∷ [])) ≡ refused 1 11 (20 ∷ []) }
{}

/// Causes that don't apply: of one woman, whose size can be reached; and, in the second tree, the cap of a stage that isn't an earlier one.
pub fn causes_refused()
    ensures size { verdict (four_cover (wrong_cause ∷ women_fronts ∷ [])) ≡ refused 1 12 (21 ∷ []) }
    ensures stage { verdict (four_cover (women_fronts ∷ (at (ByClosed 2) (2 ∷ []) ∷ []) ∷ [])) ≡ refused 2 12 (24 ∷ []) }
{}

/// Covers that are refused for other reasons: a listed panel that is no quota panel, a weight below 0, a listed panel that doesn't weigh the
/// cap, and a volunteer who is unsettled at the end.
pub fn other_reasons()
    ensures lottery { verdict (covered four two_women []) ≡ refused 0 1 (0 ∷ 1 ∷ []) }
    ensures negative { verdict (covered four below_zero []) ≡ refused 1 4 (2 ∷ []) }
    ensures reached { verdict (covered four high_cap ((at ByCap [] ∷ []) ∷ [])) ≡ refused 1 9 (1 ∷ 3 ∷ []) }
    ensures left { verdict (covered four one_stage (women_fronts ∷ [])) ≡ refused 1 10 (2 ∷ []) }
{}

/// The causes that apply to fronts of two women and two men in the second stage. The empty front is live. Three members are too many, so
/// nothing is said of what they weigh. Without a woman the first stage's cap isn't attained. If one woman and one man are of one household,
/// they aren't taken together.
pub fn causes_of_fronts()
    ensures nobody { causes_at four second_stage (first_stage ∷ []) [] ≡ [] }
    ensures one_woman { causes_at four second_stage (first_stage ∷ []) (1 ∷ []) ≡ ByCap ∷ [] }
    ensures both_women { causes_at four second_stage (first_stage ∷ []) (2 ∷ []) ≡ ByValue 1 ∷ ByCap ∷ [] }
    ensures too_many { causes_at four second_stage (first_stage ∷ []) (1 ∷ 2 ∷ []) ≡ BySize ∷ ByValue 2 ∷ [] }
    ensures no_woman { causes_at four second_stage (first_stage ∷ []) (0 ∷ []) ≡ ByValue 1 ∷ ByClosed 1 ∷ [] }
    ensures household { causes_at family second_stage (first_stage ∷ []) (1 ∷ 0 ∷ 1 ∷ []) ≡ ByHousehold ∷ ByCap ∷ [] }
{}
