//! A check of a certificate: the reasons for which it is refused, in their order, the verdict, and the visits of the check's searches. The
//! definitions are in `specs/`.
//!
//! The functions have no body: their contracts are laws over the definitions, which are promises, and worked examples. The law that matters
//! most is `valid_where_certified`.
#![tactic(auto)]

ghost use Rattle.std.specs.Prelude.{map, ◌≡◌, ◌↔◌, [], ◌∷◌, ℕ, pos, List, length, IsTrue, IsFalse, MatchResult, None, Some, Ok, Err, int_lt};
ghost use Rattle.std.specs.List.{list_all};
ghost use Rattle.define_bundles.specs.Ranges.{IsInRanges, is_stage};
ghost use Rattle.define_pools.specs.Certificate.{Answer, Certifies, Stage, attains, is_capped, panel_weight};
ghost use Rattle.define_pools.specs.Lottery.{LeximinGreatest};
ghost use Rattle.define_pools.specs.Pool.{Pool, is_quota_panel};
ghost use Rattle.define_pools.specs.WorkedExamples.{after_dropout, dropout_lottery, dropout_stages, family, family_lottery, family_stages, four, four_lottery, four_stages, stage};
ghost use Rattle.define_rows.specs.Row.{Row};
ghost use Rattle.define_searches.specs.Classes.{Classes, IsSearchable, MakesClasses};
ghost use Rattle.define_searches.specs.Fronts.{HaveEntries, HaveReach};
ghost use Rattle.define_searches.specs.Stages.{WeighAlike};
ghost use Rattle.define_searches.specs.WorkedSearches.{either};
ghost use Rattle.define_checks.specs.Caps.{alike_at, classes_at, composition_above, first_above, first_above_cap, stage_row};
ghost use Rattle.define_checks.specs.Reasons.{Refusal, Refused, Valid, verdict};
ghost use Rattle.define_checks.specs.Steps.{BeginsWithLottery, GoesOnByStages};
ghost use Rattle.define_checks.specs.Visits.{above_search, check_answer, first_spent, is_ahead, stage_search};
ghost use Rattle.define_checks.specs.WorkedChecks.{all_zero, alone, answer, below_zero, either_lottery, either_stages, high_cap, household_stages, low_cap, low_cap_and_negative, members_at, one_stage, refusal, refused, reasons_that_stand, three_in_all, too_early, twice, two_women, uneven, without_b};

/// Volunteers who are alike at a stage make classes, and have equal weights in that stage and those before it.
pub fn alike_at_make_classes()
    ensures makes { (pool : Pool) (stages : List Stage) → MakesClasses pool (alike_at pool stages) }
    ensures weigh { (pool : Pool) (stages : List Stage) → WeighAlike (alike_at pool stages) (length pool.volunteers) stages }
{}

/// The rows of a stage and of those before it have one entry per class, and a reach below 2^127 if the stages are in the ranges of a
/// bundle.
pub fn stage_rows_keep_reach()
    ensures entries { (pool : Pool) (stages rows : List Stage) → HaveEntries (classes_at pool stages) (map (stage_row pool stages) rows) }
    ensures reach { (pool : Pool) (stages : List Stage) → IsTrue (list_all (is_stage (length pool.volunteers)) stages) →
        HaveReach (classes_at pool stages) (map (stage_row pool stages) stages) }
{}

/// A panel above the cap is found exactly if the stage's cap doesn't hold. It is a quota panel that attains the earlier caps and weighs
/// more than the stage's cap.
pub fn first_above_cap_shows()
    ensures none { (pool : Pool) (earlier : List Stage) (stage : Stage) → first_above_cap pool earlier stage ≡ None ↔ IsTrue (is_capped pool earlier stage) }
    ensures panel { (pool : Pool) (earlier : List Stage) (stage : Stage) (panel : List ℕ) → first_above_cap pool earlier stage ≡ Some panel →
        IsTrue (is_quota_panel pool panel) × IsTrue (attains earlier panel) × IsTrue (int_lt stage.cap (panel_weight stage panel)) }
{}

/// For the answer of each bundle, the verdict is valid exactly if the certificate holds.
pub fn valid_where_certified()
    ensures { (pool : Pool) (answer : Answer) → IsInRanges pool answer → verdict pool answer ≡ Valid ↔ Certifies pool answer.lottery answer.stages }
{}

/// A lottery whose certificate is valid is leximin greatest.
pub fn valid_is_greatest()
    ensures { (pool : Pool) (answer : Answer) → IsInRanges pool answer → verdict pool answer ≡ Valid → LeximinGreatest pool answer.lottery }
{}

/// A certificate is refused only if it doesn't hold.
pub fn refused_is_not_certified()
    ensures { (pool : Pool) (answer : Answer) (refusal : Refusal) → verdict pool answer ≡ Refused refusal → ¬ Certifies pool answer.lottery answer.stages }
{}

/// The search over classes finds the first composition that attains the closed rows and weighs more in the row than its right side.
pub fn above_search_is_first()
    ensures { (all : Classes) (closed : List Row) (row : Row) → IsSearchable all → HaveEntries all (row ∷ closed) →
        (above_search all closed row).found ≡ first_above all closed row }
{}

/// The search at a stage finds the first composition that attains the earlier caps and weighs more than the stage's cap.
pub fn stage_search_is_first()
    ensures { (pool : Pool) (earlier : List Stage) (stage : Stage) → (stage_search pool earlier stage).found ≡ composition_above pool earlier stage }
{}

/// A check answers the verdict, or the first stage at which the visits are spent, if they are spent before the verdict's reason is tried.
/// If they are spent at no stage, it answers the verdict.
pub fn check_answers_verdict()
    ensures answer { (pool : Pool) (answer : Answer) (nodes : ℕ) → MatchResult (check_answer pool answer nodes) (λ said. said ≡ verdict pool answer)
        (λ stage. (first_spent pool nodes [] answer.stages ≡ Some stage) × IsFalse (is_ahead stage (verdict pool answer))) }
    ensures enough { (pool : Pool) (answer : Answer) (nodes : ℕ) → first_spent pool nodes [] answer.stages ≡ None → check_answer pool answer nodes ≡ Ok (verdict pool answer) }
{}

/// A check doesn't refuse a certificate that holds: it answers valid, or a stage at which the visits are spent.
pub fn certified_is_not_refused()
    ensures { (pool : Pool) (answer : Answer) (nodes : ℕ) → Certifies pool answer.lottery answer.stages →
        MatchResult (check_answer pool answer nodes) (λ said. said ≡ Valid) (λ stage. first_spent pool nodes [] answer.stages ≡ Some stage) }
{}

/// A check tries the reasons in their order: those of the lottery; then, for each stage, those before the cap and, after the search, those
/// of the cap.
pub fn check_goes_by_stages()
    ensures begins { BeginsWithLottery }
    ensures goes_on { GoesOnByStages }
{}

/// Certificates that hold: of two women and two men; of the same pool after a dropout; and of the same pool if two are of one household.
pub fn valid_certificates()
    ensures four { verdict four (answer four_lottery four_stages) ≡ Valid }
    ensures after_dropout { verdict after_dropout (answer dropout_lottery dropout_stages) ≡ Valid }
    ensures family { verdict family (answer family_lottery family_stages) ≡ Valid }
{}

/// Lotteries that are refused: two women on a panel, a panel listed twice, a total that isn't the sum. In A, B, B, A the third panel is
/// the first that repeats an earlier one.
pub fn lotteries_refused()
    ensures no_quota_panel { reasons_that_stand four two_women ≡ alone 0 1 (0 ∷ 1 ∷ []) }
    ensures listed_twice { reasons_that_stand four twice ≡ alone 0 2 (1 ∷ 3 ∷ []) }
    ensures other_total { reasons_that_stand four three_in_all ≡ alone 0 3 [] }
{}

/// Stages that are refused for their weights: somebody unsettled has a weight below 0; nobody unsettled has a weight above 0.
pub fn weights_refused()
    ensures negative { reasons_that_stand four below_zero ≡ alone 1 4 (2 ∷ []) }
    ensures none_positive { reasons_that_stand four all_zero ≡ alone 1 5 [] }
{}

/// Stages that are refused for counts: volunteers whom a stage settles have different counts; somebody unsettled has a lower count than the
/// volunteer whom the stage settles.
pub fn counts_refused()
    ensures different { reasons_that_stand four uneven ≡ alone 1 6 (1 ∷ []) }
    ensures lower { reasons_that_stand without_b too_early ≡ alone 2 7 (2 ∷ []) }
{}

/// Stages that are refused for their caps: a quota panel that isn't listed weighs more; a listed panel weighs less.
pub fn caps_refused()
    ensures passed { reasons_that_stand four low_cap ≡ alone 1 8 (0 ∷ 3 ∷ []) }
    ensures not_reached { reasons_that_stand four high_cap ≡ alone 1 9 (1 ∷ 3 ∷ []) }
{}

/// Stages that leave somebody unsettled.
pub fn ends_refused()
    ensures left { reasons_that_stand four one_stage ≡ alone 1 10 (2 ∷ []) }
{}

/// The verdict is the first reason. A weight below 0 in the second stage, which then leaves somebody unsettled, comes after the first
/// stage's cap.
pub fn first_reasons()
    ensures cap_first { verdict four low_cap_and_negative ≡ refused 1 8 (0 ∷ 3 ∷ []) }
    ensures three { reasons_that_stand four low_cap_and_negative ≡ Some (refusal 1 8 (0 ∷ 3 ∷ [])) ∷ Some (refusal 2 4 (1 ∷ [])) ∷ alone 2 10 (1 ∷ []) }
{}

/// Checks with small budgets of visits at each stage. The empty front counts one visit. A reason that is tried before the search is the
/// verdict even with a budget of 0 visits.
pub fn visits_spent()
    ensures one_visit { check_answer either (answer either_lottery either_stages) 1 ≡ Ok Valid }
    ensures no_visit { check_answer either (answer either_lottery either_stages) 0 ≡ Err 1 }
    ensures search { stage_search four [] (stage (pos 1) (pos 1 ∷ pos 0 ∷ pos 0 ∷ pos 1 ∷ [])) ≡ record { visits = 5; found = Some (1 ∷ 0 ∷ 0 ∷ 1 ∷ []) } }
    ensures five { check_answer four low_cap 5 ≡ Ok (refused 1 8 (0 ∷ 3 ∷ [])) }
    ensures four { check_answer four low_cap 4 ≡ Err 1 }
    ensures ahead { check_answer four below_zero 0 ≡ Ok (refused 1 4 (2 ∷ [])) }
    ensures behind { check_answer four high_cap 0 ≡ Err 1 }
    ensures later { check_answer without_b too_early 1 ≡ Ok (refused 2 7 (2 ∷ [])) }
{}

/// The classes of a check go by values, standing and the weights in the stages so far, and someone who shares a household is in a class
/// alone.
pub fn classes_of_checks()
    ensures by_values { members_at four (stage (pos 1) (pos 1 ∷ pos 1 ∷ pos 1 ∷ pos 1 ∷ []) ∷ []) ≡ (0 ∷ 1 ∷ []) ∷ (2 ∷ 3 ∷ []) ∷ [] }
    ensures by_weights { members_at four (stage (pos 1) (pos 1 ∷ pos 1 ∷ pos 0 ∷ pos 1 ∷ []) ∷ []) ≡ (0 ∷ 1 ∷ []) ∷ (2 ∷ []) ∷ (3 ∷ []) ∷ [] }
    ensures by_earlier_weights { members_at four (stage (pos 0) (pos 0 ∷ pos 0 ∷ pos 0 ∷ pos 0 ∷ []) ∷ stage (pos 1) (pos 1 ∷ pos 0 ∷ pos 0 ∷ pos 0 ∷ []) ∷ [])
        ≡ (0 ∷ []) ∷ (1 ∷ []) ∷ (2 ∷ 3 ∷ []) ∷ [] }
    ensures by_standing { members_at without_b (stage (pos 1) (pos 1 ∷ pos 1 ∷ pos 1 ∷ pos 1 ∷ []) ∷ []) ≡ (0 ∷ []) ∷ (1 ∷ []) ∷ (2 ∷ 3 ∷ []) ∷ [] }
    ensures by_household { members_at family (stage (pos 1) (pos 1 ∷ pos 1 ∷ pos 1 ∷ pos 1 ∷ []) ∷ []) ≡ (0 ∷ []) ∷ (1 ∷ []) ∷ (2 ∷ []) ∷ (3 ∷ []) ∷ [] }
{}

/// If a and c are of one household, no panel has both, and the first cap holds. If they aren't, the panel of a and c passes it. The second
/// stage is only about panels that attain the first cap, which the panel of b and d doesn't attain.
pub fn households_checked()
    ensures one_household { verdict family (answer family_lottery household_stages) ≡ Valid }
    ensures no_household { verdict four (answer family_lottery household_stages) ≡ refused 1 8 (0 ∷ 2 ∷ []) }
{}
