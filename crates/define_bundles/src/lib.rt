//! The texts of pools and of bundles, each with its one spelling and the first fault of bytes that spell none. A bundle is a pool with its
//! answer; the ranges of the answer's numbers are here too. The definitions are in `specs/`.
//!
//! The functions have no body. They are the promises: laws over the definitions, and worked examples.
#![tactic(auto)]

ghost use Rattle.std.specs.Prelude.{true, false, ◌≡◌, ◌≢◌, ◌<◌, ◌⊎◌, [], ◌∷◌, ◌++◌, codes, Bool, List, length, map, take, ℕ, IsTrue, Some, Ok, Err, MatchResult, ◌+◌, ◌-◌, ◌^◌, drop, pos, negsuc};
ghost use Rattle.define_pools.specs.Pool.{Pool, IsPool};
ghost use Rattle.define_pools.specs.WorkedExamples.{four, after_dropout, nobody, row, stage};
ghost use Rattle.define_pools.specs.Lists.{is_increasing};
ghost use Rattle.define_pools.specs.Building.{lowest_kind, household_set, empty_pool};
ghost use Rattle.define_lines.specs.Lines.{Fault, line_of, text_of, pieces_of};
ghost use Rattle.define_bundles.specs.declared.Version.TheVariants.{First, Second, Third};
ghost use Rattle.define_bundles.specs.PoolText.{lines_before_end, lines_in, end_line, spelling};
ghost use Rattle.define_bundles.specs.WorkedPoolTexts.{housed};
ghost use Rattle.define_bundles.specs.PoolReading.{Progress, line_kinds, read};
ghost use Rattle.define_bundles.specs.FirstFault.{IsPoolText, BeginsPoolText, LacksLines, lines_before, lines_up_to, IsLowest, kinds_at};
ghost use Rattle.std.specs.Fmt.{signed_decimal};
ghost use Rattle.define_bundles.specs.Ranges.{IsInRanges, is_row, is_stage};
ghost use Rattle.define_bundles.specs.BundleText.{Bundle, IsBundle, bundle_text, bundle_spelling, lines_before_done};
ghost use Rattle.define_bundles.specs.BundleReading.{read_bundle};
ghost use Rattle.define_bundles.specs.WorkedExamples.{four_answer, dropout_answer, widest_answer};

/// The version of the text of a pool, and of a bundle.
#[derive(Clone, Copy, Debug, PartialEq, Eq)]
pub enum Version {
    /// Version 1: nobody has a household.
    First,
    /// Version 2: somebody has a household.
    Second,
    /// Version 3: there are more than 400 volunteers, or panels have more than 200 members.
    Third,
}

/// How far a text has come after its size: the version, and how many volunteers its household and standing lines have passed.
#[derive(Clone, Copy, Debug, PartialEq, Eq)]
pub struct Passed {
    /// The version of the text.
    pub version: Version,
    /// How many volunteers household lines have passed: 0 before the first household line, else all up to the volunteer of the last one,
    /// this volunteer included.
    pub households: usize,
    /// How many volunteers standing lines have passed, counted in the same way.
    pub standings: usize,
}

/// Bytes are either the text of a pool, and are read as this pool, or they have a first fault and are the text of none.
pub fn pool_or_fault()
    ensures { (bytes : List ℕ) → MatchResult (read bytes)
        (λ pool. IsPool pool × (bytes ≡ spelling pool))
        (λ fault. (pool : Pool) → IsPool pool → bytes ≢ spelling pool) }
{}

/// The text of a pool is read as this pool.
pub fn text_is_read()
    ensures { (pool : Pool) → IsPool pool → read (spelling pool) ≡ Ok pool }
{}

/// Pools with the same text are the same pool.
pub fn one_pool_per_text()
    ensures { (first second : Pool) → IsPool first → IsPool second → spelling first ≡ spelling second → first ≡ second }
{}

/// The lines before the first faulty line begin the text of some pool. With the faulty line they begin none, unless the kind is 12: then
/// all lines that end with LF are right, but the end line is missing. If the faulty line is the third or a later one, the lines before it
/// are the text of a pool, or become one if the end line is added. There are two exceptions: right lines of version 2 that still lack a
/// household line, and right lines of version 3 whose pool is still within the usual limits. They count as a beginning even if no such line
/// can follow, as when nobody can be added since an earlier category has no values; and adding the end line doesn't make them a pool's
/// text.
pub fn first_fault_is_first()
    ensures before { (bytes : List ℕ) (fault : Fault) → read bytes ≡ Err fault →
        BeginsPoolText (lines_before fault bytes) ⊎ LacksLines (lines_before fault bytes) }
    ensures closed { (bytes : List ℕ) (fault : Fault) → read bytes ≡ Err fault → 2 < fault.line →
        IsPoolText (text_of (lines_before fault bytes)) ⊎ IsPoolText (text_of (lines_before fault bytes ++ end_line ∷ [])) ⊎ LacksLines (lines_before fault bytes) }
    ensures up_to { (bytes : List ℕ) (fault : Fault) → read bytes ≡ Err fault → fault.kind ≢ 12 → ¬ BeginsPoolText (lines_up_to fault bytes) }
    ensures missing_end { (bytes : List ℕ) (fault : Fault) → read bytes ≡ Err fault → fault.kind ≡ 12 → length (pieces_of bytes) ≡ fault.line }
{}

/// The kinds that a line may have are listed in rising order. The first fault's kind is the lowest of those that apply to its line, except
/// kind 12, a missing end.
pub fn first_fault_is_lowest()
    ensures lowest { (kinds : List (ℕ × Bool)) (kind : ℕ) → IsTrue (is_increasing (map (λ one. one.0) kinds)) → lowest_kind kinds ≡ Some kind → IsLowest kinds kind }
    ensures rising { (progress : Progress) (line : List ℕ) → IsTrue (is_increasing (map (λ one. one.0) (line_kinds progress line))) }
    ensures fault { (bytes : List ℕ) (fault : Fault) → read bytes ≡ Err fault → fault.kind ≢ 12 → IsLowest (kinds_at fault bytes) fault.kind }
{}

/// Worked examples: the texts of two women and two men, of the same four after a dropout, of the four with a and c in one household, of a
/// pool of nobody, and of a large one of nobody; and bytes that are no text.
pub fn worked_texts()
    ensures four_length { length (spelling four) ≡ 138 }
    ensures four { read (spelling four) ≡ Ok four }
    ensures after_dropout_length { length (spelling after_dropout) ≡ 154 }
    ensures after_dropout { read (spelling after_dropout) ≡ Ok after_dropout }
    ensures out_of_order { read (text_of (lines_before_end after_dropout ++ line_of (codes "gone" ∷ codes "b" ∷ []) ∷ [])) ≡ Err (record { line = 12; kind = 9 }) }
    ensures housed_length { length (spelling housed) ≡ 166 }
    ensures housed { read (spelling housed) ≡ Ok housed }
    ensures housed_in_first { read (text_of (lines_in First housed ++ end_line ∷ [])) ≡ Err (record { line = 10; kind = 1 }) }
    ensures nobody_housed { read (text_of (lines_in Second four ++ end_line ∷ [])) ≡ Err (record { line = 10; kind = 1 }) }
    ensures households_out_of_order { read (text_of (lines_in Second (household_set four 2 (codes "h")) ++ line_of (codes "household" ∷ codes "a" ∷ codes "h" ∷ []) ∷ end_line ∷ []))
        ≡ Err (record { line = 11; kind = 9 }) }
    ensures nobody { read (spelling nobody) ≡ Ok nobody }
    ensures large_length { length (spelling (empty_pool 201)) ≡ 20 }
    ensures large { read (spelling (empty_pool 201)) ≡ Ok (empty_pool 201) }
    ensures large_in_first { read (text_of (lines_in First (empty_pool 201) ++ end_line ∷ [])) ≡ Err (record { line = 2; kind = 2 }) }
    ensures too_large { read (text_of (lines_in Third (empty_pool 1001) ++ end_line ∷ [])) ≡ Err (record { line = 2; kind = 2 }) }
    ensures not_large { read (text_of (lines_in Third four ++ end_line ∷ [])) ≡ Err (record { line = 10; kind = 1 }) }
    ensures housed_in_third { read (text_of (lines_in Third housed ++ end_line ∷ [])) ≡ Err (record { line = 10; kind = 1 }) }
    ensures empty { read [] ≡ Err (record { line = 1; kind = 12 }) }
    ensures cut { read (take 134 (spelling four)) ≡ Err (record { line = 10; kind = 12 }) }
{}

/// Bytes are either the text of a bundle, and are read as this bundle, or they have a first fault and are the text of none.
pub fn bundle_or_fault()
    ensures { (bytes : List ℕ) → MatchResult (read_bundle bytes)
        (λ bundle. IsBundle bundle × (bytes ≡ bundle_spelling bundle))
        (λ fault. (bundle : Bundle) → IsBundle bundle → bytes ≢ bundle_spelling bundle) }
{}

/// The text of a bundle is read as this bundle.
pub fn bundle_is_read()
    ensures { (bundle : Bundle) → IsBundle bundle → read_bundle (bundle_spelling bundle) ≡ Ok bundle }
{}

/// Bundles with the same text are the same bundle.
pub fn one_bundle_per_text()
    ensures { (first second : Bundle) → IsBundle first → IsBundle second → bundle_spelling first ≡ bundle_spelling second → first ≡ second }
{}

/// The bundle of two women and two men.
pub fn four_volunteers()
    ensures in_ranges { IsInRanges four four_answer }
    ensures length { length (bundle_text four four_answer) ≡ 218 }
    ensures lines { drop 11 (lines_before_done four four_answer) ≡
        line_of (codes "total" ∷ codes "2" ∷ []) ∷
        line_of (codes "panel" ∷ codes "1" ∷ codes "0" ∷ codes "2" ∷ []) ∷
        line_of (codes "panel" ∷ codes "1" ∷ codes "1" ∷ codes "3" ∷ []) ∷
        line_of (codes "stage" ∷ codes "1" ∷ codes "1" ∷ codes "1" ∷ codes "0" ∷ codes "0" ∷ []) ∷
        line_of (codes "stage" ∷ codes "0" ∷ codes "-1" ∷ codes "-1" ∷ codes "1" ∷ codes "1" ∷ []) ∷ [] }
{}

/// The bundle after a dropout, in which each stage settles one volunteer; and one with the widest numbers.
pub fn other_answers()
    ensures after_dropout { IsInRanges after_dropout dropout_answer }
    ensures widest { IsInRanges four widest_answer }
{}

/// Rows for four volunteers. In range: a weight of 10^38. Out of range: weights of 0 and of 10^38 + 1, no member, a member twice, members
/// that don't increase, and a member with the number 4.
pub fn rows_in_ranges()
    ensures { map (is_row 4) (
        row (0 ∷ 3 ∷ []) 0 ∷ row (0 ∷ 3 ∷ []) (10 ^ 38) ∷ row (0 ∷ 3 ∷ []) (10 ^ 38 + 1) ∷
        row [] 1 ∷ row (1 ∷ 1 ∷ []) 1 ∷ row (1 ∷ 0 ∷ []) 1 ∷ row (0 ∷ 4 ∷ []) 1 ∷ [])
        ≡ false ∷ true ∷ false ∷ false ∷ false ∷ false ∷ false ∷ [] }
{}

/// Stages for two volunteers. In range: a reach of 2^127 - 1. Out of range: too few weights, too many, a reach of 2^127.
pub fn stages_in_ranges()
    ensures { map (is_stage 2) (
        stage (pos 0) (pos 1 ∷ []) ∷ stage (pos 0) (pos 1 ∷ pos 1 ∷ pos 1 ∷ []) ∷
        stage (negsuc (2 ^ 126 - 1)) (pos (2 ^ 126 - 8) ∷ negsuc 6 ∷ []) ∷
        stage (negsuc (2 ^ 126 - 1)) (pos (2 ^ 126 - 8) ∷ negsuc 7 ∷ []) ∷ [])
        ≡ false ∷ false ∷ true ∷ false ∷ [] }
{}

/// A negative number has its sign before its digits, and 0 has none.
pub fn signed_numbers()
    ensures { map signed_decimal (pos 0 ∷ pos 10 ∷ negsuc 0 ∷ negsuc 9 ∷ []) ≡ codes "0" ∷ codes "10" ∷ codes "-1" ∷ codes "-10" ∷ [] }
{}
