//! The text of a cover, and the first fault of bytes that are no cover's text. The definitions are in `specs/`.
//!
//! The functions have no body. Their contracts are the promises: laws over the definitions, and worked examples.
ghost use Rattle.std.specs.Prelude.{◌≡◌, ◌≢◌, ◌++◌, [], ◌∷◌, codes, drop, length, map, take, ℕ, List, IsTrue, Ok, Err, Some, MatchResult};
ghost use Rattle.define_checks.specs.Reasons.{Valid};
ghost use Rattle.define_checks.specs.WorkedChecks.{refused};
ghost use Rattle.define_lines.specs.Lines.{line_of, text_of};
ghost use Rattle.define_pools.specs.Lists.{is_increasing};
ghost use Rattle.define_pools.specs.WorkedExamples.{four};
ghost use Rattle.define_proofs.specs.ProofText.{close_line, tree_line};
ghost use Rattle.define_covers.specs.Covers.{ByCap, ByClosed, ByHousehold, BySize, ByValue, Cover};
ghost use Rattle.define_covers.specs.WorkedCovers.{at, either_cover, four_cover};
ghost use Rattle.define_covers.specs.CoverText.{IsCover, cover_lines, cover_spelling, lines_before_close};
ghost use Rattle.define_covers.specs.CoverReading.{NextTree, OfFront, Progress, TheClose, Unknown, line_in_tree, line_kinds, read_cover};
ghost use Rattle.define_covers.specs.WorkedCoverTexts.{both_trees, faulty, front_with, read_text, verdict_on, whole, with_line, without_line};

/// Bytes are the text of a cover and are read as this cover, or they have a first fault and are the text of no cover.
pub fn cover_or_fault()
    ensures { (bytes : List ℕ) → MatchResult (read_cover bytes)
        (λ cover. IsCover cover × (bytes ≡ cover_spelling cover))
        (λ fault. (cover : Cover) → IsCover cover → bytes ≢ cover_spelling cover) }
{}

/// The text of a cover is read as this cover.
pub fn cover_is_read()
    ensures { (cover : Cover) → IsCover cover → read_cover (cover_spelling cover) ≡ Ok cover }
{}

/// Covers with the same text are the same cover.
pub fn one_cover_per_text()
    ensures { (first second : Cover) → IsCover first → IsCover second → cover_spelling first ≡ cover_spelling second → first ≡ second }
{}

/// The kinds of fault that a line may have are listed in rising order, so the first that applies is the lowest.
pub fn kinds_rise()
    ensures { (progress : Progress) (line : List ℕ) → IsTrue (is_increasing (map (λ one. one.0) (line_kinds progress line))) }
{}

/// The spelled trees of two women and two men, and of one seat for one of two volunteers. Before the first tree come the cover's first line
/// and the bundle.
pub fn worked_texts()
    ensures four { drop 18 (whole both_trees) ≡
        line_of (codes "tree" ∷ codes "1" ∷ []) ∷
        line_of (codes "front" ∷ codes "value" ∷ codes "1" ∷ codes "2" ∷ []) ∷
        line_of (codes "front" ∷ codes "cap" ∷ codes "0" ∷ codes "1" ∷ []) ∷
        line_of (codes "front" ∷ codes "value" ∷ codes "1" ∷ codes "0" ∷ []) ∷
        line_of (codes "tree" ∷ codes "2" ∷ []) ∷
        line_of (codes "front" ∷ codes "value" ∷ codes "1" ∷ codes "2" ∷ []) ∷
        line_of (codes "front" ∷ codes "cap" ∷ codes "0" ∷ codes "1" ∷ []) ∷
        line_of (codes "front" ∷ codes "value" ∷ codes "1" ∷ codes "0" ∷ []) ∷
        codes "close" ∷ [] }
    ensures either { drop 15 (cover_lines either_cover) ≡
        line_of (codes "tree" ∷ codes "1" ∷ []) ∷
        line_of (codes "front" ∷ codes "cap" ∷ codes "0" ∷ []) ∷
        codes "close" ∷ [] }
{}

/// What lines are read as inside tree 1 or 2 of 2. `close` isn't allowed before the last tree, and the line that begins the next tree must
/// be that of tree 2.
pub fn worked_marks()
    ensures first { map (line_in_tree four 1 2) (close_line ∷ tree_line 1 ∷ tree_line 2 ∷ tree_line 3 ∷ codes "front" ∷ []) ≡ Unknown ∷ Unknown ∷ NextTree ∷ Unknown ∷ Unknown ∷ [] }
    ensures last { map (line_in_tree four 2 2) (close_line ∷ tree_line 3 ∷ []) ≡ TheClose ∷ Unknown ∷ [] }
{}

/// What a front's line is read as. A cause without a number has the field 0. A value's number is from 1 to 2, as there are two values; the
/// number of an earlier stage is 1 in the second tree. A front has at most four counts, one for each volunteer, each at most 400.
pub fn worked_fronts()
    ensures causes { map (λ fields. front_with fields)
        ((codes "size" ∷ codes "0" ∷ codes "2" ∷ codes "1" ∷ []) ∷ (codes "value" ∷ codes "2" ∷ []) ∷ (codes "house" ∷ codes "0" ∷ []) ∷ (codes "closed" ∷ codes "1" ∷ []) ∷ (codes "cap" ∷ codes "0" ∷ []) ∷ [])
        ≡ OfFront (at BySize (2 ∷ 1 ∷ [])) ∷ OfFront (at (ByValue 2) []) ∷ OfFront (at ByHousehold []) ∷ OfFront (at (ByClosed 1) []) ∷ OfFront (at ByCap []) ∷ [] }
    ensures no_causes { map (λ fields. front_with fields)
        ((codes "size" ∷ codes "1" ∷ []) ∷ (codes "size" ∷ []) ∷ (codes "value" ∷ codes "0" ∷ []) ∷ (codes "value" ∷ codes "3" ∷ []) ∷ (codes "house" ∷ codes "00" ∷ []) ∷ (codes "closed" ∷ codes "0" ∷ [])
        ∷ (codes "closed" ∷ codes "2" ∷ []) ∷ (codes "cap" ∷ codes "" ∷ []) ∷ (codes "seat" ∷ codes "0" ∷ []) ∷ [])
        ≡ Unknown ∷ Unknown ∷ Unknown ∷ Unknown ∷ Unknown ∷ Unknown ∷ Unknown ∷ Unknown ∷ Unknown ∷ [] }
    ensures counts { map (λ fields. front_with (codes "cap" ∷ codes "0" ∷ fields)) ((codes "400" ∷ []) ∷ (codes "0" ∷ codes "0" ∷ codes "0" ∷ codes "0" ∷ []) ∷ [])
        ≡ OfFront (at ByCap (400 ∷ [])) ∷ OfFront (at ByCap (0 ∷ 0 ∷ 0 ∷ 0 ∷ [])) ∷ [] }
    ensures no_counts { map (λ fields. front_with (codes "cap" ∷ codes "0" ∷ fields))
        ((codes "401" ∷ []) ∷ (codes "01" ∷ []) ∷ (codes "-1" ∷ []) ∷ (codes "0" ∷ codes "0" ∷ codes "0" ∷ codes "0" ∷ codes "0" ∷ []) ∷ [])
        ≡ Unknown ∷ Unknown ∷ Unknown ∷ Unknown ∷ [] }
{}

/// A text that is read as a cover, and the verdicts on texts: the cover is valid; without line 22 the first tree ends early; with another
/// cause in line 21 this cause doesn't apply.
pub fn worked_verdicts()
    ensures read { read_text (whole both_trees) ≡ Ok (four_cover both_trees) }
    ensures valid { verdict_on (read_text (whole both_trees)) ≡ Some Valid }
    ensures early { verdict_on (read_text (without_line 22)) ≡ Some (refused 1 11 (22 ∷ [])) }
    ensures cause { verdict_on (read_text (with_line 21 (line_of (codes "front" ∷ codes "size" ∷ codes "0" ∷ codes "1" ∷ [])))) ≡ Some (refused 1 12 (21 ∷ [])) }
    ensures no_front { verdict_on (read_text (take 23 (whole both_trees) ++ close_line ∷ [])) ≡ Some (refused 2 11 (24 ∷ [])) }
{}

/// Texts with a first fault: cut before the end of the first line, after it, in the pool, in the bundle, after the bundle, or before
/// `close`; with another first line; with a line in the bundle that isn't right; and with a line or bytes after the last.
pub fn worked_faults()
    ensures empty { read_cover [] ≡ faulty 1 20 }
    ensures cut { read_cover (codes "cover") ≡ faulty 1 20 }
    ensures after_first { read_text (take 1 (whole both_trees)) ≡ faulty 2 17 }
    ensures in_pool { read_text (take 4 (whole both_trees)) ≡ faulty 5 12 }
    ensures in_bundle { read_text (take 17 (whole both_trees)) ≡ faulty 18 17 }
    ensures after_bundle { read_text (take 18 (whole both_trees)) ≡ faulty 19 20 }
    ensures without_close { read_text (take 26 (whole both_trees)) ≡ faulty 27 20 }
    ensures second_version { read_text (with_line 1 (line_of (codes "cover" ∷ codes "2" ∷ []))) ≡ faulty 1 18 }
    ensures no_bundle { read_text (without_line 2) ≡ faulty 2 13 }
    ensures total { read_text (without_line 13) ≡ faulty 13 14 }
    ensures without_tree { read_text (without_line 19) ≡ faulty 19 19 }
    ensures early_close { read_text (with_line 23 close_line) ≡ faulty 23 19 }
    ensures line_behind { read_text (whole both_trees ++ close_line ∷ []) ≡ faulty 28 20 }
    ensures bytes_behind { read_cover (text_of (whole both_trees) ++ codes "x") ≡ faulty 28 20 }
{}
