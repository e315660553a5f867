//! What a refusal of a cover says: a reason below 11 that the certificate doesn't hold, 11 and 12 in which line of the cover's text the
//! first fault of a tree is.
//!
//! The functions have no body. Their contracts are the laws, and the promises of this crate.
ghost use Rattle.std.specs.Prelude.{◌≡◌, ◌++◌, ◌+◌, ◌≤◌, drop, length, map, ℕ};
ghost use Rattle.define_checks.specs.Reasons.{Refusal, Refused};
ghost use Rattle.define_covers.specs.Covers.{Cover};
ghost use Rattle.define_covers.specs.CoverVerdict.{verdict};
ghost use Rattle.define_covers.specs.CoverText.{IsCover, cover_lines, front_line};
ghost use Rattle.define_covers.specs.Refusals.{IsOfLine, NamesLine, NamesTextLine, RefusalMeans, lines_before, lines_behind, tree_of};

/// A cover is refused for a reason below 11 only if its certificate doesn't hold.
pub fn refused_is_not_certified()
    ensures { (cover : Cover) (refusal : Refusal) → verdict cover ≡ Refused refusal → RefusalMeans cover refusal }
{}

/// If a cover with a tree for each stage is refused for a line of a tree, the refusal names the tree's first fault, by the number of this
/// line in the text.
pub fn refused_line_is_named()
    ensures { (cover : Cover) (refusal : Refusal) → length cover.trees ≡ length cover.bundle.answer.stages → verdict cover ≡ Refused refusal → IsOfLine refusal → NamesLine cover refusal }
{}

/// In the text, exactly `lines_before` lines come before those of tree `stage`. The tree's lines follow, then the next tree or the last
/// line. So the line at `place` in the tree is line `lines_before + place + 1` of the text. If the tree has only `place` lines, line
/// `lines_before + place + 1` is the first line after the tree.
pub fn tree_lines_in_text()
    ensures { (cover : Cover) (stage place : ℕ) → 1 ≤ stage → stage ≤ length cover.trees → place ≤ length (tree_of cover stage) →
        drop (lines_before cover stage + place) (cover_lines cover) ≡ map front_line (drop place (tree_of cover stage)) ++ lines_behind cover stage }
{}

/// If a cover is refused for a line of a tree, the refusal names the number of this line in the text.
pub fn refused_line_in_text()
    ensures { (cover : Cover) (refusal : Refusal) → IsCover cover → verdict cover ≡ Refused refusal → IsOfLine refusal → NamesTextLine cover refusal }
{}
