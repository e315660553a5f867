//! The search for the best composition in pieces, which run in waves. The definitions are in `specs/`.
//!
//! The functions have no body. They are the promises: laws over the definitions, and worked examples.
ghost use Rattle.std.specs.Prelude.{◌≡◌, ◌↔◌, ℕ, List, [], ◌∷◌, ◌++◌, filter, map, length, None, Some, IsTrue, IsFalse, pos, ℤ, int_lt};
ghost use Rattle.std.specs.List.{AllByRecursion};
ghost use Rattle.define_rows.specs.Row.{Row};
ghost use Rattle.define_searches.specs.Classes.{Classes, IsSearchable, classes_of};
ghost use Rattle.define_searches.specs.Compositions.{all_counts, attains, is_composition, price, weight_in};
ghost use Rattle.define_searches.specs.Fronts.{HaveEntries, later_than};
ghost use Rattle.define_searches.specs.WorkedSearches.{either, apart, row};
ghost use Rattle.define_searches.specs.Below.{IsFront, QualifiesBelow, below, best_below, search_from};
ghost use Rattle.define_searches.specs.Waves.{best_in_waves, piece_depth, pieces};
ghost use Rattle.define_searches.specs.WorkedFronts.{first_gone, first_seated};

/// The compositions that begin with a front are exactly the compositions among the lists that continue it with a count for each later
/// class.
pub fn below_goes_on()
    ensures { (all : Classes) (front : List ℕ) → IsFront all front →
        below all front ≡ filter (is_composition all) (map (λ counts. front ++ counts) (all_counts (later_than front all.classes))) }
{}

/// The search below a front finds the best composition below it: among those that attain the closed rows and weigh more than the floor, the
/// first of greatest weight. It finds nothing exactly if no composition below the front attains the closed rows and weighs more than the
/// floor. The best composition below a front begins with this front.
pub fn search_from_finds_best()
    ensures best { (all : Classes) (closed : List Row) (priced : Row) (front : List ℕ) (floor : ℤ) → IsSearchable all → HaveEntries all (priced ∷ closed) → IsFront all front →
        (search_from all closed priced front floor).kept ≡ best_below all closed priced front floor }
    ensures found { (all : Classes) (closed : List Row) (priced : Row) (front : List ℕ) (floor : ℤ) (counts : List ℕ) →
        best_below all closed priced front floor ≡ Some counts → QualifiesBelow all closed priced front floor counts }
    ensures none { (all : Classes) (closed : List Row) (priced : Row) (front : List ℕ) (floor : ℤ) →
        best_below all closed priced front floor ≡ None ↔ AllByRecursion (λ counts. IsTrue (attains closed counts) → IsFalse (int_lt floor (weight_in priced.a counts))) (below all front) }
{}

/// The search in waves finds the price: among the compositions that attain the closed rows and weigh more than the row's right side, the
/// first of greatest weight; and nothing if no composition does both.
pub fn waves_find_price()
    ensures { (all : Classes) (closed : List Row) (priced : Row) → IsSearchable all → HaveEntries all (priced ∷ closed) →
        (best_in_waves all closed priced).kept ≡ price all closed priced }
{}

/// The front of each piece has a count for each of the first `piece_depth` classes, from the class's least to its most.
pub fn pieces_are_fronts()
    ensures fronts { (all : Classes) (closed : List Row) (priced : Row) → IsSearchable all → AllByRecursion (IsFront all) (pieces all closed priced).fronts }
    ensures depth { (all : Classes) (closed : List Row) (priced : Row) → AllByRecursion (λ front. length front ≡ piece_depth all) (pieces all closed priced).fronts }
{}

/// Without classes, the search in waves makes one visit.
pub fn no_class_is_one_visit()
    ensures { (all : Classes) (closed : List Row) (priced : Row) → all.classes ≡ [] → (best_in_waves all closed priced).visits ≡ 1 }
{}

/// Searches in waves over small pools: the fronts of the pieces with the visits before them, and the best composition with all visits.
pub fn worked_waves()
    ensures apart_pieces { pieces (classes_of apart) [] (row (pos 0) (pos 0 ∷ pos 0 ∷ pos 1 ∷ pos 0 ∷ []))
        ≡ record { visits = 9; fronts = (1 ∷ 0 ∷ 1 ∷ 0 ∷ []) ∷ (0 ∷ 1 ∷ 1 ∷ 0 ∷ []) ∷ (0 ∷ 0 ∷ 1 ∷ 1 ∷ []) ∷ [] } }
    ensures apart { best_in_waves (classes_of apart) [] (row (pos 0) (pos 0 ∷ pos 0 ∷ pos 1 ∷ pos 0 ∷ []))
        ≡ record { visits = 12; floor = pos 1; kept = Some (1 ∷ 0 ∷ 1 ∷ 0 ∷ []) } }
    ensures either { best_in_waves (classes_of either) [] (row (pos 0) (pos 0 ∷ pos 1 ∷ []))
        ≡ record { visits = 3; floor = pos 1; kept = Some (0 ∷ 1 ∷ []) } }
    ensures either_again { best_in_waves (classes_of either) [] (row (pos 1) (pos 1 ∷ pos 1 ∷ []))
        ≡ record { visits = 1; floor = pos 1; kept = None } }
{}

/// One seat for one of two volunteers. If the first one is gone, counts that begin with 1 are no front, and no composition begins with
/// them. If the first one is seated, counts that begin with 0 are no front, and no composition begins with them.
pub fn worked_fronts()
    ensures gone { IsFront (classes_of first_gone) (1 ∷ []) → ⊥ }
    ensures below_gone { below (classes_of first_gone) (1 ∷ []) ≡ [] }
    ensures not_gone { IsFront (classes_of first_gone) (0 ∷ []) }
    ensures below_not_gone { below (classes_of first_gone) (0 ∷ []) ≡ (0 ∷ 1 ∷ []) ∷ [] }
    ensures unseated { IsFront (classes_of first_seated) (0 ∷ []) → ⊥ }
    ensures below_unseated { below (classes_of first_seated) (0 ∷ []) ≡ [] }
    ensures seated { IsFront (classes_of first_seated) (1 ∷ []) }
    ensures below_seated { below (classes_of first_seated) (1 ∷ []) ≡ (1 ∷ 0 ∷ []) ∷ [] }
{}
