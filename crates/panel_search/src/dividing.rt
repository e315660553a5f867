//! Cuts a search into pieces. Each is the search below a live front of the first `piece_depth` classes, which are enough classes to give
//! each of many workers a piece.

ghost use Rattle.std.specs.Prelude.{◌≡◌, ◌≤◌, ◌<◌, ◌+◌, ◌++◌, [], ◌∷◌, filter, length, IfOk, OnOk, OnErr};
ghost use Rattle.std.specs.List.{All, flat_map};
ghost use Rattle.panel_search.specs.Answers.{AnswersPieces};
ghost use Rattle.panel_search.specs.Pieces.{IsLiveFront, live_children};
ghost use Rattle.panel_search.specs.Terms.{AreTerms};
ghost use Rattle.define_searches.specs.Fronts.{is_live_above};
ghost use Rattle.define_searches.specs.Waves.{piece_depth, pieces};

use crate::fronts::Front;
use crate::pricing::{BestSearch, Terms};
use crate::searching::{BudgetSpent, SearchStop};
use alike::Classes;
use std::alloc::{AllocError, Global};

// Returns the fronts of the pieces of the search for the best composition, in order, and the number of visits made to find them. Fails if
// the visits exceed `nodes`.
pub(crate) fn pieces(
    alloc: Global,
    terms: &Terms<'_>,
    nodes: u64,
) -> Result<(Vec<Front>, u64), SearchStop>
    requires { AreTerms terms.now }
    ensures { AnswersPieces (pieces terms.now.classes.now terms.now.closed.now terms.now.row.now) nodes result }
{
    terms.classes.facts();
    let mut fronts = begun(alloc, terms)?;
    if fronts.is_empty() {
        return Ok((fronts, entered(0, 1, nodes)?));
    }
    let mut visits = 0;
    for depth in 0..piece_depth(terms.classes) {
        visits = entered(visits, fronts.len(), nodes)?;
        fronts = next_fronts(alloc, terms, depth, &fronts)?;
    }
    Ok((fronts, visits))
}

// Returns the empty front alone, if it is live with the row's right side as the floor, else no front.
fn begun(alloc: Global, terms: &Terms<'_>) -> Result<Vec<Front>, AllocError>
    requires { AreTerms terms.now }
    ensures { IfOk result (λ fronts. fronts.items ≡ filter (is_live_above terms.now.classes.now terms.now.closed.now terms.now.row.now terms.now.row.now.b) ([] ∷ [])) }
{
    let mut fronts = Vec::new(alloc);
    let search = BestSearch::new(alloc, terms, &[], terms.row.side(), 0)?;
    if search.is_live(terms, 0) {
        fronts.push(Front::new(Vec::new(alloc)))?;
    }
    Ok(fronts)
}

// Returns `visits` plus one visit for each of `fronts` fronts. Fails if the sum exceeds the budget `nodes`.
fn entered(visits: u64, fronts: usize, nodes: u64) -> Result<u64, BudgetSpent>
    requires { visits ≤ nodes }
    ensures ok { OnOk result (visits + fronts ≤ nodes) }
    ensures visits { IfOk result (λ more. more ≡ visits + fronts) }
    ensures err { OnErr result (nodes < visits + fronts) }
{
    let more = fronts as u64;
    if nodes - visits < more {
        return Err(BudgetSpent);
    }
    Ok(visits + more)
}

// Returns how many classes a piece's front has: the least number of first classes that have at least 64 lists of counts, or all classes.
fn piece_depth(classes: &Classes) -> usize
    ensures { result ≡ piece_depth classes.now }
{
    classes.facts();
    let mut lists = 1;
    for (depth, class) in classes.classes().iter().enumerate() {
        if lists >= 64 {
            return depth;
        }
        lists *= class.most() - class.least() + 1;
    }
    classes.classes().len()
}

// Returns the live children of `fronts`, in order, with the row's right side as the floor.
fn next_fronts(
    alloc: Global,
    terms: &Terms<'_>,
    depth: usize,
    fronts: &[Front],
) -> Result<Vec<Front>, AllocError>
    requires terms { AreTerms terms.now }
    requires below { depth < length terms.now.classes.now.classes }
    requires live { All (IsLiveFront terms.now.classes.now terms.now.closed.now terms.now.row.now depth) fronts.now }
    ensures { IfOk result (λ next. next.items ≡ flat_map (live_children terms.now.classes.now terms.now.closed.now terms.now.row.now) fronts.now) }
{
    let mut next = Vec::new(alloc);
    for front in fronts {
        push_children(alloc, terms, front, &mut next)?;
    }
    Ok(next)
}

// Appends the live children of the live front `front` to `next`, with the row's right side as the floor.
#[tactic(auto, using(crate::proofs::Kept::front_within))]
fn push_children(
    alloc: Global,
    terms: &Terms<'_>,
    front: &Front,
    next: &mut Vec<Front>,
) -> Result<(), AllocError>
    requires terms { AreTerms terms.now }
    requires below { length front.now < length terms.now.classes.now.classes }
    requires live { IsLiveFront terms.now.classes.now terms.now.closed.now terms.now.row.now (length front.now) front.now }
    ensures { OnOk result (next.new.items ≡ next.old.items ++ live_children terms.now.classes.now terms.now.closed.now terms.now.row.now front.now) }
{
    terms.classes.facts();
    let mut search = BestSearch::new(alloc, terms, front.counts(), terms.row.side(), 0)?;
    let (low, end) = search.begin(terms, front);
    search.push_children(alloc, terms, front, low, end, next)
}
