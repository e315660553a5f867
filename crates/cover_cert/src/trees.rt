//! The walk through the lines of a tree, which finds the first fault: a line that can't come next, a cause that doesn't apply, or that the
//! lines end before the tree is complete.

ghost use Rattle.std.specs.Prelude.{◌≡◌, ◌≤◌, ◌+◌, [], ◌∷◌, ℕ, IfOk, Ok, Err, OnOk, Some, None, length};
ghost use Rattle.check_search.specs.Front.{Tracks};
ghost use Rattle.check_search.specs.Terms.{AreTerms};
ghost use Rattle.define_covers.specs.Counts.{BeginningFits};
ghost use Rattle.define_covers.specs.LineSteps.{next};
ghost use Rattle.define_covers.specs.CoverVerdict.{fault_from};

use crate::judging::judge;
use crate::order::{continues, turned};
use crate::steps::Steps;
use check_reasons::lines_after;
use check_search::{Tally, Terms};
use cover_text::FrontLine;
use std::alloc::{AllocError, Global};
use std::marker::Model;
use std::sync::ledger::Ledger;

/// The reason to refuse a tree if a line can't come next in it, the lines end before it is complete, or a line follows its end.
const NO_NEXT_LINE: u8 = 11;

/// The reason to refuse a line whose cause doesn't apply.
const NO_CAUSE: u8 = 12;

/// The number of a line, and the reason why it is refused.
#[derive(Debug, Drop)]
pub(crate) struct Fault {
    line: usize,
    reason: u8,
}

impl Model for Fault {
    ghost use Rattle.define_proofs.specs.TreeLines.{TreeFault as Seen};

    ghost Value = { Seen };

    ghost view = { λ f. record { line = f.line; reason = f.reason } };
}

impl Fault {
    /// Returns a fault.
    fn new(line: usize, reason: u8) -> Fault
        ensures { result ≡ record { line = line; reason = reason } }
    {
        Fault { line, reason }
    }

    /// Returns the number of the line.
    pub(crate) fn line(&self) -> usize
        ensures { result ≡ self.now.line }
    {
        self.line
    }

    /// Returns the reason.
    pub(crate) fn reason(&self) -> u8
        ensures { result ≡ self.now.reason }
    {
        self.reason
    }
}

/// How the next front begins, or None if the tree is complete.
#[derive(Debug, Drop)]
pub(crate) struct Place {
    beginning: Option<Vec<usize>>,
}

impl Model for Place {
    ghost use Rattle.std.specs.Prelude.{List, ℕ, Option, option_map};

    ghost Value = { Option (List ℕ) };

    ghost view = { λ p. option_map (λ counts. counts.items) p.beginning };
}

/// Finds the first fault in the lines of a tree over the classes and rows of a stage. The first line has the number `number`.
pub(crate) fn tree_fault<L: Ledger>(
    alloc: Global,
    terms: &Terms,
    number: usize,
    lines: &[FrontLine],
    steps: &mut Steps<L>,
) -> Result<Option<Fault>, AllocError>
    requires { AreTerms terms.now }
    ensures fault { IfOk result (λ fault. fault ≡ fault_from terms.now.classes terms.now.closed.items terms.now.row number (Some []) lines.now) }
    ensures steps { steps.new ≤ steps.old + length lines.now }
{
    let mut tally = Tally::new(alloc, &terms.classes)?;
    let mut place = Place {
        beginning: Some(Vec::new(alloc)),
    };
    for (k, line) in lines.iter().enumerate() {
        match pass_line(alloc, terms, &mut tally, &place, line, steps)? {
            Ok(next) => place = next,
            Err(reason) => return Ok(Some(Fault::new(lines_after(number, k)?, reason))),
        }
    }
    if place.beginning.is_none() {
        return Ok(None);
    }
    Ok(Some(Fault::new(lines_after(number, lines.len())?, NO_NEXT_LINE)))
}

/// Passes a line. Returns how the line after it begins, or the reason why the line is refused. Only a line that comes next is judged.
fn pass_line<L: Ledger>(
    alloc: Global,
    terms: &Terms,
    tally: &mut Tally,
    place: &Place,
    line: &FrontLine,
    steps: &mut Steps<L>,
) -> Result<Result<Place, u8>, AllocError>
    requires terms { AreTerms terms.now }
    requires within { BeginningFits terms.now.classes place.now }
    requires begins { Tracks terms.now.classes [] terms.now.classes.classes tally.old }
    ensures step { IfOk result (λ step. step ≡ next terms.now.classes terms.now.closed.items terms.now.row place.now line.now) }
    ensures within { IfOk result (λ step. IfOk step (λ place. BeginningFits terms.now.classes place)) }
    ensures again { OnOk result (Tracks terms.now.classes [] terms.now.classes.classes tally.new) }
    ensures one { steps.new ≤ steps.old + 1 }
{
    let Some(beginning) = &place.beginning else {
        return Ok(Err(NO_NEXT_LINE));
    };
    let classes = &terms.classes;
    classes.facts();
    if !continues(alloc, classes.classes(), beginning, line.front())? {
        return Ok(Err(NO_NEXT_LINE));
    }
    if !judge(terms, tally, line.front(), line.cause(), steps) {
        return Ok(Err(NO_CAUSE));
    }
    let beginning = turned(alloc, classes.classes(), line.front())?;
    Ok(Ok(Place { beginning }))
}
